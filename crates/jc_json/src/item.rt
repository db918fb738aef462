//! Readers of the items of a list.

ghost use Rattle.std.specs.Prelude.{◌≤ℤ◌, IfOk};
ghost use Rattle.jc_json.specs.Field.{item_number, item_object};
ghost use Rattle.jc_json.specs.Exact.{Gives};
ghost use Rattle.jc_json.specs.View.{view};

use crate::field::FieldFault;
use crate::numbers::{Unfit, number_within};
use crate::trail::Trail;
use crate::value::Value;
use std::alloc::Global;

/// The whole number that an item is, from `least` to `greatest`. `list` is the path of the list, and
/// `index` the item's place in it, from 0. A null is of another type.
///
/// # Errors
///
/// `WrongType` exactly where the item is no whole number of 64 bits, and `OutOfRange` exactly where
/// that number lies outside the bounds. `Want`: memory ran out.
#[tactic(auto, unfolding(crate::specs::Field::item_number))]
pub fn item_number(
    alloc: Global,
    item: &Value,
    list: &Trail,
    index: usize,
    least: i64,
    greatest: i64,
) -> Result<i64, FieldFault>
    ensures read { Gives (λ n. n) result
        (item_number list.now index least greatest (view item.now)) }
    ensures fits { IfOk result (λ n. (least ≤ℤ n) × (n ≤ℤ greatest)) }
{
    match number_within(item, least, greatest) {
        Ok(number) => Ok(number),
        Err(Unfit::OfType) => Err(FieldFault::WrongType {
            path: list.path_at(index).path()?,
        }),
        Err(Unfit::OfRange) => Err(FieldFault::OutOfRange {
            path: list.path_at(index).path()?,
        }),
    }
}

/// The item itself, which must be an object. `list` is the path of the list, and `index` the item's
/// place in it, from 0. A null is of another type.
///
/// # Errors
///
/// `WrongType` exactly where the item is no object. `Want`: memory ran out.
#[tactic(auto, unfolding(crate::specs::Field::item_object))]
pub fn item_object<'v, 'a>(
    item: &'v Value<'a>,
    list: &Trail,
    index: usize,
) -> Result<&'v Value<'a>, FieldFault>
    ensures { Gives (λ found. view found.now) result (item_object list.now index (view item.now)) }
{
    if item.is_object() {
        return Ok(item);
    }
    Err(FieldFault::WrongType {
        path: list.path_at(index).path()?,
    })
}
