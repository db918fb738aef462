//! Readers of members that may be absent.

ghost use Rattle.std.specs.Prelude.{◌≡◌, ◌≤ℤ◌, [], IfOk, IfSome, map, option_map, unwrap_or};
ghost use Rattle.serde_json.specs.Find.{as_array};
ghost use Rattle.jc_json.specs.Field.{listed_items, member_of, optional_text, optional_bool, optional_number, optional_list, optional_object};
ghost use Rattle.jc_json.specs.Exact.{Gives};
ghost use Rattle.jc_json.specs.View.{view};

use crate::field::FieldFault;
use crate::numbers::{Unfit, number_within};
use crate::path::Path;
use crate::trail::Trail;
use crate::value::Value;
use std::alloc::Global;

/// The member of that name, where it is there and not null. A value that is no object has no members.
#[tactic(auto, unfolding(crate::specs::Field::member_of))]
pub fn member<'v, 'a>(object: &'v Value<'a>, name: &str) -> Option<&'v Value<'a>>
    ensures { option_map (λ v. view v.now) result ≡ member_of name.now (view object.now) }
{
    match object.get(name) {
        Some(Value::Null) => None,
        found => found,
    }
}

// The items of a value that is a list.
#[tactic(auto, using(crate::proofs::Items::items_seen))]
fn listed<'a>(value: &Value<'a>) -> Option<&'a [Value<'a>]>
    ensures { option_map (λ items. map view items.now) result
        ≡ option_map listed_items (as_array (view value.now)) }
{
    value.as_array()
}

/// The items of a list that may be given; none of one that is not.
pub fn given_items<'v, 'a>(given: Option<&'v [Value<'a>]>) -> &'v [Value<'a>]
    ensures { map view result.now ≡ unwrap_or (option_map (λ items. map view items.now) given.entry) [] }
{
    match given {
        Some(items) => items,
        None => &[],
    }
}

/// The text of a member, or `None` where it is absent. `path` is that of the object.
///
/// # Errors
///
/// `WrongType` exactly where the member is no text. `Want`: memory ran out.
#[tactic(auto, unfolding(crate::specs::Field::optional_text))]
pub fn may_text<'v, 'a>(
    alloc: Global,
    object: &'v Value<'a>,
    path: &Trail,
    name: &str,
) -> Result<Option<&'v str>, FieldFault>
    ensures { Gives (option_map (λ text. text.now)) result
        (optional_text path.now name.now (view object.now)) }
{
    match member(object, name) {
        None => Ok(None),
        Some(Value::String(text)) => Ok(Some(*text)),
        Some(_) => Err(FieldFault::WrongType {
            path: Path::of_member(alloc, path, name)?,
        }),
    }
}

/// The boolean of a member, or `None` where it is absent. `path` is that of the object.
///
/// # Errors
///
/// `WrongType` exactly where the member is no boolean. `Want`: memory ran out.
#[tactic(auto, unfolding(crate::specs::Field::optional_bool))]
pub fn may_bool(
    alloc: Global,
    object: &Value,
    path: &Trail,
    name: &str,
) -> Result<Option<bool>, FieldFault>
    ensures { Gives (λ truth. truth) result (optional_bool path.now name.now (view object.now)) }
{
    match member(object, name) {
        None => Ok(None),
        Some(Value::True) => Ok(Some(true)),
        Some(Value::False) => Ok(Some(false)),
        Some(_) => Err(FieldFault::WrongType {
            path: Path::of_member(alloc, path, name)?,
        }),
    }
}

/// The whole number of a member, from `least` to `greatest`, or `None` where it is absent. `path` is
/// that of the object.
///
/// # Errors
///
/// `WrongType` exactly where the member is no whole number of 64 bits, and `OutOfRange` exactly
/// where that number lies outside the bounds. `Want`: memory ran out.
#[tactic(auto, unfolding(crate::specs::Field::optional_number))]
pub fn may_number(
    alloc: Global,
    object: &Value,
    path: &Trail,
    name: &str,
    least: i64,
    greatest: i64,
) -> Result<Option<i64>, FieldFault>
    ensures read { Gives (λ n. n) result
        (optional_number path.now name.now least greatest (view object.now)) }
    ensures fits { IfOk result (λ o. IfSome o (λ n. (least ≤ℤ n) × (n ≤ℤ greatest))) }
{
    let Some(found) = member(object, name) else {
        return Ok(None);
    };
    match number_within(found, least, greatest) {
        Ok(number) => Ok(Some(number)),
        Err(Unfit::OfType) => Err(FieldFault::WrongType {
            path: Path::of_member(alloc, path, name)?,
        }),
        Err(Unfit::OfRange) => Err(FieldFault::OutOfRange {
            path: Path::of_member(alloc, path, name)?,
        }),
    }
}

/// The items of a member that is a list, or `None` where it is absent. `path` is that of the object.
///
/// # Errors
///
/// `WrongType` exactly where the member is no list. `Want`: memory ran out.
#[tactic(auto, unfolding(crate::specs::Field::optional_list))]
pub fn may_list<'a>(
    alloc: Global,
    object: &Value<'a>,
    path: &Trail,
    name: &str,
) -> Result<Option<&'a [Value<'a>]>, FieldFault>
    ensures { Gives (option_map (λ items. map view items.now)) result
        (optional_list path.now name.now (view object.now)) }
{
    let Some(found) = member(object, name) else {
        return Ok(None);
    };
    match listed(found) {
        Some(items) => Ok(Some(items)),
        None => Err(FieldFault::WrongType {
            path: Path::of_member(alloc, path, name)?,
        }),
    }
}

/// A member that is an object, or `None` where it is absent. `path` is that of the object that has
/// the member.
///
/// # Errors
///
/// `WrongType` exactly where the member is no object. `Want`: memory ran out.
#[tactic(auto, unfolding(crate::specs::Field::optional_object))]
pub fn may_object<'v, 'a>(
    alloc: Global,
    object: &'v Value<'a>,
    path: &Trail,
    name: &str,
) -> Result<Option<&'v Value<'a>>, FieldFault>
    ensures { Gives (option_map (λ found. view found.now)) result
        (optional_object path.now name.now (view object.now)) }
{
    match member(object, name) {
        None => Ok(None),
        Some(found) if found.is_object() => Ok(Some(found)),
        Some(_) => Err(FieldFault::WrongType {
            path: Path::of_member(alloc, path, name)?,
        }),
    }
}
