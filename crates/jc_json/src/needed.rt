//! Readers of members that must be there.

ghost use Rattle.std.specs.Prelude.{◌≤ℤ◌, IfOk, map};
ghost use Rattle.jc_json.specs.Field.{needed_text, needed_number, needed_list, needed_object};
ghost use Rattle.jc_json.specs.Exact.{Gives};
ghost use Rattle.jc_json.specs.View.{view};

use crate::field::FieldFault;
use crate::optional::{may_list, may_number, may_object, may_text};
use crate::path::Path;
use crate::trail::Trail;
use crate::value::Value;
use std::alloc::Global;

/// The text of a member that must be there. `path` is that of the object.
///
/// # Errors
///
/// `Missing` exactly where the member is absent, and the refusals of `may_text`.
#[tactic(auto, unfolding(crate::specs::Field::needed_text, crate::specs::Field::optional_text))]
pub fn need_text<'v, 'a>(
    alloc: Global,
    object: &'v Value<'a>,
    path: &Trail,
    name: &str,
) -> Result<&'v str, FieldFault>
    ensures { Gives (λ text. text.now) result
        (needed_text path.now name.now (view object.now)) }
{
    match may_text(alloc, object, path, name)? {
        Some(found) => Ok(found),
        None => Err(FieldFault::Missing {
            path: Path::of_member(alloc, path, name)?,
        }),
    }
}

/// The whole number of a member that must be there, from `least` to `greatest`. `path` is that of
/// the object.
///
/// # Errors
///
/// `Missing` exactly where the member is absent, and the refusals of `may_number`.
#[tactic(auto, unfolding(crate::specs::Field::needed_number, crate::specs::Field::optional_number))]
pub fn need_number(
    alloc: Global,
    object: &Value,
    path: &Trail,
    name: &str,
    least: i64,
    greatest: i64,
) -> Result<i64, FieldFault>
    ensures read { Gives (λ n. n) result
        (needed_number path.now name.now least greatest (view object.now)) }
    ensures fits { IfOk result (λ n. (least ≤ℤ n) × (n ≤ℤ greatest)) }
{
    match may_number(alloc, object, path, name, least, greatest)? {
        Some(found) => Ok(found),
        None => Err(FieldFault::Missing {
            path: Path::of_member(alloc, path, name)?,
        }),
    }
}

/// The items of a member that must be there and be a list. `path` is that of the object.
///
/// # Errors
///
/// `Missing` exactly where the member is absent, and the refusals of `may_list`.
#[tactic(auto, unfolding(crate::specs::Field::needed_list, crate::specs::Field::optional_list))]
pub fn need_list<'a>(
    alloc: Global,
    object: &Value<'a>,
    path: &Trail,
    name: &str,
) -> Result<&'a [Value<'a>], FieldFault>
    ensures { Gives (λ items. map view items.now) result
        (needed_list path.now name.now (view object.now)) }
{
    match may_list(alloc, object, path, name)? {
        Some(found) => Ok(found),
        None => Err(FieldFault::Missing {
            path: Path::of_member(alloc, path, name)?,
        }),
    }
}

/// A member that must be there and be an object. `path` is that of the object that has the member.
///
/// # Errors
///
/// `Missing` exactly where the member is absent, and the refusals of `may_object`.
#[tactic(auto, unfolding(crate::specs::Field::needed_object, crate::specs::Field::optional_object))]
pub fn need_object<'v, 'a>(
    alloc: Global,
    object: &'v Value<'a>,
    path: &Trail,
    name: &str,
) -> Result<&'v Value<'a>, FieldFault>
    ensures { Gives (λ found. view found.now) result
        (needed_object path.now name.now (view object.now)) }
{
    match may_object(alloc, object, path, name)? {
        Some(found) => Ok(found),
        None => Err(FieldFault::Missing {
            path: Path::of_member(alloc, path, name)?,
        }),
    }
}
