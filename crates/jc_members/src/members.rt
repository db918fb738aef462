//! The members of a line.

ghost use Rattle.std.specs.Prelude.{◌≡◌, IfOk, IsTrue, None, bytes_eq, map, option_map};
ghost use Rattle.std.specs.List.{list_any};
ghost use Rattle.serde_json.specs.Data.{no_members};
ghost use Rattle.jc_json.specs.View.{view, members_view, ordered_view};
ghost use Rattle.jc_json.specs.Field.{needed_object, needed_list};
ghost use Rattle.jc_rows.specs.Templates.{is_among};
ghost use Rattle.jc_members.specs.LineCauses.{Says, read_as};
ghost use Rattle.jc_members.specs.Members.{is_unknown, unknown_among, unknown_in, only_known, whole_number_in, given_number_in};

use crate::causes::{LineFault, broken};
use jc_json::{Ordered, Trail, Value, in_order, may_number, need_list, need_number, need_object};
use jc_types::Want;
use std::alloc::Global;

// Whether a name is one of the known ones.
fn is_known(known: &[&str], name: &str) -> bool
    ensures { result ≡ list_any (λ k. bytes_eq k.now name.now) known.now }
{
    known.iter().any(|other| *other == name)
}

// Whether a name is one of the known ones, as their bytes.
fn is_among(known: &[&str], name: &str) -> bool
    ensures { result ≡ is_among (map (λ k. k.now) known.now) name.now }
{
    is_known(known, name)
}

// Whether a member is given and not known.
fn is_unknown(known: &[&str], name: &str, value: &Value) -> bool
    ensures { result ≡ is_unknown (map (λ k. k.now) known.now) name.now (view value.now) }
{
    match value {
        Value::Null => false,
        _ => !is_among(known, name),
    }
}

// Whether each member is known; so no order of them need be made.
fn are_known(members: &[(&str, Value)], known: &[&str]) -> bool
    ensures { IsTrue result
        → unknown_among (map (λ k. k.now) known.now) (members_view members.now no_members) ≡ None }
{
    for member in members {
        if is_unknown(known, member.0, &member.1) {
            return false;
        }
    }
    true
}

// The name of the first member that is not known.
fn first_unknown<'v, 'a>(members: &Ordered<'v, 'a>, known: &[&str]) -> Option<&'v str>
    ensures { option_map (λ name. name.now) result
        ≡ unknown_among (map (λ k. k.now) known.now) (ordered_view members.now.entries) }
{
    for (name, value) in members.iter() {
        if is_unknown(known, *name, *value) {
            return Some(*name);
        }
    }
    None
}

// The name of the first of these members that is not known.
fn unknown_of<'v, 'a>(
    alloc: Global,
    members: &'v [(&'a str, Value<'a>)],
    known: &[&str],
) -> Result<Option<&'v str>, Want>
    ensures { IfOk result (λ o. option_map (λ name. name.now) o
        ≡ unknown_among (map (λ k. k.now) known.now) (members_view members.now no_members)) }
{
    if are_known(members, known) {
        return Ok(None);
    }
    let ordered = in_order(alloc, members)?;
    Ok(first_unknown(&ordered, known))
}

// The name of the first member of an object that is not known.
#[tactic(auto, unfolding(crate::specs::Members::unknown_in))]
fn unknown_in<'v, 'a>(
    alloc: Global,
    object: &'v Value<'a>,
    known: &[&str],
) -> Result<Option<&'v str>, Want>
    ensures { IfOk result (λ o. option_map (λ name. name.now) o
        ≡ unknown_in (map (λ k. k.now) known.now) (view object.now)) }
{
    match object.as_object() {
        Some(members) => unknown_of(alloc, members, known),
        None => Ok(None),
    }
}

/// That an object has no member but the known ones.
#[tactic(auto, unfolding(crate::specs::Members::only_known))]
pub fn check_known(
    alloc: Global,
    object: &Value,
    path: &Trail,
    known: &[&str],
) -> Result<(), LineFault>
    ensures { Says (λ u. u) result
        (only_known path.now (map (λ k. k.now) known.now) (view object.now)) }
{
    match unknown_in(alloc, object, known)? {
        None => Ok(()),
        Some(name) => Err(broken(path, name, 28)),
    }
}

/// A whole number from `least` to `greatest`.
#[tactic(auto, unfolding(crate::specs::Members::whole_number_in))]
pub fn read_number(
    alloc: Global,
    object: &Value,
    path: &Trail,
    name: &str,
    least: u32,
    greatest: u32,
) -> Result<u32, LineFault>
    ensures { Says (λ n. n) result
        (whole_number_in path.now name.now least greatest (view object.now)) }
{
    let number = need_number(
        alloc,
        object,
        path,
        name,
        i64::from(least),
        i64::from(greatest),
    )?;
    Ok(number as u32)
}

/// A whole number from `least` to `greatest`, where it is given.
#[tactic(auto, unfolding(crate::specs::Members::given_number_in))]
pub fn read_given_number(
    alloc: Global,
    object: &Value,
    path: &Trail,
    name: &str,
    least: u32,
    greatest: u32,
) -> Result<Option<u32>, LineFault>
    ensures { Says (λ n. n) result
        (given_number_in path.now name.now least greatest (view object.now)) }
{
    match may_number(
        alloc,
        object,
        path,
        name,
        i64::from(least),
        i64::from(greatest),
    )? {
        None => Ok(None),
        Some(number) => Ok(Some(number as u32)),
    }
}

/// A member that must be an object.
pub fn read_object<'v, 'a>(
    alloc: Global,
    object: &'v Value<'a>,
    path: &Trail,
    name: &str,
) -> Result<&'v Value<'a>, LineFault>
    ensures { Says (λ found. view found.now) result
        (read_as (needed_object path.now name.now (view object.now))) }
{
    Ok(need_object(alloc, object, path, name)?)
}

/// The items of a member that must be a list.
pub fn read_list<'a>(
    alloc: Global,
    object: &Value<'a>,
    path: &Trail,
    name: &str,
) -> Result<&'a [Value<'a>], LineFault>
    ensures { Says (λ items. map view items.now) result
        (read_as (needed_list path.now name.now (view object.now))) }
{
    Ok(need_list(alloc, object, path, name)?)
}
