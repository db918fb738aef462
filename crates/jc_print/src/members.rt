//! JSON objects by their members.

ghost use Rattle.std.specs.Prelude.{◌≡◌, OnOk, Some, option_map};
ghost use Rattle.serde_json.specs.Data.{boolean, string};
ghost use Rattle.serde_json.specs.View.{view, members_view};
ghost use Rattle.jc_print.specs.PrintedMembers.{with_json_member, number_data, unless_zero};

use jc_types::Want;
use serde_json::{Map, Value};
use std::alloc::Global;

/// Members in byte order of their names.
pub type Members = Map<String, Value>;

/// Puts a member.
#[tactic(auto, unfolding(crate::specs::PrintedMembers::with_json_member))]
pub fn put_value(members: &mut Members, alloc: Global, name: &str, value: Value) -> Result<(), Want>
    ensures { OnOk result (members_view members.new.entries
        ≡ with_json_member name.now (Some (view value)) (members_view members.old.entries)) }
{
    serde_json::put(members, alloc, name, value)
}

/// Puts a member where it is given.
#[tactic(auto, unfolding(crate::specs::PrintedMembers::with_json_member))]
pub fn put_given(
    members: &mut Members,
    alloc: Global,
    name: &str,
    value: Option<Value>,
) -> Result<(), Want>
    ensures { OnOk result (members_view members.new.entries
        ≡ with_json_member name.now (option_map view value) (members_view members.old.entries)) }
{
    match value {
        None => Ok(()),
        Some(value) => serde_json::put(members, alloc, name, value),
    }
}

/// Puts a text.
pub fn put_text(members: &mut Members, alloc: Global, name: &str, text: &str) -> Result<(), Want>
    ensures { OnOk result (members_view members.new.entries
        ≡ with_json_member name.now (Some (string text.now)) (members_view members.old.entries)) }
{
    let value = Value::try_from_str(alloc, text)?;
    put_value(members, alloc, name, value)
}

/// Puts a number.
pub fn put_number(members: &mut Members, alloc: Global, name: &str, number: u32) -> Result<(), Want>
    ensures { OnOk result (members_view members.new.entries
        ≡ with_json_member name.now (Some (number_data number)) (members_view members.old.entries)) }
{
    put_value(members, alloc, name, Value::from(number))
}

/// Puts a truth.
pub fn put_bool(members: &mut Members, alloc: Global, name: &str, truth: bool) -> Result<(), Want>
    ensures { OnOk result (members_view members.new.entries
        ≡ with_json_member name.now (Some (boolean truth)) (members_view members.old.entries)) }
{
    put_value(members, alloc, name, Value::from(truth))
}

/// Puts a truth where it is given.
#[tactic(auto, unfolding(crate::specs::PrintedMembers::with_json_member))]
pub fn put_given_bool(
    members: &mut Members,
    alloc: Global,
    name: &str,
    truth: Option<bool>,
) -> Result<(), Want>
    ensures { OnOk result (members_view members.new.entries
        ≡ with_json_member name.now (option_map boolean truth) (members_view members.old.entries)) }
{
    match truth {
        None => Ok(()),
        Some(truth) => put_bool(members, alloc, name, truth),
    }
}

/// Puts a number, unless it is 0.
#[tactic(auto, unfolding(crate::specs::PrintedMembers::with_json_member))]
pub fn put_unless_zero(
    members: &mut Members,
    alloc: Global,
    name: &str,
    number: u64,
) -> Result<(), Want>
    ensures { OnOk result (members_view members.new.entries
        ≡ with_json_member name.now (unless_zero number) (members_view members.old.entries)) }
{
    if number == 0 {
        return Ok(());
    }
    serde_json::put(members, alloc, name, Value::from(number))
}
