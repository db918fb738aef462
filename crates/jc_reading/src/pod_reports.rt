//! The line of a script that the printed report of a pod is turned into.

ghost use Rattle.std.specs.Prelude.{◌≡◌, IfOk, OnOk, codes, map, option_map, option_and_then, unwrap_or};
ghost use Rattle.serde_json.specs.Data.{null, no_items, no_members, object};
ghost use Rattle.serde_json.specs.Find.{as_array, as_str, get};
ghost use Rattle.serde_json.specs.View.{items_view, members_view, view};
ghost use Rattle.jc_reading.specs.Turned.{items_at, numbers_by_name, put_named, report_of, with_numbers};

use jc_print::{Members, put_value};
use jc_types::Want;
use serde_json::{Map, Value};
use std::alloc::Global;

// The member of that name; null where there is none.
fn member_or_null(alloc: Global, value: &Value, name: &str) -> Result<Value, Want>
    ensures { IfOk result (λ v. view v ≡ unwrap_or (get name.now (view value.now)) null) }
{
    match value.get(name) {
        Some(found) => found.clone(),
        None => Ok(Value::Null),
    }
}

// The text of the member of that name.
fn text_at<'v>(object: &'v Value, name: &str) -> Option<&'v str>
    ensures { option_map (λ s. s.now) result
        ≡ option_and_then as_str (get name.now (view object.now)) }
{
    match object.get(name) {
        Some(value) => value.as_str(),
        None => None,
    }
}

// Puts the number of a container by its name, where both are given.
#[tactic(auto, unfolding(jc_print::specs::PrintedMembers::with_json_member))]
fn put_number(
    members: &mut Members,
    alloc: Global,
    container: &Value,
    field: &str,
) -> Result<(), Want>
    ensures { OnOk result (members_view members.new.entries
        ≡ put_named (option_and_then as_str (get (codes "name") (view container.now)))
        (get field.now (view container.now)) (members_view members.old.entries)) }
{
    let Some(name) = text_at(container, "name") else {
        return Ok(());
    };
    match container.get(field) {
        Some(number) => put_value(members, alloc, name, number.clone()?),
        None => Ok(()),
    }
}

// The numbers of that kind by the names of the containers.
fn numbers_in(alloc: Global, containers: &[Value], field: &str) -> Result<Value, Want>
    ensures { IfOk result (λ v. view v
        ≡ object (numbers_by_name field.now (items_view containers.now) no_members)) }
{
    let mut members = Map::new(alloc);
    for container in containers {
        put_number(&mut members, alloc, container, field)?;
    }
    Ok(Value::Object(members))
}

// The items of the member of that name; none where it is no list.
fn items_at<'v>(value: &'v Value, name: &str) -> &'v [Value]
    ensures { items_view result.now ≡ items_at name.now (view value.now) }
{
    match value.get(name) {
        Some(Value::Array(items)) => items.as_slice(),
        _ => &[],
    }
}

// Puts the numbers of the containers.
#[tactic(auto, unfolding(jc_print::specs::PrintedMembers::with_json_member))]
fn put_numbers(members: &mut Members, alloc: Global, report: &Value) -> Result<(), Want>
    ensures { OnOk result (members_view members.new.entries
        ≡ with_numbers (items_at (codes "containers") (view report.now))
        (members_view members.old.entries)) }
{
    let containers = items_at(report, "containers");
    let restarts = numbers_in(alloc, containers, "restartCount")?;
    put_value(members, alloc, "restartCounts", restarts)?;
    let exits = numbers_in(alloc, containers, "exitCode")?;
    put_value(members, alloc, "exitCodes", exits)?;
    Ok(())
}

/// The line of a script, by the printed value of a report.
#[tactic(auto, unfolding(crate::specs::Turned::report_of, jc_print::specs::PrintedMembers::with_json_member))]
pub fn report_of(alloc: Global, report: &Value) -> Result<Value, Want>
    ensures { IfOk result (λ v. view v ≡ report_of (view report.now)) }
{
    let mut members = Map::new(alloc);
    let phase = member_or_null(alloc, report, "phase")?;
    put_value(&mut members, alloc, "phase", phase)?;
    put_numbers(&mut members, alloc, report)?;
    let conditions = member_or_null(alloc, report, "conditions")?;
    put_value(&mut members, alloc, "conditions", conditions)?;
    Ok(Value::Object(members))
}
