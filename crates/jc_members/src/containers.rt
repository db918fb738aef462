//! What is reported of a pod's containers.

ghost use Rattle.std.specs.Prelude.{◌≡◌, ◌≤◌, ◌<◌, ◌≤ℤ◌, [], true, IfOk, IfSome, IsTrue, OnOk, is_some, length, map, option_map, pos, unwrap_or};
ghost use Rattle.serde_json.specs.Data.{boolean, member, null, no_members, put};
ghost use Rattle.jc_json.specs.View.{members_view, ordered_view, view};
ghost use Rattle.jc_json.specs.Field.{unless_null};
ghost use Rattle.jc_members.specs.LineCauses.{Says};
ghost use Rattle.jc_members.specs.Items.{all_said};
ghost use Rattle.jc_members.specs.Phases.{given_names, member_names, entry_in, entries_fit, container_numbers, put_names, names_in_either, exit_in, container_restarts, container_count, container_change, containers_in};

use crate::causes::{LineFault, broken};
use jc_json::{Ordered, Trail, Value, in_order, may_number, may_object};
use jc_rows::is_label;
use jc_types::{ContainerChange, ContainerChanges, Name, Want};
use std::alloc::Global;

// Exit codes and numbers of restarts are those of 32 bits.
const LEAST_EXIT: i64 = -2_147_483_648;

const GREATEST: i64 = 2_147_483_647;

// Whether a member counts as given.
fn is_given(value: &Value) -> bool
    ensures { result ≡ is_some (unless_null (view value.now)) }
{
    match value {
        Value::Null => false,
        _ => true,
    }
}

// The names of the members that are given.
fn given_names<'v, 'a>(alloc: Global, members: &Ordered<'v, 'a>) -> Result<Vec<&'v str>, Want>
    ensures { IfOk result (λ names. map (λ name. name.now) names.items
        ≡ given_names (ordered_view members.now.entries)) }
{
    let mut names = Vec::new(alloc);
    for (name, value) in members.iter() {
        if is_given(*value) {
            names.push(*name)?;
        }
    }
    Ok(names)
}

// The name of a member, where it is given.
fn given_name<'v>(alloc: Global, name: &'v str, value: &Value) -> Result<Vec<&'v str>, Want>
    ensures { IfOk result (λ names. map (λ name. name.now) names.items
        ≡ given_names (member name.now (view value.now) no_members)) }
{
    let mut names = Vec::new(alloc);
    if is_given(value) {
        names.push(name)?;
    }
    Ok(names)
}

// The names of those of these members that are given. One member is in order.
#[tactic(auto, using(crate::proofs::Named::one_member))]
fn names_of<'v, 'a>(
    alloc: Global,
    members: &'v [(&'a str, Value<'a>)],
) -> Result<Vec<&'v str>, Want>
    ensures { IfOk result (λ names. map (λ name. name.now) names.items
        ≡ given_names (members_view members.now no_members)) }
{
    if members.len() == 1 {
        return given_name(alloc, members[0].0, &members[0].1);
    }
    given_names(alloc, &in_order(alloc, members)?)
}

// The names of the members of an object that are given.
#[tactic(auto, unfolding(crate::specs::Phases::member_names))]
fn names_in<'v, 'a>(alloc: Global, value: &'v Value<'a>) -> Result<Vec<&'v str>, Want>
    ensures { IfOk result (λ names. map (λ name. name.now) names.items
        ≡ member_names (view value.now)) }
{
    match value.as_object() {
        Some(members) => names_of(alloc, members),
        None => Ok(Vec::new(alloc)),
    }
}

// The number that an object gives a container, where it gives one.
#[tactic(auto, unfolding(crate::specs::Phases::entry_in))]
fn read_entry(
    alloc: Global,
    numbers: &Value,
    path: &Trail,
    name: &str,
    least: i64,
    greatest: i64,
) -> Result<Option<i64>, LineFault>
    ensures read { Says (λ number. number) result
        (entry_in path.now least greatest (view numbers.now) name.now) }
    ensures fits { IfOk result (λ o. IfSome o (λ n. (least ≤ℤ n) × (n ≤ℤ greatest))) }
    ensures not_empty { IfOk result (λ _. 0 < length name.now) }
    ensures short { IfOk result (λ _. length name.now ≤ 63) }
{
    if !is_label(name.as_bytes()) {
        return Err(broken(path, name, 11));
    }
    Ok(may_number(alloc, numbers, path, name, least, greatest)?)
}

// That each container's number is right.
fn check_entries(
    alloc: Global,
    numbers: &Value,
    path: &Trail,
    names: &[&str],
    least: i64,
    greatest: i64,
) -> Result<(), LineFault>
    ensures { Says (λ u. u) result
        (entries_fit path.now least greatest (view numbers.now)
        (map (λ name. name.now) names.now)) }
{
    for name in names {
        read_entry(alloc, numbers, path, name, least, greatest)?;
    }
    Ok(())
}

// The value that is given, or else the other.
fn given_or<'v, 'a>(given: Option<&'v Value<'a>>, other: &'v Value<'a>) -> &'v Value<'a>
    ensures { view result.now ≡ unwrap_or (option_map (λ v. view v.now) given.entry) (view other.now) }
{
    if let Some(value) = given {
        return value;
    }
    other
}

// An object of numbers, each of which is right; `nothing` where none is given.
#[tactic(auto, unfolding(crate::specs::Phases::container_numbers))]
fn read_numbers<'v, 'a>(
    alloc: Global,
    value: &'v Value<'a>,
    nothing: &'v Value<'a>,
    name: &str,
    least: i64,
    greatest: i64,
) -> Result<&'v Value<'a>, LineFault>
    requires { view nothing.now ≡ null }
    ensures { Says (λ numbers. view numbers.now) result
        (container_numbers name.now least greatest (view value.now)) }
{
    let path = Trail::new(alloc);
    let numbers = given_or(may_object(alloc, value, &path, name)?, nothing);
    let names = names_in(alloc, numbers)?;
    check_entries(
        alloc,
        numbers,
        &path.path_to(name),
        names.as_slice(),
        least,
        greatest,
    )?;
    Ok(numbers)
}

// Puts a name among the members, with a value that is true.
fn put_name<'v, 'a>(
    members: &mut Ordered<'v, 'a>,
    name: &'v str,
    value: &'v Value<'a>,
) -> Result<(), Want>
    requires { view value.now ≡ boolean true }
    ensures { OnOk result (ordered_view members.new.entries
        ≡ put name.now (boolean true) (ordered_view members.old.entries)) }
{
    drop(members.insert(name, value)?);
    Ok(())
}

// Puts names among the members, each with a value that is true.
fn put_names<'v, 'a>(
    members: &mut Ordered<'v, 'a>,
    names: &[&'v str],
    value: &'v Value<'a>,
) -> Result<(), Want>
    requires { view value.now ≡ boolean true }
    ensures { OnOk result (ordered_view members.new.entries
        ≡ put_names (map (λ name. name.now) names.now) (ordered_view members.old.entries)) }
{
    for name in names {
        put_name(members, *name, value)?;
    }
    Ok(())
}

// Members that are named as those of both, each with that value.
fn both_of<'v, 'a>(
    alloc: Global,
    exits: &[&'v str],
    restarts: &[&'v str],
    value: &'v Value<'a>,
) -> Result<Ordered<'v, 'a>, Want>
    requires { view value.now ≡ boolean true }
    ensures { IfOk result (λ both. ordered_view both.entries
        ≡ put_names (map (λ name. name.now) restarts.now)
        (put_names (map (λ name. name.now) exits.now) no_members)) }
{
    let mut both = Ordered::new(alloc);
    put_names(&mut both, exits, value)?;
    put_names(&mut both, restarts, value)?;
    Ok(both)
}

// The exit code of a container, where one is given.
#[tactic(auto, unfolding(crate::specs::Phases::exit_in))]
fn read_exit(alloc: Global, exits: &Value, name: &str) -> Result<Option<i32>, LineFault>
    ensures read { Says (λ exit. exit) result (exit_in (view exits.now) name.now) }
    ensures not_empty { IfOk result (λ _. 0 < length name.now) }
    ensures short { IfOk result (λ _. length name.now ≤ 63) }
{
    let line = Trail::new(alloc);
    let path = line.path_to("exitCodes");
    match read_entry(alloc, exits, &path, name, LEAST_EXIT, GREATEST)? {
        None => Ok(None),
        Some(exit) => Ok(Some(exit as i32)),
    }
}

// How often a container was restarted, as a whole number, where that is given.
#[tactic(auto, unfolding(crate::specs::Phases::container_restarts))]
fn read_restarts(alloc: Global, restarts: &Value, name: &str) -> Result<Option<i64>, LineFault>
    ensures read { Says (λ count. count) result (container_restarts (view restarts.now) name.now) }
    ensures fits { IfOk result (λ o. IfSome o (λ n. (pos 0 ≤ℤ n) × (n ≤ℤ pos 2147483647))) }
{
    let line = Trail::new(alloc);
    let path = line.path_to("restartCounts");
    read_entry(alloc, restarts, &path, name, 0, GREATEST)
}

// How often a container was restarted, where that is given.
#[tactic(auto, unfolding(crate::specs::Phases::container_count))]
fn read_count(alloc: Global, restarts: &Value, name: &str) -> Result<Option<u32>, LineFault>
    ensures { Says (λ count. count) result (container_count (view restarts.now) name.now) }
{
    match read_restarts(alloc, restarts, name)? {
        None => Ok(None),
        Some(count) => Ok(Some(count as u32)),
    }
}

// What is said of one container.
#[tactic(auto, unfolding(crate::specs::Phases::container_change))]
fn read_change(
    alloc: Global,
    exits: &Value,
    restarts: &Value,
    name: &str,
) -> Result<ContainerChange, LineFault>
    ensures { Says (λ change. change) result
        (container_change (view exits.now) (view restarts.now) name.now) }
{
    let exit = read_exit(alloc, exits, name)?;
    let restarts = read_count(alloc, restarts, name)?;
    Ok(ContainerChange {
        name: Name::from_text(alloc, name)?,
        exit,
        restarts,
    })
}

// What is said of each of the containers.
#[tactic(auto, using(crate::proofs::Fronts::one_more))]
fn read_changes(
    alloc: Global,
    exits: &Value,
    restarts: &Value,
    names: &[&str],
) -> Result<ContainerChanges, LineFault>
    ensures { Says (λ changes. changes) result
        (all_said (container_change (view exits.now) (view restarts.now))
        (map (λ name. name.now) names.now)) }
{
    let mut changes = ContainerChanges::new(alloc);
    for name in names {
        let change = read_change(alloc, exits, restarts, name)?;
        changes.push(change)?;
    }
    Ok(changes)
}

// Whether the names of both are those of the first, and in order: one name is, beside none.
fn is_one(exits: &[&str], restarts: &[&str]) -> bool
    ensures few { IsTrue result → length (map (λ name. name.now) exits.now) ≤ 1 }
    ensures none { IsTrue result → map (λ name. name.now) restarts.now ≡ [] }
{
    exits.len() <= 1 && restarts.is_empty()
}

// What is said of each container that either object names.
#[tactic(auto, using(crate::proofs::Named::either_named, crate::proofs::Named::one_named))]
fn read_both(alloc: Global, exits: &Value, restarts: &Value) -> Result<ContainerChanges, LineFault>
    ensures { Says (λ changes. changes) result
        (all_said (container_change (view exits.now) (view restarts.now))
        (names_in_either (view exits.now) (view restarts.now))) }
{
    let given = Value::True;
    let exit_names = names_in(alloc, exits)?;
    let restart_names = names_in(alloc, restarts)?;
    if is_one(exit_names.as_slice(), restart_names.as_slice()) {
        return read_changes(alloc, exits, restarts, exit_names.as_slice());
    }
    let both = both_of(
        alloc,
        exit_names.as_slice(),
        restart_names.as_slice(),
        &given,
    )?;
    let names = given_names(alloc, &both)?;
    read_changes(alloc, exits, restarts, names.as_slice())
}

// What both members say, where this stands for one that is not given.
#[tactic(auto, unfolding(crate::specs::Phases::containers_in))]
fn read_given<'v, 'a>(
    alloc: Global,
    value: &'v Value<'a>,
    nothing: &'v Value<'a>,
) -> Result<ContainerChanges, LineFault>
    requires { view nothing.now ≡ null }
    ensures { Says (λ changes. changes) result (containers_in (view value.now)) }
{
    let exits = read_numbers(alloc, value, nothing, "exitCodes", LEAST_EXIT, GREATEST)?;
    let restarts = read_numbers(alloc, value, nothing, "restartCounts", 0, GREATEST)?;
    read_both(alloc, exits, restarts)
}

/// What the members `exitCodes` and `restartCounts` say together, a change for each container.
pub fn read_containers(alloc: Global, value: &Value) -> Result<ContainerChanges, LineFault>
    ensures { Says (λ changes. changes) result (containers_in (view value.now)) }
{
    let nothing = Value::Null;
    read_given(alloc, value, &nothing)
}
