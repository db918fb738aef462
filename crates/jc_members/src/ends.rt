//! How the pods of a Job are to end.

ghost use Rattle.std.specs.Prelude.{◌≡◌, codes, map};
ghost use Rattle.jc_json.specs.View.{view};
ghost use Rattle.jc_policies.specs.FailurePolicies.{is_type};
ghost use Rattle.jc_members.specs.LineCauses.{Says};
ghost use Rattle.jc_members.specs.EndMembers.{end_members, end_said, end_said_at, rightly_many, ends_said};
ghost use Rattle.jc_members.specs.Items.{each_said};
ghost use Rattle.jc_members.specs.Members.{only_known, given_text_in};

use crate::causes::{Cause, LineFault, broken};
use crate::members::{check_known, read_given_number, read_list};
use jc_json::{Trail, Value, item_object, may_text, need_number};
use jc_policies::is_type;
use jc_types::{End, Ends, GREATEST_LIMIT, Text};
use std::alloc::Global;

// The condition that a pod then has, where one is given.
#[tactic(auto, unfolding(crate::specs::Members::given_text_in))]
fn read_condition(alloc: Global, end: &Value, path: &Trail) -> Result<Option<Text>, LineFault>
    ensures { Says (λ condition. condition) result
        (given_text_in path.now (codes "condition") 30 is_type (view end.now)) }
{
    let Some(text) = may_text(alloc, end, path, "condition")? else {
        return Ok(None);
    };
    if !is_type(text) {
        return Err(broken(path, "condition", 30));
    }
    Ok(Some(Text::from_str(alloc, text)?))
}

// The members of one end.
#[tactic(auto, unfolding(crate::specs::EndMembers::end_said))]
fn read_members(alloc: Global, end: &Value, path: &Trail) -> Result<End, LineFault>
    ensures { Says (λ end. end) result (end_said path.now (view end.now)) }
{
    let exit = need_number(alloc, end, path, "exitCode", 0, 255)?;
    let restarts = read_given_number(alloc, end, path, "restarts", 0, GREATEST_LIMIT)?;
    let condition = read_condition(alloc, end, path)?;
    Ok(End {
        exit: exit as i32,
        restarts: restarts.unwrap_or(0),
        condition,
    })
}

// That an end has no other member.
fn check_members(alloc: Global, end: &Value, path: &Trail) -> Result<(), LineFault>
    ensures { Says (λ u. u) result (only_known path.now end_members (view end.now)) }
{
    check_known(alloc, end, path, &["exitCode", "restarts", "condition"])
}

// One end, at its place in the list.
#[tactic(auto, unfolding(crate::specs::EndMembers::end_said_at))]
fn read_end(alloc: Global, item: &Value, list: &Trail, place: usize) -> Result<End, LineFault>
    ensures { Says (λ end. end) result (end_said_at list.now place (view item.now)) }
{
    let end = item_object(item, list, place)?;
    let path = list.path_at(place);
    check_members(alloc, end, &path)?;
    read_members(alloc, end, &path)
}

// That there are 1 to 100 of them.
#[tactic(auto, unfolding(crate::specs::EndMembers::rightly_many))]
fn check_many(items: &[Value], path: &Trail) -> Result<(), LineFault>
    ensures { Says (λ u. u) result (rightly_many path.now (map view items.now)) }
{
    if 0 < items.len() && items.len() <= 100 {
        return Ok(());
    }
    Err(LineFault::Bad {
        cause: Cause::Invalid {
            path: path.path()?,
            rule: 30,
        },
    })
}

// The ends of a list.
#[tactic(auto, using(crate::proofs::Fronts::one_more))]
fn read_items(alloc: Global, items: &[Value], path: &Trail) -> Result<Ends, LineFault>
    ensures { Says (λ ends. ends) result (each_said (end_said_at path.now) 0 (map view items.now)) }
{
    let mut ends = Ends::new(alloc);
    for (place, item) in items.iter().enumerate() {
        let end = read_end(alloc, item, path, place)?;
        ends.push(end)?;
    }
    Ok(ends)
}

/// How the pods of a Job are to end, by the member `ends`.
#[tactic(auto, unfolding(crate::specs::EndMembers::ends_said))]
pub fn read_ends(alloc: Global, value: &Value) -> Result<Ends, LineFault>
    ensures { Says (λ ends. ends) result (ends_said (view value.now)) }
{
    let path = Trail::new(alloc);
    let items = read_list(alloc, value, &path, "ends")?;
    let at = path.path_to("ends");
    check_many(items, &at)?;
    read_items(alloc, items, &at)
}
