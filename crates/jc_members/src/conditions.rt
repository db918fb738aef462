//! The conditions that a pod is reported to have.

ghost use Rattle.std.specs.Prelude.{◌≡◌, codes, map};
ghost use Rattle.jc_json.specs.View.{view};
ghost use Rattle.jc_policies.specs.FailurePolicies.{is_type, truth_of};
ghost use Rattle.jc_members.specs.LineCauses.{Says};
ghost use Rattle.jc_members.specs.Items.{each_said};
ghost use Rattle.jc_members.specs.Members.{only_known, text_in};
ghost use Rattle.jc_members.specs.Phases.{condition_members, condition_truth, condition_of, condition_at, conditions_in};

use crate::causes::{LineFault, broken};
use crate::members::check_known;
use jc_json::{Trail, Value, given_items, item_object, may_list, may_text, need_text};
use jc_policies::{is_type, truth_of};
use jc_types::{PodCondition, PodConditions, Text, Truth};
use std::alloc::Global;

// The type of a condition.
#[tactic(auto, unfolding(crate::specs::Members::text_in))]
fn read_type(alloc: Global, condition: &Value, path: &Trail) -> Result<Text, LineFault>
    ensures { Says (λ kind. kind) result
        (text_in path.now (codes "type") 30 is_type (view condition.now)) }
{
    let text = need_text(alloc, condition, path, "type")?;
    if !is_type(text) {
        return Err(broken(path, "type", 30));
    }
    Ok(Text::from_str(alloc, text)?)
}

// The status of a condition.
#[tactic(auto, unfolding(crate::specs::Phases::condition_truth))]
fn read_truth(alloc: Global, condition: &Value, path: &Trail) -> Result<Truth, LineFault>
    ensures { Says (λ truth. truth) result (condition_truth path.now (view condition.now)) }
{
    let Some(text) = may_text(alloc, condition, path, "status")? else {
        return Ok(Truth::True);
    };
    match truth_of(text) {
        Some(truth) => Ok(truth),
        None => Err(broken(path, "status", 29)),
    }
}

// The members of one condition.
#[tactic(auto, unfolding(crate::specs::Phases::condition_of))]
fn read_members(alloc: Global, condition: &Value, path: &Trail) -> Result<PodCondition, LineFault>
    ensures { Says (λ condition. condition) result (condition_of path.now (view condition.now)) }
{
    let kind = read_type(alloc, condition, path)?;
    let truth = read_truth(alloc, condition, path)?;
    Ok(PodCondition { kind, truth })
}

// That a condition has no other member.
fn check_members(alloc: Global, condition: &Value, path: &Trail) -> Result<(), LineFault>
    ensures { Says (λ u. u) result
        (only_known path.now condition_members (view condition.now)) }
{
    check_known(alloc, condition, path, &["type", "status"])
}

// One condition, at its place in the list.
#[tactic(auto, unfolding(crate::specs::Phases::condition_at))]
fn read_condition(
    alloc: Global,
    item: &Value,
    list: &Trail,
    place: usize,
) -> Result<PodCondition, LineFault>
    ensures { Says (λ condition. condition) result (condition_at list.now place (view item.now)) }
{
    let condition = item_object(item, list, place)?;
    let path = list.path_at(place);
    check_members(alloc, condition, &path)?;
    read_members(alloc, condition, &path)
}

// The conditions of a list.
#[tactic(auto, using(crate::proofs::Fronts::one_more))]
fn read_items(alloc: Global, items: &[Value], path: &Trail) -> Result<PodConditions, LineFault>
    ensures { Says (λ conditions. conditions) result
        (each_said (condition_at path.now) 0 (map view items.now)) }
{
    let mut conditions = PodConditions::new(alloc);
    for (place, item) in items.iter().enumerate() {
        let condition = read_condition(alloc, item, path, place)?;
        conditions.push(condition)?;
    }
    Ok(conditions)
}

/// The conditions, by the member `conditions`.
#[tactic(auto, unfolding(crate::specs::Phases::conditions_in))]
pub fn read_conditions(alloc: Global, value: &Value) -> Result<PodConditions, LineFault>
    ensures { Says (λ conditions. conditions) result (conditions_in (view value.now)) }
{
    let path = Trail::new(alloc);
    let given = may_list(alloc, value, &path, "conditions")?;
    read_items(alloc, given_items(given), &path.path_to("conditions"))
}
