//! The rules of a success policy and the first that is met.

ghost use Rattle.std.specs.Prelude.{◌≡◌, ◌<◌, ◌^◌, is_some, length};
ghost use Rattle.jc_succpol.specs.SuccessRules.{is_met, met_place};

use crate::members::{count_within, includes};
use jc_ranges::Ranges;
use jc_types::{SuccessPolicy, SuccessRule};

// Whether the completed indexes meet the rule.
fn is_rule_met(rule: &SuccessRule, completed: &Ranges) -> bool
    ensures { result ≡ is_met rule.now completed.now }
{
    match (&rule.indexes, rule.count) {
        (None, None) => false,
        (Some(indexes), None) => includes(completed, indexes),
        (None, Some(count)) => count <= completed.len(),
        (Some(indexes), Some(count)) => count <= count_within(indexes, completed),
    }
}

// The place of the first rule that is met.
fn met_place(policy: &SuccessPolicy, completed: &Ranges) -> Option<usize>
    ensures { result ≡ met_place policy.now completed.now }
{
    policy
        .rules
        .as_slice()
        .iter()
        .position(|rule| is_rule_met(rule, completed))
}

/// Whether the completed indexes meet a rule of the success policy (KEP-3998).
pub fn is_met(policy: &SuccessPolicy, completed: &Ranges) -> bool
    ensures { result ≡ is_some (met_place policy.now completed.now) }
{
    met_place(policy, completed).is_some()
}

/// The place among a success policy's rules, counted from 0, of the first that the completed indexes
/// meet (KEP-3998); none where none is met.
///
/// A rule with indexes alone needs all of them. A rule with a count alone needs that many completed
/// indexes, and one with both needs that many of its own. A rule with neither is never met.
pub fn met(policy: &SuccessPolicy, completed: &Ranges) -> Option<u32>
    requires few_rules { length policy.now.rules < 2 ^ 32 }
    ensures { result ≡ met_place policy.now completed.now }
{
    match met_place(policy, completed) {
        None => None,
        Some(place) => Some(place as u32),
    }
}
