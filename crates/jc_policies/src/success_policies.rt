//! What a manifest says of a Job's success policy (KEP-3998).

ghost use Rattle.std.specs.Prelude.{◌≡◌, ◌&&◌, IfOk, codes, length, map, nat_le, nat_lt, unwrap_or, true};
ghost use Rattle.std.specs.Option.{option_map_or};
ghost use Rattle.jc_json.specs.View.{view};
ghost use Rattle.jc_json.specs.Place.{path_to};
ghost use Rattle.jc_rows.specs.ManifestRows.{Checks, Reads, each, rule_row};
ghost use Rattle.jc_log.specs.Requests.{is_indexed};
ghost use Rattle.jc_policies.specs.IndexSets.{set_of};
ghost use Rattle.jc_rows.specs.PodCountRows.{completions_of};
ghost use Rattle.jc_policies.specs.SuccessPolicies.{are_indexes, indexes_read, indexes_row, succeeded_indexes_in, is_reachable, count_in, count_row, count_refusal, says_something, success_rule_refusal, success_rule_in, success_rule_row};
ghost use Rattle.jc_policies.specs.SuccessPolicies.{success_rules_from, success_rules_refusal, success_rules_in, given_success_refusal, success_refusal, success_in};

use jc_json::{Trail, Value, may_number, may_object, may_text, member, need_list};
use jc_ranges::{Ranges, RangesFault};
use jc_rows::{Counts, ManifestFault, broken, broken_at, check_objects};
use jc_types::{GREATEST_COMPLETIONS, Mode, SuccessPolicy, SuccessRule, SuccessRules, Want};
use std::alloc::{AllocError, Global};

// The set that a text names, where it names one.
#[tactic(auto, using(crate::proofs::IndexSetFacts::names_set, crate::proofs::IndexSetFacts::breaks_set))]
fn set_of(alloc: Global, text: &str) -> Result<Option<Ranges>, Want>
    ensures { IfOk result (λ o. o ≡ set_of text.now) }
{
    match Ranges::parse(alloc, text.as_bytes()) {
        Ok(set) => Ok(Some(set)),
        Err(RangesFault::BadRanges { at: _ }) => Ok(None),
        Err(RangesFault::Want) => Err(AllocError),
    }
}

// Whether the set is not empty and has only indexes of a Job with so many completions.
#[tactic(auto, using(crate::proofs::Lists::all_below))]
fn are_indexes(completions: u32, set: &Ranges) -> bool
    ensures { result ≡ are_indexes completions set.now }
{
    0 < set.len() && set.below(completions) == set.len()
}

// The indexes that a text names, where it names some of a Job with so many completions.
fn indexes_read(alloc: Global, text: &str, completions: u32) -> Result<Option<Ranges>, Want>
    ensures { IfOk result (λ o. o ≡ indexes_read completions text.now) }
{
    let Some(set) = set_of(alloc, text)? else {
        return Ok(None);
    };
    if are_indexes(completions, &set) {
        return Ok(Some(set));
    }
    Ok(None)
}

// The indexes that count, where they are given.
#[tactic(auto, unfolding(jc_rows::specs::ManifestRows::given_text_row, crate::specs::SuccessPolicies::indexes_row, crate::specs::SuccessPolicies::succeeded_indexes_in))]
fn read_indexes(
    alloc: Global,
    rule: &Value,
    path: &Trail,
    completions: u32,
) -> Result<Option<Ranges>, ManifestFault>
    ensures { Reads (λ indexes. indexes) result (indexes_row completions path.now (view rule.now))
        (succeeded_indexes_in completions path.now (view rule.now)) }
{
    let Some(text) = may_text(alloc, rule, path, "succeededIndexes")? else {
        return Ok(None);
    };
    match indexes_read(alloc, text, completions)? {
        Some(set) => Ok(Some(set)),
        None => Err(broken(path, "succeededIndexes", 24)),
    }
}

// How many indexes have to succeed, where a number is given.
#[tactic(auto, unfolding(crate::specs::SuccessPolicies::count_row, crate::specs::SuccessPolicies::count_in))]
fn read_number(alloc: Global, rule: &Value, path: &Trail) -> Result<Option<u32>, ManifestFault>
    ensures { Reads (λ count. count) result (count_row path.now (view rule.now))
        (count_in path.now (view rule.now)) }
{
    let greatest = i64::from(GREATEST_COMPLETIONS);
    match may_number(alloc, rule, path, "succeededCount", 1, greatest)? {
        None => Ok(None),
        Some(number) => Ok(Some(number as u32)),
    }
}

// Whether so many of the indexes can succeed.
fn is_reachable(completions: u32, indexes: &Option<Ranges>, count: u32) -> bool
    ensures { result ≡ is_reachable completions indexes.now count }
{
    if completions < count {
        return false;
    }
    match indexes {
        Some(set) => count <= set.len(),
        None => true,
    }
}

// That so many can succeed, where a number is given.
fn check_reachable(
    path: &Trail,
    completions: u32,
    indexes: &Option<Ranges>,
    count: Option<u32>,
) -> Result<(), ManifestFault>
    ensures { Checks result (rule_row (path_to path.now (codes "succeededCount")) 25
        (option_map_or (is_reachable completions indexes.now) count true)) }
{
    match count {
        Some(count) if !is_reachable(completions, indexes, count) => {
            Err(broken(path, "succeededCount", 25))
        }
        _ => Ok(()),
    }
}

// How many of the indexes have to succeed, where a number is given.
#[tactic(auto, unfolding(crate::specs::SuccessPolicies::count_refusal))]
fn read_count(
    alloc: Global,
    rule: &Value,
    path: &Trail,
    completions: u32,
    indexes: &Option<Ranges>,
) -> Result<Option<u32>, ManifestFault>
    requires { indexes.now ≡ succeeded_indexes_in completions path.now (view rule.now) }
    ensures { Reads (λ count. count) result (count_refusal completions path.now (view rule.now))
        (count_in path.now (view rule.now)) }
{
    let count = read_number(alloc, rule, path)?;
    check_reachable(path, completions, indexes, count)?;
    Ok(count)
}

// Whether a rule says which indexes or how many.
#[tactic(auto, unfolding(crate::specs::SuccessPolicies::says_something))]
fn says_something(rule: &Value) -> bool
    ensures { result ≡ says_something (view rule.now) }
{
    match member(rule, "succeededIndexes") {
        Some(_) => true,
        None => match member(rule, "succeededCount") {
            Some(_) => true,
            None => false,
        },
    }
}

// That a rule says something.
fn check_said(rule: &Value, path: &Trail) -> Result<(), ManifestFault>
    ensures { Checks result (rule_row path.now 23 (says_something (view rule.now))) }
{
    if says_something(rule) {
        return Ok(());
    }
    Err(broken_at(path, 23))
}

#[tactic(auto, unfolding(crate::specs::SuccessPolicies::success_rule_refusal, crate::specs::SuccessPolicies::success_rule_in))]
fn read_success_rule(
    alloc: Global,
    rule: &Value,
    path: &Trail,
    completions: u32,
) -> Result<SuccessRule, ManifestFault>
    ensures { Reads (λ rule. rule) result
        (success_rule_refusal completions path.now (view rule.now))
        (success_rule_in completions path.now (view rule.now)) }
{
    check_said(rule, path)?;
    let indexes = read_indexes(alloc, rule, path, completions)?;
    let count = read_count(alloc, rule, path, completions, &indexes)?;
    Ok(SuccessRule { indexes, count })
}

#[tactic(auto, unfolding(crate::specs::SuccessPolicies::success_rule_row))]
fn read_success_rules(
    alloc: Global,
    items: &[Value],
    path: &Trail,
    completions: u32,
) -> Result<SuccessRules, ManifestFault>
    ensures { Reads (λ rules. rules) result
        (each (success_rule_row completions path.now) 0 (map view items.now))
        (success_rules_from completions path.now 0 (map view items.now)) }
{
    let mut rules = SuccessRules::new(alloc);
    for (place, item) in items.iter().enumerate() {
        let rule = read_success_rule(alloc, item, &path.path_at(place), completions)?;
        rules.push(rule)?;
    }
    Ok(rules)
}

// That there are 1 to 20 rules.
fn check_some(items: &[Value], path: &Trail) -> Result<(), ManifestFault>
    ensures { Checks result (rule_row path.now 22
        (nat_lt 0 (length (map view items.now)) && nat_le (length (map view items.now)) 20)) }
{
    if 0 < items.len() && items.len() <= 20 {
        return Ok(());
    }
    Err(broken_at(path, 22))
}

#[tactic(auto, unfolding(crate::specs::SuccessPolicies::success_rules_refusal, crate::specs::SuccessPolicies::success_rules_in, jc_rows::specs::Templates::list_in))]
fn read_success_policy(
    alloc: Global,
    policy: &Value,
    path: &Trail,
    completions: u32,
) -> Result<SuccessPolicy, ManifestFault>
    ensures { Reads (λ policy. policy) result
        (success_rules_refusal completions path.now (view policy.now))
        (success_rules_in completions path.now (view policy.now)) }
{
    let items = need_list(alloc, policy, path, "rules")?;
    let at = path.path_to("rules");
    check_some(items, &at)?;
    check_objects(items, &at)?;
    let rules = read_success_rules(alloc, items, &at, completions)?;
    Ok(SuccessPolicy { rules })
}

fn is_indexed(mode: Mode) -> bool
    ensures { result ≡ is_indexed mode }
{
    match mode {
        Mode::Indexed => true,
        Mode::NonIndexed => false,
    }
}

// That the Job is Indexed.
fn check_mode(path: &Trail, mode: Mode) -> Result<(), ManifestFault>
    ensures { Checks result (rule_row path.now 21 (is_indexed mode)) }
{
    if is_indexed(mode) {
        return Ok(());
    }
    Err(broken_at(path, 21))
}

#[tactic(auto, unfolding(crate::specs::SuccessPolicies::given_success_refusal))]
fn read_given_success(
    alloc: Global,
    policy: &Value,
    path: &Trail,
    counts: &Counts,
) -> Result<SuccessPolicy, ManifestFault>
    ensures { Reads (λ policy. policy) result
        (given_success_refusal counts.now path.now (view policy.now))
        (success_rules_in (completions_of counts.now) path.now (view policy.now)) }
{
    check_mode(path, counts.mode)?;
    let completions = counts.completions.unwrap_or(0);
    let policy = read_success_policy(alloc, policy, path, completions)?;
    Ok(policy)
}

/// The success policy of the Job, where it has one.
#[tactic(auto, unfolding(crate::specs::SuccessPolicies::success_refusal, crate::specs::SuccessPolicies::success_in))]
pub fn read_success(
    alloc: Global,
    spec: &Value,
    path: &Trail,
    counts: &Counts,
) -> Result<Option<SuccessPolicy>, ManifestFault>
    ensures { Reads (λ policy. policy) result (success_refusal counts.now path.now (view spec.now))
        (success_in counts.now path.now (view spec.now)) }
{
    let Some(policy) = may_object(alloc, spec, path, "successPolicy")? else {
        return Ok(None);
    };
    let at = path.path_to("successPolicy");
    let policy = read_given_success(alloc, policy, &at, counts)?;
    Ok(Some(policy))
}
