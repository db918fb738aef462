//! What a manifest says of a Job's pod failure policy (KEP-3329).

ghost use Rattle.std.specs.Prelude.{◌≡◌, ◌++◌, None, bytes_eq, IfOk, codes, if◌then◌else◌, length, map, nat_le, Some};
ghost use Rattle.jc_json.specs.View.{view};
ghost use Rattle.jc_json.specs.Place.{path_to};
ghost use Rattle.jc_rows.specs.ManifestRows.{Checks, Reads, each, rule_row, text_row, given_text_row, object_in};
ghost use Rattle.jc_rows.specs.Templates.{never_restarts, list_in, is_among};
ghost use Rattle.jc_policies.specs.FailurePolicies.{action_named, operator_of, truth_of, is_action, is_operator, is_truth, operator_in, container_in, number_at, code_row, codes_in, rises_from, has_zero, is_operator_within, are_codes};
ghost use Rattle.jc_policies.specs.FailurePolicies.{values_refusal, exit_codes_refusal, exit_codes_in, is_type, pattern_refusal, type_in, truth_in, pattern_in, pattern_row, patterns_from, patterns_refusal, is_fail_index, action_row};
ghost use Rattle.jc_policies.specs.FailurePolicies.{action_in, action_refusal, is_no_empty_list, has_exit_codes, has_patterns, is_just_one, given_exit_codes_refusal, given_patterns_refusal, requirement_refusal, requirement_in};
ghost use Rattle.jc_policies.specs.FailurePolicies.{failure_rule_refusal, failure_rule_in, failure_rule_row, failure_rules_from, failure_rules_refusal, failure_rules_in, given_failure_refusal, failure_refusal, failure_in};

use jc_json::{Trail, Value, item_number, may_object, may_text, member, need_list, need_text};
use jc_rows::{ManifestFault, broken, broken_at, check_objects, never_restarts, read_object};
use jc_types::{
    Action, Codes, Copied, FailurePolicy, FailureRule, FailureRules, Name, Operator, Pattern,
    Patterns, Requirement, Restart, Template, Text, Truth, Want,
};
use std::alloc::Global;

fn action_named(text: &str) -> Option<Action>
    ensures { result ≡ action_named text.now }
{
    if text == "FailJob" {
        return Some(Action::FailJob);
    }
    if text == "Ignore" {
        return Some(Action::Ignore);
    }
    if text == "Count" {
        return Some(Action::Count);
    }
    if text == "FailIndex" {
        return Some(Action::FailIndex);
    }
    None
}

fn operator_of(text: &str) -> Option<Operator>
    ensures { result ≡ operator_of text.now }
{
    if text == "In" {
        return Some(Operator::Within);
    }
    if text == "NotIn" {
        return Some(Operator::NotWithin);
    }
    None
}

/// The status of a condition by its word; `None` where it is no such word (core/v1, `ConditionStatus`).
pub fn truth_of(text: &str) -> Option<Truth>
    ensures { result ≡ truth_of text.now }
{
    if text == "True" {
        return Some(Truth::True);
    }
    if text == "False" {
        return Some(Truth::False);
    }
    if text == "Unknown" {
        return Some(Truth::Unknown);
    }
    None
}

// How the exit codes of a rule are meant.
#[tactic(auto, unfolding(jc_rows::specs::ManifestRows::text_row, crate::specs::FailurePolicies::operator_in))]
fn read_operator(alloc: Global, exits: &Value, path: &Trail) -> Result<Operator, ManifestFault>
    ensures { Reads (λ operator. operator) result
        (text_row path.now (view exits.now) (codes "operator") 16 is_operator)
        (operator_in path.now (view exits.now)) }
{
    let text = need_text(alloc, exits, path, "operator")?;
    match operator_of(text) {
        Some(operator) => Ok(operator),
        None => Err(broken(path, "operator", 16)),
    }
}

// The codes of a list.
#[tactic(auto, unfolding(crate::specs::FailurePolicies::code_row, crate::specs::FailurePolicies::number_at))]
fn read_code(alloc: Global, item: &Value, path: &Trail, place: usize) -> Result<i32, ManifestFault>
    ensures { Reads (λ code. code) result (code_row path.now place (view item.now))
        (number_at path.now place (view item.now)) }
{
    let number = item_number(alloc, item, path, place, -2_147_483_648, 2_147_483_647)?;
    Ok(number as i32)
}

// Whether each number is above the one before it.
fn rises(codes: &[i32]) -> bool
    ensures { result ≡ rises_from None codes.now }
{
    let mut low: Option<i32> = None;
    for code in codes {
        match low {
            Some(below) if *code <= below => return false,
            _ => low = Some(*code),
        }
    }
    true
}

fn has_zero(codes: &[i32]) -> bool
    ensures { result ≡ has_zero codes.now }
{
    codes.iter().any(|code| *code == 0)
}

fn is_operator_within(operator: Operator) -> bool
    ensures { result ≡ is_operator_within operator }
{
    match operator {
        Operator::Within => true,
        Operator::NotWithin => false,
    }
}

// Whether a rule may have these codes.
fn are_codes(operator: Operator, codes: &[i32]) -> bool
    ensures { result ≡ are_codes operator codes.now }
{
    (0 < codes.len() && codes.len() <= 255)
        && (rises(codes) && !(is_operator_within(operator) && has_zero(codes)))
}

// The codes that a list has.
#[tactic(auto, unfolding(crate::specs::FailurePolicies::codes_in))]
fn read_codes(alloc: Global, items: &[Value], path: &Trail) -> Result<Codes, ManifestFault>
    ensures { Reads (λ codes. codes) result (each (code_row path.now) 0 (map view items.now))
        (codes_in path.now (map view items.now)) }
{
    let mut codes = Codes::new(alloc);
    for (place, item) in items.iter().enumerate() {
        let code = read_code(alloc, item, path, place)?;
        codes.push(code)?;
    }
    Ok(codes)
}

// The codes of a rule.
#[tactic(auto, unfolding(crate::specs::FailurePolicies::values_refusal, jc_rows::specs::Templates::list_in))]
fn read_values(
    alloc: Global,
    exits: &Value,
    path: &Trail,
    operator: Operator,
) -> Result<Codes, ManifestFault>
    requires { operator ≡ operator_in path.now (view exits.now) }
    ensures { Reads (λ codes. codes) result (values_refusal path.now (view exits.now))
        (codes_in (path_to path.now (codes "values")) (list_in path.now (view exits.now) (codes "values"))) }
{
    let items = need_list(alloc, exits, path, "values")?;
    let at = path.path_to("values");
    let codes = read_codes(alloc, items, &at)?;
    if !are_codes(operator, codes.as_slice()) {
        return Err(broken_at(&at, 17));
    }
    Ok(codes)
}

// Whether the name is that text.
fn is_text(name: &Name, text: &str) -> bool
    ensures { result ≡ bytes_eq name.now text.now }
{
    name.as_str() == text
}

// The name of that text among the names, where it is one.
fn find_name(names: &[Name], text: &str) -> Result<Option<Name>, Want>
    ensures { IfOk result (λ o.
        o ≡ (if is_among names.now text.now then Some text.now else None)) }
{
    for name in names {
        if is_text(name, text) {
            return Ok(Some(name.copy()?));
        }
    }
    Ok(None)
}

// The name of that text among the containers and init containers, where it is one.
fn named(template: &Template, text: &str) -> Result<Option<Name>, Want>
    ensures { let names = template.now.containers ++ template.now.inits in
        IfOk result (λ o. o ≡ (if is_among names text.now then Some text.now else None)) }
{
    match find_name(template.containers.as_slice(), text)? {
        Some(name) => Ok(Some(name)),
        None => find_name(template.inits.as_slice(), text),
    }
}

// The container whose exit codes count, where one is named.
#[tactic(auto, unfolding(jc_rows::specs::ManifestRows::given_text_row, crate::specs::FailurePolicies::container_in))]
fn read_container(
    alloc: Global,
    exits: &Value,
    path: &Trail,
    template: &Template,
) -> Result<Option<Name>, ManifestFault>
    ensures { Reads (λ name. name) result
        (given_text_row path.now (view exits.now) (codes "containerName") 18
        (is_among (template.now.containers ++ template.now.inits)))
        (container_in path.now (view exits.now)) }
{
    let Some(text) = may_text(alloc, exits, path, "containerName")? else {
        return Ok(None);
    };
    match named(template, text)? {
        Some(name) => Ok(Some(name)),
        None => Err(broken(path, "containerName", 18)),
    }
}

// What the exit codes of a pod have to be.
#[tactic(auto, unfolding(crate::specs::FailurePolicies::exit_codes_refusal, crate::specs::FailurePolicies::exit_codes_in))]
fn read_exit_codes(
    alloc: Global,
    exits: &Value,
    path: &Trail,
    template: &Template,
) -> Result<Requirement, ManifestFault>
    ensures { Reads (λ requirement. requirement) result
        (exit_codes_refusal (template.now.containers ++ template.now.inits) path.now (view exits.now))
        (exit_codes_in path.now (view exits.now)) }
{
    let container = read_container(alloc, exits, path, template)?;
    let operator = read_operator(alloc, exits, path)?;
    let values = read_values(alloc, exits, path, operator)?;
    Ok(Requirement::ExitCodes {
        container,
        operator,
        values,
    })
}

/// Whether the type of a pod's condition has 1 to 316 bytes.
pub fn is_type(text: &str) -> bool
    ensures { result ≡ is_type text.now }
{
    0 < text.len() && text.len() <= 316
}

// The type of a condition.
#[tactic(auto, unfolding(jc_rows::specs::ManifestRows::text_row, crate::specs::FailurePolicies::type_in))]
fn read_type(alloc: Global, pattern: &Value, path: &Trail) -> Result<Text, ManifestFault>
    ensures { Reads (λ kind. kind) result
        (text_row path.now (view pattern.now) (codes "type") 30 is_type)
        (type_in path.now (view pattern.now)) }
{
    let text = need_text(alloc, pattern, path, "type")?;
    if !is_type(text) {
        return Err(broken(path, "type", 30));
    }
    Ok(Text::from_str(alloc, text)?)
}

// The status of a condition.
#[tactic(auto, unfolding(jc_rows::specs::ManifestRows::given_text_row, crate::specs::FailurePolicies::truth_in))]
fn read_truth(alloc: Global, pattern: &Value, path: &Trail) -> Result<Truth, ManifestFault>
    ensures { Reads (λ truth. truth) result
        (given_text_row path.now (view pattern.now) (codes "status") 20 is_truth)
        (truth_in path.now (view pattern.now)) }
{
    let Some(text) = may_text(alloc, pattern, path, "status")? else {
        return Ok(Truth::True);
    };
    match truth_of(text) {
        Some(truth) => Ok(truth),
        None => Err(broken(path, "status", 20)),
    }
}

#[tactic(auto, unfolding(crate::specs::FailurePolicies::pattern_refusal, crate::specs::FailurePolicies::pattern_in))]
fn read_pattern(alloc: Global, pattern: &Value, path: &Trail) -> Result<Pattern, ManifestFault>
    ensures { Reads (λ pattern. pattern) result (pattern_refusal path.now (view pattern.now))
        (pattern_in path.now (view pattern.now)) }
{
    let kind = read_type(alloc, pattern, path)?;
    let truth = read_truth(alloc, pattern, path)?;
    Ok(Pattern { kind, truth })
}

// The patterns of a list.
#[tactic(auto, unfolding(crate::specs::FailurePolicies::pattern_row))]
fn read_patterns(alloc: Global, items: &[Value], path: &Trail) -> Result<Patterns, ManifestFault>
    ensures { Reads (λ patterns. patterns) result
        (each (pattern_row path.now) 0 (map view items.now))
        (patterns_from path.now 0 (map view items.now)) }
{
    let mut patterns = Patterns::new(alloc);
    for (place, item) in items.iter().enumerate() {
        let pattern = read_pattern(alloc, item, &path.path_at(place))?;
        patterns.push(pattern)?;
    }
    Ok(patterns)
}

// That a list has at most 20 items.
fn check_few(items: &[Value], path: &Trail, rule: u32) -> Result<(), ManifestFault>
    ensures { Checks result (rule_row path.now rule (nat_le (length (map view items.now)) 20)) }
{
    if items.len() <= 20 {
        return Ok(());
    }
    Err(broken_at(path, rule))
}

// The patterns of a list of at most 20.
#[tactic(auto, unfolding(crate::specs::FailurePolicies::patterns_refusal))]
fn read_few_patterns(
    alloc: Global,
    items: &[Value],
    path: &Trail,
) -> Result<Patterns, ManifestFault>
    ensures { Reads (λ patterns. patterns) result (patterns_refusal path.now (map view items.now))
        (patterns_from path.now 0 (map view items.now)) }
{
    check_few(items, path, 19)?;
    check_objects(items, path)?;
    let patterns = read_patterns(alloc, items, path)?;
    Ok(patterns)
}

// The action of that word.
#[tactic(auto, unfolding(jc_rows::specs::ManifestRows::text_row, crate::specs::FailurePolicies::action_in))]
fn read_known_action(alloc: Global, rule: &Value, path: &Trail) -> Result<Action, ManifestFault>
    ensures { Reads (λ action. action) result
        (text_row path.now (view rule.now) (codes "action") 14 is_action)
        (action_in path.now (view rule.now)) }
{
    let text = need_text(alloc, rule, path, "action")?;
    match action_named(text) {
        Some(action) => Ok(action),
        None => Err(broken(path, "action", 14)),
    }
}

fn is_fail_index(action: Action) -> bool
    ensures { result ≡ is_fail_index action }
{
    match action {
        Action::FailIndex => true,
        _ => false,
    }
}

// That an index fails by itself only where failures are limited by index.
fn check_action(path: &Trail, by_index: bool, action: Action) -> Result<(), ManifestFault>
    ensures { Checks result (action_row by_index path.now action) }
{
    if by_index || !is_fail_index(action) {
        return Ok(());
    }
    Err(broken(path, "action", 27))
}

// What a rule does.
#[tactic(auto, unfolding(crate::specs::FailurePolicies::action_refusal))]
fn read_action(
    alloc: Global,
    rule: &Value,
    path: &Trail,
    by_index: bool,
) -> Result<Action, ManifestFault>
    ensures { Reads (λ action. action) result (action_refusal by_index path.now (view rule.now))
        (action_in path.now (view rule.now)) }
{
    let action = read_known_action(alloc, rule, path)?;
    check_action(path, by_index, action)?;
    Ok(action)
}

// The exit codes of a rule.
#[tactic(auto, unfolding(crate::specs::FailurePolicies::given_exit_codes_refusal))]
fn read_given_exit_codes(
    alloc: Global,
    rule: &Value,
    path: &Trail,
    template: &Template,
) -> Result<Requirement, ManifestFault>
    ensures { Reads (λ requirement. requirement) result
        (given_exit_codes_refusal (template.now.containers ++ template.now.inits) path.now (view rule.now))
        (exit_codes_in (path_to path.now (codes "onExitCodes"))
        (object_in path.now (view rule.now) (codes "onExitCodes"))) }
{
    let exits = read_object(alloc, rule, path, "onExitCodes")?;
    let requirement = read_exit_codes(alloc, exits, &path.path_to("onExitCodes"), template)?;
    Ok(requirement)
}

// The patterns of a rule.
#[tactic(auto, unfolding(crate::specs::FailurePolicies::given_patterns_refusal, jc_rows::specs::Templates::list_in))]
fn read_given_patterns(alloc: Global, rule: &Value, path: &Trail) -> Result<Patterns, ManifestFault>
    ensures { Reads (λ patterns. patterns) result (given_patterns_refusal path.now (view rule.now))
        (patterns_from (path_to path.now (codes "onPodConditions")) 0
        (list_in path.now (view rule.now) (codes "onPodConditions"))) }
{
    let items = need_list(alloc, rule, path, "onPodConditions")?;
    let patterns = read_few_patterns(alloc, items, &path.path_to("onPodConditions"))?;
    Ok(patterns)
}

#[tactic(auto, unfolding(crate::specs::FailurePolicies::has_exit_codes))]
fn has_exit_codes(rule: &Value) -> bool
    ensures { result ≡ has_exit_codes (view rule.now) }
{
    match member(rule, "onExitCodes") {
        Some(_) => true,
        None => false,
    }
}

// Whether a value is anything but an empty list.
#[tactic(auto, using(jc_rows::proofs::Lists::items_counted))]
fn is_no_empty_list(value: &Value) -> bool
    ensures { result ≡ is_no_empty_list (view value.now) }
{
    match value.as_array() {
        Some(items) => 0 < items.len(),
        None => true,
    }
}

#[tactic(auto, unfolding(crate::specs::FailurePolicies::has_patterns))]
fn has_patterns(rule: &Value) -> bool
    ensures { result ≡ has_patterns (view rule.now) }
{
    match member(rule, "onPodConditions") {
        Some(patterns) => is_no_empty_list(patterns),
        None => false,
    }
}

// What a pod has to show.
#[tactic(auto, unfolding(crate::specs::FailurePolicies::requirement_refusal, crate::specs::FailurePolicies::requirement_in))]
fn read_requirement(
    alloc: Global,
    rule: &Value,
    path: &Trail,
    template: &Template,
) -> Result<Requirement, ManifestFault>
    ensures { Reads (λ requirement. requirement) result
        (requirement_refusal (template.now.containers ++ template.now.inits) path.now (view rule.now))
        (requirement_in path.now (view rule.now)) }
{
    if has_exit_codes(rule) {
        let requirement = read_given_exit_codes(alloc, rule, path, template)?;
        return Ok(requirement);
    }
    let patterns = read_given_patterns(alloc, rule, path)?;
    Ok(Requirement::Conditions { patterns })
}

// That a rule looks at exactly one of exit codes and conditions.
fn check_one(path: &Trail, exits: bool, patterns: bool) -> Result<(), ManifestFault>
    ensures { Checks result (rule_row path.now 15 (is_just_one exits patterns)) }
{
    if exits != patterns {
        return Ok(());
    }
    Err(broken_at(path, 15))
}

#[tactic(auto, unfolding(crate::specs::FailurePolicies::failure_rule_refusal, crate::specs::FailurePolicies::failure_rule_in))]
fn read_failure_rule(
    alloc: Global,
    rule: &Value,
    path: &Trail,
    template: &Template,
    by_index: bool,
) -> Result<FailureRule, ManifestFault>
    ensures { Reads (λ rule. rule) result
        (failure_rule_refusal by_index (template.now.containers ++ template.now.inits) path.now (view rule.now))
        (failure_rule_in path.now (view rule.now)) }
{
    let action = read_action(alloc, rule, path, by_index)?;
    check_one(path, has_exit_codes(rule), has_patterns(rule))?;
    let requirement = read_requirement(alloc, rule, path, template)?;
    Ok(FailureRule {
        action,
        requirement,
    })
}

#[tactic(auto, unfolding(crate::specs::FailurePolicies::failure_rule_row))]
fn read_failure_rules(
    alloc: Global,
    items: &[Value],
    path: &Trail,
    template: &Template,
    by_index: bool,
) -> Result<FailureRules, ManifestFault>
    ensures { Reads (λ rules. rules) result
        (each (failure_rule_row by_index (template.now.containers ++ template.now.inits) path.now) 0 (map view items.now))
        (failure_rules_from path.now 0 (map view items.now)) }
{
    let mut rules = FailureRules::new(alloc);
    for (place, item) in items.iter().enumerate() {
        let rule = read_failure_rule(alloc, item, &path.path_at(place), template, by_index)?;
        rules.push(rule)?;
    }
    Ok(rules)
}

#[tactic(auto, unfolding(crate::specs::FailurePolicies::failure_rules_refusal, crate::specs::FailurePolicies::failure_rules_in, jc_rows::specs::Templates::list_in))]
fn read_failure_policy(
    alloc: Global,
    policy: &Value,
    path: &Trail,
    template: &Template,
    by_index: bool,
) -> Result<FailurePolicy, ManifestFault>
    ensures { Reads (λ policy. policy) result
        (failure_rules_refusal by_index (template.now.containers ++ template.now.inits) path.now (view policy.now))
        (failure_rules_in path.now (view policy.now)) }
{
    let items = need_list(alloc, policy, path, "rules")?;
    let at = path.path_to("rules");
    check_few(items, &at, 12)?;
    check_objects(items, &at)?;
    let rules = read_failure_rules(alloc, items, &at, template, by_index)?;
    Ok(FailurePolicy { rules })
}

// That no container is restarted.
fn check_never(path: &Trail, restart: Restart) -> Result<(), ManifestFault>
    ensures { Checks result (rule_row path.now 13 (never_restarts restart)) }
{
    if never_restarts(restart) {
        return Ok(());
    }
    Err(broken_at(path, 13))
}

#[tactic(auto, unfolding(crate::specs::FailurePolicies::given_failure_refusal))]
fn read_given_failure(
    alloc: Global,
    policy: &Value,
    path: &Trail,
    template: &Template,
    by_index: bool,
) -> Result<FailurePolicy, ManifestFault>
    ensures { Reads (λ policy. policy) result
        (given_failure_refusal by_index template.now path.now (view policy.now))
        (failure_rules_in path.now (view policy.now)) }
{
    check_never(path, template.restart)?;
    let policy = read_failure_policy(alloc, policy, path, template, by_index)?;
    Ok(policy)
}

/// The pod failure policy of the Job, where it has one; `by_index` says whether failures are limited for
/// each index.
#[tactic(auto, unfolding(crate::specs::FailurePolicies::failure_refusal, crate::specs::FailurePolicies::failure_in))]
pub fn read_failure(
    alloc: Global,
    spec: &Value,
    path: &Trail,
    template: &Template,
    by_index: bool,
) -> Result<Option<FailurePolicy>, ManifestFault>
    ensures { Reads (λ policy. policy) result
        (failure_refusal by_index template.now path.now (view spec.now))
        (failure_in path.now (view spec.now)) }
{
    let Some(policy) = may_object(alloc, spec, path, "podFailurePolicy")? else {
        return Ok(None);
    };
    let at = path.path_to("podFailurePolicy");
    let policy = read_given_failure(alloc, policy, &at, template, by_index)?;
    Ok(Some(policy))
}
