//! The rules of a failure policy and the first that matches.

ghost use Rattle.std.specs.Prelude.{◌≡◌, ◌<◌, ◌^◌, length};
ghost use Rattle.jc_failpol.specs.Rules.{action_at, action_of, code_meets, finds, has_code, has_condition, looks_at, matches, matching_place, meets, shows_one_of};

use jc_types::{
    Action, Codes, Container, FailurePolicy, FailureRule, Name, Operator, Pattern, Patterns, Pod,
    Requirement, Same,
};

// Whether an exit code is one of the values, or none of them.
fn meets(operator: Operator, values: &Codes, code: i32) -> bool
    ensures { result ≡ meets operator values.now code }
{
    let is_value = values.as_slice().contains(&code);
    match operator {
        Operator::Within => is_value,
        Operator::NotWithin => !is_value,
    }
}

// Whether a rule on exit codes looks at the container: it has ended with a code that is not 0, and the
// rule names it or none.
fn looks_at(only: &Option<Name>, container: &Container) -> bool
    ensures { result ≡ looks_at only.now container.now }
{
    match container.exit {
        None => false,
        Some(0) => false,
        Some(_) => match only {
            None => true,
            Some(name) => container.name == *name,
        },
    }
}

// Whether the exit code of a container meets the operator.
fn code_meets(operator: Operator, values: &Codes, container: &Container) -> bool
    ensures { result ≡ code_meets operator values.now container.now.exit }
{
    match container.exit {
        None => false,
        Some(code) => meets(operator, values, code),
    }
}

// Whether the pattern looks for the condition: the same type and the same status. Types are compared
// last, as they are long.
fn finds(pattern: &Pattern, condition: &Pattern) -> bool
    ensures { result ≡ finds pattern.now condition.now }
{
    condition.truth == pattern.truth && condition.kind.is_same(&pattern.kind)
}

// Whether a container that the rule looks at has an exit code that meets the operator.
fn has_code(pod: &Pod, only: &Option<Name>, operator: Operator, values: &Codes) -> bool
    ensures { result ≡ has_code only.now operator values.now pod.now.containers }
{
    pod.containers.as_slice().iter().any(|one| looks_at(only, one)
        && code_meets(operator, values, one))
}

// Whether one of the pod's conditions is what the pattern looks for.
fn has_condition(pod: &Pod, pattern: &Pattern) -> bool
    ensures { result ≡ has_condition pattern.now pod.now.conditions }
{
    pod.conditions
        .as_slice()
        .iter()
        .any(|condition| finds(pattern, condition))
}

// Whether one of the patterns looks for one of the pod's conditions.
fn shows_one_of(pod: &Pod, patterns: &Patterns) -> bool
    ensures { result ≡ shows_one_of patterns.now pod.now.conditions }
{
    // Most pods have no condition, and a policy may have many patterns.
    if pod.conditions.is_empty() {
        return false;
    }
    patterns
        .as_slice()
        .iter()
        .any(|pattern| has_condition(pod, pattern))
}

// Whether the pod shows what the rule asks for.
fn matches(rule: &FailureRule, pod: &Pod) -> bool
    ensures { result ≡ matches rule.now pod.now }
{
    match &rule.requirement {
        Requirement::ExitCodes {
            container,
            operator,
            values,
        } => has_code(pod, container, *operator, values),
        Requirement::Conditions { patterns } => shows_one_of(pod, patterns),
    }
}

// The place of the first rule that matches.
fn matching_place(policy: &FailurePolicy, pod: &Pod) -> Option<usize>
    ensures { result ≡ matching_place policy.now pod.now }
{
    policy
        .rules
        .as_slice()
        .iter()
        .position(|rule| matches(rule, pod))
}

// The action of the rule at the place, and `Count` where there is none.
fn action_at(policy: &FailurePolicy, place: Option<usize>) -> Action
    ensures { result ≡ action_at policy.now.rules place }
{
    let Some(place) = place else {
        return Action::Count;
    };
    match policy.rules.as_slice().get(place) {
        None => Action::Count,
        Some(rule) => rule.action,
    }
}

/// What a failure policy does with a failed pod (KEP-3329): the action of the first rule that matches,
/// and `Count` where none does.
///
/// A rule on exit codes looks at the containers and init containers that ended with a code other than
/// 0, and of these at the named one alone where it names one. It matches where one of those codes
/// meets the operator. A rule on conditions matches where one of its patterns has the type and the
/// status of one of the pod's conditions.
pub fn action_of(policy: &FailurePolicy, pod: &Pod) -> Action
    ensures { result ≡ action_of policy.now pod.now }
{
    action_at(policy, matching_place(policy, pod))
}

/// The same action as `action_of`, with the place of the first rule that matches among the
/// policy's rules, counted from 0; none where no rule matches.
pub fn action(policy: &FailurePolicy, pod: &Pod) -> (Action, Option<u32>)
    requires few_rules { length policy.now.rules < 2 ^ 32 }
    ensures action { result.0 ≡ action_of policy.now pod.now }
    ensures place { result.1 ≡ matching_place policy.now pod.now }
{
    let place = matching_place(policy, pod);
    let action = action_at(policy, place);
    match place {
        None => (action, None),
        Some(place) => (action, Some(place as u32)),
    }
}
