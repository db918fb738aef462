//! Which conditions of a Job stand.

ghost use Rattle.std.specs.Prelude.{◌≡◌, ◌&&◌};
ghost use Rattle.jc_states.specs.Conditions.{has_end, has_target, stands};
ghost use Rattle.jc_types.specs.Equality.{same_kind};

use jc_types::{CondKind, Condition, Conditions};

// Whether the condition is of the kind and true.
fn is_standing(kind: CondKind, condition: &Condition) -> bool
    ensures { result ≡ (same_kind condition.now.kind kind && condition.now.status) }
{
    condition.kind == kind && condition.status
}

/// Whether a true condition of the kind is among them.
pub fn stands(kind: CondKind, conditions: &Conditions) -> bool
    ensures { result ≡ stands kind conditions.now }
{
    conditions
        .as_slice()
        .iter()
        .any(|condition| is_standing(kind, condition))
}

/// Whether how the Job will end is decided: FailureTarget or SuccessCriteriaMet stands (batch/v1,
/// KEP-3998).
pub fn has_target(conditions: &Conditions) -> bool
    ensures { result ≡ has_target conditions.now }
{
    stands(CondKind::FailureTarget, conditions) || stands(CondKind::SuccessCriteriaMet, conditions)
}

/// Whether the Job has ended: Failed or Complete stands (batch/v1).
pub fn has_end(conditions: &Conditions) -> bool
    ensures { result ≡ has_end conditions.now }
{
    stands(CondKind::Failed, conditions) || stands(CondKind::Complete, conditions)
}
