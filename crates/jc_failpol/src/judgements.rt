//! What a pod has come to.

ghost use Rattle.std.specs.Prelude.{◌≡◌, ◌&&◌, not};
ghost use Rattle.jc_failpol.specs.declared.outcomes.Outcome.TheVariants.{Alive};
ghost use Rattle.jc_failpol.specs.Outcomes.{counts_marked, failure_of, has_ended_badly, is_succeeded, outcome_of, same_outcome};

use crate::outcomes::Outcome;
use crate::rules::action_of;
use jc_states::is_marked;
use jc_types::{Action, FailurePolicy, JobSpec, Phase, Pod, Replacement};

// Whether a pod that is marked for deletion counts as failed at once.
fn counts_marked(replacement: Replacement) -> bool
    ensures { result ≡ counts_marked replacement }
{
    match replacement {
        Replacement::TerminatingOrFailed => true,
        Replacement::FailedOnly => false,
    }
}

// What a failed pod has come to.
fn failure(policy: &Option<FailurePolicy>, pod: &Pod) -> Outcome
    ensures { result ≡ failure_of policy.now pod.now }
{
    match policy {
        None => Outcome::Failed,
        Some(policy) => match action_of(policy, pod) {
            Action::Ignore => Outcome::Ignored,
            Action::FailJob | Action::Count | Action::FailIndex => Outcome::Failed,
        },
    }
}

// Whether the pod has failed, or is marked and counts as failed by that.
fn has_ended_badly(replacement: Replacement, pod: &Pod) -> bool
    ensures { result ≡ has_ended_badly replacement pod.now }
{
    match pod.phase {
        Phase::Failed => true,
        Phase::Pending | Phase::Running | Phase::Succeeded => {
            counts_marked(replacement) && is_marked(pod)
        }
    }
}

// Whether the pod has not succeeded, and has ended badly.
pub(crate) fn has_failed(spec: &JobSpec, pod: &Pod) -> bool
    ensures { result ≡ not (is_succeeded pod.now.phase)
        && has_ended_badly spec.now.replacement pod.now }
{
    match pod.phase {
        Phase::Succeeded => false,
        Phase::Pending | Phase::Running | Phase::Failed => has_ended_badly(spec.replacement, pod),
    }
}

/// Whether a pod has come to anything but `Alive`. The failure policy is not asked.
pub fn has_ended(spec: &JobSpec, pod: &Pod) -> bool
    ensures { result ≡ not (same_outcome (outcome_of spec.now pod.now) Alive) }
{
    match pod.phase {
        Phase::Succeeded => true,
        Phase::Pending | Phase::Running | Phase::Failed => has_ended_badly(spec.replacement, pod),
    }
}

/// What a pod has come to (KEP-2307, KEP-3329, KEP-3939). It has succeeded where its phase says so. Else
/// it has failed where its phase says so, and where it is marked for deletion and the replacement
/// policy is `TerminatingOrFailed`. A failed pod is `Ignored` where the action of the failure policy is
/// Ignore, and `Failed` elsewhere. Any other pod is `Alive`.
pub fn outcome(spec: &JobSpec, pod: &Pod) -> Outcome
    ensures { result ≡ outcome_of spec.now pod.now }
{
    match pod.phase {
        Phase::Succeeded => Outcome::Succeeded,
        Phase::Pending | Phase::Running | Phase::Failed => {
            if has_ended_badly(spec.replacement, pod) {
                failure(&spec.failure, pod)
            } else {
                Outcome::Alive
            }
        }
    }
}
