//! What state a pod is in, and whose it is.

ghost use Rattle.std.specs.Prelude.{◌≡◌};
ghost use Rattle.std.specs.List.{list_any};
ghost use Rattle.jc_states.specs.Bases.{is_own};
ghost use Rattle.jc_states.specs.Noted.{is_at_odds};
ghost use Rattle.jc_states.specs.Pods.{goes, is_active, is_ending, is_marked, is_open, is_ready, is_tracked_active, is_true, says_ready};

use crate::phases::is_final;
use jc_types::{Job, Pod, PodCondition, PodConditions, Truth};

/// Whether the pod was made for the Job, by UID: one of the same key may have been made for an earlier
/// Job.
pub fn is_own(job: &Job, pod: &Pod) -> bool
    ensures { result ≡ is_own job.now pod.now }
{
    pod.owner_uid.0 == job.uid.0
}

/// Whether the pod has not ended: it is pending or running.
pub fn is_open(pod: &Pod) -> bool
    ensures { result ≡ is_open pod.now }
{
    !is_final(pod.phase)
}

/// Whether the pod is marked for deletion.
pub fn is_marked(pod: &Pod) -> bool
    ensures { result ≡ is_marked pod.now }
{
    pod.marked.is_some()
}

/// Whether the pod is open and not marked, as a Job's number of active pods counts it (`active` of
/// batch/v1).
pub fn is_active(pod: &Pod) -> bool
    ensures { result ≡ is_active pod.now }
{
    is_open(pod) && !is_marked(pod)
}

/// Whether the pod is marked and still open, as a Job's number of terminating pods counts it
/// (`terminating` of batch/v1).
pub fn is_ending(pod: &Pod) -> bool
    ensures { result ≡ is_ending pod.now }
{
    is_open(pod) && is_marked(pod)
}

/// Whether the pod is active and has the finalizer `batch.kubernetes.io/job-tracking` (KEP-2307).
pub fn is_tracked_active(pod: &Pod) -> bool
    ensures { result ≡ is_tracked_active pod.now }
{
    is_active(pod) && pod.tracked
}

/// Whether the pod has the finalizer though it is not active, or is active without it: such a pod is to
/// be counted, released or marked (KEP-2307).
pub fn is_at_odds(pod: &Pod) -> bool
    ensures { result ≡ is_at_odds pod.now }
{
    pod.tracked != is_active(pod)
}

/// Whether the pod is marked, has ended and has no finalizer: a write that makes it so takes it away.
pub fn goes(pod: &Pod) -> bool
    ensures { result ≡ goes pod.now }
{
    is_marked(pod) && !pod.tracked && is_final(pod.phase)
}

// Whether the status of a condition is true.
fn is_true(truth: Truth) -> bool
    ensures { result ≡ is_true truth }
{
    match truth {
        Truth::True => true,
        Truth::False | Truth::Unknown => false,
    }
}

// Whether the condition says that its pod is ready.
fn says_ready(condition: &PodCondition) -> bool
    ensures { result ≡ says_ready condition.now }
{
    condition.kind.as_str() == "Ready" && is_true(condition.truth)
}

// Whether one of the conditions says so.
fn any_says_ready(conditions: &PodConditions) -> bool
    ensures { result ≡ list_any says_ready conditions.now }
{
    conditions
        .as_slice()
        .iter()
        .any(|condition| says_ready(condition))
}

/// Whether the pod is active and its condition `Ready` is true, as a Job's number of ready pods counts
/// it (`ready` of batch/v1).
pub fn is_ready(pod: &Pod) -> bool
    ensures { result ≡ is_ready pod.now }
{
    is_active(pod) && any_says_ready(&pod.conditions)
}
