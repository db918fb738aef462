//! Which failed pods fail their Job at once.

ghost use Rattle.std.specs.Prelude.{◌≡◌};
ghost use Rattle.jc_failpol.specs.FailJob.{fails_job, is_fail_job, policy_fails_job};

use crate::judgements::has_failed;
use crate::rules::action_of;
use jc_types::{Action, FailurePolicy, JobSpec, Pod};

/// Whether the action fails the Job.
pub fn is_fail_job(action: Action) -> bool
    ensures { result ≡ is_fail_job action }
{
    match action {
        Action::FailJob => true,
        Action::Ignore | Action::Count | Action::FailIndex => false,
    }
}

// Whether the failure policy, where there is one, fails the Job for the failed pod.
fn policy_fails_job(policy: &Option<FailurePolicy>, pod: &Pod) -> bool
    ensures { result ≡ policy_fails_job policy.now pod.now }
{
    match policy {
        None => false,
        Some(policy) => is_fail_job(action_of(policy, pod)),
    }
}

/// Whether the pod has failed, and the failure policy then fails its Job at once (KEP-3329): the action
/// of the first rule that matches the pod is FailJob.
pub fn fails_job(spec: &JobSpec, pod: &Pod) -> bool
    ensures { result ≡ fails_job spec.now pod.now }
{
    // A pod whose failure is ignored fails no Job: the policy is asked once.
    has_failed(spec, pod) && policy_fails_job(&spec.failure, pod)
}
