//! What decides how a Job will end.

ghost use Rattle.std.specs.Prelude.{◌≡◌, ◌+◌, ◌<◌, ◌^◌, length, nat_le};
ghost use Rattle.std.specs.List.{list_any};
ghost use Rattle.jc_states.specs.Bases.{own_pods};
ghost use Rattle.jc_types.specs.Counts.{counts as counts_of};
ghost use Rattle.jc_failpol.specs.FailJob.{is_fail_job};
ghost use Rattle.jc_finish.specs.Decisions.{decided, decision_of, first_reason, is_complete, is_enough, is_failed_by_indexes, is_failed_by_pod, is_overdue, is_past_limit, is_past_most, is_policy_met, restarts_on_failure};

use crate::restarts::restarts_too_often;
use crate::start::start_of;
use jc_failpol::{fails_job, is_fail_job};
use jc_moment::Moment;
use jc_ranges::Ranges;
use jc_states::{Basis, Pods, count_restarts, has_active, has_target, is_own};
use jc_succpol::is_met;
use jc_types::{
    Arc, CondKind, CountIn, FailurePolicy, Job, JobSpec, JobStatus, Pod, Reason, Restart,
    SuccessPolicy, counts,
};

// Whether one of the pods is the Job's own, is tracked and has failed, and the failure policy then fails
// the Job.
fn finds_failing(job: &Job, pods: &[Arc<Pod>]) -> bool
    ensures { result ≡ is_failed_by_pod job.now.spec (own_pods job.now pods.now) }
{
    pods.iter().any(|pod| is_own(job, pod) && (pod.tracked && fails_job(&*job.spec, pod)))
}

// Whether a rule of the policy fails the Job.
fn has_fatal_rule(policy: &FailurePolicy) -> bool
    ensures { result ≡ list_any (λ rule. is_fail_job rule.action) policy.now.rules }
{
    policy
        .rules
        .as_slice()
        .iter()
        .any(|rule| is_fail_job(rule.action))
}

// Whether a tracked pod has failed, and the failure policy then fails the Job. Where no rule of it fails the
// Job, or there is no policy, it goes over no pod.
fn is_failed_by_pod(job: &Job, pods: &[Arc<Pod>]) -> bool
    ensures { result ≡ is_failed_by_pod job.now.spec (own_pods job.now pods.now) }
{
    match &job.spec.failure {
        None => false,
        Some(policy) => has_fatal_rule(policy) && finds_failing(job, pods),
    }
}

/// Whether the containers of the pods start anew after a failure.
pub fn restarts_on_failure(restart: Restart) -> bool
    ensures { result ≡ restarts_on_failure restart }
{
    match restart {
        Restart::Never => false,
        Restart::OnFailure => true,
    }
}

// Whether more pods have failed than the backoff limit, or containers that start anew have done so too
// often.
fn is_past_limit(job: &Job, pods: &Pods, failed: u64) -> bool
    ensures { result ≡ is_past_limit failed job.now.spec (own_pods job.now pods.now) }
{
    let limit = job.spec.backoff_limit;
    failed > u64::from(limit)
        || restarts_on_failure(job.spec.template.restart)
            && restarts_too_often(limit, count_restarts(job, pods))
}

// Whether so many seconds have passed since the start.
fn have_passed(now: Moment, seconds: u32, start: Moment) -> bool
    ensures { result ≡ nat_le (start + seconds) now }
{
    start.seconds() + u64::from(seconds) <= now.seconds()
}

// Whether the Job is not suspended and its deadline has come.
fn is_overdue(now: Moment, spec: &JobSpec, status: &JobStatus) -> bool
    ensures { result ≡ is_overdue now spec.now status.now }
{
    if spec.suspend {
        return false;
    }
    let Some(seconds) = spec.deadline else {
        return false;
    };
    match start_of(now, spec, status) {
        None => false,
        Some(start) => have_passed(now, seconds, start),
    }
}

// Whether more indexes have failed than may fail.
fn is_past_most(most: Option<u32>, failed_indexes: &Ranges) -> bool
    ensures { result ≡ is_past_most most failed_indexes.now }
{
    match most {
        None => false,
        Some(most) => failed_indexes.len() > most,
    }
}

// Whether an index has failed, no pod is active, and each index is completed or has failed.
fn is_failed_by_indexes(job: &Job, pods: &Pods, counted: &CountIn) -> bool
    ensures { result ≡ is_failed_by_indexes job.now.spec.completions counted.now.completed
        counted.now.failed_indexes (own_pods job.now pods.now) }
{
    let completed = counted.completed.len();
    let failed = counted.failed_indexes.len();
    failed > 0
        && (!has_active(job, pods) && completed + failed >= job.spec.completions.unwrap_or(0))
}

// Whether the completed indexes meet a rule of the success policy.
fn is_policy_met(policy: &Option<SuccessPolicy>, completed: &Ranges) -> bool
    ensures { result ≡ is_policy_met policy.now completed.now }
{
    match policy {
        None => false,
        Some(policy) => is_met(policy, completed),
    }
}

// Whether there are as many successes as completions are wanted; where none are, one is enough.
fn is_enough(completions: Option<u32>, succeeded: u64) -> bool
    ensures { result ≡ is_enough completions succeeded }
{
    match completions {
        None => succeeded > 0,
        Some(completions) => succeeded >= u64::from(completions),
    }
}

// The first reason that holds, with its condition.
fn first_reason(
    now: Moment,
    job: &Job,
    pods: &Pods,
    counted: &CountIn,
) -> Option<(CondKind, Reason)>
    requires failed { (counts_of counted.now).0 < 2 ^ 64 }
    requires succeeded { (counts_of counted.now).1 < 2 ^ 64 }
    ensures { result ≡ first_reason counted.now now job.now (own_pods job.now pods.now) }
{
    let (failed, succeeded) = counts(counted);
    if is_failed_by_pod(job, pods.as_slice()) {
        Some((CondKind::FailureTarget, Reason::PodFailurePolicy))
    } else if is_past_limit(job, pods, failed) {
        Some((CondKind::FailureTarget, Reason::BackoffLimitExceeded))
    } else if is_overdue(now, &*job.spec, &*job.status) {
        Some((CondKind::FailureTarget, Reason::DeadlineExceeded))
    } else if is_past_most(job.spec.max_failed, &counted.failed_indexes) {
        Some((CondKind::FailureTarget, Reason::MaxFailedIndexesExceeded))
    } else if is_failed_by_indexes(job, pods, counted) {
        Some((CondKind::FailureTarget, Reason::FailedIndexes))
    } else if is_policy_met(&job.spec.success, &counted.completed) {
        Some((CondKind::SuccessCriteriaMet, Reason::SuccessPolicy))
    } else if !has_active(job, pods) && is_enough(job.spec.completions, succeeded) {
        Some((CondKind::SuccessCriteriaMet, Reason::CompletionsReached))
    } else {
        None
    }
}

// What is decided of the Job among the pods.
fn decided(now: Moment, job: &Job, pods: &Pods, counted: &CountIn) -> Option<(CondKind, Reason)>
    requires failed { (counts_of counted.now).0 < 2 ^ 64 }
    requires succeeded { (counts_of counted.now).1 < 2 ^ 64 }
    ensures { result ≡ decided counted.now now job.now (own_pods job.now pods.now) }
{
    if has_target(&job.status.conditions) {
        return None;
    }
    first_reason(now, job, pods, counted)
}

/// What decides how the basis's Job will end, as a condition and its reason (batch/v1, KEP-3329,
/// KEP-3850, KEP-3998). None where a target stands already, and where none of these holds; the first that holds
/// decides:
///
/// 1. The failure policy fails the Job for a tracked pod that has failed.
/// 2. The failed count is above the backoff limit; or, where containers restart on failure, the restarts
///    of all containers of all open pods reach the limit, under the limit 0 the first one.
/// 3. The Job is not suspended, and its deadline has come.
/// 4. More indexes have failed than may fail.
/// 5. An index has failed, no pod is active, and completed and failed indexes are together as many as
///    completions are wanted.
/// 6. The completed indexes meet a rule of the success policy.
/// 7. No pod is active, and the succeeded count has reached the completions; where no completions are
///    given, one success is enough.
///
/// `counted` are the sync's counts over the same basis.
pub fn decide(basis: &Basis, counted: &CountIn) -> Option<(CondKind, Reason)>
    requires few_pods { length basis.now.pods < 2 ^ 31 }
    requires failed { (counts_of counted.now).0 < 2 ^ 64 }
    requires succeeded { (counts_of counted.now).1 < 2 ^ 64 }
    ensures { result ≡ decision_of basis.entry.now counted.now }
{
    let job = basis.job.as_ref()?;
    decided(basis.now, job, &*basis.pods, counted)
}
