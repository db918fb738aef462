//! The two statuses of a sync.

ghost use Rattle.std.specs.Prelude.{◌≡◌, ◌⊎◌, ◌+◌, ◌<◌, ◌≤◌, ◌&&◌, ◌||◌, ◌^◌, ◌↔◌, IfOk, IfSome, IsSome, IsTrue, Some, false, is_some, length, true};
ghost use Rattle.jc_types.specs.declared.limits.TheConstants.{GREATEST_PARALLELISM};
ghost use Rattle.jc_types.specs.Equality.{same_status};
ghost use Rattle.jc_states.specs.Bases.{own_pods};
ghost use Rattle.jc_account.specs.Accounts.{counted_out};
ghost use Rattle.jc_states.specs.Conditions.{has_target};
ghost use Rattle.jc_states.specs.Pods.{active_pods};
ghost use Rattle.jc_finish.specs.Settled.{is_target_kind, settled_of};
ghost use Rattle.jc_finish.specs.Starts.{start_of};
ghost use Rattle.jc_plan.specs.Plans.{changed};
ghost use Rattle.jc_plan.specs.PodNumbers.{stopped_by};
ghost use Rattle.jc_plan.specs.Statuses.{completed_at, conditions_at, with_due_end, first_status_of, is_first_due, is_none, is_over, is_second_due, is_end_decided, leaves_none, lists_none, second_after, second_status_of, status_with};

use crate::numbers::{Numbers, numbers_after};
use jc_account::count_out;
use jc_finish::{settle_conditions, start_in_force};
use jc_manage::Wants;
use jc_moment::Moment;
use jc_states::{Basis, Pods, has_end, has_open, has_target, stands};
use jc_types::{
    Arc, CondKind, Conditions, Copied, CountIn, Job, JobStatus, Reason, Same, Uids, Want,
};
use std::alloc::Global;

/// Whether how the Job ends is decided, before the sync or by it.
pub fn is_end_decided(job: &Job, target: Option<(CondKind, Reason)>) -> bool
    ensures { result ≡ is_end_decided job.now target }
{
    has_target(&job.status.conditions) || target.is_some()
}

// When the Job completed.
fn completed_at(now: Moment, status: &JobStatus, conditions: &Conditions) -> Option<Moment>
    ensures { result ≡ completed_at now status.now conditions.now }
{
    if stands(CondKind::Complete, conditions) && !has_end(&status.conditions) {
        Some(now)
    } else {
        status.completion
    }
}

// Whether there is none.
fn is_none(uids: &Uids) -> bool
    ensures { result ≡ is_none uids.now }
{
    match uids.as_slice() {
        [] => true,
        _ => false,
    }
}

// Whether no UID is listed as uncounted.
fn lists_none(succeeded: &Uids, failed: &Uids) -> bool
    ensures { result ≡ lists_none succeeded.now failed.now }
{
    is_none(succeeded) && is_none(failed)
}

// Whether no pod is left over for a later sync.
fn leaves_none(counted: &CountIn) -> bool
    ensures { result ≡ leaves_none counted.now }
{
    counted.left_succeeded == 0 && counted.left_failed == 0
}

// Whether how the Job ends is decided, and none of its pods is open or left over.
fn is_over(settled: bool, job: &Job, pods: &Pods, counted: &CountIn) -> bool
    ensures { result ≡ is_over settled (own_pods job.now pods.now) counted.now }
{
    settled && (!has_open(job, pods) && leaves_none(counted))
}

// Whether the end of the first status is due.
fn is_first_due(settled: bool, job: &Job, pods: &Pods, counted: &CountIn) -> bool
    ensures { result ≡ is_first_due settled (own_pods job.now pods.now) counted.now }
{
    is_over(settled, job, pods, counted)
        && (is_none(&counted.releases)
            && lists_none(&counted.uncounted_succeeded, &counted.uncounted_failed))
}

// Whether the end of the second status is due.
fn is_second_due(
    settled: bool,
    job: &Job,
    pods: &Pods,
    counted: &CountIn,
    status: &JobStatus,
) -> bool
    ensures { result ≡ is_second_due settled (own_pods job.now pods.now) counted.now status.now }
{
    is_over(settled, job, pods, counted)
        && lists_none(&status.uncounted_succeeded, &status.uncounted_failed)
}

// The conditions of the Job after the sync, with its end where that is due.
fn conditions_at(
    alloc: Global,
    basis: &Basis,
    job: &Job,
    target: Option<(CondKind, Reason)>,
    due: bool,
) -> Result<Conditions, Want>
    requires its_job { basis.now.job ≡ Some job.now }
    requires kind { IfSome target (λ pair. is_target_kind pair.0 ≡ true) }
    requires fresh { IsSome target → has_target job.now.status.conditions ≡ false }
    requires due { IsTrue due → is_end_decided job.now target ≡ true }
    ensures { IfOk result (λ r. r ≡ conditions_at basis.entry.now.now job.now target due) }
{
    settle_conditions(alloc, basis, target, due)
}

// The start time in force of the Job.
fn start_at(basis: &Basis, job: &Job) -> Option<Moment>
    requires its_job { basis.now.job ≡ Some job.now }
    ensures { result ≡ start_of basis.entry.now.now job.now.spec job.now.status }
{
    start_in_force(basis)
}

// What a status tells of the course of its Job.
#[derive(Drop)]
struct Course {
    start: Option<Moment>,
    completion: Option<Moment>,
    conditions: Conditions,
}

// Whether the status is that with what is counted, these numbers of pods, and this course.
fn is_same_as(old: &JobStatus, counted: &CountIn, numbers: &Numbers, course: &Course) -> bool
    ensures { IsTrue result ↔ (old.now ≡ status_with counted.now numbers.now course.now) }
{
    old.active == numbers.active
        && old.ready == numbers.ready
        && old.terminating == numbers.terminating
        && old.succeeded == counted.succeeded
        && old.failed == counted.failed
        && old.completed.is_same(&counted.completed)
        && old.failed_indexes.is_same(&counted.failed_indexes)
        && old.index_failures.is_same(&counted.index_failures)
        && old
            .uncounted_succeeded
            .is_same(&counted.uncounted_succeeded)
        && old.uncounted_failed.is_same(&counted.uncounted_failed)
        && old.start.is_same(&course.start)
        && old.completion.is_same(&course.completion)
        && old.conditions.is_same(&course.conditions)
}

// The status with what is counted, these numbers of pods, and this course, to be shared.
fn filled(
    alloc: Global,
    counted: &CountIn,
    numbers: &Numbers,
    course: &Course,
) -> Result<Arc<JobStatus>, Want>
    ensures { IfOk result (λ r. r ≡ status_with counted.now numbers.now course.now) }
{
    let status = JobStatus {
        active: numbers.active,
        ready: numbers.ready,
        terminating: numbers.terminating,
        succeeded: counted.succeeded,
        failed: counted.failed,
        completed: counted.completed.copy()?,
        failed_indexes: counted.failed_indexes.copy()?,
        index_failures: counted.index_failures.copy()?,
        uncounted_succeeded: counted.uncounted_succeeded.copy()?,
        uncounted_failed: counted.uncounted_failed.copy()?,
        start: course.start,
        completion: course.completion,
        conditions: course.conditions.copy()?,
    };
    Arc::new(alloc, status)
}

// The same status, where it differs from the old one. It is made only there.
fn changed_to(
    alloc: Global,
    old: &JobStatus,
    counted: &CountIn,
    numbers: &Numbers,
    course: &Course,
) -> Result<Option<Arc<JobStatus>>, Want>
    ensures { IfOk result (λ r.
        r ≡ changed old.now (status_with counted.now numbers.now course.now)) }
{
    if is_same_as(old, counted, numbers, course) {
        return Ok(None);
    }
    let status = filled(alloc, counted, numbers, course)?;
    Ok(Some(status))
}

// Whether both statuses are equal in every part.
fn same_status(old: &JobStatus, new: &JobStatus) -> bool
    ensures { result ≡ same_status old.now new.now }
{
    old.is_same(new)
}

// The new status, to be shared, where it differs from the old one.
fn changed(alloc: Global, old: &JobStatus, new: JobStatus) -> Result<Option<Arc<JobStatus>>, Want>
    ensures { IfOk result (λ r. r ≡ changed old.now new) }
{
    if same_status(old, &new) {
        return Ok(None);
    }
    Ok(Some(Arc::new(alloc, new)?))
}

/// The first status of the Job, to be shared, where it differs from the status that the Job has.
///
/// # Errors
/// `Want` where there is no memory for it.
pub fn first_status(
    alloc: Global,
    basis: &Basis,
    job: &Job,
    counted: &CountIn,
    target: Option<(CondKind, Reason)>,
    wants: &Wants,
) -> Result<Option<Arc<JobStatus>>, Want>
    requires its_job { basis.now.job ≡ Some job.now }
    requires few_pods { length basis.now.pods < 2 ^ 31 }
    requires created { length wants.now.creates ≤ GREATEST_PARALLELISM }
    requires going { stopped_by wants.now ≤ length (active_pods (own_pods job.now basis.now.pods)) }
    requires kind { IfSome target (λ pair. is_target_kind pair.0 ≡ true) }
    requires fresh { IsSome target → has_target job.now.status.conditions ≡ false }
    ensures { IfOk result (λ r. r ≡ changed job.now.status (first_status_of basis.entry.now.now
        job.now (own_pods job.now basis.entry.now.pods) counted.now target wants.now)) }
{
    let pods = &*basis.pods;
    let due = is_first_due(is_end_decided(job, target), job, pods, counted);
    let numbers = numbers_after(job, pods, wants);
    let conditions = conditions_at(alloc, basis, job, target, due)?;
    let course = Course {
        start: start_at(basis, job),
        completion: completed_at(basis.now, &*job.status, &conditions),
        conditions,
    };
    changed_to(alloc, &*job.status, counted, &numbers, &course)
}

/// The second status of the Job, to be shared, where it differs from the first: that with the released UIDs
/// of what is counted in counted out.
///
/// # Errors
/// `Want` where there is no memory for it.
pub fn second_status(
    alloc: Global,
    basis: &Basis,
    job: &Job,
    counted: &CountIn,
    target: Option<(CondKind, Reason)>,
    first: &JobStatus,
) -> Result<Option<Arc<JobStatus>>, Want>
    requires its_job { basis.now.job ≡ Some job.now }
    requires kind { IfSome target (λ pair. is_target_kind pair.0 ≡ true) }
    requires fresh { IsSome target → has_target job.now.status.conditions ≡ false }
    requires succeeded { first.now.succeeded + length first.now.uncounted_succeeded < 2 ^ 64 }
    requires failed { first.now.failed + length first.now.uncounted_failed < 2 ^ 64 }
    ensures { IfOk result (λ r. r ≡ changed first.now (second_after basis.entry.now.now job.now
        (own_pods job.now basis.entry.now.pods) counted.now target
        (counted_out first.now counted.now.releases))) }
{
    let mut second = count_out(alloc, first, &counted.releases)?;
    let due = is_second_due(
        is_end_decided(job, target),
        job,
        &*basis.pods,
        counted,
        &second,
    );
    let conditions = conditions_at(alloc, basis, job, target, due)?;
    second.completion = completed_at(basis.now, &*job.status, &conditions);
    second.conditions = conditions;
    changed(alloc, first, second)
}
