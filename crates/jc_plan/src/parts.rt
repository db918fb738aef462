//! How a sync makes its plan.

ghost use Rattle.std.specs.Prelude.{◌≡◌, ◌+◌, ◌<◌, ◌≤◌, ◌^◌, [], IfOk, IfSome, IsSome, None, Some, false, is_some, length, true, unwrap_or};
ghost use Rattle.jc_states.specs.Bases.{CanPlan};
ghost use Rattle.jc_states.specs.Conditions.{has_target};
ghost use Rattle.jc_types.specs.Counts.{counts};
ghost use Rattle.jc_finish.specs.Settled.{is_target_kind};
ghost use Rattle.jc_finish.specs.Starts.{deadline_of};
ghost use Rattle.jc_states.specs.Pods.{active_pods};
ghost use Rattle.jc_plan.specs.Plans.{changed, earlier_of, planned, planned_for};
ghost use Rattle.jc_plan.specs.Statuses.{accounted, first_value, decided_in, second_value, wants_in};

use crate::plans::{Plan, Planned};
use crate::releases::released;
use crate::statuses::{first_status, is_end_decided, second_status};
use jc_account::count_in;
use jc_finish::{decide, next_deadline};
use jc_manage::{Wants, wants};
use jc_moment::Moment;
use jc_perindex::fill;
use jc_states::Basis;
use jc_types::{
    Arc, CondKind, Copied, CountIn, Indexes, Job, JobStatus, PodVersions, Reason, Uids, Want,
};
use std::alloc::Global;

// The earlier of two moments, where they are there.
fn earlier(left: Option<Moment>, right: Option<Moment>) -> Option<Moment>
    ensures { result ≡ earlier_of left right }
{
    match (left, right) {
        (None, right) => right,
        (Some(left), None) => Some(left),
        (Some(left), Some(right)) => {
            if left <= right {
                Some(left)
            } else {
                Some(right)
            }
        }
    }
}

// What the sync decides.
fn decided_in(basis: &Basis, job: &Job, counted: &CountIn) -> Option<(CondKind, Reason)>
    requires its_job { basis.now.job ≡ Some job.now }
    requires few_pods { length basis.now.pods < 2 ^ 31 }
    requires counted { counted.now ≡ accounted job.now basis.now }
    requires failed { (counts counted.now).0 < 2 ^ 64 }
    requires succeeded { (counts counted.now).1 < 2 ^ 64 }
    ensures target { result ≡ decided_in job.now basis.entry.now }
    ensures kind { IfSome result (λ pair. is_target_kind pair.0 ≡ true) }
    ensures fresh { IsSome result → has_target job.now.status.conditions ≡ false }
{
    decide(basis, counted)
}

// What the sync wants of the Job's pods.
fn wants_for(
    alloc: Global,
    basis: &Basis,
    job: &Job,
    counted: &CountIn,
    target: Option<(CondKind, Reason)>,
) -> Result<Wants, Want>
    requires its_job { basis.now.job ≡ Some job.now }
    requires can { CanPlan basis.now }
    requires counted { counted.now ≡ accounted job.now basis.now }
    requires target { target ≡ decided_in job.now basis.now }
    requires failed { (counts counted.now).0 < 2 ^ 64 }
    requires succeeded { (counts counted.now).1 < 2 ^ 64 }
    requires new_failed { counted.now.new_failed ≤ length basis.now.pods }
    ensures wants { IfOk result (λ r. r ≡ wants_in job.now basis.entry.now) }
{
    wants(alloc, basis, counted, is_end_decided(job, target))
}

// The first status, where it is to be written.
fn first_for(
    alloc: Global,
    basis: &Basis,
    job: &Job,
    counted: &CountIn,
    target: Option<(CondKind, Reason)>,
    wants: &Wants,
) -> Result<Option<Arc<JobStatus>>, Want>
    requires its_job { basis.now.job ≡ Some job.now }
    requires can { CanPlan basis.now }
    requires counted { counted.now ≡ accounted job.now basis.now }
    requires target { target ≡ decided_in job.now basis.now }
    requires kind { IfSome target (λ pair. is_target_kind pair.0 ≡ true) }
    requires fresh { IsSome target → has_target job.now.status.conditions ≡ false }
    requires wants { wants.now ≡ wants_in job.now basis.now }
    ensures { IfOk result (λ r. r ≡ changed job.now.status (first_value job.now basis.entry.now)) }
{
    first_status(alloc, basis, job, counted, target, wants)
}

// The status of the Job once the first is written: its own, where that is not to be written.
fn after_first<'a>(job: &'a Job, first: &'a Option<Arc<JobStatus>>) -> &'a JobStatus
    ensures { result.now ≡ unwrap_or first.now job.now.status }
{
    match first {
        None => &*job.status,
        Some(first) => &**first,
    }
}

// The second status, where it is to be written. Where no pod is to be released it is as the first.
fn second_for(
    alloc: Global,
    basis: &Basis,
    job: &Job,
    counted: &CountIn,
    target: Option<(CondKind, Reason)>,
    first: &Option<Arc<JobStatus>>,
) -> Result<Option<Arc<JobStatus>>, Want>
    requires its_job { basis.now.job ≡ Some job.now }
    requires counted { counted.now ≡ accounted job.now basis.now }
    requires target { target ≡ decided_in job.now basis.now }
    requires kind { IfSome target (λ pair. is_target_kind pair.0 ≡ true) }
    requires fresh { IsSome target → has_target job.now.status.conditions ≡ false }
    requires failed { (counts counted.now).0 < 2 ^ 64 }
    requires succeeded { (counts counted.now).1 < 2 ^ 64 }
    requires first { first.now ≡ changed job.now.status (first_value job.now basis.now) }
    ensures { IfOk result (λ r.
        r ≡ changed (first_value job.now basis.entry.now) (second_value job.now basis.entry.now)) }
{
    if counted.releases.is_empty() {
        return Ok(None);
    }
    second_status(alloc, basis, job, counted, target, after_first(job, first))
}

// The plan of a basis with a Job, of what the sync counts in.
fn planned_with(
    alloc: Global,
    basis: &Basis,
    job: &Job,
    counted: &CountIn,
) -> Result<Arc<Planned>, Want>
    requires its_job { basis.now.job ≡ Some job.now }
    requires can { CanPlan basis.now }
    requires counted { counted.now ≡ accounted job.now basis.now }
    requires failed { (counts counted.now).0 < 2 ^ 64 }
    requires succeeded { (counts counted.now).1 < 2 ^ 64 }
    requires new_failed { counted.now.new_failed ≤ length basis.now.pods }
    ensures { IfOk result (λ r. r ≡ planned_for basis.entry.now (Some job.now)) }
{
    let target = decided_in(basis, job, counted);
    let releases = released(alloc, basis, &counted.releases)?;
    let wants = wants_for(alloc, basis, job, counted, target)?;
    let first = first_for(alloc, basis, job, counted, target, &wants)?;
    let second = second_for(alloc, basis, job, counted, target, &first)?;
    Arc::new(
        alloc,
        Planned {
            creates: wants.creates,
            marks: wants.marks,
            let_goes: wants.let_goes,
            first,
            releases,
            second,
            backoff: wants.backoff,
            next: earlier(wants.next, next_deadline(basis)),
        },
    )
}

// The plan of a basis with a Job.
fn planned_for(alloc: Global, basis: &Basis, job: &Job) -> Result<Arc<Planned>, Want>
    requires its_job { basis.now.job ≡ Some job.now }
    requires can { CanPlan basis.now }
    ensures { IfOk result (λ r. r ≡ planned_for basis.entry.now (Some job.now)) }
{
    let mut counted = count_in(alloc, basis)?;
    fill(alloc, basis, &mut counted)?;
    planned_with(alloc, basis, job, &counted)
}

// The plan of a basis without a Job.
fn planned_alone(alloc: Global, basis: &Basis) -> Result<Arc<Planned>, Want>
    requires { basis.now.job ≡ None }
    ensures { IfOk result (λ r. r ≡ planned_for basis.entry.now None) }
{
    let due = Uids::new(alloc);
    let releases = released(alloc, basis, &due)?;
    Arc::new(
        alloc,
        Planned {
            creates: Indexes::new(alloc),
            marks: Uids::new(alloc),
            let_goes: PodVersions::new(alloc),
            first: None,
            releases,
            second: None,
            backoff: basis.backoff,
            next: None,
        },
    )
}

// The parts of the plan of a basis.
fn parts_of(alloc: Global, basis: &Basis) -> Result<Arc<Planned>, Want>
    requires { IsSome basis.now.job → CanPlan basis.now }
    ensures { IfOk result (λ r. r ≡ planned basis.entry.now) }
{
    match &basis.job {
        None => planned_alone(alloc, basis),
        Some(job) => planned_for(alloc, basis, job),
    }
}

/// The plan of a basis (batch/v1, KEP-2307). Without a Job, orphans are released and nothing else is done.
///
/// # Errors
/// `Want` where there is no memory for it.
pub fn plan(alloc: Global, basis: &Arc<Basis>) -> Result<Plan, Want>
    requires { IsSome basis.now.job → CanPlan basis.now }
    ensures basis { IfOk result (λ plan. plan.basis ≡ basis.entry.now) }
    ensures parts { IfOk result (λ plan. plan.parts ≡ planned basis.entry.now) }
{
    let parts = parts_of(alloc, &**basis)?;
    Ok(Plan::new(basis.copy()?, parts))
}
