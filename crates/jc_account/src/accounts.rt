//! Counting in and counting out.

ghost use Rattle.std.specs.Prelude.{◌≡◌, ◌+◌, ◌<◌, ◌≤◌, ◌^◌, All, IfOk, IfSome, IsSome, List, length};
ghost use Rattle.jc_ranges.specs.declared.bounds.TheConstants.{GREATEST_INDEX};
ghost use Rattle.jc_types.specs.declared.objects.Pod.{Pod};
ghost use Rattle.jc_types.specs.declared.specifications.Mode.TheVariants.{Indexed, NonIndexed};
ghost use Rattle.jc_states.specs.Indexes.{HasSmallIndex};
ghost use Rattle.jc_states.specs.Bases.{CountsByIndex, TotalsFit};
ghost use Rattle.jc_states.specs.PodLists.{IsRising};
ghost use Rattle.jc_types.specs.Counts.{counts};
ghost use Rattle.jc_states.specs.UidLists.{Ascends, merge, uids_of};
ghost use Rattle.jc_account.specs.Accounts.{counted_in, counted_out};
ghost use Rattle.jc_account.specs.Modes.{gain, listing, succeeded_after};

use crate::indexes::gained;
use crate::judgements::judge;
use crate::listed::stayed;
use crate::releases::releases;
use crate::rooms::{count_staying, room_beside};
use crate::uids::{merged, unreleased};
use jc_ranges::Ranges;
use jc_states::{Basis, Pods};
use jc_types::{Arc, Copied, CountIn, IndexCounts, Job, JobStatus, Mode, Pod, Uids, Want};
use std::alloc::Global;

// A total with those that left its list.
fn raised(total: u64, before: &Uids, after: &Uids) -> u64
    requires shorter { length after.now ≤ length before.now }
    requires fits { total + length before.now < 2 ^ 64 }
    ensures { result + length after.now ≡ total + length before.now }
{
    total + (before.len() - after.len()) as u64
}

// The list of uncounted successes with those that are judged now. An Indexed Job lists none.
fn with_successes(alloc: Global, mode: Mode, uids: &Uids, newly: &Uids) -> Result<Uids, Want>
    requires { Ascends newly.now }
    ensures merged { IfOk result (λ list. (pods : List Pod)
        → newly.now ≡ uids_of pods → list ≡ merge uids.now (listing mode pods)) }
    ensures no_longer { IfOk result (λ list. length list ≤ length uids.now + length newly.now) }
    ensures indexed { mode ≡ Indexed → IfOk result (λ list. list ≡ uids.now) }
{
    match mode {
        Mode::NonIndexed => merged(alloc, uids, newly),
        Mode::Indexed => uids.copy(),
    }
}

// How many successes are counted in now: pods, or of an Indexed Job indexes.
fn gain(mode: Mode, newly: &Uids, before: &Ranges, after: &Ranges) -> u32
    requires { length newly.now < 2 ^ 31 }
    ensures { (pods : List Pod)
        → newly.now ≡ uids_of pods → result ≡ gain mode pods before.now after.now }
{
    match mode {
        Mode::NonIndexed => newly.len() as u32,
        Mode::Indexed => gained(before, after),
    }
}

// The succeeded total afterwards, of the total with those that left the list and the completed indexes.
fn succeeded(mode: Mode, total: u64, completed: &Ranges) -> u64
    ensures total { result ≡ succeeded_after mode total completed.now }
    ensures plain { mode ≡ NonIndexed → result ≡ total }
    ensures indexed { mode ≡ Indexed → result ≤ GREATEST_INDEX + 1 }
{
    match mode {
        Mode::NonIndexed => total,
        Mode::Indexed => u64::from(completed.len()),
    }
}

// What is counted in of a Job, where the sync sees these pods.
//
// # Errors
// `Want` where there is no memory for the lists.
fn count_job(alloc: Global, job: &Job, pods: &[Arc<Pod>]) -> Result<CountIn, Want>
    requires by_index { CountsByIndex job.now pods.now }
    requires totals { TotalsFit job.now pods.now }
    requires rising { IsRising pods.now }
    requires indexes { All HasSmallIndex pods.now }
    requires few_pods { length pods.now < 2 ^ 31 }
    ensures counted { IfOk result (λ r. r ≡ counted_in job.now pods.now) }
    ensures failed_fits { IfOk result (λ r. (counts r).0 < 2 ^ 64) }
    ensures succeeded_fits { IfOk result (λ r. (counts r).1 < 2 ^ 64) }
    ensures few_failed { IfOk result (λ r. r.new_failed ≤ length pods.now) }
{
    let mode = job.spec.mode;
    let status = &*job.status;
    let stayed_succeeded = stayed(alloc, job, pods, status.uncounted_succeeded.as_slice())?;
    let stayed_failed = stayed(alloc, job, pods, status.uncounted_failed.as_slice())?;
    let room = room_beside(count_staying(job, pods));
    let newly = judge(alloc, job, pods, room)?;
    let total = raised(
        status.succeeded,
        &status.uncounted_succeeded,
        &stayed_succeeded,
    );
    Ok(CountIn {
        uncounted_succeeded: with_successes(alloc, mode, &stayed_succeeded, &newly.succeeded)?,
        uncounted_failed: merged(alloc, &stayed_failed, &newly.failed)?,
        succeeded: succeeded(mode, total, &newly.completed),
        failed: raised(status.failed, &status.uncounted_failed, &stayed_failed),
        new_succeeded: gain(mode, &newly.succeeded, &status.completed, &newly.completed),
        new_failed: newly.failed.len() as u32,
        failed_indexes: Ranges::new(alloc),
        index_failures: IndexCounts::new(alloc),
        left_succeeded: newly.left_succeeded,
        left_failed: newly.left_failed,
        releases: releases(alloc, job, pods, &newly)?,
        judged_failed: newly.failed,
        completed: newly.completed,
    })
}

// What is counted in of a Job, where the sync sees these pods: it goes over those alone at which it has to
// look.
//
// # Errors
// `Want` where there is no memory for the lists.
fn count_noted(alloc: Global, job: &Job, pods: &Pods) -> Result<CountIn, Want>
    requires by_index { CountsByIndex job.now pods.now }
    requires totals { TotalsFit job.now pods.now }
    requires indexes { All HasSmallIndex pods.now }
    requires few_pods { length pods.now < 2 ^ 31 }
    ensures counted { IfOk result (λ r. r ≡ counted_in job.now pods.now) }
    ensures failed_fits { IfOk result (λ r. (counts r).0 < 2 ^ 64) }
    ensures succeeded_fits { IfOk result (λ r. (counts r).1 < 2 ^ 64) }
    ensures few_failed { IfOk result (λ r. r.new_failed ≤ length pods.now) }
{
    let succeeded = job.status.uncounted_succeeded.as_slice();
    let failed = job.status.uncounted_failed.as_slice();
    let noted = pods.to_look_at(job.uid, succeeded, failed)?;
    count_job(alloc, job, noted.as_slice())
}

/// What a sync counts in (KEP-2307), and the pods whose finalizer is to go.
///
/// A UID of the Job's two lists of uncounted pods whose pod is no longer tracked, or no longer there,
/// leaves its list and raises its total. A tracked pod of the Job that has succeeded or failed and is in
/// neither list is to be judged: its UID joins the list of its outcome. A success of an Indexed Job joins
/// no list: its index joins the completed ones, whose number is the succeeded total. The lists hold at
/// most 500 UIDs: of the pods that would join them those with the least UIDs are judged, and the rest are
/// left over. A UID that is listed as failed stays so whatever its pod comes to. The finalizer is to go
/// from each tracked pod of the Job that is listed, or has ended and is not left over. Of failed indexes
/// nothing is said yet.
///
/// # Errors
/// `Want` where there is no memory for the lists.
pub fn count_in(alloc: Global, basis: &Basis) -> Result<CountIn, Want>
    requires there { IsSome basis.now.job }
    requires by_index { IfSome basis.now.job (λ job. CountsByIndex job basis.now.pods) }
    requires totals { IfSome basis.now.job (λ job. TotalsFit job basis.now.pods) }
    requires indexes { All HasSmallIndex basis.now.pods }
    requires few_pods { length basis.now.pods < 2 ^ 31 }
    ensures counted { IfOk result (λ r.
        IfSome basis.entry.now.job (λ job. r ≡ counted_in job basis.entry.now.pods)) }
    ensures failed_fits { IfOk result (λ r. (counts r).0 < 2 ^ 64) }
    ensures succeeded_fits { IfOk result (λ r. (counts r).1 < 2 ^ 64) }
    ensures few_failed { IfOk result (λ r. r.new_failed ≤ length basis.entry.now.pods) }
{
    match &basis.job {
        Some(job) => count_noted(alloc, job, &*basis.pods),
        None => unreachable!(),
    }
}

/// The status once the released pods have lost their finalizer (KEP-2307): each of their UIDs that is
/// listed leaves its list and raises the total of that list, and all else is as before.
///
/// # Errors
/// `Want` where there is no memory for the status.
pub fn count_out(alloc: Global, status: &JobStatus, released: &Uids) -> Result<JobStatus, Want>
    requires succeeded { status.now.succeeded + length status.now.uncounted_succeeded < 2 ^ 64 }
    requires failed { status.now.failed + length status.now.uncounted_failed < 2 ^ 64 }
    ensures counted { IfOk result (λ r. r ≡ counted_out status.now released.now) }
{
    let succeeded = unreleased(
        alloc,
        released.as_slice(),
        status.uncounted_succeeded.as_slice(),
    )?;
    let failed = unreleased(
        alloc,
        released.as_slice(),
        status.uncounted_failed.as_slice(),
    )?;
    Ok(JobStatus {
        active: status.active,
        ready: status.ready,
        terminating: status.terminating,
        succeeded: raised(status.succeeded, &status.uncounted_succeeded, &succeeded),
        failed: raised(status.failed, &status.uncounted_failed, &failed),
        completed: status.completed.copy()?,
        failed_indexes: status.failed_indexes.copy()?,
        index_failures: status.index_failures.copy()?,
        uncounted_succeeded: succeeded,
        uncounted_failed: failed,
        start: status.start,
        completion: status.completion,
        conditions: status.conditions.copy()?,
    })
}
