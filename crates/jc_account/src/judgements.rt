//! Which pods of a Job a sync judges, and what as.

ghost use Rattle.std.specs.Prelude.{◌≡◌, ◌+◌, ◌<◌, ◌≤◌, ◌^◌, All, IfOk, filter, length, nat_lt, unwrap_or};
ghost use Rattle.jc_states.specs.Bases.{own_pods};
ghost use Rattle.jc_states.specs.Conditions.{has_end};
ghost use Rattle.jc_states.specs.Indexes.{HasSmallIndex};
ghost use Rattle.jc_states.specs.PodLists.{IsRising};
ghost use Rattle.jc_states.specs.UidLists.{join};
ghost use Rattle.jc_failpol.specs.declared.outcomes.Outcome.TheVariants.{Failed, Succeeded};
ghost use Rattle.jc_account.specs.Accounts.{completed_in, new_uids};
ghost use Rattle.jc_account.specs.Judged.{left_with, room as room_of};
ghost use Rattle.jc_account.specs.Judgements.{completed_judged, HasSmall, indexes_judged, judgement_if_new, judgement_of};
ghost use Rattle.jc_account.specs.Judgements.{first_left, index_judged, judgements, rows_beyond, rows_with, rows_within, uids_judged};

use crate::indexes::kept_indexes;
use crate::rooms::{first_beyond, is_fit};
use jc_failpol::{Outcome, is_verdict, outcome, same_outcome};
use jc_ranges::Ranges;
use jc_states::{has_end, is_listed, is_own};
use jc_types::{Arc, Job, Mode, Pod, Uid, Uids, Want};
use std::alloc::Global;

/// What is judged of a pod: its outcome, under its UID, and its index.
#[derive(Clone, Copy, Drop)]
pub struct Judgement {
    /// The pod.
    pub uid: Uid,
    /// What it is judged.
    pub outcome: Outcome,
    /// Its completion index.
    pub index: Option<u32>,
}

// What a sync judges: the UIDs of the pods that are newly judged, the completed indexes with theirs, and
// how many pods are left over, with the first UID for which there is no room.
#[derive(Drop)]
pub(crate) struct Verdicts {
    pub succeeded: Uids,
    pub failed: Uids,
    pub completed: Ranges,
    pub left_succeeded: u32,
    pub left_failed: u32,
    pub first_left: Option<Uid>,
}

// What is judged of the pod.
fn judgement_of(job: &Job, pod: &Pod) -> Judgement
    ensures { result ≡ judgement_of job.now pod.now }
{
    Judgement {
        uid: pod.uid,
        outcome: outcome(&job.spec, pod),
        index: pod.index,
    }
}

// What would be judged of the Job's own pod, if it is to be judged. What it has come to is asked once, and
// of no pod that is listed: a failure policy may have many rules.
fn judgement_if_new(job: &Job, pod: &Pod) -> Option<Judgement>
    ensures { result ≡ judgement_if_new job.now pod.now }
{
    if !pod.tracked || is_listed(&*job.status, pod.uid) {
        return None;
    }
    let row = judgement_of(job, pod);
    if is_verdict(row.outcome) {
        Some(row)
    } else {
        None
    }
}

// What would be judged of the Job's own pods that are to be judged.
fn judgements(alloc: Global, job: &Job, pods: &[Arc<Pod>]) -> Result<Vec<Judgement>, Want>
    ensures { IfOk result (λ rows. rows.items ≡ judgements job.now (own_pods job.now pods.now)) }
{
    pods.iter()
        .filter(|pod| is_own(job, pod))
        .filter_map(|pod| judgement_if_new(job, pod))
        .collect(alloc)
}

// The UIDs of those with this outcome.
fn uids_judged(alloc: Global, rows: &[Judgement], want: Outcome) -> Result<Uids, Want>
    ensures { IfOk result (λ uids. uids ≡ uids_judged want rows.now) }
{
    let mut uids = Uids::new(alloc);
    for row in rows {
        if same_outcome(row.outcome, want) {
            uids.push(row.uid)?;
        }
    }
    Ok(uids)
}

// The index of one that has succeeded.
fn index_judged(row: &Judgement) -> Option<u32>
    ensures { result ≡ index_judged row.now }
{
    if same_outcome(row.outcome, Outcome::Succeeded) {
        row.index
    } else {
        None
    }
}

// The set of indexes with those of the successes that are below the completions.
fn with_indexes(kept: Ranges, completions: u32, rows: &[Judgement]) -> Result<Ranges, Want>
    requires { All HasSmall rows.now }
    ensures { IfOk result (λ set.
        set ≡ join kept (filter (λ n. nat_lt n completions) (indexes_judged rows.now))) }
{
    let mut set = kept;
    for place in (0..rows.len()).rev() {
        if let Some(index) = index_judged(&rows[place]) {
            if index < completions {
                set.insert(index)?;
            }
        }
    }
    Ok(set)
}

// The completed indexes afterwards: those of a Job that is not Indexed stay as they are.
fn completed(alloc: Global, job: &Job, rows: &[Judgement]) -> Result<Ranges, Want>
    requires { All HasSmall rows.now }
    ensures { IfOk result (λ set.
        set ≡ completed_judged job.now.spec.mode (has_end job.now.status.conditions)
        (unwrap_or job.now.spec.completions 0) job.now.status.completed rows.now) }
{
    let before = &job.status.completed;
    match job.spec.mode {
        Mode::NonIndexed => before.copy(),
        Mode::Indexed => {
            let completions = job.spec.completions.unwrap_or(0);
            let ended = has_end(&job.status.conditions);
            let kept = kept_indexes(alloc, ended, completions, before)?;
            with_indexes(kept, completions, rows)
        }
    }
}

/// Leaves out the rows of the pods for which there is no room. It takes no memory.
pub fn retain_within(rows: &mut Vec<Judgement>, mode: Mode, first: Option<Uid>)
    ensures { rows.new.items ≡ rows_within mode first rows.old.items }
{
    rows.retain(|row| is_fit(mode, first, row.outcome, row.uid));
}

// How many of the pods for which there is no room have this outcome.
fn count_beyond(mode: Mode, first: Option<Uid>, rows: &[Judgement], want: Outcome) -> u32
    requires { length rows.now < 2 ^ 31 }
    ensures { result ≡ length (rows_with want (rows_beyond mode first rows.now)) }
{
    rows.iter()
        .filter(|row| !is_fit(mode, first, row.outcome, row.uid))
        .filter(|row| same_outcome(row.outcome, want))
        .count() as u32
}

// What the sync judges of the Job's pods, where so many UIDs may join the lists.
//
// # Errors
// `Want` where there is no memory for it.
pub(crate) fn judge(
    alloc: Global,
    job: &Job,
    pods: &[Arc<Pod>],
    room: usize,
) -> Result<Verdicts, Want>
    requires rising { IsRising pods.now }
    requires indexes { All HasSmallIndex pods.now }
    requires few_pods { length pods.now < 2 ^ 31 }
    requires room { room ≡ room_of job.now (own_pods job.now pods.now) }
    ensures succeeded { IfOk result (λ r. r.succeeded ≡ new_uids job.now pods.now Succeeded) }
    ensures failed { IfOk result (λ r. r.failed ≡ new_uids job.now pods.now Failed) }
    ensures completed { IfOk result (λ r.
        r.completed ≡ completed_in job.now (own_pods job.now pods.now)) }
    ensures left_succeeded { IfOk result (λ r.
        r.left_succeeded ≡ length (left_with job.now (own_pods job.now pods.now) Succeeded)) }
    ensures left_failed { IfOk result (λ r.
        r.left_failed ≡ length (left_with job.now (own_pods job.now pods.now) Failed)) }
    ensures first_left { IfOk result (λ r.
        r.first_left ≡ first_left job.now (own_pods job.now pods.now)) }
    ensures few_succeeded { IfOk result (λ r.
        length r.succeeded + r.left_succeeded ≤ length pods.now) }
    ensures few_failed { IfOk result (λ r. length r.failed + r.left_failed ≤ length pods.now) }
{
    let mode = job.spec.mode;
    let mut rows = judgements(alloc, job, pods)?;
    let first_left = first_beyond(mode, rows.as_slice(), room);
    let left_succeeded = count_beyond(mode, first_left, rows.as_slice(), Outcome::Succeeded);
    let left_failed = count_beyond(mode, first_left, rows.as_slice(), Outcome::Failed);
    retain_within(&mut rows, mode, first_left);
    Ok(Verdicts {
        succeeded: uids_judged(alloc, rows.as_slice(), Outcome::Succeeded)?,
        failed: uids_judged(alloc, rows.as_slice(), Outcome::Failed)?,
        completed: completed(alloc, job, rows.as_slice())?,
        left_succeeded,
        left_failed,
        first_left,
    })
}
