//! How many pods a sync judges.

ghost use Rattle.std.specs.Prelude.{◌≡◌, ◌+◌, ◌-◌, ◌↔◌, ◌&&◌, IsTrue, filter, length, slice_get};
ghost use Rattle.jc_types.specs.declared.limits.TheConstants.{MOST_UNCOUNTED};
ghost use Rattle.jc_states.specs.Bases.{is_own};
ghost use Rattle.jc_account.specs.Judged.{is_staying};
ghost use Rattle.jc_account.specs.Judgements.{first_beyond, has_room_for, is_fit};
ghost use Rattle.jc_account.specs.Rooms.{joins_list};

use crate::judgements::Judgement;
use jc_failpol::{Outcome, same_outcome};
use jc_states::{is_listed, is_own};
use jc_types::{Arc, Job, JobStatus, MOST_UNCOUNTED, Mode, Pod, Uid};

/// Whether a pod that is judged so joins a list.
pub fn joins_list(mode: Mode, outcome: Outcome) -> bool
    ensures { result ≡ joins_list mode outcome }
{
    match mode {
        Mode::NonIndexed => true,
        Mode::Indexed => !same_outcome(outcome, Outcome::Succeeded),
    }
}

// Whether the UID is below the first for which there is no room.
pub(crate) fn has_room_for(first: Option<Uid>, uid: Uid) -> bool
    ensures { result ≡ has_room_for first uid }
{
    match first {
        None => true,
        Some(first) => uid.0 < first.0,
    }
}

// Whether there is room for a pod with this outcome and UID.
pub(crate) fn is_fit(mode: Mode, first: Option<Uid>, outcome: Outcome, uid: Uid) -> bool
    ensures { result ≡ is_fit mode first outcome uid }
{
    !joins_list(mode, outcome) || has_room_for(first, uid)
}

// Whether the pod is the Job's own and stays listed.
fn is_own_staying(job: &Job, pod: &Pod) -> bool
    ensures { result ≡ is_own job.now pod.now && is_staying job.now pod.now }
{
    is_own(job, pod) && (pod.tracked && is_listed(&*job.status, pod.uid))
}

// Whether no UID is listed.
fn lists_none(status: &JobStatus) -> bool
    ensures { IsTrue result ↔ (length status.now.uncounted_succeeded
        + length status.now.uncounted_failed ≡ 0) }
{
    status.uncounted_succeeded.len() == 0 && status.uncounted_failed.len() == 0
}

// How many of the Job's own pods stay listed. Where none is listed it goes over no pod.
pub(crate) fn count_staying(job: &Job, pods: &[Arc<Pod>]) -> usize
    ensures { result
        ≡ length (filter (λ pod. is_own job.now pod && is_staying job.now pod) pods.now) }
{
    if lists_none(&*job.status) {
        return 0;
    }
    pods.iter().filter(|pod| is_own_staying(job, pod)).count()
}

// How many UIDs may join the two lists, where so many stay listed.
pub(crate) fn room_beside(staying: usize) -> usize
    ensures { result ≡ MOST_UNCOUNTED - staying }
{
    (MOST_UNCOUNTED as usize).saturating_sub(staying)
}

// The row at a place among those that join a list.
fn joining_row(mode: Mode, rows: &[Judgement], place: usize) -> Option<Judgement>
    ensures { result ≡ slice_get (filter (λ row. joins_list mode row.outcome) rows.now) place }
{
    rows.iter()
        .copied()
        .filter(|row| joins_list(mode, row.outcome))
        .nth(place)
}

/// The first UID for which there is no room, where there is room for so many that join a list. The rows
/// stand in ascending UID.
pub fn first_beyond(mode: Mode, rows: &[Judgement], room: usize) -> Option<Uid>
    ensures { result ≡ first_beyond mode room rows.now }
{
    joining_row(mode, rows, room).map(|row| row.uid)
}
