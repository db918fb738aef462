//! Which pods lose their finalizer.

ghost use Rattle.std.specs.Prelude.{◌≡◌, ◌+◌, ◌≤◌, ◌↔◌, ◌&&◌, IfOk, IsTrue, length};
ghost use Rattle.jc_states.specs.Bases.{is_own, own_pods};
ghost use Rattle.jc_states.specs.PodLists.{IsRising};
ghost use Rattle.jc_states.specs.UidLists.{uids_of};
ghost use Rattle.jc_failpol.specs.declared.outcomes.Outcome.TheVariants.{Failed, Succeeded};
ghost use Rattle.jc_account.specs.Accounts.{new_uids};
ghost use Rattle.jc_account.specs.Judged.{left_with, to_release};
ghost use Rattle.jc_account.specs.Judgements.{first_left, has_place, is_to_go};

use crate::judgements::Verdicts;
use crate::rooms::{has_room_for, is_fit};
use jc_failpol::{Outcome, has_ended, is_verdict, outcome, same_outcome};
use jc_states::{is_listed, is_own};
use jc_types::{Arc, Copied, Job, JobSpec, Pod, Uid, Uids, Want};
use std::alloc::Global;

// Whether the pod has ended and there is room for it, or it takes none, where this is the first UID for
// which there is no room. The failure policy is asked only where there may be none.
fn has_place(first: Option<Uid>, spec: &JobSpec, pod: &Pod) -> bool
    ensures { result ≡ has_place first spec.now pod.now }
{
    if has_room_for(first, pod.uid) {
        return has_ended(spec, pod);
    }
    let outcome = outcome(spec, pod);
    !same_outcome(outcome, Outcome::Alive)
        && (!is_verdict(outcome) || is_fit(spec.mode, first, outcome, pod.uid))
}

// Whether the finalizer of the Job's own pod is to go (KEP-2307): the pod has it, and either is listed as
// uncounted, or has ended and is not left over.
fn is_to_go(first: Option<Uid>, job: &Job, pod: &Pod) -> bool
    ensures { result ≡ is_to_go first job.now pod.now }
{
    pod.tracked && (is_listed(&*job.status, pod.uid) || has_place(first, &job.spec, pod))
}

// Whether the pod is the Job's own and its finalizer is to go.
fn is_own_due(first: Option<Uid>, job: &Job, pod: &Pod) -> bool
    ensures { result ≡ is_own job.now pod.now && is_to_go first job.now pod.now }
{
    is_own(job, pod) && is_to_go(first, job, pod)
}

// The UIDs of the Job's pods whose finalizer is to go, by the first UID for which there is no room.
//
// # Errors
// `Want` where there is no memory for them.
fn due(alloc: Global, job: &Job, pods: &[Arc<Pod>], first: Option<Uid>) -> Result<Uids, Want>
    requires rising { IsRising pods.now }
    requires first { first ≡ first_left job.now (own_pods job.now pods.now) }
    ensures { IfOk result (λ uids.
        uids ≡ uids_of (to_release job.now (own_pods job.now pods.now))) }
{
    let mut uids = Uids::new(alloc);
    for pod in pods {
        if is_own_due(first, job, pod) {
            uids.push(pod.uid)?;
        }
    }
    Ok(uids)
}

// Whether as many pods are judged and left over as there are.
fn are_all(judged: &Uids, left: u32, pods: &[Arc<Pod>]) -> bool
    requires { length judged.now + left ≤ length pods.now }
    ensures { IsTrue result ↔ (length judged.now + left ≡ length pods.now) }
{
    judged.len() as u64 + u64::from(left) == pods.len() as u64
}

// The UIDs of the Job's pods whose finalizer is to go, where the sync judges so. Mostly all pods are new ones of
// one outcome, and these are those that are judged: then it goes over no pod.
//
// # Errors
// `Want` where there is no memory for them.
pub(crate) fn releases(
    alloc: Global,
    job: &Job,
    pods: &[Arc<Pod>],
    newly: &Verdicts,
) -> Result<Uids, Want>
    requires rising { IsRising pods.now }
    requires succeeded { newly.now.succeeded ≡ new_uids job.now pods.now Succeeded }
    requires failed { newly.now.failed ≡ new_uids job.now pods.now Failed }
    requires left_succeeded { newly.now.left_succeeded
        ≡ length (left_with job.now (own_pods job.now pods.now) Succeeded) }
    requires left_failed { newly.now.left_failed
        ≡ length (left_with job.now (own_pods job.now pods.now) Failed) }
    requires first { newly.now.first_left ≡ first_left job.now (own_pods job.now pods.now) }
    requires few_succeeded { length newly.now.succeeded + newly.now.left_succeeded
        ≤ length pods.now }
    requires few_failed { length newly.now.failed + newly.now.left_failed ≤ length pods.now }
    ensures { IfOk result (λ uids.
        uids ≡ uids_of (to_release job.now (own_pods job.now pods.now))) }
{
    if are_all(&newly.succeeded, newly.left_succeeded, pods) {
        return newly.succeeded.copy();
    }
    if are_all(&newly.failed, newly.left_failed, pods) {
        return newly.failed.copy();
    }
    due(alloc, job, pods, newly.first_left)
}
