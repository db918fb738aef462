//! Which listed UIDs stay.

ghost use Rattle.std.specs.Prelude.{◌≡◌, ◌&&◌, ◌≤◌, IfOk, length};
ghost use Rattle.std.specs.List.{list_any};
ghost use Rattle.jc_types.specs.Keys.{same_uid};
ghost use Rattle.jc_states.specs.Bases.{is_own, own_pods};
ghost use Rattle.jc_states.specs.Pods.{is_tracked};
ghost use Rattle.jc_account.specs.Judged.{has_tracked, is_tracked_as, stayed};

use jc_states::is_own;
use jc_types::{Arc, Job, Pod, Uid, Uids, Want};
use std::alloc::Global;

// Whether the pod is tracked and has the UID.
fn is_tracked_as(pod: &Pod, uid: Uid) -> bool
    ensures { result ≡ is_tracked_as uid pod.now }
{
    pod.tracked && pod.uid.0 == uid.0
}

// Whether one of the pods is the Job's own, is tracked and has the UID.
fn finds_tracked(job: &Job, pods: &[Arc<Pod>], uid: Uid) -> bool
    ensures { result ≡ list_any (λ pod. is_own job.now pod && is_tracked_as uid pod) pods.now }
{
    pods.iter()
        .any(|pod| is_own(job, pod) && is_tracked_as(pod, uid))
}

// Whether a tracked pod of the Job has the UID.
fn has_tracked(job: &Job, pods: &[Arc<Pod>], uid: Uid) -> bool
    ensures { result ≡ has_tracked (own_pods job.now pods.now) uid }
{
    finds_tracked(job, pods, uid)
}

// The listed UIDs whose pod is the Job's and is tracked.
//
// # Errors
// `Want` where there is no memory for them.
pub(crate) fn stayed(
    alloc: Global,
    job: &Job,
    pods: &[Arc<Pod>],
    uids: &[Uid],
) -> Result<Uids, Want>
    ensures stayed { IfOk result (λ list. list ≡ stayed (own_pods job.now pods.now) uids.now) }
    ensures shorter { IfOk result (λ list. length list ≤ length uids.now) }
{
    let mut rest = Uids::new(alloc);
    for uid in uids {
        if has_tracked(job, pods, *uid) {
            rest.push(*uid)?;
        }
    }
    Ok(rest)
}
