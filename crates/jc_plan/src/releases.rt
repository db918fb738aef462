//! Which pods lose their finalizer.

ghost use Rattle.std.specs.Prelude.{◌≡◌, [], IfOk, Some, filter, true};
ghost use Rattle.jc_states.specs.UidLists.{Ascends, is_in, uids_of};
ghost use Rattle.jc_plan.specs.Releases.{due_uids, is_owed, is_orphan, is_released, releases_of};

use jc_states::{Basis, is_foreign};
use jc_types::{Arc, Copied, Job, Pod, Uid, Uids, Want};
use std::alloc::Global;

// Whether the pod is an orphan.
fn is_orphan(basis: &Basis, pod: &Pod) -> bool
    ensures { result ≡ is_orphan basis.entry.now pod.now }
{
    pod.tracked && (is_foreign(&basis.job, pod) && pod.version.0 <= basis.jobs_at.0)
}

// Whether the UID is one of these, found by halving.
fn is_due(due: &[Uid], uid: Uid) -> bool
    requires { Ascends due.now }
    ensures { result ≡ is_in uid due.now }
{
    let place = due.partition_point(|other| other.0 < uid.0);
    place < due.len() && due[place].0 == uid.0
}

// Whether the pod has the finalizer, and its UID is one of those that the Job is to release.
fn is_owed(due: &[Uid], pod: &Pod) -> bool
    requires { Ascends due.now }
    ensures { result ≡ is_owed due.now pod.now }
{
    pod.tracked && is_due(due, pod.uid)
}

// Whether the pod loses its finalizer, where these are the UIDs that the Job is to release.
fn is_released(basis: &Basis, due: &[Uid], pod: &Pod) -> bool
    requires due { due.now ≡ due_uids basis.now.job basis.now.pods }
    requires ascends { Ascends due.now }
    ensures { result ≡ is_released basis.entry.now pod.now }
{
    is_owed(due, pod) || is_orphan(basis, pod)
}

// The UIDs of these pods that lose their finalizer, where these are the UIDs that the Job is to release.
//
// # Errors
// `Want` where there is no memory for them.
fn released_of(alloc: Global, basis: &Basis, due: &[Uid], pods: &[Arc<Pod>]) -> Result<Uids, Want>
    requires due { due.now ≡ due_uids basis.now.job basis.now.pods }
    requires ascends { Ascends due.now }
    ensures { IfOk result (λ uids. uids ≡ uids_of (filter (is_released basis.entry.now) pods.now)) }
{
    let mut uids = Uids::new(alloc);
    for pod in pods {
        if is_released(basis, due, pod) {
            uids.push(pod.uid)?;
        }
    }
    Ok(uids)
}

// Whether it is plain which pods lose their finalizer: all are the Job's, and they are those that it is to
// release. It goes over no pod.
fn are_just_due(basis: &Basis, job: &Job, due: &Uids) -> bool
    requires its_job { basis.now.job ≡ Some job.now }
    requires due { due.now ≡ due_uids basis.now.job basis.now.pods }
    ensures { result ≡ true → releases_of basis.entry.now ≡ due.now }
{
    basis.pods.are_all_of(job.uid)
}

/// The pods that lose their finalizer, in their order (KEP-2307): those that the Job is to release, which
/// are given, and orphans. A tracked pod of the key is an orphan where its Job is gone, and the cache of
/// Jobs is at least as new as the pod.
///
/// # Errors
/// `Want` where there is no memory for them.
pub fn released(alloc: Global, basis: &Basis, due: &Uids) -> Result<Uids, Want>
    requires { due.now ≡ due_uids basis.now.job basis.now.pods }
    ensures { IfOk result (λ uids. uids ≡ releases_of basis.entry.now) }
{
    let uids = due.as_slice();
    let pods = basis.pods.as_slice();
    let Some(job) = &basis.job else {
        return released_of(alloc, basis, uids, pods);
    };
    if are_just_due(basis, job, due) {
        return due.copy();
    }
    // Those that the Job is to release are among the pods to look at by their UID, orphans by their owner.
    let noted = basis.pods.to_look_at(job.uid, uids, &[])?;
    released_of(alloc, basis, uids, noted.as_slice())
}
