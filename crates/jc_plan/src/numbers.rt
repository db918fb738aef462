//! The numbers of pods that a status tells.

ghost use Rattle.std.specs.Prelude.{◌≡◌, ◌<◌, ◌≤◌, ◌^◌, ◌↔◌, IsTrue, filter, length};
ghost use Rattle.jc_types.specs.declared.limits.TheConstants.{GREATEST_PARALLELISM};
ghost use Rattle.jc_states.specs.Bases.{own_pods};
ghost use Rattle.jc_states.specs.Pods.{active_pods, is_ready};
ghost use Rattle.jc_plan.specs.PodNumbers.{active_after, ending_after, is_let_go_of, keeps_on, ready_after, stopped_by};

use jc_manage::Wants;
use jc_states::{Pods, is_in, is_own, is_ready};
use jc_types::{Arc, Job, Pod, PodVersions, Uid};

/// How many pods are active, ready and terminating once the requests of a sync are made.
#[derive(Clone, Copy)]
pub struct Numbers {
    pub active: u32,
    pub ready: u32,
    pub terminating: u32,
}

// Whether the pod of the UID is let go.
fn is_let_go_of(uid: Uid, rows: &PodVersions) -> bool
    ensures { result ≡ is_let_go_of uid rows.now }
{
    rows.as_slice().iter().any(|row| row.0.0 == uid.0)
}

// Whether the pod is neither marked nor let go.
fn keeps_on(wants: &Wants, pod: &Pod) -> bool
    ensures { result ≡ keeps_on wants.now pod.now }
{
    !is_in(pod.uid, wants.marks.as_slice()) && !is_let_go_of(pod.uid, &wants.let_goes)
}

// Whether no pod is marked or let go.
fn stops_none(wants: &Wants) -> bool
    ensures { IsTrue result ↔ (stopped_by wants.now ≡ 0) }
{
    wants.marks.len() == 0 && wants.let_goes.len() == 0
}

// How many of the Job's own pods are ready and are neither marked nor let go, counted one by one.
fn count_kept_on(job: &Job, pods: &[Arc<Pod>], wants: &Wants) -> usize
    ensures { result ≡ ready_after wants.now (own_pods job.now pods.now) }
{
    pods.iter()
        .filter(|pod| is_own(job, pod))
        .filter(|pod| is_ready(pod) && keeps_on(wants, pod))
        .count()
}

// How many of the Job's own pods are ready and are neither marked nor let go, where so many are ready. The
// pods are looked at only where some of them are stopped.
fn ready_after(job: &Job, pods: &Pods, wants: &Wants, ready: usize) -> usize
    requires { ready ≡ length (filter is_ready (own_pods job.now pods.now)) }
    ensures { result ≡ ready_after wants.now (own_pods job.now pods.now) }
{
    if stops_none(wants) {
        return ready;
    }
    count_kept_on(job, pods.as_slice(), wants)
}

/// The numbers of the Job's own pods once what the sync wants of them is done.
pub fn numbers_after(job: &Job, pods: &Pods, wants: &Wants) -> Numbers
    requires few_pods { length pods.now < 2 ^ 31 }
    requires created { length wants.now.creates ≤ GREATEST_PARALLELISM }
    requires going { stopped_by wants.now ≤ length (active_pods (own_pods job.now pods.now)) }
    ensures active { result.active ≡ active_after wants.now (own_pods job.now pods.now) }
    ensures ready { result.ready ≡ ready_after wants.now (own_pods job.now pods.now) }
    ensures terminating { result.terminating ≡ ending_after wants.now (own_pods job.now pods.now) }
{
    let going = wants.marks.len() + wants.let_goes.len();
    let tally = pods.tally(job.uid);
    Numbers {
        active: (tally.active as usize + wants.creates.len() - going) as u32,
        ready: ready_after(job, pods, wants, tally.ready as usize) as u32,
        terminating: (tally.open_marked as usize + going) as u32,
    }
}
