//! How many of a Job's own pods are in a state, read from the numbers of its UID: none of these goes
//! over the pods.

ghost use Rattle.std.specs.Prelude.{◌≡◌, length, filter};
ghost use Rattle.std.specs.List.{list_any};
ghost use Rattle.jc_states.specs.Bases.{own_pods};
ghost use Rattle.jc_states.specs.Pods.{active_pods, ending_pods, is_active, is_open, is_ready, tracked_active_pods};
ghost use Rattle.jc_states.specs.Tallies.{restarts_of};

use crate::pod_lists::Pods;
use jc_types::Job;

/// How many of the Job's own pods are active.
pub fn count_active(job: &Job, pods: &Pods) -> usize
    ensures { result ≡ length (active_pods (own_pods job.now pods.now)) }
{
    pods.tally(job.uid).active as usize
}

/// How many of the Job's own pods are active and have the finalizer.
pub fn count_tracked_active(job: &Job, pods: &Pods) -> usize
    ensures { result ≡ length (tracked_active_pods (own_pods job.now pods.now)) }
{
    pods.tally(job.uid).active_tracked as usize
}

/// How many of the Job's own pods are marked for deletion and still open.
pub fn count_ending(job: &Job, pods: &Pods) -> usize
    ensures { result ≡ length (ending_pods (own_pods job.now pods.now)) }
{
    pods.tally(job.uid).open_marked as usize
}

/// How often the containers of the Job's own open pods were restarted, all together.
pub fn count_restarts(job: &Job, pods: &Pods) -> u128
    ensures { result ≡ restarts_of (own_pods job.now pods.now) }
{
    pods.tally(job.uid).restarts
}

/// Whether one of the Job's own pods is active.
pub fn has_active(job: &Job, pods: &Pods) -> bool
    ensures { result ≡ list_any is_active (own_pods job.now pods.now) }
{
    pods.tally(job.uid).active > 0
}

/// Whether one of the Job's own pods is open.
pub fn has_open(job: &Job, pods: &Pods) -> bool
    ensures { result ≡ list_any is_open (own_pods job.now pods.now) }
{
    pods.tally(job.uid).open_pods > 0
}
