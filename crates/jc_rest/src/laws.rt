//! Laws on histories at rest. Each function does nothing: what it ensures holds of every history, and
//! its callers may cite it.

ghost use Rattle.std.specs.Prelude.{◌≡◌, ◌<◌, List, Some};
ghost use Rattle.jc_types.specs.declared.objects.Job.{Job};
ghost use Rattle.jc_types.specs.declared.objects.KeyNames.{KeyNames as Key};
ghost use Rattle.jc_types.specs.declared.runs.Shape.{Shape};
ghost use Rattle.jc_log.specs.Deeds.{Deed};
ghost use Rattle.jc_log.specs.Log.{job_in};
ghost use Rattle.jc_history.specs.Legal.{IsLegal};
ghost use Rattle.jc_history.specs.Replies.{log_given};
ghost use Rattle.jc_order.specs.Rest.{HasComeToRest};
ghost use Rattle.jc_runs.specs.Machines.{AllAskValid};
ghost use Rattle.jc_rest.specs.LetGo.{EndedAreLetGo};
ghost use Rattle.jc_rest.specs.Lost.{AreLostWell};
ghost use Rattle.jc_rest.specs.Orphans.{LeavesNone};
ghost use Rattle.jc_rest.specs.Stuck.{NoneIsStuck};

use jc_runs::allowed_updates_stay_valid;

/// **At rest no ended pod is forgotten (KEP-2307)**: where nothing is available any more, behind a legal
/// history whose Jobs were created with valid specifications, each pod that has ended, of a Job that is there, has lost its finalizer. So it is for any number of
/// controllers and workers, with faults, lost replies, restarts, pods that lose their finalizers by
/// commands, and caches that are listed anew; and however many pods have ended, though a sync counts
/// in no more of them than fit into the lists, and leaves the others over.
///
/// The Job's status need not be the next one: where a pod came and went between two lists of the
/// pod cache, no list adds its owner's key.
pub fn no_ended_pod_is_forgotten_at_rest()
    ensures { (shape : Shape) (deeds : List Deed) → HasComeToRest shape deeds → AllAskValid deeds
        → 0 < shape.controllers
        → (k : Key) (job : Job) → job_in k (log_given shape deeds) ≡ Some job
        → EndedAreLetGo job (log_given shape deeds) }
{
    allowed_updates_stay_valid();
}

/// In each legal history whose Jobs were created with valid specifications, of each pod that ever was there of a Job that is there, where it is
/// without its finalizer now, or gone, one of the deeds took it: just before this deed the pod had
/// it, and just after it not. It was a command that stripped this pod, or a release or let-go of
/// this pod by a sync, and the sync had a cause: the pod was judged by an earlier write of the
/// Job's status; or it needs no count, since its failure is ignored, it was active and was let go,
/// or it has succeeded and its index was complete or past the completions. So at rest each pod that
/// has ended and that no command stripped is in the Job's counts, or needs no count.
pub fn finalizers_are_lost_with_a_cause()
    ensures { (shape : Shape) (deeds : List Deed) → IsLegal shape deeds → AllAskValid deeds
        → (k : Key) (job : Job) → job_in k (log_given shape deeds) ≡ Some job
        → AreLostWell job deeds (log_given shape deeds) }
{
    allowed_updates_stay_valid();
}

/// **At rest no Job is stuck (batch/v1)**: where nothing is available any more, behind a legal history whose
/// Jobs were created with valid specifications, each Job that is there has ended; or how it will end is not decided, and it waits for something that only the outside can give: it is
/// suspended, it may run no pod, it has as many active pods as it wants and nothing says how one of them will
/// end, or its pods are delayed past the last moment. So it is for each controller that has added the Job's
/// key since its pod cache last skipped entries of the log.
///
/// Without that it can be false: where the last pod of a Job comes to its end and leaves the log between
/// two lists of the pod cache, nobody adds the Job's key.
pub fn no_job_is_stuck_at_rest()
    ensures { (shape : Shape) (deeds : List Deed) → HasComeToRest shape deeds → AllAskValid deeds
        → NoneIsStuck shape deeds (log_given shape deeds) }
{
    allowed_updates_stay_valid();
}

/// **At rest no orphan is left (KEP-2307)**: where nothing is available any more, behind a legal history whose
/// Jobs were created with valid specifications, each pod that is there and
/// whose Job is gone has lost its finalizer, if some controller has added the key of its owner since its cache
/// of Jobs had seen the last entry about the pod or a Job of that key.
///
/// Without that it can be false: where a sync saw its Job gone and the pod as it was written later than what the
/// cache of Jobs had seen, or where the entry that took the Job away was skipped by the cache of Jobs, nobody adds
/// the key again.
pub fn no_orphan_is_left_at_rest()
    ensures { (shape : Shape) (deeds : List Deed) → HasComeToRest shape deeds → AllAskValid deeds
        → LeavesNone shape deeds (log_given shape deeds) }
{
    allowed_updates_stay_valid();
}
