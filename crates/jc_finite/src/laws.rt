//! The law on the end of every settle. The function does nothing: what it ensures holds of every history, and its callers may
//! cite it.

ghost use Rattle.std.specs.Prelude.{◌⊎◌, ◌+◌, ◌-◌, ◌^◌, ◌<◌, ◌≤◌, List};
ghost use Rattle.jc_types.specs.declared.runs.Shape.{Shape};
ghost use Rattle.jc_log.specs.Deeds.{Deed};
ghost use Rattle.jc_log.specs.Range.{IsMoment};
ghost use Rattle.jc_runs.specs.Legal.{IsLegal};
ghost use Rattle.jc_runs.specs.Machines.{AllAskValid};
ghost use Rattle.jc_settle.specs.Settles.{ComesToRest};
ghost use Rattle.jc_restarts.specs.Restarts.{most_restarts};
ghost use Rattle.jc_finite.specs.Finite.{EndInTheEnd, FillsACount, StopInTheEnd, StopWhereKept, SucceedAlways, SucceedInTheEnd};

use jc_runs::allowed_updates_stay_valid;

/// **Every settle ends** whose pods succeed in the end, or fail so that it counts: behind any legal
/// history it comes to where nothing is available, for any number of controllers and workers, with
/// lagging caches, faults that are pending, and syncs that are under way when it begins. The last
/// end of a fate may be a failure, and so may all of them, if no Job of the key has a failure
/// policy that ignores the last one: each failure that counts is one of those that the backoff
/// limit allows. Where a Job of the policy OnFailure is created, each end of its key is a success,
/// so that no container restarts for ever. With each turn the first of these numbers that changes
/// falls: the faults that are pending, the pods that may still be made, what is left to write of
/// those that are there, and the statuses, the moments and the keys that are still to come. A
/// success is never ignored, so the last end of a fate may always be one; and it is enough that
/// each end of each fate is, whatever Jobs were created. Where ends of a key fail for which a Job
/// of OnFailure is created, and its successes have no more restarts than are counted, its Job stops
/// containers that have restarted too often, if it is there. So a settle ends too, whatever was
/// deleted before, if when it begins each active pod of that policy whose own end fails has its
/// Job, and so will each that a sync under way may still make; unless a container has restarted as
/// often as is counted, 2 ^ 32 - 1 times. That takes a report of many restarts, or as many deeds of
/// the node and events of the settle as are still lacking then. Where no Job of such a key was ever
/// deleted, each has its Job.
pub fn settles_end()
    ensures rests { (shape : Shape) (past : List Deed) → IsLegal shape past → AllAskValid past
        → 0 < shape.workers → IsMoment shape.start → EndInTheEnd past
        → ComesToRest shape past }
    ensures stops { (shape : Shape) (past : List Deed) → IsLegal shape past → AllAskValid past
        → 0 < shape.workers → IsMoment shape.start → StopInTheEnd shape past
        → ComesToRest shape past ⊎ FillsACount shape past }
    ensures late { (shape : Shape) (past : List Deed) → (out : FillsACount shape past)
        → 2 ^ 32 - 1 ≤ most_restarts past + out.events }
    ensures succeeding { (past : List Deed) → SucceedInTheEnd past → EndInTheEnd past }
    ensures always { (past : List Deed) → SucceedAlways past → SucceedInTheEnd past }
    ensures weaker { (shape : Shape) (past : List Deed) → EndInTheEnd past
        → StopInTheEnd shape past }
    ensures kept { (shape : Shape) (past : List Deed) → StopWhereKept past
        → StopInTheEnd shape past }
{
    allowed_updates_stay_valid();
}
