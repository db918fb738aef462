//! Laws on the end of a settle. Each function does nothing: what it ensures holds of every history, and its callers may cite
//! it.

ghost use Rattle.std.specs.Prelude.{◌<◌, List};
ghost use Rattle.jc_types.specs.declared.runs.Shape.{Shape};
ghost use Rattle.jc_log.specs.Deeds.{Deed};
ghost use Rattle.jc_log.specs.Range.{IsMoment};
ghost use Rattle.jc_history.specs.Legal.{IsLegal};
ghost use Rattle.jc_runs.specs.Machines.{AllAskValid};
ghost use Rattle.jc_settle.specs.Settles.{ComesToRest};
ghost use Rattle.jc_ends.specs.Podless.{LeavesPods};

use jc_runs::allowed_updates_stay_valid;

/// **No busy loop**: behind any legal history whose Jobs were created with valid specifications a settle in which the
/// node does nothing and no sync asks to make, mark, let go or release a pod comes to where nothing is available, for
/// any number of controllers and workers, with lagging caches, faults that are pending, and syncs that are under way
/// when it begins. With each turn the first of these numbers that changes falls: the faults that are pending, the
/// statuses, the moments and the keys that are still to come.
pub fn settles_without_pods_end()
    ensures { (shape : Shape) (past : List Deed) → IsLegal shape past → AllAskValid past
        → 0 < shape.workers → IsMoment shape.start → LeavesPods shape past
        → ComesToRest shape past }
{
    allowed_updates_stay_valid();
}
