//! Laws on how a settle goes on from a calm state. Each function is empty: what it ensures holds of every history, and
//! its callers may cite it.

ghost use Rattle.std.specs.Prelude.{◌<◌, List};
ghost use Rattle.jc_types.specs.declared.runs.Shape.{Shape};
ghost use Rattle.jc_log.specs.Deeds.{Deed};
ghost use Rattle.jc_log.specs.Range.{IsMoment};
ghost use Rattle.jc_history.specs.Legal.{IsLegal};
ghost use Rattle.jc_settle.specs.Settles.{IsCalm};
ghost use Rattle.jc_calm.specs.SettleTurns.{Turn};

/// **From a calm state a settle goes on by turns**: nothing is available; or the node acts; or the clock moves to the
/// least delay; or a sync begins, of the key that is first in line, and runs alone. That finds nothing to do, and ends
/// with the log as it was; or it asks for a pod, that is to make, mark, let go or release one; or it writes its Job's
/// status as its plan has it, and asks for a pod then, or for nothing more; or a fault is pending, which it uses up.
/// After a turn in which the node does nothing and no pod is asked for it is calm again, the moment is as it was but
/// for the clock's turn, and no fault is new.
pub fn calm_settles_go_on()
    ensures { (shape : Shape) (past : List Deed) → 0 < shape.workers → IsMoment shape.start
        → IsLegal shape past → IsCalm shape past → Turn shape past }
{}
