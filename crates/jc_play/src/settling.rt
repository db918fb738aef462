//! Doing what is available until nothing is.

ghost use Rattle.std.specs.Prelude.{◌≡◌, OnOk, false, true};
ghost use Rattle.jc_history.specs.Play.{settled_down};
ghost use Rattle.jc_play.specs.Turns.{HasGoneOn, HasGrown, Reaches, is_quiescent_seen, next_to_settle, playing_of};

use crate::next::next_event;
use jc_machine::{ApplyFault, Machine};

/// Does what is available, one event after the other in first order, until nothing is. An orderly
/// history stays orderly.
///
/// # Errors
/// `HistoryFull` exactly where the history has as many events as the shape allows and one is still
/// to come; `Want` where there is no memory. The events before it are kept.
pub fn settle(machine: &mut Machine) -> Result<(), ApplyFault>
    ensures reaches { Reaches result
        (settled_down machine.old.script machine.old.shape (playing_of false machine.old))
        machine.new }
    ensures rests { OnOk result (is_quiescent_seen machine.new ≡ true) }
    ensures kept { HasGoneOn (next_to_settle machine.old.script machine.old.shape) machine.old
        machine.new }
    ensures grown { HasGrown machine.old machine.new }
{
    'settling: while let Some(event) = next_event(machine) {
        machine.happen(event)?;
    }
    Ok(())
}
