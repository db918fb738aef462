//! The law on the end of each play of a script. The function does nothing: what it ensures holds of
//! every play, and its callers may cite it.

ghost use Rattle.std.specs.Prelude.{◌≡◌, ◌⊎◌, ◌+◌, ◌^◌, ◌<◌, ◌≤◌, List, length, true};
ghost use Rattle.std.specs.List.{AllByRecursion as Each};
ghost use Rattle.jc_types.specs.declared.actions.Command.{Command};
ghost use Rattle.jc_types.specs.declared.actions.Script.{Script};
ghost use Rattle.jc_types.specs.declared.runs.History.{History};
ghost use Rattle.jc_types.specs.declared.runs.Shape.{Shape};
ghost use Rattle.jc_log.specs.Deeds.{deeds};
ghost use Rattle.jc_log.specs.Range.{IsMoment};
ghost use Rattle.jc_states.specs.ValidActions.{AreValidCommands};
ghost use Rattle.jc_history.specs.Available.{is_quiescent};
ghost use Rattle.jc_history.specs.Replies.{log_given};
ghost use Rattle.jc_order.specs.Plays.{IsScriptFor, PlayEnds, ends_in_settle};
ghost use Rattle.jc_playing_out.specs.PlayingOut.{CountsInTheEnd, FatesEndWell, FatesStopWell, FatesSucceed, GivesFew, LastEndSucceeds, PlayFillsACount, PlaysInFull};

use jc_finite::settles_end;
use jc_order::settled_plays_are_at_rest;
use jc_runs::valid_scripts_ask_valid;

/// **Each play of a script ends** whose pods succeed: there is a number of events from which on,
/// with a shape that allows so many, the play on one thread is not full. So all commands are
/// played, each sync of them ends, and each settle comes to rest; how many more events the shape
/// allows changes nothing of it. So it is also where pods fail, if no Job's failure policy ignores
/// the last end of a fate of its key, and each end of a key for which a Job of the policy OnFailure
/// is created is a success. A success is never ignored, so it is enough that the last end of each
/// fate is one. And where ends of such a key fail, but no command deletes its Job, the Job stops
/// containers that have restarted too often: so the play ends, unless in one of its settles a
/// container restarts as often as is counted, 2 ^ 32 - 1 times. With reports as they can be read of
/// a script, that takes 2 ^ 31 events. Where the last command is a settle, nothing is left to do at
/// the end of a play that ends.
pub fn plays_end()
    ensures ends { (script : Script) (shape : Shape)
        → AreValidCommands script.commands
        → IsScriptFor script shape → 0 < shape.workers → IsMoment shape.start
        → FatesSucceed script → PlayEnds script shape }
    ensures in_the_end { (script : Script) (shape : Shape)
        → AreValidCommands script.commands
        → IsScriptFor script shape → 0 < shape.workers → IsMoment shape.start
        → FatesEndWell script → PlayEnds script shape }
    ensures stops { (script : Script) (shape : Shape)
        → AreValidCommands script.commands
        → IsScriptFor script shape → 0 < shape.workers → IsMoment shape.start
        → FatesStopWell script → PlayEnds script shape ⊎ PlayFillsACount script shape }
    ensures late { (script : Script) (shape : Shape) → (it : PlayFillsACount script shape)
        → Each (λ (command : Command). GivesFew command.action) script.commands
        → 2 ^ 31 ≤ length it.pasts + it.out.events }
    ensures succeeding { (commands : List Command)
        → Each (λ (command : Command). LastEndSucceeds command.action) commands
        → Each (λ (command : Command). CountsInTheEnd commands command.action) commands }
    ensures weaker { (script : Script) → FatesEndWell script → FatesStopWell script }
    ensures rests { (script : Script) (shape : Shape) → IsScriptFor script shape
        → ends_in_settle script.commands ≡ true
        → (it : PlayEnds script shape) (history : History) → PlaysInFull script shape it history
        → is_quiescent shape (deeds script history)
        (log_given shape (deeds script history)) ≡ true }
{
    settles_end();
    valid_scripts_ask_valid();
    settled_plays_are_at_rest();
}
