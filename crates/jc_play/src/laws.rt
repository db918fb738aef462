//! Laws on plays. Each function is empty: what it ensures holds of every machine, and its callers
//! may cite it.

ghost use Rattle.std.specs.Prelude.{◌≡◌, [], Some, false};
ghost use Rattle.jc_types.specs.declared.actions.Script.{Script};
ghost use Rattle.jc_types.specs.declared.runs.Event.{Event};
ghost use Rattle.jc_types.specs.declared.runs.Shape.{Shape};
ghost use Rattle.jc_history.specs.Available.{IsOrderly, available};
ghost use Rattle.jc_history.specs.Play.{first_event, nothing, rest_played, whole_play};
ghost use Rattle.jc_runs.specs.Seen.{Seen, deeds_seen, happened, log_seen};
ghost use Rattle.jc_play.specs.Actors.{CanCome};
ghost use Rattle.jc_play.specs.Turns.{playing_of};

/// Where nothing has happened yet, nothing was played: so the play of the rest of a script is that
/// of the whole.
pub fn new_machines_play_the_whole_script()
    ensures new { (seen : Seen) → seen.pasts ≡ [] → playing_of false seen ≡ nothing }
    ensures whole { (script : Script) (shape : Shape) (seen : Seen) → seen.pasts ≡ []
        → whole_play script shape
        ≡ rest_played script shape 0 script.commands (playing_of false seen) }
{}

/// An orderly history stays orderly once an event has happened that an actor could make, or the first
/// that was available.
pub fn available_events_keep_the_order()
    ensures offered { (seen : Seen) (event : Event) → CanCome seen event
        → IsOrderly seen.shape (deeds_seen seen)
        → IsOrderly seen.shape (deeds_seen (happened seen event)) }
    ensures first { (seen : Seen) (event : Event)
        → first_event (available seen.shape (deeds_seen seen) (log_seen seen)) ≡ Some event
        → IsOrderly seen.shape (deeds_seen seen)
        → IsOrderly seen.shape (deeds_seen (happened seen event)) }
{}
