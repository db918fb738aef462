//! Laws on the lines of events and on reports. What each function ensures holds of every line and of every
//! report, and its callers may cite it.

ghost use Rattle.std.specs.Prelude.{◌≡◌, ◌+◌, ◌++◌, ◌<◌, ◌^◌, [], List, ℕ, length};
ghost use Rattle.jc_history.specs.Legal.{IsHistory};
ghost use Rattle.jc_log.specs.Deeds.{deed};
ghost use Rattle.jc_types.specs.declared.actions.Script.{Script};
ghost use Rattle.jc_types.specs.declared.runs.History.{History};
ghost use Rattle.jc_types.specs.declared.runs.Past.{Past};
ghost use Rattle.jc_types.specs.declared.runs.Shape.{Shape};
ghost use Rattle.jc_lines.specs.Events.{event_line};
ghost use Rattle.jc_lines.specs.Told.{AreEvents, Follow, Glimpse, HaveSameLines, IsEvent, glimpse};

/// Texts that begin with the lines of two events and are equal tell the number, and of the event
/// its lane, or which event of the system it is.
pub fn lines_tell_events()
    ensures { (script : Script) (m n : ℕ) (p q : Past) (xs ys : List ℕ) → m < 2 ^ 64 → n < 2 ^ 64
        → IsEvent p.event → IsEvent q.event
        → event_line m (deed script p) ++ xs ≡ event_line n (deed script q) ++ ys
        → (m ≡ n) × (glimpse p.event ≡ glimpse q.event) }
{}

/// Where what came before and a glimpse of each event give all of it, two histories of a script
/// with equal lines are equal.
pub fn lines_tell_histories()
    ensures { (script : Script) (gives : List Past → Glimpse → Past) (events others : List Past)
        → 1 + length events < 2 ^ 64 → AreEvents events → AreEvents others
        → Follow gives [] events → Follow gives [] others
        → HaveSameLines script events others
        → events ≡ others }
{}

/// Two legal histories of a script and a shape with equal lines have equal events, with equal replies
/// and equal lengths of the log: so a report tells its history. A lane names its next command, and the
/// events before give what an event is answered.
pub fn lines_determine_histories()
    ensures { (script : Script) (shape : Shape) (h k : History)
        → IsHistory script shape h → IsHistory script shape k
        → AreEvents h.events.items → AreEvents k.events.items
        → 1 + length h.events.items < 2 ^ 64
        → HaveSameLines script h.events.items k.events.items
        → h.events.items ≡ k.events.items }
{
    lines_tell_histories();
}
