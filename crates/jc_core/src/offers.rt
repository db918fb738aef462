//! Which event can come now.

ghost use Rattle.std.specs.Prelude.{◌≡◌, ◌↔◌, IfSome, IsTrue, None, Some, false, true};
ghost use Rattle.jc_types.specs.declared.runs.Event.{Event};
ghost use Rattle.jc_history.specs.Play.{first_event};
ghost use Rattle.jc_play.specs.Actors.{CanCome, IsOfActor};
ghost use Rattle.jc_play.specs.Slots.{unheld_seen};
ghost use Rattle.jc_play.specs.Turns.{is_quiescent_seen};
ghost use Rattle.jc_core.specs.Shared.{is_held_actor};

use crate::cluster::Cluster;
use crate::registers::is_held_actor;
use jc_play::{Actor, available, fits, is_quiescent, next_unheld};
use jc_types::Event;

impl Cluster {
    /// Whether the event is a command that may come next, or an event of the system that is available,
    /// whether or not a seat holds its register. It takes no memory.
    pub fn fits(&self, event: &Event) -> bool
        ensures { IsTrue result ↔ CanCome self.now.seen event.now }
    {
        fits(&self.machine, event)
    }

    /// The one event that the actor can make now; `None` exactly where there is none, so also where
    /// the shape has no such actor. A lane gives its next command, where it may come. A cache gives a
    /// list while it has no number, and a delivery while it has not seen the whole log. A worker gives
    /// a step while it has a sync, and a begin where it is the least free worker of its controller,
    /// both caches have numbers, and they are new enough for the line's first key; it gives none while a seat
    /// holds its register. The node gives its next step, where it has one; and the clock the seconds to the
    /// least delay, where nobody but the lanes has an event: the step of a held register counts as one.
    pub fn available(&self, actor: Actor) -> Option<Event>
        ensures of_actor { IfSome result (λ event. IsOfActor actor event) }
        ensures can_come { IfSome result (λ event. CanCome self.now.seen event) }
        ensures exactly { (event : Event) → IsOfActor actor event → CanCome self.now.seen event
            → is_held_actor self.now.slots actor ≡ false → result ≡ Some event }
        ensures held { is_held_actor self.now.slots actor ≡ true → result ≡ None }
    {
        if is_held_actor(self.slots.as_slice(), actor) {
            None
        } else {
            available(&self.machine, actor)
        }
    }

    /// The first event of the system that is available and is not the step of a register that is
    /// held, in first order: lists of caches without a number, then deliveries to caches that have not seen
    /// the whole log, steps of syncs, begins, a step of the node, and the clock only where there is nothing
    /// else. `None` exactly where nothing is available but for such steps.
    pub fn next_event(&self) -> Option<Event>
        ensures first { result ≡ first_event (unheld_seen self.now.slots self.now.seen) }
        ensures can_come { IfSome result (λ event. CanCome self.now.seen event) }
    {
        next_unheld(&self.machine, self.slots.as_slice())
    }

    /// Whether nothing is available, whatever is held.
    pub fn is_quiescent(&self) -> bool
        ensures { result ≡ is_quiescent_seen self.now.seen }
    {
        is_quiescent(&self.machine)
    }
}
