//! Whether an event can come now.

ghost use Rattle.std.specs.Prelude.{◌↔◌, IsTrue};
ghost use Rattle.jc_types.specs.declared.runs.Event.{Event};
ghost use Rattle.jc_play.specs.Actors.{CanCome, IsOfActor};

use crate::actors::Actor;
use crate::offers::available;
use jc_machine::Machine;
use jc_types::{Event, Sys};

// Who can make the event of the system.
fn actor_of(system: Sys) -> Actor
    ensures { IsOfActor result (Event.System system) }
{
    match system {
        Sys::List { controller, kind } | Sys::Deliver { controller, kind } => {
            Actor::Cache { controller, kind }
        }
        Sys::Begin { controller, worker } | Sys::Step { controller, worker } => {
            Actor::Worker { controller, worker }
        }
        Sys::Node => Actor::Node,
        Sys::Clock { .. } => Actor::Clock,
    }
}

/// Whether the event is a command that may come next, or an event of the system that is available,
/// whether or not a seat holds its register. It takes no memory.
pub fn fits(machine: &Machine, event: &Event) -> bool
    ensures { IsTrue result ↔ CanCome machine.now event.now }
{
    match *event {
        Event::Command { .. } => machine.admits(event),
        Event::System(system) => available(machine, actor_of(system)) == Some(*event),
    }
}
