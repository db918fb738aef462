//! The one event that an actor can make now.

ghost use Rattle.std.specs.Prelude.{◌≡◌, ◌<◌, ◌↔◌, IfSome, IsTrue, Some, true};
ghost use Rattle.jc_machine.specs.DiariesSeen.{diary_seen};
ghost use Rattle.jc_history.specs.Available.{free_worker};
ghost use Rattle.jc_history.specs.Fresh.{may_begin};
ghost use Rattle.jc_runs.specs.Seen.{log_seen};
ghost use Rattle.jc_types.specs.declared.runs.Event.{Event};
ghost use Rattle.jc_play.specs.declared.actors.Actor.TheVariants as actor;
ghost use Rattle.jc_play.specs.Actors.{CanCome, IsOfActor, IsOnly};

use crate::actors::Actor;
use crate::kinds::{delivery_of, first_free, first_of, list_of};
use crate::next::{but_clock_event, clock_event, node_event};
use jc_machine::Machine;
use jc_types::{Event, Kind, Sys};

// The lane's next command, where it may come.
fn lane_offer(machine: &Machine, lane: u8) -> Option<Event>
    ensures { IsOnly (actor.Lane lane) machine.now result }
{
    let number = machine.next_command(lane)?;
    let event = Event::Command { lane, number };
    if machine.admits(&event) {
        Some(event)
    } else {
        None
    }
}

// The list of the cache, or the delivery to it.
fn cache_offer(machine: &Machine, controller: u32, kind: Kind) -> Option<Event>
    ensures { IsOnly (actor.Cache controller kind) machine.now result }
{
    if controller >= machine.shape().controllers {
        return None;
    }
    let list = list_of(machine, controller, kind);
    let delivery = delivery_of(machine, controller, kind);
    first_of(list, delivery)
}

// Whether the worker is the one to begin the controller's next sync: one can begin, and this is the
// least free worker.
fn is_to_begin(machine: &Machine, controller: u32, worker: u32) -> bool
    requires { controller < machine.now.shape.controllers }
    ensures { IsTrue result
        ↔ ((may_begin (diary_seen machine.now controller) (log_seen machine.now) ≡ true)
        × (free_worker (diary_seen machine.now controller) machine.now.shape.workers
        ≡ Some worker)) }
{
    machine.may_begin(controller) && first_free(machine, controller) == Some(worker)
}

// The step of the worker's sync, or the begin of one.
fn worker_offer(machine: &Machine, controller: u32, worker: u32) -> Option<Event>
    ensures { IsOnly (actor.Worker controller worker) machine.now result }
{
    let shape = machine.shape();
    if controller >= shape.controllers || worker >= shape.workers {
        return None;
    }
    if !machine.is_free(controller, worker) {
        return Some(Event::System(Sys::Step { controller, worker }));
    }
    if is_to_begin(machine, controller, worker) {
        Some(Event::System(Sys::Begin { controller, worker }))
    } else {
        None
    }
}

// The step of the node, where it has one.
fn node_offer(machine: &Machine) -> Option<Event>
    ensures { IsOnly actor.Node machine.now result }
{
    node_event(machine)
}

// The clock, to the least delay, where nothing else but commands can come.
fn clock_offer(machine: &Machine) -> Option<Event>
    ensures { IsOnly actor.Clock machine.now result }
{
    match but_clock_event(machine) {
        None => clock_event(machine),
        Some(_) => None,
    }
}

/// The one event that the actor can make now; `None` exactly where there is none, so also where
/// the shape has no such actor. A lane gives its next command, where it may come. A cache gives a
/// list while it has no number, and a delivery while it has not seen the whole log. A worker gives
/// a step while it has a sync, and a begin where it is the least free worker of its controller,
/// both caches have numbers, and they are new enough for the line's first key. The node gives its
/// next step, where it has one; and the clock the seconds to the least delay, where nobody but the
/// lanes has an event. The time it takes does not grow with what was kept so far.
pub fn available(machine: &Machine, actor: Actor) -> Option<Event>
    ensures of_actor { IfSome result (λ event. IsOfActor actor event) }
    ensures can_come { IfSome result (λ event. CanCome machine.now event) }
    ensures exactly { (event : Event) → IsOfActor actor event → CanCome machine.now event
        → result ≡ Some event }
{
    match actor {
        Actor::Lane(lane) => lane_offer(machine, lane),
        Actor::Cache { controller, kind } => cache_offer(machine, controller, kind),
        Actor::Worker { controller, worker } => worker_offer(machine, controller, worker),
        Actor::Node => node_offer(machine),
        Actor::Clock => clock_offer(machine),
    }
}
