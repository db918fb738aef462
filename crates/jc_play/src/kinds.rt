//! The first event of each kind that a controller can do of itself.

ghost use Rattle.std.specs.Prelude.{◌≡◌, ◌<◌};
ghost use Rattle.std.specs.Option.{option_or};
ghost use Rattle.jc_machine.specs.DiariesSeen.{diary_seen};
ghost use Rattle.jc_history.specs.Available.{begin_events, delivery_event, delivery_events, free_worker, list_event, list_events, step_events};
ghost use Rattle.jc_history.specs.Numbers.{number};
ghost use Rattle.jc_history.specs.Play.{first_event};
ghost use Rattle.jc_runs.specs.Seen.{log_seen};

use jc_machine::Machine;
use jc_types::{Event, Kind, Sys};

// The list of the controller's cache of the kind, where it has no number.
pub(crate) fn list_of(machine: &Machine, controller: u32, kind: Kind) -> Option<Event>
    requires { controller < machine.now.shape.controllers }
    ensures { result ≡ first_event
        (list_event controller kind (number kind (diary_seen machine.now controller))) }
{
    match machine.cache_at(controller, kind) {
        None => Some(Event::System(Sys::List { controller, kind })),
        Some(_) => None,
    }
}

// The delivery to the controller's cache of the kind, where its number is below the log's length.
pub(crate) fn delivery_of(machine: &Machine, controller: u32, kind: Kind) -> Option<Event>
    requires { controller < machine.now.shape.controllers }
    ensures { result ≡ first_event (delivery_event (log_seen machine.now) controller kind
        (number kind (diary_seen machine.now controller))) }
{
    let number = machine.cache_at(controller, kind)?;
    if number.0 < machine.store().log_len().0 {
        Some(Event::System(Sys::Deliver { controller, kind }))
    } else {
        None
    }
}

// The first of two events, where there is one.
#[inline(always)]
pub(crate) fn first_of(one: Option<Event>, other: Option<Event>) -> Option<Event>
    ensures { result ≡ option_or one other }
{
    match one {
        Some(event) => Some(event),
        None => other,
    }
}

// The controller's first list.
pub(crate) fn controller_lists(machine: &Machine, controller: u32) -> Option<Event>
    requires { controller < machine.now.shape.controllers }
    ensures { result
        ≡ first_event (list_events (diary_seen machine.now controller) controller) }
{
    let jobs = list_of(machine, controller, Kind::Jobs);
    let pods = list_of(machine, controller, Kind::Pods);
    first_of(jobs, pods)
}

// The controller's first delivery.
pub(crate) fn controller_delivers(machine: &Machine, controller: u32) -> Option<Event>
    requires { controller < machine.now.shape.controllers }
    ensures { result ≡ first_event
        (delivery_events (diary_seen machine.now controller) (log_seen machine.now) controller) }
{
    let jobs = delivery_of(machine, controller, Kind::Jobs);
    let pods = delivery_of(machine, controller, Kind::Pods);
    first_of(jobs, pods)
}

// The step of the controller's first worker that has a sync.
pub(crate) fn controller_steps(machine: &Machine, controller: u32) -> Option<Event>
    requires { controller < machine.now.shape.controllers }
    ensures { result ≡ first_event
        (step_events (diary_seen machine.now controller) machine.now.shape.workers controller) }
{
    for worker in 0..machine.shape().workers {
        if !machine.is_free(controller, worker) {
            return Some(Event::System(Sys::Step { controller, worker }));
        }
    }
    None
}

// The controller's first worker that has no sync.
pub(crate) fn first_free(machine: &Machine, controller: u32) -> Option<u32>
    requires { controller < machine.now.shape.controllers }
    ensures { result
        ≡ free_worker (diary_seen machine.now controller) machine.now.shape.workers }
{
    for worker in 0..machine.shape().workers {
        if machine.is_free(controller, worker) {
            return Some(worker);
        }
    }
    None
}

// The begin of that worker, where the next begin starts a sync.
pub(crate) fn controller_begins(machine: &Machine, controller: u32) -> Option<Event>
    requires { controller < machine.now.shape.controllers }
    ensures { result ≡ first_event (begin_events (diary_seen machine.now controller)
        (log_seen machine.now) machine.now.shape.workers controller) }
{
    if !machine.may_begin(controller) {
        return None;
    }
    let worker = first_free(machine, controller)?;
    Some(Event::System(Sys::Begin { controller, worker }))
}
