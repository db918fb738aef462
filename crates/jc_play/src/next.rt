//! The first event that is available: lists, then deliveries, steps, begins, the node, the clock.

ghost use Rattle.std.specs.Prelude.{◌≡◌, IfSome, is_some};
ghost use Rattle.std.specs.List.{flat_map};
ghost use Rattle.jc_machine.specs.DiariesSeen.{diary_seen};
ghost use Rattle.jc_history.specs.Available.{available, begin_events, below, but_clock, clock_events, delivery_events, least_of_all, list_events, node_events, step_events};
ghost use Rattle.jc_history.specs.Diaries.{moment};
ghost use Rattle.jc_history.specs.Nodes.{fate, node_step};
ghost use Rattle.jc_history.specs.Play.{first_event};
ghost use Rattle.jc_runs.specs.Seen.{Admits, deeds_seen, log_seen};
ghost use Rattle.jc_play.specs.Turns.{earliest_of, is_quiescent_seen};

use crate::kinds::{controller_begins, controller_delivers, controller_lists, controller_steps};
use jc_machine::Machine;
use jc_moment::Moment;
use jc_types::{Event, Seconds, Sys};

// The first list of all controllers.
pub(crate) fn first_list(machine: &Machine) -> Option<Event>
    ensures { result ≡ first_event (flat_map
        (λ c. list_events (diary_seen machine.now c) c) (below machine.now.shape.controllers)) }
{
    for controller in 0..machine.shape().controllers {
        if let Some(event) = controller_lists(machine, controller) {
            return Some(event);
        }
    }
    None
}

// The first delivery.
pub(crate) fn first_delivery(machine: &Machine) -> Option<Event>
    ensures { result ≡ first_event (flat_map
        (λ c. delivery_events (diary_seen machine.now c) (log_seen machine.now) c)
        (below machine.now.shape.controllers)) }
{
    for controller in 0..machine.shape().controllers {
        if let Some(event) = controller_delivers(machine, controller) {
            return Some(event);
        }
    }
    None
}

// The first step.
pub(crate) fn first_step(machine: &Machine) -> Option<Event>
    ensures { result ≡ first_event (flat_map
        (λ c. step_events (diary_seen machine.now c) machine.now.shape.workers c)
        (below machine.now.shape.controllers)) }
{
    for controller in 0..machine.shape().controllers {
        if let Some(event) = controller_steps(machine, controller) {
            return Some(event);
        }
    }
    None
}

// The first begin.
pub(crate) fn first_begin(machine: &Machine) -> Option<Event>
    ensures { result ≡ first_event (flat_map
        (λ c. begin_events (diary_seen machine.now c) (log_seen machine.now)
        machine.now.shape.workers c) (below machine.now.shape.controllers)) }
{
    for controller in 0..machine.shape().controllers {
        if let Some(event) = controller_begins(machine, controller) {
            return Some(event);
        }
    }
    None
}

// The earlier of two moments, where they are there.
fn earliest_of(found: Option<Moment>, other: Option<Moment>) -> Option<Moment>
    ensures { result ≡ earliest_of found other }
{
    let Some(added) = other else {
        return found;
    };
    let Some(moment) = found else {
        return other;
    };
    if added.seconds() < moment.seconds() {
        other
    } else {
        found
    }
}

// The least delay of all controllers.
fn least_of_all(machine: &Machine) -> Option<Moment>
    ensures { result ≡ least_of_all machine.now.shape (deeds_seen machine.now)
        (log_seen machine.now) }
{
    let mut found = None;
    for controller in 0..machine.shape().controllers {
        found = earliest_of(found, machine.next_delay(controller));
    }
    found
}

// The step of the node, where it has one.
pub(crate) fn node_event(machine: &Machine) -> Option<Event>
    ensures { result ≡ first_event (node_events
        (is_some (node_step (log_seen machine.now) (fate (deeds_seen machine.now))))) }
{
    if machine.node_has_step() {
        Some(Event::System(Sys::Node))
    } else {
        None
    }
}

// What there is but for the clock.
#[inline(always)]
pub(crate) fn but_clock_event(machine: &Machine) -> Option<Event>
    ensures { result ≡ first_event (but_clock machine.now.shape (deeds_seen machine.now)
        (log_seen machine.now)) }
{
    if let Some(event) = first_list(machine) {
        return Some(event);
    }
    if let Some(event) = first_delivery(machine) {
        return Some(event);
    }
    if let Some(event) = first_step(machine) {
        return Some(event);
    }
    match first_begin(machine) {
        Some(event) => Some(event),
        None => node_event(machine),
    }
}

// The clock to the least delay, by 0 seconds where it has passed.
pub(crate) fn clock_event(machine: &Machine) -> Option<Event>
    ensures { result ≡ first_event (clock_events
        (moment machine.now.shape (deeds_seen machine.now))
        (least_of_all machine.now.shape (deeds_seen machine.now) (log_seen machine.now))) }
{
    let due = least_of_all(machine)?;
    let add = Seconds::from_u64(due.since(&machine.moment()));
    Some(Event::System(Sys::Clock { add }))
}

// The first of all that is available.
#[inline(always)]
fn first_available(machine: &Machine) -> Option<Event>
    ensures { result ≡ first_event (available machine.now.shape (deeds_seen machine.now)
        (log_seen machine.now)) }
{
    match but_clock_event(machine) {
        Some(event) => Some(event),
        None => clock_event(machine),
    }
}

/// The first event of the system that is available: lists of caches without a number, then
/// deliveries to caches that have not seen the whole log, steps of syncs, begins, a step of the
/// node, and the clock only where there is nothing else. Within a kind it goes by controller, then
/// Jobs before pods, then by worker. `None` exactly where nothing is available. The time it takes
/// does not grow with what was kept so far.
#[inline(always)]
pub fn next_event(machine: &Machine) -> Option<Event>
    ensures first { result ≡ first_event (available machine.now.shape (deeds_seen machine.now)
        (log_seen machine.now)) }
    ensures admits { IfSome result (λ event. Admits machine.now event) }
{
    first_available(machine)
}

/// Whether nothing is available.
pub fn is_quiescent(machine: &Machine) -> bool
    ensures { result ≡ is_quiescent_seen machine.now }
{
    next_event(machine).is_none()
}
