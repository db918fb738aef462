//! What is available where some registers are held.

ghost use Rattle.std.specs.Prelude.{◌≡◌, ◌<◌, IfSome, None, filter};
ghost use Rattle.std.specs.List.{flat_map};
ghost use Rattle.jc_machine.specs.DiariesSeen.{diary_seen};
ghost use Rattle.jc_history.specs.Available.{below, but_clock, step_event, step_events};
ghost use Rattle.jc_history.specs.Play.{first_event};
ghost use Rattle.jc_runs.specs.Seen.{deeds_seen, log_seen};
ghost use Rattle.jc_play.specs.Actors.{CanCome};
ghost use Rattle.jc_play.specs.Slots.{has_holder, is_unheld, unheld_seen};

use crate::next::{clock_event, first_begin, first_delivery, first_list, first_step, node_event};
use crate::slots::Slot;
use jc_machine::Machine;
use jc_types::{Event, Sys};

/// Whether a seat holds the register of the controller's worker.
pub fn has_holder(slots: &[Slot], controller: u32, worker: u32) -> bool
    ensures { result ≡ has_holder slots.now controller worker }
{
    slots.iter().any(|slot| slot.is_slot_of(controller, worker) && slot.holder.is_some())
}

// The step of the worker's sync, where it has one and its register is not held.
fn unheld_step(machine: &Machine, slots: &[Slot], controller: u32, worker: u32) -> Option<Event>
    requires of_shape { controller < machine.now.shape.controllers }
    requires worker { worker < machine.now.shape.workers }
    ensures { result ≡ first_event (filter (is_unheld slots.now)
        (step_event (diary_seen machine.now controller) controller worker)) }
{
    if machine.is_free(controller, worker) || has_holder(slots, controller, worker) {
        None
    } else {
        Some(Event::System(Sys::Step { controller, worker }))
    }
}

// The first such step of the controller's workers.
fn controller_unheld_steps(machine: &Machine, slots: &[Slot], controller: u32) -> Option<Event>
    requires { controller < machine.now.shape.controllers }
    ensures { result ≡ first_event (filter (is_unheld slots.now)
        (step_events (diary_seen machine.now controller) machine.now.shape.workers controller)) }
{
    for worker in 0..machine.shape().workers {
        if let Some(event) = unheld_step(machine, slots, controller, worker) {
            return Some(event);
        }
    }
    None
}

// The first such step of all.
fn first_unheld_step(machine: &Machine, slots: &[Slot]) -> Option<Event>
    ensures { result ≡ first_event (filter (is_unheld slots.now) (flat_map
        (λ c. step_events (diary_seen machine.now c) machine.now.shape.workers c)
        (below machine.now.shape.controllers))) }
{
    for controller in 0..machine.shape().controllers {
        if let Some(event) = controller_unheld_steps(machine, slots, controller) {
            return Some(event);
        }
    }
    None
}

// What there is but for the clock and the steps of registers that are held.
fn but_clock_unheld(machine: &Machine, slots: &[Slot]) -> Option<Event>
    ensures { result ≡ first_event (filter (is_unheld slots.now)
        (but_clock machine.now.shape (deeds_seen machine.now) (log_seen machine.now))) }
{
    if let Some(event) = first_list(machine) {
        return Some(event);
    }
    if let Some(event) = first_delivery(machine) {
        return Some(event);
    }
    if let Some(event) = first_unheld_step(machine, slots) {
        return Some(event);
    }
    match first_begin(machine) {
        Some(event) => Some(event),
        None => node_event(machine),
    }
}

// What there is but for the clock, where nothing else of it is left than the steps of registers that
// are held: such a step.
fn held_step(machine: &Machine, slots: &[Slot]) -> Option<Event>
    requires { first_event (filter (is_unheld slots.now)
        (but_clock machine.now.shape (deeds_seen machine.now) (log_seen machine.now))) ≡ None }
    ensures { result ≡ first_event (but_clock machine.now.shape (deeds_seen machine.now)
        (log_seen machine.now)) }
{
    first_step(machine)
}

/// The first event of the system that is available and is not the step of a register that is held.
/// Such a step counts as available all the same: the clock has to wait for it. `None` exactly where
/// nothing is available but for such steps.
pub fn next_unheld(machine: &Machine, slots: &[Slot]) -> Option<Event>
    ensures first { result ≡ first_event (unheld_seen slots.now machine.now) }
    ensures can_come { IfSome result (λ event. CanCome machine.now event) }
{
    let found = but_clock_unheld(machine, slots);
    if found.is_some() || held_step(machine, slots).is_some() {
        found
    } else {
        clock_event(machine)
    }
}
