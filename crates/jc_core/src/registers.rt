//! What can be read of the registers of a threaded run.

ghost use Rattle.std.specs.Prelude.{◌≡◌, ◌++◌, ◌<◌, ◌↔◌, ◌&&◌, IfOk, IfSome, IsSome, IsTrue, OnOk, Some, find, is_some, map, true};
ghost use Rattle.std.specs.List.{list_any};
ghost use Rattle.jc_runs.specs.Bases.{CanPlan};
ghost use Rattle.jc_history.specs.Available.{below};
ghost use Rattle.jc_history.specs.Registers.{register};
ghost use Rattle.jc_play.specs.DiariesSeen.{diary_seen};
ghost use Rattle.jc_play.specs.Slots.{has_holder, is_slot_of};
ghost use Rattle.jc_core.specs.Shared.{fresh_slot, holds_slot, is_held_actor, is_open_slot, numbers_of, all_registers};

use crate::changes::{fresh_slot, holds};
use jc_plan::Plan;
use jc_play::{Actor, Basis, Machine, Slot, has_holder};
use jc_types::{Arc, Copied, Same, Shape, Want};
use std::alloc::Global;

// The registers of the controller's workers are added, as in the beginning.
//
// `Want` where there is no memory for them.
fn add_slots(slots: &mut Vec<Slot>, controller: u32, workers: u32) -> Result<(), Want>
    ensures { OnOk result (slots.new.items ≡ slots.old.items
        ++ map fresh_slot (map (λ w. (controller, w)) (below workers))) }
{
    for worker in 0..workers {
        slots.push(fresh_slot(controller, worker))?;
    }
    Ok(())
}

// All registers, as in the beginning.
//
// `Want` where there is no memory for them.
pub(crate) fn fresh_slots(alloc: Global, shape: &Shape) -> Result<Vec<Slot>, Want>
    ensures { IfOk result (λ slots. slots.items ≡ map fresh_slot (all_registers shape.now)) }
{
    let mut slots = Vec::new(alloc);
    for controller in 0..shape.controllers {
        add_slots(&mut slots, controller, shape.workers)?;
    }
    Ok(slots)
}

// Whether the sync of the register has no plan, and nobody holds it.
fn is_open_slot(machine: &Machine, slot: &Slot) -> bool
    requires of_shape { slot.now.controller < machine.now.shape.controllers }
    requires worker { slot.now.worker < machine.now.shape.workers }
    ensures { result ≡ is_open_slot machine.now slot.now }
{
    slot.wants && slot.holder.is_none() && !machine.is_free(slot.controller, slot.worker)
}

// The first register whose sync has no plan and that nobody holds.
pub(crate) fn first_open(machine: &Machine, slots: &[Slot]) -> Option<Slot>
    requires { map numbers_of slots.now ≡ all_registers machine.now.shape }
    ensures first { result ≡ find (is_open_slot machine.now) slots.now }
    ensures of_shape { IfSome result (λ slot. slot.controller < machine.now.shape.controllers) }
    ensures worker { IfSome result (λ slot. slot.worker < machine.now.shape.workers) }
    ensures busy { IfSome result (λ slot.
        is_some (register slot.worker (diary_seen machine.now slot.controller)) ≡ true) }
{
    for slot in slots {
        if is_open_slot(machine, slot) {
            return Some(*slot);
        }
    }
    None
}

// What the worker's sync began with, which it has; a copy that shares its memory.
//
// `Want` where there is no memory for it.
pub(crate) fn copy_basis(
    machine: &Machine,
    controller: u32,
    worker: u32,
) -> Result<Arc<Basis>, Want>
    requires of_shape { controller < machine.now.shape.controllers }
    requires worker { worker < machine.now.shape.workers }
    requires busy { is_some (register worker (diary_seen machine.now controller)) ≡ true }
    ensures basis { IfOk result (λ basis.
        register worker (diary_seen machine.now controller) ≡ Some basis) }
    ensures plannable { IfOk result (λ basis. IsSome basis.job → CanPlan basis) }
{
    let Some(basis) = machine.basis(controller, worker) else {
        unreachable!()
    };
    let copied = basis.copy()?;
    Ok(copied)
}

// Whether the worker's sync began with what the plan was made of.
pub(crate) fn is_of_sync(machine: &Machine, controller: u32, worker: u32, plan: &Plan) -> bool
    requires of_shape { controller < machine.now.shape.controllers }
    requires worker { worker < machine.now.shape.workers }
    ensures { IsTrue result
        ↔ (register worker (diary_seen machine.now controller) ≡ Some plan.now.basis) }
{
    match machine.basis(controller, worker) {
        None => false,
        Some(basis) => plan.basis().is_same(basis),
    }
}

// Whether the seat holds the register.
pub(crate) fn is_held_by(slots: &[Slot], seat: u32, controller: u32, worker: u32) -> bool
    ensures { result ≡ list_any (holds_slot seat controller worker) slots.now }
{
    slots
        .iter()
        .any(|slot| holds(slot, seat, controller, worker))
}

// Whether the actor is a worker whose register is held.
pub(crate) fn is_held_actor(slots: &[Slot], actor: Actor) -> bool
    ensures { result ≡ is_held_actor slots.now actor }
{
    match actor {
        Actor::Worker { controller, worker } => has_holder(slots, controller, worker),
        _ => false,
    }
}
