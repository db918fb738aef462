//! How the registers of a threaded run change, as its seats see them.

ghost use Rattle.std.specs.Prelude.{◌≡◌, ◌+◌, ◌*◌, Some, map};
ghost use Rattle.jc_core.specs.RegisterChanges.{changed_slot, sole_register};
ghost use Rattle.jc_core.specs.Shared.{all_registers, fresh_slot, holds_slot, is_seat, numbers_of};

use jc_play::Slot;
use jc_types::Shape;

// A change of the registers.
#[derive(Clone, Copy)]
pub(crate) enum Change {
    /// The seat holds the register from now on.
    Take {
        seat: u32,
        controller: u32,
        worker: u32,
    },
    /// The seat holds the register no longer.
    PutBack {
        seat: u32,
        controller: u32,
        worker: u32,
    },
    /// Its sync wants a plan, or does not.
    Want {
        wants: bool,
        controller: u32,
        worker: u32,
    },
    /// Nobody holds a register.
    Free,
    /// All registers of the controller are as in the beginning.
    Restart {
        controller: u32,
    },
}

// A register that nobody holds and that wants no plan.
pub(crate) fn fresh_slot(controller: u32, worker: u32) -> Slot
    ensures { result ≡ fresh_slot (controller, worker) }
{
    Slot {
        controller,
        worker,
        holder: None,
        wants: false,
    }
}

// Whether the seat is this one.
fn is_seat(seat: u32, holder: Option<u32>) -> bool
    ensures { result ≡ is_seat seat holder }
{
    match holder {
        None => false,
        Some(holder) => holder == seat,
    }
}

// Whether the seat holds that register.
pub(crate) fn holds(slot: &Slot, seat: u32, controller: u32, worker: u32) -> bool
    ensures { result ≡ holds_slot seat controller worker slot.now }
{
    slot.is_slot_of(controller, worker) && is_seat(seat, slot.holder)
}

// The register, once the change was made.
fn changed_slot(change: Change, slot: Slot) -> Slot
    ensures { result ≡ changed_slot change slot }
{
    match change {
        Change::Take {
            seat,
            controller,
            worker,
        } => {
            if slot.is_slot_of(controller, worker) {
                return Slot {
                    holder: Some(seat),
                    ..slot
                };
            }
        }
        Change::PutBack {
            seat,
            controller,
            worker,
        } => {
            if holds(&slot, seat, controller, worker) {
                return Slot {
                    holder: None,
                    ..slot
                };
            }
        }
        Change::Want {
            wants,
            controller,
            worker,
        } => {
            if slot.is_slot_of(controller, worker) {
                return Slot { wants, ..slot };
            }
        }
        Change::Free => {
            return Slot {
                holder: None,
                ..slot
            };
        }
        Change::Restart { controller } => {
            if slot.controller == controller {
                return fresh_slot(slot.controller, slot.worker);
            }
        }
    }
    slot
}

// The register that the change is of, where it is of one alone.
fn sole_register(change: Change) -> Option<(u32, u32)>
    ensures { result ≡ sole_register change }
{
    match change {
        Change::Take {
            controller,
            worker,
            ..
        }
        | Change::PutBack {
            controller,
            worker,
            ..
        }
        | Change::Want {
            controller,
            worker,
            ..
        } => Some((controller, worker)),
        Change::Free | Change::Restart { .. } => None,
    }
}

// The place of the register among all, by controller and worker; behind them or that of another one, where the
// shape has no such register.
fn place_of(shape: &Shape, controller: u32, worker: u32) -> usize
    ensures { result ≡ controller * shape.now.workers + worker }
{
    controller as usize * shape.workers as usize + worker as usize
}

// Makes the change at each register.
fn change_each(slots: &mut Vec<Slot>, change: Change)
    ensures { slots.new.items ≡ map (changed_slot change) slots.old.items }
{
    for i in 0..slots.len() {
        slots[i] = changed_slot(change, slots[i]);
    }
}

// Makes the change of one register, which stands at its place.
fn change_at(slots: &mut Vec<Slot>, shape: &Shape, controller: u32, worker: u32, change: Change)
    requires whole { map numbers_of slots.old.items ≡ all_registers shape.now }
    requires of { sole_register change ≡ Some (controller, worker) }
    ensures { slots.new.items ≡ map (changed_slot change) slots.old.items }
{
    let place = place_of(shape, controller, worker);
    if place < slots.len() {
        slots[place] = changed_slot(change, slots[place]);
    }
}

// Makes the change. It takes no memory.
pub(crate) fn change_all(slots: &mut Vec<Slot>, shape: &Shape, change: Change)
    requires { map numbers_of slots.old.items ≡ all_registers shape.now }
    ensures slots { slots.new.items ≡ map (changed_slot change) slots.old.items }
    ensures numbers { map numbers_of slots.new.items ≡ map numbers_of slots.old.items }
{
    match sole_register(change) {
        None => change_each(slots, change),
        Some((controller, worker)) => change_at(slots, shape, controller, worker, change),
    }
}
