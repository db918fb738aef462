//! Whether a register has been touched since the history had so many events.

ghost use Rattle.std.specs.Prelude.{◌≡◌, ◌↔◌, ◌<◌, IsTrue, Some, drop, not, reverse};
ghost use Rattle.std.specs.List.{list_any};
ghost use Rattle.jc_history.specs.Registers.{register};
ghost use Rattle.jc_play.specs.DiariesSeen.{diary_seen};
ghost use Rattle.jc_core.specs.Since.{is_past_of, is_touch_of, seen_at};

use crate::registers::is_of_sync;
use crate::touches::{Touch, touch_of_event};
use jc_plan::Plan;
use jc_play::Machine;
use jc_types::{Past, Script};

// Whether the register is among those that are touched so.
fn is_touch_of(touch: Touch, controller: u32, worker: u32) -> bool
    ensures { result ≡ is_touch_of controller worker touch }
{
    match touch {
        Touch::Begin {
            controller: of,
            worker: by,
        } => of == controller && by == worker,
        Touch::Step {
            controller: of,
            worker: by,
        } => of == controller && by == worker,
        Touch::Restart { controller: of } => of == controller,
        Touch::Nothing => false,
    }
}

// Whether the event is of the register.
fn is_past_of(script: &Script, past: &Past, controller: u32, worker: u32) -> bool
    ensures { result ≡ is_past_of script.now.commands controller worker past.now }
{
    is_touch_of(touch_of_event(script, past.event), controller, worker)
}

// Whether one of the events is of the register.
fn is_touched(script: &Script, events: &[Past], controller: u32, worker: u32) -> bool
    ensures { result ≡ list_any (is_past_of script.now.commands controller worker) events.now }
{
    events
        .iter()
        .any(|past| is_past_of(script, past, controller, worker))
}

// Whether no event is of the register since the history had so many. It is then what it was.
fn is_as_then(machine: &Machine, controller: u32, worker: u32, events: usize) -> bool
    ensures exactly { result ≡ not (list_any
        (is_past_of machine.now.script.commands controller worker)
        (drop events (reverse machine.now.pasts))) }
    ensures stays { IsTrue result → register worker (diary_seen machine.now controller)
        ≡ register worker (diary_seen (seen_at events machine.now) controller) }
{
    let all = machine.history().events.as_slice();
    let from = events.min(all.len());
    !is_touched(machine.script(), &all[from..], controller, worker)
}

// Whether the worker's sync began with what the plan was made of, as it had when the history had so many
// events. The two are compared only where an event since then is of the register.
pub(crate) fn is_still_of_sync(
    machine: &Machine,
    controller: u32,
    worker: u32,
    plan: &Plan,
    events: usize,
) -> bool
    requires of_shape { controller < machine.now.shape.controllers }
    requires worker { worker < machine.now.shape.workers }
    requires begun { register worker (diary_seen (seen_at events machine.now) controller)
        ≡ Some plan.now.basis }
    ensures { IsTrue result
        ↔ (register worker (diary_seen machine.now controller) ≡ Some plan.now.basis) }
{
    is_as_then(machine, controller, worker, events) || is_of_sync(machine, controller, worker, plan)
}
