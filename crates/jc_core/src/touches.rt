//! How events touch the registers of a threaded run.

ghost use Rattle.std.specs.Prelude.{◌≡◌, false, map};
ghost use Rattle.jc_log.specs.Deeds.{act_of_action, act_of_event, act_of_system};
ghost use Rattle.jc_core.specs.RegisterChanges.{touch_of, touched_slots};
ghost use Rattle.jc_core.specs.Shared.{all_registers, has_holders, numbers_of};

use crate::changes::{Change, change_all};
use jc_play::{Slot, tells_begin};
use jc_types::{Action1, Event, Reply, Script, Shape, Sys};

// How an event touches the registers.
#[derive(Clone, Copy)]
pub(crate) enum Touch {
    /// A sync begins, where the reply says so.
    Begin { controller: u32, worker: u32 },
    /// A sync makes its next step.
    Step { controller: u32, worker: u32 },
    /// The controller starts anew.
    Restart { controller: u32 },
    /// It does not.
    Nothing,
}

// How a command touches the registers.
fn touch_of_action(action: &Action1) -> Touch
    ensures { result ≡ touch_of (act_of_action action.now) }
{
    match action {
        Action1::Begin { controller, worker } | Action1::Sync { controller, worker } => {
            Touch::Begin {
                controller: *controller,
                worker: *worker,
            }
        }
        Action1::Step { controller, worker } => Touch::Step {
            controller: *controller,
            worker: *worker,
        },
        Action1::Restart { controller } => Touch::Restart {
            controller: *controller,
        },
        _ => Touch::Nothing,
    }
}

// How an event of the system touches the registers.
fn touch_of_system(system: Sys) -> Touch
    ensures { result ≡ touch_of (act_of_system system) }
{
    match system {
        Sys::Begin { controller, worker } => Touch::Begin { controller, worker },
        Sys::Step { controller, worker } => Touch::Step { controller, worker },
        _ => Touch::Nothing,
    }
}

// How the event touches the registers. A command does what the script says.
pub(crate) fn touch_of_event(script: &Script, event: Event) -> Touch
    ensures { result ≡ touch_of (act_of_event script.now.commands event) }
{
    match event {
        Event::System(system) => touch_of_system(system),
        Event::Command { number, .. } => match script.commands.as_slice().get(number as usize) {
            None => Touch::Nothing,
            Some(command) => touch_of_action(&command.action),
        },
    }
}

// Changes the registers as an event asks that touches them so, once it was answered. It takes no
// memory.
pub(crate) fn touch_all(slots: &mut Vec<Slot>, shape: &Shape, touch: Touch, reply: &Reply)
    requires { map numbers_of slots.old.items ≡ all_registers shape.now }
    ensures slots { slots.new.items ≡ touched_slots touch reply.now slots.old.items }
    ensures numbers { map numbers_of slots.new.items ≡ map numbers_of slots.old.items }
    ensures free { has_holders slots.old.items ≡ false → has_holders slots.new.items ≡ false }
{
    match touch {
        Touch::Begin { controller, worker } => {
            if tells_begin(reply) {
                let change = Change::Want {
                    wants: true,
                    controller,
                    worker,
                };
                change_all(slots, shape, change);
            }
        }
        Touch::Step { controller, worker } => {
            let change = Change::Want {
                wants: false,
                controller,
                worker,
            };
            change_all(slots, shape, change);
        }
        Touch::Restart { controller } => {
            change_all(slots, shape, Change::Restart { controller });
        }
        Touch::Nothing => {}
    }
}
