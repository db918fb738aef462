//! What the events of a history did, as far as the ledger asks.

ghost use Rattle.std.specs.Prelude.{◌≡◌, option_map};
ghost use Rattle.jc_log.specs.Deeds.{act_of_action, act_of_event, deed};
ghost use Rattle.jc_ledger.specs.Ledger.{is_status};
ghost use Rattle.jc_verdicts.specs.SyncStarts.{HasStarts, began_with};
ghost use Rattle.jc_ledger.specs.Syncs.{reach, request_of, stepper};
ghost use Rattle.jc_verdicts.specs.Verdicts.{IsPlace, deeds_of, sync_at};

use crate::starts::last_start;
use crate::workers::{Start, Starts, Worker};
use jc_types::{Action1, Command, Event, Past, Reply, Request, Script, Sys};

/// The controller and the worker of a command that steps; `None` exactly where it does something else.
fn stepper_of_command(action: &Action1) -> Option<(u32, u32)>
    ensures { result ≡ stepper (act_of_action action.now) }
{
    match action {
        Action1::Step { controller, worker } => Some((*controller, *worker)),
        _ => None,
    }
}

/// The controller and the worker of an event that is a step; `None` exactly where it is none.
fn stepper(commands: &[Command], event: &Event) -> Option<(u32, u32)>
    requires { IsPlace commands.now event.now }
    ensures { result ≡ stepper (act_of_event commands.now event.now) }
{
    match event {
        Event::Command { number, .. } => stepper_of_command(&commands[*number as usize].action),
        Event::System(Sys::Step { controller, worker }) => Some((*controller, *worker)),
        Event::System(_) => None,
    }
}

/// Whether the reply is that to a write of a status.
fn is_status(reply: &Reply) -> bool
    ensures { result ≡ is_status (request_of reply.now) }
{
    match reply {
        Reply::Stepped {
            request: Request::Status,
            ..
        } => true,
        _ => false,
    }
}

/// The length of the log after the events.
fn reach(script: &Script, events: &[Past]) -> u32
    ensures { result ≡ reach (deeds_of script.now events.now) }
{
    match events.last() {
        None => 0,
        Some(past) => past.length.0,
    }
}

/// With what the sync began whose accepted write of a status this event is.
pub fn written_sync<'a>(
    script: &Script,
    starts: &Starts<'a>,
    before: &[Past],
    past: &Past,
) -> Option<Start<'a>>
    requires starts { HasStarts (deeds_of script.now before.now) starts.now }
    requires event { IsPlace script.now.commands past.now.event }
    ensures { option_map began_with result
        ≡ sync_at (deed script.now past.now) (deeds_of script.now before.now) }
{
    if !is_status(&past.reply) {
        return None;
    }
    if past.length.0 <= reach(script, before) {
        return None;
    }
    let (controller, worker) = stepper(script.commands.as_slice(), &past.event)?;
    last_start(starts, Worker { controller, worker })
}
