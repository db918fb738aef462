//! The walk over the lines of events: what is read of a line happens where it may, and the line is to
//! be that of it.

ghost use Rattle.std.specs.Prelude.{◌≡◌, ◌<◌, ◌≤◌, IfOk, IfSome, IsTrue, None, Some, bytes_eq, length, take};
ghost use Rattle.jc_reading.specs.declared.reads.LineAct.TheVariants as read;
ghost use Rattle.jc_audit.specs.AuditLimits.{IsSmallShape};
ghost use Rattle.jc_audit.specs.Walks.{HasTaken, IsLineLen, IsOnlyTaken, IsRead, NoneIsTaken, TakesLine};

use crate::laws::proper_actions_are_valid;
use crate::taking::{clock_fits, last_text, take_command, take_system};
use jc_play::Machine;
use jc_reading::{LineAct, LineRead, read_event};
use jc_types::{Action1, Command, Sys, Want};
use std::alloc::Global;

// The command that was read happens where it may. Whether it did.
fn command_happens(
    machine: &mut Machine,
    lane: u8,
    action: Action1,
    rest: &[u8],
) -> Result<bool, Want>
    requires read { IsRead rest.now (record { lane = Some lane; act = read.Command action }) }
    requires unfull { length machine.old.pasts < machine.old.shape.events }
    requires shape { IsSmallShape machine.old.shape }
    requires fits { length machine.old.script.commands ≤ length machine.old.pasts }
    ensures took { IfOk result (λ yes. IsTrue yes → TakesLine machine.old machine.new) }
    ensures only { IfOk result (λ yes. IsOnlyTaken machine.old machine.new rest.now (IsTrue yes)) }
{
    proper_actions_are_valid();
    let has_happened = take_command(machine, Command { lane, action })?;
    Ok(has_happened)
}

// The event of the system that was read happens where it may. Whether it did.
fn system_happens(machine: &mut Machine, system: Sys, rest: &[u8]) -> Result<bool, Want>
    requires read { IsRead rest.now (record { lane = None; act = read.System system }) }
    requires shape { IsSmallShape machine.old.shape }
    requires unfull { length machine.old.pasts < machine.old.shape.events }
    ensures took { IfOk result (λ yes. IsTrue yes → TakesLine machine.old machine.new) }
    ensures only { IfOk result (λ yes. IsOnlyTaken machine.old machine.new rest.now (IsTrue yes)) }
{
    let has_happened = take_system(machine, system)?;
    Ok(has_happened)
}

// What was read happens where it may. Whether it did.
fn happens(machine: &mut Machine, read: LineRead, rest: &[u8]) -> Result<bool, Want>
    requires read { IsRead rest.now read }
    requires shape { IsSmallShape machine.old.shape }
    requires unfull { length machine.old.pasts < machine.old.shape.events }
    requires fits { length machine.old.script.commands ≤ length machine.old.pasts }
    ensures took { IfOk result (λ yes. IsTrue yes → TakesLine machine.old machine.new) }
    ensures only { IfOk result (λ yes. IsOnlyTaken machine.old machine.new rest.now (IsTrue yes)) }
{
    let lane = read.lane;
    match read.act {
        LineAct::Command(action) => match lane {
            Some(lane) => command_happens(machine, lane, action, rest),
            None => Ok(false),
        },
        LineAct::System(system) => match lane {
            None => system_happens(machine, system, rest),
            Some(_) => Ok(false),
        },
    }
}

// Whether the line stands first.
fn begins_with(rest: &[u8], line: &[u8]) -> bool
    ensures { result ≡ bytes_eq line.now (take (length line.now) rest.now) }
{
    rest.starts_with(line)
}

// How long the line of the newest event is, where the rest begins with it.
fn line_len(alloc: Global, machine: &Machine, rest: &[u8]) -> Result<Option<usize>, Want>
    requires { 0 < length machine.now.pasts }
    ensures { IfOk result (λ o. IsLineLen machine.now rest.now o) }
{
    let text = last_text(alloc, machine)?;
    let line = text.as_bytes();
    let len = line.len();
    if begins_with(rest, line) {
        return Ok(Some(len));
    }
    Ok(None)
}

/// The event of the first line happens where it may, and the rest begins with its line: how long that
/// line is. Where the answer is `None`, the machine is given up.
///
/// # Errors
///
/// Want of memory.
pub fn take(alloc: Global, machine: &mut Machine, rest: &[u8]) -> Result<Option<usize>, Want>
    requires shape { IsSmallShape machine.old.shape }
    requires fits { length machine.old.script.commands ≤ length machine.old.pasts }
    ensures taken { IfOk result (λ o. IfSome o (HasTaken machine.old machine.new rest.now)) }
    ensures none { IfOk result (λ o. o ≡ None → NoneIsTaken machine.old rest.now) }
{
    if machine.history().events.len() >= machine.shape().events as usize {
        return Ok(None);
    }
    let Some(read) = read_event(alloc, rest)? else {
        // It is no line of the clock either: none of more seconds than are read can come.
        clock_fits(machine);
        return Ok(None);
    };
    let has_happened = happens(machine, read, rest)?;
    if !has_happened {
        return Ok(None);
    }
    let len = line_len(alloc, machine, rest)?;
    Ok(len)
}
