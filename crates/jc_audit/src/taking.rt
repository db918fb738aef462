//! One line: its event is a command more of the script, or one of the system that is available, and it
//! happens.

ghost use Rattle.std.specs.Prelude.{◌≡◌, ◌<◌, ◌+◌, ◌^◌, ◌↔◌, IfOk, IfSome, IsTrue, OnErr, OnOk, Some, length, string_bytes, ℕ};
ghost use Rattle.jc_types.specs.declared.runs.Event.TheVariants as event;
ghost use Rattle.jc_types.specs.declared.runs.Sys.TheVariants as sys;
ghost use Rattle.jc_runs.specs.ValidActions.{IsValidAction};
ghost use Rattle.jc_play.specs.Longer.{extended};
ghost use Rattle.jc_runs.specs.Seen.{Admits, happened};
ghost use Rattle.jc_play.specs.Actors.{CanCome};
ghost use Rattle.jc_audit.specs.Clocks.{FitsClock, IsClock};
ghost use Rattle.jc_audit.specs.Walks.{last_line, with_command};

use jc_lines::put_event;
use jc_play::{Actor, Machine, available, fits};
use jc_types::{Command, Event, Sys, Want};
use std::alloc::{AllocError, Global};

// The room for a line: most take less.
const MOST_LINE: usize = 256;

// The seconds by which the clock can pass of itself, where it can.
fn clock_seconds(machine: &Machine) -> Option<u64>
    ensures it_can_come { IfSome result
        (λ add. CanCome machine.now (event.System (sys.Clock add))) }
    ensures exactly { (add : ℕ) → CanCome machine.now (event.System (sys.Clock add))
        → result ≡ Some add }
{
    let Some(event) = available(machine, Actor::Clock) else {
        return None;
    };
    let Event::System(system) = event else {
        return None;
    };
    let Sys::Clock { add } = system else {
        return None;
    };
    Some(add.as_u64())
}

// A number of seconds fits 64 bits.
fn number_fits(seconds: u64)
    ensures { seconds < 2 ^ 64 }
{}

// Whether the clock can pass of itself by so many seconds. Those by which it can fit 64 bits.
fn can_pass(machine: &Machine, add: u64) -> bool
    ensures can_come { IsTrue result ↔ CanCome machine.now (event.System (sys.Clock add)) }
    ensures fits { FitsClock machine.now }
{
    match clock_seconds(machine) {
        Some(seconds) => {
            number_fits(seconds);
            seconds == add
        }
        None => false,
    }
}

// The seconds by which the clock can pass of itself fit 64 bits, since the answer to who asks for
// them does.
pub fn clock_fits(machine: &Machine)
    ensures { FitsClock machine.now }
{
    match clock_seconds(machine) {
        Some(seconds) => number_fits(seconds),
        None => {}
    }
}

// Whether the event of the system may come next, and is available. Where it is the clock's, all
// seconds by which the clock can pass fit 64 bits.
pub fn is_available(machine: &Machine, system: &Sys) -> bool
    ensures can_come { IsTrue result ↔ CanCome machine.now (event.System system.now) }
    ensures clock { IsClock system.now → FitsClock machine.now }
{
    match system {
        Sys::Clock { add } => can_pass(machine, add.as_u64()),
        Sys::List { .. } | Sys::Deliver { .. } | Sys::Begin { .. } | Sys::Step { .. } | Sys::Node =>
            fits(machine, &Event::System(*system)),
    }
}

// The event happens, where there is room for it.
pub fn happen(machine: &mut Machine, event: Event) -> Result<(), Want>
    requires admits { Admits machine.old event }
    requires unfull { length machine.old.pasts < machine.old.shape.events }
    ensures ok { OnOk result (machine.new ≡ happened machine.old event) }
    ensures kept { OnErr result (machine.new ≡ machine.old) }
{
    match machine.apply(event) {
        Ok(_) => Ok(()),
        Err(_) => Err(AllocError),
    }
}

// The line of the newest event.
pub fn last_text(alloc: Global, machine: &Machine) -> Result<String, Want>
    requires { 0 < length machine.now.pasts }
    ensures { IfOk result (λ text. string_bytes text ≡ last_line machine.now) }
{
    let events = machine.history().events.as_slice();
    let count = events.len();
    let mut text = String::with_capacity(alloc, MOST_LINE)?;
    put_event(
        &mut text,
        alloc,
        machine.script(),
        count as u64,
        &events[count - 1],
    )?;
    Ok(text)
}

// The command is put at the end of the script and happens, where it may come next. Whether it did.
pub fn take_command(machine: &mut Machine, command: Command) -> Result<bool, Want>
    requires valid { IsValidAction command.action }
    requires fits { length machine.old.script.commands + 1 < 2 ^ 32 }
    requires unfull { length machine.old.pasts < machine.old.shape.events }
    ensures may { IfOk result (λ yes. IsTrue yes
        ↔ Admits (extended machine.old command)
        (event.Command command.lane (length machine.old.script.commands))) }
    ensures took { IfOk result (λ yes. IsTrue yes
        → machine.new ≡ with_command machine.old command) }
{
    let number = machine.script().commands.len() as u32;
    let lane = command.lane;
    machine.extend(command)?;
    let event = Event::Command { lane, number };
    if !machine.admits(&event) {
        return Ok(false);
    }
    happen(machine, event)?;
    Ok(true)
}

// The event of the system happens, where it may come next and is available. Whether it did.
pub fn take_system(machine: &mut Machine, system: Sys) -> Result<bool, Want>
    requires unfull { length machine.old.pasts < machine.old.shape.events }
    ensures may { IfOk result (λ yes. IsTrue yes ↔ CanCome machine.old (event.System system)) }
    ensures clock { IfOk result (λ yes. IsClock system → FitsClock machine.old) }
    ensures took { IfOk result (λ yes. IsTrue yes
        → machine.new ≡ happened machine.old (event.System system)) }
{
    if !is_available(machine, &system) {
        return Ok(false);
    }
    happen(machine, Event::System(system))?;
    Ok(true)
}
