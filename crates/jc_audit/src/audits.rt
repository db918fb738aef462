//! The audit of bytes.

ghost use Rattle.std.specs.Prelude.{◌≡◌, ◌≤◌, IfOk, length};
ghost use Rattle.jc_audit.specs.Audits.{VerdictHolds, begins_event};
ghost use Rattle.jc_audit.specs.AuditLimits.{IsSmallShape};
ghost use Rattle.jc_audit.specs.Walks.{at_first};

use crate::tails::{bytes_from, tail_verdict};
use crate::verdicts::Verdict;
use crate::walking::take;
use jc_play::Machine;
use jc_types::{Commands, Script, Shape, Want};
use std::alloc::Global;
use std::mem;

// Whether the first line is that of an event: it begins with a digit.
fn begins_event(rest: &[u8]) -> bool
    ensures { result ≡ begins_event rest.now }
{
    match rest.first() {
        Some(byte) => 48 <= *byte && *byte <= 57,
        None => false,
    }
}

// A machine in which nothing has happened, whose script has no command.
fn first_machine(alloc: Global, shape: Shape) -> Result<Machine, Want>
    requires { shape.events ≤ 200000 }
    ensures { IfOk result (λ c. c ≡ at_first shape) }
{
    let script = Script {
        commands: Commands::new(alloc),
    };
    Machine::new(alloc, script, shape)
}

// What is to be said of the bytes, by a machine in which nothing has happened: each line of an event
// that is taken happens in it.
fn walk(alloc: Global, machine: &mut Machine, bytes: &[u8]) -> Result<Verdict, Want>
    requires first { machine.old ≡ at_first machine.old.shape }
    requires small { IsSmallShape machine.old.shape }
    requires short { length bytes.now ≤ 67108864 }
    ensures { IfOk result (λ v. VerdictHolds machine.old.shape bytes.now v) }
{
    let mut at = 0;
    'walking: while begins_event(bytes_from(bytes, at)) {
        let line = machine.history().events.len() as u32 + 1;
        let taken = take(alloc, machine, bytes_from(bytes, at))?;
        let Some(len) = taken else {
            return Ok(Verdict::No { line });
        };
        at += len;
    }
    let verdict = tail_verdict(alloc, machine, bytes_from(bytes, at))?;
    Ok(verdict)
}

/// What is to be said of the bytes. They are a report where lines of events stand first, each of
/// which is that of a command put at its lane's end or of an event of the system that was available,
/// with the reply that the machine gives; and then the lines of the Jobs that have come of it, and
/// `full`, if at all, where the history is full. Else the first line is named that differs. Nothing is
/// taken from who printed them: the machine is played along. It takes the time and the memory of the
/// play, and what was played is not given back, piece by piece, which would take more: the program
/// prints the verdict and ends. So each call loses that memory to its process.
///
/// # Errors
///
/// Want of memory.
pub fn audit(alloc: Global, bytes: &[u8], shape: Shape) -> Result<Verdict, Want>
    requires short { length bytes.now ≤ 67108864 }
    requires few_controllers { shape.controllers ≤ 4 }
    requires few_workers { shape.workers ≤ 16 }
    requires few_events { shape.events ≤ 200000 }
    ensures { IfOk result (λ v. VerdictHolds shape bytes.now v) }
{
    let mut machine = first_machine(alloc, shape)?;
    let verdict = walk(alloc, &mut machine, bytes);
    mem::forget(machine);
    verdict
}
