//! What stands behind the lines of the events, against the lines of the Jobs that are there.

ghost use Rattle.std.specs.Prelude.{◌≡◌, ◌&&◌, ◌+◌, ◌<◌, ◌≤◌, ◌^◌, IfOk, bytes_eq, codes, drop, length, string_bytes};
ghost use Rattle.jc_runs.specs.Seen.{deeds_seen};
ghost use Rattle.jc_audit.specs.Tails.{at_end, lines_compared, line_len, whole_lines, tail_text, tail_verdict};

use crate::verdicts::Verdict;
use jc_lines::tail;
use jc_play::Machine;
use jc_types::Want;
use std::alloc::Global;

/// What stands from this place on.
pub fn bytes_from(bytes: &[u8], at: usize) -> &[u8]
    requires { at ≤ length bytes.now }
    ensures { result.now ≡ drop at bytes.now }
{
    &bytes[at..]
}

// How long the first line is, with its line feed.
fn line_len(bytes: &[u8]) -> usize
    ensures is { result ≡ line_len bytes.now }
    ensures within { result ≤ length bytes.now }
{
    for i in 0..bytes.len() {
        if bytes[i] == b'\n' {
            return i + 1;
        }
    }
    bytes.len()
}

// Whether the line says that the history is full.
fn is_full(line: &[u8]) -> bool
    ensures { result ≡ bytes_eq line.now (codes "full\n") }
{
    matches!(line, b"full\n")
}

// Whether the line may be the last one behind all those that are wanted.
fn is_last(line: &[u8], full: bool) -> bool
    ensures { result ≡ (full && bytes_eq line.now (codes "full\n")) }
{
    full && is_full(line)
}

// Whether the lines are the same.
fn is_same(line: &[u8], wanted: &[u8]) -> bool
    ensures { result ≡ bytes_eq line.now wanted.now }
{
    line == wanted
}

// What is said where no line of a Job is wanted any more.
fn at_end(line: u32, rest: &[u8], full: bool) -> Verdict
    requires { line + 1 < 2 ^ 32 }
    ensures { result ≡ at_end line (whole_lines rest.now) full }
{
    if rest.is_empty() {
        return Verdict::Yes;
    }
    let end = line_len(rest);
    if !is_last(&rest[..end], full) {
        return Verdict::No { line };
    }
    if end == rest.len() {
        return Verdict::Yes;
    }
    Verdict::No { line: line + 1 }
}

// The lines are those that are wanted, the first of which has that number.
fn lines_compared(first: u32, rest: &[u8], wanted: &[u8], full: bool) -> Verdict
    requires { first + length rest.now + 1 < 2 ^ 32 }
    ensures { result ≡ lines_compared first (whole_lines rest.now) (whole_lines wanted.now) full }
{
    let mut line = first;
    let mut at = 0;
    let mut due = 0;
    'comparing: while due < wanted.len() {
        let found = bytes_from(rest, at);
        let next = bytes_from(wanted, due);
        let found_len = line_len(found);
        let next_len = line_len(next);
        if !is_same(&found[..found_len], &next[..next_len]) {
            return Verdict::No { line };
        }
        at += found_len;
        due += next_len;
        line += 1;
    }
    at_end(line, bytes_from(rest, at), full)
}

// The lines of the Jobs of the machine.
#[tactic(auto, using(crate::proofs::TailFacts::log_fits, jc_lines::proofs::PlaceFacts::numbered))]
fn tail_of(alloc: Global, machine: &Machine) -> Result<String, Want>
    requires { machine.now.shape.events ≤ 200000 }
    ensures { IfOk result (λ text. string_bytes text
        ≡ tail_text machine.now.shape (deeds_seen machine.now)) }
{
    let store = machine.store();
    let text = tail(
        alloc,
        machine.script(),
        machine.history(),
        store.log(),
        store.jobs(),
    )?;
    Ok(text)
}

/// What is said of what stands behind the lines of the events.
///
/// # Errors
///
/// Want of memory.
#[tactic(auto, unfolding(crate::specs::Tails::tail_verdict))]
pub fn tail_verdict(alloc: Global, machine: &Machine, rest: &[u8]) -> Result<Verdict, Want>
    requires shape { machine.now.shape.events ≤ 200000 }
    requires short { length rest.now ≤ 67108864 }
    ensures { IfOk result (λ v. v
        ≡ tail_verdict machine.now.shape (deeds_seen machine.now) rest.now) }
{
    let count = machine.history().events.len();
    let wanted = tail_of(alloc, machine)?;
    let full = count == machine.shape().events as usize;
    Ok(lines_compared(count as u32 + 1, rest, wanted.as_bytes(), full))
}
