//! A report that is put together but for the lines of most events, and how it goes out.

ghost use Rattle.std.specs.Prelude.{◌≡◌, ◌+◌, ◌≤◌, ◌++◌, All, IfOk, OnErr, OnOk, Some, [], drop, false, length, map, reverse, slice_get, string_bytes, take};
ghost use Rattle.std.specs.Io.KnownBytes.{Appends};
ghost use Rattle.std.specs.String.{string_capacity};
ghost use Rattle.jc_io.specs.Faults.{HasCause, raised_count};
ghost use Rattle.jc_io.specs.Moved.{AppendsFront};
ghost use Rattle.jc_log.specs.Deeds.{deed};
ghost use Rattle.jc_runs.specs.Seen.{log_seen};
ghost use Rattle.jc_types.specs.declared.runs.Past.{Past};
ghost use Rattle.jc_verdicts.specs.Verdicts.{IsPlace};
ghost use Rattle.jc_lines.specs.LongLines.{long_end, long_ends, long_line, long_lines, page_len};
ghost use Rattle.jc_lines.specs.Events.{event_line, event_lines};
ghost use Rattle.jc_lines.specs.Reports.{report_text};
ghost use Rattle.jc_lines.specs.Short.{is_short};
ghost use Rattle.jc_report.specs.Sent.{Sends};

use crate::pages::{send_piece, send_short, send_text, write_page};
use jc_core::Machine;
use jc_io::{Sink, Want, WriteFault};
use jc_lines::{Draft, draft_of_parts, is_short};
use jc_types::{Past, Script};
use std::alloc::Global;
use std::marker::Model;
use std::mem;

/// The report of a machine, with all memory that it takes. A contract sees its text.
#[derive(Drop)]
pub struct Report {
    machine: Machine,
    draft: Draft,
}

impl Model for Report {
    ghost use Rattle.std.specs.Prelude.{ℕ, List, ◌++◌, map, reverse, string_bytes};
    ghost use Rattle.jc_log.specs.Deeds.{deed};
    ghost use Rattle.jc_lines.specs.Events.{event_lines};
    ghost use Rattle.jc_report.specs.Drafted.{IsDrafted};

    ghost Value = { List ℕ };

    ghost view = { λ r. event_lines 1 (map (deed r.machine.script) (reverse r.machine.pasts))
        ++ string_bytes r.draft.last };

    ghost invariant = { λ r. IsDrafted r.machine.script (reverse r.machine.pasts) r.draft };
}

// The lines that are not short, as they were put together.
#[derive(Clone, Copy)]
struct LongLines<'a> {
    script: &'a Script,
    long: &'a str,
    ends: &'a [usize],
}

// How many of them went out, and where the next one begins.
#[derive(Drop)]
struct NextLong {
    count: usize,
    at: usize,
}

// The line of an event. Where it is not short it is the next of those that were put together.
fn send_line<K: Sink>(
    lines: &LongLines<'_>,
    number: u64,
    past: &Past,
    taken: &mut NextLong,
    page: &mut String,
    sink: &mut K,
) -> Result<(), WriteFault>
    requires place { IsPlace lines.now.script.now.commands past.now.event }
    requires room { page_len ≤ string_capacity page.old }
    requires end { is_short (deed lines.now.script.now past.now) ≡ false
        → slice_get lines.now.ends.now taken.old.count
        ≡ Some (taken.old.at + length (event_line number (deed lines.now.script.now past.now))) }
    requires within { is_short (deed lines.now.script.now past.now) ≡ false
        → taken.old.at + length (event_line number (deed lines.now.script.now past.now))
        ≤ length lines.now.long.now }
    requires line { is_short (deed lines.now.script.now past.now) ≡ false
        → take (length (event_line number (deed lines.now.script.now past.now)))
        (drop taken.old.at lines.now.long.now) ≡ event_line number (deed lines.now.script.now past.now) }
    ensures sends { OnOk result (Sends (K.held sink.old) (string_bytes page.old) (K.held sink.new)
        (string_bytes page.new) (event_line number (deed lines.now.script.now past.now))) }
    ensures at { OnOk result (taken.new.at
        ≡ taken.old.at + length (long_line number (deed lines.now.script.now past.now))) }
    ensures count { OnOk result (taken.new.count
        ≡ taken.old.count + length (long_end 0 (deed lines.now.script.now past.now))) }
    ensures room { OnOk result (page_len ≤ string_capacity page.new) }
    ensures front { OnErr result (AppendsFront (K.held sink.old) (K.held sink.new)
        (string_bytes page.old ++ event_line number (deed lines.now.script.now past.now))) }
    ensures fault { HasCause (K.faults sink.old) (K.faults sink.new) result }
    ensures later { K.faults sink.old ≤ K.faults sink.new }
    ensures not_finished { K.finished sink.new ≡ K.finished sink.old }
{
    if is_short(lines.script, past) {
        return send_short(lines.script, number, past, page, sink);
    }
    let end = lines.ends[taken.count];
    send_piece(lines.long, taken.at, end, page, sink)?;
    taken.count += 1;
    taken.at = end;
    Ok(())
}

// The lines of all events.
fn send_lines<K: Sink>(
    lines: &LongLines<'_>,
    events: &[Past],
    page: &mut String,
    sink: &mut K,
) -> Result<(), WriteFault>
    requires places { All (λ (past : Past).
        IsPlace lines.now.script.now.commands past.event) events.now }
    requires long { lines.now.long.now
        ≡ long_lines 1 (map (deed lines.now.script.now) events.now) }
    requires ends { lines.now.ends.now
        ≡ long_ends 0 1 (map (deed lines.now.script.now) events.now) }
    requires room { page_len ≤ string_capacity page.old }
    ensures sends { OnOk result (Sends (K.held sink.old) (string_bytes page.old) (K.held sink.new)
        (string_bytes page.new) (event_lines 1 (map (deed lines.now.script.now) events.now))) }
    ensures front { OnErr result (AppendsFront (K.held sink.old) (K.held sink.new)
        (string_bytes page.old ++ event_lines 1 (map (deed lines.now.script.now) events.now))) }
    ensures fault { HasCause (K.faults sink.old) (K.faults sink.new) result }
    ensures later { K.faults sink.old ≤ K.faults sink.new }
    ensures not_finished { K.finished sink.new ≡ K.finished sink.old }
{
    let mut taken = NextLong { count: 0, at: 0 };
    for place in 0..events.len() {
        send_line(
            lines,
            place as u64 + 1,
            &events[place],
            &mut taken,
            page,
            sink,
        )?;
    }
    Ok(())
}

// All of a report: the lines of events, and what stands behind them.
fn send_all<K: Sink>(
    lines: &LongLines<'_>,
    events: &[Past],
    last: &str,
    page: &mut String,
    sink: &mut K,
) -> Result<(), WriteFault>
    requires places { All (λ (past : Past).
        IsPlace lines.now.script.now.commands past.event) events.now }
    requires long { lines.now.long.now
        ≡ long_lines 1 (map (deed lines.now.script.now) events.now) }
    requires ends { lines.now.ends.now
        ≡ long_ends 0 1 (map (deed lines.now.script.now) events.now) }
    requires blank { string_bytes page.old ≡ [] }
    requires room { page_len ≤ string_capacity page.old }
    ensures all { OnOk result (Appends (K.held sink.old) (K.held sink.new)
        (event_lines 1 (map (deed lines.now.script.now) events.now) ++ last.now)) }
    ensures front { OnErr result (AppendsFront (K.held sink.old) (K.held sink.new)
        (event_lines 1 (map (deed lines.now.script.now) events.now) ++ last.now)) }
    ensures fault { HasCause (K.faults sink.old) (K.faults sink.new) result }
    ensures later { K.faults sink.old ≤ K.faults sink.new }
    ensures finished { OnOk result
        (K.finished sink.new ≡ raised_count (K.finished sink.old)) }
    ensures not_finished { OnErr result (K.finished sink.new ≡ K.finished sink.old) }
{
    send_lines(lines, events, page, sink)?;
    send_text(last, page, sink)?;
    write_page(page, sink)?;
    sink.finish()?;
    Ok(())
}

/// The report of what happened to the machine, in UTF-8. It has a line for each event, numbered from 1:
/// its lane, what it did, and what it was answered. Then two lines for each Job that is there, in
/// ascending key: its version and status, and on how many of its pods the writes of its status have
/// given a verdict (KEP-2307). Where the history is `full`, as the caller knows, a line says so at last.
/// Each line ends with a line feed. All memory that it takes is taken now.
///
/// # Errors
///
/// Want of memory.
#[tactic(auto, using(jc_lines::proofs::PlaceFacts::numbered))]
pub fn report_of_machine(alloc: Global, machine: Machine, full: bool) -> Result<Report, Want>
    ensures { IfOk result (λ report. report ≡ report_text machine.script
        (reverse machine.pasts) (log_seen machine) full) }
{
    // (the shape's number of events is of 32 bits: so the history is short, and its log is)
    let _most = machine.shape().events;
    let store = machine.store();
    let draft = draft_of_parts(
        alloc,
        machine.script(),
        machine.history(),
        store.log(),
        store.jobs(),
        full,
    )?;
    Ok(Report { machine, draft })
}

/// Writes a report to `sink`, in order, and finishes it. It takes no memory, and does not give back what was played, piece
/// by piece, which takes a tenth of the time: who prints a report ends then.
///
/// # Errors
///
/// `WriteFault` comes only where the sink's count of faults rose in this call. What was appended is then a front of the
/// report, and the sink was not finished.
#[tactic(auto, using(jc_lines::proofs::PlaceFacts::numbered))]
pub fn write_report<K: Sink>(report: Report, sink: &mut K) -> Result<(), WriteFault>
    ensures all { OnOk result (Appends (K.held sink.old) (K.held sink.new) report) }
    ensures fault { HasCause (K.faults sink.old) (K.faults sink.new) result }
    ensures front { OnErr result (AppendsFront (K.held sink.old) (K.held sink.new) report) }
    ensures later { K.faults sink.old ≤ K.faults sink.new }
    // With Ok the sink was finished, once, behind the last byte.
    ensures finished { OnOk result
        (K.finished sink.new ≡ raised_count (K.finished sink.old)) }
    ensures not_finished { OnErr result (K.finished sink.new ≡ K.finished sink.old) }
{
    let Report { machine, draft } = report;
    let Draft {
        long,
        ends,
        last,
        mut page,
    } = draft;
    let lines = LongLines {
        script: machine.script(),
        long: long.as_str(),
        ends: ends.as_slice(),
    };
    let events = machine.history().events.as_slice();
    let written = send_all(&lines, events, last.as_str(), &mut page, sink);
    mem::forget(machine);
    written
}
