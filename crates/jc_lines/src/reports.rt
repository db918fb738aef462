//! The report of a history, and its summary, of their parts.

ghost use Rattle.std.specs.Prelude.{◌≡◌, ◌++◌, ◌<◌, ◌^◌, All, IfOk, OnOk};
ghost use Rattle.std.specs.Prelude.{length, map, reverse, string_bytes};
ghost use Rattle.jc_verdicts.specs.Verdicts.{IsNumbered, IsPlace};
ghost use Rattle.jc_lines.specs.Events.{event_line, event_lines};
ghost use Rattle.jc_log.specs.Deeds.{deed};
ghost use Rattle.jc_log.specs.Log.{jobs_in};
ghost use Rattle.jc_types.specs.declared.runs.Past.{Past};
ghost use Rattle.jc_lines.specs.Reports.{in_order, jobs_text as jobs_said, report_text, summary_of, verdicts_in};

use crate::events::put_event;
use crate::job_lists::{in_order, jobs_text};
use crate::summaries::{print_full, print_summary};
use jc_table::Table;
use jc_types::{Arc, Entries, History, Job, Key, Past, Script, Want};
use jc_verdicts::all_verdicts;
use std::alloc::Global;

// The line of an event.
fn print_past(
    out: &mut String,
    alloc: Global,
    script: &Script,
    number: u64,
    past: &Past,
) -> Result<(), Want>
    requires { IsPlace script.now.commands past.now.event }
    ensures { OnOk result (string_bytes out.new
        ≡ string_bytes out.old ++ event_line number (deed script.now past.now)) }
{
    put_event(out, alloc, script, number, past)
}

// The lines of all events.
fn events_text(alloc: Global, script: &Script, events: &[Past]) -> Result<String, Want>
    requires { All (λ (past : Past). IsPlace script.now.commands past.event) events.now }
    ensures { IfOk result (λ text. string_bytes text
        ≡ event_lines 1 (map (deed script.now) events.now)) }
{
    let mut text = String::new(alloc);
    for place in 0..events.len() {
        print_past(&mut text, alloc, script, place as u64 + 1, &events[place])?;
    }
    Ok(text)
}

/// The two lines of each Job that is there after a history of the script, whose log and whose Jobs these
/// are, in ascending key: what it has come to, and how many of its pods were judged. The log stands
/// oldest first.
///
/// # Errors
///
/// Want of memory.
pub fn tail(
    alloc: Global,
    script: &Script,
    history: &History,
    log: &Entries,
    jobs: &Table<Key, Arc<Job>>,
) -> Result<String, Want>
    requires few_entries { length log.now < 2 ^ 32 }
    requires places { IsNumbered script.now history.now }
    requires jobs { jobs.now ≡ jobs_in (reverse log.now) }
    ensures { IfOk result (λ text. string_bytes text
        ≡ jobs_said (verdicts_in script.now history.now.events.items (reverse log.now))
        (in_order (jobs_in (reverse log.now)))) }
{
    let rows = all_verdicts(alloc, script, history, log)?;
    let list = in_order(alloc, jobs)?;
    let text = jobs_text(alloc, &rows, list.as_slice())?;
    Ok(text)
}

/// The report of a history of the script, whose log and whose Jobs these are: a line for each event,
/// then two for each Job in ascending key, what it has come to and how many of its pods were judged,
/// and `full` at last where the history was full. The log stands oldest first. It takes one pass over
/// the history for the lines, and one for all verdicts.
///
/// # Errors
///
/// Want of memory.
pub fn report_of_parts(
    alloc: Global,
    script: &Script,
    history: &History,
    log: &Entries,
    jobs: &Table<Key, Arc<Job>>,
    full: bool,
) -> Result<String, Want>
    requires few_entries { length log.now < 2 ^ 32 }
    requires places { IsNumbered script.now history.now }
    requires jobs { jobs.now ≡ jobs_in (reverse log.now) }
    ensures { IfOk result (λ text. string_bytes text
        ≡ report_text script.now history.now.events.items (reverse log.now) full) }
{
    let last = tail(alloc, script, history, log, jobs)?;
    let mut text = events_text(alloc, script, history.events.as_slice())?;
    text.push_str(last.as_str())?;
    print_full(&mut text, full)?;
    Ok(text)
}

/// The summary of a run whose log and whose Jobs these are: how many Jobs there are, are complete and
/// have failed, how many pods they have counted, and `full` at last where the history was full. The log
/// stands oldest first.
///
/// # Errors
///
/// Want of memory.
pub fn summary_of_parts(
    alloc: Global,
    log: &Entries,
    jobs: &Table<Key, Arc<Job>>,
    full: bool,
) -> Result<String, Want>
    requires jobs { jobs.now ≡ jobs_in (reverse log.now) }
    ensures { IfOk result (λ text. string_bytes text ≡ summary_of (reverse log.now) full) }
{
    let list = in_order(alloc, jobs)?;
    let mut text = String::new(alloc);
    print_summary(&mut text, alloc, list.as_slice(), full)?;
    Ok(text)
}
