//! What of a report takes memory, and is put together before its first byte is written.

ghost use Rattle.std.specs.Prelude.{◌≡◌, ◌++◌, ◌<◌, ◌≤◌, ◌^◌, All, IfOk, OnOk, [], length, map, reverse, string_bytes};
ghost use Rattle.std.specs.String.{string_capacity};
ghost use Rattle.jc_verdicts.specs.Verdicts.{IsNumbered, IsPlace};
ghost use Rattle.jc_log.specs.Deeds.{deed};
ghost use Rattle.jc_log.specs.Log.{jobs_in};
ghost use Rattle.jc_types.specs.declared.runs.Past.{Past};
ghost use Rattle.jc_lines.specs.LongLines.{long_end, long_ends, long_line, long_lines, page_len};
ghost use Rattle.jc_lines.specs.Reports.{in_order, jobs_text as jobs_said, verdicts_in};
ghost use Rattle.jc_lines.specs.Summaries.{full_line};

use crate::events::put_event;
use crate::reports::tail;
use crate::short::is_short;
use crate::summaries::print_full;
use jc_table::Table;
use jc_types::{Arc, Entries, History, Job, Key, Past, Script, Want};
use std::alloc::Global;

// How many bytes a page has room for: many lines, and no more than stay at hand.
const PAGE_LEN: usize = 65536;

/// What of a report is put together before its first byte is written: all that takes memory. The lines of most events are
/// short, and are put on the page as it is written.
#[derive(Drop)]
pub struct Draft {
    /// The lines of events that are not short, one behind the other.
    pub long: String,
    /// Where in them each of these lines ends.
    pub ends: Vec<usize>,
    /// What stands behind the lines of events.
    pub last: String,
    /// Room for a page.
    pub page: String,
}

// The line of an event behind the others, and where it ends, where it is not short.
fn draft_line(
    long: &mut String,
    ends: &mut Vec<usize>,
    alloc: Global,
    script: &Script,
    number: u64,
    past: &Past,
) -> Result<(), Want>
    requires { IsPlace script.now.commands past.now.event }
    ensures line { OnOk result (string_bytes long.new
        ≡ string_bytes long.old ++ long_line number (deed script.now past.now)) }
    ensures end { OnOk result (ends.new.items ≡ ends.old.items
        ++ long_end (length (string_bytes long.new)) (deed script.now past.now)) }
{
    if is_short(script, past) {
        return Ok(());
    }
    put_event(long, alloc, script, number, past)?;
    ends.push(long.len())?;
    Ok(())
}

// The lines of all events that are not short, and where they end.
#[derive(Drop)]
struct DraftedLines {
    long: String,
    ends: Vec<usize>,
}

fn draft_lines(alloc: Global, script: &Script, events: &[Past]) -> Result<DraftedLines, Want>
    requires { All (λ (past : Past). IsPlace script.now.commands past.event) events.now }
    ensures lines { IfOk result (λ lines. string_bytes lines.long
        ≡ long_lines 1 (map (deed script.now) events.now)) }
    ensures ends { IfOk result (λ lines. lines.ends.items
        ≡ long_ends 0 1 (map (deed script.now) events.now)) }
{
    let mut long = String::new(alloc);
    let mut ends = Vec::new(alloc);
    for place in 0..events.len() {
        draft_line(
            &mut long,
            &mut ends,
            alloc,
            script,
            place as u64 + 1,
            &events[place],
        )?;
    }
    Ok(DraftedLines { long, ends })
}

/// The draft of the report of a history of the script, whose log and whose Jobs these are. The log stands oldest first.
///
/// # Errors
///
/// Want of memory.
pub fn draft_of_parts(
    alloc: Global,
    script: &Script,
    history: &History,
    log: &Entries,
    jobs: &Table<Key, Arc<Job>>,
    full: bool,
) -> Result<Draft, Want>
    requires few_entries { length log.now < 2 ^ 32 }
    requires places { IsNumbered script.now history.now }
    requires jobs { jobs.now ≡ jobs_in (reverse log.now) }
    ensures long { IfOk result (λ draft. string_bytes draft.long
        ≡ long_lines 1 (map (deed script.now) history.now.events.items)) }
    ensures ends { IfOk result (λ draft. draft.ends.items
        ≡ long_ends 0 1 (map (deed script.now) history.now.events.items)) }
    ensures last { IfOk result (λ draft. string_bytes draft.last
        ≡ jobs_said (verdicts_in script.now history.now.events.items (reverse log.now))
        (in_order (jobs_in (reverse log.now))) ++ full_line full) }
    ensures page { IfOk result (λ draft. string_bytes draft.page ≡ []) }
    ensures room { IfOk result (λ draft. page_len ≤ string_capacity draft.page) }
{
    let mut last = tail(alloc, script, history, log, jobs)?;
    print_full(&mut last, full)?;
    let lines = draft_lines(alloc, script, history.events.as_slice())?;
    let page = String::with_capacity(alloc, PAGE_LEN)?;
    Ok(Draft {
        long: lines.long,
        ends: lines.ends,
        last,
        page,
    })
}
