//! What the ledgers of all Jobs have counted.

ghost use Rattle.std.specs.Prelude.{◌≡◌, ◌<◌, ◌^◌, All, IfOk, OnOk, length, reverse};
ghost use Rattle.std.specs.Option.{option_map};
ghost use Rattle.jc_types.specs.declared.numbers.Uid.{Uid};
ghost use Rattle.jc_types.specs.declared.runs.Past.{Past};
ghost use Rattle.jc_types.specs.Keys.{same_uid};
ghost use Rattle.jc_log.specs.Deeds.{deed, deeds};
ghost use Rattle.jc_log.specs.Tables.{at};
ghost use Rattle.jc_verdicts.specs.Books.{AreCounts, AreFew, AreBooksOf, totals_of, verdicts_at};
ghost use Rattle.jc_ledger.specs.Ledger.{Ledger, judging_of, ledger_of};
ghost use Rattle.jc_verdicts.specs.LogPlaces.{ArePlaces};
ghost use Rattle.jc_verdicts.specs.SyncStarts.{HasStarts};
ghost use Rattle.jc_verdicts.specs.Verdicts.{IsNumbered, IsPlace, deeds_of, judging_as, ledger_after};
ghost use Rattle.jc_ledger.specs.Ledger.{verdicts_of};

use crate::books::{Book, judge_in};
use crate::events::written_sync;
use crate::places::{Places, places_of};
use crate::rows::count;
use crate::seen::{end_of, job_among};
use crate::starts::{add_begin, new_starts};
use crate::workers::Starts;
use indexmap::IndexMap;
use jc_failpol::Outcome;
use jc_ledger::{Verdicts, pods_are_judged_once};
use jc_table::Table;
use jc_types::{Entries, Entry, History, Job, Past, Script, Uid, Want};
use std::alloc::Global;

/// The Job whose pods an event judges, and among how many entries it judges them.
fn judging<'a>(
    script: &Script,
    starts: &Starts<'_>,
    before: &[Past],
    past: &Past,
    log: &'a [Entry],
    places: &Places,
) -> Option<(&'a Job, u32)>
    requires starts { HasStarts (deeds_of script.now before.now) starts.now }
    requires event { IsPlace script.now.commands past.now.event }
    requires places { ArePlaces (reverse log.now) places.now }
    ensures { option_map (λ found. judging_as past.now found.0.now found.1) result
        ≡ judging_of (deed script.now past.now) (deeds_of script.now before.now) (reverse log.now) }
{
    let Some(start) = written_sync(script, starts, before, past) else {
        return None;
    };
    let Some(job) = job_among(log, places, end_of(log, start.jobs_at.0), start.key) else {
        return None;
    };
    Some((job, start.pods_at.0))
}

/// Takes one more event into the books.
fn take_in(
    alloc: Global,
    books: &mut IndexMap<Uid, Book>,
    script: &Script,
    starts: &Starts<'_>,
    before: &[Past],
    past: &Past,
    log: &[Entry],
    places: &Places,
) -> Result<(), Want>
    requires starts { HasStarts (deeds_of script.now before.now) starts.now }
    requires event { IsPlace script.now.commands past.now.event }
    requires places { ArePlaces (reverse log.now) places.now }
    requires sound { AreBooksOf log.now books.old.entries }
    ensures sound { OnOk result (AreBooksOf log.now books.new.entries) }
    ensures counts { OnOk result ((ledgers : Uid → Ledger)
        → AreCounts ledgers books.old.entries
        → AreCounts (λ j. ledger_after script.now before.now past.now j log.now (ledgers j))
        books.new.entries) }
{
    match judging(script, starts, before, past, log, places) {
        None => Ok(()),
        Some((job, seen)) => judge_in(alloc, books, job, log, places, seen),
    }
}

/// The books after all events.
fn filled(
    alloc: Global,
    script: &Script,
    events: &[Past],
    log: &[Entry],
    places: &Places,
) -> Result<IndexMap<Uid, Book>, Want>
    requires events { All (λ (past : Past). IsPlace script.now.commands past.event) events.now }
    requires places { ArePlaces (reverse log.now) places.now }
    ensures { IfOk result (λ books. AreCounts
        (λ j. ledger_of j (deeds_of script.now events.now) (reverse log.now)) books.entries) }
{
    let mut starts = new_starts(alloc)?;
    let mut books = IndexMap::new(alloc);
    for place in 0..events.len() {
        let past = &events[place];
        take_in(
            alloc,
            &mut books,
            script,
            &starts,
            &events[..place],
            past,
            log,
            places,
        )?;
        add_begin(&mut starts, script, past)?;
    }
    Ok(books)
}

/// The totals of a book.
fn totals(book: &Book) -> Verdicts
    requires rows { length book.now.rows.items < 2 ^ 32 }
    requires done { length book.now.done.items < 2 ^ 32 }
    ensures { result ≡ totals_of book.now }
{
    let rows = book.rows.as_slice();
    Verdicts {
        succeeded: count(rows, Outcome::Succeeded),
        failed: count(rows, Outcome::Failed),
        indexes: book.done.len() as u32,
    }
}

/// The totals of each book, under its UID.
fn tallied(alloc: Global, books: &IndexMap<Uid, Book>) -> Result<Table<Uid, Verdicts>, Want>
    requires { AreFew books.now.entries }
    ensures { IfOk result (λ rows. (j : Uid)
        → at same_uid rows j ≡ option_map totals_of (at same_uid books.now.entries j)) }
{
    let mut rows = Table::new(alloc);
    for place in (0..books.len()).rev() {
        let Some((uid, book)) = books.get_index(place) else {
            unreachable!()
        };
        rows.put(*uid, totals(book))?;
    }
    Ok(rows)
}

/// What the ledgers of all Jobs have counted (KEP-2307): on how many distinct pods of a Job the
/// accepted writes of its status have given a verdict, and how many indexes the successes among
/// them have. A Job without a row has none.
///
/// A ledger knows no uncounted lists and no totals. One pass over the log notes where the pods of
/// each Job change; one over the events then counts. At each write of a status that appended an
/// entry, also where the reply was lost, it takes the pods of the Job as the sync that wrote saw
/// them, and judges those that are tracked, have succeeded or failed, and were not judged before. It
/// is exact on every history and every log, whether a run can have them or not. The log stands
/// oldest first, as `Store::log` hands it out.
///
/// # Errors
/// `Want` where there is no memory for what it keeps.
pub fn all_verdicts(
    alloc: Global,
    script: &Script,
    history: &History,
    log: &Entries,
) -> Result<Table<Uid, Verdicts>, Want>
    requires few_entries { length log.now < 2 ^ 32 }
    requires places { IsNumbered script.now history.now }
    ensures counts { IfOk result (λ rows. (job : Uid) → verdicts_at job rows
        ≡ verdicts_of (ledger_of job (deeds script.now history.now) (reverse log.now))) }
{
    let entries = log.as_slice();
    let places = places_of(alloc, entries)?;
    let books = filled(alloc, script, history.events.as_slice(), entries, &places)?;
    pods_are_judged_once();
    let rows = tallied(alloc, &books)?;
    Ok(rows)
}

/// What the ledger of one Job has counted, as `all_verdicts` says of each. It takes as long as that
/// of all: for more than one Job, call that.
///
/// # Errors
/// `Want` where there is no memory for what it keeps.
pub fn verdicts(
    alloc: Global,
    script: &Script,
    history: &History,
    log: &Entries,
    job: Uid,
) -> Result<Verdicts, Want>
    requires few_entries { length log.now < 2 ^ 32 }
    requires places { IsNumbered script.now history.now }
    ensures counts { IfOk result (λ v.
        v ≡ verdicts_of (ledger_of job (deeds script.now history.now) (reverse log.now))) }
{
    let rows = all_verdicts(alloc, script, history, log)?;
    Ok(verdicts_at(&rows, job))
}

/// The verdicts in the row of a Job; none where it has no row.
pub fn verdicts_at(rows: &Table<Uid, Verdicts>, job: Uid) -> Verdicts
    ensures { result ≡ verdicts_at job rows.now }
{
    match rows.get(&job) {
        Some(found) => *found,
        None => Verdicts {
            succeeded: 0,
            failed: 0,
            indexes: 0,
        },
    }
}
