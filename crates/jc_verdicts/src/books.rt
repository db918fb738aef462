//! The books of the Jobs: what is kept of their ledgers after the first events of a history.

ghost use Rattle.std.specs.Prelude.{◌≡◌, ◌++◌, ℕ, [], OnOk, Some, reverse};
ghost use Rattle.std.specs.Option.{option_or};
ghost use Rattle.jc_types.specs.declared.numbers.Uid.{Uid};
ghost use Rattle.jc_types.specs.Keys.{same_uid};
ghost use Rattle.jc_log.specs.Tables.{at};
ghost use Rattle.jc_verdicts.specs.Books.{AreCounts, AreBooksOf, IsBookOf};
ghost use Rattle.jc_ledger.specs.Ledger.{Ledger, judged_by};
ghost use Rattle.jc_verdicts.specs.LogPlaces.{ArePlaces};
ghost use Rattle.jc_verdicts.specs.Verdicts.{EndsAt, done_once_seen, fresh_rows, outcome_in};

use crate::by_uid::places_under;
use crate::places::Places;
use crate::rows::{add_outcomes, new_rows, take_successes};
use crate::seen::look;
use indexmap::IndexMap;
use jc_account::Judgement as Row;
use jc_failpol::Outcome;
use jc_types::{Arc, Entry, Job, Pod, Uid, Want};
use std::alloc::Global;

/// What is kept of a Job: its judged pods, the indexes of the successes, and those of its pods among
/// the first entries of the log at which a write may have to look.
#[derive(Drop)]
pub struct Book {
    pub rows: Vec<Row>,
    /// What the pods of the UIDs were judged.
    pub known: IndexMap<Uid, Outcome>,
    /// No pod of a greater UID was judged.
    pub last: Uid,
    pub done: Vec<u32>,
    /// In ascending UID.
    pub pods: Vec<Arc<Pod>>,
    /// From how many of the places of its list the pods were taken.
    pub at: usize,
}

/// The book of a Job of which nothing was judged.
fn empty(alloc: Global) -> Book
    ensures rows { result.rows.items ≡ [] }
    ensures known { result.known.entries ≡ [] }
    ensures last { result.last ≡ record { 0 = 0 } }
    ensures done { result.done.items ≡ [] }
    ensures pods { result.pods.items ≡ [] }
    ensures at { result.at ≡ 0 }
{
    Book {
        rows: Vec::new(alloc),
        known: IndexMap::new(alloc),
        last: Uid(0),
        done: Vec::new(alloc),
        pods: Vec::new(alloc),
        at: 0,
    }
}

/// Enters new rows, and what they say the pods were judged. Most writes judge none.
fn enter(
    rows: &mut Vec<Row>,
    known: &mut IndexMap<Uid, Outcome>,
    last: &mut Uid,
    new: &[Row],
) -> Result<(), Want>
    requires { EndsAt last.old (at same_uid known.old.entries) }
    ensures rows { OnOk result (rows.new.items ≡ rows.old.items ++ new.now) }
    ensures known { OnOk result ((u : Uid) → at same_uid known.new.entries u
        ≡ option_or (at same_uid known.old.entries u) (outcome_in new.now u)) }
    ensures last { OnOk result (EndsAt last.new (at same_uid known.new.entries)) }
{
    if new.is_empty() {
        return Ok(());
    }
    rows.extend_from_slice(new)?;
    add_outcomes(known, last, new)
}

/// Judges the pods of a Job, as they stood among the first entries that the sync saw.
fn judge(
    alloc: Global,
    book: &mut Book,
    job: &Job,
    log: &[Entry],
    places: &Places,
    seen: u32,
) -> Result<(), Want>
    requires places { ArePlaces (reverse log.now) places.now }
    requires sound { IsBookOf job.now.uid log.now book.old }
    ensures rows { OnOk result (book.new.rows.items
        ≡ book.old.rows.items ++ fresh_rows job.now book.old.rows.items log.now seen) }
    ensures done { OnOk result (book.new.done.items
        ≡ done_once_seen job.now book.old.rows.items book.old.done.items log.now seen) }
    ensures sound { OnOk result (IsBookOf job.now.uid log.now book.new) }
{
    let own = places_under(&places.pods, job.uid);
    book.at = look(
        &mut book.pods,
        &book.known,
        book.at,
        job.uid,
        log,
        own,
        seen,
    )?;
    let pods = book.pods.as_slice();
    let new = new_rows(alloc, &job.spec, &book.known, book.last, pods)?;
    take_successes(&mut book.done, job, &book.known, pods)?;
    let fresh = new.as_slice();
    enter(&mut book.rows, &mut book.known, &mut book.last, fresh)?;
    Ok(())
}

/// Judges the pods of a Job, in the Job's book, which is changed where it stands.
pub fn judge_in(
    alloc: Global,
    books: &mut IndexMap<Uid, Book>,
    job: &Job,
    log: &[Entry],
    places: &Places,
    seen: u32,
) -> Result<(), Want>
    requires places { ArePlaces (reverse log.now) places.now }
    requires sound { AreBooksOf log.now books.old.entries }
    ensures sound { OnOk result (AreBooksOf log.now books.new.entries) }
    ensures counts { OnOk result ((ledgers : Uid → Ledger) (version : ℕ)
        → AreCounts ledgers books.old.entries
        → AreCounts
        (λ j. judged_by j (reverse log.now)
        (Some (record { job = job.now; seen = seen; at = version })) (ledgers j))
        books.new.entries) }
{
    if let Some(book) = books.get_mut(&job.uid) {
        judge(alloc, book, job, log, places, seen)?;
        return Ok(());
    }
    let mut book = empty(alloc);
    judge(alloc, &mut book, job, log, places, seen)?;
    books.insert(job.uid, book)?;
    Ok(())
}
