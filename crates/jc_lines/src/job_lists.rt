//! The Jobs of a report: in which order they stand, and their lines.

ghost use Rattle.std.specs.Prelude.{◌≡◌, ◌++◌, IfOk, OnOk, string_bytes};
ghost use Rattle.std.specs.BTreeMap.{insert_entry};
ghost use Rattle.jc_verdicts.specs.Books.{verdicts_at};
ghost use Rattle.jc_queue.specs.Delayed.{key_order};
ghost use Rattle.jc_lines.specs.Reports.{by_key, in_order, job_lines, jobs_text};

use crate::jobs::print_job;
use crate::summaries::print_verdicts;
use jc_ledger::Verdicts;
use jc_table::Table;
use jc_types::{Arc, Copied, Job, Jobs, Key, Uid, Want};
use jc_verdicts::verdicts_at;
use std::alloc::Global;
use std::collections::BTreeMap;

// Puts a copy of the Job at its key's place.
fn put_copy(rows: &mut BTreeMap<Key, Arc<Job>>, key: &Key, job: &Arc<Job>) -> Result<(), Want>
    ensures { OnOk result (rows.new.entries
        ≡ insert_entry key_order rows.old.entries key.now job.now) }
{
    rows.insert(key.copy()?, job.copy()?)?;
    Ok(())
}

// The Jobs by their keys, in ascending key.
fn ordered(alloc: Global, jobs: &Table<Key, Arc<Job>>) -> Result<BTreeMap<Key, Arc<Job>>, Want>
    ensures { IfOk result (λ rows. rows.entries ≡ by_key jobs.now) }
{
    let mut rows = BTreeMap::new(alloc);
    for row in jobs.rows().rev() {
        put_copy(&mut rows, &row.0, &row.1)?;
    }
    Ok(rows)
}

/// The Jobs in ascending key: by namespace and then by name, byte by byte.
///
/// # Errors
///
/// Want of memory.
pub fn in_order(alloc: Global, jobs: &Table<Key, Arc<Job>>) -> Result<Jobs, Want>
    ensures { IfOk result (λ list. list ≡ in_order jobs.now) }
{
    let rows = ordered(alloc, jobs)?;
    let mut list = Jobs::new(alloc);
    for job in rows.into_values() {
        list.push(job)?;
    }
    Ok(list)
}

// The two lines of a Job.
fn print_lines(
    out: &mut String,
    alloc: Global,
    rows: &Table<Uid, Verdicts>,
    job: &Job,
) -> Result<(), Want>
    ensures { OnOk result (string_bytes out.new
        ≡ string_bytes out.old ++ job_lines (λ j. verdicts_at j rows.now) job.now) }
{
    let found = verdicts_at(rows, job.uid);
    print_job(out, alloc, job)?;
    print_verdicts(
        out,
        alloc,
        job,
        found.succeeded,
        found.failed,
        found.indexes,
    )
}

/// The lines of the Jobs, where these rows have their verdicts.
///
/// # Errors
///
/// Want of memory.
pub fn jobs_text(
    alloc: Global,
    rows: &Table<Uid, Verdicts>,
    jobs: &[Arc<Job>],
) -> Result<String, Want>
    ensures { IfOk result (λ text. string_bytes text
        ≡ jobs_text (λ j. verdicts_at j rows.now) jobs.now) }
{
    let mut text = String::new(alloc);
    for job in jobs {
        print_lines(&mut text, alloc, rows, job)?;
    }
    Ok(text)
}
