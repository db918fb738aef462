//! The cache of Jobs.

ghost use Rattle.std.specs.Prelude.{◌≡◌, [], IfOk, None, OnErr, OnOk, Some};
ghost use Rattle.std.specs.Option.{option_copied};
ghost use Rattle.jc_types.specs.Keys.{same_key};
ghost use Rattle.jc_log.specs.Log.{jobs_after};
ghost use Rattle.jc_log.specs.Tables.{at};
ghost use Rattle.jc_cache.specs.Caches.{AreApart, IsNext, job_rows};

use jc_table::Table;
use jc_types::{Arc, Copied, Entry, Job, Jobs, Key, Version, Want};
use std::alloc::Global;
use std::marker::Model;

/// The Jobs as a controller knows them. A contract sees its number, or none, and its Jobs by key, in
/// the order in which their keys came.
#[derive(Drop)]
pub struct JobCache {
    alloc: Global,
    number: Option<Version>,
    jobs: Table<Key, Arc<Job>>,
}

impl Model for JobCache {
    ghost use Rattle.jc_cache.specs.Caches.{CachedJobs};

    ghost Value = { CachedJobs };

    ghost view = { λ c. record { number = c.number; jobs = c.jobs } };
}

// A table of the Jobs by key, in their order.
fn table_of(alloc: Global, jobs: &[Arc<Job>]) -> Result<Table<Key, Arc<Job>>, Want>
    requires { AreApart jobs.now }
    ensures { IfOk result (λ table. table ≡ job_rows jobs.now) }
{
    let mut table = Table::new(alloc);
    for job in jobs {
        table.put(job.key.copy()?, job.copy()?)?;
    }
    Ok(table)
}

// Takes one more entry in. One about a pod changes nothing.
//
// `Want` where there is no memory for it; the table is then as before.
fn take_in(table: &mut Table<Key, Arc<Job>>, entry: &Entry) -> Result<(), Want>
    ensures jobs { OnOk result (table.new ≡ jobs_after entry.now table.old) }
    ensures kept { OnErr result (table.new ≡ table.old) }
{
    match entry {
        Entry::JobPut(job) => table.put(job.key.copy()?, job.copy()?),
        Entry::JobGone(job) => {
            table.take(&job.key);
            Ok(())
        }
        Entry::PodPut(_) | Entry::PodGone(_) => Ok(()),
    }
}

// Copies of the rows, in their order.
fn copied_rows(alloc: Global, rows: &Table<Key, Arc<Job>>) -> Result<Table<Key, Arc<Job>>, Want>
    ensures { IfOk result (λ copies. copies ≡ rows.now) }
{
    let mut copies = Table::new(alloc);
    for (key, job) in rows.rows() {
        copies.put(key.copy()?, job.copy()?)?;
    }
    Ok(copies)
}

impl JobCache {
    /// The cache without a number and without Jobs. It takes no memory.
    pub fn empty(alloc: Global) -> JobCache
        ensures number { result.number ≡ None }
        ensures jobs { result.jobs ≡ [] }
    {
        JobCache {
            alloc,
            number: None,
            jobs: Table::new(alloc),
        }
    }

    /// The version up to which the cache has seen the log; `None` where it has no number.
    pub fn at(&self) -> Option<Version>
        ensures { result ≡ self.now.number }
    {
        self.number
    }

    /// The Job of the key; `None` exactly where the cache has none.
    pub fn job(&self, key: &Key) -> Option<&Arc<Job>>
        ensures { option_copied result ≡ at same_key self.now.jobs key.now }
    {
        self.jobs.get(key)
    }

    /// Fills the cache with what was listed at a version, in place of all that it had.
    ///
    /// # Errors
    /// `Want` where there is no memory for it; the cache is then as before.
    pub fn replace(&mut self, jobs: Jobs, at: Version) -> Result<(), Want>
        requires { AreApart jobs }
        ensures number { OnOk result (self.new.number ≡ Some at) }
        ensures jobs { OnOk result (self.new.jobs ≡ job_rows jobs) }
        ensures kept { OnErr result (self.new ≡ self.old) }
    {
        self.jobs = table_of(self.alloc, jobs.as_slice())?;
        self.number = Some(at);
        Ok(())
    }

    /// Takes the next entry of the log in. An entry about a pod moves the number alone.
    ///
    /// # Errors
    /// `Want` where there is no memory for it; the cache is then as before.
    pub fn deliver(&mut self, entry: &Entry, version: Version) -> Result<(), Want>
        requires { IsNext self.old.number version }
        ensures number { OnOk result (self.new.number ≡ Some version) }
        ensures jobs { OnOk result (self.new.jobs ≡ jobs_after entry.now self.old.jobs) }
        ensures kept { OnErr result (self.new ≡ self.old) }
    {
        take_in(&mut self.jobs, entry)?;
        self.number = Some(version);
        Ok(())
    }

    /// Forgets all Jobs and the number. It takes no memory.
    pub fn forget(&mut self)
        ensures number { self.new.number ≡ None }
        ensures jobs { self.new.jobs ≡ [] }
    {
        self.jobs.clear();
        self.number = None;
    }
}

impl Copied for JobCache {
    fn copy(&self) -> Result<Self, Want> {
        Ok(JobCache {
            alloc: self.alloc,
            number: self.number,
            jobs: copied_rows(self.alloc, &self.jobs)?,
        })
    }
}
