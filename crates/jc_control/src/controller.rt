//! The controller.

ghost use Rattle.std.specs.Prelude.{◌≡◌, [], IfOk, OnErr, OnOk, Some, is_some, slice_get, true, unwrap_or};
ghost use Rattle.std.specs.Option.{option_copied, option_map};
ghost use Rattle.jc_cache.specs.Caches.{AreApart, HasFewPods, HoldsByOwner, IsNext, job_rows};
ghost use Rattle.jc_control.specs.Schedules.{backoff_of, idle, number_of, unknown};
ghost use Rattle.jc_control.specs.ControllerCalls.{DeliversPods, TakesFirst, TakesKey, answered, basis_of, begun, can_begin, clocked, delivered, ended, followed, forgot, jobs_delivered, jobs_kept, kept_backoff, lag, later, listed_jobs};
ghost use Rattle.jc_control.specs.ControllerCalls.{listed_pods, noted, numbered, rows_after, rows_kept, taken};
ghost use Rattle.jc_queue.specs.Delayed.{HasOneMoment, first_of};
ghost use Rattle.jc_queue.specs.Queued.{IsQueue, has_key};
ghost use Rattle.jc_types.specs.Keys.{same_key};
ghost use Rattle.jc_states.specs.PodLists.{IsRising};
ghost use Rattle.jc_log.specs.Tables.{at, puts};

use crate::begins::{Begin, Lag, first_lag, later};
use crate::ends::{SyncEnd, delay, forgets_caches, take_supply};
use crate::queues::{move_due, told, with_jobs, with_owners};
use indexmap::IndexMap;
use jc_cache::{JobCache, PodCache};
use jc_moment::Moment;
use jc_queue::{Delays, Queue, Supply, Twice};
use jc_states::{Basis, Pods};
use jc_types::{Arc, Backoff, Copied, Entry, Job, Jobs, Key, Kind, Version, Want};
use std::alloc::Global;
use std::marker::Model;

/// What a controller knows of a key. A restart loses it.
#[derive(Drop)]
pub struct Known {
    /// The greatest version that an answer to a request for the key had; no sync of the key begins on
    /// caches that are behind it.
    pub floor: Version,
    pub backoff: Backoff,
}

/// What one controller knows.
#[derive(Drop)]
pub struct Controller {
    alloc: Global,
    jobs: JobCache,
    pods: PodCache,
    queue: Queue,
    delays: Delays,
    // A row for each key of which a sync has begun.
    known: IndexMap<Key, Known>,
    // The copies of each processing key that the end of its sync may need.
    supplies: Vec<Supply>,
}

impl Model for Controller {
    ghost use Rattle.jc_control.specs.Schedules.{ControllerView, IsProvided};

    ghost Value = { ControllerView };

    ghost view = { λ c. record {
      schedule = record {
        jobs_at = c.jobs.number;
        pods_at = c.pods.number;
        queue = c.queue.queue;
        delays = c.delays.delays;
        known = c.known.entries;
      };
      jobs = c.jobs.jobs;
      rows = c.pods.rows;
    } };

    // What an answer brings is kept with no memory. So end the syncs, and so come the keys that are due.
    ghost invariant = { λ c. IsProvided c.queue c.delays c.known.entries c.supplies.items };
}

impl Controller {
    /// A controller that knows nothing. It takes no memory.
    pub fn new(alloc: Global) -> Controller
        ensures schedule { result.schedule ≡ idle }
        ensures jobs { result.jobs ≡ [] }
        ensures rows { result.rows ≡ [] }
    {
        Controller {
            alloc,
            jobs: JobCache::empty(alloc),
            pods: PodCache::empty(alloc),
            queue: Queue::new(alloc),
            delays: Delays::new(alloc),
            known: IndexMap::new(alloc),
            supplies: Vec::new(alloc),
        }
    }

    /// Forgets all, as a process that starts anew. It takes no memory.
    pub fn restart(&mut self)
        ensures schedule { self.new.schedule ≡ idle }
        ensures jobs { self.new.jobs ≡ [] }
        ensures rows { self.new.rows ≡ [] }
    {
        *self = Controller::new(self.alloc);
    }

    /// The version up to which the cache of the kind has seen the log; `None` exactly where it has no number.
    pub fn at(&self, kind: Kind) -> Option<Version>
        ensures { result ≡ number_of kind self.now.schedule }
    {
        match kind {
            Kind::Jobs => self.jobs.at(),
            Kind::Pods => self.pods.at(),
        }
    }

    /// Fills the job cache with what was listed at a version, and adds the keys of the Jobs to the queue, in
    /// the order of the list (a reflector of client-go, that lists).
    ///
    /// # Errors
    /// `Want` where there is no memory for it; the list is then given up, and the controller is as before.
    pub fn list_jobs(&mut self, jobs: Jobs, at: Version) -> Result<(), Want>
        requires { AreApart jobs }
        ensures schedule { OnOk result (self.new.schedule ≡ listed_jobs self.old.schedule jobs at) }
        ensures jobs { OnOk result (self.new.jobs ≡ job_rows jobs) }
        ensures rows { OnOk result (self.new.rows ≡ self.old.rows) }
        ensures kept { OnErr result (self.new ≡ self.old) }
    {
        let queue = with_jobs(&self.queue, jobs.as_slice())?;
        self.jobs.replace(jobs, at)?;
        self.queue = queue;
        Ok(())
    }

    /// Fills the pod cache with what was listed at a version, and adds the keys of the pods' owners to the
    /// queue, in the order of the list.
    ///
    /// # Errors
    /// `Want` where there is no memory for it; the list is then given up, and the controller is as before.
    pub fn list_pods(&mut self, pods: Pods, at: Version) -> Result<(), Want>
        requires { IsRising pods }
        ensures schedule { OnOk result (self.new.schedule ≡ listed_pods self.old.schedule pods at) }
        ensures jobs { OnOk result (self.new.jobs ≡ self.old.jobs) }
        ensures pods { OnOk result (HoldsByOwner pods self.new.rows) }
        ensures kept { OnErr result (self.new ≡ self.old) }
    {
        let queue = with_owners(&self.queue, pods.as_slice())?;
        self.pods.replace(pods, at)?;
        self.queue = queue;
        Ok(())
    }

    /// Tells the cache of the kind of the next entry of the log. A Job entry adds its key to the queue where
    /// the job cache is told of it, and a pod entry the key of the pod's owner where the pod cache is; an
    /// entry of the other kind moves the cache's number alone. No owner has so many pods that one more could
    /// not be counted.
    ///
    /// # Errors
    /// `Want` where there is no memory for it; the controller is then as before.
    pub fn deliver(&mut self, kind: Kind, entry: &Entry, version: Version) -> Result<(), Want>
        requires next { IsNext (number_of kind self.old.schedule) version }
        requires few_pods { HasFewPods self.old.rows }
        ensures schedule { OnOk result
            (self.new.schedule ≡ delivered self.old.schedule kind entry.now version) }
        ensures jobs { OnOk result (self.new.jobs ≡ jobs_delivered kind entry.now self.old.jobs) }
        ensures pods { OnOk result (DeliversPods kind entry.now self.old.rows self.new.rows) }
        ensures kept { OnErr result (self.new ≡ self.old) }
    {
        let Some(key) = told(kind, entry) else {
            return self.tell(kind, entry, version);
        };
        // Most keys that come are dirty.
        if self.queue.is_dirty(key) {
            return self.tell(kind, entry, version);
        }
        self.queue.add_clean(key)?;
        if let Err(want) = self.tell(kind, entry, version) {
            self.queue.retract(key);
            return Err(want);
        }
        Ok(())
    }

    /// Forgets the cache of the kind: it must be listed anew. It takes no memory.
    pub fn forget(&mut self, kind: Kind)
        ensures schedule { self.new.schedule ≡ forgot self.old.schedule kind }
        ensures jobs { self.new.jobs ≡ jobs_kept kind self.old.jobs }
        ensures rows { self.new.rows ≡ rows_kept kind self.old.rows }
    {
        match kind {
            Kind::Jobs => self.jobs.forget(),
            Kind::Pods => self.pods.forget(),
        }
    }

    /// Moves the keys that are due from the delays to the queue, in the order in which they are due: by
    /// moment, and then by key. It takes no memory.
    pub fn clock(&mut self, now: Moment)
        ensures schedule { self.new.schedule ≡ clocked self.old.schedule now }
        ensures jobs { self.new.jobs ≡ self.old.jobs }
        ensures rows { self.new.rows ≡ self.old.rows }
    {
        move_due(&mut self.queue, &mut self.delays, now);
    }

    /// Whether the next begin starts a sync: both caches have numbers, the line is not empty, and neither
    /// cache is behind what the sync of its first key must know.
    pub fn ready(&self) -> bool
        ensures { result ≡ can_begin self.now }
    {
        let Some(jobs_at) = self.jobs.at() else {
            return false;
        };
        let Some(pods_at) = self.pods.at() else {
            return false;
        };
        let Some(key) = self.queue.first() else {
            return false;
        };
        self.lag(key, jobs_at, pods_at).is_none()
    }

    /// The first key of the line; `None` exactly where the line is empty.
    pub fn first(&self) -> Option<&Key>
        ensures { option_copied result ≡ slice_get self.now.schedule.queue.line 0 }
    {
        self.queue.first()
    }

    /// Makes the changes that wait of the pods of the line's first key, where no sync sees these pods any more
    /// and there is memory. It changes nothing that a contract sees: a member calls it before it begins a
    /// sync, so that the sync shares the pods and copies none.
    pub fn apply_pending(&mut self)
        ensures { self.new ≡ self.old }
    {
        if let Some(key) = self.queue.first() {
            self.pods.apply_pending(key);
        }
    }

    /// What a begin answers now: `NotSynced` exactly where a cache has no number, else `NoKey` exactly where
    /// the line is empty, else `Behind` exactly where a cache has not seen the log up to the key's floor, or
    /// the pod cache not up to the version of the cached Job, Jobs before Pods.
    ///
    /// # Errors
    /// `Want` where there is no memory for it.
    pub fn peek(&self, now: Moment) -> Result<Begin, Want>
        ensures { IfOk result (λ answer. answer ≡ (begun now self.now).answer) }
    {
        let Some(jobs_at) = self.jobs.at() else {
            return Ok(Begin::NotSynced);
        };
        let Some(pods_at) = self.pods.at() else {
            return Ok(Begin::NotSynced);
        };
        let Some(key) = self.queue.first() else {
            return Ok(Begin::NoKey);
        };
        let known = known_of(&self.known, key);
        let job = self.jobs.job(key);
        if let Some(lag) = first_lag(known.floor, job, jobs_at, pods_at) {
            return Ok(Begin::Behind {
                kind: lag.kind,
                need: lag.need,
                have: lag.have,
            });
        }
        let basis = self.basis(key, known.backoff, job, jobs_at, pods_at, now)?;
        Ok(Begin::Begun(basis))
    }

    /// Begins the sync of the first key of the line, and answers as `peek` does. A key for which a cache is
    /// behind goes to the line's end. `NotSynced` and `NoKey` change nothing. The memory that `answered`,
    /// `keep_backoff`, `end` and `clock` need is taken here.
    ///
    /// # Errors
    /// `Want` where there is no memory for it; the controller is then as before.
    pub fn begin(&mut self, now: Moment) -> Result<Begin, Want>
        ensures answer { IfOk result (λ answer. answer ≡ (begun now self.old).answer) }
        ensures schedule { OnOk result (self.new.schedule ≡ (begun now self.old).schedule) }
        ensures taken { IfOk result (λ answer.
            TakesKey answer self.old.schedule.queue.processing self.new.schedule.queue.processing) }
        ensures jobs { OnOk result (self.new.jobs ≡ self.old.jobs) }
        ensures rows { OnOk result (self.new.rows ≡ self.old.rows) }
        ensures kept { OnErr result (self.new ≡ self.old) }
    {
        let answer = self.peek(now)?;
        self.begin_as(now, &answer)?;
        Ok(answer)
    }

    /// Begins a sync as `peek` has answered at this moment, without asking anew.
    ///
    /// # Errors
    /// `Want` where there is no memory for it; the controller is then as before.
    pub fn begin_as(&mut self, now: Moment, answer: &Begin) -> Result<(), Want>
        requires foreseen { answer.now ≡ (begun now self.old).answer }
        ensures schedule { OnOk result (self.new.schedule ≡ (begun now self.old).schedule) }
        ensures taken { OnOk result (TakesKey answer.now self.old.schedule.queue.processing
            self.new.schedule.queue.processing) }
        ensures jobs { OnOk result (self.new.jobs ≡ self.old.jobs) }
        ensures rows { OnOk result (self.new.rows ≡ self.old.rows) }
        ensures kept { OnErr result (self.new ≡ self.old) }
    {
        self.facts();
        self.follow(answer)
    }

    /// Takes note that a request for the key was answered with the version: its floor becomes the greater of
    /// both. It takes no memory.
    pub fn answered(&mut self, key: &Key, version: Version)
        requires processing { has_key key.now self.old.schedule.queue.processing ≡ true }
        ensures schedule { self.new.schedule ≡ answered self.old.schedule key.now version }
        ensures queue { self.new.schedule.queue ≡ self.old.schedule.queue }
        ensures jobs { self.new.jobs ≡ self.old.jobs }
        ensures rows { self.new.rows ≡ self.old.rows }
    {
        raise_floor(&mut self.known, key, version);
    }

    /// Keeps the backoff of the key in place of its old one. It takes no memory.
    pub fn keep_backoff(&mut self, key: &Key, backoff: Backoff)
        requires processing { has_key key.now self.old.schedule.queue.processing ≡ true }
        ensures schedule { self.new.schedule ≡ kept_backoff self.old.schedule key.now backoff }
        ensures queue { self.new.schedule.queue ≡ self.old.schedule.queue }
        ensures jobs { self.new.jobs ≡ self.old.jobs }
        ensures rows { self.new.rows ≡ self.old.rows }
    {
        put_backoff(&mut self.known, key, backoff);
    }

    /// Ends the sync of the key. It is done. After `Retry` and `Unavailable` it has failed once more, and is
    /// due after a while; after `Ended` and `Gone` its failures are forgotten, and it is due at the moment
    /// that `Ended` gives. `Unavailable` also forgets both caches. It takes no memory.
    pub fn end(&mut self, key: &Key, end: SyncEnd, now: Moment)
        requires processing { has_key key.now self.old.schedule.queue.processing ≡ true }
        ensures schedule { self.new.schedule ≡ ended self.old.schedule key.now end now }
        ensures jobs { self.new.jobs ≡ rows_after end self.old.jobs }
        ensures rows { self.new.rows ≡ rows_after end self.old.rows }
    {
        let _waiting = self.queue.len();
        let supply = take_supply(&mut self.supplies, key);
        delay(&mut self.delays, key, supply, &end, now);
        self.queue.done(key);
        if forgets_caches(&end) {
            self.jobs.forget();
            self.pods.forget();
        }
    }

    /// The earliest moment at which a key is due; `None` exactly where no key is delayed.
    pub fn next_moment(&self) -> Option<Moment>
        ensures { result ≡ option_map (λ row. row.1) (first_of self.now.schedule.delays.moments) }
    {
        self.delays.next_moment()
    }

    /// What holds of each controller: its queue is one, and no key has two moments.
    pub fn facts(&self)
        ensures queue { IsQueue self.now.schedule.queue }
        ensures delays { HasOneMoment self.now.schedule.delays }
    {
        let _waiting = self.queue.len();
        let _delayed = self.delays.len();
    }

    // Does what the answer of a begin says.
    //
    // `Want` where there is no memory for it; the controller is then as before.
    fn follow(&mut self, answer: &Begin) -> Result<(), Want>
        requires first { TakesFirst answer.now self.old.schedule.queue.line }
        ensures schedule { OnOk result (self.new.schedule ≡ followed self.old.schedule answer.now) }
        ensures jobs { OnOk result (self.new.jobs ≡ self.old.jobs) }
        ensures rows { OnOk result (self.new.rows ≡ self.old.rows) }
        ensures kept { OnErr result (self.new ≡ self.old) }
    {
        match answer {
            Begin::NotSynced | Begin::NoKey => Ok(()),
            Begin::Behind { .. } => {
                self.queue.send_back();
                Ok(())
            }
            Begin::Begun(basis) => self.take_first(&basis.key),
        }
    }

    // Takes the first key of the line for its sync, and the memory that the sync needs besides.
    //
    // `Want` where there is no memory for it; the controller is then as before.
    fn take_first(&mut self, key: &Key) -> Result<(), Want>
        requires first { Some key.now ≡ slice_get self.old.schedule.queue.line 0 }
        ensures schedule { OnOk result (self.new.schedule ≡ taken self.old.schedule key.now) }
        ensures jobs { OnOk result (self.new.jobs ≡ self.old.jobs) }
        ensures rows { OnOk result (self.new.rows ≡ self.old.rows) }
        ensures kept { OnErr result (self.new ≡ self.old) }
    {
        let syncs = self.queue.processing() + 1;
        self.queue.reserve(self.delays.len() + syncs)?;
        self.delays.reserve(syncs)?;
        let twice = Twice::of(key)?;
        self.supplies.reserve(1)?;
        add_known(&mut self.known, key)?;
        let Some(got) = self.queue.get() else {
            unreachable!()
        };
        self.supplies.push_reserved(Supply::with(got, twice));
        Ok(())
    }

    // Tells the cache of the kind of the next entry of the log.
    //
    // `Want` where there is no memory for it; the controller is then as before.
    #[inline(always)]
    fn tell(&mut self, kind: Kind, entry: &Entry, version: Version) -> Result<(), Want>
        requires next { IsNext (number_of kind self.old.schedule) version }
        requires few_pods { HasFewPods self.old.rows }
        ensures schedule { OnOk result
            (self.new.schedule ≡ numbered self.old.schedule kind (Some version)) }
        ensures jobs { OnOk result (self.new.jobs ≡ jobs_delivered kind entry.now self.old.jobs) }
        ensures pods { OnOk result (DeliversPods kind entry.now self.old.rows self.new.rows) }
        ensures kept { OnErr result (self.new ≡ self.old) }
    {
        match kind {
            Kind::Jobs => self.jobs.deliver(entry, version),
            Kind::Pods => self.pods.deliver(entry, version),
        }
    }

    // The first cache that is behind what the next sync of the key must know.
    fn lag(&self, key: &Key, jobs_at: Version, pods_at: Version) -> Option<Lag>
        ensures { result ≡ lag key.now self.now jobs_at pods_at }
    {
        let floor = known_of(&self.known, key).floor;
        first_lag(floor, self.jobs.job(key), jobs_at, pods_at)
    }

    // What a sync of the key starts from, whose backoff and cached Job were looked up.
    fn basis(
        &self,
        key: &Key,
        backoff: Backoff,
        job: Option<&Arc<Job>>,
        jobs_at: Version,
        pods_at: Version,
        now: Moment,
    ) -> Result<Arc<Basis>, Want>
        requires backoff { backoff ≡ backoff_of key.now self.now.schedule }
        requires job { option_copied job ≡ at same_key self.now.jobs key.now }
        ensures { IfOk result (λ basis. basis ≡ basis_of now self.now jobs_at pods_at key.now) }
    {
        let job = match job {
            None => None,
            Some(job) => Some(job.copy()?),
        };
        let basis = Basis {
            key: key.copy()?,
            job,
            pods: self.pods.pods_of(key)?,
            jobs_at,
            pods_at,
            now,
            backoff,
        };
        Arc::new(self.alloc, basis)
    }
}

// The backoff of a key that has not failed.
fn no_failures() -> Backoff
    ensures { result ≡ unknown.backoff }
{
    Backoff {
        failures: 0,
        last: None,
    }
}

// What is known of the key.
#[inline(always)]
fn known_of(rows: &IndexMap<Key, Known>, key: &Key) -> Known
    ensures { result ≡ unwrap_or (at same_key rows.now.entries key.now) unknown }
{
    match rows.get(key) {
        None => Known {
            floor: Version(0),
            backoff: no_failures(),
        },
        Some(known) => Known {
            floor: known.floor,
            backoff: known.backoff,
        },
    }
}

// Puts a row for the key, where it has none.
//
// `Want` where there is no memory for it; the rows are then as before.
fn add_known(rows: &mut IndexMap<Key, Known>, key: &Key) -> Result<(), Want>
    ensures noted { OnOk result (rows.new.entries ≡ noted rows.old.entries key.now) }
    ensures kept { OnErr result (rows.new.entries ≡ rows.old.entries) }
{
    if rows.contains_key(key) {
        return Ok(());
    }
    let unknown = Known {
        floor: Version(0),
        backoff: no_failures(),
    };
    rows.insert(key.copy()?, unknown)?;
    Ok(())
}

// Makes the floor of the key, which has a row, the later of itself and the version.
fn raise_floor(rows: &mut IndexMap<Key, Known>, key: &Key, version: Version)
    requires { is_some (at same_key rows.old.entries key.now) ≡ true }
    ensures { rows.new.entries ≡ puts same_key rows.old.entries key.now (record {
      floor = later (unwrap_or (at same_key rows.old.entries key.now) unknown).floor version;
      backoff = (unwrap_or (at same_key rows.old.entries key.now) unknown).backoff;
    }) }
{
    let Some(known) = rows.get_mut(key) else {
        unreachable!()
    };
    known.floor = later(known.floor, version);
}

// Puts the backoff of the key, which has a row, in place of its old one.
fn put_backoff(rows: &mut IndexMap<Key, Known>, key: &Key, backoff: Backoff)
    requires { is_some (at same_key rows.old.entries key.now) ≡ true }
    ensures { rows.new.entries ≡ puts same_key rows.old.entries key.now (record {
      floor = (unwrap_or (at same_key rows.old.entries key.now) unknown).floor;
      backoff = backoff;
    }) }
{
    let Some(known) = rows.get_mut(key) else {
        unreachable!()
    };
    known.backoff = backoff;
}
