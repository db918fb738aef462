//! The delays of keys: at most one moment a key, and a count of failures a key.

ghost use Rattle.std.specs.Prelude.{◌≡◌, ◌+◌, ◌^◌, ◌<◌, ◌≤◌, [], OnErr, OnOk, length, max, min, slice_get, unwrap_or};
ghost use Rattle.std.specs.Map.Iter.{deref_pair};
ghost use Rattle.std.specs.Option.{option_map};
ghost use Rattle.indexmap.specs.IndexMap.{IsUnique, spare};
ghost use Rattle.indexmap.specs.IndexSet.{spare as set_spare};
ghost use Rattle.jc_types.specs.declared.objects.KeyNames.{KeyNames as Key};
ghost use Rattle.jc_types.specs.Keys.{same_key};
ghost use Rattle.jc_log.specs.Tables.{at};
ghost use Rattle.jc_queue.specs.Delayed.{AreCopied, HasOneMoment, at_with_moment, delayed, due_key, earlier, first_of, forgotten, is_before, least_moment, left_by, retried, row_at, seconds_after, sooner, with_moment};

use crate::copied::{copied_rows, copied_set};
use crate::copies::{Supply, Twice, places};
use indexmap::{IndexMap, IndexSet};
use jc_moment::Moment;
use jc_types::{Copied, Key, Want};
use std::alloc::Global;
use std::marker::Model;

/// The most failures in a row that are counted.
const MOST_FAILURES: u32 = 7;

/// The most seconds to wait after a failure.
const MOST_SECONDS: u64 = 60;

/// The moments at which keys are due, and how often in a row each key has failed. A contract sees them
/// beside their room: so many more keys they take with no memory, and so many more failures.
#[derive(Drop)]
pub struct Delays {
    moments: IndexMap<Key, Moment>,
    // A second copy of each key that has a moment, so that a queue takes it with no memory.
    copies: IndexSet<Key>,
    failures: IndexMap<Key, u32>,
    // Read at each clock event: the table is looked through only where a key is due.
    least: Option<Moment>,
    room: usize,
}

impl Model for Delays {
    ghost use Rattle.std.specs.Prelude.{◌≡◌, ◌≤◌};
    ghost use Rattle.indexmap.specs.IndexMap.{spare};
    ghost use Rattle.indexmap.specs.IndexSet.{spare as set_spare};
    ghost use Rattle.jc_queue.specs.Delayed.{AreCopied, RoomedDelays, least_moment};

    ghost Value = { RoomedDelays };

    ghost view = { λ d. record {
      delays = record { moments = d.moments.entries; failures = d.failures.entries };
      room = d.room;
    } };

    ghost invariant = { λ d. AreCopied d.moments.entries d.copies.keys
        × (d.room ≤ spare d.moments)
        × (d.room ≤ set_spare d.copies)
        × (d.room ≤ spare d.failures)
        × (d.least ≡ least_moment d.moments.entries) };
}

impl Delays {
    /// No delays. It takes no memory.
    pub fn new(alloc: Global) -> Self
        ensures delays { result.delays ≡ record { moments = []; failures = [] } }
        ensures room { result.room ≡ 0 }
    {
        Delays {
            moments: IndexMap::new(alloc),
            copies: IndexSet::new(alloc),
            failures: IndexMap::new(alloc),
            least: None,
            room: 0,
        }
    }

    /// Makes room for so many more keys and failures, where there is less.
    ///
    /// # Errors
    /// `Want` where there is no memory for it; the delays and their room are then as before.
    pub fn reserve(&mut self, room: usize) -> Result<(), Want>
        ensures delays { self.new.delays ≡ self.old.delays }
        ensures room { OnOk result (self.new.room ≡ max self.old.room room) }
        ensures kept { OnErr result (self.new ≡ self.old) }
    {
        if room <= self.room {
            return Ok(());
        }
        self.moments.reserve(room)?;
        self.copies.reserve(room)?;
        self.failures.reserve(room)?;
        self.room = room;
        Ok(())
    }

    /// Makes the key due at the moment; of two moments of a key the earlier is kept.
    ///
    /// # Errors
    /// `Want` where there is no memory for it; the delays are then as before.
    pub fn add_after(&mut self, key: &Key, moment: Moment) -> Result<(), Want>
        ensures delayed { OnOk result (self.new.delays ≡ delayed self.old.delays key.now moment) }
        ensures room { self.new.room ≡ self.old.room }
        ensures kept { OnErr result (self.new ≡ self.old) }
    {
        let twice = Twice::of(key)?;
        self.reserve(places(self.room, 1)?)?;
        self.delay(twice, moment);
        Ok(())
    }

    /// Makes the key due as `add_after` does, in the room that there is. It takes no memory.
    pub fn delay(&mut self, key: Twice, moment: Moment)
        requires room { 0 < self.old.room }
        ensures delayed { self.new.delays ≡ delayed self.old.delays key moment }
        ensures room { self.new.room + 1 ≡ self.old.room }
    {
        self.room -= 1;
        put_moment(
            &mut self.moments,
            &mut self.copies,
            &mut self.least,
            key,
            moment,
        );
    }

    /// Counts one more failure of the key, and makes it due 1 second after `now`, or twice as long after
    /// each further failure, and at most 60 seconds. Past the last moment it is not made due.
    ///
    /// # Errors
    /// `Want` where there is no memory for it; the delays are then as before.
    pub fn retry(&mut self, key: &Key, now: Moment) -> Result<(), Want>
        ensures retried { OnOk result (self.new.delays ≡ retried self.old.delays key.now now) }
        ensures room { self.new.room ≡ self.old.room }
        ensures kept { OnErr result (self.new ≡ self.old) }
    {
        let supply = Supply::of(key)?;
        self.reserve(places(self.room, 1)?)?;
        self.fail(supply, now);
        Ok(())
    }

    /// Counts one more failure of the key as `retry` does, in the room that there is. It takes no memory.
    pub fn fail(&mut self, key: Supply, now: Moment)
        requires room { 0 < self.old.room }
        ensures retried { self.new.delays ≡ retried self.old.delays key now }
        ensures room { self.new.room + 1 ≡ self.old.room }
    {
        let (failed, delayed) = key.into_parts();
        let count = count_after(&self.failures, &failed);
        self.room -= 1;
        let Ok(_) = self.failures.insert(failed, count) else {
            unreachable!()
        };
        if let Some(moment) = now.plus(seconds_after(count)) {
            put_moment(
                &mut self.moments,
                &mut self.copies,
                &mut self.least,
                delayed,
                moment,
            );
        }
    }

    /// Forgets the failures of the key; its moment stays. It takes no memory.
    #[inline(always)]
    pub fn forget(&mut self, key: &Key)
        ensures forgotten { self.new.delays ≡ forgotten self.old.delays key.now }
        ensures room { self.new.room ≡ self.old.room }
    {
        // Mostly no key has failed.
        if self.failures.is_empty() {
            return;
        }
        self.failures.shift_remove(key);
    }

    /// Takes out the key that is due first, of the keys of one moment the least; `None` exactly where no
    /// moment is at or before `now`.
    pub fn due(&mut self, now: Moment) -> Option<Key>
        ensures key { result ≡ due_key self.old.delays now }
        ensures left { self.new.delays ≡ left_by self.old.delays result }
        ensures room { self.new.room ≡ self.old.room }
    {
        let (key, _) = self.take_due(now)?.into_keys();
        Some(key)
    }

    /// Takes out the key that is due first, as `due` does, in the copies that a queue needs. It takes no
    /// memory.
    pub fn take_due(&mut self, now: Moment) -> Option<Twice>
        ensures key { result ≡ due_key self.old.delays now }
        ensures left { self.new.delays ≡ left_by self.old.delays result }
        ensures room { self.new.room ≡ self.old.room }
    {
        if self.least? > now {
            return None;
        }
        let place = first_place(&self.moments)?;
        let (key, _) = self.moments.shift_remove_index(place)?;
        let Some(again) = self.copies.swap_take(&key) else {
            unreachable!()
        };
        self.least = least(&self.moments);
        Some(Twice::join(key, again))
    }

    /// The number of keys that are delayed.
    pub fn len(&self) -> usize
        ensures count { result ≡ length self.now.delays.moments }
        ensures small { result < 2 ^ 63 }
        ensures once { HasOneMoment self.now.delays }
    {
        self.moments.len()
    }

    /// The earliest moment; `None` exactly where no key is delayed. No key has two moments.
    pub fn next_moment(&self) -> Option<Moment>
        ensures moment { result ≡ option_map (λ row. row.1) (first_of self.now.delays.moments) }
        ensures once { HasOneMoment self.now.delays }
    {
        let _delayed = self.moments.len();
        self.least
    }
}

impl Copied for Delays {
    fn copy(&self) -> Result<Delays, Want> {
        let alloc = *self.moments.allocator();
        let mut moments = copied_rows(alloc, &self.moments)?;
        let mut copies = copied_set(alloc, self.copies.as_slice())?;
        let mut failures = copied_rows(alloc, &self.failures)?;
        moments.reserve(self.room)?;
        copies.reserve(self.room)?;
        failures.reserve(self.room)?;
        Ok(Delays {
            moments,
            copies,
            failures,
            least: self.least,
            room: self.room,
        })
    }
}

// The count of the key with one more failure.
fn count_after(failures: &IndexMap<Key, u32>, key: &Key) -> u32
    ensures count { result ≡ min (unwrap_or (at same_key failures.now.entries key.now) 0 + 1) 7 }
    ensures small { result ≤ 7 }
{
    let count = match failures.get(key) {
        Some(count) => *count,
        None => 0,
    };
    if count < MOST_FAILURES {
        count + 1
    } else {
        MOST_FAILURES
    }
}

// Makes the key due at the moment, and keeps its second copy and the least moment.
fn put_moment(
    moments: &mut IndexMap<Key, Moment>,
    copies: &mut IndexSet<Key>,
    least: &mut Option<Moment>,
    key: Twice,
    moment: Moment,
)
    requires moments_room { 0 < spare moments.old }
    requires copies_room { 0 < set_spare copies.old }
    ensures earlier { moments.new.entries ≡ with_moment moments.old.entries key moment }
    ensures copied { AreCopied moments.old.entries copies.old.keys →
        AreCopied moments.new.entries copies.new.keys }
    ensures least { least.old ≡ least_moment moments.old.entries →
        least.new ≡ least_moment moments.new.entries }
    ensures moments_left { spare moments.old ≤ spare moments.new + 1 }
    ensures copies_left { set_spare copies.old ≤ set_spare copies.new + 1 }
{
    let (key, again) = key.into_keys();
    let Ok(_) = copies.insert(again) else {
        unreachable!()
    };
    put_earlier(moments, key, moment);
    *least = Some(earlier(*least, moment));
}

// Keeps the moment for the key; of two moments of a key the earlier.
fn put_earlier(moments: &mut IndexMap<Key, Moment>, key: Key, moment: Moment)
    requires room { 0 < spare moments.old }
    ensures earlier { moments.new.entries ≡ with_moment moments.old.entries key moment }
    ensures there { (k : Key) →
        at same_key moments.new.entries k ≡ at_with_moment moments.old.entries key moment k }
    ensures room { spare moments.old ≤ spare moments.new + 1 }
{
    let kept = earlier(moments.get(&key).copied(), moment);
    let Ok(_) = moments.insert(key, kept) else {
        unreachable!()
    };
}

// The moment, or the one that is there already where that is earlier.
fn earlier(there: Option<Moment>, moment: Moment) -> Moment
    ensures { result ≡ earlier there moment }
{
    match there {
        Some(there) if there < moment => there,
        _ => moment,
    }
}

// The least moment of all rows.
fn least(rows: &IndexMap<Key, Moment>) -> Option<Moment>
    ensures { result ≡ least_moment rows.now.entries }
{
    let place = first_place(rows)?;
    let (_, moment) = rows.get_index(place)?;
    Some(*moment)
}

// The place of the row that is due first.
fn first_place(rows: &IndexMap<Key, Moment>) -> Option<usize>
    ensures first { row_at rows.now.entries result ≡ first_of rows.now.entries }
    ensures unique { IsUnique same_key rows.now }
{
    let mut first = None;
    for place in (0..rows.len()).rev() {
        first = Some(sooner_place(rows, place, first));
    }
    first
}

// Of a place and another, where there is one, that of the row that is due first.
fn sooner_place(rows: &IndexMap<Key, Moment>, place: usize, other: Option<usize>) -> usize
    ensures { slice_get rows.now.entries result ≡
        option_map (λ row. sooner row (row_at rows.now.entries other))
        (slice_get rows.now.entries place) }
{
    let Some(other) = other else {
        return place;
    };
    match (rows.get_index(place), rows.get_index(other)) {
        (Some(row), Some(other_row)) if is_before(other_row, row) => other,
        _ => place,
    }
}

// Whether the row on the left is due before the one on the right.
fn is_before(left: (&Key, &Moment), right: (&Key, &Moment)) -> bool
    ensures { result ≡ is_before (deref_pair left.entry) (deref_pair right.entry) }
{
    *left.1 < *right.1 || *left.1 == *right.1 && left.0.cmp(right.0).is_lt()
}

// The seconds to wait after this many failures in a row.
fn seconds_after(failures: u32) -> u64
    requires { failures ≤ 7 }
    ensures { result ≡ seconds_after failures }
{
    2_u64.pow(failures.saturating_sub(1)).min(MOST_SECONDS)
}
