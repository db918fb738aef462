//! The indexes that the pods of one owner hold.

ghost use Rattle.std.specs.Prelude.{◌≡◌, ◌+◌, ◌-◌, ◌<◌, ◌≤◌, ◌==◌, ℕ, [], OnErr, OnOk, false, if◌then◌else◌, nat_le, nat_lt, true};
ghost use Rattle.std.specs.List.{list_any};
ghost use Rattle.jc_states.specs.Held.{IsAscending, is_between, place_for, repeats, times};

use jc_types::Want;
use std::alloc::Global;
use std::collections::VecDeque;
use std::marker::Model;

/// The indexes that the pods of one owner hold, in ascending order and each as often as a pod holds it. A
/// contract sees this list.
#[derive(Drop)]
pub(crate) struct Held {
    // Pods mostly end in the order of their indexes, so that both ends are cheap.
    indexes: VecDeque<u32>,
    // How many of them are there once more.
    repeated: usize,
}

impl Model for Held {
    ghost use Rattle.std.specs.Prelude.{◌≡◌, ℕ, List};
    ghost use Rattle.jc_states.specs.Held.{IsAscending, repeats};

    ghost Value = { List ℕ };

    ghost view = { λ held. held.indexes.items };

    ghost invariant = { λ held. IsAscending held.indexes.items
        × (held.repeated ≡ repeats held.indexes.items) };
}

// The place of the first index that is at least this one, found by halving.
fn place_for(indexes: &VecDeque<u32>, n: u32) -> usize
    requires { IsAscending indexes.now.items }
    ensures { result ≡ place_for n indexes.now.items }
{
    indexes.partition_point(|index| *index < n)
}

// Whether the index is there, whose place this is.
fn is_there(indexes: &VecDeque<u32>, n: u32, place: usize) -> bool
    requires ascending { IsAscending indexes.now.items }
    requires place { place ≡ place_for n indexes.now.items }
    ensures { result ≡ nat_lt 0 (times n indexes.now.items) }
{
    place < indexes.len() && indexes[place] == n
}

// The least index from this one on that is not there, of indexes none of which is there twice; the end where
// there is none below it. It is found by halving: up to it the places grow as the indexes do.
fn end_of_run(indexes: &VecDeque<u32>, from: u32, end: u32) -> u32
    requires ascending { IsAscending indexes.now.items }
    requires once { repeats indexes.now.items ≡ 0 }
    requires range { from ≤ end }
    ensures above { from ≤ result }
    ensures within { result ≤ end }
    ensures held { (n : ℕ) → from ≤ n → n < result
        → list_any (is_between n n) indexes.now.items ≡ true }
    ensures free { result < end → list_any (is_between result result) indexes.now.items ≡ false }
{
    let place = place_for(indexes, from);
    let mut low = from;
    let mut high = end;
    'halving: while low < high {
        let middle = low + (high - low) / 2;
        let grown = place_for(indexes, middle + 1) - place;
        if grown == (middle + 1 - from) as usize {
            low = middle + 1;
        } else {
            high = middle;
        }
    }
    low
}

impl Held {
    /// No indexes. It takes no memory.
    pub(crate) fn new(alloc: Global) -> Self
        ensures { result ≡ [] }
    {
        Held {
            indexes: VecDeque::new(alloc),
            repeated: 0,
        }
    }

    /// Adds an index, once more if it is there.
    ///
    /// # Errors
    /// `Want` where there is no memory for it; the indexes are then as before.
    pub(crate) fn add(&mut self, n: u32) -> Result<(), Want>
        ensures adds { OnOk result ((m : ℕ) → times m self.new
            ≡ times m self.old + (if n == m then 1 else 0)) }
        ensures kept { OnErr result (self.new ≡ self.old) }
    {
        let place = place_for(&self.indexes, n);
        let again = is_there(&self.indexes, n, place);
        self.indexes.insert(place, n)?;
        self.repeated += usize::from(again);
        Ok(())
    }

    /// Takes an index out once, if it is there. It takes no memory.
    pub(crate) fn remove(&mut self, n: u32)
        ensures { (m : ℕ) → times m self.new ≡ times m self.old - (if n == m then 1 else 0) }
    {
        let place = place_for(&self.indexes, n);
        if !is_there(&self.indexes, n, place) {
            return;
        }
        self.indexes.remove(place);
        let still = is_there(&self.indexes, n, place);
        self.repeated -= usize::from(still);
    }

    /// Whether an index is there more than once.
    pub(crate) fn has_repeats(&self) -> bool
        ensures { result ≡ nat_lt 0 (repeats self.now) }
    {
        self.repeated > 0
    }

    /// Whether an index from the first up to the last is there.
    pub(crate) fn has_between(&self, first: u32, last: u32) -> bool
        ensures { result ≡ list_any (is_between first last) self.now }
    {
        let place = place_for(&self.indexes, first);
        place < self.indexes.len() && self.indexes[place] <= last
    }

    /// The least index from this one on that is not there; the end where there is none below it.
    pub(crate) fn first_absent(&self, from: u32, end: u32) -> u32
        requires { from ≤ end }
        ensures above { from ≤ result }
        ensures within { result ≤ end }
        ensures held { (n : ℕ) → from ≤ n → n < result
            → list_any (is_between n n) self.now ≡ true }
        ensures free { result < end → list_any (is_between result result) self.now ≡ false }
    {
        if self.repeated == 0 {
            return end_of_run(&self.indexes, from, end);
        }
        self.walk(from, end)
    }

    // The same where an index may be there twice. It goes over the indexes one after another.
    fn walk(&self, from: u32, end: u32) -> u32
        requires { from ≤ end }
        ensures above { from ≤ result }
        ensures within { result ≤ end }
        ensures held { (n : ℕ) → from ≤ n → n < result
            → list_any (is_between n n) self.now ≡ true }
        ensures free { result < end → list_any (is_between result result) self.now ≡ false }
    {
        for index in from..end {
            if !self.has_between(index, index) {
                return index;
            }
        }
        end
    }

    /// Whether an index from this one on is there.
    pub(crate) fn has_from(&self, first: u32) -> bool
        ensures { result ≡ list_any (λ n. nat_le first n) self.now }
    {
        place_for(&self.indexes, first) < self.indexes.len()
    }
}
