//! The set and its members.
ghost use Rattle.std.specs.Prelude.{◌≡◌, ◌+◌, ◌≤◌, ◌↔◌, ℕ, ◌||◌, ◌==◌, List, [], length, not, true, IfOk, OnOk, OnErr, IsTrue, slice_get};
ghost use Rattle.std.specs.List.{AllByRecursion, flat_map};
ghost use Rattle.jc_ranges.specs.Sets.{IsSet, has, with_member, count_below, IsFirstMissing};
ghost use Rattle.jc_ranges.specs.Texts.{numbers, StandApart};

use crate::Want;
use crate::bounds::GREATEST_INDEX;
use crate::runs::{Run, count_under, is_at, number_at, place_of_number, same_runs};
use crate::shared::SharedRuns;
use std::alloc::Global;
use std::marker::Model;

/// A set of whole numbers from 0 to `GREATEST_INDEX`, kept as maximal runs of consecutive numbers:
/// a set of few runs takes little memory. Its copies share its memory.
///
/// A contract sees the members, in increasing order.
#[derive(Drop)]
pub struct Ranges {
    runs: SharedRuns,
    count: u32,
}

impl Model for Ranges {
    ghost use Rattle.std.specs.Prelude.{ℕ, List};
    ghost use Rattle.std.specs.List.{flat_map};
    ghost use Rattle.jc_ranges.specs.Texts.{numbers};
    ghost use Rattle.jc_ranges.specs.Runs.{AreCounted};

    ghost Value = { List ℕ };

    ghost view = { λ r. flat_map numbers r.runs };

    ghost invariant = { λ r. AreCounted r.runs r.count };
}

impl Ranges {
    /// The empty set. It takes no memory.
    pub fn new(alloc: Global) -> Ranges
        ensures { result ≡ [] }
    {
        Ranges {
            runs: SharedRuns::new(alloc),
            count: 0,
        }
    }

    /// Puts `n` into the set, and tells whether it was new.
    ///
    /// # Errors
    ///
    /// `Want`: memory was refused.
    pub fn insert(&mut self, n: u32) -> Result<bool, Want>
        requires { n ≤ GREATEST_INDEX }
        ensures fresh { IfOk result (λ fresh. fresh ≡ not (has n self.old)) }
        ensures members { OnOk result (self.new ≡ with_member n self.old) }
        ensures holds { OnOk result ((m : ℕ) → has m self.new ≡ (m == n || has m self.old)) }
        ensures kept { OnErr result (self.new ≡ self.old) }
    {
        let place = place_of_number(self.runs.as_slice(), n);
        if is_at(self.runs.as_slice(), place, n) {
            return Ok(false);
        }
        self.runs.put(place, n)?;
        self.count += 1;
        Ok(true)
    }

    /// Whether `n` is a member.
    pub fn contains(&self, n: u32) -> bool
        ensures member { result ≡ has n self.now }
        ensures set { IsSet self.now }
    {
        let runs = self.runs.as_slice();
        is_at(runs, place_of_number(runs, n), n)
    }

    /// The members as runs of consecutive numbers, of which no two touch, in increasing order.
    pub fn runs(&self) -> &[Run]
        ensures { flat_map numbers result.now ≡ self.now }
    {
        self.runs.as_slice()
    }

    /// How many members there are.
    pub fn len(&self) -> u32
        ensures count { result ≡ length self.now }
        ensures few_items { result ≤ GREATEST_INDEX + 1 }
        ensures set { IsSet self.now }
    {
        self.count
    }

    /// How many members are less than `n`.
    pub fn below(&self, n: u32) -> u32
        ensures { result ≡ count_below n self.now }
    {
        count_under(self.runs.as_slice(), n)
    }

    /// The least number from `from` on that is not a member.
    pub fn first_missing(&self, from: u32) -> u32
        requires { from ≤ GREATEST_INDEX }
        ensures missing { IsFirstMissing self.now from result }
        ensures within { result ≤ GREATEST_INDEX + 1 }
    {
        let runs = self.runs.as_slice();
        let place = place_of_number(runs, from);
        if is_at(runs, place, from) {
            runs[place].last + 1
        } else {
            from
        }
    }

    /// Whether each member of the other set is one of this set. It goes over the runs of the other
    /// set.
    pub fn contains_all(&self, other: &Ranges) -> bool
        ensures { IsTrue result ↔ AllByRecursion (λ n. has n self.now ≡ true) other.now }
    {
        has_runs(self, other.runs.as_slice())
    }

    /// The member at a place in increasing order, counted from 0; none from the number of members
    /// on.
    pub fn member(&self, place: u32) -> Option<u32>
        ensures { result ≡ slice_get self.now place }
    {
        number_at(self.runs.as_slice(), place)
    }

    /// A set with the same members.
    ///
    /// # Errors
    ///
    /// `Want`: memory was refused.
    pub fn copy(&self) -> Result<Ranges, Want>
        ensures { IfOk result (λ r. r ≡ self.now) }
    {
        let runs = self.runs.copy()?;
        Ok(Ranges {
            runs,
            count: self.count,
        })
    }

    /// Whether both sets have the same members.
    pub fn is_same(&self, other: &Ranges) -> bool
        ensures { IsTrue result ↔ (self.now ≡ other.now) }
    {
        same_runs(self.runs.as_slice(), other.runs.as_slice())
    }

    /// The set of the numbers of these runs.
    pub(crate) fn from_runs(alloc: Global, runs: Vec<Run>) -> Result<Ranges, Want>
        requires { StandApart 0 runs.items }
        ensures { IfOk result (λ r. r ≡ flat_map numbers runs.items) }
    {
        let count = count_under(runs.as_slice(), GREATEST_INDEX + 1);
        let runs = SharedRuns::from_runs(alloc, runs)?;
        Ok(Ranges { runs, count })
    }

    /// The runs in increasing order.
    pub(crate) fn as_runs(&self) -> &[Run]
        ensures members { flat_map numbers result.now ≡ self.now }
        ensures apart { StandApart 0 result.now }
    {
        self.runs.as_slice()
    }

    /// The allocator that the set takes its memory from.
    pub(crate) fn allocator(&self) -> Global {
        self.runs.allocator()
    }
}

// Whether the set has all numbers of the run.
fn has_run(set: &Ranges, run: Run) -> bool
    requires { run.first ≤ GREATEST_INDEX }
    ensures { IsTrue result ↔ AllByRecursion (λ n. has n set.now ≡ true) (numbers run) }
{
    run.last < set.first_missing(run.first)
}

// Whether the set has all numbers of the runs.
fn has_runs(set: &Ranges, runs: &[Run]) -> bool
    requires { StandApart 0 runs.now }
    ensures { IsTrue result
        ↔ AllByRecursion (λ n. has n set.now ≡ true) (flat_map numbers runs.now) }
{
    for run in runs {
        if !has_run(set, *run) {
            return false;
        }
    }
    true
}
