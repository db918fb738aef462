//! Runs of consecutive numbers, and lists of them.
ghost use Rattle.std.specs.Prelude.{
  ◌≡◌,
  ◌+◌,
  ◌<◌,
  ◌≤◌,
  ◌↔◌,
  ◌++◌,
  List,
  suc,
  false,
  length,
  slice_get,
  OnOk,
  OnErr,
  IsTrue,
};
ghost use Rattle.std.specs.List.{AllByRecursion, flat_map};
ghost use Rattle.jc_ranges.specs.Sets.{has, with_member, count_below};
ghost use Rattle.jc_ranges.specs.Texts.{numbers as numbers_of, StandApart};
ghost use Rattle.jc_ranges.specs.Runs.{PartsAt, joins_before, joins_after};

use crate::Want;
use crate::bounds::GREATEST_INDEX;

/// Consecutive numbers, from the first to the last.
#[derive(Clone, Copy)]
pub struct Run {
    pub first: u32,
    pub last: u32,
}

/// The place of the first run that ends at `n` or above.
pub fn place_of_number(runs: &[Run], n: u32) -> usize
    requires { StandApart 0 runs.now }
    ensures { PartsAt n runs.now result }
{
    runs.partition_point(|run| run.last < n)
}

/// Whether `n` is in the run at the place of the first run that ends at `n` or above.
pub fn is_at(runs: &[Run], place: usize, n: u32) -> bool
    requires apart { StandApart 0 runs.now }
    requires parted { PartsAt n runs.now place }
    ensures { result ≡ has n (flat_map numbers_of runs.now) }
{
    match runs.get(place) {
        None => false,
        Some(run) => run.first <= n,
    }
}

/// How many numbers of the runs are less than `n`.
pub fn count_under(runs: &[Run], n: u32) -> u32
    requires { StandApart 0 runs.now }
    ensures { result ≡ count_below n (flat_map numbers_of runs.now) }
{
    let mut count = 0;
    for run in runs {
        count += count_in(*run, n);
    }
    count
}

// How many numbers of a run are less than `n`.
fn count_in(run: Run, n: u32) -> u32
    requires ordered { run.first ≤ run.last }
    requires small { run.last ≤ GREATEST_INDEX }
    ensures { result ≡ count_below n (numbers_of run) }
{
    if n <= run.first {
        0
    } else if n <= run.last {
        n - run.first
    } else {
        run.last - run.first + 1
    }
}

/// The number at a place among the numbers of the runs, counted from 0.
pub fn number_at(runs: &[Run], place: u32) -> Option<u32>
    requires { StandApart 0 runs.now }
    ensures { result ≡ slice_get (flat_map numbers_of runs.now) place }
{
    let mut left = place;
    for run in runs {
        let more = run.last - run.first;
        if left <= more {
            return Some(run.first + left);
        }
        left -= more + 1;
    }
    None
}

/// Whether both lists have the same runs in the same places.
pub fn same_runs(left: &[Run], right: &[Run]) -> bool
    ensures { IsTrue result ↔ (left.now ≡ right.now) }
{
    if left.len() != right.len() {
        return false;
    }
    for i in 0..left.len() {
        if left[i].first != right[i].first || left[i].last != right[i].last {
            return false;
        }
    }
    true
}

/// Puts the numbers from the first to the last behind the others: into the last run where they go
/// on with it.
pub fn push_numbers(runs: &mut Vec<Run>, first: u32, last: u32) -> Result<(), Want>
    requires ordered { first ≤ last }
    requires small { last ≤ GREATEST_INDEX }
    requires apart { StandApart 0 runs.old.items }
    requires below { AllByRecursion (λ run. run.last < first) runs.old.items }
    ensures numbers { OnOk result (flat_map numbers_of runs.new.items
        ≡ flat_map numbers_of runs.old.items
        ++ numbers_of (record { first = first; last = last })) }
    ensures apart { OnOk result (StandApart 0 runs.new.items) }
    ensures below { OnOk result (AllByRecursion (λ run. run.last < last + 1) runs.new.items) }
{
    let len = runs.len();
    if joins_before(runs.as_slice(), len, first) {
        runs[len - 1].last = last;
        return Ok(());
    }
    runs.push(Run { first, last })?;
    Ok(())
}

/// Puts a number that none of the runs has at its place: into the runs beside it where it goes on
/// with them, and as a run of its own else.
///
/// # Errors
///
/// `Want`: memory was refused. The runs are then as before.
pub fn put_number(runs: &mut Vec<Run>, place: usize, n: u32) -> Result<(), Want>
    requires small { n ≤ GREATEST_INDEX }
    requires apart { StandApart 0 runs.old.items }
    requires parted { PartsAt n runs.old.items place }
    requires fresh { has n (flat_map numbers_of runs.old.items) ≡ false }
    ensures numbers { OnOk result (flat_map numbers_of runs.new.items
        ≡ with_member n (flat_map numbers_of runs.old.items)) }
    ensures apart { OnOk result (StandApart 0 runs.new.items) }
    ensures kept { OnErr result (runs.new.items ≡ runs.old.items) }
{
    let before = joins_before(runs.as_slice(), place, n);
    let after = leads_to(runs.as_slice(), place, n);
    if before {
        if after {
            let last = runs[place].last;
            runs[place - 1].last = last;
            runs.remove(place);
            return Ok(());
        }
        runs[place - 1].last = n;
        return Ok(());
    }
    if after {
        runs[place].first = n;
        return Ok(());
    }
    runs.insert(place, Run { first: n, last: n })?;
    Ok(())
}

// Whether `n` is the number behind the run before a place.
fn joins_before(runs: &[Run], place: usize, n: u32) -> bool
    requires { place ≤ length runs.now }
    ensures { result ≡ joins_before n runs.now place }
{
    if place == 0 {
        return false;
    }
    let last = runs[place - 1].last;
    last < n && n - last == 1
}

// Whether the run at a place begins with the number behind `n`.
fn leads_to(runs: &[Run], place: usize, n: u32) -> bool
    ensures { result ≡ joins_after n (slice_get runs.now place) }
{
    match runs.get(place) {
        None => false,
        Some(run) => n < run.first && run.first - n == 1,
    }
}
