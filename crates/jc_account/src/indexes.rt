//! Sets of completed indexes.

ghost use Rattle.std.specs.Prelude.{◌≡◌, ◌<◌, ◌≤◌, IfOk, filter, length, nat_lt, slice_index, take};
ghost use Rattle.jc_ranges.specs.Sets.{IsSet};
ghost use Rattle.jc_account.specs.Modes.{gained, kept_indexes};

use jc_ranges::Ranges;
use jc_types::Want;
use std::alloc::Global;

// The member of a set at a place in increasing order.
fn member_at(set: &Ranges, place: u32) -> u32
    requires { place < length set.now }
    ensures { result ≡ slice_index set.now place }
{
    match set.member(place) {
        Some(n) => n,
        None => unreachable!(),
    }
}

// How many members of a set the set before it had not, by looking for each of them.
fn count_new(before: &Ranges, after: &Ranges) -> u32
    ensures { result ≡ gained before.now after.now }
{
    let mut count = 0;
    for place in 0..after.len() {
        if !before.contains(member_at(after, place)) {
            count += 1;
        }
    }
    count
}

// How many members of a set the set before it had not. A set that has lost none is longer by what it has
// gained, so it is gone over only where the completions were lowered.
pub(crate) fn gained(before: &Ranges, after: &Ranges) -> u32
    ensures { result ≡ gained before.now after.now }
{
    if after.contains_all(before) {
        return after.len() - before.len();
    }
    count_new(before, after)
}

// The first members of a set, as many as are asked for.
fn first_members(alloc: Global, set: &Ranges, count: u32) -> Result<Ranges, Want>
    requires set { IsSet set.now }
    requires within { count ≤ length set.now }
    ensures { IfOk result (λ members. members ≡ take count set.now) }
{
    let mut members = Ranges::new(alloc);
    for place in 0..count {
        members.insert(member_at(set, place))?;
    }
    Ok(members)
}

// The members of a set below a number.
fn members_below(alloc: Global, set: &Ranges, end: u32) -> Result<Ranges, Want>
    ensures { IfOk result (λ members. members ≡ filter (λ n. nat_lt n end) set.now) }
{
    let count = set.below(end);
    if count == set.len() {
        return set.copy();
    }
    first_members(alloc, set, count)
}

// The completed indexes that stay, where so many completions are wanted: all of them once the Job has
// ended.
pub(crate) fn kept_indexes(
    alloc: Global,
    ended: bool,
    completions: u32,
    completed: &Ranges,
) -> Result<Ranges, Want>
    ensures { IfOk result (λ kept. kept ≡ kept_indexes ended completions completed.now) }
{
    if ended {
        completed.copy()
    } else {
        members_below(alloc, completed, completions)
    }
}
