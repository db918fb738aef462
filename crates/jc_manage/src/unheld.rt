//! The least indexes that a Job makes pods for, found without going over its pods.

ghost use Rattle.std.specs.Prelude.{◌≡◌, ◌≤◌, ◌<◌, ◌&&◌, ◌∷◌, ◌++◌, [], ℕ, IfOk, OnOk, Some, false, filter, if◌then◌else◌, length, map, nat_lt, not, take, true};
ghost use Rattle.std.specs.List.{list_any, range_with_len};
ghost use Rattle.jc_ranges.specs.Sets.{has};
ghost use Rattle.jc_states.specs.Bases.{own_pods};
ghost use Rattle.jc_states.specs.Holders.{has_index_in};
ghost use Rattle.jc_states.specs.Pods.{active_pods, tracked_active_pods};
ghost use Rattle.jc_states.specs.Tallies.{pods_for};
ghost use Rattle.jc_manage.specs.Creations.{holds, is_done_index, keepers};

use crate::creations::is_done_index;
use jc_ranges::{GREATEST_INDEX, Ranges};
use jc_states::{Pods, count_active, count_ending, count_tracked_active};
use jc_types::{CountIn, Indexes, Job, Replacement, Uid, Want};
use std::alloc::Global;

// Whether only active pods keep their indexes from new ones: ending ones don't count, or there is none.
fn keep_active_only(job: &Job, pods: &Pods) -> bool
    ensures { result ≡ true → keepers job.now.spec.replacement (own_pods job.now pods.now)
        ≡ active_pods (own_pods job.now pods.now) }
{
    match job.spec.replacement {
        Replacement::TerminatingOrFailed => true,
        Replacement::FailedOnly => count_ending(job, pods) == 0,
    }
}

// Whether an index is kept from new pods just where an active tracked pod of the Job has it.
pub(crate) fn are_kept_as_held(job: &Job, pods: &Pods) -> bool
    ensures { result ≡ true → (n : ℕ)
        → holds (keepers job.now.spec.replacement (own_pods job.now pods.now)) n
        ≡ list_any (has_index_in n n) (tracked_active_pods (own_pods job.now pods.now)) }
{
    count_active(job, pods) == count_tracked_active(job, pods) && keep_active_only(job, pods)
}

// Whether the index is not done, and no active tracked pod of the owner has it.
fn is_unheld(owner: Uid, pods: &Pods, counted: &CountIn, index: u32) -> bool
    ensures { result ≡ (not (is_done_index counted.now index) && not (list_any
        (has_index_in index index) (tracked_active_pods (pods_for owner pods.now)))) }
{
    !is_done_index(counted, index) && !pods.holds_between(owner, index, index)
}

// Adds the index, where it is not done, no active tracked pod has it and there are not so many yet.
fn offer(
    indexes: &mut Indexes,
    index: u32,
    owner: Uid,
    pods: &Pods,
    counted: &CountIn,
    most: u64,
) -> Result<(), Want>
    ensures { OnOk result (indexes.new ≡ (
        if not (is_done_index counted.now index) && not (list_any
        (has_index_in index index) (tracked_active_pods (pods_for owner pods.now)))
        then (if nat_lt (length indexes.old) most
        then indexes.old ++ Some index ∷ [] else indexes.old)
        else indexes.old)) }
{
    if !is_unheld(owner, pods, counted, index) {
        return Ok(());
    }
    if (indexes.len() as u64) < most {
        indexes.push(Some(index))?;
    }
    Ok(())
}

// The least index from this one on that is not in the set; the end where there is none below it.
fn past_members(set: &Ranges, from: u32, end: u32) -> u32
    requires { from ≤ end }
    ensures above { from ≤ result }
    ensures within { result ≤ end }
    ensures between { (n : ℕ) → from ≤ n → n < result → has n set.now ≡ true }
{
    if from > GREATEST_INDEX {
        return from;
    }
    set.first_missing(from).min(end)
}

// Where one comes from this index by going past completed ones, and then past failed ones; at most the end.
fn past_done(counted: &CountIn, from: u32, end: u32) -> u32
    requires { from ≤ end }
    ensures above { from ≤ result }
    ensures within { result ≤ end }
    ensures between { (n : ℕ) → from ≤ n → n < result → is_done_index counted.now n ≡ true }
{
    let from = past_members(&counted.completed, from, end);
    past_members(&counted.failed_indexes, from, end)
}

// Where one comes from this index by going past done ones, and then past those that active tracked pods
// of the owner have; at most the end.
fn past_done_and_held(owner: Uid, pods: &Pods, counted: &CountIn, from: u32, end: u32) -> u32
    requires { from ≤ end }
    ensures above { from ≤ result }
    ensures within { result ≤ end }
    ensures between { (n : ℕ) → from ≤ n → n < result
        → (not (is_done_index counted.now n) && not (list_any
        (has_index_in n n) (tracked_active_pods (pods_for owner pods.now)))) ≡ false }
{
    let from = past_done(counted, from, end);
    pods.first_unheld(owner, from, end)
}

// The least indexes below `completions` that are not done and that no active tracked pod of the owner
// has, and at most so many.
pub(crate) fn unheld_indexes(
    alloc: Global,
    completions: u32,
    owner: Uid,
    pods: &Pods,
    counted: &CountIn,
    most: u64,
) -> Result<Indexes, Want>
    ensures { IfOk result (λ indexes. indexes ≡ map (λ n. Some n) (take most
        (filter (λ n. not (is_done_index counted.now n) && not (list_any
        (has_index_in n n) (tracked_active_pods (pods_for owner pods.now))))
        (range_with_len 0 completions)))) }
{
    let mut indexes = Indexes::new(alloc);
    let mut index = 0;
    while index < completions {
        // The least ones are found, and greater ones are not wanted.
        if indexes.len() as u64 == most {
            return Ok(indexes);
        }
        offer(&mut indexes, index, owner, pods, counted, most)?;
        index = past_done_and_held(owner, pods, counted, index + 1, completions);
    }
    Ok(indexes)
}
