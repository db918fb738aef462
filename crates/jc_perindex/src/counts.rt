//! How often pods of each index have failed.

ghost use Rattle.std.specs.Prelude.{
  ◌≡◌,
  ◌+◌,
  ◌<◌,
  ◌≤◌,
  ◌&&◌,
  ◌^◌,
  All,
  IfOk,
  IfSome,
  IsNone,
  IsTrue,
  OnOk,
  get_or,
  length,
  map,
  nat_le,
};
ghost use Rattle.std.specs.List.{position, position_or_len};
ghost use Rattle.jc_ranges.specs.Sets.{IsIncreasing};
ghost use Rattle.jc_types.specs.Pieces.{items_in};
ghost use Rattle.jc_types.specs.declared.statuses.IndexCount.{IndexCount};
ghost use Rattle.jc_states.specs.Bases.{is_own, own_pods};
ghost use Rattle.jc_states.specs.UidLists.{is_in};
ghost use Rattle.jc_perindex.specs.Failures.{is_fail_index_action, newly_failed, policy_fails_index};
ghost use Rattle.jc_perindex.specs.FillingSteps.{one_failure, raise, raise_each, raise_for, with_failure};

use jc_failpol::action_of;
use jc_states::{is_in, is_own};
use jc_types::{
    Action, Arc, Copied, FailurePolicy, IndexCount, IndexCounts, Job, Piece, Pod, Uid, Want,
};

// Whether the action fails the index.
fn is_fail_index_action(action: Action) -> bool
    ensures { result ≡ is_fail_index_action action }
{
    match action {
        Action::FailJob | Action::Ignore | Action::Count => false,
        Action::FailIndex => true,
    }
}

// Whether the failure policy fails the index for the pod.
fn policy_fails_index(failure: &Option<FailurePolicy>, pod: &Pod) -> bool
    ensures { result ≡ policy_fails_index failure.now pod.now }
{
    match failure {
        None => false,
        Some(policy) => is_fail_index_action(action_of(policy, pod)),
    }
}

// The count of an index with one failure.
fn one_failure(index: u32, fail: bool) -> IndexCount
    ensures { result ≡ one_failure index fail }
{
    IndexCount {
        index,
        failures: 1,
        fail,
    }
}

// The count with one failure more.
fn with_failure(fail: bool, count: IndexCount) -> IndexCount
    requires { count.failures + 1 < 2 ^ 64 }
    ensures { result ≡ with_failure fail count }
{
    IndexCount {
        index: count.index,
        failures: count.failures + 1,
        fail: count.fail || fail,
    }
}

// Where a count stands among the others.
#[derive(Clone, Copy)]
struct Found {
    place: usize,
    count: IndexCount,
}

// The place in a piece of the first count whose index is not below the given one. Mostly all are below, which
// the last one tells.
fn place_of(index: u32, counts: &[IndexCount]) -> Option<usize>
    requires { IsIncreasing (map (λ (count : IndexCount). count.index) counts.now) }
    ensures { result ≡ position (λ (count : IndexCount). nat_le index count.index) counts.now }
{
    let many = counts.len();
    if many > 0 && counts[many - 1].index < index {
        return None;
    }
    counts.iter().position(|count| index <= count.index)
}

// Whether all counts have a lower index, as the last one of the last piece tells.
fn are_below(index: u32, pieces: &[Piece]) -> bool
    requires { IsIncreasing (map (λ (count : IndexCount). count.index) (items_in pieces.now)) }
    ensures { IsTrue result → length (items_in pieces.now)
        ≤ position_or_len (λ (count : IndexCount). nat_le index count.index) (items_in pieces.now) }
{
    let Some(piece) = pieces.last() else {
        return false;
    };
    match piece.as_slice().last() {
        None => false,
        Some(count) => count.index < index,
    }
}

// The first count whose index is not below the given one. Mostly all are below.
fn first_from(index: u32, counts: &IndexCounts) -> Option<Found>
    requires { IsIncreasing (map (λ (count : IndexCount). count.index) counts.now) }
    ensures past { IsNone result → length counts.now
        ≤ position_or_len (λ (count : IndexCount). nat_le index count.index) counts.now }
    ensures place { IfSome result (λ found. found.place
        ≡ position_or_len (λ (count : IndexCount). nat_le index count.index) counts.now) }
    ensures within { IfSome result (λ found. found.place < length counts.now) }
    ensures count { IfSome result (λ found. found.count ≡ get_or counts.now found.place found.count) }
{
    let pieces = counts.pieces();
    if are_below(index, pieces) {
        return None;
    }
    let mut passed = 0;
    for piece in pieces {
        let items = piece.as_slice();
        if let Some(place) = place_of(index, items) {
            return Some(Found {
                place: passed + place,
                count: items[place],
            });
        }
        passed += items.len();
    }
    None
}

// Adds a failure to the index: one piece of the counts is copied.
//
// # Errors
// `Want` where there is no memory for its count.
fn raise(counts: &mut IndexCounts, index: u32, fail: bool) -> Result<(), Want>
    requires ascending { IsIncreasing (map (λ (count : IndexCount). count.index) counts.old) }
    requires fit { All (λ (count : IndexCount). count.failures + 1 < 2 ^ 64) counts.old }
    ensures { OnOk result (counts.new ≡ raise index fail counts.old) }
{
    match first_from(index, &*counts) {
        None => counts.push(one_failure(index, fail)),
        Some(found) => {
            if found.count.index == index {
                return counts.set(found.place, with_failure(fail, found.count));
            }
            counts.insert(found.place, one_failure(index, fail))
        }
    }
}

// Adds the failure of the pod to its index, where it has one.
//
// # Errors
// `Want` where there is no memory for its count.
fn raise_for(
    counts: &mut IndexCounts,
    failure: &Option<FailurePolicy>,
    pod: &Pod,
) -> Result<(), Want>
    requires ascending { IsIncreasing (map (λ (count : IndexCount). count.index) counts.old) }
    requires fit { All (λ (count : IndexCount). count.failures + 1 < 2 ^ 64) counts.old }
    ensures { OnOk result (counts.new ≡ raise_for failure.now pod.now counts.old) }
{
    match pod.index {
        None => Ok(()),
        Some(index) => raise(counts, index, policy_fails_index(failure, pod)),
    }
}

// Whether the pod is the Job's own and newly judged as failed.
fn is_newly_failed(job: &Job, uids: &[Uid], pod: &Pod) -> bool
    ensures { result ≡ is_own job.now pod.now && is_in pod.now.uid uids.now }
{
    is_own(job, pod) && is_in(pod.uid, uids)
}

// The Job's counts with the failure of each of its pods of these UIDs, the last of them first. They share
// the memory of the Job's counts but for what is raised.
//
// # Errors
// `Want` where there is no memory for them.
pub(crate) fn raise_each(job: &Job, uids: &[Uid], pods: &[Arc<Pod>]) -> Result<IndexCounts, Want>
    requires few_pods { length pods.now < 2 ^ 31 }
    requires ascending { IsIncreasing (map (λ (count : IndexCount). count.index)
        job.now.status.index_failures) }
    requires fit { All (λ (count : IndexCount). count.failures + length pods.now < 2 ^ 64)
        job.now.status.index_failures }
    ensures { IfOk result (λ counts. counts
        ≡ raise_each job.now.spec.failure job.now.status.index_failures
        (newly_failed (own_pods job.now pods.now) uids.now)) }
{
    let mut counts = job.status.index_failures.copy()?;
    for place in (0..pods.len()).rev() {
        let pod = &pods[place];
        if is_newly_failed(job, uids, pod) {
            raise_for(&mut counts, &job.spec.failure, pod)?;
        }
    }
    Ok(counts)
}
