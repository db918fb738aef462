//! Which indexes have failed.

ghost use Rattle.std.specs.Prelude.{
  ◌≡◌,
  ◌<◌,
  ◌≤◌,
  ◌++◌,
  ◌^◌,
  IfOk,
  IfSome,
  IsSome,
  OnErr,
  OnOk,
  filter,
  length,
  map,
};
ghost use Rattle.jc_ranges.specs.Sets.{IsIncreasing};
ghost use Rattle.jc_types.specs.declared.limits.TheConstants.{GREATEST_COMPLETIONS};
ghost use Rattle.jc_types.specs.declared.statuses.IndexCount.{IndexCount};
ghost use Rattle.jc_states.specs.Bases.{FailuresFit, own_pods};
ghost use Rattle.jc_types.specs.ValidSpecs.{IsValidSpec};
ghost use Rattle.jc_perindex.specs.Failures.{failed_set, filled_counts, has_failed, is_past, newly_failed};
ghost use Rattle.jc_perindex.specs.FillingSteps.{raise_each};

use crate::counts::raise_each;
use jc_ranges::Ranges;
use jc_states::{Basis, Pods, has_end};
use jc_types::{CountIn, IndexCount, IndexCounts, Job, Piece, Uid, Want};
use std::alloc::Global;

// Whether the pods of the count's index have failed more often than the limit allows, or one of them
// failed it.
fn is_past(limit: u32, count: IndexCount) -> bool
    ensures { result ≡ is_past limit count }
{
    u64::from(limit) < count.failures || count.fail
}

// Whether the index of the count has failed.
fn has_failed(limit: u32, completions: u32, completed: &Ranges, count: IndexCount) -> bool
    ensures { result ≡ has_failed limit completions completed.now count }
{
    count.index < completions && is_past(limit, count) && !completed.contains(count.index)
}

// Adds those of the indexes that have failed to those before them.
//
// # Errors
// `Want` where there is no memory for them.
fn add_failed(
    set: &mut Ranges,
    limit: u32,
    completions: u32,
    completed: &Ranges,
    counts: &[IndexCount],
) -> Result<(), Want>
    requires ascending { IsIncreasing (set.old ++ map (λ (count : IndexCount). count.index) counts.now) }
    requires few_completions { completions ≤ GREATEST_COMPLETIONS }
    ensures { OnOk result (set.new ≡ set.old ++ map (λ (count : IndexCount). count.index)
        (filter (has_failed limit completions completed.now) counts.now)) }
{
    for count in counts {
        if has_failed(limit, completions, completed, *count) {
            set.insert(count.index)?;
        }
    }
    Ok(())
}

// Adds the indexes of a piece that have failed to those of the pieces before. Most pieces have none, which a piece
// tells without a look at its counts.
//
// # Errors
// `Want` where there is no memory for them.
fn add_piece(
    set: &mut Ranges,
    limit: u32,
    completions: u32,
    completed: &Ranges,
    piece: &Piece,
) -> Result<(), Want>
    requires ascending { IsIncreasing (set.old ++ map (λ (count : IndexCount). count.index) piece.now) }
    requires few_completions { completions ≤ GREATEST_COMPLETIONS }
    ensures { OnOk result (set.new ≡ set.old ++ map (λ (count : IndexCount). count.index)
        (filter (has_failed limit completions completed.now) piece.now)) }
{
    if piece.is_within(limit) {
        return Ok(());
    }
    add_failed(set, limit, completions, completed, piece.as_slice())
}

// The indexes that have failed, of counts in ascending index.
fn failed_of(
    alloc: Global,
    limit: u32,
    completions: u32,
    completed: &Ranges,
    counts: &IndexCounts,
) -> Result<Ranges, Want>
    requires ascending { IsIncreasing (map (λ (count : IndexCount). count.index) counts.now) }
    requires few_completions { completions ≤ GREATEST_COMPLETIONS }
    ensures { IfOk result (λ set. set ≡ map (λ (count : IndexCount). count.index)
        (filter (has_failed limit completions completed.now) counts.now)) }
{
    let mut set = Ranges::new(alloc);
    let pieces = counts.pieces();
    for piece in pieces {
        add_piece(&mut set, limit, completions, completed, piece)?;
    }
    Ok(set)
}

// The indexes of the Job that have failed.
fn failed_set(
    alloc: Global,
    job: &Job,
    limit: u32,
    completed: &Ranges,
    counts: &IndexCounts,
) -> Result<Ranges, Want>
    requires ascending { IsIncreasing (map (λ (count : IndexCount). count.index) counts.now) }
    requires valid { IsValidSpec job.now.spec }
    ensures { IfOk result (λ set. set ≡ failed_set job.now limit completed.now counts.now) }
{
    if has_end(&job.status.conditions) {
        return job.status.failed_indexes.copy();
    }
    let completions = job.spec.completions.unwrap_or(0);
    failed_of(alloc, limit, completions, completed, counts)
}

// The Job's counts with the failure of each of its pods of these UIDs: it goes over those pods alone at
// which a sync has to look.
//
// # Errors
// `Want` where there is no memory for them.
fn raised(job: &Job, pods: &Pods, uids: &[Uid]) -> Result<IndexCounts, Want>
    requires few_pods { length pods.now < 2 ^ 31 }
    requires failures { FailuresFit job.now pods.now }
    ensures { IfOk result (λ counts. counts
        ≡ raise_each job.now.spec.failure job.now.status.index_failures
        (newly_failed (own_pods job.now pods.now) uids.now)) }
{
    let noted = pods.to_look_at(job.uid, uids, &[])?;
    raise_each(job, uids, noted.as_slice())
}

// Adds to what is counted of a Job its failures of each index and its failed indexes.
fn fill_job(alloc: Global, job: &Job, pods: &Pods, counted: &mut CountIn) -> Result<(), Want>
    requires valid { IsValidSpec job.now.spec }
    requires few_pods { length pods.now < 2 ^ 31 }
    requires failures { FailuresFit job.now pods.now }
    ensures filled { OnOk result
        (counted.new ≡ filled_counts job.now (own_pods job.now pods.now) counted.old) }
    ensures kept { OnErr result (counted.new ≡ counted.old) }
{
    let Some(limit) = job.spec.per_index else {
        counted.failed_indexes = Ranges::new(alloc);
        counted.index_failures = IndexCounts::new(alloc);
        return Ok(());
    };
    let counts = raised(job, pods, counted.judged_failed.as_slice())?;
    let failed = failed_set(alloc, job, limit, &counted.completed, &counts)?;
    counted.failed_indexes = failed;
    counted.index_failures = counts;
    Ok(())
}

/// Adds to what a sync has counted the failures of each index and the indexes that have failed
/// (KEP-3850).
///
/// Where the Job has no limit for each index nothing is said of them. Otherwise the index of each pod that
/// is newly judged as failed has one failure more, and the failure policy may fail the index for it. Until
/// the Job has ended, those indexes have failed that are below its completions and not completed, and whose
/// pods have failed more often than the limit allows or which the policy failed; then they stay.
///
/// # Errors
/// `Want` where there is no memory for it; what is counted is then as before.
pub fn fill(alloc: Global, basis: &Basis, counted: &mut CountIn) -> Result<(), Want>
    requires there { IsSome basis.now.job }
    requires valid { IfSome basis.now.job (λ job. IsValidSpec job.spec) }
    requires few_pods { length basis.now.pods < 2 ^ 31 }
    requires failures { IfSome basis.now.job (λ job. FailuresFit job basis.now.pods) }
    ensures filled { OnOk result (IfSome basis.entry.now.job (λ job.
        counted.new ≡ filled_counts job (own_pods job basis.entry.now.pods) counted.old)) }
    ensures kept { OnErr result (counted.new ≡ counted.old) }
{
    match &basis.job {
        Some(job) => fill_job(alloc, job, &*basis.pods, counted),
        None => unreachable!(),
    }
}
