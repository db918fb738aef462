//! What bounds the failures of each index, and the indexes that fail (KEP-3850).

ghost use Rattle.std.specs.Prelude.{◌≡◌, codes};
ghost use Rattle.jc_json.specs.View.{view};
ghost use Rattle.jc_json.specs.Place.{path_to};
ghost use Rattle.jc_manifest.specs.IndexLimits.{index_limits_refusal, index_limits_in, is_by_index, has_indexes_to_limit, has_indexes_to_fail, by_index_refusal};
ghost use Rattle.jc_rows.specs.ManifestRows.{Checks, Reads, rule_row};

use jc_json::{Trail, Value};
use jc_rows::{Counts, ManifestFault, broken, may_count};
use jc_types::{GREATEST_COMPLETIONS, GREATEST_LIMIT, Mode};
use std::alloc::Global;

/// What bounds the failures of each index, and how many indexes fail; each where it is given.
#[derive(Clone, Copy)]
pub struct IndexLimits {
    /// An index fails with more failed pods than this.
    pub per_index: Option<u32>,
    /// The number of failed indexes above which the Job fails.
    pub max_failed: Option<u32>,
}

/// Whether failures are limited for each index.
pub fn is_by_index(limits: IndexLimits) -> bool
    ensures { result ≡ is_by_index limits }
{
    limits.per_index.is_some()
}

/// The two limits that a specification says.
#[tactic(auto, unfolding(crate::specs::IndexLimits::index_limits_refusal, crate::specs::IndexLimits::index_limits_in))]
pub fn read_index_limits(
    alloc: Global,
    spec: &Value,
    path: &Trail,
) -> Result<IndexLimits, ManifestFault>
    ensures { Reads (λ limits. limits) result (index_limits_refusal path.now (view spec.now))
        (index_limits_in path.now (view spec.now)) }
{
    let per_index = may_count(alloc, spec, path, "backoffLimitPerIndex", GREATEST_LIMIT)?;
    let max_failed = may_count(alloc, spec, path, "maxFailedIndexes", GREATEST_COMPLETIONS)?;
    Ok(IndexLimits {
        per_index,
        max_failed,
    })
}

// Whether there are indexes, where failures are limited for each.
fn has_indexes_to_limit(counts: &Counts, limits: IndexLimits) -> bool
    ensures { result ≡ has_indexes_to_limit counts.now limits }
{
    match (limits.per_index, counts.mode) {
        (Some(_), Mode::NonIndexed) => false,
        _ => true,
    }
}

// Whether so many indexes may fail, where their number is limited.
fn has_indexes_to_fail(counts: &Counts, limits: IndexLimits) -> bool
    ensures { result ≡ has_indexes_to_fail counts.now limits }
{
    match limits.max_failed {
        None => true,
        Some(most) => is_by_index(limits) && most <= counts.completions.unwrap_or(0),
    }
}

// That failures are limited for each index of an Indexed Job alone.
fn check_limit(path: &Trail, counts: &Counts, limits: IndexLimits) -> Result<(), ManifestFault>
    ensures { Checks result (rule_row (path_to path.now (codes "backoffLimitPerIndex")) 31
        (has_indexes_to_limit counts.now limits)) }
{
    if has_indexes_to_limit(counts, limits) {
        return Ok(());
    }
    Err(broken(path, "backoffLimitPerIndex", 31))
}

// That a number of failed indexes stands beside a limit for each, and is at most that of all.
fn check_most(path: &Trail, counts: &Counts, limits: IndexLimits) -> Result<(), ManifestFault>
    ensures { Checks result (rule_row (path_to path.now (codes "maxFailedIndexes")) 32
        (has_indexes_to_fail counts.now limits)) }
{
    if has_indexes_to_fail(counts, limits) {
        return Ok(());
    }
    Err(broken(path, "maxFailedIndexes", 32))
}

/// That the Job has the indexes that the limits speak of.
#[tactic(auto, unfolding(crate::specs::IndexLimits::by_index_refusal))]
pub fn check_by_index(
    path: &Trail,
    counts: &Counts,
    limits: IndexLimits,
) -> Result<(), ManifestFault>
    ensures { Checks result (by_index_refusal path.now counts.now limits) }
{
    check_limit(path, counts, limits)?;
    check_most(path, counts, limits)?;
    Ok(())
}
