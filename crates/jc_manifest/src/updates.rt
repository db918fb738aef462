//! What an update of a Job may change.

ghost use Rattle.std.specs.Prelude.{◌≡◌, option_map};
ghost use Rattle.jc_log.specs.Requests.{is_above, is_elastic, is_given_else, is_immutable, update_refusal};
ghost use Rattle.jc_manifest.specs.UpdateFaults.{reply_to};

use jc_types::{Field, GREATEST_LIMIT, GREATEST_PARALLELISM, JobSpec, Mode, SpecChange};

/// Why an update is refused.
#[derive(Clone, Copy, PartialEq, Eq, Debug)]
pub enum UpdateFault {
    /// The member can't be changed once the Job is there.
    Immutable { field: Field },
    /// The member is out of its range.
    Invalid { field: Field },
}

/// Why the change may not be made to a specification; `None` where it may.
///
/// `completions` is refused where it is given and differs, unless the Job is Indexed and the
/// parallelism after the change equals it (elastic Indexed Jobs of batch/v1). Then a parallelism above
/// `GREATEST_PARALLELISM` is refused, and then a backoff limit or a deadline, in seconds, above
/// `GREATEST_LIMIT`; the first in this order is named.
pub fn check_update(old: &JobSpec, change: &SpecChange) -> Option<UpdateFault>
    ensures { option_map reply_to result ≡ update_refusal old.now change.now }
{
    if is_immutable(old, change) {
        return Some(UpdateFault::Immutable {
            field: Field::Completions,
        });
    }
    if is_above(GREATEST_PARALLELISM, change.parallelism) {
        return Some(UpdateFault::Invalid {
            field: Field::Parallelism,
        });
    }
    if is_above(GREATEST_LIMIT, change.backoff_limit) {
        return Some(UpdateFault::Invalid {
            field: Field::BackoffLimit,
        });
    }
    if is_above(GREATEST_LIMIT, change.deadline) {
        return Some(UpdateFault::Invalid {
            field: Field::Deadline,
        });
    }
    None
}

// Whether a number is given that is not the old one.
fn is_given_else(given: Option<u32>, old: Option<u32>) -> bool
    ensures { result ≡ is_given_else given old }
{
    match (given, old) {
        (None, _) => false,
        (Some(_), None) => true,
        (Some(given), Some(old)) => given != old,
    }
}

// Whether the given completions may take the place of others: the Job is Indexed, and after the change
// as many pods may run at once.
fn is_elastic(old: &JobSpec, change: &SpecChange) -> bool
    ensures { result ≡ is_elastic old.now change.now }
{
    match (old.mode, change.completions) {
        (Mode::NonIndexed, _) | (Mode::Indexed, None) => false,
        (Mode::Indexed, Some(given)) => given == change.parallelism.unwrap_or(old.parallelism),
    }
}

// Whether the completions are given, differ and may not change.
fn is_immutable(old: &JobSpec, change: &SpecChange) -> bool
    ensures { result ≡ is_immutable old.now change.now }
{
    is_given_else(change.completions, old.completions) && !is_elastic(old, change)
}

// Whether a number is given that is above the limit.
fn is_above(limit: u32, given: Option<u32>) -> bool
    ensures { result ≡ is_above limit given }
{
    match given {
        None => false,
        Some(given) => limit < given,
    }
}
