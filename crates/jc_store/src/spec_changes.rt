//! Changes of a Job's specification.
ghost use Rattle.std.specs.Prelude.{◌≡◌, IfOk, nat_eq};
ghost use Rattle.jc_log.specs.Requests.{changed_spec, given_or, is_other, update_refusal};
ghost use Rattle.jc_types.specs.Equality.{same_bool, same_limits, same_option};

use jc_manifest::{UpdateFault, check_update};
use jc_types::{Copied, JobSpec, Reply, SpecChange, Version, Want};

// Why the change may not be made, or nothing where it may.
pub(super) fn update_refusal(old: &JobSpec, change: &SpecChange) -> Option<Reply>
    ensures { result ≡ update_refusal old.now change.now }
{
    match check_update(old, change) {
        None => None,
        Some(UpdateFault::Immutable { field }) => Some(Reply::Immutable { field }),
        Some(UpdateFault::Invalid { field }) => Some(Reply::Invalid { field }),
    }
}

// The specification with the members that are given.
pub(super) fn changed_spec(old: &JobSpec, change: &SpecChange) -> Result<JobSpec, Want>
    ensures { IfOk result (λ r. r ≡ changed_spec old.now change.now) }
{
    let mut changed = old.copy()?;
    changed.parallelism = change.parallelism.unwrap_or(old.parallelism);
    changed.completions = given_or(change.completions, old.completions);
    changed.suspend = change.suspend.unwrap_or(old.suspend);
    changed.deadline = given_or(change.deadline, old.deadline);
    changed.backoff_limit = change.backoff_limit.unwrap_or(old.backoff_limit);
    Ok(changed)
}

// What is given, or else the old one.
fn given_or(given: Option<u32>, old: Option<u32>) -> Option<u32>
    ensures { result ≡ given_or given old }
{
    match given {
        None => old,
        Some(given) => Some(given),
    }
}

// Whether the members that a change may give agree.
pub(super) fn same_limits(left: &JobSpec, right: &JobSpec) -> bool
    ensures { result ≡ same_limits left.now right.now }
{
    left.parallelism == right.parallelism
        && is_same_number(left.completions, right.completions)
        && same_bool(left.suspend, right.suspend)
        && is_same_number(left.deadline, right.deadline)
        && left.backoff_limit == right.backoff_limit
}

// Whether both are none, or both are the same number.
fn is_same_number(left: Option<u32>, right: Option<u32>) -> bool
    ensures { result ≡ same_option nat_eq left right }
{
    match (left, right) {
        (None, None) => true,
        (None, Some(_)) | (Some(_), None) => false,
        (Some(left), Some(right)) => left == right,
    }
}

// Whether both are true, or both false.
fn same_bool(left: bool, right: bool) -> bool
    ensures { result ≡ same_bool left right }
{
    if left { right } else { !right }
}

// Whether a version is given that differs from the object's.
pub(super) fn is_other(given: Option<Version>, current: Version) -> bool
    ensures { result ≡ is_other given current }
{
    match given {
        None => false,
        Some(given) => given.0 != current.0,
    }
}
