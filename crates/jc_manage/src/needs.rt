//! What a sync needs of a Job's pods.

ghost use Rattle.std.specs.Prelude.{◌≡◌, ◌+◌, ◌<◌, ◌≤◌, ◌^◌, IfOk, IfSome, IsSome, length};
ghost use Rattle.jc_types.specs.Counts.{counts as counts_of};
ghost use Rattle.jc_manage.specs.Creations.{creates, next};
ghost use Rattle.jc_manage.specs.Planned.{backoff_in, creates_in, let_goes_in, marks_in, next_in};

use crate::backoffs::{as_moment, backoff_after, is_delayed_until, opening};
use crate::creations::creatable;
use crate::let_goes::{let_goes, marks};
use crate::results::Wants;
use jc_moment::Moment;
use jc_states::Basis;
use jc_types::{CountIn, Indexes, Want};
use std::alloc::Global;

// Of what would be made at once, nothing before the opening.
fn creates(alloc: Global, opening: Option<u64>, now: Moment, creatable: Indexes) -> Indexes
    ensures { result ≡ creates opening now creatable }
{
    if is_delayed_until(opening, now) {
        return Indexes::new(alloc);
    }
    creatable
}

// The moment of the opening, where it held pods back.
fn next(opening: Option<u64>, now: Moment, creatable: &Indexes) -> Option<Moment>
    ensures { result ≡ next opening now creatable.now }
{
    if is_delayed_until(opening, now) && !creatable.is_empty() {
        return as_moment(opening);
    }
    None
}

/// What a sync wants of the pods of its Job (batch/v1, KEP-2307, KEP-2214, KEP-3939), from what it has
/// counted; `target` says that the Job's end is decided, before this sync or by it.
///
/// Pods are made as far as active tracked ones are lacking: with completions as many as may run at once,
/// and no more than are left to succeed, without indexes that have failed; without, as many as may run at once until one has succeeded.
/// Under the replacement policy `FailedOnly` a pod that is marked and still open is replaced only once it
/// has ended. An Indexed Job makes pods for its least free indexes. After failures in a row no pod is
/// made before 10 seconds after the last, twice as many after each further one, and at most 360; a
/// success ends the row.
///
/// Active pods without the finalizer are marked. Active tracked pods are let go where the Job is
/// suspended, where another pod of smaller UID holds their index, where that is completed, has failed or is
/// not below the completions, and where they are too many: those of the greatest indexes, or pending ones before those that run and then those of the
/// greatest UIDs. Where the Job's end is decided all its active pods are marked, and none is made or let
/// go.
///
/// # Errors
/// `Want` where there is no memory for it.
pub fn wants(alloc: Global, basis: &Basis, counted: &CountIn, target: bool) -> Result<Wants, Want>
    requires there { IsSome basis.now.job }
    requires failures { basis.now.backoff.failures + length basis.now.pods < 2 ^ 64 }
    requires new_failed { counted.now.new_failed ≤ length basis.now.pods }
    requires failed { (counts_of counted.now).0 < 2 ^ 64 }
    requires succeeded { (counts_of counted.now).1 < 2 ^ 64 }
    ensures creates { IfSome basis.entry.now.job (λ job. IfOk result (λ wants.
        wants.creates ≡ creates_in target job basis.entry.now counted.now)) }
    ensures marks { IfSome basis.entry.now.job (λ job. IfOk result (λ wants.
        wants.marks ≡ marks_in target job basis.entry.now)) }
    ensures let_goes { IfSome basis.entry.now.job (λ job. IfOk result (λ wants.
        wants.let_goes ≡ let_goes_in target job basis.entry.now counted.now)) }
    ensures next { IfSome basis.entry.now.job (λ job. IfOk result (λ wants.
        wants.next ≡ next_in target job basis.entry.now counted.now)) }
    ensures backoff { IfOk result (λ wants.
        wants.backoff ≡ backoff_in basis.entry.now counted.now) }
{
    let Some(job) = &basis.job else {
        unreachable!();
    };
    let pods = &*basis.pods;
    let backoff = backoff_after(&basis.backoff, counted, basis.now);
    let opening = opening(&backoff);
    // Of what is delayed it matters only whether there is some.
    let held_back = is_delayed_until(opening, basis.now);
    let found = creatable(alloc, held_back, target, job, pods, counted)?;
    Ok(Wants {
        next: next(opening, basis.now, &found),
        creates: creates(alloc, opening, basis.now, found),
        marks: marks(alloc, target, job, pods)?,
        let_goes: let_goes(alloc, target, job, pods, counted)?,
        backoff,
    })
}
