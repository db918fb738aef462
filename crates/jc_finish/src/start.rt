//! When a Job starts, and when its deadline is.

ghost use Rattle.std.specs.Prelude.{◌≡◌, Some};
ghost use Rattle.jc_moment.specs.Range.{as_moment};
ghost use Rattle.jc_finish.specs.Starts.{begins, deadline_of, next_deadline, end_after, start_of, start_in_force};

use jc_moment::Moment;
use jc_states::{Basis, has_end, has_target, stands};
use jc_types::{CondKind, JobSpec, JobStatus};

// Whether the Job starts now: for the first time, or since it is resumed.
fn begins(suspend: bool, status: &JobStatus) -> bool
    ensures { result ≡ begins suspend status.now.start status.now.conditions }
{
    !suspend
        && !(has_target(&status.conditions) || has_end(&status.conditions))
        && (status.start.is_none() || stands(CondKind::Suspended, &status.conditions))
}

/// The start time in force of a Job, in a sync at the moment `now`.
pub fn start_of(now: Moment, spec: &JobSpec, status: &JobStatus) -> Option<Moment>
    ensures { result ≡ start_of now spec.now status.now }
{
    if begins(spec.suspend, status) {
        Some(now)
    } else {
        status.start
    }
}

// The moment so many seconds after the start, where that is given and it is not past the last moment.
fn moment_after(seconds: u32, start: Option<Moment>) -> Option<Moment>
    ensures { result ≡ as_moment (end_after (Some seconds) start) }
{
    match start {
        None => None,
        Some(start) => start.plus(u64::from(seconds)),
    }
}

// The moment of the deadline of a Job, in a sync at the moment `now`. Most Jobs have none.
fn deadline(now: Moment, spec: &JobSpec, status: &JobStatus) -> Option<Moment>
    ensures { result ≡ deadline_of now spec.now status.now }
{
    if spec.suspend || has_target(&status.conditions) {
        return None;
    }
    let seconds = spec.deadline?;
    moment_after(seconds, start_of(now, spec, status))
}

/// The start time in force of the basis's Job (batch/v1, `status.startTime`). It is the moment of the
/// sync where the Job is not suspended, no target and no end stands, and it either has no start time or
/// was suspended until now; else it is the status's own.
pub fn start_in_force(basis: &Basis) -> Option<Moment>
    ensures { result ≡ start_in_force basis.entry.now }
{
    let job = basis.job.as_ref()?;
    start_of(basis.now, &*job.spec, &*job.status)
}

/// The moment of the deadline of the basis's Job (batch/v1, `activeDeadlineSeconds`), at which its key is
/// to be synced again: that many seconds after its start time in force. None where the Job has no
/// deadline or no start, where it is suspended, where a target stands, and where that is past the last
/// moment.
pub fn next_deadline(basis: &Basis) -> Option<Moment>
    ensures { result ≡ next_deadline basis.entry.now }
{
    let job = basis.job.as_ref()?;
    deadline(basis.now, &*job.spec, &*job.status)
}
