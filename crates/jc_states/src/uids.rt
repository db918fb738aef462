//! Which UIDs are in a list.

ghost use Rattle.std.specs.Prelude.{◌≡◌};
ghost use Rattle.jc_states.specs.UidLists.{is_in};
ghost use Rattle.jc_states.specs.Listed.{is_listed};

use jc_types::{JobStatus, Uid};

/// Whether the UID is in the list.
pub fn is_in(uid: Uid, uids: &[Uid]) -> bool
    ensures { result ≡ is_in uid uids.now }
{
    uids.iter().any(|other| other.0 == uid.0)
}

/// Whether the UID is in one of the status's lists of uncounted UIDs (`uncountedTerminatedPods` of
/// batch/v1).
pub fn is_listed(status: &JobStatus, uid: Uid) -> bool
    ensures { result ≡ is_listed status.now uid }
{
    is_in(uid, status.uncounted_succeeded.as_slice())
        || is_in(uid, status.uncounted_failed.as_slice())
}
