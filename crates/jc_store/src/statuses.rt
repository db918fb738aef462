//! Tests of equality.
ghost use Rattle.std.specs.Prelude.{◌≡◌, Bool};
ghost use Rattle.jc_types.specs.Equality.{same_status};

use jc_types::{JobStatus, Same};

/// Whether the two statuses are equal.
pub fn same_status(left: &JobStatus, right: &JobStatus) -> bool
    ensures { result ≡ same_status left.now right.now }
{
    left.is_same(right)
}
