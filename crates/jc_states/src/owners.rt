//! Whose a pod is, where its Job may be gone.

ghost use Rattle.std.specs.Prelude.{◌≡◌};
ghost use Rattle.jc_states.specs.Owners.{is_foreign};

use crate::pods::is_own;
use jc_types::{Arc, Job, Pod};

/// Whether the pod was made for another Job than this, or there is none.
pub fn is_foreign(job: &Option<Arc<Job>>, pod: &Pod) -> bool
    ensures { result ≡ is_foreign job.now pod.now }
{
    match job {
        None => true,
        Some(job) => !is_own(job, pod),
    }
}
