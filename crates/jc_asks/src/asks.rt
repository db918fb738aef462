//! What a sync asks of the store.

use jc_types::{Uid, Version};

/// One request of a sync. What it writes stands in the plan.
#[derive(Clone, Copy, PartialEq, Eq, Debug)]
pub enum Ask {
    /// Make a pod of the Job, with this index.
    MakePod { index: Option<u32> },
    /// Mark the pod for deletion.
    MarkPod { pod: Uid },
    /// Let the pod go: take its finalizer, at the version at which it was seen.
    LetPodGo { pod: Uid, version: Version },
    /// Write the first status of the plan.
    WriteFirst,
    /// Release the pod: take its finalizer.
    ReleasePod { pod: Uid },
    /// Write the second status of the plan.
    WriteSecond,
}
