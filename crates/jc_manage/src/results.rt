//! What a sync wants of a Job's pods.

use jc_moment::Moment;
use jc_types::{Backoff, Copied, Indexes, PodVersions, Uids, Want};

/// What a sync wants of a Job's pods.
#[derive(Drop)]
pub struct Wants {
    /// The indexes of the pods to make, in ascending order; none for a pod of a Job that is not Indexed.
    pub creates: Indexes,
    /// The pods to mark for deletion, in the order of the basis.
    pub marks: Uids,
    /// The pods whose finalizer goes first, in the order of the basis, each at the version at which it
    /// was seen.
    pub let_goes: PodVersions,
    /// When pods may be made, where this held them back now.
    pub next: Option<Moment>,
    /// The failures in a row after this sync.
    pub backoff: Backoff,
}

impl Copied for Wants {
    fn copy(&self) -> Result<Self, Want> {
        Ok(Wants {
            creates: self.creates.copy()?,
            marks: self.marks.copy()?,
            let_goes: self.let_goes.copy()?,
            next: self.next,
            backoff: self.backoff.copy()?,
        })
    }
}
