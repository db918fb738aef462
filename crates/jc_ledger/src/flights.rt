//! A sync under way, as the ledger sees it.

use jc_states::Basis;
use jc_types::{Arc, Copied, JobStatus, Uids, Version, Want};

/// A sync under way: from its begin to its end.
#[derive(Drop)]
pub struct Flight {
    /// What it began with.
    pub basis: Arc<Basis>,
    /// Its first status, where that was written.
    pub written: Option<JobStatus>,
    /// The version that its next write of the status sends.
    pub sends: Version,
    /// The pods whose release was answered.
    pub released: Uids,
}

impl Copied for Flight {
    fn copy(&self) -> Result<Self, Want> {
        Ok(Flight {
            basis: self.basis.copy()?,
            written: self.written.copy()?,
            sends: self.sends,
            released: self.released.copy()?,
        })
    }
}
