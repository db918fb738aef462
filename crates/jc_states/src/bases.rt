//! What a sync starts from.

use crate::pod_lists::Pods;
use jc_moment::Moment;
use jc_types::{Arc, Backoff, Copied, Job, Key, Same, Version, Want};

/// What one sync sees: the Job and the pods of its key in the caches of a controller.
#[derive(Drop)]
pub struct Basis {
    /// The key that is synced.
    pub key: Key,
    /// The Job of the key, if there is one.
    pub job: Option<Arc<Job>>,
    /// The pods that were made for Jobs of the key, as the cache shares them.
    pub pods: Arc<Pods>,
    /// The version of the Job cache.
    pub jobs_at: Version,
    /// The version of the pod cache.
    pub pods_at: Version,
    /// When the sync begins.
    pub now: Moment,
    /// The failures of the key.
    pub backoff: Backoff,
}

impl Copied for Basis {
    fn copy(&self) -> Result<Self, Want> {
        Ok(Basis {
            key: self.key.copy()?,
            job: self.job.copy()?,
            pods: self.pods.copy()?,
            jobs_at: self.jobs_at,
            pods_at: self.pods_at,
            now: self.now,
            backoff: self.backoff.copy()?,
        })
    }
}

impl Same for Basis {
    fn is_same(&self, other: &Self) -> bool {
        self.key.is_same(&other.key)
            && self.job.is_same(&other.job)
            && self.pods.is_same(&other.pods)
            && self.jobs_at == other.jobs_at
            && self.pods_at == other.pods_at
            && self.now == other.now
            && self.backoff.is_same(&other.backoff)
    }
}
