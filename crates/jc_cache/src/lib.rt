//! The caches of a controller. They lag behind the store: each has seen its log up to a version of its
//! own, and is told of the entries after it one by one (the informers of client-go, by the list and
//! watch contract of the Kubernetes API).
//!
//! A contract sees a cache as its number, that is the version up to which it has seen the log, and its
//! objects. What a delivery leaves is said by the words by which a log is read, so a cache that was
//! filled with the objects of the first entries, and told of those after them, has those of its number.
#![tactic(auto)]

mod changes;
mod jobs;
mod laws;
mod pods;
mod shared_pods;

pub use jobs::JobCache;
pub use laws::{listed_jobs_fill_the_table, pods_stay_with_their_owner};
pub use pods::PodCache;
