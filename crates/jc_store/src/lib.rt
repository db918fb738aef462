//! The versioned object store: a log of accepted writes, and the requests that it answers.
//!
//! Beside the log the store keeps tables of the Jobs and pods that are there, which its contracts
//! do not name.
#![tactic(auto)]

mod containers;
mod job_requests;
mod new_objects;
mod pod_requests;
mod pod_table;
mod pod_writes;
mod reports;
mod spec_changes;
mod statuses;
mod store;

pub use pod_table::pods_among;
pub use statuses::same_status;
pub use store::Store;
