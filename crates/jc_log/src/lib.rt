//! The log of accepted writes, what it says of Jobs and pods, what may follow in it, and what the
//! store answers to each request at it (Kubernetes' API conventions): definitions, and the laws on
//! them.
//!
//! A log is read newest first. The entry of version n is the n-th that was written, so a version is
//! the length of the log that ends with its entry.
#![tactic(auto)]

mod laws;
mod requests;

pub use laws::{
    deeds_grow, logs_read_plainly, objects_stand_at_their_versions, pods_are_listed,
    prefix_is_fixed, uids_never_return, what_is_new_comes_last, writes_last,
};
pub use requests::{
    births_are_bounded, objects_change_by_steps, requests_are_writes, requests_keep_logs_legal,
};
