//! What a client sees of the store: lists of all objects of a kind, and the entries that come after
//! a version (the list and the watch of Kubernetes' API).
#![tactic(auto)]

mod lists;
mod told;
mod watch;

pub use jc_store::Store;
pub use lists::{list_jobs, list_pods};
pub use told::Next;
pub use watch::next;
