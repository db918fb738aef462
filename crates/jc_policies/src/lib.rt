//! What a manifest says of a Job's policies: the pod failure policy (KEP-3329) and the success policy (KEP-3998).
#![tactic(auto)]

mod failure_policies;
mod success_policies;

pub use failure_policies::{is_type, read_failure, truth_of};
pub use success_policies::read_success;
