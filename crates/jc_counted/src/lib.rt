//! That what counts of each Job of a legal history, and of its own pods, is in order.
#![tactic(auto)]

mod laws;

pub use laws::{ended_jobs_have_a_target, jobs_are_counted, keys_have_their_own_jobs};
