//! What a plan that asks for nothing says of its Job.
#![tactic(auto)]

mod laws;

pub use laws::idle_plans_wait;
