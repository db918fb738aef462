//! When a Job starts and how it ends (batch/v1, KEP-3329, KEP-3998): its start time and its deadline,
//! what decides its end, and its conditions.
#![tactic(auto)]

mod conditions;
mod decision;
mod laws;
mod restarts;
mod start;

pub use conditions::settle_conditions;
pub use decision::{decide, restarts_on_failure};
pub use laws::{conditions_stand, ends_are_decided_once};
pub use start::{next_deadline, start_in_force};
