//! The steps of a sync against the store, and what they keep.
#![tactic(auto)]

mod laws;
mod syncing;

pub use jc_asks::Ask;
pub use jc_plan::{Plan, plan};
pub use laws::{
    conflicts_are_later, quiet_syncs_come_to_the_next_status, requests_keep_the_registers,
    steps_keep_what_ties, syncs_can_be_planned, syncs_keep_their_registers,
};
pub use syncing::{Progress, Syncing, as_answer};
