//! What a cluster has, and what its history says: the invariant of the machine, and what each event
//! keeps of it.
#![tactic(auto)]

mod laws;

pub use jc_manifest::allowed_updates_stay_valid;
pub use laws::{
    conflicts_tell_later_versions, failures_stay_small, legal_histories_count_once,
    legal_histories_tell_later_versions, quiet_syncs_reach_the_next_status, runs_count_once,
    runs_start, syncs_can_go_on, valid_scripts_ask_valid,
};
