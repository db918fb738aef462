//! What of statuses, moments and keys is still to come where no pod is written, and that a written status, an empty sync
//! and the clock leave less of it.
#![tactic(auto)]

mod laws;

pub use laws::{
    a_written_status_is_no_draft, bases_of_the_whole_log_show_all, empty_syncs_take_a_key,
    the_clock_brings_nothing_new, unwritten_plans_name_moments_to_come, wrong_statuses_are_drafts,
};
