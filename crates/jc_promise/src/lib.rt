//! What holds of each history that the program prints.
#![tactic(auto)]

mod laws;

pub use jc_order::{plays_are_orderly_histories, settled_plays_are_at_rest};
pub use laws::{
    a_job_of_one_controller_ends, a_job_waits_at_rest, a_sync_is_quiet,
    an_orphan_is_released_at_rest, legal_histories_keep_the_promises,
    orderly_histories_have_small_numbers, wrong_histories_are_refused,
};
