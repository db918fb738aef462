//! What the words ask for on one thread: it is read, played and written, and what is printed tells a history of which all
//! promises hold.
#![tactic(auto)]

mod laws;
mod orders;
mod plays;
mod reaps;
mod single;
mod status;

pub use jc_promise::{
    legal_histories_keep_the_promises, orderly_histories_have_small_numbers,
    plays_are_orderly_histories,
};
pub use jc_reap::{reaped_commands_can_be_said, reaped_commands_fit};
pub use jc_report::{report, report_of_machine};
pub use laws::{
    jobs_end_or_wait, plays_tell_their_history, reapers_collect_what_is_due,
    runs_tell_their_history, single_runs_end_as_told,
};
pub use orders::{Output, Writing};
pub use single::{MOST_BYTES, run_order, run_single, write_output};
pub use status::Status;
