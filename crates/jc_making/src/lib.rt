//! How many pods a Job may still make, and that this falls with each pod that is made.
#![tactic(auto)]

mod laws;

pub use laws::{
    plans_keep_what_counts, plans_use_up_what_may_be_made, small_jobs_are_worked_out,
    the_node_needs_no_more_pods,
};
