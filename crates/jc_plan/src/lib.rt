//! The plan of a sync of the Job controller (batch/v1, KEP-2307): the requests that it makes, with the
//! two statuses that it writes.
#![tactic(auto)]

mod laws;
mod numbers;
mod parts;
mod plans;
mod releases;
mod statuses;

pub use laws::{
    creations_fit, ended_jobs_are_left_alone, ends_are_final, ends_leave_nothing,
    failed_jobs_get_a_target, failures_are_bounded, first_status_counts_in, last_status_is_next,
    plans_are_of_their_job, plans_without_writes_leave_nothing, pods_ascend, releases_are_of_pods,
    second_status_counts_out, unneeded_first_changes_nothing,
};
pub use parts::plan;
pub use plans::Plan;
