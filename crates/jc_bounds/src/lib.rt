//! Bounds on a Job's pods, and what stays once a Job has ended.
#![tactic(auto)]

mod laws;

pub use laws::{
    ended_jobs_stay, histories_are_bounded, histories_keep_ends, legal_histories_have_legal_logs,
    logs_tell_of_work, one_controller_holds_the_bounds, pods_that_are_made_fit,
};
