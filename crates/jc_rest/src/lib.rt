//! What holds where nothing is left to do: no ended pod is forgotten, no Job is stuck, and no
//! orphan is left.
#![tactic(auto)]

mod laws;

pub use laws::{
    finalizers_are_lost_with_a_cause, no_ended_pod_is_forgotten_at_rest, no_job_is_stuck_at_rest,
    no_orphan_is_left_at_rest,
};
