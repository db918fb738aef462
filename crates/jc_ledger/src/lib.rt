//! The ledger of judged pods, and the laws by which each pod is counted once (KEP-2307).
#![tactic(auto)]

mod counts;
mod flights;
mod laws;

pub use counts::Verdicts;
pub use flights::Flight;
pub use laws::{
    each_pod_is_counted_once, each_version_can_be_planned, pods_are_judged_once,
    steps_keep_what_ties, the_start_is_tied,
};
