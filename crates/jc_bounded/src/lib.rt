//! That pods are bounded in a settle: none is made beyond those that may be made when it begins.
#![tactic(auto)]

mod laws;

pub use laws::{
    completions_bound_the_pods, settles_make_no_pod_beyond, settles_without_faults_calm_down,
    turns_allow_no_more_pods,
};
