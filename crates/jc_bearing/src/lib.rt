//! What a whole sync of a settle does: it runs alone from its begin to its end, and all that it plans is so.
#![tactic(auto)]

mod laws;

pub use laws::{
    the_node_allows_no_more_pods, whole_syncs_do_what_they_plan, whole_syncs_make_no_pod_beyond,
};
