//! That a settle is finite: what may still be written of pods falls with each turn that writes one, so it comes to rest.
#![tactic(auto)]

mod laws;

pub use laws::{the_node_leaves_less, whole_syncs_leave_less};
