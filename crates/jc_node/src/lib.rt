//! The node, in the place of a kubelet: it starts, restarts and finishes pods as their fates say,
//! and stops those that are marked for deletion.
#![tactic(auto)]

mod acts;
mod changes;
mod conditions;
mod fates;
mod laws;
mod steps;

pub use acts::{NodeAct, NodeStep};
pub use changes::{change, finish_change};
pub use fates::Fates;
pub use laws::{fates_follow_the_deeds, steps_can_be_made};
pub use steps::node_step;
