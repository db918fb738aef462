//! The cluster with all its calls: one event, what is available, plays, and the plans that seats make beside it.
#![tactic(auto)]

mod changes;
mod cluster;
mod going;
mod holding;
mod offers;
mod reading;
mod registers;
mod since;
mod touches;

pub use cluster::Cluster;
pub use holding::Work;
pub use jc_play::{
    Actor, ApplyFault, Machine, Moment, Store, available_events_keep_the_order,
    new_machines_play_the_whole_script, play,
};
