//! The machine: the store, the controllers with their workers, and the history of what happened.
#![tactic(auto)]

mod apply;
mod caches;
mod keeping;
mod machine;
mod node_clock;
mod quiescent;
mod store_commands;
mod sync;
mod workers;

pub use apply::ApplyFault;
pub use jc_store::Store;
pub use jc_team::{Basis, Moment};
pub use machine::Machine;
pub use sync::tells_begin;
