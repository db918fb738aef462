//! What the seats of a threaded run share, and what each of them does with it: a cluster of a named script and shape,
//! turns, and plans that are handed in. It waits for nothing.
#![tactic(auto)]

mod hands;
mod kept;
mod lanes;
mod naming;
mod next_action;
mod players;
mod shared_run;
mod turns;

pub use hands::hand_in;
pub use jc_core::{Actor, ApplyFault, Cluster, Work};
pub use kept::{Kept, keep};
pub use lanes::lanes_are_bytes;
pub use naming::{LogTag, Naming};
pub use next_action::NextAction;
pub use players::Player;
pub use shared_run::{PlanTask, SharedRun};
