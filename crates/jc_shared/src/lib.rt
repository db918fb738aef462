//! Threaded runs: seats that share one cluster behind a lock, and make their plans outside it. The
//! lock is a mutex, or a turn lock, whose seats know a beginning of the one history.
#![tactic(auto)]

mod by_mutex;
mod by_turn_lock;
mod clusters;
mod faults;
mod finishing;
mod gate;
mod host;
mod monitor;
mod play;
mod seen;

pub use by_mutex::run_threads;
pub use by_turn_lock::run_turn;
pub use faults::ThreadsFault;
pub use gate::{FreeGate, Gate};
pub use host::Host;
pub use jc_seats::{Actor, ApplyFault, Cluster, Kept, Naming, keep};
pub use play::Play;
pub use seen::{SeenReply, apply_seen};
