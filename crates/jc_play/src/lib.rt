//! What a machine can do of itself, and doing it: one event after another until nothing is left.
#![tactic(auto)]

mod actors;
mod bringing;
mod fitting;
mod kinds;
mod laws;
mod next;
mod offers;
mod playing;
mod settling;
mod slots;
mod unheld;
mod ways;
mod whole;

pub use actors::Actor;
pub use fitting::fits;
pub use jc_machine::{ApplyFault, Basis, Machine, Moment, Store, tells_begin};
pub use laws::{available_events_keep_the_order, new_machines_play_the_whole_script};
pub use next::{is_quiescent, next_event};
pub use offers::available;
pub use settling::settle;
pub use slots::Slot;
pub use unheld::{has_holder, next_unheld};
pub use whole::play;
