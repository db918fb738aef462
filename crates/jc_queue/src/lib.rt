//! The work queue of a controller, and the delays of its keys, after client-go's queue.
//!
//! A key that is added while it is processing waits until it is done, so that no two workers have it at
//! once. A contract sees a queue as a line, a set of dirty keys and the keys that are processing, and the
//! delays as two tables, each beside its room: so many more keys it takes with no memory.
#![tactic(auto)]

mod calls;
mod copied;
mod copies;
mod delays;
mod laws;
mod queue;

pub use calls::{Call, gets_no_processing_key, run};
pub use copies::{Supply, Twice};
pub use delays::Delays;
pub use laws::{
    calls_keep_a_queue, due_keys_leave_one_by_one, equal_moments_are_due_alike,
    rows_are_due_in_turn, what_was_added_is_taken_back,
};
pub use queue::Queue;
