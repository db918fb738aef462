//! Marks of a list of events that only grows.
//!
//! A lock gives a thread no knowledge of what it saw when it held the lock before. A log and its
//! marks give it. The log lies under the lock, beside what has the list. A mark is cut from the log
//! and taken out of the lock. When it is brought back, what was marked is a beginning of what the
//! log has seen.
#![tactic(auto)]

mod board;
mod list_tag;
mod log;
mod plays;
#[cfg(test)]
mod tests;

pub use list_tag::ListTag;
pub use log::{Log, Mark};
