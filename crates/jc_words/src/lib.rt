//! The words of the program: what it is asked to do.
//!
//! `run` and options play a script, `reap` and options play it and collect what is finished, `audit` and options look
//! at a report, and `generate NUMBER JOBS PODS` plays a generated script. All other words ask for nothing.
#![tactic(auto)]

mod laws;
mod numbers;
mod options;
mod words;

pub use laws::{orders_fit, words_read};
pub use words::{LockKind, Order, default_shape, read_words};
