//! What a sync asks of the store, in which order, and what the answers make of it.
#![tactic(auto)]

mod asks;
mod courses;
mod laws;

pub use asks::Ask;
pub use courses::Asks;
pub use laws::requests_are_answered;
