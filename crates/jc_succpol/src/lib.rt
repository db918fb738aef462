//! The success policy of an Indexed Job (KEP-3998): which of its rules the completed indexes meet.
#![tactic(auto)]

mod laws;
mod members;
mod rules;

pub use laws::first_met_decides;
pub use rules::{is_met, met};
