//! The generator: from three numbers a script that creates Jobs, decides how their pods end, and lets all settle.
#![tactic(auto)]

mod generator;
mod laws;

pub use generator::{are_sizes, generate};
pub use laws::{constants_of_rules, generated_commands_are_valid, generated_scripts_are_fit};
