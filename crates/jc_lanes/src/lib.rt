//! The lanes of a script: how far each one is, also where a command more is put at the script's end.
#![tactic(auto)]

mod lanes;
mod laws;

pub use lanes::Lanes;
pub use laws::longer_scripts_keep_histories;
