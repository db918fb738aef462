//! Scripts: bytes to commands.
#![tactic(auto)]

mod commands;
mod laws;
mod lines;
mod scripts;
mod updates;
mod verbs;

pub use commands::Said;
pub use jc_members::{Cause, LineFault, read_ends, read_given_number, read_report};
pub use laws::scripts_fit_their_shape;
pub use lines::{first_line, trimmed};
pub use scripts::{ScriptFault, read_script, read_text};
pub use updates::read_change;
