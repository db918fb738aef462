//! That containers restart within a limit in a settle: those of a Job that is there are stopped once they have restarted too
//! often.
#![tactic(auto)]

mod laws;

pub use laws::plans_stop_what_restarts_too_often;
