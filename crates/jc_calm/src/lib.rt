//! How a settle goes on: by turns, from one calm state to the next.
#![tactic(auto)]

mod laws;

pub use laws::calm_settles_go_on;
