//! That every settle ends whose pods succeed in the end, or fail so that it counts.
#![tactic(auto)]

mod laws;

pub use laws::settles_end;
