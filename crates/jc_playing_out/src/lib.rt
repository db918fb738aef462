//! That each play of a script ends whose pods succeed in the end, or fail so that it counts.
#![tactic(auto)]

mod laws;

pub use laws::plays_end;
