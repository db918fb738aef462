//! The end of a settle: one without pods comes to rest.
#![tactic(auto)]

mod laws;

pub use laws::settles_without_pods_end;
