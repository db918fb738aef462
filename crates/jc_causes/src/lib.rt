//! Why a sync makes, marks, lets go and releases pods: each of its requests has a cause in what it saw.
#![tactic(auto)]

mod laws;

pub use laws::requests_have_causes;
