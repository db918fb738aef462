//! What failed pods make of their indexes (KEP-3850): how often pods of each index have failed, and which
//! indexes have failed by that.
#![tactic(auto)]

mod counts;
mod filling;

pub use filling::fill;
