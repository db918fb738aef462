//! Whence what stands in a log comes: keys, numbers and dates.
#![tactic(auto)]

mod laws;

pub use laws::logs_come_of_their_deeds;
