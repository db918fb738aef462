//! The bound of the members.

/// The greatest completion index that a set can hold: this project's own bound.
pub const GREATEST_INDEX: u32 = 99_999;
