//! What a watch is told.

use jc_types::{Entry, Version};

/// What a watch is told next.
pub enum Next<'s> {
    /// The entry after the version.
    Entry(&'s Entry),
    /// There is no later entry.
    UpToDate,
    /// The version lies before the floor of the window, so that the entries after it can't be read.
    Expired { floor: Version },
}
