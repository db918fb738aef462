//! The bounds of the numbers of a Job's specification, and of the lists in its status. Each is this
//! project's own, but for the greatest number of seconds or failures, which is that of a 32-bit member
//! (batch/v1), and for the number of uncounted pods (KEP-2307).

/// The greatest `parallelism`: so many pods may run at once.
pub const GREATEST_PARALLELISM: u32 = 5_000;

/// The greatest `completions`, and the greatest count that a success policy may ask for.
pub const GREATEST_COMPLETIONS: u32 = 10_000;

/// The greatest `backoffLimit`, and the greatest `activeDeadlineSeconds`.
pub const GREATEST_LIMIT: u32 = 2_147_483_647;

/// How many containers and init containers a template may have together.
pub const MOST_CONTAINERS: u32 = 100;

/// How many UIDs the two lists of uncounted pods hold together at most.
pub const MOST_UNCOUNTED: u32 = 500;
