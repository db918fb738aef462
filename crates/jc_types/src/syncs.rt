//! What a sync of the Job controller counts, and the parts of what it starts from.

ghost use Rattle.std.specs.Prelude.{◌≡◌, ◌<◌, ◌^◌};
ghost use Rattle.jc_types.specs.Counts.{counts as counts_of};

use crate::copies::{Copied, Same, Want};
use crate::lists::ListOf;
use crate::numbers::{Uid, Uids, Version};
use crate::pieces::IndexCounts;
use jc_moment::Moment;
use jc_ranges::Ranges;

/// Completion indexes of pods to make; none for a pod of a Job that is not Indexed.
pub type Indexes = ListOf<Option<u32>>;

/// Pods, each at the version at which it was seen.
pub type PodVersions = ListOf<(Uid, Version)>;

/// The failures of a key in a row, after which its next pods are delayed.
#[derive(Clone, Copy, PartialEq, Eq, Debug)]
pub struct Backoff {
    /// How many failures there were.
    pub failures: u64,
    /// When the last of them was seen.
    pub last: Option<Moment>,
}

/// The counts of a sync over its basis (KEP-2307).
#[derive(Drop)]
pub struct CountIn {
    /// Succeeded pods that the totals do not count yet.
    pub uncounted_succeeded: Uids,
    /// Failed pods that the totals do not count yet.
    pub uncounted_failed: Uids,
    /// The total of succeeded pods.
    pub succeeded: u64,
    /// The total of failed pods.
    pub failed: u64,
    /// The indexes that have succeeded.
    pub completed: Ranges,
    /// The indexes that have failed (KEP-3850).
    pub failed_indexes: Ranges,
    /// The failures of each index (KEP-3850).
    pub index_failures: IndexCounts,
    /// The pods whose finalizer is to go.
    pub releases: Uids,
    /// How many successes are counted in now; of an Indexed Job, how many indexes.
    pub new_succeeded: u32,
    /// How many failures are counted in now.
    pub new_failed: u32,
    /// The failed pods that are counted in now, in ascending order.
    pub judged_failed: Uids,
    /// How many succeeded pods are left over for a later sync.
    pub left_succeeded: u32,
    /// How many failed pods are left over for a later sync.
    pub left_failed: u32,
}

/// The failed count and the succeeded count of a Job (KEP-2307): each total with the length of its
/// list of uncounted pods and with the pods that are left over. Both are below 2^64.
pub fn counts(counted: &CountIn) -> (u64, u64)
    requires failed { (counts_of counted.now).0 < 2 ^ 64 }
    requires succeeded { (counts_of counted.now).1 < 2 ^ 64 }
    ensures { result ≡ counts_of counted.now }
{
    (
        counted.failed + counted.uncounted_failed.len() as u64 + u64::from(counted.left_failed),
        counted.succeeded
            + counted.uncounted_succeeded.len() as u64
            + u64::from(counted.left_succeeded),
    )
}

impl Copied for (Uid, Version) {
    fn copy(&self) -> Result<Self, Want> {
        Ok(*self)
    }
}

impl Copied for Backoff {
    fn copy(&self) -> Result<Self, Want> {
        Ok(*self)
    }
}

impl Copied for CountIn {
    fn copy(&self) -> Result<Self, Want> {
        Ok(CountIn {
            uncounted_succeeded: self.uncounted_succeeded.copy()?,
            uncounted_failed: self.uncounted_failed.copy()?,
            succeeded: self.succeeded,
            failed: self.failed,
            completed: self.completed.copy()?,
            failed_indexes: self.failed_indexes.copy()?,
            index_failures: self.index_failures.copy()?,
            releases: self.releases.copy()?,
            new_succeeded: self.new_succeeded,
            new_failed: self.new_failed,
            judged_failed: self.judged_failed.copy()?,
            left_succeeded: self.left_succeeded,
            left_failed: self.left_failed,
        })
    }
}

impl Same for Backoff {
    fn is_same(&self, other: &Self) -> bool {
        self.failures == other.failures && self.last.is_same(&other.last)
    }
}

impl Same for (Uid, Version) {
    fn is_same(&self, other: &Self) -> bool {
        self.0 == other.0 && self.1 == other.1
    }
}
