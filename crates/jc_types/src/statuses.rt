//! The status of a Job (`JobStatus` of batch/v1, with the fields of KEP-2307).

use crate::copies::{Copied, Same, Want};
use crate::lists::ListOf;
use crate::numbers::Uids;
use crate::pieces::IndexCounts;
use jc_moment::Moment;
use jc_ranges::Ranges;

/// The type of a Job's condition.
#[derive(Clone, Copy, PartialEq, Eq, Debug)]
pub enum CondKind {
    /// The Job is suspended.
    Suspended,
    /// The Job will fail, once its pods have ended (KEP-3329).
    FailureTarget,
    /// The Job will succeed, once its pods have ended (KEP-3998).
    SuccessCriteriaMet,
    /// The Job has failed.
    Failed,
    /// The Job has succeeded.
    Complete,
}

/// The reason of a Job's condition.
#[derive(Clone, Copy, PartialEq, Eq, Debug)]
pub enum Reason {
    /// More pods failed than the backoff limit allows.
    BackoffLimitExceeded,
    /// The Job ran longer than its deadline allows.
    DeadlineExceeded,
    /// A rule of the pod failure policy failed the Job.
    PodFailurePolicy,
    /// A rule of the success policy is met.
    SuccessPolicy,
    /// As many pods, or indexes, have succeeded as are wanted.
    CompletionsReached,
    /// The Job was suspended.
    JobSuspended,
    /// The Job was resumed.
    JobResumed,
    /// More indexes failed than may fail (KEP-3850).
    MaxFailedIndexesExceeded,
    /// All indexes have ended, and some have failed (KEP-3850).
    FailedIndexes,
}

/// A condition of a Job.
#[derive(Clone, Copy, PartialEq, Eq, Debug)]
pub struct Condition {
    /// Its type.
    pub kind: CondKind,
    /// Whether it is true.
    pub status: bool,
    /// Why it became so.
    pub reason: Reason,
    /// When the status last changed (`lastTransitionTime`).
    pub since: Moment,
}

/// The conditions of a Job, in the order in which they came.
pub type Conditions = ListOf<Condition>;

/// How often pods of one index have failed (KEP-3850).
// The two small ones stand together: fields lie in this order, and each status with one more failure has up to 64 copies.
#[derive(Clone, Copy, PartialEq, Eq, Debug)]
pub struct IndexCount {
    /// The index.
    pub index: u32,
    /// Whether the failure policy failed the index for one of them.
    pub fail: bool,
    /// How many of its pods were judged as failed.
    pub failures: u64,
}

/// The observed state of a Job.
#[derive(Drop)]
pub struct JobStatus {
    /// Pods that are pending or running and not marked for deletion.
    pub active: u32,
    /// Active pods whose condition `Ready` is true.
    pub ready: u32,
    /// Pods that are marked for deletion and have not ended.
    pub terminating: u32,
    /// The total of succeeded pods.
    pub succeeded: u64,
    /// The total of failed pods.
    pub failed: u64,
    /// The indexes that have succeeded (`completedIndexes`).
    pub completed: Ranges,
    /// The indexes that have failed (`failedIndexes`, KEP-3850).
    pub failed_indexes: Ranges,
    /// The failures of each index, which outlive its pods (KEP-3850).
    pub index_failures: IndexCounts,
    /// Succeeded pods that the totals do not count yet (`uncountedTerminatedPods`).
    pub uncounted_succeeded: Uids,
    /// Failed pods that the totals do not count yet (`uncountedTerminatedPods`).
    pub uncounted_failed: Uids,
    /// When the Job started, or was last resumed (`startTime`).
    pub start: Option<Moment>,
    /// When the Job succeeded (`completionTime`).
    pub completion: Option<Moment>,
    /// The conditions, in the order in which they came.
    pub conditions: Conditions,
}

impl Copied for Condition {
    fn copy(&self) -> Result<Self, Want> {
        Ok(*self)
    }
}

impl Copied for IndexCount {
    fn copy(&self) -> Result<Self, Want> {
        Ok(*self)
    }
}

impl Copied for JobStatus {
    fn copy(&self) -> Result<Self, Want> {
        Ok(JobStatus {
            active: self.active,
            ready: self.ready,
            terminating: self.terminating,
            succeeded: self.succeeded,
            failed: self.failed,
            completed: self.completed.copy()?,
            failed_indexes: self.failed_indexes.copy()?,
            index_failures: self.index_failures.copy()?,
            uncounted_succeeded: self.uncounted_succeeded.copy()?,
            uncounted_failed: self.uncounted_failed.copy()?,
            start: self.start,
            completion: self.completion,
            conditions: self.conditions.copy()?,
        })
    }
}

impl Same for Condition {
    fn is_same(&self, other: &Self) -> bool {
        self.kind == other.kind
            && self.status == other.status
            && self.reason == other.reason
            && self.since == other.since
    }
}

impl Same for IndexCount {
    fn is_same(&self, other: &Self) -> bool {
        self.index == other.index && self.failures == other.failures && self.fail == other.fail
    }
}

impl Same for JobStatus {
    fn is_same(&self, other: &Self) -> bool {
        self.active == other.active
            && self.ready == other.ready
            && self.terminating == other.terminating
            && self.succeeded == other.succeeded
            && self.failed == other.failed
            && self.completed.is_same(&other.completed)
            && self.failed_indexes.is_same(&other.failed_indexes)
            && self.index_failures.is_same(&other.index_failures)
            && self.uncounted_succeeded.is_same(&other.uncounted_succeeded)
            && self.uncounted_failed.is_same(&other.uncounted_failed)
            && self.start.is_same(&other.start)
            && self.completion.is_same(&other.completion)
            && self.conditions.is_same(&other.conditions)
    }
}
