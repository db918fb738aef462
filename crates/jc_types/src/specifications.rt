//! The specification of a Job (`JobSpec` of batch/v1).

ghost use Rattle.std.specs.Prelude.{◌≡◌, ◌↔◌, IsTrue};

use crate::copies::{Copied, Same, Want};
use crate::policies::{FailurePolicy, SuccessPolicy};
use crate::texts::Names;

/// How the completions of a Job are counted (`completionMode`, KEP-2214).
#[derive(Clone, Copy, PartialEq, Eq, Debug)]
pub enum Mode {
    /// By the number of succeeded pods.
    NonIndexed,
    /// By index: each completion has a pod of its own.
    Indexed,
}

/// When a pod is replaced (`podReplacementPolicy`).
#[derive(Clone, Copy, PartialEq, Eq, Debug)]
pub enum Replacement {
    /// As soon as it is marked for deletion or has failed.
    TerminatingOrFailed,
    /// Only once it has failed (`Failed`).
    FailedOnly,
}

/// What becomes of a container that exits (`restartPolicy`).
#[derive(Clone, Copy, PartialEq, Eq, Debug)]
pub enum Restart {
    /// It stays ended.
    Never,
    /// It is started again, unless it has exited with 0.
    OnFailure,
}

/// What the pods of a Job are made from.
#[derive(Drop)]
pub struct Template {
    /// What becomes of a container that exits.
    pub restart: Restart,
    /// The names of the containers.
    pub containers: Names,
    /// The names of the init containers.
    pub inits: Names,
}

/// The wanted state of a Job.
#[derive(Drop)]
pub struct JobSpec {
    /// How many pods may run at once.
    pub parallelism: u32,
    /// How many completions are wanted; none makes a work queue Job.
    pub completions: Option<u32>,
    /// How the completions are counted.
    pub mode: Mode,
    /// Whether the Job is to have no pods (`suspend`).
    pub suspend: bool,
    /// The number of failed pods above which the Job fails.
    pub backoff_limit: u32,
    /// An index fails with more failed pods than this (`backoffLimitPerIndex`, KEP-3850).
    pub per_index: Option<u32>,
    /// The number of failed indexes above which the Job fails (`maxFailedIndexes`, KEP-3850).
    pub max_failed: Option<u32>,
    /// Seconds from the start time on (`activeDeadlineSeconds`).
    pub deadline: Option<u32>,
    /// When a pod is replaced.
    pub replacement: Replacement,
    /// What a failed pod does to the Job (`podFailurePolicy`).
    pub failure: Option<FailurePolicy>,
    /// When the Job has succeeded before all its indexes have (`successPolicy`).
    pub success: Option<SuccessPolicy>,
    /// What the pods are made from.
    pub template: Template,
}

impl Copied for Template {
    fn copy(&self) -> Result<Self, Want> {
        Ok(Template {
            restart: self.restart,
            containers: self.containers.copy()?,
            inits: self.inits.copy()?,
        })
    }
}

impl Copied for JobSpec {
    fn copy(&self) -> Result<Self, Want> {
        Ok(JobSpec {
            parallelism: self.parallelism,
            completions: self.completions,
            mode: self.mode,
            suspend: self.suspend,
            backoff_limit: self.backoff_limit,
            per_index: self.per_index,
            max_failed: self.max_failed,
            deadline: self.deadline,
            replacement: self.replacement,
            failure: self.failure.copy()?,
            success: self.success.copy()?,
            template: self.template.copy()?,
        })
    }
}

impl Same for Template {
    fn is_same(&self, other: &Self) -> bool {
        self.restart == other.restart
            && self.containers.is_same(&other.containers)
            && self.inits.is_same(&other.inits)
    }
}

// Whether the limits of failures and of time agree.
fn has_same_limits(a: &JobSpec, b: &JobSpec) -> bool
    ensures { IsTrue result
        ↔ ((a.now.backoff_limit ≡ b.now.backoff_limit)
        × ((a.now.per_index ≡ b.now.per_index)
        × ((a.now.max_failed ≡ b.now.max_failed) × (a.now.deadline ≡ b.now.deadline)))) }
{
    a.backoff_limit == b.backoff_limit
        && a.per_index == b.per_index
        && a.max_failed == b.max_failed
        && a.deadline == b.deadline
}

impl Same for JobSpec {
    fn is_same(&self, other: &Self) -> bool {
        self.parallelism == other.parallelism
            && self.completions == other.completions
            && self.mode == other.mode
            && self.suspend == other.suspend
            && has_same_limits(self, other)
            && self.replacement == other.replacement
            && self.failure.is_same(&other.failure)
            && self.success.is_same(&other.success)
            && self.template.is_same(&other.template)
    }
}
