//! Jobs and pods as the store keeps them, and the entries of its log.

use crate::copies::{Copied, Same, Want};
use crate::lists::ListOf;
use crate::numbers::{Uid, Version};
use crate::policies::PodConditions;
use crate::shared::Arc;
use crate::specifications::{JobSpec, Restart};
use crate::statuses::JobStatus;
use crate::texts::{Label, Name};
use jc_moment::Moment;

/// Where a Job stands: its namespace and its name in it.
#[derive(PartialEq, Eq, PartialOrd, Ord, Hash, Drop)]
pub struct KeyNames {
    /// The namespace (`metadata.namespace`).
    pub namespace: Label,
    /// The name in it (`metadata.name`).
    pub name: Label,
}

/// The key of a Job. Its copies share its memory.
pub type Key = Arc<KeyNames>;

/// A Job.
#[derive(Drop)]
pub struct Job {
    /// Its namespace and its name.
    pub key: Key,
    /// Its UID, by which it differs from an earlier Job of the key.
    pub uid: Uid,
    /// The place of its last write in the log.
    pub version: Version,
    /// When it was created (`creationTimestamp`).
    pub created: Moment,
    /// The wanted state.
    pub spec: Arc<JobSpec>,
    /// The observed state.
    pub status: Arc<JobStatus>,
}

/// Jobs in an order of their own.
pub type Jobs = ListOf<Arc<Job>>;

/// How far a pod has come (`PodPhase` of core/v1).
#[derive(Clone, Copy, PartialEq, Eq, Debug)]
pub enum Phase {
    /// Its containers have not started.
    Pending,
    /// A container runs, or is about to be restarted.
    Running,
    /// All containers have ended with exit code 0.
    Succeeded,
    /// All containers have ended, one of them with another exit code.
    Failed,
}

/// A container of a pod.
#[derive(Drop)]
pub struct Container {
    /// Its name, which no other container of the pod has.
    pub name: Name,
    /// Whether it is an init container.
    pub init: bool,
    /// Its exit code, once it has ended.
    pub exit: Option<i32>,
    /// How often it was restarted.
    pub restarts: u32,
}

/// The containers of a pod, and after them its init containers.
pub type Containers = ListOf<Container>;

/// A pod of a Job.
// What has a byte stands together: fields lie in this order, and each write of a pod keeps one.
#[derive(Drop)]
pub struct Pod {
    /// Its UID.
    pub uid: Uid,
    /// The place of its last write in the log.
    pub version: Version,
    /// The key of the Job that it was made for.
    pub owner: Key,
    /// The UID of the Job that it was made for.
    pub owner_uid: Uid,
    /// How many pods were made before it for the same owner UID.
    pub serial: u32,
    /// Its completion index, in an Indexed Job.
    pub index: Option<u32>,
    /// What becomes of a container that exits.
    pub restart: Restart,
    /// How far it has come.
    pub phase: Phase,
    /// Whether it has the finalizer `batch.kubernetes.io/job-tracking` (KEP-2307).
    pub tracked: bool,
    /// Its containers, and after them its init containers.
    pub containers: Containers,
    /// Its conditions, in the order in which they came.
    pub conditions: PodConditions,
    /// When it was marked for deletion (`deletionTimestamp`).
    pub marked: Option<Moment>,
    /// When it was created (`creationTimestamp`).
    pub created: Moment,
}

/// The two kinds of objects.
#[derive(Clone, Copy, PartialEq, Eq, Debug)]
pub enum Kind {
    /// Jobs.
    Jobs,
    /// Pods.
    Pods,
}

/// An accepted write: the object as it stands after it, or as it last stood before it went.
#[derive(Drop)]
pub enum Entry {
    /// The Job was created or changed.
    JobPut(Arc<Job>),
    /// The Job was deleted.
    JobGone(Arc<Job>),
    /// The pod was created or changed.
    PodPut(Arc<Pod>),
    /// The pod went: it was marked, had ended and lost its finalizer.
    PodGone(Arc<Pod>),
}

/// Entries in the order of their versions.
pub type Entries = ListOf<Entry>;

impl Copied for Phase {
    fn copy(&self) -> Result<Self, Want> {
        Ok(*self)
    }
}

impl Copied for Kind {
    fn copy(&self) -> Result<Self, Want> {
        Ok(*self)
    }
}

impl Copied for Job {
    fn copy(&self) -> Result<Self, Want> {
        Ok(Job {
            key: self.key.copy()?,
            uid: self.uid,
            version: self.version,
            created: self.created,
            spec: self.spec.copy()?,
            status: self.status.copy()?,
        })
    }
}

impl Copied for Container {
    fn copy(&self) -> Result<Self, Want> {
        Ok(Container {
            name: self.name.copy()?,
            init: self.init,
            exit: self.exit,
            restarts: self.restarts,
        })
    }
}

impl Copied for Pod {
    fn copy(&self) -> Result<Self, Want> {
        Ok(Pod {
            uid: self.uid,
            version: self.version,
            owner: self.owner.copy()?,
            owner_uid: self.owner_uid,
            serial: self.serial,
            index: self.index,
            restart: self.restart,
            phase: self.phase,
            containers: self.containers.copy()?,
            conditions: self.conditions.copy()?,
            marked: self.marked,
            tracked: self.tracked,
            created: self.created,
        })
    }
}

impl Copied for Entry {
    fn copy(&self) -> Result<Self, Want> {
        match self {
            Entry::JobPut(job) => Ok(Entry::JobPut(job.copy()?)),
            Entry::JobGone(job) => Ok(Entry::JobGone(job.copy()?)),
            Entry::PodPut(pod) => Ok(Entry::PodPut(pod.copy()?)),
            Entry::PodGone(pod) => Ok(Entry::PodGone(pod.copy()?)),
        }
    }
}

impl Same for Phase {
    fn is_same(&self, other: &Self) -> bool {
        *self == *other
    }
}

impl Same for Kind {
    fn is_same(&self, other: &Self) -> bool {
        *self == *other
    }
}

impl Same for KeyNames {
    fn is_same(&self, other: &Self) -> bool {
        self.namespace.is_same(&other.namespace) && self.name.is_same(&other.name)
    }
}

impl Same for Job {
    fn is_same(&self, other: &Self) -> bool {
        self.key.is_same(&other.key)
            && self.uid == other.uid
            && self.version == other.version
            && self.created == other.created
            && self.spec.is_same(&other.spec)
            && self.status.is_same(&other.status)
    }
}

impl Same for Container {
    fn is_same(&self, other: &Self) -> bool {
        self.name.is_same(&other.name)
            && self.init == other.init
            && self.exit == other.exit
            && self.restarts == other.restarts
    }
}

impl Same for Pod {
    fn is_same(&self, other: &Self) -> bool {
        self.uid == other.uid
            && self.version == other.version
            && self.owner.is_same(&other.owner)
            && self.owner_uid == other.owner_uid
            && self.serial == other.serial
            && self.index == other.index
            && self.restart == other.restart
            && self.phase == other.phase
            && self.containers.is_same(&other.containers)
            && self.conditions.is_same(&other.conditions)
            && self.marked.is_same(&other.marked)
            && self.tracked == other.tracked
            && self.created == other.created
    }
}

impl Same for Entry {
    fn is_same(&self, other: &Self) -> bool {
        match (self, other) {
            (Entry::JobPut(job), Entry::JobPut(job2)) => job.is_same(job2),
            (Entry::JobGone(job), Entry::JobGone(job2)) => job.is_same(job2),
            (Entry::PodPut(pod), Entry::PodPut(pod2)) => pod.is_same(pod2),
            (Entry::PodGone(pod), Entry::PodGone(pod2)) => pod.is_same(pod2),
            _ => false,
        }
    }
}
