//! The commands of a script.

use crate::copies::{Copied, Same, Want, copied_variant, is_same_variant};
use crate::lists::ListOf;
use crate::numbers::{Uid, Version};
use crate::objects::{Key, Kind, Phase};
use crate::policies::PodConditions;
use crate::shared::Arc;
use crate::specifications::JobSpec;
use crate::texts::{Name, Text};

/// What a report says of one container; what is not given stays.
#[derive(Drop)]
pub struct ContainerChange {
    /// The container's name.
    pub name: Name,
    /// The exit code that it has ended with.
    pub exit: Option<i32>,
    /// How often it was restarted.
    pub restarts: Option<u32>,
}

/// What a report says of the containers of a pod.
pub type ContainerChanges = ListOf<ContainerChange>;

/// What a report says of a pod.
#[derive(Drop)]
pub struct PhaseChange {
    /// How far the pod has come.
    pub phase: Phase,
    /// What is said of its containers.
    pub containers: ContainerChanges,
    /// Conditions that replace those of their kind or are added.
    pub conditions: PodConditions,
}

/// New members of a Job's specification; what is not given stays.
#[derive(Clone, Copy, PartialEq, Eq, Debug)]
pub struct SpecChange {
    /// How many pods may run at once.
    pub parallelism: Option<u32>,
    /// How many completions are wanted.
    pub completions: Option<u32>,
    /// Whether the Job is suspended.
    pub suspend: Option<bool>,
    /// Seconds from the start time on (`activeDeadlineSeconds`).
    pub deadline: Option<u32>,
    /// The number of failed pods above which the Job fails.
    pub backoff_limit: Option<u32>,
}

/// How a pod is to end.
#[derive(Drop)]
pub struct End {
    /// The exit code of its first container.
    pub exit: i32,
    /// How often that container is restarted before.
    pub restarts: u32,
    /// A condition that the pod then has.
    pub condition: Option<Text>,
}

/// The ends of the pods of one key: that at the pod's serial, or the last.
pub type Ends = ListOf<End>;

/// What befalls the next request of a worker.
#[derive(Clone, Copy, PartialEq, Eq, Debug)]
pub enum Fault {
    /// The request is not made.
    Drop,
    /// The request is made and its answer is lost.
    Lose,
}

/// What a command of a script does.
#[derive(Drop)]
pub enum Action1 {
    /// Creates a Job.
    Create {
        key: Key,
        spec: Arc<JobSpec>,
    },
    /// Changes a Job's specification; where a version is given, only at that version.
    Update {
        key: Key,
        version: Option<Version>,
        change: SpecChange,
    },
    /// Deletes a Job.
    Delete {
        key: Key,
    },
    /// Marks a pod for deletion.
    Mark {
        pod: Uid,
    },
    /// Takes a pod's finalizer, whether or not the pod is counted.
    Strip {
        pod: Uid,
    },
    /// Ends a pod with an exit code.
    Finish {
        pod: Uid,
        exit: i32,
    },
    /// Reports a pod's phase.
    Report {
        pod: Uid,
        change: PhaseChange,
    },
    /// Decides how the pods of a key are to end.
    Fate {
        key: Key,
        ends: Ends,
    },
    /// Seconds that pass.
    Clock {
        add: u64,
    },
    /// A controller lists the objects of a kind into its cache.
    List {
        controller: u32,
        kind: Kind,
    },
    /// A controller's cache of a kind is given the next entry of the log.
    Deliver {
        controller: u32,
        kind: Kind,
    },
    /// A worker begins a sync of the first key in the line.
    Begin {
        controller: u32,
        worker: u32,
    },
    /// A worker whose caches are brought up to date begins a sync, and makes all its requests.
    Sync {
        controller: u32,
        worker: u32,
    },
    /// A worker makes the next request of its sync.
    Step {
        controller: u32,
        worker: u32,
    },
    /// The node takes a pod one step further.
    Node,
    /// A controller forgets all that it has.
    Restart {
        controller: u32,
    },
    /// A fault befalls the next request of a worker.
    PutFault {
        controller: u32,
        worker: u32,
        fault: Fault,
    },
    /// The system makes events of itself until none is left to make.
    Settle,
}

/// A command: who gives it, and what it does.
#[derive(Drop)]
pub struct Command {
    /// The lane of the script that it stands in, 0 to 15.
    pub lane: u8,
    /// What it does.
    pub action: Action1,
}

/// Commands in the order of their file.
pub type Commands = ListOf<Command>;

/// A script.
#[derive(Drop)]
pub struct Script {
    /// Its commands, in the order of their file.
    pub commands: Commands,
}

impl Copied for Fault {
    fn copy(&self) -> Result<Self, Want> {
        Ok(*self)
    }
}

impl Copied for ContainerChange {
    fn copy(&self) -> Result<Self, Want> {
        Ok(ContainerChange {
            name: self.name.copy()?,
            exit: self.exit,
            restarts: self.restarts,
        })
    }
}

impl Copied for PhaseChange {
    fn copy(&self) -> Result<Self, Want> {
        Ok(PhaseChange {
            phase: self.phase,
            containers: self.containers.copy()?,
            conditions: self.conditions.copy()?,
        })
    }
}

impl Copied for SpecChange {
    fn copy(&self) -> Result<Self, Want> {
        Ok(*self)
    }
}

impl Copied for End {
    fn copy(&self) -> Result<Self, Want> {
        Ok(End {
            exit: self.exit,
            restarts: self.restarts,
            condition: self.condition.copy()?,
        })
    }
}

impl Copied for Action1 {
    fn copy(&self) -> Result<Self, Want> {
        copied_variant!(self, Action1 {
            Create { key, spec },
            Update { key, version, change },
            Delete { key },
            Mark { pod },
            Strip { pod },
            Finish { pod, exit },
            Report { pod, change },
            Fate { key, ends },
            Clock { add },
            List { controller, kind },
            Deliver { controller, kind },
            Begin { controller, worker },
            Sync { controller, worker },
            Step { controller, worker },
            Node {},
            Restart { controller },
            PutFault { controller, worker, fault },
            Settle {},
        })
    }
}

impl Copied for Command {
    fn copy(&self) -> Result<Self, Want> {
        Ok(Command {
            lane: self.lane,
            action: self.action.copy()?,
        })
    }
}

impl Copied for Script {
    fn copy(&self) -> Result<Self, Want> {
        Ok(Script {
            commands: self.commands.copy()?,
        })
    }
}

impl Same for Fault {
    fn is_same(&self, other: &Self) -> bool {
        *self == *other
    }
}

impl Same for ContainerChange {
    fn is_same(&self, other: &Self) -> bool {
        self.name.is_same(&other.name) && self.exit == other.exit && self.restarts == other.restarts
    }
}

impl Same for PhaseChange {
    fn is_same(&self, other: &Self) -> bool {
        self.phase == other.phase
            && self.containers.is_same(&other.containers)
            && self.conditions.is_same(&other.conditions)
    }
}

impl Same for SpecChange {
    fn is_same(&self, other: &Self) -> bool {
        self.parallelism == other.parallelism
            && self.completions == other.completions
            && self.suspend == other.suspend
            && self.deadline == other.deadline
            && self.backoff_limit == other.backoff_limit
    }
}

impl Same for End {
    fn is_same(&self, other: &Self) -> bool {
        self.exit == other.exit
            && self.restarts == other.restarts
            && self.condition.is_same(&other.condition)
    }
}

impl Same for Action1 {
    fn is_same(&self, other: &Self) -> bool {
        is_same_variant!(self, other, Action1 {
            Create { key: key2, spec: spec2 },
            Update { key: key2, version: version2, change: change2 },
            Delete { key: key2 },
            Mark { pod: pod2 },
            Strip { pod: pod2 },
            Finish { pod: pod2, exit: exit2 },
            Report { pod: pod2, change: change2 },
            Fate { key: key2, ends: ends2 },
            Clock { add: add2 },
            List { controller: controller2, kind: kind2 },
            Deliver { controller: controller2, kind: kind2 },
            Begin { controller: controller2, worker: worker2 },
            Sync { controller: controller2, worker: worker2 },
            Step { controller: controller2, worker: worker2 },
            Node {},
            Restart { controller: controller2 },
            PutFault { controller: controller2, worker: worker2, fault: fault2 },
            Settle {},
        })
    }
}

impl Same for Command {
    fn is_same(&self, other: &Self) -> bool {
        self.lane == other.lane && self.action.is_same(&other.action)
    }
}

impl Same for Script {
    fn is_same(&self, other: &Self) -> bool {
        self.commands.is_same(&other.commands)
    }
}
