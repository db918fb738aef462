//! The requests of a sync, what the store answers, and the replies to events.

use crate::copies::{Copied, Same, Want, copied_variant, is_same_variant};
use crate::numbers::{Uid, Version};
use crate::objects::{Key, Kind, Phase};
use crate::texts::Name;
use jc_moment::Moment;

/// A member of a specification that an update is refused for.
#[derive(Clone, Copy, PartialEq, Eq, Debug)]
pub enum Field {
    /// `completions`
    Completions,
    /// `parallelism`
    Parallelism,
    /// `backoffLimit`
    BackoffLimit,
    /// `activeDeadlineSeconds`
    Deadline,
}

/// A request of a sync to the store.
#[derive(Clone, Copy, PartialEq, Eq, Debug)]
pub enum Request {
    /// Make a pod.
    CreatePod { index: Option<u32> },
    /// Mark a pod for deletion.
    MarkPod { pod: Uid },
    /// Take the finalizer of a pod that is not to be counted.
    LetGo { pod: Uid },
    /// Write the Job's status.
    Status,
    /// Take the finalizer of a pod that is counted.
    Release { pod: Uid },
}

/// What a sync is answered to a request.
#[derive(Drop)]
pub enum Answer {
    /// A new object has this UID, and its entry this version.
    Created { uid: Uid, version: Version },
    /// The write has this version.
    Written { version: Version },
    /// The write would have left the object as it is, at this version.
    Unchanged { version: Version },
    /// The finalizer is gone since this version.
    Released { version: Version },
    /// The object is gone since this version.
    Removed { version: Version },
    /// The object has another version than the given one.
    Conflict { current: Version },
    /// There is no such object.
    NotFound,
    /// There is a Job of the key.
    AlreadyExists,
    /// The member cannot be changed.
    Immutable { field: Field },
    /// The member is out of its bounds.
    Invalid { field: Field },
    /// The pod has ended.
    Final { phase: Phase },
    /// A pod does not go from the one phase to the other.
    BadStep { from: Phase, to: Phase },
    /// The pod has no container of the name.
    NoContainer { name: Name },
    /// No pod of the UID has the finalizer.
    NotTracked,
    /// The request met a fault: it is not known whether it was made.
    Unavailable,
}

/// The reply to an event.
#[derive(Drop)]
pub enum Reply {
    /// A new object has this UID, and its entry this version.
    Created {
        uid: Uid,
        version: Version,
    },
    /// The write has this version.
    Written {
        version: Version,
    },
    /// The write would have left the object as it is, at this version.
    Unchanged {
        version: Version,
    },
    /// The finalizer is gone since this version.
    Released {
        version: Version,
    },
    /// The object is gone since this version.
    Removed {
        version: Version,
    },
    /// The object has another version than the given one.
    Conflict {
        current: Version,
    },
    /// There is no such object.
    NotFound,
    /// There is a Job of the key.
    AlreadyExists,
    /// The member cannot be changed.
    Immutable {
        field: Field,
    },
    /// The member is out of its bounds.
    Invalid {
        field: Field,
    },
    /// The pod has ended.
    Final {
        phase: Phase,
    },
    /// A pod does not go from the one phase to the other.
    BadStep {
        from: Phase,
        to: Phase,
    },
    /// The pod has no container of the name.
    NoContainer {
        name: Name,
    },
    /// No pod of the UID has the finalizer.
    NotTracked,
    /// The clock stands at this moment.
    Now {
        moment: Moment,
    },
    /// The clock would go past the last moment.
    ClockEnd,
    /// The cache has what the log said at this version.
    Listed {
        at: Version,
    },
    /// The cache has the entry of this version.
    Delivered {
        version: Version,
    },
    /// The log has no further entry for the cache.
    UpToDate,
    /// The cache lags behind the window of the log.
    Expired {
        floor: Version,
    },
    /// A cache was not listed yet.
    NotSynced,
    /// A sync of the key has begun, with what the caches say at these versions.
    Begun {
        key: Key,
        jobs_at: Version,
        pods_at: Version,
    },
    /// No key stands in the line.
    NoKey,
    /// The cache of this kind lags behind what the sync needs.
    Behind {
        kind: Kind,
        need: Version,
        have: Version,
    },
    /// The worker has a sync already.
    WorkerBusy,
    /// The sync has made the request, and was answered.
    Stepped {
        request: Request,
        answer: Answer,
    },
    /// The sync has no request left, and has ended.
    Ended,
    /// There is nothing to do.
    Idle,
    /// The node has taken the pod to this phase, by the write of this version.
    NodeDone {
        pod: Uid,
        phase: Phase,
        version: Version,
    },
    /// The command is done.
    Done,
}

impl Copied for Field {
    fn copy(&self) -> Result<Self, Want> {
        Ok(*self)
    }
}

impl Copied for Request {
    fn copy(&self) -> Result<Self, Want> {
        Ok(*self)
    }
}

impl Copied for Answer {
    fn copy(&self) -> Result<Self, Want> {
        copied_variant!(self, Answer {
            Created { uid, version },
            Written { version },
            Unchanged { version },
            Released { version },
            Removed { version },
            Conflict { current },
            NotFound {},
            AlreadyExists {},
            Immutable { field },
            Invalid { field },
            Final { phase },
            BadStep { from, to },
            NoContainer { name },
            NotTracked {},
            Unavailable {},
        })
    }
}

impl Copied for Reply {
    fn copy(&self) -> Result<Self, Want> {
        copied_variant!(self, Reply {
            Created { uid, version },
            Written { version },
            Unchanged { version },
            Released { version },
            Removed { version },
            Conflict { current },
            NotFound {},
            AlreadyExists {},
            Immutable { field },
            Invalid { field },
            Final { phase },
            BadStep { from, to },
            NoContainer { name },
            NotTracked {},
            Now { moment },
            ClockEnd {},
            Listed { at },
            Delivered { version },
            UpToDate {},
            Expired { floor },
            NotSynced {},
            Begun { key, jobs_at, pods_at },
            NoKey {},
            Behind { kind, need, have },
            WorkerBusy {},
            Stepped { request, answer },
            Ended {},
            Idle {},
            NodeDone { pod, phase, version },
            Done {},
        })
    }
}

impl Same for Field {
    fn is_same(&self, other: &Self) -> bool {
        *self == *other
    }
}

impl Same for Answer {
    fn is_same(&self, other: &Self) -> bool {
        is_same_variant!(self, other, Answer {
            Created { uid: uid2, version: version2 },
            Written { version: version2 },
            Unchanged { version: version2 },
            Released { version: version2 },
            Removed { version: version2 },
            Conflict { current: current2 },
            NotFound {},
            AlreadyExists {},
            Immutable { field: field2 },
            Invalid { field: field2 },
            Final { phase: phase2 },
            BadStep { from: from2, to: to2 },
            NoContainer { name: name2 },
            NotTracked {},
            Unavailable {},
        })
    }
}

impl Same for Reply {
    fn is_same(&self, other: &Self) -> bool {
        is_same_variant!(self, other, Reply {
            Created { uid: uid2, version: version2 },
            Written { version: version2 },
            Unchanged { version: version2 },
            Released { version: version2 },
            Removed { version: version2 },
            Conflict { current: current2 },
            NotFound {},
            AlreadyExists {},
            Immutable { field: field2 },
            Invalid { field: field2 },
            Final { phase: phase2 },
            BadStep { from: from2, to: to2 },
            NoContainer { name: name2 },
            NotTracked {},
            Now { moment: moment2 },
            ClockEnd {},
            Listed { at: at2 },
            Delivered { version: version2 },
            UpToDate {},
            Expired { floor: floor2 },
            NotSynced {},
            Begun { key: key2, jobs_at: jobs_at2, pods_at: pods_at2 },
            NoKey {},
            Behind { kind: kind2, need: need2, have: have2 },
            WorkerBusy {},
            Stepped { request: request2, answer: answer2 },
            Ended {},
            Idle {},
            NodeDone { pod: pod2, phase: phase2, version: version2 },
            Done {},
        })
    }
}

impl Same for Request {
    fn is_same(&self, other: &Self) -> bool {
        *self == *other
    }
}
