//! Sample objects: keys, moments, specifications, statuses, Jobs and pods.

use jc_moment::Moment;
use jc_ranges::Ranges;
use jc_types::{
    Arc, Conditions, Container, Containers, IndexCounts, Job, JobSpec, JobStatus, Key, KeyNames,
    Label, Mode, Name, Names, Phase, Pod, PodCondition, PodConditions, Replacement, Restart,
    Template, Text, Truth, Uid, Uids, Version, Want,
};
use std::alloc::Global;
use std::test::Fail;

/// The moment so many seconds after 1970-01-01T00:00:00Z.
///
/// # Errors
/// `Fail` past the last moment.
pub fn moment(seconds: u64) -> Result<Moment, Fail> {
    match Moment::from_seconds(seconds) {
        Some(moment) => Ok(moment),
        None => Err(Fail::new("a moment")),
    }
}

/// The key of the Job `pi` in the namespace `default`.
///
/// # Errors
/// `Want` where there is no memory for it.
pub fn key(alloc: Global) -> Result<Key, Want> {
    let namespace = Label::from_text(alloc, "default")?;
    let name = Label::from_text(alloc, "pi")?;
    Key::new(alloc, KeyNames { namespace, name })
}

/// The specification that a manifest has after its defaults: one pod, one completion, one container `main`.
///
/// # Errors
/// `Want` where there is no memory for it.
pub fn spec(alloc: Global) -> Result<JobSpec, Want> {
    let mut containers = Names::new(alloc);
    containers.push(Name::from_text(alloc, "main")?)?;
    Ok(JobSpec {
        parallelism: 1,
        completions: Some(1),
        mode: Mode::NonIndexed,
        suspend: false,
        backoff_limit: 6,
        per_index: None,
        max_failed: None,
        deadline: None,
        replacement: Replacement::TerminatingOrFailed,
        failure: None,
        success: None,
        template: Template {
            restart: Restart::Never,
            containers,
            inits: Names::new(alloc),
        },
    })
}

/// The status of a Job that no sync has seen.
pub fn no_status(alloc: Global) -> JobStatus {
    JobStatus {
        active: 0,
        ready: 0,
        terminating: 0,
        succeeded: 0,
        failed: 0,
        completed: Ranges::new(alloc),
        failed_indexes: Ranges::new(alloc),
        index_failures: IndexCounts::new(alloc),
        uncounted_succeeded: Uids::new(alloc),
        uncounted_failed: Uids::new(alloc),
        start: None,
        completion: None,
        conditions: Conditions::new(alloc),
    }
}

/// The Job `pi` of the UID 1 at the version 1, with that status.
///
/// # Errors
/// `Want` where there is no memory for it.
pub fn job(alloc: Global, created: Moment, status: JobStatus) -> Result<Job, Want> {
    Ok(Job {
        key: key(alloc)?,
        uid: Uid(1),
        version: Version(1),
        created,
        spec: Arc::new(alloc, spec(alloc)?)?,
        status: Arc::new(alloc, status)?,
    })
}

/// What the pods of the tests differ in, besides their containers and conditions.
#[derive(Clone, Copy)]
pub struct PodRow {
    /// Its UID.
    pub uid: u32,
    /// The place of its last write in the log.
    pub version: u32,
    /// The UID of the Job that it was made for.
    pub owner: u32,
    /// Its completion index.
    pub index: Option<u32>,
    /// How far it has come.
    pub phase: Phase,
    /// Whether it is marked for deletion.
    pub marked: bool,
    /// Whether it has the finalizer of Jobs.
    pub tracked: bool,
}

/// A pod that was just made for the Job of UID 1.
pub const POD: PodRow = PodRow {
    uid: 2,
    version: 2,
    owner: 1,
    index: None,
    phase: Phase::Pending,
    marked: false,
    tracked: true,
};

/// The container `main`.
///
/// # Errors
/// `Want` where there is no memory for it.
pub fn main_container(alloc: Global, exit: Option<i32>, restarts: u32) -> Result<Container, Want> {
    Ok(Container {
        name: Name::from_text(alloc, "main")?,
        init: false,
        exit,
        restarts,
    })
}

/// Conditions of the kinds.
///
/// # Errors
/// `Want` where there is no memory for them.
pub fn pod_conditions(
    alloc: Global,
    rows: &[(&'static str, Truth)],
) -> Result<PodConditions, Want> {
    let mut conditions = PodConditions::new(alloc);
    for (kind, truth) in rows {
        conditions.push(PodCondition {
            kind: Text::from_str(alloc, kind)?,
            truth: *truth,
        })?;
    }
    Ok(conditions)
}

/// The pod of the row, made at the moment, and marked then where it is. It has neither containers nor
/// conditions.
pub fn pod_of(alloc: Global, owner: Key, now: Moment, row: PodRow) -> Pod {
    Pod {
        uid: Uid(row.uid),
        version: Version(row.version),
        owner,
        owner_uid: Uid(row.owner),
        serial: 0,
        index: row.index,
        restart: Restart::Never,
        phase: row.phase,
        containers: Containers::new(alloc),
        conditions: PodConditions::new(alloc),
        marked: if row.marked { Some(now) } else { None },
        tracked: row.tracked,
        created: now,
    }
}
