//! Jobs and pods as they are made.
ghost use Rattle.std.specs.Prelude.{◌≡◌, ◌++◌, [], IfOk, OnOk, map, true};
ghost use Rattle.jc_types.specs.declared.objects.Phase.TheVariants.{Pending};
ghost use Rattle.jc_log.specs.Requests.{empty_status, new_container, new_containers};

use jc_moment::Moment;
use jc_ranges::Ranges;
use jc_types::{
    Arc, Conditions, Container, Containers, Copied, IndexCounts, Job, JobSpec, JobStatus, Key,
    Name, Patterns, Phase, Pod, Template, Uid, Uids, Version, Want,
};
use std::alloc::Global;

// The status of a new Job.
fn empty_status(alloc: Global) -> JobStatus
    ensures { result ≡ empty_status }
{
    JobStatus {
        active: 0,
        ready: 0,
        terminating: 0,
        succeeded: 0,
        failed: 0,
        completed: Ranges::new(alloc),
        failed_indexes: Ranges::new(alloc),
        index_failures: IndexCounts::new(alloc),
        uncounted_succeeded: Uids::new(alloc),
        uncounted_failed: Uids::new(alloc),
        start: None,
        completion: None,
        conditions: Conditions::new(alloc),
    }
}

// A Job with an empty status.
pub(super) fn new_job(
    alloc: Global,
    key: &Key,
    uid: Uid,
    version: Version,
    spec: Arc<JobSpec>,
    now: Moment,
) -> Result<Job, Want>
    ensures { IfOk result (λ r. r ≡ record {
      key = key.now;
      uid = uid;
      version = version;
      created = now;
      spec = spec;
      status = empty_status;
    }) }
{
    Ok(Job {
        key: key.copy()?,
        uid,
        version,
        created: now,
        spec,
        status: Arc::new(alloc, empty_status(alloc))?,
    })
}

// Adds a container for each name, without exit code and restarts.
fn push_containers(list: &mut Containers, names: &[Name], init: bool) -> Result<(), Want>
    ensures { OnOk result (list.new ≡ list.old ++ map (new_container init) names.now) }
{
    for name in names {
        list.push(Container {
            name: name.copy()?,
            init,
            exit: None,
            restarts: 0,
        })?;
    }
    Ok(())
}

// The containers of a new pod.
pub(super) fn new_containers(alloc: Global, template: &Template) -> Result<Containers, Want>
    ensures { IfOk result (λ r. r ≡ new_containers template.now) }
{
    let mut list = Containers::new(alloc);
    push_containers(&mut list, template.containers.as_slice(), false)?;
    push_containers(&mut list, template.inits.as_slice(), true)?;
    Ok(list)
}

// A pod of a Job: Pending, tracked and unmarked, with these containers.
pub(super) fn new_pod(
    alloc: Global,
    owner: &Job,
    containers: Containers,
    index: Option<u32>,
    serial: u32,
    uid: Uid,
    version: Version,
    now: Moment,
) -> Result<Pod, Want>
    ensures { IfOk result (λ r. r ≡ record {
      uid = uid;
      version = version;
      owner = owner.now.key;
      owner_uid = owner.now.uid;
      serial = serial;
      index = index;
      restart = owner.now.spec.template.restart;
      phase = Pending;
      containers = containers;
      conditions = [];
      marked = None;
      tracked = true;
      created = now;
    }) }
{
    Ok(Pod {
        uid,
        version,
        owner: owner.key.copy()?,
        owner_uid: owner.uid,
        serial,
        index,
        restart: owner.spec.template.restart,
        phase: Phase::Pending,
        containers,
        conditions: Patterns::new(alloc),
        marked: None,
        tracked: true,
        created: now,
    })
}
