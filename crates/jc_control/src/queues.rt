//! Queues to which many keys are added at once.

ghost use Rattle.std.specs.Prelude.{◌≡◌, ◌≤◌, IfOk, false, length};
ghost use Rattle.jc_control.specs.ControllerCalls.{all_added, job_keys, pod_owners, told};
ghost use Rattle.jc_control.specs.Schedules.{RoomMoves};
ghost use Rattle.jc_queue.specs.Delayed.{due_keys, left_after};
ghost use Rattle.std.specs.Option.{option_copied, option_map_or};
ghost use Rattle.jc_types.specs.Keys.{same_key};

use jc_moment::Moment;
use jc_queue::{Delays, Queue};
use jc_types::{Arc, Copied, Entry, Job, Key, Kind, Pod, Want};

// A copy of the queue to which the keys of the Jobs are added, in their order.
pub(crate) fn with_jobs(queue: &Queue, jobs: &[Arc<Job>]) -> Result<Queue, Want>
    ensures added { IfOk result (λ q. q.queue ≡ all_added queue.now.queue (job_keys jobs.now)) }
    ensures room { IfOk result (λ q. q.room ≡ queue.now.room) }
{
    let mut with_keys = queue.copy()?;
    for job in jobs {
        with_keys.add(&job.key)?;
    }
    Ok(with_keys)
}

// A copy of the queue to which the keys of the pods' owners are added, in their order. Of equal ones that
// follow each other the first alone is asked of the queue, since a key that is dirty changes nothing.
pub(crate) fn with_owners(queue: &Queue, pods: &[Arc<Pod>]) -> Result<Queue, Want>
    ensures added { IfOk result (λ q. q.queue ≡ all_added queue.now.queue (pod_owners pods.now)) }
    ensures room { IfOk result (λ q. q.room ≡ queue.now.room) }
{
    let mut with_keys = queue.copy()?;
    let mut last = None;
    for pod in pods {
        let owner = &pod.owner;
        if !is_again(last, owner) {
            with_keys.add(owner)?;
            last = Some(owner);
        }
    }
    Ok(with_keys)
}

// Whether the key is the last one, where there is one.
fn is_again(last: Option<&Key>, key: &Key) -> bool
    ensures { result ≡ option_map_or (λ k. same_key k key.now) (option_copied last.entry) false }
{
    match last {
        None => false,
        Some(last) => *last == *key,
    }
}

// Moves the keys that are due at the moment from the delays to the queue, in the order in which they are
// due.
pub(crate) fn move_due(queue: &mut Queue, delays: &mut Delays, now: Moment)
    requires room { length delays.old.delays.moments ≤ queue.old.room }
    ensures queue { queue.new.queue ≡ all_added queue.old.queue (due_keys delays.old.delays now) }
    ensures delays { delays.new.delays ≡ left_after delays.old.delays now }
    ensures room { RoomMoves queue.old delays.old queue.new delays.new }
{
    for _ in 0..delays.len() {
        let Some(key) = delays.take_due(now) else {
            return;
        };
        queue.add_reserved(key);
    }
}

// The key that a cache of the kind adds where it is told of the entry.
pub(crate) fn told(kind: Kind, entry: &Entry) -> Option<&Key>
    ensures { option_copied result ≡ told kind entry.now }
{
    match (kind, entry) {
        (Kind::Jobs, Entry::JobPut(job) | Entry::JobGone(job)) => Some(&job.key),
        (Kind::Pods, Entry::PodPut(pod) | Entry::PodGone(pod)) => Some(&pod.owner),
        _ => None,
    }
}
