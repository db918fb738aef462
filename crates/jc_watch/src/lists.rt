//! All objects of a kind.

ghost use Rattle.std.specs.Prelude.{◌≡◌, ◌<◌, ◌^◌, IfOk, length, map};
ghost use Rattle.jc_states.specs.PodLists.{IsRising};
ghost use Rattle.jc_log.specs.Log.{RowsRise, jobs_in, pods_in};

use jc_states::Pods;
use jc_store::Store;
use jc_types::{Arc, Copied, Jobs, ListOf, Pod, Version, Want};
use std::alloc::Global;

/// The Jobs that are there, in ascending UID, and the log's length.
///
/// # Errors
/// `Want` where there is no memory for the list.
pub fn list_jobs(alloc: Global, store: &Store) -> Result<(Jobs, Version), Want>
    ensures jobs { IfOk result (λ r. r.0 ≡ map (λ row. row.1) (jobs_in store.now)) }
    ensures rising { RowsRise 0 (jobs_in store.now) }
    ensures at { IfOk result (λ r. r.1.0 ≡ length store.now) }
{
    let mut list = Jobs::new(alloc);
    for job in store.jobs().values() {
        list.push(job.copy()?)?;
    }
    Ok((list, store.log_len()))
}

/// The pods that are there, in ascending UID, and the log's length.
///
/// # Errors
/// `Want` where there is no memory for the list.
pub fn list_pods(alloc: Global, store: &Store) -> Result<(Pods, Version), Want>
    ensures pods { IfOk result (λ r. r.0 ≡ pods_in store.now) }
    ensures rising { IsRising (pods_in store.now) }
    ensures at { IfOk result (λ r. r.1.0 ≡ length store.now) }
{
    let list = copies(alloc, store)?;
    let pods = Pods::from_slice(alloc, list.as_slice())?;
    Ok((pods, store.log_len()))
}

// Copies of the pods that are there, in ascending UID.
fn copies(alloc: Global, store: &Store) -> Result<ListOf<Arc<Pod>>, Want>
    ensures pods { IfOk result (λ list. list ≡ pods_in store.now) }
    ensures few_pods { length (pods_in store.now) < 2 ^ 32 }
{
    let mut list = ListOf::new(alloc);
    for pod in store.pods().values() {
        list.push(pod.copy()?)?;
    }
    Ok(list)
}
