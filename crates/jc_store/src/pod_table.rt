//! The pods that a log has, and those of one owner.
ghost use Rattle.std.specs.Prelude.{◌≡◌, ◌∷◌, List, reverse, filter, map, IfOk, OnOk};
ghost use Rattle.jc_types.specs.declared.objects.Entry.{Entry};
ghost use Rattle.jc_types.specs.Keys.{same_uid};
ghost use Rattle.jc_log.specs.Log.{pods_in, pods_of};

use jc_table::PodTable;
use jc_types::{Arc, Copied, Entry, Pod, Uid, Want};
use std::alloc::Global;

// Takes one more entry into the table of a log.
fn put_entry(pods: &mut PodTable, entry: &Entry) -> Result<(), Want>
    ensures { OnOk result ((log : List Entry)
        → pods.old ≡ pods_in log → pods.new ≡ pods_in (entry.now ∷ log)) }
{
    match entry {
        Entry::PodPut(pod) => {
            pods.put(pod.copy()?)?;
            Ok(())
        }
        Entry::PodGone(pod) => {
            pods.take(pod.uid);
            Ok(())
        }
        Entry::JobPut(_) | Entry::JobGone(_) => Ok(()),
    }
}

// The pods that are there by a log. The log stands oldest first.
fn pods_in(alloc: Global, log: &[Entry]) -> Result<PodTable, Want>
    ensures { IfOk result (λ pods. pods ≡ pods_in (reverse log.now)) }
{
    let mut pods = PodTable::new(alloc);
    for entry in log {
        put_entry(&mut pods, entry)?;
    }
    Ok(pods)
}

// The pods of a table, in its order.
fn listed(alloc: Global, table: &PodTable) -> Result<Vec<Arc<Pod>>, Want>
    ensures { IfOk result (λ pods. pods.items ≡ table.now) }
{
    let mut pods = Vec::new(alloc);
    for pod in table.values() {
        pods.push(pod.copy()?)?;
    }
    Ok(pods)
}

// The pods of one owner in a table, in its order.
pub(super) fn owned(alloc: Global, table: &PodTable, owner: Uid) -> Result<Vec<Arc<Pod>>, Want>
    ensures { IfOk result (λ pods.
        pods.items ≡ filter (λ pod. same_uid pod.owner_uid owner) table.now) }
{
    let mut pods = listed(alloc, table)?;
    pods.retain(|pod| pod.owner_uid.0 == owner.0);
    Ok(pods)
}

/// The pods of one owner that are there by a log, in ascending UID. The log stands oldest first.
///
/// # Errors
/// `Want` where there is no memory.
pub fn pods_among(alloc: Global, log: &[Entry], owner: Uid) -> Result<Vec<Arc<Pod>>, Want>
    ensures { IfOk result (λ pods. pods.items ≡ pods_of owner (reverse log.now)) }
{
    owned(alloc, &pods_in(alloc, log)?, owner)
}
