//! What a write of a pod leaves.
ghost use Rattle.std.specs.Prelude.{◌≡◌, IfOk, false};

use jc_moment::Moment;
use jc_types::{Arc, Copied, Pod, Version, Want};
use std::alloc::Global;

// The pod with this mark, and with the finalizer or without it.
fn rewritten(
    alloc: Global,
    pod: &Pod,
    version: Version,
    marked: Option<Moment>,
    tracked: bool,
) -> Result<Arc<Pod>, Want>
    ensures { IfOk result (λ r. r ≡ record pod.now {
      version = version;
      marked = marked;
      tracked = tracked;
    }) }
{
    Arc::new(
        alloc,
        Pod {
            uid: pod.uid,
            version,
            owner: pod.owner.copy()?,
            owner_uid: pod.owner_uid,
            serial: pod.serial,
            index: pod.index,
            restart: pod.restart,
            phase: pod.phase,
            containers: pod.containers.copy()?,
            conditions: pod.conditions.copy()?,
            marked,
            tracked,
            created: pod.created,
        },
    )
}

// The pod marked for deletion.
pub(super) fn with_mark(
    alloc: Global,
    pod: &Pod,
    version: Version,
    now: Moment,
) -> Result<Arc<Pod>, Want>
    ensures { IfOk result (λ r. r ≡ record pod.now { version = version; marked = Some now }) }
{
    rewritten(alloc, pod, version, Some(now), pod.tracked)
}

// The pod without its finalizer.
pub(super) fn without_finalizer(
    alloc: Global,
    pod: &Pod,
    version: Version,
) -> Result<Arc<Pod>, Want>
    ensures { IfOk result (λ r. r ≡ record pod.now { version = version; tracked = false }) }
{
    rewritten(alloc, pod, version, pod.marked, false)
}
