//! Changes of pods, which wait until they can be made in place.

ghost use Rattle.std.specs.Prelude.{◌≡◌, [], IfOk, OnErr, OnOk};
ghost use Rattle.std.specs.List.{IsDistinct};
ghost use Rattle.std.specs.Map.{keys_of};
ghost use Rattle.jc_types.specs.Keys.{same_uid};
ghost use Rattle.jc_states.specs.PodLists.{IsRising};
ghost use Rattle.jc_cache.specs.Changes.{AreNamed, HasRoomFor, all_changed, with_change};

use indexmap::IndexMap;
use jc_states::Pods;
use jc_types::{Arc, Copied, Pod, Uid, Want};
use std::alloc::{AllocError, Global};

/// The room, in changes, that is kept once they are made.
const MOST_ROOM: usize = 16;

/// What the pod of a UID becomes; `None` where it goes.
pub(crate) type Change = Option<Arc<Pod>>;

// Makes a change of the pod of the UID.
//
// `Want` where there is no memory for it; the pods are then as before.
pub(crate) fn make(pods: &mut Pods, uid: Uid, change: Change) -> Result<(), Want>
    requires room { HasRoomFor change pods.old }
    ensures makes { OnOk result (pods.new ≡ with_change uid change pods.old) }
    ensures kept { OnErr result (pods.new ≡ pods.old) }
{
    match change {
        Some(pod) => pods.put(pod),
        None => {
            pods.take(uid);
            Ok(())
        }
    }
}

// Makes a copy of a change.
//
// `Want` where there is no memory for it, or the pods are as many as can be counted; they are then as before.
fn make_copy(pods: &mut Pods, uid: Uid, change: &Change) -> Result<(), Want>
    ensures makes { OnOk result (pods.new ≡ with_change uid change.now pods.old) }
    ensures kept { OnErr result (pods.new ≡ pods.old) }
{
    if change.is_some() && pods.len() >= u32::MAX as usize {
        return Err(AllocError);
    }
    make(pods, uid, change.copy()?)
}

// Makes the changes, the first one first. They lead to the same pods where some of them are made already.
//
// `Want` where there is no memory for one, or while they are made the pods come to be as many as can be
// counted; some are then made.
pub(crate) fn make_all(pods: &mut Pods, changes: &IndexMap<Uid, Change>) -> Result<(), Want>
    requires rising { IsRising pods.old }
    requires named { AreNamed changes.now.entries }
    requires once { IsDistinct same_uid (keys_of changes.now.entries) }
    ensures made { OnOk result (pods.new ≡ all_changed changes.now.entries pods.old) }
    ensures same { all_changed changes.now.entries pods.new
        ≡ all_changed changes.now.entries pods.old }
    ensures rising { IsRising pods.new }
{
    for (uid, change) in changes.iter() {
        make_copy(pods, *uid, change)?;
    }
    Ok(())
}

// Drops the changes. Room for few is kept, so that the next ones wait with no memory; room for many is given
// back, as it may not be needed again.
pub(crate) fn empty(alloc: Global, changes: &mut IndexMap<Uid, Change>)
    ensures { changes.new.entries ≡ [] }
{
    if changes.capacity() <= MOST_ROOM {
        changes.clear();
    } else {
        *changes = IndexMap::new(alloc);
    }
}

// Copies of the changes, in their order.
pub(crate) fn copied(
    alloc: Global,
    changes: &IndexMap<Uid, Change>,
) -> Result<IndexMap<Uid, Change>, Want>
    ensures { IfOk result (λ copies. copies.entries ≡ changes.now.entries) }
{
    let mut copies = IndexMap::new(alloc);
    for (uid, change) in changes.iter() {
        copies.insert(*uid, change.copy()?)?;
    }
    Ok(copies)
}
