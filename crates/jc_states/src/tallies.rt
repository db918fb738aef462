//! How many of the pods of one owner are in a state.

ghost use Rattle.std.specs.Prelude.{◌≡◌, ◌<◌, ◌^◌};
ghost use Rattle.indexmap.specs.IndexMap.{spare};
ghost use Rattle.jc_types.specs.declared.numbers.Uid.{Uid};
ghost use Rattle.jc_states.specs.Tallies.{CountsPod, HasFewRestarts, HasRoom, tally_with, tally_without, no_pods, open_restarts, restarts_in, tally_in, with_pod, without_pod};

use crate::pods::{is_active, is_ending, is_open, is_ready, is_tracked_active};
use crate::rows::{row_mut, row_of};
use indexmap::IndexMap;
use jc_types::{Pod, Uid};

/// The numbers of the pods that were made for one owner.
#[derive(Clone, Copy, PartialEq, Eq, Debug)]
pub struct Tally {
    /// The UID of the owner.
    pub owner: Uid,
    /// How many pods were made for it.
    pub pods: u32,
    /// How many of them are pending or running.
    pub open_pods: u32,
    /// How many of these are not marked for deletion (`active` of batch/v1).
    pub active: u32,
    /// How many of these have the finalizer (KEP-2307).
    pub active_tracked: u32,
    /// How many of the open ones are marked for deletion (`terminating` of batch/v1).
    pub open_marked: u32,
    /// How many of the active ones are ready (`ready` of batch/v1).
    pub ready: u32,
    /// How often the containers of the open ones were restarted, all together.
    pub restarts: u128,
}

// The numbers of an owner without pods.
fn no_pods(owner: Uid) -> Tally
    ensures { result ≡ no_pods owner }
{
    Tally {
        owner,
        pods: 0,
        open_pods: 0,
        active: 0,
        active_tracked: 0,
        open_marked: 0,
        ready: 0,
        restarts: 0,
    }
}

// The restarts of all containers of the pod.
fn restarts_in(pod: &Pod) -> u128
    ensures sum { result ≡ restarts_in pod.now }
    ensures few_restarts { result < 2 ^ 96 }
{
    let mut restarts = 0;
    for container in pod.containers.as_slice() {
        restarts += u128::from(container.restarts);
    }
    restarts
}

// The restarts of all containers of the pod, where it is open.
fn open_restarts(pod: &Pod) -> u128
    ensures sum { result ≡ open_restarts pod.now }
    ensures few_restarts { HasFewRestarts pod.now }
{
    if is_open(pod) { restarts_in(pod) } else { 0 }
}

// The numbers with one more pod of the owner.
#[inline(always)]
fn tally_with(tally: Tally, pod: &Pod) -> Tally
    requires { HasRoom tally }
    ensures numbers { result ≡ tally_with tally pod.now }
    ensures few_restarts { HasFewRestarts pod.now }
{
    Tally {
        owner: tally.owner,
        pods: tally.pods + 1,
        open_pods: tally.open_pods + u32::from(is_open(pod)),
        active: tally.active + u32::from(is_active(pod)),
        active_tracked: tally.active_tracked + u32::from(is_tracked_active(pod)),
        open_marked: tally.open_marked + u32::from(is_ending(pod)),
        ready: tally.ready + u32::from(is_ready(pod)),
        restarts: tally.restarts + open_restarts(pod),
    }
}

// The numbers without this pod of the owner.
#[inline(always)]
fn tally_without(tally: Tally, pod: &Pod) -> Tally
    requires { CountsPod tally pod.now }
    ensures { result ≡ tally_without tally pod.now }
{
    Tally {
        owner: tally.owner,
        pods: tally.pods - 1,
        open_pods: tally.open_pods - u32::from(is_open(pod)),
        active: tally.active - u32::from(is_active(pod)),
        active_tracked: tally.active_tracked - u32::from(is_tracked_active(pod)),
        open_marked: tally.open_marked - u32::from(is_ending(pod)),
        ready: tally.ready - u32::from(is_ready(pod)),
        restarts: tally.restarts - open_restarts(pod),
    }
}

// The numbers of the owner; where it has no row, those of no pods.
#[inline(always)]
pub(crate) fn tally_in(rows: &IndexMap<Uid, Tally>, owner: Uid) -> Tally
    ensures { result ≡ tally_in owner rows.now.entries }
{
    match row_of(rows, owner) {
        None => no_pods(owner),
        Some(tally) => *tally,
    }
}

// Counts one more pod among those of its owner, in the room that there is.
pub(crate) fn enter(rows: &mut IndexMap<Uid, Tally>, pod: &Pod)
    requires room { 0 < spare rows.old }
    requires few_in_tally { HasRoom (tally_in pod.now.owner_uid rows.old.entries) }
    ensures numbers { (owner : Uid) → tally_in owner rows.new.entries
        ≡ with_pod owner pod.now (tally_in owner rows.old.entries) }
    ensures few_restarts { HasFewRestarts pod.now }
{
    // A row that is there is written where it stands.
    if let Some(tally) = row_mut(rows, pod.owner_uid) {
        *tally = tally_with(*tally, pod);
        return;
    }
    let tally = tally_with(no_pods(pod.owner_uid), pod);
    let Ok(_) = rows.insert(pod.owner_uid, tally) else {
        unreachable!()
    };
}

// Counts the pod no more among those of its owner. It takes no memory.
pub(crate) fn leave(rows: &mut IndexMap<Uid, Tally>, pod: &Pod)
    requires { CountsPod (tally_in pod.now.owner_uid rows.old.entries) pod.now }
    ensures numbers { (owner : Uid) → tally_in owner rows.new.entries
        ≡ without_pod owner pod.now (tally_in owner rows.old.entries) }
    ensures room { spare rows.new ≡ spare rows.old }
{
    if let Some(tally) = row_mut(rows, pod.owner_uid) {
        *tally = tally_without(*tally, pod);
    }
}
