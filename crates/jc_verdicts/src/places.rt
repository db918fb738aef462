//! Where the log speaks of whom: for each Job the entries that touch its pods, and those about its
//! key. With them the pods of one Job are taken without a look at the entries of all others.

ghost use Rattle.std.specs.Prelude.{◌≡◌, ◌<◌, ◌≤◌, ◌∷◌, ℕ, IsTrue, List, IfOk, OnOk, false, get_or, length, reverse};
ghost use Rattle.std.specs.List.Sorted.{IsNonDecreasingBy};
ghost use Rattle.jc_types.specs.declared.objects.Entry.{Entry};
ghost use Rattle.jc_types.specs.declared.objects.Entry.TheVariants.{PodPut, PodGone};
ghost use Rattle.jc_log.specs.Tables.{at};
ghost use Rattle.jc_verdicts.specs.ByUid.{Adds, AddsTo, places_at};
ghost use Rattle.jc_verdicts.specs.LogPlaces.{ArePlaces, IsCut, was_owned};

use crate::by_uid::{Lists, Owners, add_to, new_lists, new_owners, put_owner, take_owner};
use indexmap::IndexMap;
use jc_types::{Copied, Entry, Key, Pod, Uid, Want};
use std::alloc::Global;
use std::hash::Hash;

/// The places of the entries that touch the pods of each Job, and of those about each key.
#[derive(Drop)]
pub struct Places {
    /// By the UID of a Job: where its pods change. Ascending.
    pub pods: Lists,
    /// By key: where its Job is put or goes. Ascending.
    pub jobs: IndexMap<Key, Vec<usize>>,
    /// By the UID of a pod that lives: the Job that it was made for.
    pub owners: Owners,
}

/// The list of a key; an empty one where it has none.
pub fn places_at<'a, K: Eq + Hash>(lists: &'a IndexMap<K, Vec<usize>>, key: &K) -> &'a [usize]
    ensures { result.now ≡ places_at K.eq lists.now.entries key.now }
{
    match lists.get(key) {
        Some(places) => places.as_slice(),
        None => &[],
    }
}

/// How many of the places are below a number.
pub fn count_below(places: &[usize], n: usize) -> usize
    requires { IsNonDecreasingBy (λ place. place) places.now }
    ensures { IsCut n places.now result }
{
    places.partition_point(|place| *place < n)
}

/// Whether so many places are there, and all of them are below a number.
fn is_passed(places: &[usize], at: usize, n: usize) -> bool
    requires { IsNonDecreasingBy (λ place. place) places.now }
    ensures within { IsTrue result → at ≤ length places.now }
    ensures below { IsTrue result → (i : ℕ) → i < at → get_or places.now i 0 < n }
{
    at == 0 || (at <= places.len() && places[at - 1] < n)
}

/// How many of the places are below a number, where so many of them were taken before. Mostly it is
/// that many and a few more.
pub fn count_on(places: &[usize], at: usize, n: usize) -> usize
    requires { IsNonDecreasingBy (λ place. place) places.now }
    ensures { IsCut n places.now result }
{
    if !is_passed(places, at, n) {
        return count_below(places, n);
    }
    for count in at..places.len() {
        if places[count] >= n {
            return count;
        }
    }
    places.len()
}

/// Adds a place to the list of a key. The key is copied only where it has no list yet.
pub fn add_place<K: Copied + Eq + Hash>(
    alloc: Global,
    lists: &mut IndexMap<K, Vec<usize>>,
    key: &K,
    place: usize,
) -> Result<(), Want>
    ensures { OnOk result (Adds K.eq lists.old.entries lists.new.entries (K.eq key.now) place) }
{
    if let Some(places) = lists.get_mut(key) {
        places.push(place)?;
        return Ok(());
    }
    let mut places = Vec::new(alloc);
    places.push(place)?;
    lists.insert(key.copy()?, places)?;
    Ok(())
}

/// Adds a place to the list of the Job that a pod was made for before, if that was another one.
fn add_other_place(
    alloc: Global,
    lists: &mut Lists,
    before: Option<Uid>,
    owner: Uid,
    place: usize,
) -> Result<(), Want>
    ensures { OnOk result (AddsTo lists.old lists.new (λ j. was_owned before owner j) place) }
{
    let Some(other) = before else {
        return Ok(());
    };
    if other.0 == owner.0 {
        return Ok(());
    }
    add_to(alloc, lists, other, place)
}

/// A pod is put: its owner is told, and the owner that it had before.
fn pod_put(alloc: Global, places: &mut Places, pod: &Pod, place: usize) -> Result<(), Want>
    ensures { OnOk result ((older : List Entry) → length older ≡ place
        → ArePlaces older places.old → ArePlaces (PodPut pod.now ∷ older) places.new) }
{
    let before = put_owner(&mut places.owners, pod.uid, pod.owner_uid)?;
    add_to(alloc, &mut places.pods, pod.owner_uid, place)?;
    add_other_place(alloc, &mut places.pods, before, pod.owner_uid, place)?;
    Ok(())
}

/// A pod goes: its owner is told.
fn pod_gone(alloc: Global, places: &mut Places, pod: &Pod, place: usize) -> Result<(), Want>
    ensures { OnOk result ((older : List Entry) → length older ≡ place
        → ArePlaces older places.old → ArePlaces (PodGone pod.now ∷ older) places.new) }
{
    let Some(owner) = take_owner(&mut places.owners, pod.uid) else {
        return Ok(());
    };
    add_to(alloc, &mut places.pods, owner, place)?;
    Ok(())
}

/// Takes one more entry into the lists.
fn take_in(alloc: Global, places: &mut Places, entry: &Entry, place: usize) -> Result<(), Want>
    ensures { OnOk result ((older : List Entry) → length older ≡ place
        → ArePlaces older places.old → ArePlaces (entry.now ∷ older) places.new) }
{
    match entry {
        Entry::JobPut(job) => {
            add_place(alloc, &mut places.jobs, &job.key, place)?;
            Ok(())
        }
        Entry::JobGone(job) => {
            add_place(alloc, &mut places.jobs, &job.key, place)?;
            Ok(())
        }
        Entry::PodPut(pod) => pod_put(alloc, places, pod, place),
        Entry::PodGone(pod) => pod_gone(alloc, places, pod, place),
    }
}

/// The places of a whole log.
pub fn places_of(alloc: Global, log: &[Entry]) -> Result<Places, Want>
    ensures { IfOk result (λ places. ArePlaces (reverse log.now) places) }
{
    // (each UID of a run has an entry that makes it)
    let bound = log.len();
    let mut places = Places {
        pods: new_lists(alloc, bound)?,
        jobs: IndexMap::new(alloc),
        owners: new_owners(alloc, bound)?,
    };
    for place in 0..log.len() {
        take_in(alloc, &mut places, &log[place], place)?;
    }
    Ok(places)
}
