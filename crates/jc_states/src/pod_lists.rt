//! Pods in ascending order of their UIDs, with the numbers of each owner, the UIDs of those at odds and the
//! indexes that are held.

ghost use Rattle.std.specs.Prelude.{◌≡◌, ◌∷◌, ◌++◌, ◌+◌, ◌-◌, ◌<◌, ◌≤◌, ◌==◌, ◌^◌, ◌↔◌, [], All, IfOk, IsSome, IsTrue, None, OnErr, OnOk, false, filter, find, is_some, length, if◌then◌else◌, nat_le, true, ℕ};
ghost use Rattle.std.specs.List.{list_any};
ghost use Rattle.std.specs.Option.{option_copied, option_map_or};
ghost use Rattle.jc_types.specs.declared.numbers.Uid.{Uid};
ghost use Rattle.jc_types.specs.Keys.{same_uid};
ghost use Rattle.jc_states.specs.PodLists.{IsRising, drop_pod, place_from, put_pod};
ghost use Rattle.jc_states.specs.Holders.{has_index_in, held_in, holders_of, holds_index};
ghost use Rattle.jc_states.specs.Noted.{is_at_odds, is_calm, needs_look, with_note};
ghost use Rattle.jc_states.specs.Pods.{tracked_active_pods};
ghost use Rattle.jc_states.specs.Tallies.{pods_for, tally_of};

use crate::holders::Holders;
use crate::noted::{odd_among, pods_to_look_at};
use crate::odds::put_odd;
use crate::pods::is_at_odds;
use crate::tallies::{Tally, enter, leave, tally_in};
use indexmap::IndexMap;
use jc_types::{Arc, Copied, Pod, Same, Uid, Want};
use std::alloc::Global;
use std::collections::BTreeSet;
use std::marker::Model;

/// Pods in ascending order of their UIDs, none twice, and fewer than 2 ^ 32. A contract sees the list of the
/// pods. Beside them stand the numbers of each owner, so that nobody counts the pods, the UIDs of the pods
/// whose finalizer and state are at odds, so that nobody looks for them, and the indexes that the active pods
/// of each owner hold.
#[derive(Drop)]
pub struct Pods {
    alloc: Global,
    pods: Vec<Arc<Pod>>,
    // The numbers of each owner. A row whose pods have gone may stay, with 0 in each number.
    tallies: IndexMap<Uid, Tally>,
    // The numbers of the UIDs of the pods that are at odds.
    odd: BTreeSet<u32>,
    // Which indexes the active pods of each owner with the finalizer hold.
    holders: Holders,
}

impl Model for Pods {
    ghost use Rattle.std.specs.Prelude.{List};
    ghost use Rattle.jc_types.specs.declared.objects.Pod.{Pod};
    ghost use Rattle.jc_states.specs.Noted.{KeepsNotes};

    ghost Value = { List Pod };

    ghost view = { λ p. p.pods.items };

    ghost invariant = { λ p. KeepsNotes p.pods.items p.tallies.entries p.odd.keys
        p.holders };
}

/// The place of the first pod whose UID is at least this one, found by halving, where not all are
/// below it.
pub fn place_from(pods: &[Arc<Pod>], uid: Uid) -> usize
    requires { IsRising pods.now }
    ensures { result ≡ place_from uid pods.now }
{
    let count = pods.len();
    if count > 0 && pods[count - 1].uid.0 < uid.0 {
        return count;
    }
    pods.partition_point(|pod| pod.uid.0 < uid.0)
}

/// Whether there is a pod of the UID, whose place this is.
pub fn is_there(pods: &[Arc<Pod>], uid: Uid, place: usize) -> bool
    requires rising { IsRising pods.now }
    requires place { place ≡ place_from uid pods.now }
    ensures { result ≡ is_some (find (λ pod. same_uid pod.uid uid) pods.now) }
{
    place < pods.len() && pods[place].uid == uid
}

// Notes the pod among those at odds, or that it is not, and the index that it holds, if it holds one.
//
// `Want` where there is no memory for it; the numbers and who holds which index are then as before.
fn put_odd_and_enter(odd: &mut BTreeSet<u32>, holders: &mut Holders, pod: &Pod) -> Result<(), Want>
    ensures noted { OnOk result (odd.new.keys ≡ with_note pod.now odd.old.keys) }
    ensures entered { OnOk result ((owner : Uid) → (n : ℕ) → held_in owner n holders.new
        ≡ held_in owner n holders.old + (if holds_index owner n pod.now then 1 else 0)) }
    ensures kept { OnErr result (odd.new.keys ≡ odd.old.keys) }
    ensures held { OnErr result ((owner : Uid) → (n : ℕ)
        → held_in owner n holders.new ≡ held_in owner n holders.old) }
{
    holders.enter(pod)?;
    if let Err(want) = put_odd(odd, pod) {
        holders.leave(pod);
        return Err(want);
    }
    Ok(())
}

impl Pods {
    /// No pods. It takes no memory.
    pub fn new(alloc: Global) -> Self
        ensures { result ≡ [] }
    {
        Pods {
            alloc,
            pods: Vec::new(alloc),
            tallies: IndexMap::new(alloc),
            odd: BTreeSet::new(alloc),
            holders: Holders::new(alloc),
        }
    }

    /// The pods of a slice, which ascend.
    ///
    /// # Errors
    /// `Want` where there is no memory for them.
    pub fn from_slice(alloc: Global, items: &[Arc<Pod>]) -> Result<Self, Want>
        requires rising { IsRising items.now }
        requires few_pods { length items.now < 2 ^ 32 }
        ensures { IfOk result (λ pods. pods ≡ items.now) }
    {
        let mut pods = Pods::new(alloc);
        pods.reserve(items.len())?;
        for pod in items {
            pods.push(pod.copy()?)?;
        }
        Ok(pods)
    }

    // Takes the memory for so many pods more.
    //
    // `Want` where there is none; the pods are as before.
    fn reserve(&mut self, more: usize) -> Result<(), Want>
        ensures { self.new ≡ self.old }
    {
        self.pods.reserve(more)?;
        Ok(())
    }

    /// The number of pods.
    pub fn len(&self) -> usize
        ensures count { result ≡ length self.now }
        ensures few_items { result < 2 ^ 32 }
        ensures rising { IsRising self.now }
    {
        self.pods.len()
    }

    /// Whether there is no pod.
    pub fn is_empty(&self) -> bool
        ensures { IsTrue result ↔ (self.now ≡ []) }
    {
        self.pods.is_empty()
    }

    /// The pods, in ascending UID.
    pub fn as_slice(&self) -> &[Arc<Pod>]
        ensures pods { result.now ≡ self.now }
        ensures few_items { length self.now < 2 ^ 32 }
        ensures rising { IsRising self.now }
    {
        self.pods.as_slice()
    }

    /// The numbers of the pods that were made for the owner of the UID; all are 0 for an owner without
    /// pods. It takes no memory, and goes over no pod.
    #[inline(always)]
    pub fn tally(&self, owner: Uid) -> Tally
        ensures { result ≡ tally_of owner self.now }
    {
        tally_in(&self.tallies, owner)
    }

    /// The pod of the UID; `None` exactly where none has it. It takes no memory.
    pub fn get(&self, uid: Uid) -> Option<&Arc<Pod>>
        ensures { option_copied result ≡ find (λ pod. same_uid pod.uid uid) self.now }
    {
        let pods = self.pods.as_slice();
        let place = place_from(pods, uid);
        if !is_there(pods, uid, place) {
            return None;
        }
        Some(&pods[place])
    }

    /// The pods at which a sync of the owner has to look, in ascending UID: those that have the finalizer
    /// though they are not active or are active without it, those of another owner, and those whose UID is
    /// in one of the lists. Where all pods are the owner's, and each listed one is of the first kind or not
    /// there, it goes over no other pod.
    ///
    /// # Errors
    /// `Want` where there is no memory for them.
    pub fn to_look_at(&self, owner: Uid, uids: &[Uid], more: &[Uid]) -> Result<Vec<Arc<Pod>>, Want>
        ensures pods { IfOk result (λ pods. pods.items
            ≡ filter (needs_look owner uids.now more.now) self.now) }
        ensures rising { IfOk result (λ pods. IsRising pods.items) }
    {
        if self.are_all_of(owner) && !self.has_calm(uids) && !self.has_calm(more) {
            return self.odd_pods();
        }
        pods_to_look_at(self.alloc, self.as_slice(), owner, uids, more)
    }

    /// Whether all pods were made for the owner. It takes no memory, and goes over no pod.
    pub fn are_all_of(&self, owner: Uid) -> bool
        ensures all { result ≡ (length (pods_for owner self.now) == length self.now) }
        ensures rising { IsRising self.now }
    {
        self.tally(owner).pods as usize == self.len()
    }

    // Whether there is a pod of the UID that is not at odds.
    fn is_calm(&self, uid: Uid) -> bool
        ensures { result ≡ is_calm self.now uid }
    {
        match self.get(uid) {
            None => false,
            Some(pod) => !is_at_odds(pod),
        }
    }

    // Whether a pod of one of the UIDs is not at odds.
    fn has_calm(&self, uids: &[Uid]) -> bool
        ensures { result ≡ list_any (is_calm self.now) uids.now }
    {
        uids.iter().any(|uid| self.is_calm(*uid))
    }

    // Copies of the pods at odds. Where these are few it goes over no other pod; where they are many, to go
    // over all is less than to look each up.
    //
    // `Want` where there is no memory for them.
    fn odd_pods(&self) -> Result<Vec<Arc<Pod>>, Want>
        ensures pods { IfOk result (λ pods. pods.items ≡ filter is_at_odds self.now) }
        ensures rising { IsRising self.now }
    {
        if self.odd.len() > self.pods.len() / 8 {
            return odd_among(self.alloc, self.as_slice());
        }
        self.few_odd_pods()
    }

    // Copies of the pods at odds, each of which is looked up.
    //
    // `Want` where there is no memory for them.
    fn few_odd_pods(&self) -> Result<Vec<Arc<Pod>>, Want>
        ensures pods { IfOk result (λ pods. pods.items ≡ filter is_at_odds self.now) }
        ensures rising { IsRising self.now }
    {
        let mut copies = Vec::with_capacity(self.alloc, self.odd.len())?;
        let mut numbers = self.odd.iter();
        'copying: while let Some(number) = numbers.next() {
            let Some(pod) = self.get(Uid(*number)) else {
                unreachable!()
            };
            copies.push(pod.copy()?)?;
        }
        Ok(copies)
    }

    /// Whether two active pods with the finalizer of the owner have the same index. It goes over no pod.
    pub fn shares_index(&self, owner: Uid) -> bool
        ensures apart { result ≡ false → (n : ℕ) → length (holders_of owner n self.now) ≤ 1 }
        ensures shared { result ≡ true → (n : ℕ) × (2 ≤ length (holders_of owner n self.now)) }
    {
        self.holders.shares(owner)
    }

    /// Whether an active pod with the finalizer of the owner has an index from the first up to the last. It
    /// goes over no pod.
    pub fn holds_between(&self, owner: Uid, first: u32, last: u32) -> bool
        ensures { result
            ≡ list_any (has_index_in first last) (tracked_active_pods (pods_for owner self.now)) }
    {
        self.holders.holds_between(owner, first, last)
    }

    /// Whether an active pod with the finalizer of the owner has this index or a greater one. It goes over
    /// no pod.
    pub fn holds_from(&self, owner: Uid, first: u32) -> bool
        ensures { result
            ≡ list_any (λ pod. option_map_or (λ index. nat_le first index) pod.index false)
            (tracked_active_pods (pods_for owner self.now)) }
    {
        self.holders.holds_from(owner, first)
    }

    /// The least index from the first one on that no active pod with the finalizer of the owner has; the end
    /// where there is none below it. It goes over no pod.
    pub fn first_unheld(&self, owner: Uid, from: u32, end: u32) -> u32
        requires { from ≤ end }
        ensures above { from ≤ result }
        ensures within { result ≤ end }
        ensures held { (n : ℕ) → from ≤ n → n < result
            → list_any (has_index_in n n) (tracked_active_pods (pods_for owner self.now)) ≡ true }
        ensures free { result < end → list_any (has_index_in result result)
            (tracked_active_pods (pods_for owner self.now)) ≡ false }
    {
        self.holders.first_unheld(owner, from, end)
    }

    /// Adds a pod whose UID is above all others.
    ///
    /// # Errors
    /// `Want` where there is no memory for it; the pods are then as before.
    pub fn push(&mut self, pod: Arc<Pod>) -> Result<(), Want>
        requires above { All (λ (other : Pod). other.uid.0 < pod.uid.0) self.old }
        requires few_pods { length self.old < 2 ^ 32 - 1 }
        ensures added { OnOk result (self.new ≡ self.old ++ pod ∷ []) }
        ensures kept { OnErr result (self.new ≡ self.old) }
    {
        self.put(pod)
    }

    /// Writes a pod: in the place of the one of its UID, or before the first of a greater UID.
    ///
    /// # Errors
    /// `Want` where there is no memory for one more pod; the pods are then as before.
    pub fn put(&mut self, pod: Arc<Pod>) -> Result<(), Want>
        requires few_pods { length self.old < 2 ^ 32 - 1 }
        ensures puts { OnOk result (self.new ≡ put_pod pod self.old) }
        ensures kept { OnErr result (self.new ≡ self.old) }
    {
        let pods = self.pods.as_slice();
        let place = place_from(pods, pod.uid);
        if is_there(pods, pod.uid, place) {
            return self.replace_at(place, pod);
        }
        self.insert_at(place, pod)
    }

    // Writes a pod in the place of the one of its UID.
    //
    // `Want` where there is no memory for what is kept beside it; the pods are then as before.
    fn replace_at(&mut self, place: usize, pod: Arc<Pod>) -> Result<(), Want>
        requires place { place ≡ place_from pod.uid self.old }
        requires there { IsSome (find (λ other. same_uid other.uid pod.uid) self.old) }
        ensures puts { OnOk result (self.new ≡ put_pod pod self.old) }
        ensures kept { OnErr result (self.new ≡ self.old) }
    {
        self.tallies.reserve(1)?;
        put_odd_and_enter(&mut self.odd, &mut self.holders, &pod)?;
        self.holders.leave(&self.pods[place]);
        leave(&mut self.tallies, &self.pods[place]);
        enter(&mut self.tallies, &pod);
        self.pods[place] = pod;
        Ok(())
    }

    // Writes a pod of a new UID before the first of a greater one.
    //
    // `Want` where there is no memory for it; the pods are then as before.
    fn insert_at(&mut self, place: usize, pod: Arc<Pod>) -> Result<(), Want>
        requires place { place ≡ place_from pod.uid self.old }
        requires absent { find (λ other. same_uid other.uid pod.uid) self.old ≡ None }
        requires few_pods { length self.old < 2 ^ 32 - 1 }
        ensures puts { OnOk result (self.new ≡ put_pod pod self.old) }
        ensures kept { OnErr result (self.new ≡ self.old) }
    {
        self.pods.reserve(1)?;
        self.tallies.reserve(1)?;
        put_odd_and_enter(&mut self.odd, &mut self.holders, &pod)?;
        enter(&mut self.tallies, &pod);
        let Ok(()) = self.pods.insert(place, pod) else {
            unreachable!()
        };
        Ok(())
    }

    /// Takes the pod of the UID out; `None` exactly where none has it. It takes no memory.
    pub fn take(&mut self, uid: Uid) -> Option<Arc<Pod>>
        ensures taken { result ≡ find (λ pod. same_uid pod.uid uid) self.old }
        ensures drops { self.new ≡ drop_pod uid self.old }
    {
        let pods = self.pods.as_slice();
        let place = place_from(pods, uid);
        if !is_there(pods, uid, place) {
            return None;
        }
        self.holders.leave(&self.pods[place]);
        leave(&mut self.tallies, &self.pods[place]);
        self.odd.remove(&uid.0);
        Some(self.pods.remove(place))
    }
}

impl Copied for Pods {
    fn copy(&self) -> Result<Self, Want> {
        Pods::from_slice(self.alloc, self.as_slice())
    }
}

impl Same for Pods {
    fn is_same(&self, other: &Self) -> bool {
        are_same(self.as_slice(), other.as_slice())
    }
}

// Whether both have the same pods in the same places.
fn are_same(left: &[Arc<Pod>], right: &[Arc<Pod>]) -> bool
    ensures { IsTrue result ↔ (left.now ≡ right.now) }
{
    if left.len() != right.len() {
        return false;
    }
    for i in 0..left.len() {
        if !left[i].is_same(&right[i]) {
            return false;
        }
    }
    true
}
