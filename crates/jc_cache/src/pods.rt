//! The cache of pods.

ghost use Rattle.std.specs.Prelude.{◌≡◌, ◌-◌, ◌<◌, ◌^◌, [], IfOk, None, OnErr, OnOk, Some, length, true};
ghost use Rattle.std.specs.List.{list_all};
ghost use Rattle.jc_types.specs.declared.objects.Entry.TheVariants.{PodGone, PodPut};
ghost use Rattle.jc_types.specs.Keys.{same_key};
ghost use Rattle.jc_states.specs.PodLists.{IsRising};
ghost use Rattle.jc_cache.specs.Caches.{HasFewPods, HoldsByOwner, IsNext, TakesIn, pods_at};

use crate::shared_pods::SharedPods;
use indexmap::IndexMap;
use jc_states::Pods;
use jc_types::{Arc, Copied, Entry, Key, Pod, Version, Want};
use std::alloc::Global;
use std::marker::Model;

/// The pods as a controller knows them, apart by the key of their owner, so that a delivery does not go
/// over the pods of other Jobs, and a look-up over no pod at all. A contract sees its number, or none, and
/// the pods under each owner key.
#[derive(Drop)]
pub struct PodCache {
    alloc: Global,
    number: Option<Version>,
    rows: IndexMap<Key, SharedPods>,
}

impl Model for PodCache {
    ghost use Rattle.jc_cache.specs.Caches.{CachedPods};

    ghost Value = { CachedPods };

    ghost view = { λ c. record { number = c.number; rows = c.rows.entries } };
}

// Puts a pod among those of its owner.
//
// `Want` where there is no memory for it; the rows are then as before.
fn put_pod(alloc: Global, rows: &mut IndexMap<Key, SharedPods>, pod: &Arc<Pod>) -> Result<(), Want>
    requires few_pods { length (pods_at pod.now.owner rows.old.entries) < 2 ^ 32 - 1 }
    ensures puts { OnOk result (TakesIn (PodPut pod.now) rows.old.entries rows.new.entries) }
    ensures kept { OnErr result (rows.new.entries ≡ rows.old.entries) }
{
    let again = pod.copy()?;
    let owner = &pod.owner;
    if let Some(pods) = rows.get_mut(owner) {
        pods.put(again)?;
        return Ok(());
    }
    let owner = owner.copy()?;
    let mut pods = Pods::new(alloc);
    pods.put(again)?;
    rows.insert(owner, SharedPods::new(alloc, pods)?)?;
    Ok(())
}

// Drops a pod from those of its owner; the row of an owner that has none left goes.
//
// `Want` where there is no memory for it; the rows are then as before.
#[inline(never)]
fn drop_pod(rows: &mut IndexMap<Key, SharedPods>, pod: &Pod) -> Result<(), Want>
    ensures drops { OnOk result (TakesIn (PodGone pod.now) rows.old.entries rows.new.entries) }
    ensures kept { OnErr result (rows.new.entries ≡ rows.old.entries) }
{
    let Some(pods) = rows.get_mut(&pod.owner) else {
        return Ok(());
    };
    pods.drop_pod(pod.uid)?;
    if pods.is_empty() {
        rows.swap_remove(&pod.owner);
    }
    Ok(())
}

// Takes one more entry in. One about a Job changes nothing.
//
// `Want` where there is no memory for it; the rows are then as before.
fn take_in(alloc: Global, rows: &mut IndexMap<Key, SharedPods>, entry: &Entry) -> Result<(), Want>
    requires few_pods { HasFewPods rows.old.entries }
    ensures pods { OnOk result (TakesIn entry.now rows.old.entries rows.new.entries) }
    ensures kept { OnErr result (rows.new.entries ≡ rows.old.entries) }
{
    match entry {
        Entry::PodPut(pod) => put_pod(alloc, rows, pod),
        Entry::PodGone(pod) => drop_pod(rows, pod),
        Entry::JobPut(_) | Entry::JobGone(_) => Ok(()),
    }
}

// Makes the changes that wait in the row of the key, if there is one.
fn apply_row(rows: &mut IndexMap<Key, SharedPods>, key: &Key)
    ensures { rows.new.entries ≡ rows.old.entries }
{
    let Some(pods) = rows.get_mut(key) else {
        return;
    };
    pods.apply_pending();
}

// Whether each of the pods has the owner of this key.
fn have_owner(pods: &[Arc<Pod>], owner: &Key) -> bool
    ensures { result ≡ list_all (λ pod. same_key pod.owner owner.now) pods.now }
{
    pods.iter().all(|pod| pod.owner == *owner)
}

// The pods apart by owner. Where all have the same one, they are its row as they are.
fn rows_of(alloc: Global, pods: Pods) -> Result<IndexMap<Key, SharedPods>, Want>
    requires rising { IsRising pods }
    ensures { IfOk result (λ rows. HoldsByOwner pods rows.entries) }
{
    let Some(first) = pods.as_slice().first() else {
        return Ok(IndexMap::new(alloc));
    };
    if !have_owner(pods.as_slice(), &first.owner) {
        return mixed_rows(alloc, pods.as_slice());
    }
    let owner = first.owner.copy()?;
    row_of(alloc, owner, pods)
}

// The row of the pods' one owner.
fn row_of(alloc: Global, owner: Key, pods: Pods) -> Result<IndexMap<Key, SharedPods>, Want>
    requires { list_all (λ pod. same_key pod.owner owner) pods ≡ true }
    ensures { IfOk result (λ rows. HoldsByOwner pods rows.entries) }
{
    let mut rows = IndexMap::new(alloc);
    rows.insert(owner, SharedPods::new(alloc, pods)?)?;
    Ok(rows)
}

// The pods apart by owner, each in ascending UID as all of them are.
fn mixed_rows(alloc: Global, pods: &[Arc<Pod>]) -> Result<IndexMap<Key, SharedPods>, Want>
    requires rising { IsRising pods.now }
    requires few_pods { length pods.now < 2 ^ 32 }
    ensures { IfOk result (λ rows. HoldsByOwner pods.now rows.entries) }
{
    let mut rows = IndexMap::new(alloc);
    for pod in pods {
        put_pod(alloc, &mut rows, pod)?;
    }
    Ok(rows)
}

// The rows again, in their order. Their pods are shared.
fn copied_rows(
    alloc: Global,
    rows: &IndexMap<Key, SharedPods>,
) -> Result<IndexMap<Key, SharedPods>, Want>
    ensures { IfOk result (λ copies. copies.entries ≡ rows.now.entries) }
{
    let mut copies = IndexMap::new(alloc);
    for (owner, pods) in rows.iter() {
        copies.insert(owner.copy()?, pods.copy()?)?;
    }
    Ok(copies)
}

impl PodCache {
    /// The cache without a number and without pods. It takes no memory.
    pub fn empty(alloc: Global) -> PodCache
        ensures number { result.number ≡ None }
        ensures pods { result.rows ≡ [] }
    {
        PodCache {
            alloc,
            number: None,
            rows: IndexMap::new(alloc),
        }
    }

    /// The version up to which the cache has seen the log; `None` where it has no number.
    pub fn at(&self) -> Option<Version>
        ensures { result ≡ self.now.number }
    {
        self.number
    }

    /// The pods whose owner has the key, in ascending UID, whatever their owner's UID. They are shared with
    /// the cache, and a change of them waits until nobody sees them; no pod is copied, unless changes wait
    /// already.
    ///
    /// # Errors
    /// `Want` where there is no memory for it.
    pub fn pods_of(&self, key: &Key) -> Result<Arc<Pods>, Want>
        ensures pods { IfOk result (λ pods. pods ≡ pods_at key.now self.now.rows) }
        ensures rising { IfOk result (λ pods. IsRising pods) }
    {
        match self.rows.get(key) {
            None => Arc::new(self.alloc, Pods::new(self.alloc)),
            Some(pods) => pods.seen(),
        }
    }

    /// Fills the cache with what was listed at a version, in place of all that it had.
    ///
    /// # Errors
    /// `Want` where there is no memory for it; the cache is then as before.
    pub fn replace(&mut self, pods: Pods, at: Version) -> Result<(), Want>
        requires { IsRising pods }
        ensures number { OnOk result (self.new.number ≡ Some at) }
        ensures pods { OnOk result (HoldsByOwner pods self.new.rows) }
        ensures kept { OnErr result (self.new ≡ self.old) }
    {
        self.rows = rows_of(self.alloc, pods)?;
        self.number = Some(at);
        Ok(())
    }

    /// Takes the next entry of the log in. An entry about a Job moves the number alone. No owner has so many
    /// pods that one more could not be counted.
    ///
    /// # Errors
    /// `Want` where there is no memory for it; the cache is then as before.
    pub fn deliver(&mut self, entry: &Entry, version: Version) -> Result<(), Want>
        requires next { IsNext self.old.number version }
        requires few_pods { HasFewPods self.old.rows }
        ensures number { OnOk result (self.new.number ≡ Some version) }
        ensures pods { OnOk result (TakesIn entry.now self.old.rows self.new.rows) }
        ensures kept { OnErr result (self.new ≡ self.old) }
    {
        take_in(self.alloc, &mut self.rows, entry)?;
        self.number = Some(version);
        Ok(())
    }

    /// Makes the changes of the pods under the key that wait, where nobody sees the pods any more and there is
    /// memory. It changes nothing that a contract sees: what is seen next is then shared, and not copied.
    pub fn apply_pending(&mut self, key: &Key)
        ensures { self.new ≡ self.old }
    {
        apply_row(&mut self.rows, key);
    }

    /// Forgets all pods and the number. It takes no memory.
    pub fn forget(&mut self)
        ensures number { self.new.number ≡ None }
        ensures pods { self.new.rows ≡ [] }
    {
        self.rows.clear();
        self.number = None;
    }
}

impl Copied for PodCache {
    fn copy(&self) -> Result<Self, Want> {
        Ok(PodCache {
            alloc: self.alloc,
            number: self.number,
            rows: copied_rows(self.alloc, &self.rows)?,
        })
    }
}
