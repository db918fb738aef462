//! Pods that share their memory with the syncs that see them.

ghost use Rattle.std.specs.Prelude.{◌≡◌, ◌-◌, ◌<◌, ◌^◌, ◌↔◌, [], IfOk, IsTrue, OnErr, OnOk, find, is_some, length};
ghost use Rattle.jc_types.specs.Keys.{same_uid};
ghost use Rattle.jc_states.specs.PodLists.{IsRising, drop_pod, put_pod};
ghost use Rattle.jc_cache.specs.Changes.{HasRoomFor, IsOf, with_change};

use crate::changes::{Change, copied, empty, make, make_all};
use indexmap::IndexMap;
use jc_states::Pods;
use jc_types::{Arc, Copied, Pod, Uid, Want};
use std::alloc::Global;
use std::marker::Model;
use std::sync;

/// Pods that a sync may see while others come and go: a change is made in place where no sync sees them,
/// and else waits until none does. A contract sees the pods as they are after all changes.
#[derive(Drop)]
pub struct SharedPods {
    alloc: Global,
    shared: sync::Arc<Pods>,
    // What is not yet made of the shared pods: the last change of each UID.
    waiting: IndexMap<Uid, Change>,
    // How many pods there are after all changes.
    count: u32,
}

impl Model for SharedPods {
    ghost use Rattle.std.specs.Prelude.{List};
    ghost use Rattle.jc_types.specs.declared.objects.Pod.{Pod};
    ghost use Rattle.jc_cache.specs.Changes.{KeepsChanges, all_changed};

    ghost Value = { List Pod };

    ghost view = { λ p. all_changed p.waiting.entries p.shared.value };

    ghost invariant = { λ p. KeepsChanges p.waiting.entries p.shared.value p.count };
}

impl SharedPods {
    /// These pods, shared from now on.
    ///
    /// # Errors
    /// `Want` where there is no memory for it.
    pub fn new(alloc: Global, pods: Pods) -> Result<SharedPods, Want>
        ensures { IfOk result (λ shared. shared ≡ pods) }
    {
        let count = pods.len() as u32;
        Ok(SharedPods {
            alloc,
            shared: sync::Arc::new(alloc, pods)?,
            waiting: IndexMap::new(alloc),
            count,
        })
    }

    /// Whether there is no pod, once all changes are made. It goes over no pod and no change.
    pub fn is_empty(&self) -> bool
        ensures { IsTrue result ↔ (self.now ≡ []) }
    {
        self.count == 0
    }

    /// The pods, for a sync to see. No pod is copied, unless changes wait.
    ///
    /// # Errors
    /// `Want` where they are shared too often, there is no memory for a copy, or they are more than can be
    /// counted while the changes that wait are made.
    pub fn seen(&self) -> Result<Arc<Pods>, Want>
        ensures pods { IfOk result (λ pods. pods ≡ self.now) }
        ensures rising { IfOk result (λ pods. IsRising pods) }
    {
        if !self.waiting.is_empty() {
            return self.seen_anew();
        }
        Ok(Arc::from_std(sync::Arc::try_clone(&self.shared)?))
    }

    // The pods, copied, with the waiting changes made.
    fn seen_anew(&self) -> Result<Arc<Pods>, Want>
        ensures pods { IfOk result (λ pods. pods ≡ self.now) }
        ensures rising { IfOk result (λ pods. IsRising pods) }
    {
        let mut pods = (&*self.shared).copy()?;
        make_all(&mut pods, &self.waiting)?;
        Arc::new(self.alloc, pods)
    }

    /// Writes a pod: in the place of the one of its UID, or before the first of a greater UID.
    ///
    /// # Errors
    /// `Want` where there is no memory for it; the pods are then as before.
    pub fn put(&mut self, pod: Arc<Pod>) -> Result<(), Want>
        requires few_pods { length self.old < 2 ^ 32 - 1 }
        ensures puts { OnOk result (self.new ≡ put_pod pod self.old) }
        ensures kept { OnErr result (self.new ≡ self.old) }
    {
        self.change(pod.uid, Some(pod))
    }

    /// Drops the pod of the UID, if there is one.
    ///
    /// # Errors
    /// `Want` where there is no memory for it; the pods are then as before.
    pub fn drop_pod(&mut self, uid: Uid) -> Result<(), Want>
        ensures drops { OnOk result (self.new ≡ drop_pod uid self.old) }
        ensures kept { OnErr result (self.new ≡ self.old) }
    {
        self.change(uid, None)
    }

    /// Makes the changes that wait, where nobody shares the pods. Where there is no memory for one, all wait on.
    pub fn apply_pending(&mut self)
        ensures { self.new ≡ self.old }
    {
        if self.waiting.is_empty() {
            return;
        }
        if let Some(pods) = sync::Arc::get_mut(&mut self.shared) {
            if make_all(pods, &self.waiting).is_ok() {
                empty(self.alloc, &mut self.waiting);
            }
        }
    }

    // Makes a change after those that wait: in place where none is left and nobody shares the pods, and else
    // it waits too.
    //
    // `Want` where there is no memory for it; the pods are then as before.
    fn change(&mut self, uid: Uid, change: Change) -> Result<(), Want>
        requires named { IsOf uid change }
        requires room { HasRoomFor change self.old }
        ensures makes { OnOk result (self.new ≡ with_change uid change self.old) }
        ensures kept { OnErr result (self.new ≡ self.old) }
    {
        self.apply_pending();
        if !self.waiting.is_empty() {
            return self.wait(uid, change);
        }
        let Some(pods) = sync::Arc::get_mut(&mut self.shared) else {
            return self.wait(uid, change);
        };
        make(pods, uid, change)?;
        self.count = pods.len() as u32;
        Ok(())
    }

    // Has a change wait, after those that do, or in the place of the one of its UID.
    //
    // `Want` where there is no memory for it; the pods are then as before.
    fn wait(&mut self, uid: Uid, change: Change) -> Result<(), Want>
        requires named { IsOf uid change }
        requires room { HasRoomFor change self.old }
        ensures makes { OnOk result (self.new ≡ with_change uid change self.old) }
        ensures kept { OnErr result (self.new ≡ self.old) }
    {
        let count = self.count_with(uid, &change);
        self.waiting.insert(uid, change)?;
        self.count = count;
        Ok(())
    }

    // How many pods there are after one more change.
    fn count_with(&self, uid: Uid, change: &Change) -> u32
        requires named { IsOf uid change.now }
        requires room { HasRoomFor change.now self.now }
        ensures { result ≡ length (with_change uid change.now self.now) }
    {
        match (self.has(uid), change.is_some()) {
            (false, false) => self.count,
            (false, true) => self.count + 1,
            (true, false) => self.count - 1,
            (true, true) => self.count,
        }
    }

    // Whether there is a pod of the UID, once all changes are made.
    fn has(&self, uid: Uid) -> bool
        ensures { result ≡ is_some (find (λ pod. same_uid pod.uid uid) self.now) }
    {
        match self.waiting.get(&uid) {
            Some(change) => change.is_some(),
            None => self.shared.get(uid).is_some(),
        }
    }
}

impl Copied for SharedPods {
    fn copy(&self) -> Result<Self, Want> {
        Ok(SharedPods {
            alloc: self.alloc,
            shared: sync::Arc::try_clone(&self.shared)?,
            waiting: copied(self.alloc, &self.waiting)?,
            count: self.count,
        })
    }
}
