//! Pods by UID, in ascending UID.

ghost use Rattle.std.specs.Prelude.{◌≡◌, ◌<◌, ◌^◌, ◌↔◌, [], IsSome, IsTrue, None, OnErr, OnOk, find, length};
ghost use Rattle.std.specs.Map.Iter.{ShowsInOrder, deref};
ghost use Rattle.std.specs.Option.{option_copied};
ghost use Rattle.jc_types.specs.declared.objects.Pod.{Pod};
ghost use Rattle.jc_types.specs.Keys.{same_uid};
ghost use Rattle.jc_states.specs.PodLists.{IsRising, drop_pod, put_pod};

use crate::numbered::Numbered;
use crate::rows::Rows;
use jc_types::{Arc, Pod, Uid, Want};
use std::alloc::Global;
use std::marker::Model;

/// Pods in ascending UID, none twice.
#[derive(Drop)]
pub struct PodTable {
    // Each pod in the row of its UID's number, in ascending UID.
    rows: Numbered<Arc<Pod>>,
}

impl Model for PodTable {
    ghost use Rattle.std.specs.Prelude.{List};
    ghost use Rattle.jc_types.specs.declared.objects.Pod.{Pod};
    ghost use Rattle.jc_table.specs.Rows.{pods_in_rows, IsInOrder};

    ghost Value = { List Pod };

    ghost view = { λ t. pods_in_rows t.rows };

    ghost invariant = { λ t. IsInOrder t.rows };
}

impl PodTable {
    /// The empty table. It takes no memory.
    pub fn new(alloc: Global) -> Self
        ensures { result ≡ [] }
    {
        PodTable {
            rows: Numbered::new(alloc),
        }
    }

    /// The number of pods.
    pub fn len(&self) -> usize
        ensures count { result ≡ length self.now }
        ensures rising { IsRising self.now }
    {
        self.rows.len()
    }

    /// Whether there is no pod.
    pub fn is_empty(&self) -> bool
        ensures { IsTrue result ↔ (length self.now ≡ 0) }
    {
        self.rows.is_empty()
    }

    /// The pod of the UID; `None` exactly where none has it.
    pub fn get(&self, uid: Uid) -> Option<&Arc<Pod>>
        ensures { option_copied result ≡ find (λ pod. same_uid pod.uid uid) self.now }
    {
        self.rows.get(u64::from(uid.0))
    }

    /// All pods, in ascending UID.
    pub fn values(&self) -> Rows<'_, Arc<Pod>>
        ensures pods { result ≡ self.now }
        ensures runs { ShowsInOrder (deref {X = Pod}) }
        ensures fits { length self.now < 2 ^ 63 }
    {
        self.rows.values()
    }

    /// Writes a pod: in the place of the one of its UID, or before the first of a greater UID.
    ///
    /// # Errors
    /// `Want` where there is no memory for a new row; the table is then as before.
    pub fn put(&mut self, pod: Arc<Pod>) -> Result<(), Want>
        ensures puts { OnOk result (self.new ≡ put_pod pod self.old) }
        ensures kept { OnErr result (self.new ≡ self.old) }
        ensures new_uid { OnErr result (find (λ p. same_uid p.uid pod.uid) self.old ≡ None) }
    {
        self.rows.insert(u64::from(pod.uid.0), pod)?;
        Ok(())
    }

    /// Writes a pod in the place of the one of its UID. It takes no memory.
    pub fn replace(&mut self, pod: Arc<Pod>)
        requires { IsSome (find (λ p. same_uid p.uid pod.uid) self.old) }
        ensures { self.new ≡ put_pod pod self.old }
    {
        self.rows.set(u64::from(pod.uid.0), pod);
    }

    /// Takes the pod of the UID out; `None` exactly where none has it. It takes no memory.
    pub fn take(&mut self, uid: Uid) -> Option<Arc<Pod>>
        ensures taken { result ≡ find (λ pod. same_uid pod.uid uid) self.old }
        ensures drops { self.new ≡ drop_pod uid self.old }
    {
        self.rows.remove(u64::from(uid.0))
    }

    /// Takes all pods out.
    pub fn clear(&mut self)
        ensures { self.new ≡ [] }
    {
        self.rows.clear();
    }
}
