//! The pods of a store, and which of them are open.

ghost use Rattle.std.specs.Prelude.{◌≡◌, ◌&&◌, [], None, OnErr, OnOk, find, nat_le, true, if◌then◌else◌};
ghost use Rattle.std.specs.BTreeMap.{is_at};
ghost use Rattle.std.specs.Option.{option_copied};
ghost use Rattle.std.specs.Ordering.{nat_cmp};
ghost use Rattle.std.specs.Set.{remove_key};
ghost use Rattle.jc_types.specs.declared.objects.Pod.{Pod};
ghost use Rattle.jc_types.specs.Keys.{same_uid};
ghost use Rattle.jc_states.specs.PodLists.{drop_pod, put_pod};
ghost use Rattle.jc_states.specs.Pods.{is_open};
ghost use Rattle.jc_table.specs.Open.{CanReplace};

use super::PodTable;
use jc_states::is_open;
use jc_types::{Arc, Pod, Uid, Want};
use std::alloc::Global;
use std::collections::BTreeSet;
use std::marker::Model;

/// The pods of a store, in ascending UID, none twice. The open ones among them are found without a
/// look at those that have ended.
#[derive(Drop)]
pub struct StoredPods {
    // All pods.
    all: PodTable,
    // The numbers of the UIDs of the open ones.
    numbers: BTreeSet<u32>,
}

impl Model for StoredPods {
    ghost use Rattle.std.specs.Prelude.{List};
    ghost use Rattle.jc_types.specs.declared.objects.Pod.{Pod};
    ghost use Rattle.jc_table.specs.Open.{KnowsOpen};

    ghost Value = { List Pod };

    ghost view = { λ s. s.all };

    ghost invariant = { λ s. KnowsOpen s.numbers.keys s.all };
}

// Takes the number of a pod that has ended out of those of the open pods.
fn close(numbers: &mut BTreeSet<u32>, pod: &Pod)
    ensures { numbers.new.keys ≡ (if is_open pod.now then numbers.old.keys
        else remove_key (is_at (nat_cmp pod.now.uid.0)) numbers.old.keys) }
{
    if is_open(pod) {
        return;
    }
    numbers.remove(&pod.uid.0);
}

// The least of the numbers from this one on. It is mostly the least of all, for which no range is made.
fn least_from(numbers: &BTreeSet<u32>, from: u32) -> Option<u32>
    ensures { result ≡ find (nat_le from) numbers.now.keys }
{
    let least = *numbers.first()?;
    if from <= least {
        return Some(least);
    }
    numbers.range(from..).next().copied()
}

impl StoredPods {
    /// No pods. It takes no memory.
    pub fn new(alloc: Global) -> StoredPods
        ensures { result ≡ [] }
    {
        StoredPods {
            all: PodTable::new(alloc),
            numbers: BTreeSet::new(alloc),
        }
    }

    /// All pods.
    pub fn all(&self) -> &PodTable
        ensures { result.now ≡ self.now }
    {
        &self.all
    }

    /// The open pod with the least UID from this one on; `None` exactly where there is none.
    pub fn open_from(&self, uid: Uid) -> Option<&Arc<Pod>>
        ensures { option_copied result
            ≡ find (λ pod. nat_le uid.0 pod.uid.0 && is_open pod) self.now }
    {
        let number = least_from(&self.numbers, uid.0)?;
        self.all.get(Uid(number))
    }

    /// Writes a new pod, which is open.
    ///
    /// # Errors
    /// `Want` where there is no memory for it; the pods are then as before.
    pub fn add(&mut self, pod: Arc<Pod>) -> Result<(), Want>
        requires absent { find (λ p. same_uid p.uid pod.uid) self.old ≡ None }
        requires begins_open { is_open pod ≡ true }
        ensures puts { OnOk result (self.new ≡ put_pod pod self.old) }
        ensures kept { OnErr result (self.new ≡ self.old) }
    {
        let number = pod.uid.0;
        self.numbers.insert(number)?;
        match self.all.put(pod) {
            Ok(()) => Ok(()),
            Err(want) => {
                self.numbers.remove(&number);
                Err(want)
            }
        }
    }

    /// Writes a pod in the place of the one of its UID. One that has ended does not open again. It
    /// takes no memory.
    pub fn replace(&mut self, pod: Arc<Pod>)
        requires { CanReplace pod (find (λ p. same_uid p.uid pod.uid) self.old) }
        ensures { self.new ≡ put_pod pod self.old }
    {
        close(&mut self.numbers, &pod);
        self.all.replace(pod);
    }

    /// Takes the pod of the UID out, where one has it. It takes no memory.
    pub fn take(&mut self, uid: Uid)
        ensures { self.new ≡ drop_pod uid self.old }
    {
        self.numbers.remove(&uid.0);
        self.all.take(uid);
    }
}
