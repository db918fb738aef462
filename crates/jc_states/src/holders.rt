//! Which indexes the active pods of each owner hold (KEP-2214).

ghost use Rattle.std.specs.Prelude.{◌≡◌, ◌+◌, ◌-◌, ◌<◌, ◌≤◌, ◌==◌, ◌&&◌, ℕ, [], None, OnErr, OnOk, false, if◌then◌else◌, nat_le, nat_lt, true};
ghost use Rattle.std.specs.List.{list_any};
ghost use Rattle.jc_types.specs.declared.numbers.Uid.{Uid};
ghost use Rattle.jc_types.specs.Keys.{same_uid};
ghost use Rattle.jc_states.specs.Held.{is_between, repeats};
ghost use Rattle.jc_states.specs.Holders.{held_by, held_in, holds_index};
ghost use Rattle.jc_states.specs.Pods.{is_tracked_active};

use crate::held::Held;
use crate::pods::is_tracked_active;
use crate::rows::{row_mut, row_of};
use indexmap::IndexMap;
use jc_types::{Pod, Uid, Want};
use std::alloc::Global;
use std::marker::Model;

/// Which indexes the active pods of each owner with the finalizer hold, so that nobody looks at the pods
/// for it. A contract sees a row of indexes for each owner that had such a pod.
#[derive(Drop)]
pub(crate) struct Holders {
    alloc: Global,
    // A row whose pods have gone may stay, with no index.
    rows: IndexMap<Uid, Held>,
}

impl Model for Holders {
    ghost use Rattle.std.specs.Prelude.{ℕ, List};
    ghost use Rattle.jc_types.specs.declared.numbers.Uid.{Uid};

    ghost Value = { List (Uid × List ℕ) };

    ghost view = { λ h. h.rows.entries };
}

// The index that the pod holds: that of an active one with the finalizer.
fn held_index(pod: &Pod) -> Option<u32>
    ensures { result ≡ (if is_tracked_active pod.now then pod.now.index else None) }
{
    if is_tracked_active(pod) {
        pod.index
    } else {
        None
    }
}

impl Holders {
    /// No pod holds an index. It takes no memory.
    pub(crate) fn new(alloc: Global) -> Self
        ensures { result ≡ [] }
    {
        Holders {
            alloc,
            rows: IndexMap::new(alloc),
        }
    }

    /// Whether two pods of the owner hold the same index.
    pub(crate) fn shares(&self, owner: Uid) -> bool
        ensures { result ≡ nat_lt 0 (repeats (held_by owner self.now)) }
    {
        match row_of(&self.rows, owner) {
            None => false,
            Some(held) => held.has_repeats(),
        }
    }

    // Whether a pod of the owner holds an index from the first up to the last.
    pub(crate) fn holds_between(&self, owner: Uid, first: u32, last: u32) -> bool
        ensures { result ≡ list_any (is_between first last) (held_by owner self.now) }
    {
        match row_of(&self.rows, owner) {
            None => false,
            Some(held) => held.has_between(first, last),
        }
    }

    // Whether a pod of the owner holds this index or a greater one.
    pub(crate) fn holds_from(&self, owner: Uid, first: u32) -> bool
        ensures { result ≡ list_any (λ n. nat_le first n) (held_by owner self.now) }
    {
        match row_of(&self.rows, owner) {
            None => false,
            Some(held) => held.has_from(first),
        }
    }

    // The least index from this one on that no pod of the owner holds; the end where there is none below it.
    pub(crate) fn first_unheld(&self, owner: Uid, from: u32, end: u32) -> u32
        requires { from ≤ end }
        ensures above { from ≤ result }
        ensures within { result ≤ end }
        ensures held { (n : ℕ) → from ≤ n → n < result
            → list_any (is_between n n) (held_by owner self.now) ≡ true }
        ensures free { result < end
            → list_any (is_between result result) (held_by owner self.now) ≡ false }
    {
        match row_of(&self.rows, owner) {
            None => from,
            Some(held) => held.first_absent(from, end),
        }
    }

    // Notes the index that the pod holds, if it holds one.
    //
    // `Want` where there is no memory for it; all is then as before.
    pub(crate) fn enter(&mut self, pod: &Pod) -> Result<(), Want>
        ensures enters { OnOk result ((owner : Uid) → (n : ℕ) → held_in owner n self.new
            ≡ held_in owner n self.old + (if holds_index owner n pod.now then 1 else 0)) }
        ensures kept { OnErr result (self.new ≡ self.old) }
    {
        match held_index(pod) {
            None => Ok(()),
            Some(index) => self.add(pod.owner_uid, index),
        }
    }

    // Notes that the pod holds its index no more, if it holds one. It takes no memory.
    pub(crate) fn leave(&mut self, pod: &Pod)
        ensures { (owner : Uid) → (n : ℕ) → held_in owner n self.new
            ≡ held_in owner n self.old - (if holds_index owner n pod.now then 1 else 0) }
    {
        if let Some(index) = held_index(pod) {
            self.remove(pod.owner_uid, index);
        }
    }

    // Adds an index to those of the owner.
    //
    // `Want` where there is no memory for it; all is then as before.
    fn add(&mut self, owner: Uid, index: u32) -> Result<(), Want>
        ensures adds { OnOk result ((other : Uid) → (n : ℕ) → held_in other n self.new
            ≡ held_in other n self.old + (if same_uid owner other && index == n then 1 else 0)) }
        ensures kept { OnErr result (self.new ≡ self.old) }
    {
        if let Some(held) = row_mut(&mut self.rows, owner) {
            return held.add(index);
        }
        let mut held = Held::new(self.alloc);
        held.add(index)?;
        self.rows.insert(owner, held)?;
        Ok(())
    }

    // Takes an index of the owner out once, if it is there. It takes no memory.
    fn remove(&mut self, owner: Uid, index: u32)
        ensures { (other : Uid) → (n : ℕ) → held_in other n self.new
            ≡ held_in other n self.old - (if same_uid owner other && index == n then 1 else 0) }
    {
        let Some(held) = row_mut(&mut self.rows, owner) else {
            return;
        };
        held.remove(index);
    }
}
