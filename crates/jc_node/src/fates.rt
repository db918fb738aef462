//! How the pods of each key are to end.

ghost use Rattle.std.specs.Prelude.{◌≡◌, ◌≢◌, [], IfOk, IfSome, OnErr, OnOk, Some, option_copied};
ghost use Rattle.jc_types.specs.declared.objects.KeyNames.{KeyNames as Key};
ghost use Rattle.jc_types.specs.Keys.{same_key};
ghost use Rattle.jc_log.specs.Tables.{Sets, puts};
ghost use Rattle.jc_history.specs.Nodes.{end_at, last_end, pod_end};
ghost use Rattle.jc_node.specs.Fated.{DecidesEnds, conditions_at_start, ends_at_key};

use crate::conditions::Ready;
use indexmap::IndexMap;
use jc_types::{Copied, End, Ends, Key, Pod, PodConditions, Want};
use std::alloc::Global;
use std::marker::Model;

/// How the pods of each key are to end, where that is decided: a list that is not empty, of which
/// a pod has the end at its serial, or the last where its serial is greater.
#[derive(Drop)]
pub struct Fates {
    alloc: Global,
    rows: IndexMap<Key, Ends>,
    // The conditions of a pod that starts, which are made once a fate is set.
    ready: Ready,
}

impl Model for Fates {
    ghost use Rattle.std.specs.Prelude.{List};
    ghost use Rattle.jc_types.specs.declared.actions.End.{End};
    ghost use Rattle.jc_types.specs.declared.objects.KeyNames.{KeyNames as Key};
    ghost use Rattle.jc_node.specs.Fated.{HaveEnds};

    ghost Value = { List (Key × List End) };

    ghost view = { λ f. f.rows.entries };

    ghost invariant = { λ f. HaveEnds f.rows.entries };
}

// Puts the ends at the key: in the place of those that are there, or in a new row at the end.
fn put(rows: &mut IndexMap<Key, Ends>, key: Key, ends: Ends) -> Result<(), Want>
    ensures puts { OnOk result (rows.new.entries ≡ puts same_key rows.old.entries key ends) }
    ensures sets { OnOk result (Sets same_key rows.old.entries rows.new.entries key (Some ends)) }
    ensures kept { OnErr result (rows.new.entries ≡ rows.old.entries) }
{
    rows.insert(key, ends)?;
    Ok(())
}

// Copies of the rows, in their order.
fn copied_rows(alloc: Global, rows: &IndexMap<Key, Ends>) -> Result<IndexMap<Key, Ends>, Want>
    ensures { IfOk result (λ copies. copies.entries ≡ rows.now.entries) }
{
    let mut copies = IndexMap::new(alloc);
    for (key, ends) in rows.iter() {
        put(&mut copies, key.copy()?, ends.copy()?)?;
    }
    Ok(copies)
}

impl Copied for Fates {
    fn copy(&self) -> Result<Self, Want> {
        Ok(Fates {
            alloc: self.alloc,
            rows: copied_rows(self.alloc, &self.rows)?,
            ready: self.ready.copy()?,
        })
    }
}

impl Fates {
    /// No fates. It takes no memory.
    pub fn new(alloc: Global) -> Fates
        ensures { result ≡ [] }
    {
        Fates {
            alloc,
            rows: IndexMap::new(alloc),
            ready: Ready::new(),
        }
    }

    /// Decides how the pods of a key are to end, in place of what was decided before. There is at
    /// least one end.
    ///
    /// # Errors
    /// `Want` where there is no memory for it; the fates are then as before.
    pub fn set(&mut self, key: &Key, ends: Ends) -> Result<(), Want>
        requires some_ends { ends ≢ [] }
        ensures rows { OnOk result (self.new ≡ puts same_key self.old key.now ends) }
        ensures fates { OnOk result (DecidesEnds key.now ends self.old self.new) }
        ensures kept { OnErr result (self.new ≡ self.old) }
    {
        self.ready.make(self.alloc)?;
        put(&mut self.rows, key.copy()?, ends)
    }

    /// How the pods of the key are to end; `None` exactly where that is not decided. There is at
    /// least one end.
    pub fn get(&self, key: &Key) -> Option<&Ends>
        ensures ends { option_copied result ≡ ends_at_key self.now key.now }
        ensures some_ends { IfSome (ends_at_key self.now key.now) (λ ends. ends ≢ []) }
    {
        self.rows.get(key)
    }

    // The conditions of a pod that starts.
    pub(super) fn ready(&self) -> Result<PodConditions, Want>
        ensures { IfOk result (λ conditions. conditions ≡ conditions_at_start) }
    {
        self.ready.conditions(self.alloc)
    }

    // How the pod is to end.
    pub(super) fn end_of(&self, pod: &Pod) -> Option<&End>
        ensures { option_copied result ≡ pod_end (ends_at_key self.now) pod.now }
    {
        let ends = self.get(&pod.owner)?;
        end_at(ends.as_slice(), pod.serial)
    }
}

// The end at the serial, or the last.
fn end_at(ends: &[End], serial: u32) -> Option<&End>
    ensures { option_copied result ≡ end_at serial ends.now }
{
    match ends.get(serial as usize) {
        Some(end) => Some(end),
        None => last_end(ends),
    }
}

// The last of the ends.
fn last_end(ends: &[End]) -> Option<&End>
    ensures { option_copied result ≡ last_end ends.now }
{
    ends.last()
}
