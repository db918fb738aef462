//! Lists, sets and tables that are copied key by key.

ghost use Rattle.std.specs.Prelude.{◌≡◌, ◌++◌, IfOk, OnOk};
ghost use Rattle.std.specs.List.{IsDistinct};
ghost use Rattle.jc_types.specs.Keys.{same_key};

use indexmap::{IndexMap, IndexSet};
use jc_types::{Copied, Key, Want};
use std::alloc::Global;

// Copies of the keys in front and of those at the back.
pub(crate) fn copied(alloc: Global, front: &[Key], back: &[Key]) -> Result<Vec<Key>, Want>
    ensures { IfOk result (λ keys. keys.items ≡ front.now ++ back.now) }
{
    let mut keys = Vec::new(alloc);
    push_copies(&mut keys, front)?;
    push_copies(&mut keys, back)?;
    Ok(keys)
}

// Adds copies of more keys at the end.
fn push_copies(keys: &mut Vec<Key>, more: &[Key]) -> Result<(), Want>
    ensures { OnOk result (keys.new.items ≡ keys.old.items ++ more.now) }
{
    for key in more {
        keys.push(key.copy()?)?;
    }
    Ok(())
}

// A set of copies of the keys, in their order.
pub(crate) fn copied_set(alloc: Global, keys: &[Key]) -> Result<IndexSet<Key>, Want>
    requires once { IsDistinct same_key keys.now }
    ensures { IfOk result (λ set. set.keys ≡ keys.now) }
{
    let mut set = IndexSet::new(alloc);
    for key in keys {
        set.insert(key.copy()?)?;
    }
    Ok(set)
}

// A table of copies of the rows, in their order.
pub(crate) fn copied_rows<V: Copied>(
    alloc: Global,
    rows: &IndexMap<Key, V>,
) -> Result<IndexMap<Key, V>, Want>
    ensures { IfOk result (λ table. table.entries ≡ rows.now.entries) }
{
    let mut table = IndexMap::new(alloc);
    for place in 0..rows.len() {
        let Some((key, value)) = rows.get_index(place) else {
            unreachable!()
        };
        table.insert(key.copy()?, value.copy()?)?;
    }
    Ok(table)
}
