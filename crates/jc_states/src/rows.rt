//! The row of an owner, found without a hash where it is the first.

ghost use Rattle.std.specs.Prelude.{◌≡◌};
ghost use Rattle.std.specs.Borrow.{sem};
ghost use Rattle.std.specs.Map.{lookup};
ghost use Rattle.std.specs.Option.{option_copied, option_copied_mut};
ghost use Rattle.indexmap.specs.Lends.{lends_get};
ghost use Rattle.jc_types.specs.Keys.{same_uid};

use indexmap::IndexMap;
use jc_types::Uid;
use std::alloc::Allocator;
use std::hash::{BuildHasher, Hash};

// The row of the owner. Pods of a key mostly have one owner, whose row is the first: it is found
// without a hash.
#[inline(always)]
pub(crate) fn row_of<V>(rows: &IndexMap<Uid, V>, owner: Uid) -> Option<&V>
    ensures { option_copied result ≡ lookup (same_uid owner) rows.now.entries }
{
    match rows.first() {
        Some((first, row)) if *first == owner => Some(row),
        _ => rows.get(&owner),
    }
}

// The row of the key, to write, found in the same way. A clause on what it lends names the types of the
// map, so these are parameters.
pub(crate) fn row_mut<K: Eq + Hash + Copy, V, S: BuildHasher, A: Allocator>(
    rows: &mut IndexMap<K, V, S, A>,
    key: K,
) -> Option<&mut V>
    ensures* writes_back { sem 𝓛 (lends_get K.row V.row S.row A.row S.Hasher.row K.Hash
        S.BuildHasher S.Hasher.Hasher A.Allocator rows.entry (K.eq key) result) }
    ensures value { option_copied_mut result ≡ lookup (K.eq key) rows.old.entries }
{
    match rows.first() {
        Some((first, _)) if *first == key => rows.first_mut(),
        _ => rows.get_mut(&key),
    }
}
