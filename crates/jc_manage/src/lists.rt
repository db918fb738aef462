//! Lists that share their memory, made from plain ones.

ghost use Rattle.std.specs.Prelude.{◌≡◌, IfOk};

use jc_types::{Copied, ListOf, Want};
use std::alloc::Global;

// The list of these items.
//
// # Errors
// `Want` where there is no memory for it.
pub(crate) fn list_of<T: Copied>(alloc: Global, items: &[T]) -> Result<ListOf<T>, Want>
    ensures { IfOk result (λ list. list ≡ items.now) }
{
    let mut list = ListOf::new(alloc);
    for item in items {
        list.push(item.copy()?)?;
    }
    Ok(list)
}
