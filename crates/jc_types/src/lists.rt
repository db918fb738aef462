//! Lists that share their memory with their copies.

ghost use Rattle.std.specs.Prelude.{◌≡◌, ◌∷◌, ◌++◌, [], ◌↔◌, IfOk, IsTrue, OnErr, OnOk, length};

use crate::copies::{Copied, Same, Want};
use std::alloc::Global;
use std::marker::Model;
use std::sync;

/// A list. A contract sees the list of its items. Its copies share its memory, and the first item
/// that is pushed while a copy is alive copies the items.
#[derive(Drop)]
pub struct ListOf<T> {
    alloc: Global,
    shared: Option<sync::Arc<Vec<T>>>,
}

impl<T> Model for ListOf<T> {
    ghost use Rattle.std.specs.Prelude.{List, []};
    ghost use Rattle.std.specs.Option.{option_map_or};

    ghost Value = { List T };

    ghost view = { λ l. option_map_or (λ a. a.value.items) l.shared [] };
}

// The items of a slice in a list of their own, with room for them and for so many more: most lists get one item
// and stay so, and a room that grows would be that of four.
pub(crate) fn copied_slice<T: Copied>(
    alloc: Global,
    items: &[T],
    more: usize,
) -> Result<Vec<T>, Want>
    ensures { IfOk result (λ v. v.items ≡ items.now) }
{
    let mut copied = Vec::with_capacity(alloc, items.len().saturating_add(more))?;
    for item in items {
        copied.push(item.copy()?)?;
    }
    Ok(copied)
}

// Whether both slices have equal items in the same places.
fn same_slices<T: Same>(left: &[T], right: &[T]) -> bool
    ensures { IsTrue result ↔ (left.now ≡ right.now) }
{
    if left.len() != right.len() {
        return false;
    }
    for i in 0..left.len() {
        if !left[i].is_same(&right[i]) {
            return false;
        }
    }
    true
}

impl<T> ListOf<T> {
    /// The empty list. It takes no memory.
    pub fn new(alloc: Global) -> Self
        ensures { result ≡ [] }
    {
        ListOf {
            alloc,
            shared: None,
        }
    }

    // The list of the items of a vector, which it takes over.
    pub(crate) fn of_vec(alloc: Global, items: Vec<T>) -> Result<Self, Want>
    where
        T: Drop,
        ensures { IfOk result (λ l. l ≡ items.items) }
    {
        Ok(ListOf {
            alloc,
            shared: Some(sync::Arc::new(alloc, items)?),
        })
    }

    /// The number of items.
    pub fn len(&self) -> usize
        ensures { result ≡ length self.now }
    {
        self.as_slice().len()
    }

    /// Whether there is no item.
    pub fn is_empty(&self) -> bool
        ensures { IsTrue result ↔ (self.now ≡ []) }
    {
        self.as_slice().is_empty()
    }

    /// The items in their order.
    pub fn as_slice(&self) -> &[T]
        ensures { result.now ≡ self.now }
    {
        match &self.shared {
            None => &[],
            Some(items) => items.as_slice(),
        }
    }
}

impl<T: Copied> ListOf<T> {
    /// Adds an item at the end.
    ///
    /// # Errors
    /// `Want` where there is no memory; the list is then as before.
    pub fn push(&mut self, item: T) -> Result<(), Want>
        ensures added { OnOk result (self.new ≡ self.old ++ item ∷ []) }
        ensures kept { OnErr result (self.new ≡ self.old) }
    {
        if let Some(shared) = &mut self.shared {
            if let Some(items) = sync::Arc::get_mut(shared) {
                items.push(item)?;
                return Ok(());
            }
        }
        let mut items = copied_slice(self.alloc, self.as_slice(), 1)?;
        items.push(item)?;
        self.shared = Some(sync::Arc::new(self.alloc, items)?);
        Ok(())
    }
}

impl<T: Drop> Copied for ListOf<T> {
    fn copy(&self) -> Result<Self, Want> {
        match &self.shared {
            None => Ok(ListOf {
                alloc: self.alloc,
                shared: None,
            }),
            Some(items) => Ok(ListOf {
                alloc: self.alloc,
                shared: Some(sync::Arc::try_clone(items)?),
            }),
        }
    }
}

impl<T: Same> Same for ListOf<T> {
    fn is_same(&self, other: &Self) -> bool {
        same_slices(self.as_slice(), other.as_slice())
    }
}
