//! A value that several owners share.

ghost use Rattle.std.specs.Prelude.{◌≡◌, IfOk};
ghost use Rattle.std.specs.Arc.{arc_value};

use crate::copies::{Copied, Same, Want};
use std::alloc::Global;
use std::cmp::Ordering;
use std::hash::{Hash, Hasher};
use std::marker::Model;
use std::ops::Deref;
use std::sync;

/// A value behind std's `Arc`, which a contract reads by the value: two are equal where the values
/// behind them are. A copy points to the same value.
#[derive(Drop)]
pub struct Arc<T> {
    pointer: sync::Arc<T>,
}

impl<T> Model for Arc<T> {
    ghost Value = { T };

    ghost view = { λ a. a.pointer.value };
}

impl<T> Arc<T> {
    /// The value, shared from now on.
    ///
    /// # Errors
    /// `Want` where there is no memory for it.
    pub fn new(alloc: Global, value: T) -> Result<Self, Want>
    where
        T: Drop,
        ensures { IfOk result (λ a. a ≡ value) }
    {
        Ok(Arc {
            pointer: sync::Arc::new(alloc, value)?,
        })
    }

    /// The value behind an `Arc` of std.
    pub fn from_std(pointer: sync::Arc<T>) -> Self
        ensures { result ≡ arc_value pointer }
    {
        Arc { pointer }
    }
}

impl<T> Deref for Arc<T> {
    type Target = T;

    ghost deref_gives = { λ a x. x ≡ a };

    fn deref(&self) -> &T {
        &*self.pointer
    }
}

impl<T: Drop> Copied for Arc<T> {
    fn copy(&self) -> Result<Self, Want> {
        Ok(Arc {
            pointer: sync::Arc::try_clone(&self.pointer)?,
        })
    }
}

impl<T: Same> Same for Arc<T> {
    fn is_same(&self, other: &Self) -> bool {
        (&*self.pointer).is_same(&*other.pointer)
    }
}

impl<T: PartialEq> PartialEq for Arc<T> {
    ghost eq = { T.eq };

    ghost laws = { T.laws };

    #[inline(always)]
    fn eq(&self, other: &Self) -> bool {
        *self.pointer == *other.pointer
    }
}

impl<T: Eq> Eq for Arc<T> {
    ghost laws = { T.Eq.laws };
}

impl<T: PartialOrd> PartialOrd for Arc<T> {
    ghost partial_cmp = { T.partial_cmp };

    ghost laws = { T.PartialOrd.laws };

    fn partial_cmp(&self, other: &Self) -> Option<Ordering> {
        (*self.pointer).partial_cmp(&*other.pointer)
    }
}

impl<T: Ord> Ord for Arc<T> {
    ghost cmp = { T.cmp };

    ghost total = { T.total };

    ghost matches_partial_cmp = { T.matches_partial_cmp };

    ghost matches_eq = { T.matches_eq };

    fn cmp(&self, other: &Self) -> Ordering {
        (*self.pointer).cmp(&*other.pointer)
    }
}

impl<T: Hash> Hash for Arc<T> {
    ghost hash_input = { T.hash_input };

    ghost respects_eq = { T.respects_eq };

    fn hash<H: Hasher>(&self, state: &mut H) {
        (*self.pointer).hash(state);
    }
}
