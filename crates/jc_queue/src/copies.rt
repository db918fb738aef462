//! Copies of a key that are made ahead, and counts of places: so a queue and delays take keys with no memory.

ghost use Rattle.std.specs.Prelude.{◌≡◌, ◌+◌, IfOk};
ghost use Rattle.jc_types.specs.Keys.{same_key};

use jc_types::{Copied, Key, Want};
use std::alloc::AllocError;
use std::marker::Model;

// So many places and so many more. No memory has more of them than a `usize` counts.
pub(crate) fn places(some: usize, more: usize) -> Result<usize, Want>
    ensures { IfOk result (λ all. all ≡ some + more) }
{
    match some.checked_add(more) {
        None => Err(AllocError),
        Some(all) => Ok(all),
    }
}

/// A key in two copies, as a queue keeps it.
#[derive(Drop)]
pub struct Twice {
    key: Key,
    again: Key,
}

impl Model for Twice {
    ghost use Rattle.std.specs.Prelude.{◌≡◌};
    ghost use Rattle.jc_types.specs.declared.objects.KeyNames.{KeyNames as Key};

    ghost Value = { Key };

    ghost view = { λ t. t.key };

    ghost invariant = { λ t. t.again ≡ t.key };
}

impl Twice {
    /// Two copies of the key.
    ///
    /// # Errors
    /// `Want` where there is no memory for them.
    #[inline(always)]
    pub fn of(key: &Key) -> Result<Twice, Want>
        ensures { IfOk result (λ twice. twice ≡ key.now) }
    {
        Ok(Twice {
            key: key.copy()?,
            again: key.copy()?,
        })
    }

    // The two copies as one.
    pub(crate) fn join(key: Key, again: Key) -> Twice
        requires same { again ≡ key }
        ensures { result ≡ key }
    {
        Twice { key, again }
    }

    // Both copies.
    pub(crate) fn into_keys(self) -> (Key, Key)
        ensures key { result.0 ≡ self }
        ensures again { result.1 ≡ self }
    {
        (self.key, self.again)
    }
}

/// All copies of a key that one more failure of it needs: for its count, and for its delay.
#[derive(Drop)]
pub struct Supply {
    failed: Key,
    delayed: Twice,
}

impl Model for Supply {
    ghost use Rattle.std.specs.Prelude.{◌≡◌};
    ghost use Rattle.jc_types.specs.declared.objects.KeyNames.{KeyNames as Key};

    ghost Value = { Key };

    ghost view = { λ s. s.delayed };

    ghost invariant = { λ s. s.failed ≡ s.delayed };
}

impl Supply {
    /// The supply of the key.
    ///
    /// # Errors
    /// `Want` where there is no memory for it.
    pub fn of(key: &Key) -> Result<Supply, Want>
        ensures { IfOk result (λ supply. supply ≡ key.now) }
    {
        Ok(Supply {
            failed: key.copy()?,
            delayed: Twice::of(key)?,
        })
    }

    /// The supply of these copies of one key.
    pub fn with(failed: Key, delayed: Twice) -> Supply
        requires same { failed ≡ delayed }
        ensures { result ≡ delayed }
    {
        Supply { failed, delayed }
    }

    /// Whether it is that of the key.
    pub fn same_key(&self, key: &Key) -> bool
        ensures { result ≡ same_key key.now self.now }
    {
        *key == self.failed
    }

    /// What the delay alone needs.
    pub fn into_twice(self) -> Twice
        ensures { result ≡ self }
    {
        self.delayed
    }

    // The copy for the count, and those for the delay.
    pub(crate) fn into_parts(self) -> (Key, Twice)
        ensures failed { result.0 ≡ self }
        ensures delayed { result.1 ≡ self }
    {
        (self.failed, self.delayed)
    }
}
