//! Numbers with a meaning: UIDs, versions and seconds.

ghost use Rattle.std.specs.Prelude.{◌≡◌, nat_eq};
ghost use Rattle.std.specs.Cmp.{nat_eq_equiv, partial_equiv_from_equiv};

use crate::copies::{Copied, Same, Want};
use crate::lists::ListOf;
use std::marker::Model;

/// The UID of a Job or a pod: 1 and up, and never used again (`metadata.uid`).
#[derive(Clone, Copy, PartialEq, Eq, PartialOrd, Ord, Hash, Debug)]
pub struct Uid(pub u32);

/// A place in the log of accepted writes, counted from 1; 0 is the empty log
/// (`metadata.resourceVersion`).
#[derive(Clone, Copy, PartialEq, Eq, PartialOrd, Ord, Hash, Debug)]
pub struct Version(pub u32);

/// A number of seconds, of 64 bits. It stands in halves of 32 bits: so an event needs no place that
/// is a multiple of 8.
#[derive(Clone, Copy, Debug)]
pub struct Seconds {
    high: u32,
    low: u32,
}

impl Model for Seconds {
    ghost use Rattle.std.specs.Prelude.{ℕ, ◌+◌, ◌*◌, ◌/◌, ◌%◌, ◌<◌};
    ghost use Rattle.std.specs.Coded.{coded_ℕ};
    ghost use Rattle.jc_types.specs.Halves.{lower_half, upper_half};

    ghost Value = { ℕ };

    ghost coded = { coded_ℕ };

    ghost view = { λ s. s.high * 4294967296 + s.low };

    ghost invariant = { λ s. (s.high < 4294967296) × (s.low < 4294967296) };

    ghost inverse = { λ n. record { high = n / 4294967296; low = n % 4294967296 } };

    ghost inverse_ok = { λ s within i. record {
      high = upper_half s.high s.low within.1 i;
      low = lower_half s.high s.low within.1 i;
    } };
}

impl Seconds {
    /// So many seconds.
    pub fn from_u64(seconds: u64) -> Seconds
        ensures { result ≡ seconds }
    {
        Seconds {
            high: (seconds / 4_294_967_296) as u32,
            low: (seconds % 4_294_967_296) as u32,
        }
    }

    /// Their number.
    pub fn as_u64(self) -> u64
        ensures { result ≡ self }
    {
        u64::from(self.high) * 4_294_967_296 + u64::from(self.low)
    }
}

/// UIDs in an order of their own.
pub type Uids = ListOf<Uid>;

impl Copied for Uid {
    fn copy(&self) -> Result<Self, Want> {
        Ok(*self)
    }
}

impl Same for Uid {
    fn is_same(&self, other: &Self) -> bool {
        *self == *other
    }
}

impl Copied for Version {
    fn copy(&self) -> Result<Self, Want> {
        Ok(*self)
    }
}

impl Same for Version {
    fn is_same(&self, other: &Self) -> bool {
        *self == *other
    }
}

impl PartialEq for Seconds {
    ghost eq = { nat_eq };

    ghost laws = { partial_equiv_from_equiv nat_eq_equiv };

    fn eq(&self, other: &Self) -> bool {
        (*self).as_u64() == (*other).as_u64()
    }
}

impl Eq for Seconds {
    ghost laws = { nat_eq_equiv };
}
