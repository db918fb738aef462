//! The moment as a number of seconds.

use std::marker::Model;

/// The seconds from 1970-01-01T00:00:00Z to the last moment, 9999-12-31T23:59:59Z.
const LAST_SECOND: u64 = 253_402_300_799;

/// A whole number of seconds after 1970-01-01T00:00:00Z, at most that of 9999-12-31T23:59:59Z.
/// A contract sees it as that number.
#[derive(Clone, Copy, PartialEq, Eq, PartialOrd, Ord, Hash, Debug)]
pub struct Moment {
    seconds: u64,
}

impl Model for Moment {
    ghost use Rattle.std.specs.Prelude.{ℕ};
    ghost use Rattle.jc_moment.specs.Range.{IsMoment};

    ghost Value = { ℕ };

    ghost view = { λ m. m.seconds };

    ghost invariant = { λ m. IsMoment m.seconds };

    ghost inverse = { λ n. record { seconds = n } };
}

impl Moment {
    ghost use Rattle.std.specs.Prelude.{◌≡◌, ◌+◌, ◌-◌, SomeIff};
    ghost use Rattle.jc_moment.specs.Range.{IsMoment};

    /// The moment `seconds` after 1970-01-01T00:00:00Z; `None` exactly past the last moment.
    pub fn from_seconds(seconds: u64) -> Option<Moment>
        ensures { SomeIff result (IsMoment seconds) seconds }
    {
        if seconds <= LAST_SECOND {
            Some(Moment { seconds })
        } else {
            None
        }
    }

    /// The whole seconds from 1970-01-01T00:00:00Z to this moment.
    pub fn seconds(&self) -> u64
        ensures value { result ≡ self.now }
        ensures range { IsMoment self.now }
    {
        self.seconds
    }

    /// The moment `seconds` after this one; `None` exactly where that is past the last moment.
    pub fn plus(&self, seconds: u64) -> Option<Moment>
        ensures { SomeIff result (IsMoment (self.now + seconds)) (self.now + seconds) }
    {
        Moment::from_seconds(self.seconds.checked_add(seconds)?)
    }

    /// The whole seconds from `earlier` to this moment; 0 where `earlier` is not earlier.
    pub fn since(&self, earlier: &Moment) -> u64
        ensures { result ≡ self.now - earlier.now }
    {
        self.seconds.saturating_sub(earlier.seconds)
    }
}
