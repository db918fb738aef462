//! Why a member or an item is refused.

use crate::path::Path;
use std::alloc::{AllocError, AllocFailed};

/// Why a member or an item was not read. Each refusal has its path. A null counts as absent.
#[derive(Debug, Drop)]
pub enum FieldFault {
    /// A needed member is absent. A value that is no object has no members.
    Missing { path: Path },
    /// The value is of another JSON type. So is, where a whole number is wanted, a number that is
    /// not kept as one of 64 bits, signed or unsigned: `-0`, one that is written with `.`, `e` or
    /// `E`, and one that 64 bits cannot hold.
    WrongType { path: Path },
    /// The whole number lies outside its bounds.
    OutOfRange { path: Path },
    /// Memory ran out.
    Want,
}

impl From<AllocError> for FieldFault {
    ghost use Rattle.std.specs.Prelude.{◌≡◌};
    ghost use Rattle.jc_json.specs.declared.field.FieldFault.TheVariants.{Want};

    ghost from_gives = { λ _ fault. fault ≡ Want };

    fn from(_refused: AllocError) -> FieldFault {
        FieldFault::Want
    }
}

impl<T: Drop> From<AllocFailed<T>> for FieldFault {
    ghost use Rattle.std.specs.Prelude.{◌≡◌};
    ghost use Rattle.jc_json.specs.declared.field.FieldFault.TheVariants.{Want};

    ghost from_gives = { λ _ fault. fault ≡ Want };

    fn from(_refused: AllocFailed<T>) -> FieldFault {
        FieldFault::Want
    }
}
