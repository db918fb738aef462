//! Why a manifest is refused.

ghost use Rattle.std.specs.Prelude.{Some};
ghost use Rattle.jc_json.specs.Place.{path_to};
ghost use Rattle.jc_rows.specs.ManifestRows.{IsRefusal, invalid};

use jc_json::{FieldFault, Path, Trail};
use std::alloc::{AllocError, AllocFailed};

/// Why a manifest is refused. Each refusal has the path of the member.
#[derive(Debug, Drop)]
pub enum ManifestFault {
    /// A needed member is absent or null.
    Missing { path: Path },
    /// The member is of another JSON type.
    WrongType { path: Path },
    /// The whole number lies outside its range.
    OutOfRange { path: Path },
    /// The member breaks the rule of that number.
    Invalid { path: Path, rule: u32 },
    /// Memory ran out.
    Want,
}

impl From<FieldFault> for ManifestFault {
    ghost use Rattle.std.specs.Prelude.{◌≡◌};
    ghost use Rattle.jc_rows.specs.ManifestRows.{of_field};

    ghost from_gives = { λ field fault. fault ≡ of_field field };

    fn from(fault: FieldFault) -> ManifestFault {
        match fault {
            FieldFault::Missing { path } => ManifestFault::Missing { path },
            FieldFault::WrongType { path } => ManifestFault::WrongType { path },
            FieldFault::OutOfRange { path } => ManifestFault::OutOfRange { path },
            FieldFault::Want => ManifestFault::Want,
        }
    }
}

impl From<AllocError> for ManifestFault {
    ghost use Rattle.std.specs.Prelude.{◌≡◌};
    ghost use Rattle.jc_rows.specs.declared.refusals.ManifestFault.TheVariants.{Want};

    ghost from_gives = { λ _ fault. fault ≡ Want };

    fn from(_refused: AllocError) -> ManifestFault {
        ManifestFault::Want
    }
}

impl<T: Drop> From<AllocFailed<T>> for ManifestFault {
    ghost use Rattle.std.specs.Prelude.{◌≡◌};
    ghost use Rattle.jc_rows.specs.declared.refusals.ManifestFault.TheVariants.{Want};

    ghost from_gives = { λ _ fault. fault ≡ Want };

    fn from(_refused: AllocFailed<T>) -> ManifestFault {
        ManifestFault::Want
    }
}

/// The refusal by a rule of the member of that name.
pub fn broken(object: &Trail, name: &str, rule: u32) -> ManifestFault
    ensures { IsRefusal result (Some (invalid (path_to object.now name.now) rule)) }
{
    match object.path_to(name).path() {
        Ok(path) => ManifestFault::Invalid { path, rule },
        Err(_) => ManifestFault::Want,
    }
}

/// The refusal by a rule at that path.
pub fn broken_at(path: &Trail, rule: u32) -> ManifestFault
    ensures { IsRefusal result (Some (invalid path.now rule)) }
{
    match path.path() {
        Ok(path) => ManifestFault::Invalid { path, rule },
        Err(_) => ManifestFault::Want,
    }
}
