//! Why a line of a script is bad.

ghost use Rattle.std.specs.Prelude.{IfOk, ◌≡◌, string_bytes};
ghost use Rattle.jc_json.specs.Place.{path_to};
ghost use Rattle.jc_members.specs.LineCauses.{IsCause, shown, cause_text};
ghost use Rattle.jc_members.specs.declared.causes.Cause.TheVariants.{Invalid};

use jc_json::{FieldFault, Path, Trail};
use jc_rows::ManifestFault;
use jc_types::{Copied, Want};
use std::alloc::{AllocError, AllocFailed, Global};

/// Why a line is bad. Each refusal of a member has the path of the member.
#[derive(Debug, Drop)]
pub enum Cause {
    /// The line is not JSON.
    NotJson,
    /// The line has more than 1,048,576 bytes.
    LineTooLong,
    /// With the line's commands the script has more than 200,000.
    TooMany,
    /// A needed member is absent or null.
    Missing { path: Path },
    /// The line or the member is of another JSON type.
    WrongType { path: Path },
    /// The whole number lies outside its range.
    OutOfRange { path: Path },
    /// The member breaks the rule of that number.
    Invalid { path: Path, rule: u32 },
}

/// Why a line was not read.
#[derive(Debug, Drop)]
pub enum LineFault {
    /// The line is bad.
    Bad { cause: Cause },
    /// Memory ran out.
    Want,
}

impl Copied for Cause {
    fn copy(&self) -> Result<Self, Want> {
        match self {
            Cause::NotJson => Ok(Cause::NotJson),
            Cause::LineTooLong => Ok(Cause::LineTooLong),
            Cause::TooMany => Ok(Cause::TooMany),
            Cause::Missing { path } => Ok(Cause::Missing { path: path.copy()? }),
            Cause::WrongType { path } => Ok(Cause::WrongType { path: path.copy()? }),
            Cause::OutOfRange { path } => Ok(Cause::OutOfRange { path: path.copy()? }),
            Cause::Invalid { path, rule } => Ok(Cause::Invalid {
                path: path.copy()?,
                rule: *rule,
            }),
        }
    }
}

impl From<FieldFault> for LineFault {
    ghost use Rattle.std.specs.Prelude.{◌≡◌};
    ghost use Rattle.jc_members.specs.LineCauses.{fault_of_field};

    ghost from_gives = { λ field fault. fault ≡ fault_of_field field };

    fn from(fault: FieldFault) -> LineFault {
        match fault {
            FieldFault::Missing { path } => LineFault::Bad {
                cause: Cause::Missing { path },
            },
            FieldFault::WrongType { path } => LineFault::Bad {
                cause: Cause::WrongType { path },
            },
            FieldFault::OutOfRange { path } => LineFault::Bad {
                cause: Cause::OutOfRange { path },
            },
            FieldFault::Want => LineFault::Want,
        }
    }
}

impl From<ManifestFault> for LineFault {
    ghost use Rattle.std.specs.Prelude.{◌≡◌};
    ghost use Rattle.jc_members.specs.LineCauses.{of_manifest};

    ghost from_gives = { λ manifest fault. fault ≡ of_manifest manifest };

    fn from(fault: ManifestFault) -> LineFault {
        match fault {
            ManifestFault::Missing { path } => LineFault::Bad {
                cause: Cause::Missing { path },
            },
            ManifestFault::WrongType { path } => LineFault::Bad {
                cause: Cause::WrongType { path },
            },
            ManifestFault::OutOfRange { path } => LineFault::Bad {
                cause: Cause::OutOfRange { path },
            },
            ManifestFault::Invalid { path, rule } => LineFault::Bad {
                cause: Cause::Invalid { path, rule },
            },
            ManifestFault::Want => LineFault::Want,
        }
    }
}

impl From<AllocError> for LineFault {
    ghost use Rattle.std.specs.Prelude.{◌≡◌};
    ghost use Rattle.jc_members.specs.declared.causes.LineFault.TheVariants.{Want};

    ghost from_gives = { λ _ fault. fault ≡ Want };

    fn from(_refused: AllocError) -> LineFault {
        LineFault::Want
    }
}

impl<T: Drop> From<AllocFailed<T>> for LineFault {
    ghost use Rattle.std.specs.Prelude.{◌≡◌};
    ghost use Rattle.jc_members.specs.declared.causes.LineFault.TheVariants.{Want};

    ghost from_gives = { λ _ fault. fault ≡ Want };

    fn from(_refused: AllocFailed<T>) -> LineFault {
        LineFault::Want
    }
}

/// The refusal by a rule of the member of that name.
pub fn broken(object: &Trail, name: &str, rule: u32) -> LineFault
    ensures { IsCause result (Invalid (path_to object.now name.now) rule) }
{
    match object.path_to(name).path() {
        Ok(path) => LineFault::Bad {
            cause: Cause::Invalid { path, rule },
        },
        Err(_) => LineFault::Want,
    }
}

// A path as it is printed.
fn shown(path: &Path) -> &str
    ensures { result.now ≡ shown path.now }
{
    let text = path.as_str();
    if text.is_empty() {
        return ".";
    }
    text
}

impl Cause {
    /// The cause as it is printed. An empty path prints as a point.
    ///
    /// # Errors
    ///
    /// Want of memory.
    pub fn text(&self, alloc: Global) -> Result<String, Want>
        ensures { IfOk result (λ text. string_bytes text ≡ cause_text self.now) }
    {
        match self {
            Cause::NotJson => String::from_str(alloc, "not json"),
            Cause::LineTooLong => String::from_str(alloc, "line too long"),
            Cause::TooMany => String::from_str(alloc, "too many commands"),
            Cause::Missing { path } => {
                let path = shown(path);
                format!(in alloc; "missing {path}")
            }
            Cause::WrongType { path } => {
                let path = shown(path);
                format!(in alloc; "wrong type {path}")
            }
            Cause::OutOfRange { path } => {
                let path = shown(path);
                format!(in alloc; "out of range {path}")
            }
            Cause::Invalid { path, rule } => {
                let path = shown(path);
                format!(in alloc; "invalid {path} rule {rule}")
            }
        }
    }
}
