//! What all values of this crate share: a copy that is equal, and an exact test of equality.

ghost use Rattle.std.specs.Prelude.{◌≡◌, ◌↔◌, IfOk, IsTrue};

use jc_moment::Moment;
use jc_ranges::Ranges;
use std::alloc::AllocError;

/// Want of memory.
pub type Want = AllocError;

/// Bytes as they are read or written.
pub type Bytes = Vec<u8>;

/// A value that can be copied where there is memory for it.
pub trait Copied: Drop {
    /// An equal value. Lists and texts share their memory with the copy until one of them changes.
    ///
    /// # Errors
    /// `Want` where there is no memory for the copy.
    fn copy(&self) -> Result<Self, Want>
        ensures { IfOk result (λ r. r ≡ self.now) };
}

/// A value that can be compared while the program runs.
pub trait Same {
    /// Whether both are equal in every part.
    fn is_same(&self, other: &Self) -> bool
        ensures { IsTrue result ↔ (self.now ≡ other.now) };
}

// A copy of a value of an enum. Each variant is listed with its fields, and becomes an arm of a match.
macro_rules! copied_variant {
    ($value:expr, $name:ident { $($variant:ident { $($field:ident),* },)* }) => {
        match $value {
            $($name::$variant { $($field),* } => Ok($name::$variant { $($field: $field.copy()?),* }),)*
        }
    };
}

pub(crate) use copied_variant;

// Whether two values of an enum are of one variant, with equal fields. Each variant is listed with its
// fields, and each field with a name for that of the second value.
macro_rules! is_same_variant {
    ($left:expr, $right:expr, $name:ident { $($variant:ident { $($field:ident: $twin:ident),* },)* }) => {
        match ($left, $right) {
            $(
                ($name::$variant { $($field),* }, $name::$variant { $($field: $twin),* }) => {
                    true $(&& $field.is_same($twin))*
                }
            )*
            _ => false,
        }
    };
}

pub(crate) use is_same_variant;

impl Copied for i32 {
    fn copy(&self) -> Result<Self, Want> {
        Ok(*self)
    }
}

impl Copied for Moment {
    fn copy(&self) -> Result<Self, Want> {
        Ok(*self)
    }
}

impl Copied for Ranges {
    fn copy(&self) -> Result<Self, Want> {
        self.copy()
    }
}

impl Copied for u32 {
    fn copy(&self) -> Result<Self, Want> {
        Ok(*self)
    }
}

impl Copied for u64 {
    fn copy(&self) -> Result<Self, Want> {
        Ok(*self)
    }
}

impl<T: Copied> Copied for Option<T> {
    fn copy(&self) -> Result<Self, Want> {
        match self {
            None => Ok(None),
            Some(value) => Ok(Some(value.copy()?)),
        }
    }
}

impl Same for i32 {
    fn is_same(&self, other: &Self) -> bool {
        *self == *other
    }
}

impl Same for Moment {
    fn is_same(&self, other: &Self) -> bool {
        *self == *other
    }
}

impl Same for Ranges {
    fn is_same(&self, other: &Self) -> bool {
        self.is_same(other)
    }
}

impl Same for u32 {
    fn is_same(&self, other: &Self) -> bool {
        *self == *other
    }
}

impl Same for u64 {
    fn is_same(&self, other: &Self) -> bool {
        *self == *other
    }
}

impl Same for bool {
    fn is_same(&self, other: &Self) -> bool {
        *self == *other
    }
}

impl<T: Same> Same for Option<T> {
    fn is_same(&self, other: &Self) -> bool {
        match (self, other) {
            (None, None) => true,
            (Some(left), Some(right)) => left.is_same(right),
            _ => false,
        }
    }
}
