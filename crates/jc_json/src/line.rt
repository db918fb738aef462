//! Lines of JSON.

ghost use Rattle.std.specs.Prelude.{◌≡◌, ◌≤◌, Some, None, IfOk, IsErrOf};
ghost use Rattle.serde_json.specs.Data.{depth};
ghost use Rattle.serde_json.specs.Read.{max_depth};
ghost use Rattle.serde_json.specs.View as owned;
ghost use Rattle.jc_json.specs.Line.{data_of};
ghost use Rattle.jc_json.specs.View.{view};

use crate::reader::read_all;
use crate::value::Value;
use bumpalo::Bump;
use json::{Invalid, Scratch};
use serde_json::Value as Owned;
use std::alloc::{AllocError, AllocFailed, Global};

/// Why a line gives no value.
#[derive(Clone, Copy, Debug, PartialEq, Eq)]
pub enum JsonFault {
    /// The line is not one JSON value (RFC 8259), or is none that `serde_json` reads: it refuses
    /// the 128th open bracket, and a number whose nearest 64-bit float is infinite.
    NotJson,
    /// Memory ran out, or the line has more than 2 ^ 32 - 256 bytes.
    Want,
}

impl From<AllocError> for JsonFault {
    ghost use Rattle.std.specs.Prelude.{◌≡◌};
    ghost use Rattle.jc_json.specs.declared.line.JsonFault.TheVariants.{Want};

    ghost from_gives = { λ _ fault. fault ≡ Want };

    fn from(_refused: AllocError) -> JsonFault {
        JsonFault::Want
    }
}

impl<T: Drop> From<AllocFailed<T>> for JsonFault {
    ghost use Rattle.std.specs.Prelude.{◌≡◌};
    ghost use Rattle.jc_json.specs.declared.line.JsonFault.TheVariants.{Want};

    ghost from_gives = { λ _ fault. fault ≡ Want };

    fn from(_refused: AllocFailed<T>) -> JsonFault {
        JsonFault::Want
    }
}

impl From<Invalid> for JsonFault {
    ghost use Rattle.std.specs.Prelude.{◌≡◌};
    ghost use Rattle.jc_json.specs.declared.line.JsonFault.TheVariants.{NotJson};

    ghost from_gives = { λ _ fault. fault ≡ NotJson };

    fn from(_refused: Invalid) -> JsonFault {
        JsonFault::NotJson
    }
}

/// The memory that reading takes, of which the values are as well. One is kept from line to line: the values of a line go all
/// at once where the next is read.
#[derive(Drop)]
pub struct Room {
    scratch: Scratch,
    bump: Bump,
}

/// Room for the first line. It takes no memory.
pub fn new_room(alloc: Global) -> Room {
    Room {
        scratch: Scratch::new(alloc),
        bump: Bump::new(alloc),
    }
}

/// Reads a line of one JSON value, which may stand between blanks. Of a member that stands twice
/// the last counts. The value lies in the room, and its texts in the line, or in the room where they have escapes.
#[tactic(auto, using(crate::proofs::Lines::text_spells, crate::proofs::Lines::nothing_spelled))]
pub fn read_line<'a>(line: &'a [u8], room: &'a mut Room) -> Result<Value<'a>, JsonFault>
    ensures value { IfOk result (λ v. data_of line.now ≡ Some (view v)) }
    ensures not_json { IsErrOf result JsonFault.NotJson → data_of line.now ≡ None }

    // So the value may be printed and read again.
    ensures nests { IfOk result (λ v. depth (view v) ≤ max_depth) }
{
    // Nothing of the lines before is lent. Were it, it would stay, and the room would grow.
    let _ = room.bump.reset();
    match simdutf8::compat::from_utf8(line) {
        Ok(text) => read_all(&room.bump, text, &mut room.scratch),
        Err(_) => Err(JsonFault::NotJson),
    }
}

/// Reads a line as `read_line` does, into a value that owns its texts.
#[tactic(auto, using(crate::proofs::Lines::text_spells, crate::proofs::Lines::nothing_spelled))]
pub fn read_owned(alloc: Global, line: &[u8]) -> Result<Owned, JsonFault>
    ensures value { IfOk result (λ v. data_of line.now ≡ Some (owned.view v)) }
    ensures not_json { IsErrOf result JsonFault.NotJson → data_of line.now ≡ None }

    // So the value may be printed and read again.
    ensures nests { IfOk result (λ v. depth (owned.view v) ≤ max_depth) }
{
    match Owned::from_slice(alloc, line) {
        Ok(value) => Ok(value),
        Err(fault) if fault.is_memory() => Err(JsonFault::Want),
        Err(_) => Err(JsonFault::NotJson),
    }
}
