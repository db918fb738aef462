//! The printed form of a UID.

ghost use Rattle.std.specs.Prelude.{◌≡◌, IfOk};
ghost use Rattle.std.specs.Int.{to_be_bytes, w128};
ghost use Rattle.uuid.specs.Text.{hyphenated_text, lower};

use crate::copies::Want;
use crate::numbers::Uid;
use crate::texts::Text;
use std::alloc::Global;
use uuid::Uuid;

/// The number of a UID as a 128-bit UUID, in lower case with hyphens, as `kubectl` prints one.
///
/// # Errors
/// `Want` where there is no memory for the text.
pub fn uid_text(alloc: Global, uid: Uid) -> Result<Text, Want>
    ensures { IfOk result (λ t. t ≡ hyphenated_text lower (to_be_bytes w128 uid.0)) }
{
    let mut buffer = Uuid::encode_buffer();
    let text = Uuid::from_u128(uid.0 as u128)
        .hyphenated()
        .encode_lower(&mut buffer);
    Text::from_str(alloc, text)
}
