//! Texts with codes, which tell most of them apart at a look.

ghost use Rattle.std.specs.Prelude.{◌≡◌, ℕ, ◌+◌, ◌*◌, ◌/◌, ◌%◌, ◌<◌, ◌≤◌, IfOk, get_or, length, nat_eq, nat_lt, string_bytes};
ghost use Rattle.std.specs.Cmp.Lexicographic.{pointwise};
ghost use Rattle.std.specs.Int.{w64, from_le_bytes};
ghost use Rattle.jc_types.specs.Letters.{IsCoded, code_of, front, hash_of, text_spelled};

use crate::copies::Want;
use arrayvec::ArrayString;
use std::alloc::Global;
use std::hash::{FoldHasher, Hasher};
use std::marker::Model;

// The bytes that a text in the value itself may have. Most names have fewer.
const IN_PLACE: usize = 16;

// A text in the value itself where it has few bytes, and else in memory of its own.
#[derive(Drop)]
enum Spelled {
    InPlace(ArrayString<IN_PLACE>),
    Apart(String),
}

// A text beside its code. Texts with other codes differ, and a text of at most 7 bytes has a code
// of its own.
#[derive(Drop)]
pub(crate) struct Letters {
    spelled: Spelled,
    code: u64,
}

impl Model for Letters {
    ghost use Rattle.std.specs.Prelude.{List, ℕ};
    ghost use Rattle.jc_types.specs.Letters.{IsCoded, text_spelled};

    ghost Value = { List ℕ };

    ghost view = { λ l. text_spelled l.spelled };

    ghost invariant = { λ l. IsCoded l.code (text_spelled l.spelled) };
}

// The byte at the place; 0 behind the last.
fn byte_at(bytes: &[u8], place: usize) -> u8
    ensures byte { result ≡ get_or bytes.now place 0 }
    ensures small { get_or bytes.now place 0 < 256 }
{
    match bytes.get(place) {
        Some(byte) => *byte,
        None => 0,
    }
}

// The code of a text of at most 7 bytes.
fn short_code(bytes: &[u8]) -> u64
    requires short { length bytes.now ≤ 7 }
    ensures code { result ≡ from_le_bytes w64 (front bytes.now) }
    ensures small { (i : ℕ) → get_or (front bytes.now) i 0 < 256 }
{
    u64::from_le_bytes([
        bytes.len() as u8,
        byte_at(bytes, 0),
        byte_at(bytes, 1),
        byte_at(bytes, 2),
        byte_at(bytes, 3),
        byte_at(bytes, 4),
        byte_at(bytes, 5),
        byte_at(bytes, 6),
    ])
}

// The code of a longer one.
fn long_code(bytes: &[u8]) -> u64
    ensures { result ≡ hash_of bytes.now / 256 * 256 + 8 }
{
    let mut hasher = FoldHasher::default();
    hasher.write(bytes);
    hasher.finish() / 256 * 256 + 8
}

// The code of a text.
fn code_of(text: &str) -> u64
    ensures { IsCoded result text.now }
{
    let bytes = text.as_bytes();
    if bytes.len() <= 7 {
        short_code(bytes)
    } else {
        long_code(bytes)
    }
}

// Whether a code is that of a text of at most 7 bytes.
#[inline(always)]
fn is_short(code: u64) -> bool
    ensures { result ≡ nat_lt (code % 256) 8 }
{
    code % 256 < 8
}

impl Spelled {
    // The text of a string.
    fn of_string(string: String) -> Spelled
        ensures { text_spelled result ≡ string_bytes string }
    {
        if let Ok(text) = ArrayString::from(string.as_str()) {
            return Spelled::InPlace(text);
        }
        Spelled::Apart(string)
    }

    // A text of its own with these bytes.
    fn of_text(alloc: Global, text: &str) -> Result<Spelled, Want>
        ensures { IfOk result (λ s. text_spelled s ≡ text.now) }
    {
        if let Ok(text) = ArrayString::from(text) {
            return Ok(Spelled::InPlace(text));
        }
        Ok(Spelled::Apart(String::from_str(alloc, text)?))
    }

    // The text itself.
    #[inline(always)]
    fn text(&self) -> &str
        ensures { result.now ≡ text_spelled self.now }
    {
        match self {
            Spelled::InPlace(text) => text.as_str(),
            Spelled::Apart(text) => text.as_str(),
        }
    }
}

impl Letters {
    // The text of a string.
    pub(crate) fn of_string(string: String) -> Letters
        ensures { result ≡ string_bytes string }
    {
        let code = code_of(string.as_str());
        let spelled = Spelled::of_string(string);
        Letters { spelled, code }
    }

    // A text of its own with these bytes. It takes no memory where they are few.
    pub(crate) fn of_text(alloc: Global, text: &str) -> Result<Letters, Want>
        ensures { IfOk result (λ l. l ≡ text.now) }
    {
        let code = code_of(text);
        let spelled = Spelled::of_text(alloc, text)?;
        Ok(Letters { spelled, code })
    }

    // The text itself.
    pub(crate) fn as_str(&self) -> &str
        ensures { result.now ≡ self.now }
    {
        self.spelled.text()
    }

    // Its code.
    #[inline(always)]
    pub(crate) fn code(&self) -> u64
        ensures { result ≡ code_of self.now }
    {
        self.code
    }

    // Whether both are the same text.
    #[inline(always)]
    pub(crate) fn is_equal(&self, other: &Letters) -> bool
        ensures { result ≡ pointwise nat_eq self.now other.now }
    {
        self.code == other.code && (is_short(self.code) || self.as_str() == other.as_str())
    }
}
