//! The texts of values.

ghost use Rattle.std.specs.Prelude.{◌≡◌, ◌≢◌, ◌<◌, ◌⊎◌, ◌^◌, ℕ, MatchOption, true, false, decimal, length, slice_index};
ghost use Rattle.jc_words.specs.Values.{number_said, moment_said};

use jc_moment::Moment;

// Whether no sign stands in front, and no zero but the one of 0.
fn is_plain(text: &[u8]) -> bool
    ensures plain { result ≡ true
        → (slice_index text.now 0 ≢ 43) × (slice_index text.now 0 ≡ 48 → length text.now ≡ 1) }
    ensures other { result ≡ false
        → (slice_index text.now 0 ≡ 43) ⊎ ((slice_index text.now 0 ≡ 48) × (1 < length text.now)) }
{
    match text {
        [b'+', ..] | [b'0', _, ..] => false,
        _ => true,
    }
}

// The number whose decimal digits the text is.
fn written_number(text: &str) -> Option<u32>
    ensures { MatchOption result ((n : ℕ) → n < 2 ^ 32 → text.now ≢ decimal n)
        (λ n. text.now ≡ decimal n) }
{
    let number = text.parse::<u32>().ok()?;
    if is_plain(text.as_bytes()) {
        return Some(number);
    }
    None
}

/// The number from `low` to `high` whose decimal digits the text is: no sign stands before them, and no zero but the
/// one of 0.
pub fn read_number(text: &str, low: u32, high: u32) -> Option<u32>
    ensures { result ≡ number_said low high text.now }
{
    let number = written_number(text)?;
    if low <= number && number <= high {
        return Some(number);
    }
    None
}

/// The moment whose text this is.
pub fn read_moment(text: &str) -> Option<Moment>
    ensures { result ≡ moment_said text.now }
{
    Moment::parse(text.as_bytes()).ok()
}
