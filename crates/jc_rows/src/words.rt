//! The forms of names.

ghost use Rattle.std.specs.Prelude.{◌≡◌, ◌<◌, ◌≤◌, ◌||◌, ◌==◌, false, length};
ghost use Rattle.std.specs.Bool.{OnTrue};
ghost use Rattle.std.specs.List.{list_all, slice_split};
ghost use Rattle.std.specs.Option.{option_map_or};
ghost use Rattle.jc_rows.specs.NameForms.{is_plain, is_part, has_length_of_name, is_label, is_subdomain};

// A name has at most this many bytes.
const MOST_BYTES: usize = 63;

// Whether a byte is a lower-case letter or a digit.
fn is_plain(byte: u8) -> bool
    ensures { result ≡ is_plain byte }
{
    (97 <= byte && byte <= 122) || (48 <= byte && byte <= 57)
}

// Whether all bytes are lower-case letters, digits and dashes.
fn are_plain_or_dashes(text: &[u8]) -> bool
    ensures { result ≡ list_all (λ b. is_plain b || b == 45) text.now }
{
    text.iter().all(|byte| is_plain(*byte) || *byte == 45)
}

// Whether there is a byte, and it is a lower-case letter or a digit.
fn is_plain_end(end: Option<u8>) -> bool
    ensures { result ≡ option_map_or is_plain end false }
{
    match end {
        Some(byte) => is_plain(byte),
        None => false,
    }
}

// Whether a text is one part of a name.
#[tactic(auto, unfolding(crate::specs::NameForms::is_part))]
pub fn is_part(text: &[u8]) -> bool
    ensures { result ≡ is_part text.now }
{
    are_plain_or_dashes(text)
        && (is_plain_end(text.first().copied()) && is_plain_end(text.last().copied()))
}

// Whether a text has 1 to 63 bytes.
#[tactic(auto, unfolding(crate::specs::NameForms::has_length_of_name))]
fn has_length_of_name(text: &[u8]) -> bool
    ensures tested { result ≡ has_length_of_name text.now }
    ensures not_empty { OnTrue result (0 < length text.now) }
    ensures short { OnTrue result (length text.now ≤ 63) }
{
    0 < text.len() && text.len() <= MOST_BYTES
}

/// Whether a text is one part of 1 to 63 bytes: small letters, digits and dashes, no dash at an end.
pub fn is_label(text: &[u8]) -> bool
    ensures tested { result ≡ is_label text.now }
    ensures not_empty { OnTrue result (0 < length text.now) }
    ensures short { OnTrue result (length text.now ≤ 63) }
{
    has_length_of_name(text) && is_part(text)
}

// Whether each piece between points is a part.
fn are_parts(text: &[u8]) -> bool
    ensures { result ≡ list_all is_part (slice_split (λ b. b == 46) text.now) }
{
    text.split(|byte| *byte == 46).all(|part| is_part(part))
}

/// Whether a text is made of parts that are joined by points, with 1 to 63 bytes together.
pub fn is_subdomain(text: &[u8]) -> bool
    ensures tested { result ≡ is_subdomain text.now }
    ensures not_empty { OnTrue result (0 < length text.now) }
    ensures short { OnTrue result (length text.now ≤ 63) }
{
    has_length_of_name(text) && are_parts(text)
}
