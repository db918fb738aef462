//! Words of a line: a blank ends a word, but none within quotes does.

ghost use Rattle.std.specs.Prelude.{◌≡◌, ◌≤◌, length};
ghost use Rattle.jc_reading.specs.Cuts.{behind_word, ends_word, place_after, word_at, first_word_in, word_len};
ghost use Rattle.jc_reading.specs.declared.cuts.Place.TheVariants.{Outside};

/// Where a byte stands.
#[derive(Clone, Copy)]
pub enum Place {
    /// Outside of quotes.
    Outside,
    /// Between quotes.
    Inside,
    /// Behind a backslash between quotes.
    Escaped,
}

// Where the next byte stands.
fn place_after(place: Place, byte: u8) -> Place
    ensures { result ≡ place_after place byte }
{
    match place {
        Place::Outside => {
            if byte == b'"' {
                Place::Inside
            } else {
                Place::Outside
            }
        }
        Place::Inside => {
            if byte == b'"' {
                Place::Outside
            } else if byte == b'\\' {
                Place::Escaped
            } else {
                Place::Inside
            }
        }
        Place::Escaped => Place::Inside,
    }
}

// Whether the byte is a blank outside of quotes.
fn ends_word(place: Place, byte: u8) -> bool
    ensures { result ≡ ends_word place byte }
{
    match place {
        Place::Outside => byte == b' ',
        _ => false,
    }
}

// How long the first word is.
fn word_len(bytes: &[u8]) -> usize
    ensures is { result ≡ word_len Outside bytes.now }
    ensures within { result ≤ length bytes.now }
{
    let mut place = Place::Outside;
    for i in 0..bytes.len() {
        let byte = bytes[i];
        if ends_word(place, byte) {
            return i;
        }
        place = place_after(place, byte);
    }
    bytes.len()
}

// The first word.
fn first_word_in(bytes: &[u8]) -> &[u8]
    ensures { result.now ≡ first_word_in bytes.now }
{
    &bytes[..word_len(bytes)]
}

// What stands behind the first word and its blank.
fn behind_word(bytes: &[u8]) -> &[u8]
    ensures { result.now ≡ behind_word bytes.now }
{
    let end = word_len(bytes);
    if end < bytes.len() {
        &bytes[end + 1..]
    } else {
        &[]
    }
}

/// The first words of a line.
#[derive(Clone, Copy)]
pub struct Words<'a> {
    pub number: &'a [u8],
    pub tag: &'a [u8],
    pub verb: &'a [u8],
    pub first: &'a [u8],
    pub second: &'a [u8],
    pub third: &'a [u8],
}

/// The first six words of the line; one that is not there is empty.
pub fn cut(line: &[u8]) -> Words<'_>
    ensures number { result.number.now ≡ word_at 0 line.now }
    ensures tag { result.tag.now ≡ word_at 1 line.now }
    ensures verb { result.verb.now ≡ word_at 2 line.now }
    ensures first { result.first.now ≡ word_at 3 line.now }
    ensures second { result.second.now ≡ word_at 4 line.now }
    ensures third { result.third.now ≡ word_at 5 line.now }
{
    let tagged = behind_word(line);
    let act = behind_word(tagged);
    let first = behind_word(act);
    let second = behind_word(first);
    let third = behind_word(second);
    Words {
        number: first_word_in(line),
        tag: first_word_in(tagged),
        verb: first_word_in(act),
        first: first_word_in(first),
        second: first_word_in(second),
        third: first_word_in(third),
    }
}
