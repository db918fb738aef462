//! Numbers in decimal digits.

ghost use Rattle.std.specs.Prelude.{◌≡◌, ◌<◌, ◌≤◌, ◌++◌, OnErr, OnOk, decimal, string_bytes};
ghost use Rattle.jc_print.specs.Puts.{PutsAtMost};

use itoa::{Buffer, Integer};
use jc_types::Want;

// Put in where it is called, so that what is known of the number there is known of the count of its digits.
#[inline(always)]
fn put_digits<I: Integer>(out: &mut String, number: I) -> Result<(), Want>
    ensures digits { OnOk result (string_bytes out.new ≡ string_bytes out.old ++ I.text number) }
    ensures kept { OnErr result (string_bytes out.new ≡ string_bytes out.old) }
    ensures most { PutsAtMost 40 out.old out.new result }
{
    let mut buffer = Buffer::new();
    out.push_str(buffer.format(number))
}

/// Puts the digits of a number behind the text, with a minus where it is negative, as `{}` prints it.
///
/// # Errors
///
/// Want of memory; the text is then as before.
pub fn put_decimal<I: Integer>(out: &mut String, number: I) -> Result<(), Want>
    ensures digits { OnOk result (string_bytes out.new ≡ string_bytes out.old ++ I.text number) }
    ensures kept { OnErr result (string_bytes out.new ≡ string_bytes out.old) }
    ensures most { PutsAtMost 40 out.old out.new result }
{
    put_digits(out, number)
}

// One digit.
fn put_digit(out: &mut String, digit: u8) -> Result<(), Want>
    requires { digit < 10 }
    ensures digits { OnOk result (string_bytes out.new ≡ string_bytes out.old ++ decimal digit) }
    ensures kept { OnErr result (string_bytes out.new ≡ string_bytes out.old) }
    ensures most { PutsAtMost 40 out.old out.new result }
{
    out.push(char::from(b'0' + digit))
}

// The digits of a number from 1000 on that is below 1,000,000. Behind the 1 of a million more than it stand six
// digits, of which each arm takes as many as the number has: so many bytes are copied with no call. The
// remainder is the number itself: it tells the compiler that seven digits are formatted, and that takes no loop.
fn put_up_to_six(out: &mut String, number: u64) -> Result<(), Want>
    requires low { 1000 ≤ number }
    requires high { number < 1000000 }
    ensures digits { OnOk result (string_bytes out.new ≡ string_bytes out.old ++ decimal number) }
    ensures most { PutsAtMost 40 out.old out.new result }
{
    let mut buffer = Buffer::new();
    let digits = buffer.format(1_000_000 + number % 1_048_576);
    if number < 10_000 {
        out.push_str(&digits[3..])
    } else if number < 100_000 {
        out.push_str(&digits[2..])
    } else {
        out.push_str(&digits[1..])
    }
}

/// Puts the digits of a number behind the text, as `put_decimal`: for numbers that mostly have four to six
/// digits. Where the text has room for those, they are put with no call.
///
/// # Errors
///
/// Want of memory; some of the digits may then stand there.
// Called, so that what calls it stays short, and goes where its words are known.
#[inline(never)]
pub fn put_long(out: &mut String, number: u64) -> Result<(), Want>
    ensures digits { OnOk result (string_bytes out.new ≡ string_bytes out.old ++ decimal number) }
    ensures most { PutsAtMost 40 out.old out.new result }
{
    if number < 1000 || number >= 1_000_000 || out.capacity() - out.len() < 6 {
        return put_decimal(out, number);
    }
    put_up_to_six(out, number)
}

/// Puts the digits of a number behind the text, as `put_decimal`: for numbers that mostly have one digit.
///
/// # Errors
///
/// Want of memory; the text is then as before.
pub fn put_small(out: &mut String, number: u32) -> Result<(), Want>
    ensures digits { OnOk result (string_bytes out.new ≡ string_bytes out.old ++ decimal number) }
    ensures kept { OnErr result (string_bytes out.new ≡ string_bytes out.old) }
    ensures most { PutsAtMost 40 out.old out.new result }
{
    if number < 10 {
        return put_digit(out, number as u8);
    }
    put_decimal(out, number)
}
