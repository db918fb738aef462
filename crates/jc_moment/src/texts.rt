//! The texts of moments, written and read: `YYYY-MM-DDTHH:MM:SSZ`, twenty bytes, the form of
//! Kubernetes' `metav1.Time`.

ghost use Rattle.std.specs.Prelude.{◌≡◌, ℕ, ◌+◌, ◌<◌, ◌≤◌, ◌/◌, ◌%◌, length, pos, IsSomeAnd};
ghost use Rattle.jiff_core.specs.Calendar.{IsBetween};
ghost use Rattle.jiff_core.specs.DateTime.{civil_seconds};
ghost use Rattle.jc_moment.specs.Digits.{IsPairAt};
ghost use Rattle.jc_moment.specs.Text.{IsMomentText};

use crate::{Moment, Want};
use jiff::civil::DateTime;
use jiff::fmt::temporal::DateTimePrinter;
use jiff_core::civil;
use std::alloc::Global;

/// Why a text was not read as a moment.
#[derive(Clone, Copy, PartialEq, Eq, Debug)]
pub enum MomentFault {
    /// The text is the text of no moment.
    BadMoment,
}

impl Moment {
    ghost use Rattle.std.specs.Prelude.{◌≡◌, ◌↔◌, ℕ, IfOk, IsTrue, length, pos, string_bytes};
    ghost use Rattle.jiff_core.specs.DateTime.{civil_seconds};
    ghost use Rattle.jc_moment.specs.Text.{IsMomentText, moment_text};

    /// The text of this moment, as `2024-06-19T17:30:05Z`: twenty bytes.
    ///
    /// # Errors
    /// `Want` only where there is no memory for the text.
    pub fn text(&self, alloc: Global) -> Result<String, Want>
        ensures spelled { IfOk result (λ t. IsMomentText self.now (string_bytes t)) }
        ensures text { IfOk result (λ t. string_bytes t ≡ moment_text self.now) }
        ensures twenty { IfOk result (λ t. length (string_bytes t) ≡ 20) }
    {
        let civil = DateTime::from_plain(self.civil());
        format!(in alloc; "{civil}Z")
    }

    /// The moment whose text this is. It takes no memory.
    ///
    /// # Errors
    /// `BadMoment` exactly where the text is the text of no moment, as where the calendar has no
    /// such day, a clock shows no such time, or an offset stands in place of the `Z`.
    pub fn parse(text: &[u8]) -> Result<Moment, MomentFault>
        ensures read { (m : ℕ) → (result ≡ Ok m) ↔ IsMomentText m text.now }
        ensures bad { (result ≡ Err MomentFault.BadMoment) ↔ ((m : ℕ) → ¬ (IsMomentText m text.now)) }
    {
        match candidate(text) {
            Some(moment) if moment.has_text(text) => Ok(moment),
            _ => Err(MomentFault::BadMoment),
        }
    }

    // The date and time of this moment in UTC.
    fn civil(&self) -> civil::DateTime
        ensures at { civil_seconds result ≡ pos self.now }
        ensures whole { result.time.subsec_nanosecond ≡ 0 }
    {
        civil::DateTime::from_nanosecond_in_range(self.seconds() as i128 * 1_000_000_000)
    }

    fn has_text(&self, text: &[u8]) -> bool
        ensures { IsTrue result ↔ IsMomentText self.now text.now }
    {
        let civil = DateTimePrinter::new().datetime_text(self.civil());
        match text.split_last() {
            Some((last, civil_part)) => *last == b'Z' && civil_part == civil.as_str().as_bytes(),
            None => false,
        }
    }
}

// The moment whose text this is, or some moment or none where it is the text of none.
fn candidate(text: &[u8]) -> Option<Moment>
    ensures { (m : ℕ) → IsMomentText m text.now → result ≡ Some m }
{
    match u64::try_from(civil_in(text)?.to_second()) {
        Ok(seconds) => Moment::from_seconds(seconds),
        Err(_) => None,
    }
}

// The date and time that the digits spell, if they are taken to stand where those of a moment's
// text do.
fn civil_in(text: &[u8]) -> Option<civil::DateTime>
    ensures { (m : ℕ) → IsMomentText m text.now
        → IsSomeAnd result (λ civil. civil_seconds civil ≡ pos m) }
{
    if text.len() != 20 {
        return None;
    }
    let year = year_in(text);
    let (month, day) = (pair(text, 5), pair(text, 8));
    let (hour, minute, second) = (pair(text, 11), pair(text, 14), pair(text, 17));
    match DateTime::new(year, month, day, hour, minute, second, 0) {
        Ok(civil) => Some(civil.to_plain()),
        Err(_) => None,
    }
}

// The year that the four digits at the front spell, and some year where other bytes stand there.
fn year_in(text: &[u8]) -> i16
    requires { 4 ≤ length text.now }
    ensures { (n : ℕ) → IsPairAt text.now 0 (n / 100) → IsPairAt text.now 2 (n % 100)
        → result ≡ pos n }
{
    pair(text, 0) as i16 * 100 + pair(text, 2) as i16
}

// The number that the two digits at `place` spell, and some number where other bytes stand there.
fn pair(text: &[u8], place: usize) -> i8
    requires { place + 1 < length text.now }
    ensures value { (n : ℕ) → IsPairAt text.now place n → result ≡ pos n }
    ensures below_100 { IsBetween (pos 0) (pos 99) result }
{
    let tens = text[place].saturating_sub(b'0').min(9);
    let ones = text[place + 1].saturating_sub(b'0').min(9);
    (tens * 10 + ones) as i8
}
