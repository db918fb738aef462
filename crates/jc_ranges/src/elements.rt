//! Reading one element of a text: a number, or two joined by a dash.
ghost use Rattle.std.specs.Prelude.{
  ◌≡◌,
  ◌≢◌,
  ℕ,
  ◌<◌,
  ◌≤◌,
  ◌==◌,
  ◌⊎◌,
  true,
  length,
  slice_index,
  position,
  MatchOption,
};
ghost use Rattle.std.specs.Fmt.{decimal};
ghost use Rattle.jc_ranges.specs.declared.runs.Run.{Run};
ghost use Rattle.jc_ranges.specs.Runs.{
  NamesRun,
  NamesNone,
  ArePair,
  AreNoPair,
  IsNumeral,
  IsNoNumeral,
  BeginsPlainly,
};

use crate::bounds::GREATEST_INDEX;
use std::str;

/// The place of the first such byte.
pub fn place_of(text: &[u8], byte: u8) -> Option<usize>
    ensures { result ≡ position (λ b. b == byte) text.now }
{
    text.iter().position(|b| *b == byte)
}

/// The first and the last number that an element names, where it begins at `low` or above.
pub fn read_element(element: &[u8], low: u32) -> Option<(u32, u32)>
    ensures { MatchOption result (NamesNone low element.now)
        (λ run. NamesRun low element.now (record { first = run.0; last = run.1 })) }
{
    let (first, last) = read_run(element)?;
    if first < low {
        return None;
    }
    Some((first, last))
}

// The first and the last number that an element names.
fn read_run(element: &[u8]) -> Option<(u32, u32)>
    ensures { MatchOption result (NamesNone 0 element.now)
        (λ run. NamesRun 0 element.now (record { first = run.0; last = run.1 })) }
{
    match place_of(element, b'-') {
        None => {
            let number = read_number(element)?;
            Some((number, number))
        }
        Some(dash) => read_pair(&element[..dash], &element[dash + 1..]),
    }
}

// Two numbers, the second above the first.
fn read_pair(first: &[u8], last: &[u8]) -> Option<(u32, u32)>
    ensures { MatchOption result (AreNoPair first.now last.now)
        (λ pair. ArePair first.now last.now pair) }
{
    let first = read_number(first)?;
    let last = read_number(last)?;
    if last <= first {
        return None;
    }
    Some((first, last))
}

// A number of at most 99,999, in decimal digits without leading zeros.
fn read_number(word: &[u8]) -> Option<u32>
    ensures { MatchOption result (IsNoNumeral word.now) (λ n. IsNumeral word.now n) }
{
    if !begins_plainly(word) {
        return None;
    }
    let number = str::from_utf8(word).ok()?.parse::<u32>().ok()?;
    if number > GREATEST_INDEX {
        return None;
    }
    Some(number)
}

// Whether a word has neither a leading zero nor a leading plus, both of which `str::parse` reads.
fn begins_plainly(word: &[u8]) -> bool
    ensures plain { result ≡ true → BeginsPlainly word.now }
    ensures all { (n : ℕ) → IsNumeral word.now n → result ≡ true }
{
    match word.first() {
        None => false,
        Some(b'0') => word.len() == 1,
        Some(first) => *first != b'+',
    }
}
