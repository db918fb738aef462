//! What sets of indexes answer.

use jc_ranges::{GREATEST_INDEX, Ranges, RangesFault};
use std::alloc::{AllocError, Global};

/// The text of the set of that text, or where the text breaks the form.
///
/// # Errors
/// `AllocError` where there is no memory.
pub fn set(alloc: Global, text: &str) -> Result<String, AllocError> {
    match Ranges::parse(alloc, text.as_bytes()) {
        Ok(set) => set.text(),
        Err(RangesFault::BadRanges { at }) => format!(in alloc; "bad at {at}"),
        Err(RangesFault::Want) => Err(AllocError),
    }
}

/// A set of the numbers, put in one by one, with a word on each.
///
/// # Errors
/// `AllocError` where there is no memory.
pub fn inserts(alloc: Global, text: &str) -> Result<String, AllocError> {
    let mut set = Ranges::new(alloc);
    let mut said = String::new(alloc);
    let words: Vec<&str> = text.split_whitespace().collect(alloc)?;
    for word in &words {
        if let Ok(number) = word.parse::<u32>() {
            let word = if number <= GREATEST_INDEX && set.insert(number)? {
                "new "
            } else {
                "old "
            };
            said.push_str(word)?;
        }
    }
    said.push_str(set.text()?.as_str())?;
    Ok(said)
}

/// What the set of the first word says of the number of the second: whether it is a member, how many members are below it,
/// the first number from it on that is none, and the member at that place.
///
/// # Errors
/// `AllocError` where there is no memory.
pub fn asks(alloc: Global, text: &str) -> Result<String, AllocError> {
    let Some((first, second)) = text.split_once(' ') else {
        return String::from_str(alloc, "two words");
    };
    let (Ok(set), Ok(n)) = (
        Ranges::parse(alloc, first.as_bytes()),
        second.parse::<u32>(),
    ) else {
        return String::from_str(alloc, "a set and a number");
    };
    if n > GREATEST_INDEX {
        return String::from_str(alloc, "no index");
    }
    let (has, below, next) = (set.contains(n), set.below(n), set.first_missing(n));
    match set.member(n) {
        Some(member) => format!(in alloc; "{has} {below} {next} {member} of {}", set.len()),
        None => format!(in alloc; "{has} {below} {next} - of {}", set.len()),
    }
}
