//! What moments answer.

use jc_moment::{Moment, MomentFault};
use std::alloc::{AllocError, Global};

// The moment's seconds and its text, or that there is none.
fn said(alloc: Global, moment: Option<Moment>) -> Result<String, AllocError> {
    match moment {
        Some(moment) => format!(in alloc; "{} {}", moment.seconds(), moment.text(alloc)?),
        None => String::from_str(alloc, "none"),
    }
}

/// The moment of that text.
///
/// # Errors
/// `AllocError` where there is no memory.
pub fn moment(alloc: Global, text: &str) -> Result<String, AllocError> {
    match Moment::parse(text.as_bytes()) {
        Ok(moment) => said(alloc, Some(moment)),
        Err(MomentFault::BadMoment) => String::from_str(alloc, "bad"),
    }
}

/// The moment so many seconds after that of so many seconds.
///
/// # Errors
/// `AllocError` where there is no memory.
pub fn plus(alloc: Global, text: &str) -> Result<String, AllocError> {
    let (first, second) = text.split_once(' ').unwrap_or((text, "0"));
    let (Ok(first), Ok(second)) = (first.parse::<u64>(), second.parse::<u64>()) else {
        return String::from_str(alloc, "two numbers");
    };
    match Moment::from_seconds(first) {
        Some(moment) => said(alloc, moment.plus(second)),
        None => String::from_str(alloc, "none"),
    }
}

/// The seconds from the second moment to the first; 0 where it is not later.
///
/// # Errors
/// `AllocError` where there is no memory.
pub fn since(alloc: Global, text: &str) -> Result<String, AllocError> {
    let (first, second) = text.split_once(' ').unwrap_or((text, ""));
    let (Ok(first), Ok(second)) = (
        Moment::parse(first.as_bytes()),
        Moment::parse(second.as_bytes()),
    ) else {
        return String::from_str(alloc, "two moments");
    };
    format!(in alloc; "{}", first.since(&second))
}
