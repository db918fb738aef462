//! What the parts answer that no script asks: the first word of a question says who is asked.

use crate::generated::generated;
use crate::keys::{delays, queue};
use crate::members::{number, text, update, written};
use crate::moments::{moment, plus, since};
use crate::sets::{asks, inserts, set};
use jc_types::{Uid, uid_text};
use std::alloc::{AllocError, Global};

// The printed form of the UID, which has 32 bits.
fn uid(alloc: Global, text: &str) -> Result<String, AllocError> {
    let Ok(number) = text.parse() else {
        return String::from_str(alloc, "no such UID");
    };
    let text = uid_text(alloc, Uid(number))?;
    String::from_str(alloc, text.as_str())
}

/// The answer to the question.
///
/// # Errors
/// `AllocError` where there is no memory.
pub fn answer(alloc: Global, question: &str) -> Result<String, AllocError> {
    let (word, rest) = question.split_once(' ').unwrap_or((question, ""));
    match word {
        "set" => set(alloc, rest),
        "inserts" => inserts(alloc, rest),
        "asks" => asks(alloc, rest),
        "moment" => moment(alloc, rest),
        "plus" => plus(alloc, rest),
        "since" => since(alloc, rest),
        "uid" => uid(alloc, rest),
        "queue" => queue(alloc, rest),
        "delays" => delays(alloc, rest),
        "text" => text(alloc, rest),
        "number" => number(alloc, rest),
        "written" => written(alloc, rest),
        "update" => update(alloc, rest),
        "generated" => generated(alloc, rest),
        _ => String::from_str(alloc, "no such question"),
    }
}
