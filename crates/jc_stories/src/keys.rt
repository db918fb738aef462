//! What the queue of keys and their delays answer. Each key is the name of a Job in the namespace `default`.

use jc_moment::Moment;
use jc_queue::{Call, Delays, Queue, run};
use jc_types::{Key, KeyNames, Label};
use std::alloc::{AllocError, Global};

// The name, or `x` where it is empty or too long for one.
fn name(alloc: Global, text: &str) -> Result<Label, AllocError> {
    if text.is_empty() || text.len() > 63 {
        return Label::from_text(alloc, "x");
    }
    Label::from_text(alloc, text)
}

fn key(alloc: Global, text: &str) -> Result<Key, AllocError> {
    let namespace = name(alloc, "default")?;
    let name = name(alloc, text)?;
    Key::new(alloc, KeyNames { namespace, name })
}

fn call(alloc: Global, word: &str) -> Result<Call, AllocError> {
    match word {
        "get" => Ok(Call::Get),
        "done" => Ok(Call::Done),
        name => Ok(Call::Add(key(alloc, name)?)),
    }
}

/// The names of the keys that a queue hands out: `get` gets a key, `done` finishes the one that has been processing for
/// longest, and another word adds the key of that name.
///
/// # Errors
/// `AllocError` where there is no memory.
pub fn queue(alloc: Global, text: &str) -> Result<String, AllocError> {
    let mut calls = Vec::new(alloc);
    for word in text.split_whitespace() {
        calls.push(call(alloc, word)?)?;
    }
    let mut queue = Queue::new(alloc);
    let mut said = String::new(alloc);
    for key in &run(alloc, &mut queue, &calls)? {
        said.push_str(key.name.as_str())?;
        said.push(' ')?;
    }
    said.push_str(format!(in alloc; "of {}", queue.len())?.as_str())?;
    Ok(said)
}

// The moment so many seconds after 1970, or none where it is no number.
fn at(text: &str) -> Option<Moment> {
    Moment::from_seconds(text.parse::<u64>().ok()?)
}

// The key that is due at the moment, or `-`, is said.
fn say_due(said: &mut String, delays: &mut Delays, moment: Moment) -> Result<(), AllocError> {
    if let Some(key) = delays.due(moment) {
        said.push_str(key.name.as_str())?;
    } else {
        said.push('-')?;
    }
    said.push(' ')?;
    Ok(())
}

// The next moment at which a key is due, in seconds, or `-`, is said.
fn say_next(alloc: Global, said: &mut String, delays: &Delays) -> Result<(), AllocError> {
    match delays.next_moment() {
        Some(moment) => said.push_str(format!(in alloc; "{} ", moment.seconds())?.as_str()),
        None => said.push_str("- "),
    }
}

// One call of the delays: `after=NAME@SECOND`, `retry=NAME@SECOND`, `forget=NAME`, `due=@SECOND` and `next`.
fn delay(
    alloc: Global,
    said: &mut String,
    delays: &mut Delays,
    word: &str,
) -> Result<(), AllocError> {
    let (call, rest) = word.split_once('=').unwrap_or((word, ""));
    let (text, second) = rest.split_once('@').unwrap_or((rest, ""));
    let key = key(alloc, text)?;
    match (call, at(second)) {
        ("after", Some(moment)) => delays.add_after(&key, moment),
        ("retry", Some(moment)) => delays.retry(&key, moment),
        ("due", Some(moment)) => say_due(said, delays, moment),
        ("forget", None) => {
            delays.forget(&key);
            Ok(())
        }
        ("next", None) => say_next(alloc, said, delays),
        _ => said.push_str("? "),
    }
}

/// What the delays of keys say after calls in turn.
///
/// # Errors
/// `AllocError` where there is no memory.
pub fn delays(alloc: Global, text: &str) -> Result<String, AllocError> {
    let mut delays = Delays::new(alloc);
    let mut said = String::new(alloc);
    for word in text.split_whitespace() {
        delay(alloc, &mut said, &mut delays, word)?;
    }
    Ok(said)
}
