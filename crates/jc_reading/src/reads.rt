//! What the line of an event says.

ghost use Rattle.std.specs.Prelude.{◌≡◌, ◌++◌, IfOk, IfSome, OnOk, Some, option_and_then, string_bytes};
ghost use Rattle.jc_lines.specs.Events.{tag_text};
ghost use Rattle.jc_lines.specs.ActTexts.{act_text};
ghost use Rattle.jc_reading.specs.Cuts.{first_word_in};
ghost use Rattle.jc_reading.specs.LineReadings.{action_by, act_said, create_said, delete_said, fate_said, plain_said, reported_said, system_said, tag_said, turn_said, update_said};
ghost use Rattle.jc_reading.specs.Reads.{BeginsWith, IsProperRead, act_of_line, begun_read, event_said, front_text, if_printed, of_words, begins_with, system_by};
ghost use Rattle.jc_reading.specs.declared.reading.Verb.TheVariants as verb;
ghost use Rattle.jc_reading.specs.declared.reads.LineRead.{LineRead};

use crate::cuts::{Words, cut};
use crate::parts::{read_changed, read_created, read_key, read_printed_ends, read_reported};
use crate::reading::{
    Verb, number_below, read_fault, read_kind, read_number, read_pod, read_printed_version,
    read_tag, read_verb,
};
use jc_lines::{print_action, print_system};
use jc_print::put_decimal;
use jc_types::{Action1, Arc, Seconds, Sys, Want};
use std::alloc::Global;

// The room for the front of a line: most take less. Without it a text grows by halves, and is moved four times.
const MOST_FRONT: usize = 64;

/// What an event does: a command's action, or an event of the system.
#[derive(Drop)]
pub enum LineAct {
    /// A command; a sync stands as its begin.
    Command(Action1),
    /// An event of the system.
    System(Sys),
}

/// What the line of an event says before its reply.
#[derive(Drop)]
pub struct LineRead {
    /// The lane of a command; none of an event of the system.
    pub lane: Option<u8>,
    /// What it does.
    pub act: LineAct,
}

fn read_create(alloc: Global, words: &Words<'_>) -> Result<Option<Action1>, Want>
    ensures { IfOk result (λ o. o ≡ create_said words.now.first.now words.now.second.now) }
{
    let Some(key) = read_key(alloc, words.first)? else {
        return Ok(None);
    };
    let Some((key, spec)) = read_created(alloc, &key, words.second)? else {
        return Ok(None);
    };
    let spec = Arc::new(alloc, spec)?;
    Ok(Some(Action1::Create { key, spec }))
}

fn read_update(alloc: Global, words: &Words<'_>) -> Result<Option<Action1>, Want>
    ensures { IfOk result (λ o. o
        ≡ update_said words.now.first.now words.now.second.now words.now.third.now) }
{
    let Some(key) = read_key(alloc, words.first)? else {
        return Ok(None);
    };
    let Some(version) = read_printed_version(words.second) else {
        return Ok(None);
    };
    let Some(change) = read_changed(alloc, words.third)? else {
        return Ok(None);
    };
    Ok(Some(Action1::Update {
        key,
        version,
        change,
    }))
}

fn read_delete(alloc: Global, words: &Words<'_>) -> Result<Option<Action1>, Want>
    ensures { IfOk result (λ o. o ≡ delete_said words.now.first.now) }
{
    let Some(key) = read_key(alloc, words.first)? else {
        return Ok(None);
    };
    Ok(Some(Action1::Delete { key }))
}

fn read_report(alloc: Global, words: &Words<'_>) -> Result<Option<Action1>, Want>
    ensures { IfOk result (λ o. o ≡ reported_said words.now.first.now words.now.second.now) }
{
    let Some(pod) = read_pod(words.first) else {
        return Ok(None);
    };
    let Some(change) = read_reported(alloc, words.second)? else {
        return Ok(None);
    };
    Ok(Some(Action1::Report { pod, change }))
}

fn read_fate(alloc: Global, words: &Words<'_>) -> Result<Option<Action1>, Want>
    ensures { IfOk result (λ o. o ≡ fate_said words.now.first.now words.now.second.now) }
{
    let Some(key) = read_key(alloc, words.first)? else {
        return Ok(None);
    };
    let Some(ends) = read_printed_ends(alloc, words.second)? else {
        return Ok(None);
    };
    Ok(Some(Action1::Fate { key, ends }))
}

// A command on one pod, on the clock or on the node.
fn read_plain(verb: Verb, first: &[u8], second: &[u8]) -> Option<Action1>
    ensures { result ≡ plain_said verb first.now second.now }
{
    match verb {
        Verb::Mark => {
            let pod = read_pod(first)?;
            Some(Action1::Mark { pod })
        }
        Verb::Strip => {
            let pod = read_pod(first)?;
            Some(Action1::Strip { pod })
        }
        Verb::Finish => {
            let pod = read_pod(first)?;
            let exit = number_below(second, 256)? as i32;
            Some(Action1::Finish { pod, exit })
        }
        Verb::Clock => {
            let add = number_below(first, 4_294_967_296)?;
            Some(Action1::Clock { add })
        }
        Verb::Node => Some(Action1::Node),
        Verb::Settle => Some(Action1::Settle),
        _ => None,
    }
}

// A command on a controller.
fn read_turn(verb: Verb, first: &[u8], second: &[u8], third: &[u8]) -> Option<Action1>
    ensures { result ≡ turn_said verb first.now second.now third.now }
{
    match verb {
        Verb::List => {
            let controller = number_below(first, 4)? as u32;
            let kind = read_kind(second)?;
            Some(Action1::List { controller, kind })
        }
        Verb::Deliver => {
            let controller = number_below(first, 4)? as u32;
            let kind = read_kind(second)?;
            Some(Action1::Deliver { controller, kind })
        }
        Verb::Begin => {
            let controller = number_below(first, 4)? as u32;
            let worker = number_below(second, 16)? as u32;
            Some(Action1::Begin { controller, worker })
        }
        Verb::Step => {
            let controller = number_below(first, 4)? as u32;
            let worker = number_below(second, 16)? as u32;
            Some(Action1::Step { controller, worker })
        }
        Verb::Restart => {
            let controller = number_below(first, 4)? as u32;
            Some(Action1::Restart { controller })
        }
        Verb::Fault => read_put_fault(first, second, third),
        _ => None,
    }
}

// A fault of a worker.
fn read_put_fault(first: &[u8], second: &[u8], third: &[u8]) -> Option<Action1>
    ensures { result ≡ turn_said verb.Fault first.now second.now third.now }
{
    let controller = number_below(first, 4)? as u32;
    let worker = number_below(second, 16)? as u32;
    let fault = read_fault(third)?;
    Some(Action1::PutFault {
        controller,
        worker,
        fault,
    })
}

// What a command does, by its verb and the words behind it.
#[tactic(auto, unfolding(crate::specs::LineReadings::act_said))]
fn read_action(alloc: Global, verb: Verb, words: &Words<'_>) -> Result<Option<Action1>, Want>
    ensures { IfOk result (λ o. o
        ≡ act_said verb words.now.first.now words.now.second.now words.now.third.now) }
{
    match verb {
        Verb::Create => read_create(alloc, words),
        Verb::Update => read_update(alloc, words),
        Verb::Delete => read_delete(alloc, words),
        Verb::Report => read_report(alloc, words),
        Verb::Fate => read_fate(alloc, words),
        Verb::Mark | Verb::Strip | Verb::Finish | Verb::Clock | Verb::Node | Verb::Settle => Ok(
            read_plain(verb, words.first, words.second),
        ),
        _ => Ok(read_turn(verb, words.first, words.second, words.third)),
    }
}

// The event of the system, by its verb and the words behind it.
#[tactic(auto, unfolding(crate::specs::LineReadings::system_said))]
fn read_system(verb: Verb, first: &[u8], second: &[u8]) -> Option<Sys>
    ensures { result ≡ system_said verb first.now second.now }
{
    match verb {
        Verb::List => {
            let controller = number_below(first, 4)? as u32;
            let kind = read_kind(second)?;
            Some(Sys::List { controller, kind })
        }
        Verb::Deliver => {
            let controller = number_below(first, 4)? as u32;
            let kind = read_kind(second)?;
            Some(Sys::Deliver { controller, kind })
        }
        Verb::Begin => {
            let controller = number_below(first, 4)? as u32;
            let worker = number_below(second, 16)? as u32;
            Some(Sys::Begin { controller, worker })
        }
        Verb::Step => {
            let controller = number_below(first, 4)? as u32;
            let worker = number_below(second, 16)? as u32;
            Some(Sys::Step { controller, worker })
        }
        Verb::Node => Some(Sys::Node),
        Verb::Clock => {
            let add = Seconds::from_u64(read_number(first)?);
            Some(Sys::Clock { add })
        }
        _ => None,
    }
}

// A command's line, by its lane.
fn read_command(alloc: Global, lane: u8, words: &Words<'_>) -> Result<Option<LineRead>, Want>
    ensures { IfOk result (λ o. o ≡ of_words (Some lane) words.now.verb.now words.now.first.now
        words.now.second.now words.now.third.now) }
{
    let Some(verb) = read_verb(words.verb) else {
        return Ok(None);
    };
    let Some(action) = read_action(alloc, verb, words)? else {
        return Ok(None);
    };
    Ok(Some(LineRead {
        lane: Some(lane),
        act: LineAct::Command(action),
    }))
}

// The line of an event of the system.
fn read_of_system(words: &Words<'_>) -> Option<LineRead>
    ensures { result ≡ of_words None words.now.verb.now words.now.first.now words.now.second.now
        words.now.third.now }
{
    let verb = read_verb(words.verb)?;
    let system = read_system(verb, words.first, words.second)?;
    Some(LineRead {
        lane: None,
        act: LineAct::System(system),
    })
}

// What is read of the words of a line.
fn read_words(alloc: Global, words: &Words<'_>) -> Result<Option<LineRead>, Want>
    ensures { IfOk result (λ o. o ≡ option_and_then (λ lane. of_words lane words.now.verb.now
        words.now.first.now words.now.second.now words.now.third.now)
        (tag_said words.now.tag.now)) }
{
    match read_tag(words.tag) {
        Some(Some(lane)) => read_command(alloc, lane, words),
        Some(None) => Ok(read_of_system(words)),
        None => Ok(None),
    }
}

fn print_tag(out: &mut String, lane: Option<u8>) -> Result<(), Want>
    ensures { OnOk result (string_bytes out.new ≡ string_bytes out.old ++ tag_text lane) }
{
    match lane {
        Some(lane) => {
            out.push_str("@")?;
            put_decimal(out, lane)
        }
        None => out.push_str("-"),
    }
}

fn print_act(out: &mut String, alloc: Global, act: &LineAct) -> Result<(), Want>
    ensures { OnOk result (string_bytes out.new
        ≡ string_bytes out.old ++ act_text (act_of_line act.now)) }
{
    match act {
        LineAct::Command(action) => print_action(out, alloc, action),
        LineAct::System(system) => print_system(out, system),
    }
}

// The line up to its reply.
fn front(alloc: Global, number: u64, read: &LineRead) -> Result<String, Want>
    ensures { IfOk result (λ text. string_bytes text
        ≡ front_text number read.now.lane (act_of_line read.now.act)) }
{
    let mut out = String::with_capacity(alloc, MOST_FRONT)?;
    put_decimal(&mut out, number)?;
    out.push_str(" ")?;
    print_tag(&mut out, read.lane)?;
    out.push_str(" ")?;
    print_act(&mut out, alloc, &read.act)?;
    out.push_str(" -> ")?;
    Ok(out)
}

// Whether the line begins with that text.
fn begins_with(line: &[u8], front: &[u8]) -> bool
    ensures { result ≡ begins_with front.now line.now }
{
    line.starts_with(front)
}

// Whether the line begins with what is printed of that.
fn is_printed(alloc: Global, number: u64, read: &LineRead, line: &[u8]) -> Result<bool, Want>
    ensures { IfOk result (λ yes. yes
        ≡ begins_with (front_text number read.now.lane (act_of_line read.now.act)) line.now) }
{
    let text = front(alloc, number, read)?;
    Ok(begins_with(line, text.as_bytes()))
}

// What was read of the line that has this first word, where the line begins with what is printed of
// it.
fn if_printed(
    alloc: Global,
    line: &[u8],
    number: &[u8],
    read: LineRead,
) -> Result<Option<LineRead>, Want>
    requires { number.now ≡ first_word_in line.now }
    ensures { IfOk result (λ o. o ≡ if_printed line.now read) }
{
    let Some(number) = read_number(number) else {
        return Ok(None);
    };
    let holds = is_printed(alloc, number, &read, line)?;
    if holds {
        return Ok(Some(read));
    }
    Ok(None)
}

// What is read of the line, where it begins with what is printed of that.
#[tactic(auto, unfolding(crate::specs::Reads::event_said))]
fn read_front(alloc: Global, line: &[u8]) -> Result<Option<LineRead>, Want>
    ensures { IfOk result (λ o. o ≡ event_said line.now) }
{
    let words = cut(line);
    let Some(read) = read_words(alloc, &words)? else {
        return Ok(None);
    };
    if_printed(alloc, line, words.number, read)
}

/// What the line of an event says before its reply: whose it is, and what it does. `line` may go on
/// behind its line feed. A begin by a command reads as Begin, since the own event of a sync is the
/// same. `None` exactly where no proper event prints in this way.
///
/// # Errors
///
/// Want of memory.
pub fn read_event(alloc: Global, line: &[u8]) -> Result<Option<LineRead>, Want>
    ensures exact { IfOk result (λ o. o ≡ event_said line.now) }
    ensures found { IfOk result (λ o. IfSome o
        (λ read. IsProperRead read × BeginsWith line.now read)) }
    ensures only { (read : LineRead) → IsProperRead read → BeginsWith line.now read
        → IfOk result (λ o. o ≡ Some (begun_read read)) }
{
    read_front(alloc, line)
}
