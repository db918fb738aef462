//! The lines of events.

ghost use Rattle.std.specs.Prelude.{◌≡◌, ◌++◌, ◌<◌, OnErr, OnOk, Some, codes, length, slice_get, string_bytes, true};
ghost use Rattle.jc_log.specs.Deeds.{act_of_command, act_of_event, deed, lane_of};
ghost use Rattle.jc_texts.specs.ActTexts.{act_text};
ghost use Rattle.jc_verdicts.specs.Verdicts.{IsPlace};
ghost use Rattle.jc_print.specs.Puts.{PutsAtMost};
ghost use Rattle.jc_lines.specs.Events.{event_line, tag_text};
ghost use Rattle.jc_texts.specs.Short.{is_short, is_short_act};

use jc_print::{put_long, put_small};
use jc_texts::{print_action, print_reply, print_short_action, print_short_reply, put_system};
use jc_types::{Command, Event, Past, Script, Want};
use std::alloc::Global;

// The command at a place of the script.
fn command_at<'s>(script: &'s Script, number: u32) -> &'s Command
    requires { number < length script.now.commands }
    ensures { slice_get script.now.commands number ≡ Some result.now }
{
    &script.commands.as_slice()[number as usize]
}

// The lane of a command behind a blank, and what it does.
fn print_command(
    out: &mut String,
    alloc: Global,
    script: &Script,
    lane: u8,
    number: u32,
) -> Result<(), Want>
    requires { number < length script.now.commands }
    ensures { OnOk result (string_bytes out.new ≡ string_bytes out.old
        ++ (codes " " ++ (tag_text (Some lane)
        ++ (codes " " ++ act_text (act_of_command (slice_get script.now.commands number)))))) }
{
    let command = command_at(script, number);
    out.push_str(" @")?;
    put_small(out, u32::from(lane))?;
    out.push_str(" ")?;
    print_action(out, alloc, &command.action)?;
    Ok(())
}

// Whose event it is, behind a blank, what it does, and the arrow in front of the reply.
fn put_deed(out: &mut String, alloc: Global, script: &Script, event: &Event) -> Result<(), Want>
    requires { IsPlace script.now.commands event.now }
    ensures { OnOk result (string_bytes out.new ≡ string_bytes out.old
        ++ (codes " " ++ (tag_text (lane_of event.now)
        ++ (codes " " ++ (act_text (act_of_event script.now.commands event.now) ++ codes " -> "))))) }
{
    match event {
        Event::Command { lane, number } => {
            print_command(out, alloc, script, *lane, *number)?;
            out.push_str(" -> ")
        }
        Event::System(system) => put_system(out, system),
    }
}

// The lane of a command behind a blank, and what it does, where that is short.
fn print_short_command(out: &mut String, script: &Script, lane: u8, number: u32) -> Result<(), Want>
    requires place { number < length script.now.commands }
    requires short { is_short_act (act_of_command (slice_get script.now.commands number)) ≡ true }
    ensures text { OnOk result (string_bytes out.new ≡ string_bytes out.old
        ++ (codes " " ++ (tag_text (Some lane)
        ++ (codes " " ++ act_text (act_of_command (slice_get script.now.commands number)))))) }
    ensures most { PutsAtMost 460 out.old out.new result }
{
    let command = command_at(script, number);
    out.push_str(" @")?;
    put_small(out, u32::from(lane))?;
    out.push_str(" ")?;
    print_short_action(out, &command.action)
}

// Whose event it is, behind a blank, what it does, where that is short, and the arrow in front of the reply.
#[inline(always)]
fn put_short_deed(out: &mut String, script: &Script, event: &Event) -> Result<(), Want>
    requires place { IsPlace script.now.commands event.now }
    requires short { is_short_act (act_of_event script.now.commands event.now) ≡ true }
    ensures text { OnOk result (string_bytes out.new ≡ string_bytes out.old
        ++ (codes " " ++ (tag_text (lane_of event.now)
        ++ (codes " " ++ (act_text (act_of_event script.now.commands event.now) ++ codes " -> "))))) }
    ensures most { PutsAtMost 480 out.old out.new result }
{
    match event {
        Event::Command { lane, number } => {
            print_short_command(out, script, *lane, *number)?;
            out.push_str(" -> ")
        }
        Event::System(system) => put_system(out, system),
    }
}

/// Puts the line of an event behind the text, where it is short, with its number in the history, counted from 1: it takes
/// no memory where the text has room for 1,100 bytes.
///
/// # Errors
///
/// Want of memory; a part of the line may then stand there.
#[inline(always)]
pub fn put_short_event(
    out: &mut String,
    script: &Script,
    number: u64,
    past: &Past,
) -> Result<(), Want>
    requires place { IsPlace script.now.commands past.now.event }
    requires short { is_short (deed script.now past.now) ≡ true }
    ensures line { OnOk result (string_bytes out.new
        ≡ string_bytes out.old ++ event_line number (deed script.now past.now)) }
    ensures most { PutsAtMost 1100 out.old out.new result }
{
    put_long(out, number)?;
    put_short_deed(out, script, &past.event)?;
    print_short_reply(out, &past.reply)?;
    out.push_str("\n")
}

/// Puts the line of an event behind the text, as `print_event`, but after want of memory a part of the
/// line may stand there: for a text that is given up then.
///
/// # Errors
///
/// Want of memory.
pub fn put_event(
    out: &mut String,
    alloc: Global,
    script: &Script,
    number: u64,
    past: &Past,
) -> Result<(), Want>
    requires { IsPlace script.now.commands past.now.event }
    ensures { OnOk result (string_bytes out.new
        ≡ string_bytes out.old ++ event_line number (deed script.now past.now)) }
{
    put_long(out, number)?;
    put_deed(out, alloc, script, &past.event)?;
    print_reply(out, alloc, &past.reply)?;
    out.push_str("\n")
}

/// Puts the line of an event behind the text, with its number in the history, counted from 1.
///
/// # Errors
///
/// Want of memory; the text is then as before.
pub fn print_event(
    out: &mut String,
    alloc: Global,
    script: &Script,
    number: u64,
    past: &Past,
) -> Result<(), Want>
    requires { IsPlace script.now.commands past.now.event }
    ensures line { OnOk result (string_bytes out.new
        ≡ string_bytes out.old ++ event_line number (deed script.now past.now)) }
    ensures kept { OnErr result (string_bytes out.new ≡ string_bytes out.old) }
{
    let mut line = String::new(alloc);
    put_event(&mut line, alloc, script, number, past)?;
    out.push_str(line.as_str())
}
