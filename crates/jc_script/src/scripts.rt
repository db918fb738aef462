//! Reading a script.

ghost use Rattle.std.specs.Prelude.{◌≡◌, ◌≤◌, ◌+◌, ◌++◌, [], ◌∷◌, ℕ, List, IfOk, OnOk, IsErrOf, Ok, Err, length, nat_le};
ghost use Rattle.std.specs.Option.{option_map_or};
ghost use Rattle.jc_members.specs.LineCauses.{Says};
ghost use Rattle.jc_script.specs.Commands.{commands_of};
ghost use Rattle.jc_members.specs.Items.{with_front};
ghost use Rattle.jc_script.specs.Scripts.{most_bytes, most_commands, text_says, line_says, lines_say, script_of};

use crate::commands::{Said, read_value};
use crate::lines::{first_line, trimmed};
use jc_json::{JsonFault, Room, new_room, read_line};
use jc_members::{Cause, LineFault};
use jc_types::{Commands, Copied, Script, Shape, Want};
use std::alloc::{AllocError, Global};

// A line has at most this many bytes.
const MOST_LINE_BYTES: usize = 1_048_576;

// A script has at most this many commands.
const MOST_COMMANDS: usize = 200_000;

/// Why a script was not read.
#[derive(Debug, Drop)]
pub enum ScriptFault {
    /// The line of that number, from 1, is the first bad one.
    BadLine { number: u32, cause: Cause },
    /// Memory ran out.
    Want,
}

impl From<AllocError> for ScriptFault {
    ghost use Rattle.std.specs.Prelude.{◌≡◌};
    ghost use Rattle.jc_script.specs.declared.scripts.ScriptFault.TheVariants.{Want};

    ghost from_gives = { λ _ fault. fault ≡ Want };

    fn from(_refused: AllocError) -> ScriptFault {
        ScriptFault::Want
    }
}

/// What a line without its carriage return says, where it is not empty. The room is kept from line
/// to line.
///
/// # Errors
///
/// `Bad` exactly where the line is bad, with its cause. `Want`: memory ran out.
#[tactic(auto, unfolding(crate::specs::Scripts::text_says))]
pub fn read_text(
    alloc: Global,
    text: &[u8],
    shape: &Shape,
    room: &mut Room,
) -> Result<Said, LineFault>
    ensures { Says (λ said. said) result (text_says shape.now text.now) }
{
    if MOST_LINE_BYTES < text.len() {
        return Err(LineFault::Bad {
            cause: Cause::LineTooLong,
        });
    }
    match read_line(text, room) {
        Ok(value) => read_value(alloc, &value, shape),
        Err(JsonFault::NotJson) => Err(LineFault::Bad {
            cause: Cause::NotJson,
        }),
        Err(JsonFault::Want) => Err(LineFault::Want),
    }
}

// What a line says; nothing where it is empty.
fn read_said(
    alloc: Global,
    line: &[u8],
    shape: &Shape,
    room: &mut Room,
) -> Result<Option<Said>, LineFault>
    ensures { Says (λ said. option_map_or commands_of said []) result
        (line_says shape.now line.now) }
{
    let text = trimmed(line);
    if text.is_empty() {
        return Ok(None);
    }
    Ok(Some(read_text(alloc, text, shape, room)?))
}

// Whether there are not too many commands with those that a line gives.
fn are_few(before: usize, times: u32) -> bool
    requires { before ≤ most_commands }
    ensures { result ≡ nat_le (before + times) most_commands }
{
    times as usize <= MOST_COMMANDS - before
}

// Adds a command as often as it is given.
fn add_times(commands: &mut Commands, said: Said) -> Result<(), Want>
    ensures { OnOk result (commands.new ≡ commands.old ++ commands_of said) }
{
    if said.times == 0 {
        return Ok(());
    }
    for _ in 0..said.times - 1 {
        commands.push(said.command.copy()?)?;
    }
    commands.push(said.command)
}

// Adds the line's commands to those of the lines before it.
fn take_line(
    alloc: Global,
    commands: &mut Commands,
    number: u32,
    line: &[u8],
    shape: &Shape,
    room: &mut Room,
) -> Result<(), ScriptFault>
    requires { length commands.now ≤ most_commands }
    ensures read { OnOk result ((more : List (List ℕ)) →
        with_front commands.new (lines_say shape.now (number + 1) (length commands.new) more)
        ≡ with_front commands.old
        (lines_say shape.now number (length commands.old) (line.now ∷ more))) }
    ensures few_commands { OnOk result (length commands.new ≤ most_commands) }
    ensures bad { (at : ℕ) (cause : Cause) → IsErrOf result (ScriptFault.BadLine at cause)
        → (more : List (List ℕ))
        → lines_say shape.now number (length commands.old) (line.now ∷ more)
        ≡ Err (record { number = at; cause = cause }) }
{
    match read_said(alloc, line, shape, room) {
        Ok(None) => Ok(()),
        Ok(Some(said)) => {
            if !are_few(commands.len(), said.times) {
                return Err(ScriptFault::BadLine {
                    number,
                    cause: Cause::TooMany,
                });
            }
            Ok(add_times(commands, said)?)
        }
        Err(LineFault::Bad { cause }) => Err(ScriptFault::BadLine { number, cause }),
        Err(LineFault::Want) => Err(ScriptFault::Want),
    }
}

/// The commands of a script of at most 67,108,864 bytes, for runs of that shape.
///
/// # Errors
///
/// `BadLine` exactly where a line is bad, with the first such line and its cause. `Want`: memory
/// ran out.
pub fn read_script(alloc: Global, bytes: &[u8], shape: &Shape) -> Result<Script, ScriptFault>
    requires { length bytes.now ≤ most_bytes }
    ensures script { IfOk result (λ script. script_of shape.now bytes.now ≡ Ok script.commands) }
    ensures bad_line { (number : ℕ) (cause : Cause)
        → IsErrOf result (ScriptFault.BadLine number cause)
        → script_of shape.now bytes.now ≡ Err (record { number = number; cause = cause }) }
{
    let mut commands = Commands::new(alloc);
    let mut room = new_room(alloc);
    let mut number = 1;
    let mut left = Some(bytes);
    'lines: while let Some(text) = left {
        let (line, after) = first_line(text);
        take_line(alloc, &mut commands, number, line, shape, &mut room)?;
        number += 1;
        left = after;
    }
    Ok(Script { commands })
}
