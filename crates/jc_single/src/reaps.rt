//! Collection after finish: a script is played until nothing is left to do, and the play goes on with the commands of a
//! reaper behind it.

ghost use Rattle.std.specs.Prelude.{◌≡◌, ◌<◌, ◌≤◌, ◌^◌, Err, IfOk, IsErrOf, Ok, OnOk, false, length, true, ℕ};
ghost use Rattle.jc_promise.specs.ValidActions.{AreValidCommands};
ghost use Rattle.jc_promise.specs.Available.{is_quiescent};
ghost use Rattle.jc_promise.specs.Play.{whole_play};
ghost use Rattle.jc_promise.specs.Plays.{IsScriptFor, ends_in_settle};
ghost use Rattle.jc_promise.specs.Seen.{deeds_seen, log_seen};
ghost use Rattle.jc_reap.specs.Reaping.{reaped_script};
ghost use Rattle.jc_reap.specs.TtlLines.{ttls_of};
ghost use Rattle.jc_report.specs.Turns.{playing_of};
ghost use Rattle.jc_script.specs.Scripts.{most_bytes, most_commands, script_of};
ghost use Rattle.jc_script.specs.Cause.{Cause};
ghost use Rattle.jc_words.specs.FitOrders.{IsFitShape};
ghost use Rattle.jc_single.specs.Played.{at_rest, reaped_of, then_reaped, with_commands};
ghost use Rattle.jc_single.specs.RunAnswers.{printed_by, report_printed, reported};

use crate::orders::{Output, print_report};
use crate::plays::{Played, play_out, play_whole};
use jc_promise::settled_plays_are_at_rest;
use jc_reap::{
    Ttls, as_many_ttls_as_commands, longer_scripts_play_on, read_ttls, reap_machine,
    reaped_commands_fit,
};
use jc_report::Machine;
use jc_script::{Cause, ScriptFault, read_script, scripts_fit_their_shape};
use jc_types::{Action1, Command, Copied, Script, Shape, Want};
use std::alloc::{AllocError, Global};

// Puts a settle at the end of the script.
fn settle_at_end(script: &mut Script) -> Result<(), Want>
    ensures { OnOk result (script.new ≡ at_rest script.old.commands) }
{
    script.commands.push(Command {
        lane: 0,
        action: Action1::Settle,
    })
}

// Puts the commands at the end of the machine's script. What happened stays.
//
// `Want` also where there are 2^32 commands then, which no memory holds.
fn extend(machine: &mut Machine, commands: &[Command]) -> Result<(), Want>
    requires { AreValidCommands commands.now }
    ensures { OnOk result (machine.new ≡ with_commands machine.old commands.now) }
{
    for command in commands {
        if machine.script().commands.len() >= u32::MAX as usize {
            return Err(AllocError);
        }
        machine.extend(command.copy()?)?;
    }
    Ok(())
}

// The play goes on, with the commands that a reaper gives to what it has left.
fn play_on(alloc: Global, mut machine: Machine, ttls: &Ttls) -> Result<Played, Want>
    requires fits_shape { IsScriptFor machine.script machine.shape }
    requires rest { is_quiescent machine.shape (deeds_seen machine) (log_seen machine) ≡ true }
    requires few_ttls { length ttls.now ≤ length machine.script.commands }
    requires play { whole_play machine.script machine.shape ≡ playing_of false machine }
    ensures script { IfOk result (λ played. played.machine.script ≡ reaped_script machine ttls.now) }
    ensures play { IfOk result (λ played. whole_play (reaped_script machine ttls.now) machine.shape
        ≡ playing_of played.full played.machine) }
{
    longer_scripts_play_on();
    reaped_commands_fit();
    let commands = reap_machine(alloc, &machine, ttls)?;
    extend(&mut machine, commands.as_slice())?;
    let full = play_out(&mut machine)?;
    Ok(Played { machine, full })
}

// The play of the script that is played last: that of the script itself, which goes on with the commands of a reaper
// where it is not full.
fn play_last(alloc: Global, script: Script, ttls: &Ttls, shape: &Shape) -> Result<Played, Want>
    requires valid_actions { AreValidCommands script.commands }
    requires fits_shape { IsScriptFor script shape.now }
    requires fits { length script.commands < 2 ^ 32 }
    requires few_ttls { length ttls.now ≤ length script.commands }
    requires ends { ends_in_settle script.commands ≡ true }
    requires few_events { shape.now.events ≤ 200000 }
    ensures script { IfOk result
        (λ played. played.machine.script ≡ then_reaped script shape.now ttls.now) }
    ensures play { IfOk result (λ played. whole_play (then_reaped script shape.now ttls.now) shape.now
        ≡ playing_of played.full played.machine) }
{
    settled_plays_are_at_rest();
    let played = play_whole(alloc, script, *shape)?;
    if played.full {
        return Ok(played);
    }
    play_on(alloc, played.machine, ttls)
}

// The report of a reaper, of the script and the TTLs that it gives.
fn settled_answer(
    alloc: Global,
    mut script: Script,
    ttls: &Ttls,
    shape: &Shape,
) -> Result<Output, Want>
    requires valid_actions { AreValidCommands script.commands }
    requires fits_shape { IsScriptFor script shape.now }
    requires few_commands { length script.commands ≤ most_commands }
    requires few_ttls { length ttls.now ≤ length script.commands }
    requires few_events { shape.now.events ≤ 200000 }
    ensures { IfOk result (λ output. printed_by output
        ≡ report_printed (then_reaped (at_rest script.commands) shape.now ttls.now) shape.now) }
{
    settle_at_end(&mut script)?;
    let played = play_last(alloc, script, ttls, shape)?;
    print_report(alloc, played)
}

/// The report of a reaper, of the script in the input and the TTLs that it gives.
pub(crate) fn reap_answer(alloc: Global, shape: Shape, input: &[u8]) -> Result<Output, ScriptFault>
    requires few_bytes { length input.now ≤ most_bytes }
    requires fits { IsFitShape shape }
    ensures text { IfOk result (λ output. reported shape
        (reaped_of shape (script_of shape input.now) (ttls_of shape input.now)) ≡ Ok (printed_by output)) }
    ensures bad_line { (number : ℕ) (cause : Cause)
        → IsErrOf result (ScriptFault.BadLine number cause)
        → reaped_of shape (script_of shape input.now) (ttls_of shape input.now)
        ≡ Err (record { number = number; cause = cause }) }
{
    as_many_ttls_as_commands();
    scripts_fit_their_shape();
    let script = read_script(alloc, input, &shape)?;
    let ttls = read_ttls(alloc, input, &shape)?;
    Ok(settled_answer(alloc, script, &ttls, &shape)?)
}
