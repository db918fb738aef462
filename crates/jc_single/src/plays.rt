//! The play of a whole script on one thread.

ghost use Rattle.std.specs.Prelude.{◌≡◌, ◌<◌, ◌≤◌, ◌^◌, IfOk, false, length};
ghost use Rattle.jc_promise.specs.ValidActions.{AreValidCommands};
ghost use Rattle.jc_promise.specs.Play.{rest_played, whole_play};
ghost use Rattle.jc_promise.specs.Plays.{IsScriptFor};
ghost use Rattle.jc_report.specs.Turns.{playing_of};

use jc_report::{ApplyFault, Machine, new_machines_play_the_whole_script, play};
use jc_types::{Script, Shape, Want};
use std::alloc::{AllocError, Global};

/// What has become of a script. A run on one thread has no seats, and so no registers that they hold: it is a machine
/// alone that plays it.
#[derive(Drop)]
pub(crate) struct Played {
    /// The machine, as it was left.
    pub(crate) machine: Machine,
    /// Whether its history had no room for an event that was to come.
    pub(crate) full: bool,
}

/// Plays what is left of the machine's script, and answers whether its history had no room for an event that was to come.
pub(crate) fn play_out(machine: &mut Machine) -> Result<bool, Want>
    requires { IsScriptFor machine.old.script machine.old.shape }
    ensures script { machine.new.script ≡ machine.old.script }
    ensures shape { machine.new.shape ≡ machine.old.shape }
    ensures play { IfOk result (λ full. rest_played machine.old.script machine.old.shape 0
        machine.old.script.commands (playing_of false machine.old) ≡ playing_of full machine.new) }
{
    match play(machine) {
        Ok(()) => Ok(false),
        Err(ApplyFault::HistoryFull) => Ok(true),
        Err(ApplyFault::Want) => Err(AllocError),
    }
}

/// Plays the whole script in a new machine.
pub(crate) fn play_whole(alloc: Global, script: Script, shape: Shape) -> Result<Played, Want>
    requires valid_actions { AreValidCommands script.commands }
    requires fits_shape { IsScriptFor script shape }
    requires fits { length script.commands < 2 ^ 32 }
    requires few_events { shape.events ≤ 200000 }
    ensures script { IfOk result (λ played. played.machine.script ≡ script) }
    ensures shape { IfOk result (λ played. played.machine.shape ≡ shape) }
    ensures play { IfOk result
        (λ played. whole_play script shape ≡ playing_of played.full played.machine) }
{
    new_machines_play_the_whole_script();
    let mut machine = Machine::new(alloc, script, shape)?;
    let full = play_out(&mut machine)?;
    Ok(Played { machine, full })
}
