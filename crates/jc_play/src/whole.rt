//! The play of what is left of a script, each command at its place.

ghost use Rattle.std.specs.Prelude.{◌≡◌, ◌+◌, ◌<◌, IfSome, None, OnOk, Some, false, length, slice_get, true};
ghost use Rattle.std.specs.List.{list_any};
ghost use Rattle.jc_history.specs.Legal.{AreUsed};
ghost use Rattle.jc_history.specs.Play.{is_command, rest_played};
ghost use Rattle.jc_order.specs.Plays.{IsScriptFor};
ghost use Rattle.jc_play.specs.Turns.{HasGrown, IsOwn, Reaches, playing_of};
ghost use Rattle.jc_play.specs.Ways.{ArePlayed, FitsWay, IsAtPlace, by_way, place_played};

use crate::playing::play_own;
use crate::ways::{Way, way_of};
use jc_machine::{ApplyFault, Machine};
use jc_order::the_rest_is_played;
use jc_types::{Command, Event, Script};

// A command that is to be played.
#[derive(Clone, Copy)]
struct Own {
    // Its event.
    event: Event,
    // What comes round it.
    way: Way,
}

// The command at a place of the script.
fn command_at(script: &Script, place: usize) -> &Command
    requires { place < length script.now.commands }
    ensures { slice_get script.now.commands place ≡ Some result.now }
{
    &script.commands.as_slice()[place]
}

// What is to be played of the place, where its command was not played yet.
fn own_at(machine: &Machine, place: usize) -> Option<Own>
    requires fits_shape { IsScriptFor machine.now.script machine.now.shape }
    requires there { place < length machine.now.script.commands }
    requires before { ArePlayed place machine.now.pasts }
    ensures none { result ≡ None → list_any (is_command place) machine.now.pasts ≡ true }
    ensures place { IfSome result (λ own. IsAtPlace place own.event) }
    ensures own { IfSome result (λ own. IsOwn machine.now own.event) }
    ensures fits { IfSome result (λ own. FitsWay own.way machine.now own.event) }
    ensures play { IfSome result (λ own.
        place_played place (slice_get machine.now.script.commands place) machine.now.script
        machine.now.shape (playing_of false machine.now)
        ≡ by_way own.way machine.now.script machine.now.shape own.event
        (playing_of false machine.now)) }
{
    let _history = machine.history();
    let command = command_at(machine.script(), place);
    let number = machine.next_command(command.lane)?;
    if number as usize != place {
        return None;
    }
    Some(Own {
        event: Event::Command {
            lane: command.lane,
            number,
        },
        way: way_of(&command.action),
    })
}

// Plays the command at the place, where it was not played yet.
fn play_place(machine: &mut Machine, place: usize) -> Result<(), ApplyFault>
    requires fits_shape { IsScriptFor machine.old.script machine.old.shape }
    requires there { place < length machine.old.script.commands }
    requires before { ArePlayed place machine.old.pasts }
    ensures reaches { Reaches result
        (place_played place (slice_get machine.old.script.commands place) machine.old.script
        machine.old.shape (playing_of false machine.old)) machine.new }
    ensures grown { HasGrown machine.old machine.new }
    ensures played { OnOk result (ArePlayed (place + 1) machine.new.pasts) }
{
    let Some(own) = own_at(machine, place) else {
        return Ok(());
    };
    play_own(machine, own.event, own.way)
}

// Plays the commands that were not played yet, one place after the other.
fn play_places(machine: &mut Machine) -> Result<(), ApplyFault>
    requires { IsScriptFor machine.old.script machine.old.shape }
    ensures reaches { Reaches result (rest_played machine.old.script machine.old.shape 0
        machine.old.script.commands (playing_of false machine.old)) machine.new }
    ensures grown { HasGrown machine.old machine.new }
{
    let count = machine.script().commands.len();
    for place in 0..count {
        play_place(machine, place)?;
    }
    Ok(())
}

/// Plays what is left of the script on one thread: the commands in the order of the file, whatever
/// their lanes, but for those that were played. Before a command Sync its controller's cache of
/// Jobs and then that of pods are brought on until they have seen the whole log, and where its sync
/// begins, its worker steps until that has ended. Before a command Settle all that is available is
/// done in first order, until nothing is. Every other command is its own event alone.
///
/// With `Ok` no lane has a command left. It goes over the places of the script once.
///
/// # Errors
/// `HistoryFull` exactly where the history has as many events as the shape allows and one is still
/// to come; `Want` where there is no memory. The events before it are kept.
pub fn play(machine: &mut Machine) -> Result<(), ApplyFault>
    requires { IsScriptFor machine.old.script machine.old.shape }
    ensures reaches { Reaches result (rest_played machine.old.script machine.old.shape 0
        machine.old.script.commands (playing_of false machine.old)) machine.new }
    ensures used { OnOk result (AreUsed machine.new.script.commands machine.new.pasts) }
    ensures grown { HasGrown machine.old machine.new }
{
    the_rest_is_played();
    let _history = machine.history();
    play_places(machine)
}
