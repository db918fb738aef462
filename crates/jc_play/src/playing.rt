//! The play of a script: its commands in their order, with what comes round a sync and a settle.

ghost use Rattle.std.specs.Prelude.{◌≡◌, ◌<◌, ◌≤◌, Err, IfOk, OnErr, OnOk, false, length};
ghost use Rattle.jc_machine.specs.declared.apply.ApplyFault.TheVariants.{HistoryFull};
ghost use Rattle.jc_history.specs.Play.{after_begin, brought_up, event_played, has_just_begun, settled_down};
ghost use Rattle.jc_types.specs.declared.objects.Kind.TheVariants.{Jobs, Pods};
ghost use Rattle.jc_types.specs.declared.runs.Event.{Event};
ghost use Rattle.jc_runs.specs.Seen.{Admits, happened};
ghost use Rattle.jc_play.specs.Turns.{HasCome, HasGrown, IsOwn, NeedsNoRest, Reaches, playing_of};
ghost use Rattle.jc_play.specs.Ways.{FitsWay, by_way};

use crate::bringing::{bring_up, step_through};
use crate::settling::settle;
use crate::ways::Way;
use jc_machine::{ApplyFault, Machine, tells_begin};
use jc_types::{Event, Kind};

// Whether a sync began by the newest event.
fn has_just_begun(machine: &Machine) -> bool
    ensures { result ≡ has_just_begun machine.now.pasts }
{
    match machine.last_reply() {
        None => false,
        Some(reply) => tells_begin(reply),
    }
}

// Does the event, and says whether a sync began by it.
//
// As `apply` where it is not done; the machine is then as before.
fn begin_own(machine: &mut Machine, event: Event) -> Result<bool, ApplyFault>
    requires { Admits machine.old event }
    ensures ok { OnOk result (machine.new ≡ happened machine.old event) }
    ensures begun { IfOk result (λ b. b ≡ has_just_begun (happened machine.old event).pasts) }
    ensures kept { OnErr result (machine.new ≡ machine.old) }
    ensures full { machine.old.shape.events ≤ length machine.old.pasts
        → result ≡ Err HistoryFull }
    ensures history_full { result ≡ Err HistoryFull
        → machine.old.shape.events ≤ length machine.old.pasts }
{
    machine.happen(event)?;
    Ok(has_just_begun(machine))
}

// Does the own event of a sync, and the steps after it where the sync began.
fn begin_and_step(
    machine: &mut Machine,
    event: Event,
    controller: u32,
    worker: u32,
) -> Result<(), ApplyFault>
    requires of_shape { controller < machine.old.shape.controllers }
    requires worker { worker < machine.old.shape.workers }
    requires own { IsOwn machine.old event }
    requires free { NeedsNoRest machine.old event }
    ensures reaches { Reaches result
        (after_begin machine.old.script machine.old.shape controller worker
        (event_played machine.old.script machine.old.shape event (playing_of false machine.old)))
        machine.new }
    ensures grown { HasGrown machine.old machine.new }
    ensures came { OnOk result (HasCome event machine.new) }
{
    let begun = begin_own(machine, event)?;
    if begun {
        step_through(machine, controller, worker)
    } else {
        Ok(())
    }
}

// Brings both caches of the controller on, that of Jobs first.
fn bring_both(machine: &mut Machine, controller: u32) -> Result<(), ApplyFault>
    requires { controller < machine.old.shape.controllers }
    ensures reaches { Reaches result
        (brought_up machine.old.script machine.old.shape controller Pods
        (brought_up machine.old.script machine.old.shape controller Jobs
        (playing_of false machine.old))) machine.new }
    ensures grown { HasGrown machine.old machine.new }
    ensures own { (event : Event) → IsOwn machine.old event → IsOwn machine.new event }
{
    bring_up(machine, controller, Kind::Jobs)?;
    bring_up(machine, controller, Kind::Pods)
}

// Plays the command Sync.
fn play_sync(
    machine: &mut Machine,
    event: Event,
    controller: u32,
    worker: u32,
) -> Result<(), ApplyFault>
    requires of_shape { controller < machine.old.shape.controllers }
    requires worker { worker < machine.old.shape.workers }
    requires own { IsOwn machine.old event }
    requires free { NeedsNoRest machine.old event }
    ensures reaches { Reaches result
        (by_way (Way.Round controller worker) machine.old.script machine.old.shape event
        (playing_of false machine.old)) machine.new }
    ensures grown { HasGrown machine.old machine.new }
    ensures came { OnOk result (HasCome event machine.new) }
{
    bring_both(machine, controller)?;
    begin_and_step(machine, event, controller, worker)
}

// Plays a command that is its own event alone.
fn play_plain(machine: &mut Machine, event: Event) -> Result<(), ApplyFault>
    requires own { IsOwn machine.old event }
    requires admits { Admits machine.old event }
    ensures reaches { Reaches result
        (event_played machine.old.script machine.old.shape event (playing_of false machine.old))
        machine.new }
    ensures grown { HasGrown machine.old machine.new }
    ensures came { OnOk result (HasCome event machine.new) }
{
    machine.happen(event)
}

// Plays the command Settle.
fn play_settle(machine: &mut Machine, event: Event) -> Result<(), ApplyFault>
    requires own { IsOwn machine.old event }
    ensures reaches { Reaches result
        (event_played machine.old.script machine.old.shape event
        (settled_down machine.old.script machine.old.shape (playing_of false machine.old)))
        machine.new }
    ensures grown { HasGrown machine.old machine.new }
    ensures came { OnOk result (HasCome event machine.new) }
{
    settle(machine)?;
    play_plain(machine, event)
}

// Plays a command with what comes round it.
pub(crate) fn play_own(machine: &mut Machine, event: Event, way: Way) -> Result<(), ApplyFault>
    requires own { IsOwn machine.old event }
    requires fits { FitsWay way machine.old event }
    ensures reaches { Reaches result
        (by_way way machine.old.script machine.old.shape event (playing_of false machine.old))
        machine.new }
    ensures grown { HasGrown machine.old machine.new }
    ensures came { OnOk result (HasCome event machine.new) }
{
    match way {
        Way::Round { controller, worker } => play_sync(machine, event, controller, worker),
        Way::Rest => play_settle(machine, event),
        Way::Plain => play_plain(machine, event),
    }
}
