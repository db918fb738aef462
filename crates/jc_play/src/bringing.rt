//! What comes round the begin of a sync in a play: its controller's caches are brought on before, and
//! its worker steps after.

ghost use Rattle.std.specs.Prelude.{◌≡◌, ◌<◌, IfSome, false, is_some};
ghost use Rattle.jc_machine.specs.DiariesSeen.{diary_seen};
ghost use Rattle.jc_history.specs.Numbers.{number};
ghost use Rattle.jc_history.specs.Play.{brings, brought_up, next_step, stepped_through};
ghost use Rattle.jc_history.specs.Registers.{register};
ghost use Rattle.jc_runs.specs.Seen.{log_seen};
ghost use Rattle.jc_play.specs.Turns.{HasGoneOn, HasGrown, IsComing, Reaches, next_to_bring, next_to_step, playing_of};

use jc_machine::{ApplyFault, Machine};
use jc_types::{Event, Kind, Sys};

// What brings the controller's cache on, where it has not seen the whole log.
fn bring_first(machine: &Machine, controller: u32, kind: Kind) -> Option<Event>
    requires { controller < machine.now.shape.controllers }
    ensures { result ≡ brings controller kind (log_seen machine.now)
        (number kind (diary_seen machine.now controller)) }
{
    let Some(version) = machine.cache_at(controller, kind) else {
        return Some(Event::System(Sys::List { controller, kind }));
    };
    if version.0 == machine.store().log_len().0 {
        None
    } else {
        Some(Event::System(Sys::Deliver { controller, kind }))
    }
}

// The same, which is available.
fn bring_event(machine: &Machine, controller: u32, kind: Kind) -> Option<Event>
    requires { controller < machine.now.shape.controllers }
    ensures first { result ≡ brings controller kind (log_seen machine.now)
        (number kind (diary_seen machine.now controller)) }
    ensures coming { IfSome result (λ event. IsComing machine.now event) }
{
    let _history = machine.history();
    bring_first(machine, controller, kind)
}

// A step of the worker, while it has a sync.
fn step_first(machine: &Machine, controller: u32, worker: u32) -> Option<Event>
    requires of_shape { controller < machine.now.shape.controllers }
    requires worker { worker < machine.now.shape.workers }
    ensures { result ≡ next_step controller worker
        (is_some (register worker (diary_seen machine.now controller))) }
{
    if machine.is_free(controller, worker) {
        None
    } else {
        Some(Event::System(Sys::Step { controller, worker }))
    }
}

// The same, which is available.
fn step_event(machine: &Machine, controller: u32, worker: u32) -> Option<Event>
    requires of_shape { controller < machine.now.shape.controllers }
    requires worker { worker < machine.now.shape.workers }
    ensures first { result ≡ next_step controller worker
        (is_some (register worker (diary_seen machine.now controller))) }
    ensures coming { IfSome result (λ event. IsComing machine.now event) }
{
    step_first(machine, controller, worker)
}

// Brings the controller's cache on until it has seen the whole log.
//
// As `settle` where not all is done.
pub(crate) fn bring_up(machine: &mut Machine, controller: u32, kind: Kind) -> Result<(), ApplyFault>
    requires { controller < machine.old.shape.controllers }
    ensures reaches { Reaches result
        (brought_up machine.old.script machine.old.shape controller kind (playing_of false machine.old))
        machine.new }
    ensures kept { HasGoneOn
        (next_to_bring controller kind machine.old.script machine.old.shape) machine.old
        machine.new }
    ensures grown { HasGrown machine.old machine.new }
{
    'bringing: while let Some(event) = bring_event(machine, controller, kind) {
        machine.happen(event)?;
    }
    Ok(())
}

// Steps by the worker until its register is free.
//
// As `settle` where not all is done.
pub(crate) fn step_through(
    machine: &mut Machine,
    controller: u32,
    worker: u32,
) -> Result<(), ApplyFault>
    requires of_shape { controller < machine.old.shape.controllers }
    requires worker { worker < machine.old.shape.workers }
    ensures reaches { Reaches result
        (stepped_through machine.old.script machine.old.shape controller worker
        (playing_of false machine.old)) machine.new }
    ensures kept { HasGoneOn
        (next_to_step controller worker machine.old.script machine.old.shape) machine.old
        machine.new }
    ensures grown { HasGrown machine.old machine.new }
{
    'stepping: while let Some(event) = step_event(machine, controller, worker) {
        machine.happen(event)?;
    }
    Ok(())
}
