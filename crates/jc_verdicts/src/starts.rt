//! With what the last syncs of the workers began.

ghost use Rattle.std.specs.Prelude.{◌≡◌, ◌<◌, ◌∷◌, ℕ, IfOk, IsTrue, List, None, OnOk, Some, if◌then◌else◌};
ghost use Rattle.jc_log.specs.Deeds.{Deed, act_of_action, act_of_event, deed};
ghost use Rattle.jc_ledger.specs.Syncs.{is_begin};
ghost use Rattle.jc_verdicts.specs.SyncStarts.{HasStarts, is_of};
ghost use Rattle.jc_verdicts.specs.Verdicts.{IsPlace};
ghost use Rattle.jc_verdicts.specs.Workers.{is_near, last_start, place_near, same_worker};
ghost use Rattle.jc_verdicts.specs.declared.workers.Worker.{Worker};

use crate::workers::{Start, Starts, Worker};
use indexmap::IndexMap;
use jc_types::{Action1, Command, Event, Past, Reply, Script, Sys, Want};
use std::alloc::Global;

/// Whether the worker has a place in the list.
fn is_near(worker: Worker) -> bool
    ensures same { result ≡ is_near worker }
    ensures within { IsTrue result → place_near worker < 64 }
{
    worker.controller < 4 && worker.worker < 16
}

/// The place of a worker in the list.
fn place_near(worker: Worker) -> usize
    requires { place_near worker < 64 }
    ensures { result ≡ place_near worker }
{
    worker.controller as usize * 16 + worker.worker as usize
}

/// No sync of any worker has begun.
pub fn new_starts<'a>(alloc: Global) -> Result<Starts<'a>, Want>
    ensures { IfOk result (λ starts. (q : Worker) → last_start starts q ≡ None) }
{
    Ok(Starts {
        near: Vec::from_elem(alloc, None, 64)?,
        far: IndexMap::new(alloc),
    })
}

/// With what the last sync of the worker began.
pub fn last_start<'a>(starts: &Starts<'a>, worker: Worker) -> Option<Start<'a>>
    ensures { result ≡ last_start starts.now worker }
{
    if is_near(worker) {
        return starts.near[place_near(worker)];
    }
    starts.far.get(&worker).copied()
}

// Notes with what a sync of the worker began, in place of what was noted of it before.
fn put_start<'a>(starts: &mut Starts<'a>, worker: Worker, start: Start<'a>) -> Result<(), Want>
    ensures { OnOk result ((q : Worker) → last_start starts.new q
        ≡ (if same_worker worker q then Some start.entry else last_start starts.old q)) }
{
    if is_near(worker) {
        starts.near[place_near(worker)] = Some(start);
        return Ok(());
    }
    starts.far.insert(worker, start)?;
    Ok(())
}

/// The worker whose sync the command begins.
fn beginner_of_command(action: &Action1) -> Option<Worker>
    ensures { (c w : ℕ) → is_begin c w (act_of_action action.now) ≡ is_of result c w }
{
    match action {
        Action1::Begin { controller, worker } | Action1::Sync { controller, worker } => {
            Some(Worker {
                controller: *controller,
                worker: *worker,
            })
        }
        _ => None,
    }
}

/// The worker whose sync the event begins.
fn beginner(commands: &[Command], event: &Event) -> Option<Worker>
    requires { IsPlace commands.now event.now }
    ensures { (c w : ℕ) → is_begin c w (act_of_event commands.now event.now) ≡ is_of result c w }
{
    match event {
        Event::Command { number, .. } => beginner_of_command(&commands[*number as usize].action),
        Event::System(Sys::Begin { controller, worker }) => Some(Worker {
            controller: *controller,
            worker: *worker,
        }),
        Event::System(_) => None,
    }
}

/// Notes with what a sync began, where the event began one.
pub fn add_begin<'a>(starts: &mut Starts<'a>, script: &Script, past: &'a Past) -> Result<(), Want>
    requires { IsPlace script.now.commands past.now.event }
    ensures { OnOk result ((older : List Deed)
        → HasStarts older starts.old
        → HasStarts (deed script.now past.now ∷ older) starts.new) }
{
    let Reply::Begun {
        key,
        jobs_at,
        pods_at,
    } = &past.reply
    else {
        return Ok(());
    };
    let Some(worker) = beginner(script.commands.as_slice(), &past.event) else {
        return Ok(());
    };
    let start = Start {
        key,
        jobs_at: *jobs_at,
        pods_at: *pods_at,
    };
    put_start(starts, worker, start)
}
