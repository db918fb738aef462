//! A run on several threads, whose players share one cluster behind a mutex.

ghost use Rattle.std.specs.Prelude.{◌≡◌, ◌<◌, ◌≤◌, ◌^◌, [], Err, IfOk, IfSome, IsErrOf, length};
ghost use Rattle.std.specs.List.{AllByRecursion as Each, list_any};
ghost use Rattle.jc_runs.specs.ValidActions.{AreValidCommands};
ghost use Rattle.jc_history.specs.Available.{IsOrderly};
ghost use Rattle.jc_runs.specs.Seen.{deeds_seen};
ghost use Rattle.jc_seats.specs.Plays.{IsScriptFor};
ghost use Rattle.jc_seats.specs.Shared.{Shared};
ghost use Rattle.jc_seats.specs.Names.{IsOfName};
ghost use Rattle.jc_shared.specs.SharedEnds.{EndsRun};
ghost use Rattle.jc_seats.specs.declared.players.Player.{Player};

use crate::clusters::{freed, new_kept};
use crate::faults::ThreadsFault;
use crate::finishing::finish;
use crate::gate::Gate;
use crate::host::Host;
use crate::monitor::{Monitor, players_of, run_seat};
use crate::play::Play;
use jc_marks::Log;
use jc_seats::{Cluster, Kept, LogTag, Naming, Player};
use jc_types::{Script, Shape};
use std::alloc::Global;
use std::marker::Brand;
use std::sync::Wait;
use std::thread;
use std::thread::Threads;

// The cluster that the players have left.
fn left_by<J: Naming, L: LogTag>(monitor: Monitor<J, L>) -> Cluster
    ensures named { IsOfName J.script J.shape result.seen }
    ensures orderly { IsOrderly result.seen.shape (deeds_seen result.seen) }
{
    freed(monitor.into_kept())
}

// Whether there was no memory for what one of the players was to do.
fn are_out_of_memory(players: &[Player]) -> bool
    ensures { result ≡ list_any (λ (player : Player). player.is_out_of_memory) players.now }
{
    players.iter().any(|player| player.is_out_of_memory)
}

// The cluster that the players have played, each in a thread of its own.
//
// `None` where there is no memory.
fn played<
    J: Naming + Send + Sync,
    L: LogTag + Send + Sync,
    R: Threads + Wait + Sync,
    G: Gate + Sync,
>(host: &Host<'_, R, G>, kept: Kept<J>, log: Log, threads: u32) -> Option<Cluster>
    requires some_threads { 1 ≤ threads }
    requires name { log.name ≡ L.log }
    requires fresh { log.seen ≡ [] }
    ensures named { IfSome result (λ cluster. IsOfName J.script J.shape cluster.seen) }
    ensures orderly { IfSome result
        (λ cluster. IsOrderly cluster.seen.shape (deeds_seen cluster.seen)) }
{
    let monitor = Monitor::<J, L>::new(kept, log);
    let Ok(mut players) = players_of(host.alloc, threads) else {
        return None;
    };
    let shared = &monitor;
    thread::for_each_mut(
        host.rt,
        players.as_mut_slice(),
        threads as usize,
        &|_, player| { run_seat(host, shared, player) },
    );
    if are_out_of_memory(players.as_slice()) {
        return None;
    }
    Some(left_by(monitor))
}

// The run, where the script and the shape have a name.
//
// As `run_threads`.
fn run_named<J: Naming + Send + Sync, R: Threads + Wait + Sync, G: Gate + Sync>(
    host: &Host<'_, R, G>,
    play: Play<'_>,
) -> Result<Cluster, ThreadsFault>
    requires script { play.script.now ≡ J.script }
    requires shape { play.shape.now ≡ J.shape }
    requires valid_actions { AreValidCommands play.script.now.commands }
    requires fits_shape { IsScriptFor play.script.now play.shape.now }
    ensures { EndsRun play.entry.script.now play.entry.shape.now result }
{
    let Ok(kept) = new_kept::<J>(host.alloc, play) else {
        return Err(ThreadsFault::Want);
    };
    let Ok(log) = Log::new(host.alloc) else {
        return Err(ThreadsFault::Want);
    };
    match played::<J, Brand, R, G>(host, kept, log, play.threads) {
        Some(cluster) => finish(cluster, play),
        None => Err(ThreadsFault::Want),
    }
}

/// Plays the script on so many threads. Each thread has a player, which plays the commands of its lanes
/// and does what the system can do of itself, one event at a time; plans are made outside the lock. Where
/// no thread can be made the players work one after the other. What they leave is played to its end by the
/// caller.
///
/// Which of the events that are possible come in which order is not said. It may wait, so its promise
/// holds if it returns.
///
/// # Errors
/// `Full` exactly where the history has as many events as the shape allows, and a lane is not used up or
/// something is left to do; `Want` where there is no memory.
pub fn run_threads<R: Threads + Wait + Sync, G: Gate + Sync>(
    rt: &R,
    alloc: Global,
    script: &Script,
    shape: &Shape,
    threads: u32,
    gate: &G,
) -> Result<Cluster, ThreadsFault>
    requires some_threads { 1 ≤ threads }
    requires few_threads { threads ≤ 16 }
    requires valid_actions { AreValidCommands script.now.commands }
    requires fits_shape { IsScriptFor script.now shape.now }
    requires fits { length script.now.commands < 2 ^ 32 }
    requires few_events { shape.now.events ≤ 200000 }
    ensures ended { EndsRun script.now shape.now result }
{
    let host = Host { rt, gate, alloc };
    let play = Play {
        script,
        shape,
        threads,
    };
    run_named::<Brand, R, G>(&host, play)
}
