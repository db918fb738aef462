//! A run on several threads, whose players share one cluster by a turn lock.

ghost use Rattle.std.specs.Prelude.{◌≡◌, ◌<◌, ◌≤◌, ◌^◌, Err, IfOk, IfSome, IsErrOf, IsSome, true, false, length, reverse};
ghost use Rattle.jc_runs.specs.Bases.{CanPlan};
ghost use Rattle.jc_runs.specs.ValidActions.{AreValidCommands};
ghost use Rattle.jc_runs.specs.Seen.{deeds_seen};
ghost use Rattle.jc_history.specs.Available.{IsOrderly};
ghost use Rattle.jc_seats.specs.Plays.{IsScriptFor};
ghost use Rattle.jc_seats.specs.Shared.{Shared};
ghost use Rattle.jc_seats.specs.Work.{Work};
ghost use Rattle.jc_turn.specs.LockSeats.{NoSeatHolds, BelongTo, IsSameSeat, fresh_seats};
ghost use mathlib.Core.List.{IsPrefix};
ghost use Rattle.jc_seats.specs.Hands.{WasTaken};
ghost use Rattle.jc_seats.specs.Names.{IsOfName};
ghost use Rattle.jc_shared.specs.SharedEnds.{EndsRun};

use crate::clusters::{freed, new_kept};
use crate::faults::ThreadsFault;
use crate::finishing::finish;
use crate::gate::Gate;
use crate::host::Host;
use crate::play::Play;
use jc_plan::plan;
use jc_seats::{ApplyFault, Cluster, Kept, Naming, NextAction, Player, Work, hand_in};
use jc_turn::{Booked, LockSeat, LockSeats, Taken, TurnLock, make};
use jc_types::{Script, Shape};
use std::alloc::Global;
use std::marker::Brand;
use std::sync::Wait;
use std::sync::atomic::{AtomicBool, Ordering};
use std::thread;
use std::thread::Threads;

// Takes the cluster for one turn of the player, and gives it back: what the player has to do next, and how many
// events have happened. `None` where it was out.
fn take_turn<J: Naming>(
    lock: &TurnLock<Kept<J>>,
    seat: &mut LockSeat,
    player: &mut Player,
) -> Option<(Result<NextAction<Work>, ApplyFault>, usize)>
    requires lock { seat.old.lock ≡ lock.now.name }
    requires free { seat.old.holds ≡ false }
    ensures seat { IsSameSeat seat.old seat.new × (seat.new.holds ≡ false) }
    ensures plannable { IfSome result (λ next. IfOk next.0 (λ action. (work : Work)
        → action ≡ NextAction.Plan work → IsSome work.basis.job → CanPlan work.basis)) }
    ensures taken { IfSome result (λ next. IfOk next.0 (λ action. (work : Work)
        → action ≡ NextAction.Plan work → WasTaken J.script J.shape seat.new.seen work)) }
    ensures events { IfSome result (λ next. next.1 ≡ length seat.new.seen) }
{
    let Taken::Value(mut kept) = lock.take(seat) else {
        return None;
    };
    kept.keeps();
    let next = kept.turn(player);
    let events = kept.history().events.len();
    lock.give(seat, kept);
    Some((next, events))
}

// Takes the cluster, once it is there.
fn wait_for<J: Naming, R: Wait>(rt: &R, lock: &TurnLock<Kept<J>>, seat: &mut LockSeat) -> Kept<J>
    requires lock { seat.old.lock ≡ lock.now.name }
    requires free { seat.old.holds ≡ false }
    ensures seat { IsSameSeat seat.old seat.new × (seat.new.holds ≡ true) }
    ensures seen { seat.new.seen ≡ reverse result.seen.pasts }
    ensures begins { IsPrefix seat.old.seen (reverse result.seen.pasts) }
{
    for _ in rt.forever() {
        if let Taken::Value(kept) = lock.take(seat) {
            return kept;
        }
        thread::yield_now();
    }
    unreachable!()
}

// Makes the plan while the seat does not hold the cluster, tells the gate, and hands it in. False
// where there is no memory for it; the register is then put back. So many events had happened when the seat
// took the work.
fn make_plan<J: Naming, R: Wait, G: Gate>(
    host: &Host<'_, R, G>,
    lock: &TurnLock<Kept<J>>,
    seat: &mut LockSeat,
    number: u32,
    work: &Work,
    events: usize,
) -> bool
    requires lock { seat.old.lock ≡ lock.now.name }
    requires free { seat.old.holds ≡ false }
    requires plannable { IsSome work.now.basis.job → CanPlan work.now.basis }
    requires taken { WasTaken J.script J.shape seat.old.seen work.now }
    requires events { events ≡ length seat.old.seen }
    ensures { IsSameSeat seat.old seat.new × (seat.new.holds ≡ false) }
{
    let made = plan(host.alloc, &work.basis);
    if made.is_ok() {
        host.gate.planned(number, &work.basis.key);
    }
    let mut kept = wait_for(host.rt, lock, seat);
    kept.keeps();
    let is_made = hand_in(&mut kept, number, work, events, made);
    lock.give(seat, kept);
    is_made
}

// One turn of the player. False where it is to end; it holds no register then.
fn turn<J: Naming, R: Wait, G: Gate>(
    host: &Host<'_, R, G>,
    lock: &TurnLock<Kept<J>>,
    seat: &mut LockSeat,
    player: &mut Player,
) -> bool
    requires lock { seat.old.lock ≡ lock.now.name }
    requires free { seat.old.holds ≡ false }
    ensures seat { IsSameSeat seat.old seat.new × (seat.new.holds ≡ false) }
{
    let Some((next, events)) = take_turn(lock, seat, player) else {
        thread::yield_now();
        return true;
    };
    match next {
        Ok(NextAction::Plan(work)) => {
            let is_made = make_plan(host, lock, seat, player.number, &work, events);
            player.is_out_of_memory = !is_made;
            is_made
        }
        Ok(NextAction::Went) => true,
        Ok(NextAction::Wait) => {
            thread::yield_now();
            true
        }
        Ok(NextAction::End) | Err(ApplyFault::HistoryFull) => false,
        Err(ApplyFault::Want) => {
            player.is_out_of_memory = true;
            false
        }
    }
}

// The turns of the player, until it ends. Whether it was out of memory is told to those that look later.
fn run_seat<J: Naming, R: Wait, G: Gate>(
    host: &Host<'_, R, G>,
    lock: &TurnLock<Kept<J>>,
    is_out_of_memory: &AtomicBool,
    seat: &mut LockSeat,
    player: Player,
)
    requires lock { seat.old.lock ≡ lock.now.name }
    requires free { seat.old.holds ≡ false }
    ensures { IsSameSeat seat.old seat.new × (seat.new.holds ≡ false) }
{
    let mut player = player;
    for _ in host.rt.forever() {
        if !turn(host, lock, seat, &mut player) {
            if player.is_out_of_memory {
                is_out_of_memory.store(true, Ordering::SeqCst);
            }
            return;
        }
    }
}

// The turns of all players, each in a thread of its own.
fn run_seats<J: Naming + Send + Sync, R: Threads + Wait + Sync, G: Gate + Sync>(
    host: &Host<'_, R, G>,
    lock: &TurnLock<Kept<J>>,
    is_out_of_memory: &AtomicBool,
    seats: &mut [LockSeat],
    threads: u32,
)
    requires some_threads { 1 ≤ threads }
    requires few_seats { length seats.old ≤ threads }
    requires own { BelongTo lock.now.name seats.old }
    requires free { NoSeatHolds seats.old }
    ensures own { BelongTo lock.now.name seats.new }
    ensures free { NoSeatHolds seats.new }
{
    thread::for_each_mut(
        host.rt,
        seats,
        threads as usize,
        &|i: usize, seat: &mut LockSeat|
            requires { (i < 2 ^ 32) × (i < threads) × (seat.old.lock ≡ lock.now.name)
                × (seat.old.holds ≡ false) }
            ensures { IsSameSeat seat.old seat.new × (seat.new.holds ≡ false) }
        {
            run_seat(
                host,
                lock,
                is_out_of_memory,
                seat,
                Player::new(i as u32, threads),
            )
        },
    );
}

// A new cluster behind a lock, and its seats.
//
// `None` where there is no memory for them.
fn open<J: Naming>(alloc: Global, play: Play<'_>) -> Option<(TurnLock<Kept<J>>, LockSeats)>
    requires script { play.script.now ≡ J.script }
    requires shape { play.shape.now ≡ J.shape }
    requires valid_actions { AreValidCommands play.script.now.commands }
    requires fits_shape { IsScriptFor play.script.now play.shape.now }
    ensures count { IfSome result (λ made. made.0.seats ≡ play.entry.threads) }
    ensures fresh { IfSome result (λ made. made.1 ≡ fresh_seats made.0.name 0 play.entry.threads) }
{
    let kept = new_kept::<J>(alloc, play).ok()?;
    make(alloc, kept, play.threads).ok()
}

// The turns of all players by a new lock, and what they leave behind it.
fn run_lock<J: Naming + Send + Sync, R: Threads + Wait + Sync, G: Gate + Sync>(
    host: &Host<'_, R, G>,
    is_out_of_memory: &AtomicBool,
    lock: TurnLock<Kept<J>>,
    seats: LockSeats,
    threads: u32,
) -> Kept<J>
    requires some_threads { 1 ≤ threads }
    requires count { lock.seats ≡ threads }
    requires fresh { seats ≡ fresh_seats lock.name 0 threads }
{
    let mut seats = seats;
    run_seats(host, &lock, is_out_of_memory, seats.as_mut_slice(), threads);
    lock.close(seats)
}

// A value, where memory sufficed. It is dropped here, where nothing is known of it, since what its
// caller holds is large.
fn unless<T: Drop>(is_out_of_memory: bool, value: T) -> Option<T>
    ensures { IfSome result (λ same. same ≡ value) }
{
    if is_out_of_memory { None } else { Some(value) }
}

// The cluster that the players have left, of which no register is held.
//
// `None` where there is no memory.
fn left_by_lock<J: Naming + Send + Sync, R: Threads + Wait + Sync, G: Gate + Sync>(
    host: &Host<'_, R, G>,
    lock: TurnLock<Kept<J>>,
    seats: LockSeats,
    threads: u32,
) -> Option<Cluster>
    requires some_threads { 1 ≤ threads }
    requires count { lock.seats ≡ threads }
    requires fresh { seats ≡ fresh_seats lock.name 0 threads }
    ensures named { IfSome result (λ cluster. IsOfName J.script J.shape cluster.seen) }
    ensures orderly { IfSome result
        (λ cluster. IsOrderly cluster.seen.shape (deeds_seen cluster.seen)) }
{
    let is_out_of_memory = AtomicBool::new(false);
    let cluster = freed(run_lock(host, &is_out_of_memory, lock, seats, threads));
    unless(is_out_of_memory.load(Ordering::SeqCst), cluster)
}

// A new cluster that the players have played.
//
// As `left_by_lock`.
fn played<J: Naming + Send + Sync, R: Threads + Wait + Sync, G: Gate + Sync>(
    host: &Host<'_, R, G>,
    play: Play<'_>,
) -> Option<Cluster>
    requires script { play.script.now ≡ J.script }
    requires shape { play.shape.now ≡ J.shape }
    requires valid_actions { AreValidCommands play.script.now.commands }
    requires fits_shape { IsScriptFor play.script.now play.shape.now }
    ensures named { IfSome result (λ cluster. IsOfName J.script J.shape cluster.seen) }
    ensures orderly { IfSome result
        (λ cluster. IsOrderly cluster.seen.shape (deeds_seen cluster.seen)) }
{
    let (lock, seats) = open::<J>(host.alloc, play)?;
    left_by_lock(host, lock, seats, play.threads)
}

// The run, where the script and the shape have a name.
//
// As `run_turn`.
fn run_named<J: Naming + Send + Sync, R: Threads + Wait + Sync, G: Gate + Sync>(
    host: &Host<'_, R, G>,
    play: Play<'_>,
) -> Result<Cluster, ThreadsFault>
    requires script { play.script.now ≡ J.script }
    requires shape { play.shape.now ≡ J.shape }
    requires valid_actions { AreValidCommands play.script.now.commands }
    requires fits_shape { IsScriptFor play.script.now play.shape.now }
    ensures { EndsRun play.entry.script.now play.entry.shape.now result }
{
    match played::<J, R, G>(host, play) {
        Some(cluster) => finish(cluster, play),
        None => Err(ThreadsFault::Want),
    }
}

/// Plays the script as `run_threads` does, but the players share the cluster by a turn lock: one
/// that finds the cluster out, or only held registers, lets other threads run and tries again. It
/// may wait, so its promise holds if it returns.
///
/// # Errors
/// As those of `run_threads`.
pub fn run_turn<R: Threads + Wait + Sync, G: Gate + Sync>(
    rt: &R,
    alloc: Global,
    script: &Script,
    shape: &Shape,
    threads: u32,
    gate: &G,
) -> Result<Cluster, ThreadsFault>
    requires some_threads { 1 ≤ threads }
    requires few_threads { threads ≤ 16 }
    requires valid_actions { AreValidCommands script.now.commands }
    requires fits_shape { IsScriptFor script.now shape.now }
    requires fits { length script.now.commands < 2 ^ 32 }
    requires few_events { shape.now.events ≤ 200000 }
    ensures ended { EndsRun script.now shape.now result }
{
    let host = Host { rt, gate, alloc };
    let play = Play {
        script,
        shape,
        threads,
    };
    run_named::<Brand, R, G>(&host, play)
}
