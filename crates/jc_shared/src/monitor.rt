//! A monitor, and what the players of a threaded run do by it: plans outside its lock, and everything else under it.

ghost use Rattle.std.specs.Prelude.{◌≡◌, ◌<◌, [], IfOk, length, nat_le};

use crate::gate::Gate;
use crate::host::Host;
use jc_marks::Log;
use jc_plan::plan;
use jc_seats::{ApplyFault, Kept, LogTag, Naming, NextAction, PlanTask, Player, SharedRun, Work};
use jc_types::Want;
use std::alloc::Global;
use std::sync::{Condvar, Mutex, Wait};

// From so many pods on a plan takes longer than to wake a player.
const WIDE: usize = 64;

// What the players share, behind a mutex with its condition variable.
//
// No player sleeps for ever. A player sleeps only where its turn finds nothing to do while another one holds a
// register; that one is at its plan, so awake. It then takes turn after turn until it ends, which wakes all,
// or sleeps itself, which again leaves another one at its plan. Turns come to an end, since each does one of
// the events that the shape allows, or takes a plan that an event has asked for.
//
// Nobody is woken after an event, nor when a plan is handed in: that player is awake, and its next turn does
// what there is to do. Where it leaves for a plan of many pods, it wakes one player for what else there may be;
// that one sleeps again where it finds nothing. To wake a player takes longer than to make a small plan. Only a
// settle of a lane is left to a player that sleeps: it comes where nothing else is left to do, and the last
// player that is awake ends then.
#[derive(Drop)]
pub(crate) struct Monitor<J: Naming, L: LogTag> {
    run: Mutex<SharedRun<J, L>>,
    // Is told where another player may have something to do.
    changed: Condvar,
}

impl<J: Naming, L: LogTag> Monitor<J, L> {
    pub(crate) fn new(kept: Kept<J>, log: Log) -> Monitor<J, L>
        requires name { log.name ≡ L.log }
        requires fresh { log.seen ≡ [] }
    {
        Monitor {
            run: Mutex::new(SharedRun::new(kept, log)),
            changed: Condvar::new(),
        }
    }

    // What was kept, once no player is at work.
    pub(crate) fn into_kept(self) -> Kept<J> {
        self.run.into_inner().into_kept()
    }
}

// So many players.
//
// `Want` where there is no memory for them.
pub(crate) fn players_of(alloc: Global, threads: u32) -> Result<Vec<Player>, Want>
    ensures { IfOk result (λ players. length players.items ≡ threads) }
{
    let mut players = Vec::new(alloc);
    for number in 0..threads {
        players.push(Player::new(number, threads))?;
    }
    Ok(players)
}

// Whether to make its plan takes longer than to wake a player.
fn is_wide(work: &Work) -> bool
    ensures { result ≡ nat_le 64 (length work.now.basis.pods) }
{
    WIDE <= work.basis.pods.len()
}

// Makes the plan outside the lock, tells the gate, and hands it in. False where there is no memory for
// it; the register is then put back, and the player is to end.
fn make_plan<J: Naming, L: LogTag, R: Wait, G: Gate>(
    host: &Host<'_, R, G>,
    monitor: &Monitor<J, L>,
    seat: u32,
    task: PlanTask<J, L>,
) -> bool {
    let work = task.work();
    if is_wide(work) {
        monitor.changed.notify_one();
    }
    let made = plan(host.alloc, &work.basis);
    if made.is_ok() {
        host.gate.planned(seat, &work.basis.key);
    }
    let mut run = monitor.run.lock(host.rt);
    let is_made = run.hand_in(seat, task, made);
    if !is_made {
        monitor.changed.notify_all();
    }
    is_made
}

// Turns of a player under one hold of the lock, and its plan outside it. False where it is to end; it holds no
// register then.
fn turn<J: Naming, L: LogTag, R: Wait, G: Gate>(
    host: &Host<'_, R, G>,
    monitor: &Monitor<J, L>,
    player: &mut Player,
) -> bool {
    let mut run = monitor.run.lock(host.rt);
    match run.turns(player) {
        Ok(NextAction::Plan(task)) => {
            drop(run);
            let is_made = make_plan(host, monitor, player.number, task);
            player.is_out_of_memory = !is_made;
            is_made
        }
        Ok(NextAction::Went) => true,
        Ok(NextAction::Wait) => {
            drop(monitor.changed.wait(host.rt, run));
            true
        }
        Ok(NextAction::End) | Err(ApplyFault::HistoryFull) => {
            monitor.changed.notify_all();
            false
        }
        Err(ApplyFault::Want) => {
            player.is_out_of_memory = true;
            monitor.changed.notify_all();
            false
        }
    }
}

// The turns of a player, until it ends.
pub(crate) fn run_seat<J: Naming, L: LogTag, R: Wait, G: Gate>(
    host: &Host<'_, R, G>,
    monitor: &Monitor<J, L>,
    player: &mut Player,
) {
    for _ in host.rt.forever() {
        if !turn(host, monitor, player) {
            return;
        }
    }
}
