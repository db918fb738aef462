//! What lies under the lock of a threaded run: the cluster, and a log of what its players have marked.

ghost use Rattle.std.specs.Prelude.{◌≡◌, ◌⊎◌, ◌+◌, ◌<◌, ◌≤◌, [], Err, IfOk, IsSome, None, OnErr, is_ok, length, reverse, true};
ghost use mathlib.Core.List.{IsPrefix};
ghost use Rattle.jc_types.specs.declared.runs.Event.{Event};
ghost use Rattle.jc_runs.specs.Bases.{CanPlan};
ghost use Rattle.jc_history.specs.Play.{first_event};
ghost use Rattle.jc_core.specs.ApplyFault.TheVariants.{HistoryFull};
ghost use Rattle.jc_core.specs.Shared.{has_holders};
ghost use Rattle.jc_core.specs.declared.holding.Work.{Work};
ghost use Rattle.jc_core.specs.Slots.{unheld_seen};
ghost use Rattle.jc_core.specs.Turns.{is_quiescent_seen};
ghost use Rattle.jc_seats.specs.Hands.{IsHandedIn, WasTaken, offered};
ghost use Rattle.jc_seats.specs.PlayerTurns.{HasHappened, HasLeft, HasTurned, IsOwnEvent};

use crate::hands::hand_in;
use crate::kept::Kept;
use crate::naming::{LogTag, Naming};
use crate::next_action::NextAction;
use crate::players::Player;
use jc_core::{ApplyFault, Work};
use jc_marks::{ListTag, Log, Mark};
use jc_plan::Plan;
use jc_turn::Booked;
use jc_types::{History, Want};
use std::marker::{Brand, Model, PhantomData};

// How many turns a player takes before another one gets the lock, which takes some microseconds.
const MOST_TURNS: u32 = 64;

/// The cluster, and a log that has seen a beginning of its history. A contract sees the cluster.
#[derive(Drop)]
pub struct SharedRun<J: Naming, L: LogTag> {
    kept: Kept<J>,
    log: Log,
    of: PhantomData<L>,
}

impl<J: Naming, L: LogTag> Model for SharedRun<J, L> {
    ghost use Rattle.std.specs.Prelude.{◌≡◌, reverse};
    ghost use Rattle.jc_core.specs.Shared.{Shared};
    ghost use mathlib.Core.List.{IsPrefix};

    ghost Value = { Shared };

    ghost view = { λ r. r.kept };

    ghost invariant = { λ r. (r.log.name ≡ L.log)
        × IsPrefix r.log.seen (reverse r.kept.seen.pasts) };
}

/// A plan to make, and a mark at what had happened when its player took it. A contract sees the work.
#[derive(Drop)]
pub struct PlanTask<J: Naming, L: LogTag> {
    work: Work,
    mark: Mark,
    // How many events had happened.
    events: usize,
    of: PhantomData<(J, L)>,
}

impl<J: Naming, L: LogTag> Model for PlanTask<J, L> {
    ghost use Rattle.std.specs.Prelude.{◌≡◌, IsSome, length};
    ghost use Rattle.jc_runs.specs.Bases.{CanPlan};
    ghost use Rattle.jc_core.specs.declared.holding.Work.{Work};
    ghost use Rattle.jc_seats.specs.Hands.{WasTaken};

    ghost Value = { Work };

    ghost view = { λ t. t.work };

    ghost invariant = { λ t. (t.mark.name ≡ L.log) × (t.events ≡ length t.mark.seen)
        × WasTaken J.script J.shape t.mark.seen t.work
        × (IsSome t.work.basis.job → CanPlan t.work.basis) };
}

impl<J: Naming, L: LogTag> PlanTask<J, L> {
    /// What the plan is to be made of.
    pub fn work(&self) -> &Work
        ensures work { result.now ≡ self.now }
        ensures plannable { IsSome self.now.basis.job → CanPlan self.now.basis }
    {
        &self.work
    }
}

// The log has now seen the whole history.
fn show<H: ListTag>(log: &mut Log, history: &History)
    requires list { history.now.events.items ≡ H.list }
    requires longer { IsPrefix log.old.seen H.list }
    ensures { (log.new.seen ≡ H.list) × (log.new.name ≡ log.old.name) }
{
    let _ = history;
    log.grow::<H>();
}

impl<J: Naming, L: LogTag> SharedRun<J, L> {
    /// The cluster with a log that has seen nothing yet.
    pub fn new(kept: Kept<J>, log: Log) -> SharedRun<J, L>
        requires name { log.name ≡ L.log }
        requires fresh { log.seen ≡ [] }
        ensures { result ≡ kept }
    {
        SharedRun {
            kept,
            log,
            of: PhantomData,
        }
    }

    /// The cluster, of which nothing has changed.
    pub fn into_kept(self) -> Kept<J>
        ensures { result ≡ self }
    {
        self.kept
    }

    // A mark at all that has happened.
    fn mark(&mut self) -> Mark
        ensures name { result.name ≡ L.log }
        ensures seen { result.seen ≡ reverse self.new.seen.pasts }
        ensures same { self.new ≡ self.old }
    {
        show::<Brand>(&mut self.log, self.kept.history());
        self.log.mark()
    }

    // What was marked is a beginning of what has happened.
    fn recall(&mut self, mark: Mark)
        requires { mark.name ≡ L.log }
        ensures begins { IsPrefix mark.seen (reverse self.new.seen.pasts) }
        ensures same { self.new ≡ self.old }
    {
        show::<Brand>(&mut self.log, self.kept.history());
        self.log.recall(mark);
    }

    // The plan to make, with a mark.
    fn task(&mut self, work: Work) -> PlanTask<J, L>
        requires taken { WasTaken J.script J.shape (reverse self.old.seen.pasts) work }
        requires plannable { IsSome work.basis.job → CanPlan work.basis }
        ensures work { result ≡ work }
        ensures same { self.new ≡ self.old }
    {
        let mark = self.mark();
        let events = self.kept.history().events.len();
        PlanTask {
            work,
            mark,
            events,
            of: PhantomData,
        }
    }

    // One turn of the player, as `Kept::turn`. Where it is to make a plan, what has happened is marked.
    fn turn(&mut self, player: &mut Player) -> Result<NextAction<PlanTask<J, L>>, ApplyFault>
        ensures went { IfOk result (λ next. next ≡ NextAction.Went
            → (event : Event) × HasHappened event self.old self.new
            × IsOwnEvent player.old self.old event) }
        ensures own { (self.new.seen ≡ self.old.seen) ⊎ ((event : Event)
            × HasHappened event self.old self.new × IsOwnEvent player.old self.old event) }
        ensures waits { IfOk result (λ next. next ≡ NextAction.Wait → (self.new ≡ self.old)
            × (has_holders self.old.slots ≡ true)
            × (first_event (unheld_seen self.old.slots self.old.seen) ≡ None)
            × ¬ HasLeft player.old self.old.seen) }
        ensures ends { IfOk result (λ next. next ≡ NextAction.End → (self.new ≡ self.old)
            × (is_quiescent_seen self.old.seen ≡ true) × ¬ HasLeft player.old self.old.seen) }
        ensures kept { OnErr result (self.new ≡ self.old) }
        ensures history_full { result ≡ Err HistoryFull
            → self.old.seen.shape.events ≤ length self.old.seen.pasts }
        ensures player { (player.new.number ≡ player.old.number)
            × (player.new.threads ≡ player.old.threads) }
    {
        self.kept.keeps();
        match self.kept.turn(player)? {
            NextAction::Plan(work) => Ok(NextAction::Plan(self.task(work))),
            NextAction::Went => Ok(NextAction::Went),
            NextAction::Wait => Ok(NextAction::Wait),
            NextAction::End => Ok(NextAction::End),
        }
    }

    /// Turns of the player, until one does something else than an event, or there were 64. Each event that comes is
    /// the player's own, and could come. A player that waits for the lock takes longer to wake than an event takes.
    ///
    /// # Errors
    /// `HistoryFull` only where the history has as many events as the shape allows; `Want` where there is no
    /// memory. What happened before stands.
    pub fn turns(&mut self, player: &mut Player) -> Result<NextAction<PlanTask<J, L>>, ApplyFault>
        ensures own { HasTurned player.old self.old self.new }
        ensures went { IfOk result (λ next. next ≡ NextAction.Went
            → length self.new.seen.pasts ≡ length self.old.seen.pasts + 64) }
        ensures waits { IfOk result (λ next. next ≡ NextAction.Wait
            → (has_holders self.new.slots ≡ true)
            × (first_event (unheld_seen self.new.slots self.new.seen) ≡ None)
            × ¬ HasLeft player.old self.new.seen) }
        ensures ends { IfOk result (λ next. next ≡ NextAction.End
            → (is_quiescent_seen self.new.seen ≡ true) × ¬ HasLeft player.old self.new.seen) }
        ensures history_full { result ≡ Err HistoryFull
            → self.new.seen.shape.events ≤ length self.new.seen.pasts }
        ensures player { (player.new.number ≡ player.old.number)
            × (player.new.threads ≡ player.old.threads) }
    {
        for _turn in 0..MOST_TURNS {
            match self.turn(player)? {
                NextAction::Went => {}
                next => return Ok(next),
            }
        }
        Ok(NextAction::Went)
    }

    /// Hands in what was made for the task, as `hand_in`.
    pub fn hand_in(&mut self, seat: u32, task: PlanTask<J, L>, made: Result<Plan, Want>) -> bool
        requires of { IfOk made (λ plan. plan.basis ≡ task.basis) }
        ensures made { result ≡ is_ok made }
        ensures hands { IsHandedIn seat task.controller task.worker (offered made)
            self.old self.new }
    {
        let PlanTask {
            work,
            mark,
            events,
            ..
        } = task;
        self.kept.keeps();
        self.recall(mark);
        hand_in(&mut self.kept, seat, &work, events, made)
    }
}
