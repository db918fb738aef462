//! What a player does next.

ghost use Rattle.std.specs.Prelude.{◌≡◌, ◌≢◌, ◌+◌, ◌%◌, ◌<◌, ◌≤◌, Err, IfOk, IfSome, IsSome, None, OnErr, OnOk, Some, find, length, true};
ghost use Rattle.jc_types.specs.declared.runs.Event.{Event};
ghost use Rattle.jc_runs.specs.Bases.{CanPlan};
ghost use Rattle.jc_history.specs.Play.{first_event};
ghost use Rattle.jc_core.specs.ApplyFault.TheVariants.{HistoryFull};
ghost use Rattle.jc_core.specs.Actors.{CanCome};
ghost use Rattle.jc_core.specs.Slots.{unheld_seen};
ghost use Rattle.jc_core.specs.Turns.{is_quiescent_seen};
ghost use Rattle.jc_core.specs.Shared.{has_holders, is_open_slot};
ghost use Rattle.jc_seats.specs.PlayerTurns.{HasHappened, HasLeft, HasTakenPlan, IsOfLanes, IsOwnEvent};
ghost use Rattle.jc_core.specs.declared.holding.Work.{Work};

use crate::kept::Kept;
use crate::naming::Naming;
use crate::next_action::NextAction;
use crate::players::Player;
use jc_core::{Actor, ApplyFault, Work};
use jc_types::Event;

// Whose lane the next one is. It is counted along, since a division for each lane takes long.
fn owner_after(owner: u32, threads: u32) -> u32
    requires { owner < threads }
    ensures { result ≡ (owner + 1) % threads }
{
    if owner + 1 == threads { 0 } else { owner + 1 }
}

impl<J: Naming> Kept<J> {
    // The first command that may come of the player's lanes.
    fn next_of_lanes(&self, player: &Player) -> Option<Event>
        ensures can_come { IfSome result (λ event. CanCome self.now.seen event) }
        ensures own { IfSome result (λ event. IsOfLanes player.now event) }
        ensures none { result ≡ None → ¬ HasLeft player.now self.now.seen }
    {
        let lanes = self.lanes();
        let mut owner = 0;
        for number in 0..lanes {
            if owner == player.number {
                let found = self.cluster.available(Actor::Lane(number as u8));
                if found.is_some() {
                    return found;
                }
            }
            owner = owner_after(owner, player.threads);
        }
        None
    }

    // The player's next event: of the kind that it tries, or else of the other one.
    fn next_of(&self, player: &Player) -> Option<Event>
        ensures can_come { IfSome result (λ event. CanCome self.now.seen event) }
        ensures own { IfSome result (λ event. IsOwnEvent player.now self.now event) }
        ensures lanes { result ≡ None → ¬ HasLeft player.now self.now.seen }
        ensures system { result ≡ None
            → first_event (unheld_seen self.now.slots self.now.seen) ≡ None }
    {
        if player.tries_lanes {
            match self.next_of_lanes(player) {
                Some(event) => Some(event),
                None => self.cluster.next_event(),
            }
        } else {
            match self.cluster.next_event() {
                Some(event) => Some(event),
                None => self.next_of_lanes(player),
            }
        }
    }

    // Does the event. The player tries the other kind next, but lanes that wait only where the system has nothing.
    //
    // As `apply` where it is not done; nothing has changed then.
    fn go(&mut self, player: &mut Player, event: Event) -> Result<(), ApplyFault>
        requires { CanCome self.old.seen event }
        ensures happened { OnOk result (HasHappened event self.old self.new) }
        ensures kept { OnErr result (self.new ≡ self.old) }
        ensures history_full { result ≡ Err HistoryFull
            → self.old.seen.shape.events ≤ length self.old.seen.pasts }
        ensures number { player.new.number ≡ player.old.number }
        ensures threads { player.new.threads ≡ player.old.threads }
    {
        let is_system = matches!(event, Event::System(_));
        // Lanes that were tried first gave nothing where the system comes.
        player.lanes_wait = is_system && (player.tries_lanes || player.lanes_wait);
        player.tries_lanes = is_system && !player.lanes_wait;
        self.happen(event)
    }

    /// Does the first of these that the player can: it takes a plan to make; it does one event, a
    /// command of one of its lanes or the first that is available and not held, the one kind after
    /// the other; it is to wait, where a register is held; it is to end.
    ///
    /// # Errors
    /// `HistoryFull` only where the history has as many events as the shape allows; `Want` where
    /// there is no memory. Nothing has changed then, but for which kind is tried next.
    pub fn turn(&mut self, player: &mut Player) -> Result<NextAction<Work>, ApplyFault>
        ensures plan { IfOk result (λ next. (work : Work) → next ≡ NextAction.Plan work
            → HasTakenPlan player.old work self.old self.new) }
        ensures plannable { IfOk result (λ next. (work : Work) → next ≡ NextAction.Plan work
            → IsSome work.basis.job → CanPlan work.basis) }
        ensures went { IfOk result (λ next. next ≡ NextAction.Went
            → (event : Event) × HasHappened event self.old self.new
            × IsOwnEvent player.old self.old event) }
        ensures waits { IfOk result (λ next. next ≡ NextAction.Wait → (self.new ≡ self.old)
            × (has_holders self.old.slots ≡ true)
            × (first_event (unheld_seen self.old.slots self.old.seen) ≡ None)
            × ¬ HasLeft player.old self.old.seen) }
        ensures ends { IfOk result (λ next. next ≡ NextAction.End → (self.new ≡ self.old)
            × (is_quiescent_seen self.old.seen ≡ true) × ¬ HasLeft player.old self.old.seen) }
        ensures first { IfOk result (λ next. ((work : Work) → next ≢ NextAction.Plan work)
            → find (is_open_slot self.old.seen) self.old.slots ≡ None) }
        ensures kept { OnErr result (self.new ≡ self.old) }
        ensures history_full { result ≡ Err HistoryFull
            → self.old.seen.shape.events ≤ length self.old.seen.pasts }
        ensures player { (player.new.number ≡ player.old.number)
            × (player.new.threads ≡ player.old.threads) }
    {
        match self.take_plan(player) {
            Ok(Some(work)) => return Ok(NextAction::Plan(work)),
            Ok(None) => {}
            Err(_) => return Err(ApplyFault::Want),
        }
        match self.next_of(player) {
            Some(event) => {
                self.go(player, event)?;
                Ok(NextAction::Went)
            }
            None if self.cluster.held() => Ok(NextAction::Wait),
            None => Ok(NextAction::End),
        }
    }
}
