//! The cluster of a threaded run, as it stands behind the lock.

ghost use Rattle.std.specs.Prelude.{◌≡◌, ◌↔◌, ◌≤◌, ◌&&◌, Err, IfOk, IfSome, IsSome, IsTrue, None, OnErr, OnOk, Some, find, length};
ghost use Rattle.jc_types.specs.declared.runs.Event.{Event};
ghost use Rattle.jc_history.specs.Available.{IsOrderly};
ghost use Rattle.jc_runs.specs.Bases.{CanPlan};
ghost use Rattle.jc_runs.specs.Seen.{act_seen, deeds_seen, happened, reply_seen};
ghost use Rattle.jc_core.specs.Actors.{CanCome};
ghost use Rattle.jc_core.specs.ApplyFault.TheVariants.{HistoryFull};
ghost use Rattle.jc_history.specs.Registers.{register};
ghost use Rattle.jc_core.specs.DiariesSeen.{diary_seen};
ghost use Rattle.jc_core.specs.Shared.{is_open_slot, put_back_by, slots_after, submitted_by};
ghost use Rattle.jc_core.specs.Since.{seen_at};
ghost use Rattle.jc_seats.specs.Hands.{IsAwaited};
ghost use Rattle.jc_seats.specs.Names.{AreUsedFrom, IsOfName};
ghost use Rattle.jc_seats.specs.PlayerTurns.{HasTakenPlan, wants_none};
ghost use Rattle.jc_core.specs.Places.{most_lanes};

use crate::lanes::{lanes_left, lanes_of};
use crate::naming::Naming;
use crate::players::Player;
use jc_core::{ApplyFault, Cluster, Work, available_events_keep_the_order};
use jc_plan::Plan;
use jc_turn::Booked;
use jc_types::{Event, History, Reply, Sys, Want};
use std::marker::{Model, PhantomData};

/// The cluster of a threaded run. It keeps what the type of the cluster keeps, that the history is orderly,
/// and that script and shape are the named ones.
#[derive(Drop)]
pub struct Kept<J: Naming> {
    pub(crate) cluster: Cluster,
    // Each lane from this one on is used up: a seat asks none of them.
    lanes: u32,
    // Whether it is known that no register that nobody holds wants a plan: then a seat looks at none.
    planned: bool,
    of: PhantomData<J>,
}

impl<J: Naming> Model for Kept<J> {
    ghost use Rattle.std.specs.Prelude.{◌≡◌, IsTrue, false};
    ghost use Rattle.jc_core.specs.Shared.{Shared, is_unplanned};
    ghost use Rattle.jc_seats.specs.Names.{KeepsRun, IsOfName};

    ghost Value = { Shared };

    ghost view = { λ k. k.cluster };

    ghost invariant = { λ k. KeepsRun k.lanes k.cluster.seen
        × IsOfName J.script J.shape k.cluster.seen
        × (IsTrue k.planned → is_unplanned k.cluster.slots ≡ false) };
}

/// A cluster to be shared. It takes no memory, and changes nothing of the cluster.
pub fn keep<J: Naming>(cluster: Cluster) -> Kept<J>
    requires named { IsOfName J.script J.shape cluster.seen }
    requires orderly { IsOrderly cluster.seen.shape (deeds_seen cluster.seen) }
    ensures { result ≡ cluster }
{
    let lanes = lanes_of(cluster.script().commands.as_slice());
    Kept {
        cluster,
        lanes,
        planned: false,
        of: PhantomData,
    }
}

// Whether the event is one of the system after which no register wants a plan that wanted none before.
fn wants_none(event: &Event) -> bool
    ensures { result ≡ wants_none event.now }
{
    match event {
        Event::System(Sys::Begin { .. }) | Event::Command { .. } => false,
        Event::System(_) => true,
    }
}

// Whether it is known after the event that no register wants a plan, where it was known before or not.
fn stays_planned(planned: bool, event: &Event) -> bool
    ensures { result ≡ (planned && wants_none event.now) }
{
    planned && wants_none(event)
}

impl<J: Naming> Booked for Kept<J> {
    ghost use Rattle.std.specs.Prelude.{reverse};

    ghost pasts = { λ k. reverse k.seen.pasts };

    fn history(&self) -> &History {
        self.cluster.history()
    }
}

impl<J: Naming> Kept<J> {
    /// The cluster.
    pub fn cluster(&self) -> &Cluster
        ensures { result.now ≡ self.now }
    {
        &self.cluster
    }

    /// The cluster, of which nothing has changed. Its history is orderly.
    pub fn into_cluster(self) -> Cluster
        ensures cluster { result ≡ self }
        ensures named { IsOfName J.script J.shape result.seen }
        ensures orderly { IsOrderly result.seen.shape (deeds_seen result.seen) }
    {
        self.cluster
    }

    /// What its type keeps: whose cluster it is, and that its history is orderly.
    pub fn keeps(&self)
        ensures named { IsOfName J.script J.shape self.now.seen }
        ensures orderly { IsOrderly self.now.seen.shape (deeds_seen self.now.seen) }
    {
        let _ = &self.cluster;
    }

    /// Does the event, and answers it. An orderly history stays orderly.
    ///
    /// # Errors
    /// `HistoryFull` exactly where the history has as many events as the shape allows; `Want` where there is no
    /// memory. Nothing has changed then.
    pub fn apply(&mut self, event: Event) -> Result<Reply, ApplyFault>
        requires { CanCome self.old.seen event }
        ensures ok { OnOk result (self.new.seen ≡ happened self.old.seen event) }
        ensures reply { IfOk result (λ r. r ≡ reply_seen self.old.seen event) }
        ensures slots { OnOk result (self.new.slots ≡ slots_after (act_seen self.old.seen event)
            (reply_seen self.old.seen event) self.old.slots) }
        ensures kept { OnErr result (self.new ≡ self.old) }
        ensures full { self.old.seen.shape.events ≤ length self.old.seen.pasts
            → result ≡ Err HistoryFull }
        ensures history_full { result ≡ Err HistoryFull
            → self.old.seen.shape.events ≤ length self.old.seen.pasts }
    {
        available_events_keep_the_order();
        self.planned = false;
        let reply = self.cluster.apply(event)?;
        self.lanes = lanes_left(&self.cluster, self.lanes);
        Ok(reply)
    }

    // Takes the first plan for the player to make, as `Cluster::take_plan`. Where it is known that there is none,
    // no register is looked at.
    pub(crate) fn take_plan(&mut self, player: &Player) -> Result<Option<Work>, Want>
        ensures taken { IfOk result (λ found. IfSome found (λ work.
            HasTakenPlan player.now work self.old self.new)) }
        ensures plannable { IfOk result (λ found. IfSome found (λ work.
            IsSome work.basis.job → CanPlan work.basis)) }
        ensures none { IfOk result (λ found. found ≡ None → self.new ≡ self.old) }
        ensures first { IfOk result (λ found. found ≡ None
            → find (is_open_slot self.old.seen) self.old.slots ≡ None) }
        ensures kept { OnErr result (self.new ≡ self.old) }
    {
        if self.planned {
            return Ok(None);
        }
        let found = self.cluster.take_plan(player.number)?;
        self.planned = found.is_none() && !self.cluster.is_unplanned();
        Ok(found)
    }

    // Does the event as `apply` does, and gives no reply.
    pub(crate) fn happen(&mut self, event: Event) -> Result<(), ApplyFault>
        requires { CanCome self.old.seen event }
        ensures ok { OnOk result (self.new.seen ≡ happened self.old.seen event) }
        ensures slots { OnOk result (self.new.slots ≡ slots_after (act_seen self.old.seen event)
            (reply_seen self.old.seen event) self.old.slots) }
        ensures kept { OnErr result (self.new ≡ self.old) }
        ensures full { self.old.seen.shape.events ≤ length self.old.seen.pasts
            → result ≡ Err HistoryFull }
        ensures history_full { result ≡ Err HistoryFull
            → self.old.seen.shape.events ≤ length self.old.seen.pasts }
    {
        available_events_keep_the_order();
        let planned = stays_planned(self.planned, &event);
        self.planned = false;
        self.cluster.happen(event)?;
        self.lanes = lanes_left(&self.cluster, self.lanes);
        self.planned = planned;
        Ok(())
    }

    // Hands in a plan, as `Cluster::submit_since`, and answers whether it was kept.
    pub(crate) fn submit(
        &mut self,
        seat: u32,
        controller: u32,
        worker: u32,
        plan: Plan,
        events: usize,
    ) -> bool
        requires begun { register worker (diary_seen (seen_at events self.old.seen) controller)
            ≡ Some plan.basis }
        ensures exactly { IsTrue result
            ↔ IsAwaited seat controller worker (Some plan.basis) self.old }
        ensures slots { self.new.slots
            ≡ submitted_by seat controller worker result self.old.slots }
        ensures seen { self.new.seen ≡ self.old.seen }
    {
        self.planned = false;
        self.cluster
            .submit_since(seat, controller, worker, plan, events)
    }

    // Where the seat holds the register, it does no longer.
    pub(crate) fn put_back(&mut self, seat: u32, controller: u32, worker: u32)
        ensures slots { self.new.slots ≡ put_back_by seat controller worker self.old.slots }
        ensures seen { self.new.seen ≡ self.old.seen }
    {
        self.planned = false;
        self.cluster.put_back(seat, controller, worker);
    }

    // From which lane on each is used up: its type keeps it.
    pub(crate) fn lanes(&self) -> u32
        ensures used { AreUsedFrom result self.now.seen }
        ensures few_lanes { result ≤ most_lanes }
    {
        self.lanes
    }
}
