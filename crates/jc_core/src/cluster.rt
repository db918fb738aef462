//! The type of the cluster, and one event.

ghost use Rattle.std.specs.Prelude.{◌≡◌, ◌↔◌, ◌<◌, ◌≤◌, ◌^◌, [], Err, IfOk, IsTrue, OnErr, OnOk, false, length, map};
ghost use Rattle.jc_runs.specs.ValidActions.{AreValidCommands};
ghost use Rattle.jc_runs.specs.Seen.{Admits, act_seen, happened, reply_seen};
ghost use Rattle.jc_play.specs.Plays.{IsScriptFor};
ghost use Rattle.jc_play.specs.ApplyFault.TheVariants.{HistoryFull};
ghost use Rattle.jc_core.specs.Shared.{all_registers, fresh_slot, has_holders, slots_after};

use crate::registers::fresh_slots;
use crate::touches::{touch_all, touch_of_event};
use jc_play::{ApplyFault, Machine, Slot};
use jc_types::{Event, Reply, Script, Shape, Want};
use std::alloc::Global;
use std::marker::Model;

/// A cluster: the store, the controllers with their workers, the moment, the history of all that happened, and
/// which seat of a threaded run holds which worker's register. It is what the history says of the script and
/// the shape; the history is legal and counts once, and the script can be played on the shape: so the type
/// keeps it.
///
/// A contract sees what happened (`seen`: the script, the shape, and the events, the newest first) and the
/// registers as seats see them (`slots`, by controller and worker). Plans, holds and seats are not in the
/// history, and no reply depends on them.
#[derive(Drop)]
pub struct Cluster {
    pub(crate) machine: Machine,
    pub(crate) slots: Vec<Slot>,
}

impl Model for Cluster {
    ghost use Rattle.jc_core.specs.Shared.{KeepsShared, Shared};

    ghost Value = { Shared };

    ghost view = { λ c. record { seen = c.machine; slots = c.slots.items } };

    ghost invariant = { λ c. KeepsShared c.machine c.slots.items };
}

impl Cluster {
    /// A cluster of the shape in which nothing has happened, for the commands of the script. Nobody
    /// holds a register.
    ///
    /// # Errors
    /// `Want` where there is no memory for it.
    pub fn new(alloc: Global, script: Script, shape: Shape) -> Result<Cluster, Want>
        requires valid_actions { AreValidCommands script.commands }
        requires fits_shape { IsScriptFor script shape }
        requires fits { length script.commands < 2 ^ 32 }
        requires few_events { shape.events ≤ 200000 }
        ensures seen { IfOk result
            (λ c. c.seen ≡ record { script = script; shape = shape; pasts = [] }) }
        ensures slots { IfOk result (λ c. c.slots ≡ map fresh_slot (all_registers shape)) }
        ensures free { IfOk result (λ c. has_holders c.slots ≡ false) }
    {
        let slots = fresh_slots(alloc, &shape)?;
        let machine = Machine::new(alloc, script, shape)?;
        Ok(Cluster { machine, slots })
    }

    /// Whether the event may come next: a command is its lane's next one, the controller and the
    /// worker are of the shape, and a settle comes only where the cluster is quiescent.
    pub fn admits(&self, event: &Event) -> bool
        ensures { IsTrue result ↔ Admits self.now.seen event.now }
    {
        self.machine.admits(event)
    }

    /// Does the event, and answers it. It is kept with its reply and the length of the log; the
    /// earlier events stay, as do script and shape. A begin of a sync wants a plan from then on, a step of it
    /// wants none any more, and a restart frees its controller's registers; no other hold changes.
    ///
    /// # Errors
    /// `HistoryFull` exactly where the history has as many events as the shape allows; `Want` where
    /// there is no memory. Nothing has changed then.
    pub fn apply(&mut self, event: Event) -> Result<Reply, ApplyFault>
        requires { Admits self.old.seen event }
        ensures ok { OnOk result (self.new.seen ≡ happened self.old.seen event) }
        ensures reply { IfOk result (λ r. r ≡ reply_seen self.old.seen event) }
        ensures slots { OnOk result (self.new.slots ≡ slots_after (act_seen self.old.seen event)
            (reply_seen self.old.seen event) self.old.slots) }
        ensures free { has_holders self.old.slots ≡ false → has_holders self.new.slots ≡ false }
        ensures kept { OnErr result (self.new ≡ self.old) }
        ensures full { self.old.seen.shape.events ≤ length self.old.seen.pasts
            → result ≡ Err HistoryFull }
        ensures history_full { result ≡ Err HistoryFull
            → self.old.seen.shape.events ≤ length self.old.seen.pasts }
    {
        let deed = event;
        let touch = touch_of_event(self.machine.script(), deed);
        let reply = self.machine.apply(event)?;
        touch_all(&mut self.slots, self.machine.shape(), touch, &reply);
        Ok(reply)
    }

    /// Does the event as `apply` does; its reply is the newest in the history, and is not given.
    ///
    /// # Errors
    /// As `apply`. Nothing has changed then.
    pub fn happen(&mut self, event: Event) -> Result<(), ApplyFault>
        requires { Admits self.old.seen event }
        ensures ok { OnOk result (self.new.seen ≡ happened self.old.seen event) }
        ensures slots { OnOk result (self.new.slots ≡ slots_after (act_seen self.old.seen event)
            (reply_seen self.old.seen event) self.old.slots) }
        ensures free { has_holders self.old.slots ≡ false → has_holders self.new.slots ≡ false }
        ensures kept { OnErr result (self.new ≡ self.old) }
        ensures full { self.old.seen.shape.events ≤ length self.old.seen.pasts
            → result ≡ Err HistoryFull }
        ensures history_full { result ≡ Err HistoryFull
            → self.old.seen.shape.events ≤ length self.old.seen.pasts }
    {
        let deed = event;
        let touch = touch_of_event(self.machine.script(), deed);
        self.machine.happen(event)?;
        let Some(reply) = self.machine.last_reply() else {
            unreachable!()
        };
        touch_all(&mut self.slots, self.machine.shape(), touch, reply);
        Ok(())
    }
}
