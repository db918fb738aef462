//! The type of the machine, what can be read of it, and how its script grows.

ghost use Rattle.std.specs.Prelude.{◌≡◌, ◌<◌, ◌≤◌, ◌^◌, [], ◌+◌, IfOk, OnErr, OnOk, Some, is_none, is_some, length, reverse};
ghost use Rattle.std.specs.List.{AllByRecursion as Each};
ghost use Rattle.jc_types.specs.declared.actions.Command.{Command};
ghost use Rattle.jc_types.specs.declared.objects.Job.{Job};
ghost use Rattle.jc_types.specs.declared.objects.KeyNames.{KeyNames as Key};
ghost use Rattle.jc_runs.specs.ValidActions.{AreValidCommands, IsValidAction};
ghost use Rattle.jc_log.specs.Log.{job_in};
ghost use Rattle.jc_runs.specs.Once.{AllJustified, OnceAtEach};
ghost use Rattle.jc_history.specs.Diaries.{moment};
ghost use Rattle.jc_history.specs.Legal.{InLanes, IsHistory, IsLegal, next_command};
ghost use Rattle.jc_history.specs.Delays.{least_delay};
ghost use Rattle.jc_history.specs.Fresh.{may_begin};
ghost use Rattle.jc_history.specs.Nodes.{fate, node_step};
ghost use Rattle.jc_history.specs.Numbers.{number};
ghost use Rattle.jc_history.specs.Registers.{register};
ghost use Rattle.jc_bounds.specs.Histories.{HoldsBounds};
ghost use Rattle.jc_runs.specs.Seen.{deeds_seen, log_seen};
ghost use Rattle.jc_runs.specs.Teams.{KnowsNothing};
ghost use Rattle.jc_machine.specs.DiariesSeen.{diary_seen};
ghost use Rattle.jc_machine.specs.Longer.{extended};

use jc_bounds::one_controller_holds_the_bounds;
use jc_lanes::{Lanes, longer_scripts_keep_histories};
use jc_node::{Fates, node_step};
use jc_runs::{runs_count_once, runs_start};
use jc_store::Store;
use jc_team::{Member, Moment};
use jc_types::{Command, History, Kind, Pasts, Script, Shape, Version, Want};
use std::alloc::{AllocError, Global};
use std::marker::Model;

/// A machine: the store, the controllers with their workers, the moment, and the history of all
/// that happened. It is what the history says of the script and the shape, and the history is legal:
/// so the type keeps it.
///
/// A contract sees the script, the shape, and what happened, the newest first.
#[derive(Drop)]
pub struct Machine {
    pub(crate) alloc: Global,
    pub(crate) script: Script,
    pub(crate) shape: Shape,
    pub(crate) store: Store,
    pub(crate) members: Vec<Member>,
    // How the pods of keys are to end, by key.
    pub(crate) fates: Fates,
    pub(crate) clock: Moment,
    pub(crate) history: History,
    pub(crate) lanes: Lanes,
}

impl Model for Machine {
    ghost use Rattle.std.specs.Prelude.{reverse};
    ghost use Rattle.jc_runs.specs.Seen.{Seen};
    ghost use Rattle.jc_machine.specs.MachineKept.{IsMachineKept};

    ghost Value = { Seen };

    ghost view = { λ c. record {
      script = c.script;
      shape = c.shape;
      pasts = reverse c.history.events.items;
    } };

    ghost invariant = { λ c.
        IsMachineKept c.script c.shape (reverse c.history.events.items) c.lanes c.store c.members.items
        c.fates c.clock };
}

// Controllers that know nothing, with workers that have no syncs.
//
// `Want` where there is no memory for them.
fn fresh_members(alloc: Global, controllers: usize, workers: usize) -> Result<Vec<Member>, Want>
    ensures count { IfOk result (λ members. length members.items ≡ controllers) }
    ensures fresh { IfOk result (λ members. Each (KnowsNothing workers) members.items) }
{
    let mut members = Vec::new(alloc);
    for _ in 0..controllers {
        members.push(Member::new(alloc, workers)?)?;
    }
    Ok(members)
}

impl Machine {
    /// A machine of the shape in which nothing has happened, for the commands of the script.
    ///
    /// # Errors
    /// `Want` where there is no memory for it.
    pub fn new(alloc: Global, script: Script, shape: Shape) -> Result<Machine, Want>
        requires valid_actions { AreValidCommands script.commands }
        requires fits { length script.commands < 2 ^ 32 }
        requires few_events { shape.events ≤ 200000 }
        ensures { IfOk result (λ c. c ≡ record { script = script; shape = shape; pasts = [] }) }
    {
        runs_start();
        let members = fresh_members(alloc, shape.controllers as usize, shape.workers as usize)?;
        let lanes = Lanes::new(alloc, script.commands.as_slice())?;
        let history = History {
            events: Pasts::new(alloc),
        };
        Ok(Machine {
            alloc,
            script,
            shape,
            store: Store::new(alloc),
            members,
            fates: Fates::new(alloc),
            clock: shape.start,
            history,
            lanes,
        })
    }

    /// The script.
    pub fn script(&self) -> &Script
        ensures { result.now ≡ self.now.script }
    {
        &self.script
    }

    /// The shape.
    pub fn shape(&self) -> &Shape
        ensures { result.now ≡ self.now.shape }
    {
        &self.shape
    }

    /// What happened, in order. The history is legal, its commands came in the order of their
    /// lanes, and after each of its events each pod was counted once (KEP-2307). A sync took a
    /// finalizer of a pod of a Job that is there only where the pod was judged before, or is
    /// ignored, was active and was let go, or has succeeded and its index was complete or past the
    /// completions: so no ended pod that needs a count lost it uncounted, but by a command.
    ///
    /// Where the shape has a single controller: no pod was made beyond a Job's parallelism (batch/v1), since
    /// each pod fitted when it was made, also one whose reply was lost. And a Job
    /// that has finished stayed finished: from the write that set Complete or Failed on, while the Job
    /// was there, its status did not change, none of its pods was open or had its finalizer, and none
    /// was made.
    pub fn history(&self) -> &History
        ensures events { reverse result.now.events.items ≡ self.now.pasts }
        ensures follows { IsHistory self.now.script self.now.shape result.now }
        ensures legal { IsLegal self.now.shape (deeds_seen self.now) }
        ensures lanes { InLanes self.now.script.commands self.now.pasts }
        ensures few_events { length self.now.pasts ≤ self.now.shape.events }
        ensures once { OnceAtEach (deeds_seen self.now) (log_seen self.now) }
        ensures justified { (k : Key) (job : Job) → job_in k (log_seen self.now) ≡ Some job
            → AllJustified job (deeds_seen self.now) (log_seen self.now) }
        ensures bounds { self.now.shape.controllers ≡ 1
            → HoldsBounds self.now.shape (deeds_seen self.now) }
    {
        runs_count_once();
        one_controller_holds_the_bounds();
        &self.history
    }

    /// The store. Its log is what the history says.
    pub fn store(&self) -> &Store
        ensures { result.now ≡ log_seen self.now }
    {
        &self.store
    }

    /// The moment.
    pub fn moment(&self) -> Moment
        ensures { result ≡ moment self.now.shape (deeds_seen self.now) }
    {
        self.clock
    }

    /// Up to which version the controller's cache of the kind has seen the log; `None` exactly where
    /// the cache has no number.
    pub fn cache_at(&self, controller: u32, kind: Kind) -> Option<Version>
        requires { controller < self.now.shape.controllers }
        ensures { result ≡ number kind (diary_seen self.now controller) }
    {
        self.members[controller as usize].cache_at(kind)
    }

    /// Whether the controller's worker has no sync.
    pub fn is_free(&self, controller: u32, worker: u32) -> bool
        requires of_shape { controller < self.now.shape.controllers }
        requires worker { worker < self.now.shape.workers }
        ensures { result ≡ is_none (register worker (diary_seen self.now controller)) }
    {
        self.members[controller as usize].is_free(worker as usize)
    }

    /// Whether the controller's next begin by a free worker starts a sync. Where both caches have seen the
    /// whole log, each key that waits may begin, and is not looked up.
    pub fn may_begin(&self, controller: u32) -> bool
        requires { controller < self.now.shape.controllers }
        ensures { result ≡ may_begin (diary_seen self.now controller) (log_seen self.now) }
    {
        let member = &self.members[controller as usize];
        if member.is_at(self.store.log_len()) {
            member.has_key()
        } else {
            member.may_begin()
        }
    }

    /// The earliest moment at which a key of the controller is due; `None` exactly where none is
    /// delayed.
    pub fn next_delay(&self, controller: u32) -> Option<Moment>
        requires { controller < self.now.shape.controllers }
        ensures { result ≡ least_delay (diary_seen self.now controller) }
    {
        self.members[controller as usize].next_delay()
    }

    /// The place in the script of the lane's next command; `None` exactly where the lane is used up.
    pub fn next_command(&self, lane: u8) -> Option<u32>
        ensures { result ≡ next_command self.now.script.commands lane self.now.pasts }
    {
        self.lanes.next_of(lane)
    }

    /// Whether the node has something to do.
    pub fn node_has_step(&self) -> bool
        ensures { result
            ≡ is_some (node_step (log_seen self.now) (fate (deeds_seen self.now))) }
    {
        node_step(&self.store, &self.fates).is_some()
    }

    /// Puts the command at the end of the script, as its lane's last one. What happened stays.
    ///
    /// # Errors
    /// `Want` where there is no memory; the machine is then as before.
    pub fn extend(&mut self, command: Command) -> Result<(), Want>
        requires valid_action { IsValidAction command.action }
        requires fits { length self.old.script.commands + 1 < 2 ^ 32 }
        ensures ok { OnOk result (self.new ≡ extended self.old command) }
        ensures kept { OnErr result (self.new ≡ self.old) }
    {
        longer_scripts_keep_histories();
        let place = self.script.commands.len() as u32;
        let lane = command.lane;
        if self.script.commands.push(command).is_err() {
            return Err(AllocError);
        }
        self.lanes.append(lane, place);
        Ok(())
    }
}
