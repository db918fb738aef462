//! What can be read of a cluster.

ghost use Rattle.std.specs.Prelude.{◌≡◌, ◌↔◌, ◌≤◌, IsTrue, Some, length, reverse};
ghost use Rattle.jc_types.specs.declared.objects.Job.{Job};
ghost use Rattle.jc_types.specs.declared.objects.KeyNames.{KeyNames as Key};
ghost use Rattle.jc_log.specs.Log.{job_in};
ghost use Rattle.jc_history.specs.Diaries.{moment};
ghost use Rattle.jc_history.specs.Legal.{InLanes, IsHistory, IsLegal, next_command};
ghost use Rattle.jc_bounds.specs.Histories.{HoldsBounds};
ghost use Rattle.jc_runs.specs.Once.{AllJustified, OnceAtEach};
ghost use Rattle.jc_runs.specs.Seen.{deeds_seen, log_seen};
ghost use Rattle.jc_play.specs.Places.{AreUsedUp};
ghost use Rattle.jc_play.specs.Plays.{IsScriptFor};

use crate::cluster::Cluster;
use jc_play::{Machine, Moment, Store};
use jc_types::{History, Script, Shape};

impl Cluster {
    /// The machine: what happened, without the registers.
    pub fn machine(&self) -> &Machine
        ensures { result.now ≡ self.now.seen }
    {
        &self.machine
    }

    /// The machine, once no seat has a register to hold: these are given up.
    pub fn into_machine(self) -> Machine
        ensures { result ≡ self.seen }
    {
        let Cluster { machine, slots: _ } = self;
        machine
    }

    /// The script. It can be played on the shape.
    pub fn script(&self) -> &Script
        ensures script { result.now ≡ self.now.seen.script }
        ensures fits_shape { IsScriptFor self.now.seen.script self.now.seen.shape }
    {
        self.machine.script()
    }

    /// The shape. Its history has at most 200,000 events.
    pub fn shape(&self) -> &Shape
        ensures shape { result.now ≡ self.now.seen.shape }
        ensures few_events { self.now.seen.shape.events ≤ 200000 }
    {
        self.machine.shape()
    }

    /// What happened, in order. The history is legal, its commands came in the order of their
    /// lanes, and after each of its events each pod was counted once (KEP-2307). A sync took a
    /// finalizer of a pod of a Job that is there only where the pod was judged before, or is
    /// ignored, was active and was let go, or has succeeded and its index was complete or past the
    /// completions: so no ended pod that needs a count lost it uncounted, but by a command.
    ///
    /// Where the shape has a single controller: a pod was made only where its Job, as the pod's sync saw
    /// it, had fewer than may run at once (batch/v1), also one whose reply was lost. And a Job
    /// that has finished stayed finished: from the write that set Complete or Failed on, while the Job
    /// was there, its status did not change, none of its pods was open or had its finalizer, and none
    /// was made.
    pub fn history(&self) -> &History
        ensures events { reverse result.now.events.items ≡ self.now.seen.pasts }
        ensures follows { IsHistory self.now.seen.script self.now.seen.shape result.now }
        ensures legal { IsLegal self.now.seen.shape (deeds_seen self.now.seen) }
        ensures lanes { InLanes self.now.seen.script.commands self.now.seen.pasts }
        ensures few_events { length self.now.seen.pasts ≤ self.now.seen.shape.events }
        ensures once { OnceAtEach (deeds_seen self.now.seen) (log_seen self.now.seen) }
        ensures justified { (k : Key) (job : Job)
            → job_in k (log_seen self.now.seen) ≡ Some job
            → AllJustified job (deeds_seen self.now.seen) (log_seen self.now.seen) }
        ensures bounds { self.now.seen.shape.controllers ≡ 1
            → HoldsBounds self.now.seen.shape (deeds_seen self.now.seen) }
    {
        self.machine.history()
    }

    /// The store. Its log is what the history says.
    pub fn store(&self) -> &Store
        ensures { result.now ≡ log_seen self.now.seen }
    {
        self.machine.store()
    }

    /// The moment.
    pub fn moment(&self) -> Moment
        ensures { result ≡ moment self.now.seen.shape (deeds_seen self.now.seen) }
    {
        self.machine.moment()
    }

    /// Whether the cluster is of this script and this shape.
    pub fn of_script(&self, script: &Script, shape: &Shape) -> bool
        ensures { IsTrue result
            ↔ ((self.now.seen.script ≡ script.now) × (self.now.seen.shape ≡ shape.now)) }
    {
        self.machine.of_script(script, shape)
    }

    /// The place in the script of the lane's next command; `None` exactly where the lane is used up.
    pub fn next_command(&self, lane: u8) -> Option<u32>
        ensures { result ≡ next_command self.now.seen.script.commands lane self.now.seen.pasts }
    {
        self.machine.next_command(lane)
    }

    /// Whether every lane of the script is used up.
    pub fn lanes_done(&self) -> bool
        ensures { IsTrue result ↔ AreUsedUp self.now.seen.script.commands self.now.seen.pasts }
    {
        self.machine.lanes_done()
    }
}
