//! A sync on one thread.

ghost use Rattle.std.specs.Prelude.{◌≡◌, ◌⊎◌, ◌<◌, ◌≤◌, Err, IfOk, OnErr, OnOk, false, is_none, length, true};
ghost use Rattle.jc_machine.specs.declared.apply.ApplyFault.TheVariants.{HistoryFull};
ghost use Rattle.jc_types.specs.declared.objects.Job.{Job};
ghost use Rattle.jc_types.specs.declared.objects.KeyNames.{KeyNames as Key};
ghost use Rattle.jc_types.specs.declared.replies.Reply.TheVariants.{Ended};
ghost use Rattle.jc_history.specs.Diaries.{moment};
ghost use Rattle.jc_history.specs.Legal.{IsLegal};
ghost use Rattle.jc_history.specs.Registers.{backoff, register};
ghost use Rattle.jc_runs.specs.QuietRuns.{IsAtNext};
ghost use Rattle.jc_runs.specs.Machines.{AllAskValid};
ghost use Rattle.jc_runs.specs.Seen.{deeds_seen, happened, log_seen, reply_seen};
ghost use Rattle.jc_machine.specs.DiariesSeen.{diary_seen};
ghost use Rattle.jc_machine.specs.SyncsSeen.{StartsCurrent, IsLast, IsSynced, StepsOn, StepsWithoutStatus, begin_event, next_seen, tells_begin};

use crate::apply::ApplyFault;
use crate::machine::Machine;
use jc_runs::{quiet_syncs_reach_the_next_status, valid_scripts_ask_valid};
use jc_types::{Event, Reply, Sys};

/// Whether the reply says that a sync began.
pub fn tells_begin(reply: &Reply) -> bool
    ensures { result ≡ tells_begin reply.now }
{
    matches!(reply, Reply::Begun { .. })
}

impl Machine {
    // The worker steps until it has no sync. The last reply is given, which is this one where there
    // is no step.
    //
    // `HistoryFull` only where the history has as many events as the shape allows, and a step is to
    // come; `Want` where there is no memory. The steps that were made are kept.
    fn step_through(
        &mut self,
        controller: u32,
        worker: u32,
        begun: Reply,
    ) -> Result<Reply, ApplyFault>
        requires of_shape { controller < self.old.shape.controllers }
        requires worker { worker < self.old.shape.workers }
        requires last { IsLast begun self.old.pasts }
        ensures steps { StepsOn controller worker self.old self.new }
        ensures last { IfOk result (λ r. IsLast r self.new.pasts) }
        ensures free { OnOk result
            (is_none (register worker (diary_seen self.new controller)) ≡ true) }
        ensures to_come { OnErr result
            (is_none (register worker (diary_seen self.new controller)) ≡ false) }
        ensures full { result ≡ Err HistoryFull → self.old.shape.events ≤ length self.new.pasts }
        ensures exactly { OnErr result
            (self.old.shape.events ≤ length self.new.pasts → result ≡ Err HistoryFull) }
    {
        let mut last = begun;
        'steps: while !self.is_free(controller, worker) {
            let step = Event::System(Sys::Step { controller, worker });
            last = self.apply(step)?;
        }
        Ok(last)
    }

    // What the type keeps: the history is legal, and the Jobs that it creates are valid.
    fn facts(&self)
        ensures legal { IsLegal self.now.shape (deeds_seen self.now) }
        ensures valid { AllAskValid (deeds_seen self.now) }
    {
        valid_scripts_ask_valid();
        let _ = &self.alloc;
    }

    /// The worker begins a sync and, where one began, steps until it has none. The last reply is
    /// given.
    ///
    /// Where the worker is free and meets no fault, both caches have seen the whole log, and the
    /// first key in line has a Job, the last reply is `Ended`: the Job then has the status that was
    /// next at the call, and no pod of it that had ended then and was not left over for a later sync is
    /// tracked. No status is written where the Job had that status.
    ///
    /// # Errors
    /// `HistoryFull` exactly where the history has as many events as the shape allows, and one is to
    /// come: the begin, where nothing happened, else a step of the sync that the worker still has.
    /// `Want` where there is no memory. The events that happened are kept.
    pub fn sync(&mut self, controller: u32, worker: u32) -> Result<Reply, ApplyFault>
        requires of_shape { controller < self.old.shape.controllers }
        requires worker { worker < self.old.shape.workers }
        ensures appended { IsSynced controller worker self.old self.new }
        ensures last { IfOk result (λ r. IsLast r self.new.pasts) }
        ensures begins { OnOk result
            (StepsOn controller worker (happened self.old (begin_event controller worker)) self.new) }
        ensures refused { OnOk result
            (tells_begin (reply_seen self.old (begin_event controller worker)) ≡ false
            → self.new ≡ happened self.old (begin_event controller worker)) }
        ensures free { OnOk result
            (tells_begin (reply_seen self.old (begin_event controller worker)) ≡ true
            → is_none (register worker (diary_seen self.new controller)) ≡ true) }
        ensures to_come { OnErr result ((self.new ≡ self.old)
            ⊎ (is_none (register worker (diary_seen self.new controller)) ≡ false)) }
        ensures full { result ≡ Err HistoryFull → self.old.shape.events ≤ length self.new.pasts }
        ensures exactly { OnErr result
            (self.old.shape.events ≤ length self.new.pasts → result ≡ Err HistoryFull) }
        ensures ended { IfOk result (λ r. (k : Key) (job : Job)
            → StartsCurrent self.old controller worker k job → r ≡ Ended) }
        ensures next { OnOk result ((k : Key) (job : Job)
            → StartsCurrent self.old controller worker k job
            → IsAtNext (log_seen self.new) (log_seen self.old)
            (moment self.old.shape (deeds_seen self.old))
            (backoff k (diary_seen self.old controller)) k job) }
        ensures no_status { OnOk result ((k : Key) (job : Job)
            → StartsCurrent self.old controller worker k job
            → next_seen self.old controller k job ≡ job.status
            → StepsWithoutStatus controller worker
            (happened self.old (begin_event controller worker)) self.new) }
    {
        quiet_syncs_reach_the_next_status();
        self.facts();
        let begun = self.apply(Event::System(Sys::Begin { controller, worker }))?;
        if !tells_begin(&begun) {
            return Ok(begun);
        }
        let last = self.step_through(controller, worker, begun)?;
        self.facts();
        Ok(last)
    }
}
