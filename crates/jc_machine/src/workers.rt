//! The events of workers: Begin, Step, and the command PutFault; and the plans that are made beside the machine.

ghost use Rattle.std.specs.Prelude.{◌≡◌, ◌<◌, IfSome, IsSome, Some, length};
ghost use Rattle.std.specs.Option.{option_copied};
ghost use Rattle.jc_runs.specs.Bases.{CanPlan};
ghost use Rattle.jc_log.specs.Acts as does;
ghost use Rattle.jc_history.specs.Registers.{register};
ghost use Rattle.jc_machine.specs.DiariesSeen.{diary_seen};
ghost use Rattle.jc_machine.specs.Calls.{HappensOrKeeps, MayCome};

use crate::keeping::{record, record_told};
use crate::machine::Machine;
use jc_team::{Basis, Plan, ReplyText};
use jc_types::{Arc, Event, Fault, Reply, Want};

impl Machine {
    // A worker begins a sync of the first key of the line.
    //
    // `Want` where there is no memory for it; the machine is then as before.
    pub(crate) fn begin(
        &mut self,
        event: Event,
        controller: u32,
        worker: u32,
    ) -> Result<ReplyText, Want>
        requires { MayCome self.old event (does.Begin controller worker) }
        ensures { HappensOrKeeps self.old self.new event result }
    {
        self.history.events.reserve(1)?;
        let member = &mut self.members[controller as usize];
        let told = member.begin(worker as usize, self.clock)?;
        let length = self.store.log_len();
        let events = &mut self.history.events;
        let text = record_told(events, &mut self.lanes, &self.script, event, told, length);
        Ok(text)
    }

    // A worker makes the next request of its sync.
    //
    // `Want` where there is no memory for it; the machine is then as before.
    pub(crate) fn step(
        &mut self,
        event: Event,
        controller: u32,
        worker: u32,
    ) -> Result<ReplyText, Want>
        requires { MayCome self.old event (does.Step controller worker) }
        ensures { HappensOrKeeps self.old self.new event result }
    {
        self.history.events.reserve(1)?;
        let member = &mut self.members[controller as usize];
        let reply = member.step(self.alloc, &mut self.store, worker as usize, self.clock)?;
        let length = self.store.log_len();
        let _log = self.store.log();
        let events = &mut self.history.events;
        let text = record(events, &mut self.lanes, &self.script, event, reply, length);
        Ok(text)
    }

    // A fault befalls the next request of a worker.
    //
    // `Want` where there is no memory for it; the machine is then as before.
    pub(crate) fn put_fault(
        &mut self,
        event: Event,
        controller: u32,
        worker: u32,
        fault: Fault,
    ) -> Result<ReplyText, Want>
        requires { MayCome self.old event (does.PutFault controller worker fault) }
        ensures { HappensOrKeeps self.old self.new event result }
    {
        self.history.events.reserve(1)?;
        let member = &mut self.members[controller as usize];
        member.put_fault(worker as usize, fault);
        let reply = Reply::Done;
        let length = self.store.log_len();
        let events = &mut self.history.events;
        let text = record(events, &mut self.lanes, &self.script, event, reply, length);
        Ok(text)
    }

    /// What the worker's sync began with, as its register shares it; `None` exactly where the
    /// worker has no sync. It can be planned.
    pub fn basis(&self, controller: u32, worker: u32) -> Option<&Arc<Basis>>
        requires of_shape { controller < self.now.shape.controllers }
        requires worker { worker < self.now.shape.workers }
        ensures sync { option_copied result ≡ register worker (diary_seen self.now controller) }
        ensures plannable { IfSome result
            (λ basis. IsSome basis.now.job → CanPlan basis.now) }
    {
        self.members[controller as usize].basis(worker as usize)
    }

    /// Gives the worker's sync its plan, where it has none yet. Nothing else changes, and no reply: a
    /// sync that was given no plan makes the same one at its first step. It takes no memory.
    pub fn give_plan(&mut self, controller: u32, worker: u32, plan: Plan)
        requires of_shape { controller < self.old.shape.controllers }
        requires worker { worker < self.old.shape.workers }
        requires own { register worker (diary_seen self.old controller) ≡ Some plan.basis }
        ensures { self.new ≡ self.old }
    {
        self.members[controller as usize].give_plan(worker as usize, plan);
    }
}
