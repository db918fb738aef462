//! The commands on objects of the store: what their users do to Jobs, and what befalls pods.

ghost use Rattle.std.specs.Prelude.{◌≡◌, IfOk, OnErr, OnOk, length};
ghost use Rattle.jc_runs.specs.ValidSpecs.{IsValidSpec};
ghost use Rattle.jc_log.specs.Acts as does;
ghost use Rattle.jc_log.specs.Requests.{grown, report_phase_gives};
ghost use Rattle.jc_machine.specs.FinishedPods.{finished_gives};
ghost use Rattle.jc_machine.specs.Calls.{HappensOrKeeps, MayCome};

use crate::keeping::{record, record_told};
use crate::machine::Machine;
use jc_node::finish_change;
use jc_runs::allowed_updates_stay_valid;
use jc_store::Store;
use jc_team::{ReplyText, Told};
use jc_types::{
    Arc, Copied, Event, JobSpec, Key, PhaseChange, Reply, SpecChange, Uid, Version, Want,
};
use std::alloc::Global;

// Reports a pod's phase, and gives the reply with its text.
//
// `Want` where there is no memory for it; the log is then as before.
fn report_told(store: &mut Store, pod: Uid, change: &PhaseChange) -> Result<Told, Want>
    ensures reply { IfOk result (λ r. r ≡ (report_phase_gives store.old pod change.now).reply) }
    ensures log { OnOk result
        (store.new ≡ grown store.old (report_phase_gives store.old pod change.now).entry) }
    ensures kept { OnErr result (store.new ≡ store.old) }
{
    let reply = store.report_phase(pod, change)?;
    let Reply::NoContainer { name } = &reply else {
        return Ok(Told::of(reply));
    };
    let text = ReplyText::Name(name.copy()?);
    Ok(Told::with(reply, text))
}

// Finishes a pod, and gives the reply with its text.
//
// `Want` where there is no memory for it; the log is then as before.
fn finish_told(alloc: Global, store: &mut Store, pod: Uid, exit: i32) -> Result<Told, Want>
    ensures reply { IfOk result (λ r. r ≡ (finished_gives store.old pod exit).reply) }
    ensures log { OnOk result
        (store.new ≡ grown store.old (finished_gives store.old pod exit).entry) }
    ensures kept { OnErr result (store.new ≡ store.old) }
{
    let Some(found) = store.pod(pod) else {
        return Ok(Told::of(Reply::NotFound));
    };
    let change = finish_change(alloc, found, exit)?;
    report_told(store, pod, &change)
}

impl Machine {
    // A Job is created.
    //
    // `Want` where there is no memory for it; the machine is then as before.
    pub(crate) fn create(
        &mut self,
        event: Event,
        key: &Key,
        spec: Arc<JobSpec>,
    ) -> Result<ReplyText, Want>
        requires may { MayCome self.old event (does.Create key.now spec) }
        requires valid { IsValidSpec spec }
        ensures { HappensOrKeeps self.old self.new event result }
    {
        self.history.events.reserve(1)?;
        let reply = self.store.create_job(key, spec, self.clock)?;
        let length = self.store.log_len();
        let _log = self.store.log();
        let events = &mut self.history.events;
        let text = record(events, &mut self.lanes, &self.script, event, reply, length);
        Ok(text)
    }

    // A Job's specification is changed.
    //
    // `Want` where there is no memory for it; the machine is then as before.
    pub(crate) fn update(
        &mut self,
        event: Event,
        key: &Key,
        version: Option<Version>,
        change: &SpecChange,
    ) -> Result<ReplyText, Want>
        requires { MayCome self.old event (does.Update key.now version change.now) }
        ensures { HappensOrKeeps self.old self.new event result }
    {
        self.history.events.reserve(1)?;
        allowed_updates_stay_valid();
        let reply = self.store.update_spec(key, version, change)?;
        let length = self.store.log_len();
        let _log = self.store.log();
        let events = &mut self.history.events;
        let text = record(events, &mut self.lanes, &self.script, event, reply, length);
        Ok(text)
    }

    // A Job is deleted.
    //
    // `Want` where there is no memory for it; the machine is then as before.
    pub(crate) fn delete(&mut self, event: Event, key: &Key) -> Result<ReplyText, Want>
        requires { MayCome self.old event (does.Delete key.now) }
        ensures { HappensOrKeeps self.old self.new event result }
    {
        self.history.events.reserve(1)?;
        let reply = self.store.delete_job(key)?;
        let length = self.store.log_len();
        let _log = self.store.log();
        let events = &mut self.history.events;
        let text = record(events, &mut self.lanes, &self.script, event, reply, length);
        Ok(text)
    }

    // A pod is marked for deletion.
    //
    // `Want` where there is no memory for it; the machine is then as before.
    pub(crate) fn mark(&mut self, event: Event, pod: Uid) -> Result<ReplyText, Want>
        requires { MayCome self.old event (does.Mark pod) }
        ensures { HappensOrKeeps self.old self.new event result }
    {
        self.history.events.reserve(1)?;
        let reply = self.store.mark_pod(pod, self.clock)?;
        let length = self.store.log_len();
        let _log = self.store.log();
        let events = &mut self.history.events;
        let text = record(events, &mut self.lanes, &self.script, event, reply, length);
        Ok(text)
    }

    // A pod's finalizer is taken, whether or not the pod is counted.
    //
    // `Want` where there is no memory for it; the machine is then as before.
    pub(crate) fn strip(&mut self, event: Event, pod: Uid) -> Result<ReplyText, Want>
        requires { MayCome self.old event (does.Strip pod) }
        ensures { HappensOrKeeps self.old self.new event result }
    {
        self.history.events.reserve(1)?;
        let reply = self.store.release(pod)?;
        let length = self.store.log_len();
        let _log = self.store.log();
        let events = &mut self.history.events;
        let text = record(events, &mut self.lanes, &self.script, event, reply, length);
        Ok(text)
    }

    // A pod's phase is reported.
    //
    // `Want` where there is no memory for it; the machine is then as before.
    pub(crate) fn report(
        &mut self,
        event: Event,
        pod: Uid,
        change: &PhaseChange,
    ) -> Result<ReplyText, Want>
        requires { MayCome self.old event (does.Report pod change.now) }
        ensures { HappensOrKeeps self.old self.new event result }
    {
        self.history.events.reserve(1)?;
        let told = report_told(&mut self.store, pod, change)?;
        let length = self.store.log_len();
        let _log = self.store.log();
        let events = &mut self.history.events;
        let text = record_told(events, &mut self.lanes, &self.script, event, told, length);
        Ok(text)
    }

    // A pod finishes with the exit code.
    //
    // `Want` where there is no memory for it; the machine is then as before.
    pub(crate) fn finish(&mut self, event: Event, pod: Uid, exit: i32) -> Result<ReplyText, Want>
        requires { MayCome self.old event (does.Finish pod exit) }
        ensures { HappensOrKeeps self.old self.new event result }
    {
        self.history.events.reserve(1)?;
        let told = finish_told(self.alloc, &mut self.store, pod, exit)?;
        let length = self.store.log_len();
        let _log = self.store.log();
        let events = &mut self.history.events;
        let text = record_told(events, &mut self.lanes, &self.script, event, told, length);
        Ok(text)
    }
}
