//! The events Node and Clock, and the command Fate.

ghost use Rattle.std.specs.Prelude.{◌≡◌, ◌≢◌, [], IfOk, OnErr, OnOk, Some, length, map, option_map};
ghost use Rattle.jc_log.specs.Acts as does;
ghost use Rattle.jc_log.specs.Requests.{grown};
ghost use Rattle.jc_history.specs.Nodes.{node_step};
ghost use Rattle.jc_history.specs.Replies.{node_gives, version_in};
ghost use Rattle.jc_node.specs.Fated.{ends_at_key};
ghost use Rattle.jc_node.specs.NodeSteps.{step_of};
ghost use Rattle.jc_runs.specs.TextlessReplies.{HasNoText};
ghost use Rattle.jc_runs.specs.Teams.{clocked_team};
ghost use Rattle.jc_machine.specs.Calls.{HappensOrKeeps, MayCome};

use crate::keeping::record;
use crate::machine::Machine;
use jc_node::{Fates, NodeStep, change, node_step};
use jc_store::Store;
use jc_team::{Member, Moment, ReplyText};
use jc_types::{Copied, Ends, Event, Key, Reply, Version, Want};
use std::alloc::Global;

// The version that the reply tells, or else the old one.
fn version_in(reply: &Reply, old: Version) -> Version
    ensures { result ≡ version_in reply.now old }
{
    match reply {
        Reply::Written { version } | Reply::Unchanged { version } => *version,
        _ => old,
    }
}

// Reports what befell the pod of the node's next step.
//
// `Want` where there is no memory for it; the log is then as before.
fn report_step(
    alloc: Global,
    store: &mut Store,
    fates: &Fates,
    step: &NodeStep,
) -> Result<Reply, Want>
    requires { option_map step_of (node_step store.old (ends_at_key fates.now)) ≡ Some step.now }
    ensures reply { IfOk result (λ r. r
        ≡ (node_gives store.old (node_step store.old (ends_at_key fates.now))).reply) }
    ensures log { OnOk result (store.new
        ≡ grown store.old (node_gives store.old (node_step store.old (ends_at_key fates.now))).entry) }
    ensures kept { OnErr result (store.new ≡ store.old) }
{
    let Some(pod) = store.pod(step.pod) else {
        unreachable!()
    };
    let old = pod.version;
    let change = change(alloc, step, pod, fates)?;
    let phase = change.phase;
    let told = store.report_phase(step.pod, &change)?;
    Ok(Reply::NodeDone {
        pod: step.pod,
        phase,
        version: version_in(&told, old),
    })
}

// Does what the node does next.
//
// `Want` where there is no memory for it; the log is then as before.
fn step_node(alloc: Global, store: &mut Store, fates: &Fates) -> Result<Reply, Want>
    ensures reply { IfOk result (λ r. r
        ≡ (node_gives store.old (node_step store.old (ends_at_key fates.now))).reply) }
    ensures log { OnOk result (store.new
        ≡ grown store.old (node_gives store.old (node_step store.old (ends_at_key fates.now))).entry) }
    ensures no_text { IfOk result (λ r. HasNoText r) }
    ensures kept { OnErr result (store.new ≡ store.old) }
{
    match node_step(store, fates) {
        None => Ok(Reply::Idle),
        Some(step) => {
            let reply = report_step(alloc, store, fates, &step)?;
            Ok(reply)
        }
    }
}

// Moves the keys that are due to the queues, controller by controller. It takes no memory.
fn clock_all(members: &mut Vec<Member>, now: Moment)
    ensures { members.new.items ≡ map (clocked_team now) members.old.items }
{
    for i in 0..members.len() {
        members[i].clock(now);
    }
}

impl Machine {
    // The node takes its next step.
    //
    // `Want` where there is no memory for it; the machine is then as before.
    pub(crate) fn node(&mut self, event: Event) -> Result<ReplyText, Want>
        requires { MayCome self.old event does.Node }
        ensures { HappensOrKeeps self.old self.new event result }
    {
        self.history.events.reserve(1)?;
        let reply = step_node(self.alloc, &mut self.store, &self.fates)?;
        let length = self.store.log_len();
        let _log = self.store.log();
        let events = &mut self.history.events;
        let text = record(events, &mut self.lanes, &self.script, event, reply, length);
        Ok(text)
    }

    // Seconds pass.
    //
    // `Want` where there is no memory for it; the machine is then as before.
    pub(crate) fn clock(&mut self, event: Event, add: u64) -> Result<ReplyText, Want>
        requires { MayCome self.old event (does.Clock add) }
        ensures { HappensOrKeeps self.old self.new event result }
    {
        self.history.events.reserve(1)?;
        let length = self.store.log_len();
        let events = &mut self.history.events;
        match self.clock.plus(add) {
            None => {
                let reply = Reply::ClockEnd;
                let text = record(events, &mut self.lanes, &self.script, event, reply, length);
                Ok(text)
            }
            Some(moment) => {
                clock_all(&mut self.members, moment);
                self.clock = moment;
                let reply = Reply::Now { moment };
                let text = record(events, &mut self.lanes, &self.script, event, reply, length);
                Ok(text)
            }
        }
    }

    // It is decided how the pods of the key are to end.
    //
    // `Want` where there is no memory for it; the machine is then as before.
    pub(crate) fn fate(&mut self, event: Event, key: &Key, ends: &Ends) -> Result<ReplyText, Want>
        requires may { MayCome self.old event (does.Fate key.now ends.now) }
        requires some_ends { ends.now ≢ [] }
        ensures { HappensOrKeeps self.old self.new event result }
    {
        self.history.events.reserve(1)?;
        let ends_again = ends.copy()?;
        self.fates.set(key, ends_again)?;
        let reply = Reply::Done;
        let length = self.store.log_len();
        let events = &mut self.history.events;
        let text = record(events, &mut self.lanes, &self.script, event, reply, length);
        Ok(text)
    }
}
