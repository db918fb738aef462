//! One event: which ones may come next, and what is admitted is done.

ghost use Rattle.std.specs.Prelude.{◌≡◌, ◌↔◌, ◌<◌, ◌≤◌, Err, IfOk, IsTrue, OnErr, OnOk, length, map, slice_get};
ghost use Rattle.std.specs.Option.{option_copied};
ghost use Rattle.jc_runs.specs.ValidActions.{IsValidAction};
ghost use Rattle.jc_log.specs.Deeds.{act_of_action, act_of_command, act_of_event, act_of_system};
ghost use Rattle.jc_history.specs.Available.{is_quiescent};
ghost use Rattle.jc_history.specs.Legal.{MaySettle};
ghost use Rattle.jc_runs.specs.Seen.{Admits, act_seen, deeds_seen, happened, log_seen, reply_seen};
ghost use Rattle.jc_lanes.specs.Places.{AreUsedUp};
ghost use Rattle.jc_machine.specs.ShapeFits.{FitsShape, HasController, HasWorker};
ghost use Rattle.jc_machine.specs.Idle.{is_settle};
ghost use Rattle.jc_machine.specs.declared.apply.ApplyFault.TheVariants.{HistoryFull};
ghost use Rattle.jc_machine.specs.Calls.{HappensOrKeeps, MayCome};
ghost use Rattle.jc_machine.specs.SystemCommands.{as_system};
ghost use Rattle.jc_team.specs.RepliesAgain.{IsReplyText};

use crate::machine::Machine;
use jc_team::{ReplyText, again};
use jc_types::{Action1, Copied, Event, Reply, Same, Script, Seconds, Shape, Sys, Want};

// Whether the controller is one of the shape.
fn has_controller(shape: &Shape, controller: u32) -> bool
    ensures { IsTrue result ↔ HasController shape.now controller }
{
    controller < shape.controllers
}

// Whether the controller and the worker are of the shape.
fn has_worker(shape: &Shape, controller: u32, worker: u32) -> bool
    ensures { IsTrue result ↔ HasWorker shape.now controller worker }
{
    controller < shape.controllers && worker < shape.workers
}

// Whether the machine does what the command does, on its shape.
fn fits_action(shape: &Shape, action: &Action1) -> bool
    ensures { IsTrue result ↔ FitsShape shape.now (act_of_action action.now) }
{
    match action {
        Action1::List { controller, .. }
        | Action1::Deliver { controller, .. }
        | Action1::Restart { controller } => has_controller(shape, *controller),
        Action1::Begin { controller, worker }
        | Action1::Sync { controller, worker }
        | Action1::Step { controller, worker }
        | Action1::PutFault {
            controller,
            worker,
            ..
        } => has_worker(shape, *controller, *worker),
        _ => true,
    }
}

// Whether the machine does what the event of the system does, on its shape.
fn fits_system(shape: &Shape, system: &Sys) -> bool
    ensures { IsTrue result ↔ FitsShape shape.now (act_of_system system.now) }
{
    match system {
        Sys::List { controller, .. } | Sys::Deliver { controller, .. } => {
            has_controller(shape, *controller)
        }
        Sys::Begin { controller, worker } | Sys::Step { controller, worker } => {
            has_worker(shape, *controller, *worker)
        }
        Sys::Node | Sys::Clock { .. } => true,
    }
}

// Whether the machine does what the event does, on its shape.
fn fits_event(script: &Script, shape: &Shape, event: &Event) -> bool
    ensures { IsTrue result
        ↔ FitsShape shape.now (act_of_event script.now.commands event.now) }
{
    match event {
        Event::System(system) => fits_system(shape, system),
        Event::Command { number, .. } => {
            match script.commands.as_slice().get(*number as usize) {
                None => false,
                Some(command) => fits_action(shape, &command.action),
            }
        }
    }
}

// Whether the event is a settle.
fn is_settle(script: &Script, event: &Event) -> bool
    ensures { result ≡ is_settle (act_of_event script.now.commands event.now) }
{
    match event {
        Event::System(_) => false,
        Event::Command { number, .. } => {
            match script.commands.as_slice().get(*number as usize) {
                None => false,
                Some(command) => matches!(command.action, Action1::Settle),
            }
        }
    }
}

// The event of the system that does the same as the command, where there is one.
fn as_system(action: &Action1) -> Option<Sys>
    ensures { result ≡ as_system action.now }
{
    match action {
        Action1::Clock { add } => Some(Sys::Clock {
            add: Seconds::from_u64(*add),
        }),
        Action1::List { controller, kind } => Some(Sys::List {
            controller: *controller,
            kind: *kind,
        }),
        Action1::Deliver { controller, kind } => Some(Sys::Deliver {
            controller: *controller,
            kind: *kind,
        }),
        Action1::Begin { controller, worker } | Action1::Sync { controller, worker } => {
            Some(Sys::Begin {
                controller: *controller,
                worker: *worker,
            })
        }
        Action1::Step { controller, worker } => Some(Sys::Step {
            controller: *controller,
            worker: *worker,
        }),
        Action1::Node => Some(Sys::Node),
        _ => None,
    }
}

/// Why an event was not done.
#[derive(Drop)]
pub enum ApplyFault {
    /// The history has as many events as the shape allows.
    HistoryFull,
    /// There is no memory.
    Want,
}

impl Machine {
    // Whether nothing is available, where the event is a settle.
    fn may_settle(&self, event: &Event) -> bool
        ensures { IsTrue result ↔ MaySettle (act_seen self.now event.now)
            (is_quiescent self.now.shape (deeds_seen self.now) (log_seen self.now)) }
    {
        !is_settle(self.script(), event) || self.is_quiescent()
    }

    /// Whether the event may come next: a command is its lane's next one, the controller and the
    /// worker are of the shape, and a settle comes only where the machine is quiescent.
    pub fn admits(&self, event: &Event) -> bool
        ensures { IsTrue result ↔ Admits self.now event.now }
    {
        self.lanes.is_next(event)
            && fits_event(&self.script, &self.shape, event)
            && self.may_settle(event)
    }

    /// Whether the machine is of this script and this shape.
    pub fn of_script(&self, script: &Script, shape: &Shape) -> bool
        ensures { IsTrue result
            ↔ ((self.now.script ≡ script.now) × (self.now.shape ≡ shape.now)) }
    {
        self.script.is_same(script) && self.shape == *shape
    }

    /// Whether every lane of the script is used up.
    pub fn lanes_done(&self) -> bool
        ensures { IsTrue result ↔ AreUsedUp self.now.script.commands self.now.pasts }
    {
        self.lanes.are_used()
    }

    // What a command does.
    //
    // `Want` where there is no memory for it; the machine is then as before.
    fn act(&mut self, event: Event, action: &Action1) -> Result<ReplyText, Want>
        requires may { MayCome self.old event (act_of_action action.now) }
        requires valid_action { IsValidAction action.now }
        ensures { HappensOrKeeps self.old self.new event result }
    {
        match action {
            Action1::Create { key, spec } => {
                let shared = spec.copy()?;
                self.create(event, key, shared)
            }
            Action1::Update {
                key,
                version,
                change,
            } => self.update(event, key, *version, change),
            Action1::Delete { key } => self.delete(event, key),
            Action1::Mark { pod } => self.mark(event, *pod),
            Action1::Strip { pod } => self.strip(event, *pod),
            Action1::Finish { pod, exit } => self.finish(event, *pod, *exit),
            Action1::Report { pod, change } => self.report(event, *pod, change),
            Action1::Fate { key, ends } => self.fate(event, key, ends),
            Action1::Restart { controller } => self.restart(event, *controller),
            Action1::PutFault {
                controller,
                worker,
                fault,
            } => self.put_fault(event, *controller, *worker, *fault),
            Action1::Settle => self.settled(event),
            Action1::Clock { add } => self.clock(event, *add),
            Action1::List { controller, kind } => self.list(event, *controller, *kind),
            Action1::Deliver { controller, kind } => self.deliver(event, *controller, *kind),
            Action1::Begin { controller, worker } | Action1::Sync { controller, worker } => {
                self.begin(event, *controller, *worker)
            }
            Action1::Step { controller, worker } => self.step(event, *controller, *worker),
            Action1::Node => self.node(event),
        }
    }

    // The command at the place of the script. It is read of a copy of their list, which shares its memory.
    //
    // `Want` where there is no memory for it; the machine is then as before.
    fn command(&mut self, event: Event, number: u32) -> Result<ReplyText, Want>
        requires { MayCome self.old event (act_of_command (slice_get self.old.script.commands number)) }
        ensures { HappensOrKeeps self.old self.new event result }
    {
        let Some(command) = self.script.commands.as_slice().get(number as usize) else {
            unreachable!()
        };
        if let Some(system) = as_system(&command.action) {
            return self.system(event, system);
        }
        let commands = self.script.commands.copy()?;
        let Some(command) = commands.as_slice().get(number as usize) else {
            unreachable!()
        };
        self.act(event, &command.action)
    }

    // An event of the system.
    //
    // `Want` where there is no memory for it; the machine is then as before.
    #[inline(always)]
    fn system(&mut self, event: Event, system: Sys) -> Result<ReplyText, Want>
        requires { MayCome self.old event (act_of_system system) }
        ensures { HappensOrKeeps self.old self.new event result }
    {
        match system {
            Sys::List { controller, kind } => self.list(event, controller, kind),
            Sys::Deliver { controller, kind } => self.deliver(event, controller, kind),
            Sys::Begin { controller, worker } => self.begin(event, controller, worker),
            Sys::Step { controller, worker } => self.step(event, controller, worker),
            Sys::Clock { add } => self.clock(event, add.as_u64()),
            Sys::Node => self.node(event),
        }
    }

    // An event, where there is room for it.
    //
    // `Want` where there is no memory for it; the machine is then as before.
    #[inline(always)]
    fn occur(&mut self, event: Event) -> Result<ReplyText, Want>
        requires { MayCome self.old event (act_seen self.old event) }
        ensures { HappensOrKeeps self.old self.new event result }
    {
        let deed = event;
        match deed {
            Event::System(system) => self.system(event, system),
            Event::Command { number, .. } => self.command(event, number),
        }
    }

    // Does the event as `apply` does, and gives the text of its reply.
    fn happen_told(&mut self, event: Event) -> Result<ReplyText, ApplyFault>
        requires { Admits self.old event }
        ensures ok { OnOk result (self.new ≡ happened self.old event) }
        ensures text { IfOk result (λ text. IsReplyText (reply_seen self.old event) text) }
        ensures kept { OnErr result (self.new ≡ self.old) }
        ensures full { self.old.shape.events ≤ length self.old.pasts → result ≡ Err HistoryFull }
        ensures history_full { result ≡ Err HistoryFull → self.old.shape.events ≤ length self.old.pasts }
    {
        if self.history.events.len() >= self.shape.events as usize {
            return Err(ApplyFault::HistoryFull);
        }
        match self.occur(event) {
            Ok(text) => Ok(text),
            Err(_) => Err(ApplyFault::Want),
        }
    }

    /// The reply to the newest event; `None` exactly where nothing has happened.
    pub fn last_reply(&self) -> Option<&Reply>
        ensures { option_copied result ≡ slice_get (map (λ past. past.reply) self.now.pasts) 0 }
    {
        let past = self.history.events.as_slice().last()?;
        Some(&past.reply)
    }

    /// Does the event as `apply` does; its reply is the newest in the history, and is not given.
    ///
    /// # Errors
    /// As `apply`. Nothing has changed then.
    #[inline(always)]
    pub fn happen(&mut self, event: Event) -> Result<(), ApplyFault>
        requires { Admits self.old event }
        ensures ok { OnOk result (self.new ≡ happened self.old event) }
        ensures kept { OnErr result (self.new ≡ self.old) }
        ensures full { self.old.shape.events ≤ length self.old.pasts → result ≡ Err HistoryFull }
        ensures history_full { result ≡ Err HistoryFull → self.old.shape.events ≤ length self.old.pasts }
    {
        if self.history.events.len() >= self.shape.events as usize {
            return Err(ApplyFault::HistoryFull);
        }
        // Not by `happen_told`: a text that nobody wants would be moved once more at each event.
        match self.occur(event) {
            Ok(_) => Ok(()),
            Err(_) => Err(ApplyFault::Want),
        }
    }

    /// Does the event, and answers it. It is kept with its reply and the length of the log; the
    /// earlier events stay, as do script and shape.
    ///
    /// # Errors
    /// `HistoryFull` exactly where the history has as many events as the shape allows; `Want` where
    /// there is no memory. Nothing has changed then.
    pub fn apply(&mut self, event: Event) -> Result<Reply, ApplyFault>
        requires { Admits self.old event }
        ensures ok { OnOk result (self.new ≡ happened self.old event) }
        ensures reply { IfOk result (λ r. r ≡ reply_seen self.old event) }
        ensures kept { OnErr result (self.new ≡ self.old) }
        ensures full { self.old.shape.events ≤ length self.old.pasts → result ≡ Err HistoryFull }
        ensures history_full { result ≡ Err HistoryFull → self.old.shape.events ≤ length self.old.pasts }
    {
        let text = self.happen_told(event)?;
        let Some(reply) = self.last_reply() else {
            unreachable!()
        };
        Ok(again(reply, text))
    }
}
