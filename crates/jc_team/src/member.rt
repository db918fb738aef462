//! A controller with its workers, and what each event of theirs does.

ghost use Rattle.std.specs.Prelude.{◌≡◌, ◌<◌, ◌-◌, ◌^◌, ◌↔◌, IfOk, IfSome, IsSome, IsTrue, OnErr, OnOk, None, Option, Some, is_none, is_some, map, set, slice_get, length, true};
ghost use Rattle.std.specs.Option.{option_copied, option_map};
ghost use Rattle.jc_states.specs.declared.bases.Basis.{Basis};
ghost use Rattle.jc_states.specs.Bases.{CanPlan};
ghost use Rattle.jc_states.specs.PodLists.{IsRising};
ghost use Rattle.jc_log.specs.Log.{jobs_in, pods_in};
ghost use Rattle.jc_log.specs.Requests.{grown};
ghost use Rattle.jc_cache.specs.Caches.{AreApart, HasFewPods};
ghost use Rattle.jc_queue.specs.Delayed.{first_of};
ghost use Rattle.jc_queue.specs.Queued.{has_key};
ghost use Rattle.jc_control.specs.Schedules.{MirrorsLog, log_end, number_of};
ghost use Rattle.jc_control.specs.ControllerCalls.{begun, can_begin};
ghost use Rattle.jc_control.specs.declared.begins.Begin.TheVariants.{Begun};
ghost use Rattle.jc_sync.specs.Steps.{Sync};
ghost use Rattle.jc_types.specs.declared.objects.Kind.TheVariants as kinds;
ghost use Rattle.jc_types.specs.declared.replies.Reply.TheVariants as reply;
ghost use Rattle.jc_runs.specs.Replies.{deliver_gives};
ghost use Rattle.jc_runs.specs.Teams.{KnowsNothing, begin_held, begin_registers, begin_reply, clocked_team, delivered_at, listed, stride_of};
ghost use Rattle.jc_runs.specs.TextlessReplies.{HasNoText};

use crate::places::put;
use crate::registers::{begin, close, start};
use crate::started::Started;
use crate::told::Told;
use jc_cache::listed_jobs_fill_the_table;
use jc_control::{Controller, caches_follow_the_log};
use jc_moment::Moment;
use jc_states::{Basis, Pods};
use jc_sync::Plan;
use jc_types::{Arc, Fault, Jobs, Kind, Reply, Version, Want};
use jc_watch::{Store, list_jobs, list_pods};
use std::alloc::Global;
use std::marker::Model;

/// A controller with its workers. Each worker has a register, which is free or has a sync, and may
/// have a fault that its next request meets.
#[derive(Drop)]
pub struct Member {
    controller: Controller,
    registers: Vec<Option<Started>>,
    faults: Vec<Option<Fault>>,
}

impl Model for Member {
    ghost use Rattle.jc_runs.specs.Teams.{Team};

    ghost Value = { Team };

    ghost view = { λ m. record {
      con = m.controller;
      registers = m.registers.items;
      faults = m.faults.items;
    } };
}

// The Jobs that are there, in ascending UID.
//
// `Want` where there is no memory for the list.
fn all_jobs(alloc: Global, store: &Store) -> Result<Jobs, Want>
    ensures jobs { IfOk result (λ jobs. jobs ≡ map (λ row. row.1) (jobs_in store.now)) }
    ensures apart { IfOk result (λ jobs. AreApart jobs) }
{
    listed_jobs_fill_the_table();
    let (jobs, _at) = list_jobs(alloc, store)?;
    Ok(jobs)
}

// The pods that are there, in ascending UID.
//
// `Want` where there is no memory for the list.
fn all_pods(alloc: Global, store: &Store) -> Result<Pods, Want>
    ensures pods { IfOk result (λ pods. pods ≡ pods_in store.now) }
    ensures rising { IfOk result (λ pods. IsRising pods) }
{
    let (pods, _at) = list_pods(alloc, store)?;
    Ok(pods)
}

impl Member {
    /// A controller that knows nothing, with workers that have neither syncs nor faults.
    ///
    /// # Errors
    /// `Want` where there is no memory for it.
    pub fn new(alloc: Global, workers: usize) -> Result<Member, Want>
        ensures { IfOk result (λ m. KnowsNothing workers m) }
    {
        let mut registers = Vec::new(alloc);
        let mut faults = Vec::new(alloc);
        for _ in 0..workers {
            registers.push(None)?;
            faults.push(None)?;
        }
        Ok(Member {
            controller: Controller::new(alloc),
            registers,
            faults,
        })
    }

    /// Up to which version the cache of the kind has seen the log; `None` exactly where it has no
    /// number.
    pub fn cache_at(&self, kind: Kind) -> Option<Version>
        ensures { result ≡ number_of kind self.now.con.schedule }
    {
        self.controller.at(kind)
    }

    /// Whether the worker has no sync.
    pub fn is_free(&self, worker: usize) -> bool
        requires { worker < length self.now.registers }
        ensures { (register : Option Sync) → slice_get self.now.registers worker ≡ Some register
            → result ≡ is_none register }
    {
        self.registers[worker].is_none()
    }

    /// What the worker's sync began with; `None` exactly where the worker has no sync. It can be
    /// planned.
    pub fn basis(&self, worker: usize) -> Option<&Arc<Basis>>
        requires { worker < length self.now.registers }
        ensures sync { (register : Option Sync)
            → slice_get self.now.registers worker ≡ Some register
            → option_copied result ≡ option_map (λ sync. sync.flight.basis) register }
        ensures plannable { IfSome result (λ basis. IsSome basis.now.job → CanPlan basis.now) }
    {
        match &self.registers[worker] {
            None => None,
            Some(started) => Some(started.basis()),
        }
    }

    /// Gives the worker's sync its plan, where it has none yet. Its requests are made of it at the first
    /// step. It takes no memory.
    pub fn give_plan(&mut self, worker: usize, plan: Plan)
        requires worker { worker < length self.old.registers }
        requires own { (sync : Sync) → slice_get self.old.registers worker ≡ Some (Some sync)
            → plan.basis ≡ sync.flight.basis }
        ensures { self.new ≡ self.old }
    {
        if let Some(started) = &mut self.registers[worker] {
            started.give(plan);
        }
    }

    /// Whether the next begin of a free worker starts a sync.
    pub fn may_begin(&self) -> bool
        ensures { result ≡ can_begin self.now.con }
    {
        self.controller.ready()
    }

    /// Whether both caches have seen the log up to this version, and no further.
    pub fn is_at(&self, end: Version) -> bool
        ensures { IsTrue result ↔ ((number_of kinds.Jobs self.now.con.schedule ≡ Some end)
            × (number_of kinds.Pods self.now.con.schedule ≡ Some end)) }
    {
        self.controller.at(Kind::Jobs) == Some(end) && self.controller.at(Kind::Pods) == Some(end)
    }

    /// Whether a key waits in the line.
    pub fn has_key(&self) -> bool
        ensures { result ≡ is_some (slice_get self.now.con.schedule.queue.line 0) }
    {
        self.controller.first().is_some()
    }

    /// The earliest moment at which a key is due; `None` exactly where none is delayed.
    pub fn next_delay(&self) -> Option<Moment>
        ensures { result
            ≡ option_map (λ row. row.1) (first_of self.now.con.schedule.delays.moments) }
    {
        self.controller.next_moment()
    }

    /// Takes the other in its place.
    pub fn become_other(&mut self, other: Member)
        ensures { self.new ≡ other }
    {
        put(self, other);
    }

    /// Puts a fault before the worker's next request, in place of one that is pending.
    pub fn put_fault(&mut self, worker: usize, fault: Fault)
        requires { worker < length self.old.faults }
        ensures con { self.new.con ≡ self.old.con }
        ensures registers { self.new.registers ≡ self.old.registers }
        ensures faults { self.new.faults ≡ set self.old.faults worker (Some fault) }
    {
        self.faults[worker] = Some(fault);
    }

    /// Moves the keys that are due to the queue. It takes no memory.
    pub fn clock(&mut self, now: Moment)
        ensures { self.new ≡ clocked_team now self.old }
    {
        self.controller.clock(now);
    }

    /// Lists a cache: it is filled with all that the store has.
    ///
    /// # Errors
    /// `Want` where there is no memory for it; all is then as before.
    pub fn list(&mut self, alloc: Global, store: &Store, kind: Kind) -> Result<Reply, Want>
        ensures reply { IfOk result (λ r. r ≡ reply.Listed (log_end store.now)) }
        ensures schedule { OnOk result
            (self.new.con.schedule ≡ listed self.old.con.schedule kind store.now) }
        ensures holds { OnOk result
            (MirrorsLog store.now self.old.con → MirrorsLog store.now self.new.con) }
        ensures registers { OnOk result (self.new.registers ≡ self.old.registers) }
        ensures faults { OnOk result (self.new.faults ≡ self.old.faults) }
        ensures kept { OnErr result (self.new ≡ self.old) }
    {
        caches_follow_the_log();
        let at = store.log_len();
        match kind {
            Kind::Jobs => {
                let jobs = all_jobs(alloc, store)?;
                self.controller.list_jobs(jobs, at)?;
                Ok(Reply::Listed { at })
            }
            Kind::Pods => {
                let pods = all_pods(alloc, store)?;
                self.controller.list_pods(pods, at)?;
                Ok(Reply::Listed { at })
            }
        }
    }

    /// Tells a cache of the next entry. One that has fallen out of the window is forgotten.
    ///
    /// # Errors
    /// `Want` where there is no memory for it; all is then as before.
    #[inline(always)]
    pub fn deliver(&mut self, store: &Store, window: u32, kind: Kind) -> Result<Reply, Want>
        requires few_pods { HasFewPods self.old.con.rows }
        ensures reply { IfOk result (λ r. MirrorsLog store.now self.old.con → r
            ≡ (deliver_gives store.now window (number_of kind self.old.con.schedule)).reply) }
        ensures schedule { OnOk result (MirrorsLog store.now self.old.con → self.new.con.schedule
            ≡ delivered_at store.now window self.old.con.schedule kind
            (number_of kind self.old.con.schedule)) }
        ensures holds { OnOk result
            (MirrorsLog store.now self.old.con → MirrorsLog store.now self.new.con) }
        ensures registers { OnOk result (self.new.registers ≡ self.old.registers) }
        ensures faults { OnOk result (self.new.faults ≡ self.old.faults) }
        ensures no_text { IfOk result (λ r. HasNoText r) }
        ensures kept { OnErr result (self.new ≡ self.old) }
    {
        let Some(number) = self.controller.at(kind) else {
            return Ok(Reply::NotSynced);
        };
        let end = store.log_len();
        let floor = Version(end.0.saturating_sub(window));
        if number.0 < floor.0 {
            self.controller.forget(kind);
            return Ok(Reply::Expired { floor });
        }
        if number.0 >= end.0 {
            return Ok(Reply::UpToDate);
        }
        let version = Version(number.0 + 1);
        let Some(entry) = store.entry(version) else {
            return Ok(Reply::UpToDate);
        };
        let _log = store.log();
        caches_follow_the_log();
        self.controller.deliver(kind, entry, version)?;
        Ok(Reply::Delivered { version })
    }

    /// Begins the sync of the first key of the line by the worker. Its plan is not made yet. The reply
    /// is given with its text.
    ///
    /// # Errors
    /// `Want` where there is no memory for it; all is then as before.
    pub fn begin(&mut self, worker: usize, now: Moment) -> Result<Told, Want>
        requires worker { worker < length self.old.registers }
        requires plans { (basis : Basis) → (begun now self.old.con).answer ≡ Begun basis
            → IsSome basis.job → CanPlan basis }
        ensures reply { IfOk result (λ r. r
            ≡ begin_reply (slice_get self.old.registers worker) (begun now self.old.con).answer) }
        ensures schedule { OnOk result (self.new.con.schedule
            ≡ begin_held (slice_get self.old.registers worker) self.old.con.schedule
            (begun now self.old.con).schedule) }
        ensures registers { OnOk result (self.new.registers
            ≡ begin_registers (slice_get self.old.registers worker) self.old.registers worker
            (begun now self.old.con).answer) }
        ensures jobs { OnOk result (self.new.con.jobs ≡ self.old.con.jobs) }
        ensures rows { OnOk result (self.new.con.rows ≡ self.old.con.rows) }
        ensures faults { OnOk result (self.new.faults ≡ self.old.faults) }
        ensures kept { OnErr result (self.new ≡ self.old) }
    {
        if self.registers[worker].is_some() {
            return Ok(Told::of(Reply::WorkerBusy));
        }
        let (told, sync) = begin(&mut self.controller, now)?;
        start(&mut self.registers, worker, sync);
        Ok(told)
    }

    /// Makes the next request of the worker's sync, and before it the plan, where it has none yet.
    ///
    /// # Errors
    /// `Want` where there is no memory for it; all is then as before.
    pub fn step(
        &mut self,
        alloc: Global,
        store: &mut Store,
        worker: usize,
        now: Moment,
    ) -> Result<Reply, Want>
        requires worker { worker < length self.old.registers }
        requires faulty { worker < length self.old.faults }
        requires busy { (sync : Sync) → slice_get self.old.registers worker ≡ Some (Some sync)
            → has_key sync.flight.basis.key self.old.con.schedule.queue.processing ≡ true }
        requires room { length store.old < 2 ^ 32 - 1 }
        ensures reply { IfOk result (λ r. r ≡ (stride_of store.old now self.old worker).reply) }
        ensures log { OnOk result
            (store.new ≡ grown store.old (stride_of store.old now self.old worker).entry) }
        ensures schedule { OnOk result
            (self.new.con.schedule ≡ (stride_of store.old now self.old worker).schedule) }
        ensures holds { OnOk result
            (MirrorsLog store.old self.old.con → MirrorsLog store.old self.new.con) }
        ensures registers { OnOk result (self.new.registers
            ≡ set self.old.registers worker (stride_of store.old now self.old worker).register) }
        ensures faults { OnOk result (self.new.faults
            ≡ set self.old.faults worker (stride_of store.old now self.old worker).fault) }
        ensures no_text { IfOk result (λ r. HasNoText r) }
        ensures kept { OnErr result (self.new ≡ self.old) }
        ensures log_kept { OnErr result (store.new ≡ store.old) }
    {
        let pending = self.faults[worker];
        let Some(started) = &mut self.registers[worker] else {
            return Ok(Reply::Idle);
        };
        let taken = started.step(alloc, &mut self.controller, store, pending, now)?;
        close(&mut self.registers, worker, taken.is_over);
        self.faults[worker] = taken.fault;
        Ok(taken.reply)
    }
}
