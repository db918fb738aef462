//! A sync of a worker, before its plan is made and after.

ghost use Rattle.std.specs.Prelude.{◌≡◌, ◌<◌, ◌-◌, ◌^◌, IfOk, IsSome, List, OnErr, OnOk, Some, false, is_some, length, true};
ghost use Rattle.jc_types.specs.declared.objects.Entry.{Entry};
ghost use Rattle.jc_states.specs.Bases.{CanPlan};
ghost use Rattle.jc_log.specs.Requests.{grown};
ghost use Rattle.jc_queue.specs.Queued.{has_key};
ghost use Rattle.jc_control.specs.Schedules.{MirrorsLog};
ghost use Rattle.jc_sync.specs.Sends.{new_sync};
ghost use Rattle.jc_sync.specs.Steps.{stepped};
ghost use Rattle.jc_sync.specs.AllRegisters.{register_of};
ghost use Rattle.jc_runs.specs.Teams.{end_of_next, fault_left, stride_by};
ghost use Rattle.jc_team.specs.Started.{IsOfBasis, is_going, staged};
ghost use Rattle.jc_team.specs.declared.started.Stage.TheVariants.{Going};

use crate::places::put;
use crate::strides::{Taken, step_sync};
use jc_control::Controller;
use jc_moment::Moment;
use jc_states::Basis;
use jc_sync::{Plan, Syncing, plan};
use jc_types::{Arc, Fault, Want};
use jc_watch::Store;
use std::alloc::Global;
use std::marker::Model;
use std::mem::replace;

/// How far a sync has come with its plan.
#[derive(Drop)]
pub(crate) enum Stage {
    /// It has none.
    Unplanned,
    /// Its plan was handed in. Its requests are made at the first step.
    Planned(Plan),
    /// Its requests are made, and are under way.
    Going(Syncing),
}

/// A sync of a worker: what it began with and, once its plan was made or handed in, that, and then what is
/// left of it. A contract sees the same sync before and after, since a basis has one plan.
#[derive(Drop)]
pub(crate) struct Started {
    basis: Arc<Basis>,
    stage: Stage,
}

impl Model for Started {
    ghost use Rattle.jc_sync.specs.Steps.{Sync};

    ghost Value = { Sync };

    ghost use Rattle.jc_team.specs.Started.{IsStarted, staged};

    ghost view = { λ s. staged s.basis s.stage };

    ghost invariant = { λ s. IsStarted s.basis s.stage };
}

// Whether its requests are made.
fn is_going(stage: &Stage) -> bool
    ensures { result ≡ is_going stage.now }
{
    matches!(stage, Stage::Going(_))
}

// The sync with all its requests. Its plan is the one that was handed in, or is made now.
//
// `Want` where there is no memory for it, so only where its requests were not made yet.
fn requested(alloc: Global, basis: &Arc<Basis>, stage: Stage) -> Result<Syncing, Want>
    requires plannable { IsSome basis.now.job → CanPlan basis.now }
    requires own { IsOfBasis basis.now stage }
    ensures made { IfOk result (λ sync. sync ≡ staged basis.now stage) }
    ensures first { OnErr result (staged basis.now stage ≡ new_sync basis.now) }
{
    match stage {
        Stage::Unplanned => Syncing::new(alloc, plan(alloc, basis)?),
        Stage::Planned(plan) => Syncing::new(alloc, plan),
        Stage::Going(sync) => Ok(sync),
    }
}

// Makes the requests of the sync, where they are not made yet.
//
// `Want` where there is no memory for it; the sync that a contract sees is then as before. A plan that was
// handed in may be lost, and is made anew at the next step.
fn fill(alloc: Global, basis: &Arc<Basis>, stage: &mut Stage) -> Result<(), Want>
    requires plannable { IsSome basis.now.job → CanPlan basis.now }
    requires own { IsOfBasis basis.now stage.old }
    ensures made { OnOk result (stage.new ≡ Going (staged basis.now stage.old)) }
    ensures kept { OnErr result (staged basis.now stage.new ≡ staged basis.now stage.old) }
    ensures own { IsOfBasis basis.now stage.new }
{
    if is_going(stage) {
        return Ok(());
    }
    let taken = replace(stage, Stage::Unplanned);
    let sync = requested(alloc, basis, taken)?;
    put(stage, Stage::Going(sync));
    Ok(())
}

impl Started {
    // A sync that begins with this, and has no plan yet.
    pub(crate) fn new(basis: Arc<Basis>) -> Started
        requires plannable { IsSome basis.job → CanPlan basis }
        ensures { result ≡ new_sync basis }
    {
        Started {
            basis,
            stage: Stage::Unplanned,
        }
    }

    // What it began with. It can be planned.
    pub(crate) fn basis(&self) -> &Arc<Basis>
        ensures basis { result.now ≡ self.now.flight.basis }
        ensures plannable { IsSome result.now.job → CanPlan result.now }
    {
        &self.basis
    }

    // Takes the plan, where it has none yet. It takes no memory.
    pub(crate) fn give(&mut self, plan: Plan)
        requires { plan.basis ≡ self.old.flight.basis }
        ensures { self.new ≡ self.old }
    {
        if let Stage::Unplanned = self.stage {
            put(&mut self.stage, Stage::Planned(plan));
        }
    }

    // Makes the next request, and takes note of the answer and of its end. The plan is made first,
    // where it has none yet.
    //
    // `Want` where there is no memory for it; all is then as before.
    pub(crate) fn step(
        &mut self,
        alloc: Global,
        controller: &mut Controller,
        store: &mut Store,
        pending: Option<Fault>,
        now: Moment,
    ) -> Result<Taken, Want>
        requires busy { has_key self.old.flight.basis.key controller.old.schedule.queue.processing
            ≡ true }
        requires room { length store.old < 2 ^ 32 - 1 }
        ensures reply { IfOk result
            (λ r. r.reply ≡ (stepped now pending store.old self.old).reply) }
        ensures log { OnOk result
            (store.new ≡ grown store.old (stepped now pending store.old self.old).entry) }
        ensures over { IfOk result (λ r. r.is_over
            ≡ is_some (end_of_next (stepped now pending store.old self.old).next)) }
        ensures goes { IfOk result (λ r. r.is_over ≡ false
            → register_of (stepped now pending store.old self.old).next ≡ Some self.new) }
        ensures fault { IfOk result (λ r. r.fault
            ≡ fault_left (end_of_next (stepped now pending store.old self.old).next) pending) }
        ensures schedule { OnOk result (controller.new.schedule
            ≡ (stride_by now pending controller.old.schedule self.old
            (stepped now pending store.old self.old)).schedule) }
        ensures holds { OnOk result
            ((log : List Entry) → MirrorsLog log controller.old → MirrorsLog log controller.new) }
        ensures kept { OnErr result (controller.new ≡ controller.old) }
        ensures sync_kept { OnErr result (self.new ≡ self.old) }
        ensures log_kept { OnErr result (store.new ≡ store.old) }
    {
        fill(alloc, &self.basis, &mut self.stage)?;
        let Stage::Going(sync) = &mut self.stage else {
            unreachable!()
        };
        let taken = step_sync(controller, sync, store, pending, now)?;
        Ok(taken)
    }
}
