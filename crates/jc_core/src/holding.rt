//! Plans that seats make beside the cluster, and the registers that they hold meanwhile.

ghost use Rattle.std.specs.Prelude.{◌≡◌, ◌↔◌, ◌<◌, IfOk, IfSome, IsSome, IsTrue, None, OnErr, Some, false, find, is_some, map, option_map, true};
ghost use Rattle.std.specs.List.{list_any};
ghost use Rattle.jc_runs.specs.Bases.{CanPlan};
ghost use Rattle.jc_history.specs.Registers.{register};
ghost use Rattle.jc_play.specs.DiariesSeen.{diary_seen};
ghost use Rattle.jc_core.specs.Shared.{all_registers, freed_slots, has_holders, holds_slot, is_open_slot, is_unplanned, numbers_of, put_back_by, submitted_by, taken_by};
ghost use Rattle.jc_core.specs.Since.{seen_at};

use crate::changes::{Change, change_all};
use crate::cluster::Cluster;
use crate::registers::{copy_basis, first_open, is_held_by, is_of_sync};
use crate::since::is_still_of_sync;
use jc_plan::Plan;
use jc_play::Basis;
use jc_types::{Arc, Want};

/// A plan that is to be made.
#[derive(Drop)]
pub struct Work {
    pub controller: u32,
    pub worker: u32,
    /// What the worker's sync began with.
    pub basis: Arc<Basis>,
}

impl Cluster {
    /// Takes the first plan to make, by controller and worker: that of a sync that has none and
    /// that nobody holds. The seat holds its register from now on. `None` exactly where there is
    /// none.
    ///
    /// # Errors
    /// `Want` where there is no memory; nothing has changed then.
    pub fn take_plan(&mut self, seat: u32) -> Result<Option<Work>, Want>
        ensures first { IfOk result (λ found.
            option_map (λ work. (work.controller, work.worker)) found
            ≡ option_map numbers_of (find (is_open_slot self.old.seen) self.old.slots)) }
        ensures registers { map numbers_of self.old.slots ≡ all_registers self.old.seen.shape }
        ensures of_shape { IfOk result (λ found. IfSome found (λ work.
            (work.controller < self.old.seen.shape.controllers)
            × (work.worker < self.old.seen.shape.workers))) }
        ensures basis { IfOk result (λ found. IfSome found (λ work.
            register work.worker (diary_seen self.old.seen work.controller) ≡ Some work.basis)) }
        ensures plannable { IfOk result (λ found. IfSome found (λ work.
            IsSome work.basis.job → CanPlan work.basis)) }
        ensures held { IfOk result (λ found. IfSome found (λ work. self.new.slots
            ≡ taken_by seat work.controller work.worker self.old.slots)) }
        ensures none { IfOk result (λ found. found ≡ None → self.new ≡ self.old) }
        ensures seen { self.new.seen ≡ self.old.seen }
        ensures kept { OnErr result (self.new ≡ self.old) }
    {
        let Some(slot) = first_open(&self.machine, self.slots.as_slice()) else {
            return Ok(None);
        };
        let basis = copy_basis(&self.machine, slot.controller, slot.worker)?;
        let change = Change::Take {
            seat,
            controller: slot.controller,
            worker: slot.worker,
        };
        change_all(&mut self.slots, self.machine.shape(), change);
        Ok(Some(Work {
            controller: slot.controller,
            worker: slot.worker,
            basis,
        }))
    }

    /// Whether a register that nobody holds wants a plan. Where none does there is no plan to take.
    pub fn is_unplanned(&self) -> bool
        ensures { result ≡ is_unplanned self.now.slots }
    {
        self.slots
            .iter()
            .any(|slot| slot.wants && slot.holder.is_none())
    }

    // Whether the seat holds the register, and the plan was made of what its sync began with. The register is
    // then one of the shape.
    fn awaits(&self, seat: u32, controller: u32, worker: u32, plan: &Plan) -> bool
        ensures exactly { IsTrue result
            ↔ ((list_any (holds_slot seat controller worker) self.now.slots ≡ true)
            × (register worker (diary_seen self.now.seen controller) ≡ Some plan.now.basis)) }
        ensures of_shape { IsTrue result → controller < self.now.seen.shape.controllers }
        ensures worker { IsTrue result → worker < self.now.seen.shape.workers }
    {
        is_held_by(self.slots.as_slice(), seat, controller, worker)
            && is_of_sync(&self.machine, controller, worker, plan)
    }

    // The same, where the plan was made of what the sync had begun with when the history had so many events.
    fn awaits_since(
        &self,
        seat: u32,
        controller: u32,
        worker: u32,
        plan: &Plan,
        events: usize,
    ) -> bool
        requires begun { register worker (diary_seen (seen_at events self.now.seen) controller)
            ≡ Some plan.now.basis }
        ensures exactly { IsTrue result
            ↔ ((list_any (holds_slot seat controller worker) self.now.slots ≡ true)
            × (register worker (diary_seen self.now.seen controller) ≡ Some plan.now.basis)) }
        ensures of_shape { IsTrue result → controller < self.now.seen.shape.controllers }
        ensures worker { IsTrue result → worker < self.now.seen.shape.workers }
    {
        is_held_by(self.slots.as_slice(), seat, controller, worker)
            && is_still_of_sync(&self.machine, controller, worker, plan, events)
    }

    /// Hands in a plan. True exactly where the seat holds the register and the plan was made of what
    /// the register's sync began with, compared by value; the plan is then kept, and its requests are made
    /// from it at the sync's first step. Else it is dropped, and a step of a sync without a plan makes it
    /// itself. The seat holds the register no longer. It takes no memory.
    pub fn submit(&mut self, seat: u32, controller: u32, worker: u32, plan: Plan) -> bool
        ensures exactly { IsTrue result
            ↔ ((list_any (holds_slot seat controller worker) self.old.slots ≡ true)
            × (register worker (diary_seen self.old.seen controller) ≡ Some plan.basis)) }
        ensures slots { self.new.slots
            ≡ submitted_by seat controller worker result self.old.slots }
        ensures seen { self.new.seen ≡ self.old.seen }
    {
        let fits = self.awaits(seat, controller, worker, &plan);
        self.hand_in(seat, controller, worker, plan, fits);
        fits
    }

    /// Hands in a plan as `submit` does. Its caller knows that it was made of what the register's sync had begun
    /// with when the history had so many events: the plan is compared only where an event since then is of the
    /// register.
    pub fn submit_since(
        &mut self,
        seat: u32,
        controller: u32,
        worker: u32,
        plan: Plan,
        events: usize,
    ) -> bool
        requires begun { register worker (diary_seen (seen_at events self.old.seen) controller)
            ≡ Some plan.basis }
        ensures exactly { IsTrue result
            ↔ ((list_any (holds_slot seat controller worker) self.old.slots ≡ true)
            × (register worker (diary_seen self.old.seen controller) ≡ Some plan.basis)) }
        ensures slots { self.new.slots
            ≡ submitted_by seat controller worker result self.old.slots }
        ensures seen { self.new.seen ≡ self.old.seen }
    {
        let fits = self.awaits_since(seat, controller, worker, &plan, events);
        self.hand_in(seat, controller, worker, plan, fits);
        fits
    }

    // Hands in a plan that the seat's register awaits, or does not. The register is held by that seat no
    // longer.
    fn hand_in(&mut self, seat: u32, controller: u32, worker: u32, plan: Plan, fits: bool)
        requires of_shape { IsTrue fits → controller < self.old.seen.shape.controllers }
        requires worker { IsTrue fits → worker < self.old.seen.shape.workers }
        requires own { IsTrue fits
            → register worker (diary_seen self.old.seen controller) ≡ Some plan.basis }
        ensures slots { self.new.slots
            ≡ submitted_by seat controller worker fits self.old.slots }
        ensures seen { self.new.seen ≡ self.old.seen }
    {
        self.put_back(seat, controller, worker);
        if fits {
            self.machine.give_plan(controller, worker, plan);
            let change = Change::Want {
                wants: false,
                controller,
                worker,
            };
            change_all(&mut self.slots, self.machine.shape(), change);
        }
    }

    /// Where the seat holds the register, it does no longer. Nothing else changes, also where the shape has
    /// no such register.
    pub fn put_back(&mut self, seat: u32, controller: u32, worker: u32)
        ensures slots { self.new.slots ≡ put_back_by seat controller worker self.old.slots }
        ensures seen { self.new.seen ≡ self.old.seen }
    {
        let change = Change::PutBack {
            seat,
            controller,
            worker,
        };
        change_all(&mut self.slots, self.machine.shape(), change);
    }

    /// No register is held any more. Nothing else changes.
    pub fn free_all(&mut self)
        ensures slots { self.new.slots ≡ freed_slots self.old.slots }
        ensures free { has_holders self.new.slots ≡ false }
        ensures seen { self.new.seen ≡ self.old.seen }
    {
        change_all(&mut self.slots, self.machine.shape(), Change::Free);
    }

    /// Whether a register is held.
    pub fn held(&self) -> bool
        ensures { result ≡ has_holders self.now.slots }
    {
        self.slots.iter().any(|slot| slot.holder.is_some())
    }
}
