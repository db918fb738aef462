//! The law on plans that ask for nothing. Its function is empty: what it ensures holds of every basis, and
//! its callers may cite it.

ghost use Rattle.std.specs.Prelude.{◌≡◌, Some, false};
ghost use Rattle.jc_types.specs.declared.objects.Job.{Job};
ghost use Rattle.jc_states.specs.declared.bases.Basis.{Basis};
ghost use Rattle.jc_states.specs.Conditions.{has_end};
ghost use Rattle.jc_states.specs.PodLists.{IsRising};
ghost use Rattle.jc_types.specs.ValidSpecs.{IsValidSpec};
ghost use Rattle.jc_plan.specs.Plans.{planned};
ghost use Rattle.jc_idle.specs.Waits.{AsksNothing, Waits};

/// **A plan that asks for nothing waits for something.** Over a valid Job that has not ended, a plan that has no
/// request and names no moment finds a pod of the Job that is marked and still open. Or how the Job will end is
/// not decided, and it is suspended, or it may run no pod, or it has as many active tracked pods as it wants and
/// one at least, or the moment before which no pod is made lies past the last one.
pub fn idle_plans_wait()
    ensures { (job : Job) (basis : Basis)
        → basis.job ≡ Some job → IsRising basis.pods → IsValidSpec job.spec
        → has_end job.status.conditions ≡ false
        → AsksNothing (planned basis) → Waits job basis }
{}
