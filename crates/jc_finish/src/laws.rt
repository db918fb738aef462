//! Laws on decisions and conditions. Each function is empty: what it ensures holds of every Job, and its
//! callers may cite it.

ghost use Rattle.std.specs.Prelude.{◌≡◌, ◌≢◌, ◌⊎◌, ℕ, Bool, IfSome, IsSome, List, Option, None, Some, false, true};
ghost use Rattle.std.specs.List.{Contains};
ghost use Rattle.jc_types.specs.declared.objects.Job.{Job};
ghost use Rattle.jc_types.specs.declared.objects.Pod.{Pod};
ghost use Rattle.jc_types.specs.declared.policies.Action.TheVariants.{FailJob};
ghost use Rattle.jc_types.specs.declared.policies.FailurePolicy.{FailurePolicy};
ghost use Rattle.jc_types.specs.declared.specifications.JobSpec.{JobSpec};
ghost use Rattle.jc_types.specs.declared.statuses.CondKind.{CondKind};
ghost use Rattle.jc_types.specs.declared.statuses.CondKind.TheVariants.{FailureTarget, Suspended};
ghost use Rattle.jc_types.specs.declared.statuses.Condition.{Condition};
ghost use Rattle.jc_types.specs.declared.statuses.Reason.{Reason};
ghost use Rattle.jc_types.specs.declared.statuses.Reason.TheVariants.{PodFailurePolicy};
ghost use Rattle.jc_types.specs.declared.syncs.CountIn.{CountIn};
ghost use Rattle.jc_states.specs.Conditions.{has_end, has_target, stands};
ghost use Rattle.jc_states.specs.Pods.{is_tracked};
ghost use Rattle.jc_failpol.specs.declared.outcomes.Outcome.TheVariants.{Failed};
ghost use Rattle.jc_failpol.specs.FailJob.{fails_job};
ghost use Rattle.jc_failpol.specs.Outcomes.{outcome_of};
ghost use Rattle.jc_failpol.specs.Rules.{action_of};
ghost use Rattle.jc_finish.specs.Decisions.{decided, is_failed_by_pod};
ghost use Rattle.jc_finish.specs.Settled.{is_target_kind, settled};

/// How a Job will end is decided once, and what decides it is a target. A tracked pod of the Job's for
/// which the failure policy fails the Job decides it at once: such a pod has failed, and the policy's
/// action for it is FailJob.
pub fn ends_are_decided_once()
    ensures once { (counted : CountIn) (now : ℕ) (job : Job) (own : List Pod)
        → has_target job.status.conditions ≡ true → decided counted now job own ≡ None }
    ensures target { (counted : CountIn) (now : ℕ) (job : Job) (own : List Pod)
        → (target : CondKind × Reason) → decided counted now job own ≡ Some target
        → (is_target_kind target.0 ≡ true) × (has_target job.status.conditions ≡ false) }
    ensures found { (spec : JobSpec) (own : List Pod) (pod : Pod)
        → Contains own pod → is_tracked pod ≡ true → fails_job spec pod ≡ true
        → is_failed_by_pod spec own ≡ true }
    ensures failing { (spec : JobSpec) (policy : FailurePolicy) (pod : Pod)
        → outcome_of spec pod ≡ Failed → spec.failure ≡ Some policy → action_of policy pod ≡ FailJob
        → fails_job spec pod ≡ true }
    ensures fail_job { (counted : CountIn) (now : ℕ) (job : Job) (own : List Pod)
        → is_failed_by_pod job.spec own ≡ true
        → (has_target job.status.conditions ≡ true)
        ⊎ (decided counted now job own ≡ Some (FailureTarget, PodFailurePolicy)) }
{}

/// What stands after a sync. Every target and every end that stood still stands, and the decided target
/// does. Without a decided target none is new, and where no end is due none is new. While how the Job
/// will end is open, its Suspended condition is true just where it is suspended. An end that is due
/// stands.
pub fn conditions_stand()
    ensures kept { (now : ℕ) (suspend : Bool) (target : Option (CondKind × Reason)) (due : Bool)
        → (conditions : List Condition) (kind : CondKind)
        → kind ≢ Suspended → stands kind conditions ≡ true
        → stands kind (settled now suspend target due conditions) ≡ true }
    ensures decided { (now : ℕ) (suspend : Bool) (target : CondKind × Reason) (due : Bool)
        → (conditions : List Condition)
        → stands target.0 (settled now suspend (Some target) due conditions) ≡ true }
    ensures target { (now : ℕ) (suspend due : Bool) (conditions : List Condition) (kind : CondKind)
        → is_target_kind kind ≡ true
        → stands kind (settled now suspend None due conditions) ≡ stands kind conditions }
    ensures suspended { (now : ℕ) (suspend due : Bool) (conditions : List Condition)
        → has_target conditions ≡ false
        → stands Suspended (settled now suspend None due conditions) ≡ suspend }
    ensures ended { (now : ℕ) (suspend : Bool) (target : Option (CondKind × Reason))
        → (conditions : List Condition) → IfSome target (λ pair. is_target_kind pair.0 ≡ true)
        → (has_target conditions ≡ true) ⊎ IsSome target
        → has_end (settled now suspend target true conditions) ≡ true }
    ensures not_due { (now : ℕ) (suspend : Bool) (target : Option (CondKind × Reason))
        → (conditions : List Condition) → IfSome target (λ pair. is_target_kind pair.0 ≡ true)
        → has_end (settled now suspend target false conditions) ≡ has_end conditions }
{}
