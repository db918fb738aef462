//! Laws on rules and outcomes. Each function is empty: what it ensures holds of every pod, and its
//! callers may cite it.

ghost use Rattle.std.specs.Prelude.{◌≡◌, ◌⊎◌, ℕ, All, IsSome, false};
ghost use Rattle.jc_types.specs.declared.objects.Job.{Job};
ghost use Rattle.jc_types.specs.declared.objects.Pod.{Pod};
ghost use Rattle.jc_types.specs.declared.policies.FailurePolicy.{FailurePolicy};
ghost use Rattle.jc_types.specs.declared.specifications.JobSpec.{JobSpec};
ghost use Rattle.jc_types.specs.declared.specifications.Replacement.TheVariants.{FailedOnly, TerminatingOrFailed};
ghost use Rattle.jc_types.specs.Equality.{IsExact};
ghost use Rattle.jc_types.specs.FirstPlaces.{IsLeast};
ghost use Rattle.jc_types.specs.ValidSpecs.{IsValidSpec};
ghost use Rattle.jc_states.specs.ObjectChanges.{JobStep, PodStep};
ghost use Rattle.jc_failpol.specs.declared.outcomes.Outcome.TheVariants.{Failed, Ignored, Succeeded};
ghost use Rattle.jc_failpol.specs.Outcomes.{outcome_of, same_outcome};
ghost use Rattle.jc_failpol.specs.Rules.{action_of, matches, matching_place};
ghost use Rattle.jc_failpol.specs.Policies.{HasEnded, SamePolicies, WaitsForEnd};

/// The place of the first rule that matches is the least at which a rule matches, and where there is
/// none no rule matches.
pub fn first_match_decides()
    ensures least { (policy : FailurePolicy) (pod : Pod) (n : ℕ)
        → matching_place policy pod ≡ Some n → IsLeast (λ rule. matches rule pod) policy.rules n }
    ensures none { (policy : FailurePolicy) (pod : Pod)
        → matching_place policy pod ≡ None → All (λ rule. matches rule pod ≡ false) policy.rules }
{}

/// The test of outcomes is true just of equal ones.
pub fn outcomes_are_told_apart()
    ensures { IsExact same_outcome }
{}

/// How the outcome of a pod may still change from one state of the pod to a later one. `old` and `new`
/// are any two that a write of a pod may lead from and to; the outcome depends on the replacement and
/// the failure policy alone, which no write of a Job changes.
///
/// A success stays one. A failure stays one or becomes a success, and this only where a mark counts as
/// a failure: a pod that was marked may still exit with 0. Where a pod is replaced only once it has
/// ended, its outcome, containers and conditions then stay as they are, and so does what a failure
/// policy says of it. A pod is ignored only by a failure policy, and stays so.
pub fn outcomes_stay()
    ensures valid { (spec : JobSpec) → IsValidSpec spec → WaitsForEnd spec }
    ensures same { (spec other : JobSpec) (pod : Pod)
        → SamePolicies spec other → outcome_of other pod ≡ outcome_of spec pod }
    ensures job { (old new : Job) (pod : Pod)
        → JobStep old new → outcome_of new.spec pod ≡ outcome_of old.spec pod }
    ensures succeeded { (spec : JobSpec) (old new : Pod)
        → PodStep old new → outcome_of spec old ≡ Succeeded → outcome_of spec new ≡ Succeeded }
    ensures failed { (spec : JobSpec) (old new : Pod)
        → WaitsForEnd spec → PodStep old new → outcome_of spec old ≡ Failed
        → (outcome_of spec new ≡ Failed) ⊎ (outcome_of spec new ≡ Succeeded) }
    ensures revised { (spec : JobSpec) (old new : Pod)
        → PodStep old new → outcome_of spec old ≡ Failed → outcome_of spec new ≡ Succeeded
        → spec.replacement ≡ TerminatingOrFailed }
    ensures ignored { (spec : JobSpec) (old new : Pod)
        → WaitsForEnd spec → PodStep old new → outcome_of spec old ≡ Ignored
        → outcome_of spec new ≡ Ignored }
    ensures ended { (spec : JobSpec) (old new : Pod)
        → WaitsForEnd spec → PodStep old new → HasEnded spec old → HasEnded spec new }
    ensures frozen { (spec : JobSpec) (old new : Pod)
        → spec.replacement ≡ FailedOnly → PodStep old new → HasEnded spec old
        → outcome_of spec new ≡ outcome_of spec old }
    ensures action { (spec : JobSpec) (policy : FailurePolicy) (old new : Pod)
        → spec.replacement ≡ FailedOnly → PodStep old new → HasEnded spec old
        → action_of policy new ≡ action_of policy old }
    ensures place { (spec : JobSpec) (policy : FailurePolicy) (old new : Pod)
        → spec.replacement ≡ FailedOnly → PodStep old new → HasEnded spec old
        → matching_place policy new ≡ matching_place policy old }
    ensures containers { (spec : JobSpec) (old new : Pod)
        → spec.replacement ≡ FailedOnly → PodStep old new → HasEnded spec old
        → new.containers ≡ old.containers }
    ensures conditions { (spec : JobSpec) (old new : Pod)
        → spec.replacement ≡ FailedOnly → PodStep old new → HasEnded spec old
        → new.conditions ≡ old.conditions }
    ensures policy { (spec : JobSpec) (pod : Pod)
        → outcome_of spec pod ≡ Ignored → IsSome spec.failure }
    ensures waits { (spec : JobSpec) (pod : Pod)
        → WaitsForEnd spec → outcome_of spec pod ≡ Ignored → spec.replacement ≡ FailedOnly }
{}
