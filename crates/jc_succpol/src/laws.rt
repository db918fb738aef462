//! A law on success policies. The function is empty: what it ensures holds of every policy, and its
//! callers may cite it.

ghost use Rattle.std.specs.Prelude.{◌≡◌, ℕ, All, List, None, Some, false};
ghost use Rattle.jc_types.specs.declared.policies.SuccessPolicy.{SuccessPolicy};
ghost use Rattle.jc_types.specs.FirstPlaces.{IsLeast};
ghost use Rattle.jc_succpol.specs.SuccessRules.{is_met, met_place};

/// The place of the first rule that is met is the least at which a rule is met, and where there is none
/// no rule is met.
pub fn first_met_decides()
    ensures least { (policy : SuccessPolicy) (completed : List ℕ) (n : ℕ)
        → met_place policy completed ≡ Some n
        → IsLeast (λ rule. is_met rule completed) policy.rules n }
    ensures none { (policy : SuccessPolicy) (completed : List ℕ)
        → met_place policy completed ≡ None
        → All (λ rule. is_met rule completed ≡ false) policy.rules }
{}
