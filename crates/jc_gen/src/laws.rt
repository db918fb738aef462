//! Laws on generated scripts. Each function is empty: what it ensures holds of every script, and its callers may cite it.

ghost use Rattle.std.specs.Prelude.{◌≡◌, ◌+◌, ◌*◌, ◌<◌, ◌≤◌, ◌^◌, ℕ, length};
ghost use Rattle.std.specs.List.{AllByRecursion as Each};
ghost use Rattle.jc_states.specs.ValidActions.{AreValidCommands};
ghost use Rattle.jc_types.specs.ValidSpecs.{IsValidSpec};
ghost use Rattle.jc_ranges.specs.declared.bounds.TheConstants.{GREATEST_INDEX};
ghost use Rattle.jc_types.specs.declared.actions.Command.{Command};
ghost use Rattle.jc_types.specs.declared.limits.TheConstants.{GREATEST_COMPLETIONS, GREATEST_LIMIT, GREATEST_PARALLELISM, MOST_CONTAINERS, MOST_UNCOUNTED};
ghost use Rattle.jc_gen.specs.Generated.{IsGenerated, generated, job_ends, job_key, job_spec};

/// A script has two commands for each Job, and one more. Each Job has a specification that is valid and a key of its
/// own, and its pods have one to four ends.
pub fn generated_scripts_are_fit()
    ensures length { (number jobs pods : ℕ)
        → length (generated number jobs pods).commands ≡ 2 * jobs + 1 }
    ensures valid { (number pods i : ℕ) → 1 ≤ pods → pods ≤ 20
        → IsValidSpec (job_spec number pods i) }
    ensures apart { (i j : ℕ) → i < 2 ^ 32 → j < 2 ^ 32 → job_key i ≡ job_key j → i ≡ j }
    ensures some_ends { (number i : ℕ) → 0 < length (job_ends number i) }
    ensures few_ends { (number i : ℕ) → length (job_ends number i) ≤ 4 }
{}

/// Each command of a script creates a Job, or decides how its pods end, or is the settle. So each is valid.
pub fn generated_commands_are_valid()
    ensures each { (number jobs pods : ℕ)
        → Each (λ (command : Command). IsGenerated number jobs pods command)
        (generated number jobs pods).commands }
    ensures valid { (number jobs pods : ℕ) → 1 ≤ pods → pods ≤ 20
        → AreValidCommands (generated number jobs pods).commands }
{}

/// The constants of the rules that definitions cite from the code by their names: of uncounted pods, `parallelism`,
/// `completions`, limits, containers and indexes. With another one the rules would be others, and no clause but these
/// would tell. They stand here, since few crates stand above this one.
pub fn constants_of_rules()
    ensures uncounted { MOST_UNCOUNTED ≡ 500 }
    ensures parallelism { GREATEST_PARALLELISM ≡ 5000 }
    ensures completions { GREATEST_COMPLETIONS ≡ 10000 }
    ensures limit { GREATEST_LIMIT ≡ 2147483647 }
    ensures containers { MOST_CONTAINERS ≡ 100 }
    ensures index { GREATEST_INDEX ≡ 99999 }
{}
