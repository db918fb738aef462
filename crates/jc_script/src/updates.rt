//! What an update says.

ghost use Rattle.jc_json.specs.View.{view};
ghost use Rattle.jc_members.specs.LineCauses.{Says};
ghost use Rattle.jc_script.specs.Updates.{version_said, change_members, counts_of, limits_of, change_at, change_in};
ghost use Rattle.jc_members.specs.Members.{only_known};

use jc_json::{Trail, Value, may_bool};
use jc_members::{LineFault, check_known, read_given_number, read_object};
use jc_types::{GREATEST_COMPLETIONS, GREATEST_LIMIT, GREATEST_PARALLELISM, SpecChange, Version};
use std::alloc::Global;

// New numbers of pods.
#[derive(Clone, Copy)]
struct NewCounts {
    parallelism: Option<u32>,
    completions: Option<u32>,
}

// New bounds of the run.
#[derive(Clone, Copy)]
struct NewLimits {
    deadline: Option<u32>,
    backoff_limit: Option<u32>,
}

/// The version at which alone the update is made, where one is given.
#[tactic(auto, unfolding(crate::specs::Updates::version_said))]
pub fn read_version(alloc: Global, value: &Value) -> Result<Option<Version>, LineFault>
    ensures { Says (λ version. version) result (version_said (view value.now)) }
{
    match read_given_number(
        alloc,
        value,
        &Trail::new(alloc),
        "version",
        0,
        4_294_967_295,
    )? {
        None => Ok(None),
        Some(number) => Ok(Some(Version(number))),
    }
}

// The new numbers of pods.
#[tactic(auto, unfolding(crate::specs::Updates::counts_of))]
fn read_counts(alloc: Global, spec: &Value, path: &Trail) -> Result<NewCounts, LineFault>
    ensures { Says (λ counts. counts) result (counts_of path.now (view spec.now)) }
{
    let parallelism = read_given_number(alloc, spec, path, "parallelism", 0, GREATEST_PARALLELISM)?;
    let completions = read_given_number(alloc, spec, path, "completions", 0, GREATEST_COMPLETIONS)?;
    Ok(NewCounts {
        parallelism,
        completions,
    })
}

// The new bounds of the run.
#[tactic(auto, unfolding(crate::specs::Updates::limits_of))]
fn read_limits(alloc: Global, spec: &Value, path: &Trail) -> Result<NewLimits, LineFault>
    ensures { Says (λ limits. limits) result (limits_of path.now (view spec.now)) }
{
    let deadline = read_given_number(
        alloc,
        spec,
        path,
        "activeDeadlineSeconds",
        0,
        GREATEST_LIMIT,
    )?;
    let backoff_limit = read_given_number(alloc, spec, path, "backoffLimit", 0, GREATEST_LIMIT)?;
    Ok(NewLimits {
        deadline,
        backoff_limit,
    })
}

// The new members, in their order.
#[tactic(auto, unfolding(crate::specs::Updates::change_at))]
fn read_members(alloc: Global, spec: &Value, path: &Trail) -> Result<SpecChange, LineFault>
    ensures { Says (λ change. change) result (change_at path.now (view spec.now)) }
{
    let counts = read_counts(alloc, spec, path)?;
    let suspend = may_bool(alloc, spec, path, "suspend")?;
    let limits = read_limits(alloc, spec, path)?;
    Ok(SpecChange {
        parallelism: counts.parallelism,
        completions: counts.completions,
        suspend,
        deadline: limits.deadline,
        backoff_limit: limits.backoff_limit,
    })
}

// That no other member of the specification is given.
fn check_members(alloc: Global, spec: &Value, path: &Trail) -> Result<(), LineFault>
    ensures { Says (λ u. u) result (only_known path.now change_members (view spec.now)) }
{
    check_known(
        alloc,
        spec,
        path,
        &[
            "parallelism",
            "completions",
            "suspend",
            "activeDeadlineSeconds",
            "backoffLimit",
        ],
    )
}

/// The new members of the specification, by the member `spec`.
#[tactic(auto, unfolding(crate::specs::Updates::change_in))]
pub fn read_change(alloc: Global, value: &Value) -> Result<SpecChange, LineFault>
    ensures { Says (λ change. change) result (change_in (view value.now)) }
{
    let path = Trail::new(alloc);
    let spec = read_object(alloc, value, &path, "spec")?;
    let at = path.path_to("spec");
    check_members(alloc, spec, &at)?;
    read_members(alloc, spec, &at)
}
