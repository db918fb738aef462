//! Who manages a Job, and what bounds its run.

ghost use Rattle.std.specs.Prelude.{◌≡◌, codes};
ghost use Rattle.jc_json.specs.View.{view};
ghost use Rattle.jc_rows.specs.ManifestRows.{Checks, Reads, bool_row};
ghost use Rattle.jc_manifest.specs.Limits.{managed_row, limits_refusal, suspend_in, usual_backoff, limits_in};

use jc_json::{Trail, Value, may_bool, may_text};
use jc_rows::{ManifestFault, broken, may_count};
use jc_types::GREATEST_LIMIT;
use std::alloc::Global;

/// What bounds the run of a Job.
#[derive(Clone, Copy)]
pub struct Limits {
    pub suspend: bool,
    pub backoff_limit: u32,
    pub deadline: Option<u32>,
}

/// That this controller manages the Job.
#[tactic(auto, unfolding(jc_rows::specs::ManifestRows::given_text_row))]
pub fn check_managed(alloc: Global, spec: &Value, path: &Trail) -> Result<(), ManifestFault>
    ensures { Checks result (managed_row path.now (view spec.now)) }
{
    let Some(text) = may_text(alloc, spec, path, "managedBy")? else {
        return Ok(());
    };
    if text == "kubernetes.io/job-controller" {
        return Ok(());
    }
    Err(broken(path, "managedBy", 26))
}

// Whether the Job makes no pods for now.
#[tactic(auto, unfolding(jc_rows::specs::ManifestRows::bool_row, crate::specs::Limits::suspend_in))]
fn read_suspend(alloc: Global, spec: &Value, path: &Trail) -> Result<bool, ManifestFault>
    ensures { Reads (λ suspend. suspend) result
        (bool_row path.now (view spec.now) (codes "suspend"))
        (suspend_in path.now (view spec.now)) }
{
    let suspend = may_bool(alloc, spec, path, "suspend")?;
    Ok(suspend.unwrap_or(false))
}

// How many pods may fail where nothing is said of it: any number where failures are limited by index.
fn usual_backoff(by_index: bool) -> u32
    ensures { result ≡ usual_backoff by_index }
{
    if by_index { GREATEST_LIMIT } else { 6 }
}

/// What bounds the run of the Job; `by_index` says whether failures are limited for each index.
#[tactic(auto, unfolding(crate::specs::Limits::limits_refusal))]
pub fn read_limits(
    alloc: Global,
    spec: &Value,
    path: &Trail,
    by_index: bool,
) -> Result<Limits, ManifestFault>
    ensures { Reads (λ limits. limits) result (limits_refusal path.now (view spec.now))
        (limits_in by_index path.now (view spec.now)) }
{
    let suspend = read_suspend(alloc, spec, path)?;
    let backoff_limit = may_count(alloc, spec, path, "backoffLimit", GREATEST_LIMIT)?;
    let deadline = may_count(alloc, spec, path, "activeDeadlineSeconds", GREATEST_LIMIT)?;
    Ok(Limits {
        suspend,
        backoff_limit: backoff_limit.unwrap_or(usual_backoff(by_index)),
        deadline,
    })
}
