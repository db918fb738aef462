//! Reading the manifest of a Job.

ghost use Rattle.std.specs.Prelude.{◌≡◌, ◌&&◌, IfOk, codes, is_some, not};
ghost use Rattle.jc_json.specs.View.{view};
ghost use Rattle.jc_json.specs.Place.{path_to};
ghost use Rattle.jc_types.specs.ValidSpecs.{IsValidSpec};
ghost use Rattle.jc_rows.specs.PodCountRows.{counts_in};
ghost use Rattle.jc_rows.specs.ManifestRows.{Checks, Reads, rule_row, given_text_row};
ghost use Rattle.jc_manifest.specs.Manifests.{replacement_of, is_replacement, usual_replacement, replacement_in, is_early, replacement_refusal, policies_refusal, policies_in, head_refusal, head_in, spec_refusal, spec_with, spec_in};
ghost use Rattle.jc_manifest.specs.Manifests.{metadata_part_refusal, spec_part_refusal, manifest_refusal, key_of, spec_of};

use crate::index_limits::{IndexLimits, check_by_index, is_by_index, read_index_limits};
use crate::limits::{Limits, check_managed, read_limits};
use crate::metadata::{check_type, read_key};
use jc_json::{Trail, Value, may_text};
use jc_policies::{read_failure, read_success};
use jc_rows::{Counts, ManifestFault, broken, read_counts, read_object, read_template};
use jc_types::{FailurePolicy, JobSpec, Key, Replacement, SuccessPolicy, Template};
use std::alloc::Global;

// How many pods are wanted, and what bounds the run.
#[derive(Clone, Copy)]
struct Head {
    counts: Counts,
    index_limits: IndexLimits,
    limits: Limits,
}

// The policies of a Job.
#[derive(Drop)]
struct Policies {
    failure: Option<FailurePolicy>,
    replacement: Replacement,
    success: Option<SuccessPolicy>,
}

// The replacement policy of that word.
fn replacement_of(text: &str) -> Option<Replacement>
    ensures { result ≡ replacement_of text.now }
{
    if text == "TerminatingOrFailed" {
        return Some(Replacement::TerminatingOrFailed);
    }
    if text == "Failed" {
        return Some(Replacement::FailedOnly);
    }
    None
}

// The replacement policy where none is given.
fn usual_replacement(has_failure: bool) -> Replacement
    ensures { result ≡ usual_replacement has_failure }
{
    if has_failure {
        return Replacement::FailedOnly;
    }
    Replacement::TerminatingOrFailed
}

// The replacement policy that a manifest says.
#[tactic(auto, unfolding(jc_rows::specs::ManifestRows::given_text_row, crate::specs::Manifests::replacement_in))]
fn read_known_replacement(
    alloc: Global,
    spec: &Value,
    path: &Trail,
    has_failure: bool,
) -> Result<Replacement, ManifestFault>
    ensures { Reads (λ replacement. replacement) result
        (given_text_row path.now (view spec.now) (codes "podReplacementPolicy") 7 is_replacement)
        (replacement_in has_failure path.now (view spec.now)) }
{
    let Some(text) = may_text(alloc, spec, path, "podReplacementPolicy")? else {
        return Ok(usual_replacement(has_failure));
    };
    match replacement_of(text) {
        Some(replacement) => Ok(replacement),
        None => Err(broken(path, "podReplacementPolicy", 7)),
    }
}

fn is_early(replacement: Replacement) -> bool
    ensures { result ≡ is_early replacement }
{
    match replacement {
        Replacement::TerminatingOrFailed => true,
        Replacement::FailedOnly => false,
    }
}

// That pods with a failure policy are replaced only once they have failed.
fn check_replacement(
    path: &Trail,
    has_failure: bool,
    replacement: Replacement,
) -> Result<(), ManifestFault>
    ensures { Checks result (rule_row (path_to path.now (codes "podReplacementPolicy")) 8
        (not (has_failure && is_early replacement))) }
{
    if has_failure && is_early(replacement) {
        return Err(broken(path, "podReplacementPolicy", 8));
    }
    Ok(())
}

// When a pod is replaced.
#[tactic(auto, unfolding(crate::specs::Manifests::replacement_refusal))]
fn read_replacement(
    alloc: Global,
    spec: &Value,
    path: &Trail,
    has_failure: bool,
) -> Result<Replacement, ManifestFault>
    ensures { Reads (λ replacement. replacement) result
        (replacement_refusal has_failure path.now (view spec.now))
        (replacement_in has_failure path.now (view spec.now)) }
{
    let replacement = read_known_replacement(alloc, spec, path, has_failure)?;
    check_replacement(path, has_failure, replacement)?;
    Ok(replacement)
}

// The policies of the Job.
#[tactic(auto, unfolding(crate::specs::Manifests::policies_refusal, crate::specs::Manifests::policies_in))]
fn read_policies(
    alloc: Global,
    spec: &Value,
    path: &Trail,
    head: &Head,
    template: &Template,
) -> Result<Policies, ManifestFault>
    ensures { Reads (λ policies. policies) result
        (policies_refusal head.now template.now path.now (view spec.now))
        (policies_in head.now.counts path.now (view spec.now)) }
{
    let by_index = is_by_index(head.index_limits);
    let failure = read_failure(alloc, spec, path, template, by_index)?;
    let replacement = read_replacement(alloc, spec, path, failure.is_some())?;
    let success = read_success(alloc, spec, path, &head.counts)?;
    Ok(Policies {
        failure,
        replacement,
        success,
    })
}

// How many pods are wanted, and what bounds the run.
#[tactic(auto, unfolding(crate::specs::Manifests::head_refusal, crate::specs::Manifests::head_in))]
fn read_head(alloc: Global, spec: &Value, path: &Trail) -> Result<Head, ManifestFault>
    ensures { Reads (λ head. head) result (head_refusal path.now (view spec.now))
        (head_in path.now (view spec.now)) }
{
    check_managed(alloc, spec, path)?;
    let index_limits = read_index_limits(alloc, spec, path)?;
    let counts = read_counts(alloc, spec, path)?;
    check_by_index(path, &counts, index_limits)?;
    let limits = read_limits(alloc, spec, path, is_by_index(index_limits))?;
    Ok(Head {
        counts,
        index_limits,
        limits,
    })
}

// The specification of these parts.
fn spec_with(head: Head, template: Template, policies: Policies) -> JobSpec
    ensures { result ≡ spec_with head template policies }
{
    JobSpec {
        parallelism: head.counts.parallelism,
        completions: head.counts.completions,
        mode: head.counts.mode,
        suspend: head.limits.suspend,
        backoff_limit: head.limits.backoff_limit,
        per_index: head.index_limits.per_index,
        max_failed: head.index_limits.max_failed,
        deadline: head.limits.deadline,
        replacement: policies.replacement,
        failure: policies.failure,
        success: policies.success,
        template,
    }
}

// The specification of the Job.
#[tactic(auto, unfolding(crate::specs::Manifests::head_in, crate::specs::Manifests::spec_refusal, crate::specs::Manifests::spec_in))]
fn read_spec(alloc: Global, spec: &Value, path: &Trail) -> Result<JobSpec, ManifestFault>
    ensures { Reads (λ spec. spec) result (spec_refusal path.now (view spec.now))
        (spec_in path.now (view spec.now)) }
{
    let head = read_head(alloc, spec, path)?;
    let template = read_template(alloc, spec, path, is_by_index(head.index_limits))?;
    let policies = read_policies(alloc, spec, path, &head, &template)?;
    Ok(spec_with(head, template, policies))
}

// The key, of the member `metadata`.
#[tactic(auto, unfolding(crate::specs::Manifests::metadata_part_refusal, crate::specs::Manifests::key_of))]
fn read_metadata_part(alloc: Global, job: &Value, path: &Trail) -> Result<Key, ManifestFault>
    ensures { Reads (λ key. key) result (metadata_part_refusal path.now (view job.now))
        (key_of path.now (view job.now)) }
{
    let metadata = read_object(alloc, job, path, "metadata")?;
    let key = read_key(alloc, metadata, &path.path_to("metadata"))?;
    Ok(key)
}

// The specification, of the member `spec`.
#[tactic(auto, unfolding(crate::specs::Manifests::spec_part_refusal, crate::specs::Manifests::spec_of))]
fn read_spec_part(alloc: Global, job: &Value, path: &Trail) -> Result<JobSpec, ManifestFault>
    ensures { Reads (λ spec. spec) result (spec_part_refusal path.now (view job.now))
        (spec_of path.now (view job.now)) }
{
    let spec = read_object(alloc, job, path, "spec")?;
    let spec = read_spec(alloc, spec, &path.path_to("spec"))?;
    Ok(spec)
}

// What the whole manifest says.
#[tactic(auto, unfolding(crate::specs::Manifests::manifest_refusal))]
fn read_manifest(
    alloc: Global,
    value: &Value,
    path: &Trail,
) -> Result<(Key, JobSpec), ManifestFault>
    ensures { Reads (λ job. job) result (manifest_refusal path.now (view value.now))
        (key_of path.now (view value.now), spec_of path.now (view value.now)) }
{
    check_type(alloc, value, path)?;
    let key = read_metadata_part(alloc, value, path)?;
    let spec = read_spec_part(alloc, value, path)?;
    Ok((key, spec))
}

/// The key and the specification that the manifest of a Job says, with its defaults (batch/v1, KEP-2214, KEP-3329,
/// KEP-3850, KEP-3939, KEP-3998). `path` is that of the manifest. Members that are not in the table of `specs/Manifests.antt`
/// are read over, as are those that kubectl prints beside them.
///
/// # Errors
///
/// The first refusal in the order of the table, exactly where the table has one. `Want`: memory ran out.
pub fn read_job(alloc: Global, value: &Value, path: &Trail) -> Result<(Key, JobSpec), ManifestFault>
    ensures said { Reads (λ job. job) result (manifest_refusal path.now (view value.now))
        (key_of path.now (view value.now), spec_of path.now (view value.now)) }
    ensures valid { IfOk result (λ job. IsValidSpec job.1) }
{
    read_manifest(alloc, value, path)
}
