//! What the rules ensure. Each function is empty: what it ensures holds always, and its callers may
//! cite it.

ghost use Rattle.std.specs.Prelude.{◌≡◌, ℕ, List, None};
ghost use Rattle.serde_json.specs.Data.{Data};
ghost use Rattle.jc_types.specs.declared.actions.SpecChange.{SpecChange};
ghost use Rattle.jc_types.specs.declared.specifications.JobSpec.{JobSpec};
ghost use Rattle.jc_log.specs.Requests.{changed_spec, update_refusal};
ghost use Rattle.jc_types.specs.ValidSpecs.{IsValidSpec};
ghost use Rattle.jc_manifest.specs.Manifests.{manifest_refusal, spec_of};

/// A change that may be made keeps a valid specification valid.
pub fn allowed_updates_stay_valid()
    ensures { (spec : JobSpec) (change : SpecChange)
        → IsValidSpec spec → update_refusal spec change ≡ None
        → IsValidSpec (changed_spec spec change) }
{}

/// The specification that an accepted manifest says is valid.
pub fn accepted_manifests_are_valid()
    ensures { (path : List ℕ) (job : Data) → manifest_refusal path job ≡ None
        → IsValidSpec (spec_of path job) }
{}
