//! What a manifest is, and what it names.

ghost use Rattle.std.specs.Prelude.{bytes_eq, codes};
ghost use Rattle.jc_json.specs.View.{view};
ghost use Rattle.jc_rows.specs.ManifestRows.{Checks, Reads, text_row, given_text_row};
ghost use Rattle.jc_rows.specs.NameForms.{is_label, is_subdomain};
ghost use Rattle.jc_manifest.specs.Metadata.{type_refusal, metadata_refusal, name_in, namespace_in, key_in};

use jc_json::{Trail, Value, may_text, need_text};
use jc_rows::{ManifestFault, broken, is_label, is_subdomain};
use jc_types::{Key, KeyNames, Label};
use std::alloc::Global;

// That a member is that word.
#[tactic(auto, unfolding(jc_rows::specs::ManifestRows::text_row))]
fn check_word(
    alloc: Global,
    object: &Value,
    path: &Trail,
    name: &str,
    word: &str,
    rule: u32,
) -> Result<(), ManifestFault>
    ensures { Checks result
        (text_row path.now (view object.now) name.now rule (λ s. bytes_eq s word.now)) }
{
    let text = need_text(alloc, object, path, name)?;
    if text == word {
        return Ok(());
    }
    Err(broken(path, name, rule))
}

/// That the manifest is of a Job of batch/v1.
#[tactic(auto, unfolding(crate::specs::Metadata::type_refusal))]
pub fn check_type(alloc: Global, job: &Value, path: &Trail) -> Result<(), ManifestFault>
    ensures { Checks result (type_refusal path.now (view job.now)) }
{
    check_word(alloc, job, path, "apiVersion", "batch/v1", 1)?;
    check_word(alloc, job, path, "kind", "Job", 2)?;
    Ok(())
}

// The Job's name.
#[tactic(auto, unfolding(jc_rows::specs::ManifestRows::text_row, crate::specs::Metadata::name_in))]
fn read_name(alloc: Global, metadata: &Value, path: &Trail) -> Result<Label, ManifestFault>
    ensures { Reads (λ name. name) result
        (text_row path.now (view metadata.now) (codes "name") 3 is_subdomain)
        (name_in path.now (view metadata.now)) }
{
    let text = need_text(alloc, metadata, path, "name")?;
    if !is_subdomain(text.as_bytes()) {
        return Err(broken(path, "name", 3));
    }
    Ok(Label::from_text(alloc, text)?)
}

// The Job's namespace.
#[tactic(auto, unfolding(jc_rows::specs::ManifestRows::given_text_row, crate::specs::Metadata::namespace_in))]
fn read_namespace(alloc: Global, metadata: &Value, path: &Trail) -> Result<Label, ManifestFault>
    ensures { Reads (λ name. name) result
        (given_text_row path.now (view metadata.now) (codes "namespace") 4 is_label)
        (namespace_in path.now (view metadata.now)) }
{
    let Some(text) = may_text(alloc, metadata, path, "namespace")? else {
        return Ok(Label::from_text(alloc, "default")?);
    };
    if !is_label(text.as_bytes()) {
        return Err(broken(path, "namespace", 4));
    }
    Ok(Label::from_text(alloc, text)?)
}

/// The key of the Job.
#[tactic(auto, unfolding(crate::specs::Metadata::metadata_refusal, crate::specs::Metadata::key_in))]
pub fn read_key(alloc: Global, metadata: &Value, path: &Trail) -> Result<Key, ManifestFault>
    ensures { Reads (λ key. key) result (metadata_refusal path.now (view metadata.now))
        (key_in path.now (view metadata.now)) }
{
    let name = read_name(alloc, metadata, path)?;
    let namespace = read_namespace(alloc, metadata, path)?;
    Ok(Key::new(alloc, KeyNames { namespace, name })?)
}
