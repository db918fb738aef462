//! The manifest that a printed specification is turned into.

ghost use Rattle.std.specs.Prelude.{◌≡◌, IfOk, OnOk, Some, codes};
ghost use Rattle.serde_json.specs.Data.{array, put, string};
ghost use Rattle.serde_json.specs.Find.{get};
ghost use Rattle.serde_json.specs.View.{items_view, members_view, view};
ghost use Rattle.jc_reading.specs.Manifested.{all_named, items_named, manifest_data, manifest_spec, members_in, metadata_data, pod_spec_of};
ghost use Rattle.jc_reading.specs.Turned.{of_member};

use jc_print::{Members, put_text, put_value};
use jc_types::{Key, Want};
use serde_json::{Map, Value};
use std::alloc::Global;

/// The object of one member.
#[tactic(auto, unfolding(jc_print::specs::PrintedMembers::with_json_member))]
pub fn with_only(alloc: Global, name: &str, value: Value) -> Result<Value, Want>
    ensures { IfOk result (λ v. view v ≡ of_member name.now (view value)) }
{
    let mut members = Map::new(alloc);
    put_value(&mut members, alloc, name, value)?;
    Ok(Value::Object(members))
}

// Containers of these names.
fn named_list(alloc: Global, names: &[Value]) -> Result<Vec<Value>, Want>
    ensures { IfOk result (λ v. items_view v.items ≡ items_named (items_view names.now)) }
{
    let mut items = Vec::new(alloc);
    for name in names {
        items.push(with_only(alloc, "name", name.clone()?)?)?;
    }
    Ok(items)
}

// The list of them.
fn named_items(alloc: Global, names: &[Value]) -> Result<Value, Want>
    ensures { IfOk result (λ v. view v ≡ array (items_named (items_view names.now))) }
{
    Ok(Value::Array(named_list(alloc, names)?))
}

// Containers of the names in the member of that name, where it is a list.
fn named_in(alloc: Global, template: &Value, name: &str) -> Result<Value, Want>
    ensures { IfOk result (λ v. view v ≡ all_named (get name.now (view template.now))) }
{
    match template.get(name) {
        Some(Value::Array(items)) => named_items(alloc, items.as_slice()),
        _ => Ok(Value::Null),
    }
}

// The members of an object; nothing else has members.
fn members_in(alloc: Global, value: &Value) -> Result<Members, Want>
    ensures { IfOk result (λ m. members_view m.entries ≡ members_in (Some (view value.now))) }
{
    match value.clone()? {
        Value::Object(members) => Ok(members),
        _ => Ok(Map::new(alloc)),
    }
}

// The specification of a pod, by the printed template.
#[tactic(auto, unfolding(crate::specs::Manifested::pod_spec_of, jc_print::specs::PrintedMembers::with_json_member))]
fn pod_value(alloc: Global, template: &Value) -> Result<Value, Want>
    ensures { IfOk result (λ v. view v ≡ pod_spec_of (Some (view template.now))) }
{
    let mut members = members_in(alloc, template)?;
    let containers = named_in(alloc, template, "containers")?;
    put_value(&mut members, alloc, "containers", containers)?;
    let inits = named_in(alloc, template, "initContainers")?;
    put_value(&mut members, alloc, "initContainers", inits)?;
    Ok(Value::Object(members))
}

// The specification of a pod, by the printed one of a Job.
#[tactic(auto, unfolding(crate::specs::Manifested::pod_spec_of))]
fn pod_in(alloc: Global, spec: &Value) -> Result<Value, Want>
    ensures { IfOk result (λ v. view v ≡ pod_spec_of (get (codes "template") (view spec.now))) }
{
    match spec.get("template") {
        Some(template) => pod_value(alloc, template),
        None => pod_value(alloc, &Value::Null),
    }
}

// The specification of a manifest, by the printed one.
#[tactic(auto, unfolding(crate::specs::Manifested::manifest_spec, jc_print::specs::PrintedMembers::with_json_member))]
fn spec_value(alloc: Global, spec: &Value) -> Result<Value, Want>
    ensures { IfOk result (λ v. view v ≡ manifest_spec (view spec.now)) }
{
    let mut members = members_in(alloc, spec)?;
    let pod = pod_in(alloc, spec)?;
    let template = with_only(alloc, "spec", pod)?;
    put_value(&mut members, alloc, "template", template)?;
    Ok(Value::Object(members))
}

// The names of a Job.
#[tactic(auto, unfolding(crate::specs::Manifested::metadata_data, jc_print::specs::PrintedMembers::with_json_member))]
fn metadata_value(alloc: Global, key: &Key) -> Result<Value, Want>
    ensures { IfOk result (λ v. view v ≡ metadata_data key.now) }
{
    let mut members = Map::new(alloc);
    put_text(&mut members, alloc, "name", key.name.as_str())?;
    put_text(&mut members, alloc, "namespace", key.namespace.as_str())?;
    Ok(Value::Object(members))
}

// Puts what a manifest is of.
#[tactic(auto, unfolding(jc_print::specs::PrintedMembers::with_json_member))]
fn put_type(members: &mut Members, alloc: Global) -> Result<(), Want>
    ensures { OnOk result (members_view members.new.entries
        ≡ put (codes "kind") (string (codes "Job"))
        (put (codes "apiVersion") (string (codes "batch/v1")) (members_view members.old.entries))) }
{
    put_text(members, alloc, "apiVersion", "batch/v1")?;
    put_text(members, alloc, "kind", "Job")?;
    Ok(())
}

/// The manifest of the Job of that key, by the printed value of its specification.
#[tactic(auto, unfolding(crate::specs::Manifested::manifest_data, jc_print::specs::PrintedMembers::with_json_member))]
pub fn manifest_of(alloc: Global, key: &Key, spec: &Value) -> Result<Value, Want>
    ensures { IfOk result (λ v. view v ≡ manifest_data key.now (view spec.now)) }
{
    let mut members = Map::new(alloc);
    put_type(&mut members, alloc)?;
    let metadata = metadata_value(alloc, key)?;
    put_value(&mut members, alloc, "metadata", metadata)?;
    let spec = spec_value(alloc, spec)?;
    put_value(&mut members, alloc, "spec", spec)?;
    Ok(Value::Object(members))
}
