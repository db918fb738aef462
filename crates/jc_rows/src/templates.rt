//! What a manifest says of a Job's pods.

ghost use Rattle.std.specs.Prelude.{◌≡◌, ◌+◌, [], ◌||◌, nat_le, codes, map, option_map, unwrap_or};
ghost use Rattle.jc_json.specs.View.{view};
ghost use Rattle.jc_json.specs.Place.{path_to};
ghost use Rattle.jc_rows.specs.ManifestRows.{Checks, Reads, text_row, object_row, object_in};
ghost use Rattle.jc_rows.specs.Templates.{restart_of, is_restart, restart_in, never_restarts, restart_row, restart_refusal, objects_row, list_in, given_list_in, init_count, containers_refusal, inits_refusal, is_among, name_row};
ghost use Rattle.jc_rows.specs.Templates.{container_name, names_row, names_in, all_names_refusal, names_of_both, all_containers_refusal, all_names_in, pod_refusal, template_in_pod, template_refusal, template_in};

use crate::refusals::{ManifestFault, broken};
use crate::words::is_label;
use jc_json::{
    Trail, Value, given_items, item_object, may_list, need_list, need_object, need_text,
};
use jc_types::{Name, Names, Restart, Template};
use std::alloc::Global;

// A template has at most this many containers and init containers.
const MOST: usize = 100;

// The names of the containers and of the init containers.
#[derive(Drop)]
struct ContainerNames {
    containers: Names,
    inits: Names,
}

// The restart policy of that word.
fn restart_of(text: &str) -> Option<Restart>
    ensures { result ≡ restart_of text.now }
{
    if text == "Never" {
        return Some(Restart::Never);
    }
    if text == "OnFailure" {
        return Some(Restart::OnFailure);
    }
    None
}

// What becomes of a container that exits.
#[tactic(auto, unfolding(crate::specs::ManifestRows::text_row, crate::specs::Templates::restart_in))]
fn read_restart(alloc: Global, pod: &Value, path: &Trail) -> Result<Restart, ManifestFault>
    ensures { Reads (λ restart. restart) result
        (text_row path.now (view pod.now) (codes "restartPolicy") 9 is_restart)
        (restart_in path.now (view pod.now)) }
{
    let text = need_text(alloc, pod, path, "restartPolicy")?;
    match restart_of(text) {
        Some(restart) => Ok(restart),
        None => Err(broken(path, "restartPolicy", 9)),
    }
}

/// Whether no container is restarted.
pub fn never_restarts(restart: Restart) -> bool
    ensures { result ≡ never_restarts restart }
{
    match restart {
        Restart::Never => true,
        Restart::OnFailure => false,
    }
}

// That no container is restarted where failures are limited by index.
fn check_restart(path: &Trail, by_index: bool, restart: Restart) -> Result<(), ManifestFault>
    ensures { Checks result (restart_row by_index path.now restart) }
{
    if by_index && !never_restarts(restart) {
        return Err(broken(path, "restartPolicy", 33));
    }
    Ok(())
}

// What becomes of a container that exits, which is tied where failures are limited by index.
#[tactic(auto, unfolding(crate::specs::Templates::restart_refusal))]
fn read_fit_restart(
    alloc: Global,
    pod: &Value,
    path: &Trail,
    by_index: bool,
) -> Result<Restart, ManifestFault>
    ensures { Reads (λ restart. restart) result
        (restart_refusal by_index path.now (view pod.now))
        (restart_in path.now (view pod.now)) }
{
    let restart = read_restart(alloc, pod, path)?;
    check_restart(path, by_index, restart)?;
    Ok(restart)
}

/// That each item of a list is an object.
#[tactic(auto, unfolding(crate::specs::Templates::objects_row))]
pub fn check_objects(items: &[Value], path: &Trail) -> Result<(), ManifestFault>
    ensures { Checks result (objects_row path.now (map view items.now)) }
{
    for (place, item) in items.iter().enumerate() {
        item_object(item, path, place)?;
    }
    Ok(())
}

// How many init containers there are, where their member is a list at all.
#[tactic(auto, using(crate::proofs::Lists::items_counted), unfolding(crate::specs::Templates::init_count))]
fn init_count(pod: &Value) -> usize
    ensures { result ≡ init_count (view pod.now) }
{
    match pod.get("initContainers").and_then(Value::as_array) {
        Some(inits) => inits.len(),
        None => 0,
    }
}

// Whether there are not too many of both.
fn are_few(containers: usize, inits: usize) -> bool
    ensures { result ≡ nat_le (containers + inits) 100 }
{
    containers <= MOST && inits <= MOST - containers
}

// The containers.
#[tactic(auto, unfolding(crate::specs::Templates::containers_refusal, crate::specs::Templates::list_in))]
fn read_containers<'a>(
    alloc: Global,
    pod: &Value<'a>,
    path: &Trail,
) -> Result<&'a [Value<'a>], ManifestFault>
    ensures { Reads (λ items. map view items.now) result
        (containers_refusal path.now (view pod.now))
        (list_in path.now (view pod.now) (codes "containers")) }
{
    let containers = need_list(alloc, pod, path, "containers")?;
    if containers.len() == 0 || !are_few(containers.len(), init_count(pod)) {
        return Err(broken(path, "containers", 10));
    }
    check_objects(containers, &path.path_to("containers"))?;
    Ok(containers)
}

// The init containers, where they are given.
#[tactic(auto, unfolding(crate::specs::Templates::inits_refusal, crate::specs::Templates::given_list_in))]
fn read_inits<'a>(
    alloc: Global,
    pod: &Value<'a>,
    path: &Trail,
) -> Result<Option<&'a [Value<'a>]>, ManifestFault>
    ensures { Reads (λ given. unwrap_or (option_map (λ items. map view items.now) given) [])
        result (inits_refusal path.now (view pod.now))
        (given_list_in path.now (view pod.now) (codes "initContainers")) }
{
    let inits = may_list(alloc, pod, path, "initContainers")?;
    check_objects(given_items(inits), &path.path_to("initContainers"))?;
    Ok(inits)
}

/// Whether a text is one of the names.
pub fn is_among(names: &[Name], text: &str) -> bool
    ensures { result ≡ is_among names.now text.now }
{
    names.iter().any(|name| name.as_str() == text)
}

// The name of a container, which no other has.
#[tactic(auto, unfolding(crate::specs::ManifestRows::text_row, crate::specs::Templates::name_row, crate::specs::Templates::container_name))]
fn read_name(
    alloc: Global,
    container: &Value,
    path: &Trail,
    others: &Names,
    earlier: &Names,
) -> Result<Name, ManifestFault>
    ensures { Reads (λ name. name) result
        (name_row others.now earlier.now path.now (view container.now))
        (container_name path.now (view container.now)) }
{
    let text = need_text(alloc, container, path, "name")?;
    if !is_label(text.as_bytes()) {
        return Err(broken(path, "name", 11));
    }
    if is_among(others.as_slice(), text) || is_among(earlier.as_slice(), text) {
        return Err(broken(path, "name", 11));
    }
    Ok(Name::from_text(alloc, text)?)
}

// The names of containers, which differ from each other and from the others.
fn read_names(
    alloc: Global,
    items: &[Value],
    path: &Trail,
    others: &Names,
) -> Result<Names, ManifestFault>
    ensures { Reads (λ names. names) result
        (names_row path.now others.now [] 0 (map view items.now))
        (names_in path.now 0 (map view items.now)) }
{
    let mut names = Names::new(alloc);
    for (place, item) in items.iter().enumerate() {
        let name = read_name(alloc, item, &path.path_at(place), others, &names)?;
        names.push(name)?;
    }
    Ok(names)
}

// The names of all containers, of which no two are equal.
#[tactic(auto, unfolding(crate::specs::Templates::all_names_refusal, crate::specs::Templates::names_of_both))]
fn read_all_names(
    alloc: Global,
    containers: &[Value],
    inits: &[Value],
    path: &Trail,
) -> Result<ContainerNames, ManifestFault>
    ensures { Reads (λ names. names) result
        (all_names_refusal path.now (map view containers.now) (map view inits.now))
        (names_of_both path.now (map view containers.now) (map view inits.now)) }
{
    let at = path.path_to("containers");
    let containers = read_names(alloc, containers, &at, &Names::new(alloc))?;
    let at = path.path_to("initContainers");
    let inits = read_names(alloc, inits, &at, &containers)?;
    Ok(ContainerNames { containers, inits })
}

// The containers and the init containers.
#[tactic(auto, unfolding(crate::specs::Templates::all_containers_refusal, crate::specs::Templates::all_names_in))]
fn read_all_containers(
    alloc: Global,
    pod: &Value,
    path: &Trail,
) -> Result<ContainerNames, ManifestFault>
    ensures { Reads (λ names. names) result (all_containers_refusal path.now (view pod.now))
        (all_names_in path.now (view pod.now)) }
{
    let containers = read_containers(alloc, pod, path)?;
    let inits = read_inits(alloc, pod, path)?;
    let names = read_all_names(alloc, containers, given_items(inits), path)?;
    Ok(names)
}

// What the pods are made from.
#[tactic(auto, unfolding(crate::specs::Templates::pod_refusal, crate::specs::Templates::template_in_pod))]
fn read_pod(
    alloc: Global,
    pod: &Value,
    path: &Trail,
    by_index: bool,
) -> Result<Template, ManifestFault>
    ensures { Reads (λ template. template) result (pod_refusal by_index path.now (view pod.now))
        (template_in_pod path.now (view pod.now)) }
{
    let restart = read_fit_restart(alloc, pod, path, by_index)?;
    let names = read_all_containers(alloc, pod, path)?;
    Ok(Template {
        restart,
        containers: names.containers,
        inits: names.inits,
    })
}

/// A member that must be an object.
#[tactic(auto, unfolding(crate::specs::ManifestRows::object_row, crate::specs::ManifestRows::object_in))]
pub fn read_object<'v, 'a>(
    alloc: Global,
    object: &'v Value<'a>,
    path: &Trail,
    name: &str,
) -> Result<&'v Value<'a>, ManifestFault>
    ensures { Reads (λ found. view found.now) result
        (object_row path.now (view object.now) name.now)
        (object_in path.now (view object.now) name.now) }
{
    Ok(need_object(alloc, object, path, name)?)
}

/// What the pods of the Job are made from; `by_index` says whether failures are limited for each index.
#[tactic(auto, unfolding(crate::specs::Templates::template_refusal, crate::specs::Templates::template_in))]
pub fn read_template(
    alloc: Global,
    spec: &Value,
    path: &Trail,
    by_index: bool,
) -> Result<Template, ManifestFault>
    ensures { Reads (λ template. template) result (template_refusal by_index path.now (view spec.now))
        (template_in path.now (view spec.now)) }
{
    let template = read_object(alloc, spec, path, "template")?;
    let at = path.path_to("template");
    let pod = read_object(alloc, template, &at, "spec")?;
    let template = read_pod(alloc, pod, &at.path_to("spec"), by_index)?;
    Ok(template)
}
