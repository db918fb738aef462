//! What a report of a pod's phase changes.
ghost use Rattle.std.specs.Prelude.{◌≡◌, ◌&&◌, IfOk, fold, map, nat_eq, option_copied, find};
ghost use Rattle.std.specs.Cmp.Lexicographic.{pointwise};
ghost use Rattle.std.specs.List.{list_any};
ghost use Rattle.jc_types.specs.declared.objects.Phase.TheVariants.{Pending, Running};
ghost use Rattle.jc_log.specs.Requests.{changed_by, changed_container, given_exit, is_unnamed, named, put_pattern, same_course_of};
ghost use Rattle.jc_types.specs.Equality.{same_phase, same_container, same_pattern};

use jc_states::same_phase;
use jc_types::{
    Arc, Container, ContainerChange, Containers, Copied, Name, Pattern, Patterns, Phase,
    PhaseChange, Pod, Same, Text, Version, Want,
};
use std::alloc::Global;

// The pod with the phase and the conditions of the report, and with these containers.
pub(super) fn with_report(
    alloc: Global,
    pod: &Pod,
    version: Version,
    change: &PhaseChange,
    containers: Containers,
) -> Result<Arc<Pod>, Want>
    ensures { IfOk result (λ r. r ≡ record pod.now {
      version = version;
      phase = change.now.phase;
      containers = containers;
      conditions = fold put_pattern pod.now.conditions change.now.conditions;
    }) }
{
    Arc::new(
        alloc,
        Pod {
            uid: pod.uid,
            version,
            owner: pod.owner.copy()?,
            owner_uid: pod.owner_uid,
            serial: pod.serial,
            index: pod.index,
            restart: pod.restart,
            phase: change.phase,
            containers,
            conditions: with_conditions(alloc, &pod.conditions, &change.conditions)?,
            marked: pod.marked,
            tracked: pod.tracked,
            created: pod.created,
        },
    )
}

// The containers with each change of their names.
pub(super) fn changed_containers(
    alloc: Global,
    containers: &[Container],
    changes: &[ContainerChange],
) -> Result<Containers, Want>
    ensures { IfOk result (λ r. r ≡ map (changed_container changes.now) containers.now) }
{
    let mut list = Containers::new(alloc);
    for container in containers {
        list.push(changed_container(container, changes)?)?;
    }
    Ok(list)
}

// The container with each change of its name.
fn changed_container(container: &Container, changes: &[ContainerChange]) -> Result<Container, Want>
    ensures { IfOk result (λ r. r ≡ changed_container changes.now container.now) }
{
    let mut changed = container.copy()?;
    for change in changes {
        apply(&mut changed, change);
    }
    Ok(changed)
}

// Changes the container, where the change names it.
fn apply(container: &mut Container, change: &ContainerChange)
    ensures { container.new ≡ changed_by container.old change.now }
{
    if container.name == change.name {
        container.exit = given_exit(change.exit, container.exit);
        container.restarts = change.restarts.unwrap_or(container.restarts);
    }
}

// The exit code that is given, or else the old one.
fn given_exit(given: Option<i32>, old: Option<i32>) -> Option<i32>
    ensures { result ≡ given_exit given old }
{
    match given {
        None => old,
        Some(given) => Some(given),
    }
}

// The conditions with each given one. Most pods have none before, and the given one is then shared.
fn with_conditions(alloc: Global, conditions: &Patterns, given: &Patterns) -> Result<Patterns, Want>
    ensures { IfOk result (λ r. r ≡ fold put_pattern conditions.now given.now) }
{
    if conditions.is_empty() && given.len() <= 1 {
        return given.copy();
    }
    changed_conditions(alloc, conditions, given.as_slice())
}

// The conditions with each given one put among them.
fn changed_conditions(
    alloc: Global,
    conditions: &Patterns,
    given: &[Pattern],
) -> Result<Patterns, Want>
    ensures { IfOk result (λ r. r ≡ fold put_pattern conditions.now given.now) }
{
    let mut list = conditions.copy()?;
    for pattern in given {
        list = with_condition(alloc, list.as_slice(), pattern)?;
    }
    Ok(list)
}

// The conditions with the given one in the place of that of its kind, or at the end.
fn with_condition(alloc: Global, conditions: &[Pattern], given: &Pattern) -> Result<Patterns, Want>
    ensures { IfOk result (λ r. r ≡ put_pattern conditions.now given.now) }
{
    let mut list = Patterns::new(alloc);
    let mut placed = false;
    for pattern in conditions {
        if !placed && is_of_kind(pattern, &given.kind) {
            placed = true;
            list.push(given.copy()?)?;
        } else {
            list.push(pattern.copy()?)?;
        }
    }
    if !placed {
        list.push(given.copy()?)?;
    }
    Ok(list)
}

// Whether the condition has the kind.
fn is_of_kind(pattern: &Pattern, kind: &Text) -> bool
    ensures { result ≡ pointwise nat_eq pattern.now.kind kind.now }
{
    pattern.kind.as_str() == kind.as_str()
}

// The first change that names no container of the pod.
pub(super) fn first_unnamed<'a>(
    pod: &Pod,
    changes: &'a [ContainerChange],
) -> Option<&'a ContainerChange>
    ensures { option_copied result ≡ find (is_unnamed pod.now) changes.now }
{
    changes
        .iter()
        .find(|change| !has_container(pod, &change.name))
}

// Whether a container of the pod has the name.
fn has_container(pod: &Pod, name: &Name) -> bool
    ensures { result ≡ list_any (named name.now) pod.now.containers }
{
    pod.containers
        .as_slice()
        .iter()
        .any(|container| container.name == *name)
}

// Whether a report would take the pod from Running back to Pending.
pub(super) fn is_step_back(from: Phase, to: Phase) -> bool
    ensures { result ≡ (same_phase from Running && same_phase to Pending) }
{
    same_phase(from, Phase::Running) && same_phase(to, Phase::Pending)
}

// Whether what a report may change agrees.
pub(super) fn same_course_of(left: &Pod, right: &Pod) -> bool
    ensures { result ≡ same_course_of left.now right.now }
{
    same_phase(left.phase, right.phase)
        && is_same_containers(&left.containers, &right.containers)
        && is_same_conditions(&left.conditions, &right.conditions)
}

// Whether the containers are the same.
fn is_same_containers(left: &Containers, right: &Containers) -> bool
    ensures { result ≡ pointwise same_container left.now right.now }
{
    left.is_same(right)
}

// Whether the conditions are the same.
fn is_same_conditions(left: &Patterns, right: &Patterns) -> bool
    ensures { result ≡ pointwise same_pattern left.now right.now }
{
    left.is_same(right)
}
