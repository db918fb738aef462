//! What is reported of a pod after what befell it.

ghost use Rattle.std.specs.Prelude.{◌≡◌, ◌++◌, IfOk, IsSome, OnOk, Some, filter_map, if◌then◌else◌, option_map, option_to_list, pos};
ghost use Rattle.std.specs.Ordering.{int_eq};
ghost use Rattle.jc_types.specs.declared.objects.Phase.TheVariants.{Failed, Succeeded};
ghost use Rattle.jc_history.specs.Nodes.{again_change, change_by, exits, finish_change, finishes, first_container, killed, once_more, pod_end, start_change, stop_change, with_exit};
ghost use Rattle.jc_node.specs.Fated.{ends_at_key};
ghost use Rattle.jc_node.specs.NodeSteps.{act_of, code_after, code_for};

use crate::acts::{NodeAct, NodeStep};
use crate::conditions::true_conditions;
use crate::fates::Fates;
use jc_states::is_pending;
use jc_types::{
    Container, ContainerChange, ContainerChanges, Copied, Phase, PhaseChange, Pod, PodConditions,
    Text, Want,
};
use std::alloc::Global;

// The container exits with the code.
fn with_exit(container: &Container, exit: i32) -> Result<ContainerChange, Want>
    ensures { IfOk result (λ change. change ≡ with_exit exit container.now) }
{
    Ok(ContainerChange {
        name: container.name.copy()?,
        exit: Some(exit),
        restarts: None,
    })
}

// The code that a container exits with, where the next that is no init container has this one.
fn code_for(init: bool, code: i32) -> i32
    ensures { result ≡ code_for init code }
{
    if init { 0 } else { code }
}

// The code of the next container after it that is no init container.
fn code_after(init: bool, code: i32) -> i32
    ensures { result ≡ code_after init code }
{
    if init { code } else { 0 }
}

// Every container exits with 0, but the first one that is no init container with the code.
fn exits(alloc: Global, containers: &[Container], exit: i32) -> Result<ContainerChanges, Want>
    ensures { IfOk result (λ changes. changes ≡ exits exit containers.now) }
{
    let mut changes = ContainerChanges::new(alloc);
    let mut code = exit;
    for container in containers {
        changes.push(with_exit(container, code_for(container.init, code))?)?;
        code = code_after(container.init, code);
    }
    Ok(changes)
}

// The phase of a pod whose first container that is no init container has exited with the code.
fn phase_after(exit: i32) -> Phase
    ensures { result ≡ (if int_eq exit (pos 0) then Succeeded else Failed) }
{
    if exit == 0 {
        Phase::Succeeded
    } else {
        Phase::Failed
    }
}

// The pod finishes with the code, and has the condition where one is given.
fn finishes(
    alloc: Global,
    pod: &Pod,
    exit: i32,
    condition: Option<Text>,
) -> Result<PhaseChange, Want>
    ensures { IfOk result (λ change. change ≡ finishes pod.now exit condition) }
{
    Ok(PhaseChange {
        phase: phase_after(exit),
        containers: exits(alloc, pod.containers.as_slice(), exit)?,
        conditions: true_conditions(alloc, condition)?,
    })
}

/// What is reported of a pod that a command finishes with an exit code: it has succeeded where that
/// is 0, and else failed. Every container exits with 0, but the first one that is no init container
/// with the code.
///
/// # Errors
/// `Want` where there is no memory for it.
pub fn finish_change(alloc: Global, pod: &Pod, exit: i32) -> Result<PhaseChange, Want>
    ensures { IfOk result (λ change. change ≡ finish_change pod.now exit) }
{
    finishes(alloc, pod, exit, None)
}

// Kills the container, where it still runs: it exits with 143.
fn kill(changes: &mut ContainerChanges, container: &Container) -> Result<(), Want>
    ensures { OnOk result (changes.new ≡ changes.old ++ option_to_list (killed container.now)) }
{
    if container.init || container.exit.is_some() {
        return Ok(());
    }
    changes.push(with_exit(container, 143)?)?;
    Ok(())
}

// The containers that still run are killed.
fn kills(alloc: Global, containers: &[Container]) -> Result<ContainerChanges, Want>
    ensures { IfOk result (λ changes. changes ≡ filter_map killed containers.now) }
{
    let mut changes = ContainerChanges::new(alloc);
    for container in containers {
        kill(&mut changes, container)?;
    }
    Ok(changes)
}

// What is reported of the containers of a pod that is stopped.
fn stopped(alloc: Global, pod: &Pod) -> Result<ContainerChanges, Want>
    ensures { IfOk result (λ changes. changes ≡ (stop_change pod.now).containers) }
{
    if is_pending(pod.phase) {
        return Ok(ContainerChanges::new(alloc));
    }
    kills(alloc, pod.containers.as_slice())
}

// A marked pod is stopped: it fails, and what runs of it is killed.
fn stop_change(alloc: Global, pod: &Pod) -> Result<PhaseChange, Want>
    ensures { IfOk result (λ change. change ≡ stop_change pod.now) }
{
    Ok(PhaseChange {
        phase: Phase::Failed,
        containers: stopped(alloc, pod)?,
        conditions: PodConditions::new(alloc),
    })
}

// A pending pod starts, and is ready.
fn start_change(alloc: Global, fates: &Fates) -> Result<PhaseChange, Want>
    ensures { IfOk result (λ change. change ≡ start_change) }
{
    Ok(PhaseChange {
        phase: Phase::Running,
        containers: ContainerChanges::new(alloc),
        conditions: fates.ready()?,
    })
}

// The container restarts.
fn once_more(container: &Container) -> Result<ContainerChange, Want>
    ensures { IfOk result (λ change. change ≡ once_more container.now) }
{
    Ok(ContainerChange {
        name: container.name.copy()?,
        exit: None,
        restarts: Some(container.restarts.saturating_add(1)),
    })
}

// The first of the containers restarts, where there is one.
fn restarted(alloc: Global, containers: &[Container]) -> Result<ContainerChanges, Want>
    ensures { IfOk result (λ changes. changes
        ≡ option_to_list (option_map once_more (first_container containers.now))) }
{
    let mut changes = ContainerChanges::new(alloc);
    if let Some(container) = containers.first() {
        changes.push(once_more(container)?)?;
    }
    Ok(changes)
}

// The pod's first container restarts.
fn again_change(alloc: Global, pod: &Pod) -> Result<PhaseChange, Want>
    ensures { IfOk result (λ change. change ≡ again_change pod.now) }
{
    Ok(PhaseChange {
        phase: Phase::Running,
        containers: restarted(alloc, pod.containers.as_slice())?,
        conditions: PodConditions::new(alloc),
    })
}

// The pod finishes as its fate says.
fn fated_change(alloc: Global, pod: &Pod, fates: &Fates) -> Result<PhaseChange, Want>
    requires { IsSome (pod_end (ends_at_key fates.now) pod.now) }
    ensures { IfOk result (λ change. option_map (λ end. finishes pod.now end.exit end.condition)
        (pod_end (ends_at_key fates.now) pod.now) ≡ Some change) }
{
    let Some(end) = fates.end_of(pod) else {
        unreachable!()
    };
    finishes(alloc, pod, end.exit, end.condition.copy()?)
}

/// What is reported of the pod of a step after it. Where the step finishes the pod, its fate is
/// decided.
///
/// # Errors
/// `Want` where there is no memory for it.
pub fn change(alloc: Global, step: &NodeStep, pod: &Pod, fates: &Fates) -> Result<PhaseChange, Want>
    requires pod { step.now.pod ≡ pod.now.uid }
    requires fate { IsSome (act_of step.now.act (pod_end (ends_at_key fates.now) pod.now)) }
    ensures { IfOk result (λ change. option_map (change_by pod.now)
        (act_of step.now.act (pod_end (ends_at_key fates.now) pod.now)) ≡ Some change) }
{
    match step.act {
        NodeAct::Stop => stop_change(alloc, pod),
        NodeAct::Start => start_change(alloc, fates),
        NodeAct::Again => again_change(alloc, pod),
        NodeAct::Finish => fated_change(alloc, pod, fates),
    }
}
