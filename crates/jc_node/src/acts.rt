//! What befalls a pod, and what a step of the node is.

ghost use Rattle.std.specs.Prelude.{◌≡◌, false, nat_lt, option_copied, option_map};
ghost use Rattle.std.specs.Option.{option_map_or};
ghost use Rattle.jc_history.specs.Nodes.{act_on, act_with, first_container, is_again};
ghost use Rattle.jc_node.specs.Fated.{ends_at_key};
ghost use Rattle.jc_node.specs.NodeSteps.{act_kind};

use crate::fates::Fates;
use jc_finish::restarts_on_failure;
use jc_states::{is_marked, is_open, is_pending};
use jc_types::{Container, End, Pod, Uid};

/// What the node does to a pod.
#[derive(Clone, Copy, PartialEq, Eq, Debug)]
pub enum NodeAct {
    /// A pod that is marked for deletion is stopped.
    Stop,
    /// A pending pod starts.
    Start,
    /// The first container of a running pod is restarted.
    Again,
    /// A running pod finishes as its fate says.
    Finish,
}

/// What the node does next.
#[derive(Clone, Copy, PartialEq, Eq, Debug)]
pub struct NodeStep {
    /// The pod that something befalls.
    pub pod: Uid,
    /// What befalls it.
    pub act: NodeAct,
}

// Whether the first container was restarted less often than this.
fn is_below(containers: &[Container], restarts: u32) -> bool
    ensures { result ≡ option_map_or (λ container. nat_lt container.restarts restarts)
        (first_container containers.now) false }
{
    match containers.first() {
        None => false,
        Some(container) => container.restarts < restarts,
    }
}

// Whether the first container is to be restarted: more often, or as long as it would fail.
fn is_again(pod: &Pod, end: &End) -> bool
    ensures { result ≡ is_again pod.now end.now }
{
    restarts_on_failure(pod.restart)
        && (is_below(pod.containers.as_slice(), end.restarts) || end.exit != 0)
}

// What befalls an open pod that is not marked and is to end so.
fn act_with(pod: &Pod, end: Option<&End>) -> Option<NodeAct>
    ensures { result ≡ option_map act_kind (act_with pod.now (option_copied end.entry)) }
{
    let end = end?;
    if is_pending(pod.phase) {
        return Some(NodeAct::Start);
    }
    if is_again(pod, end) {
        return Some(NodeAct::Again);
    }
    Some(NodeAct::Finish)
}

// What befalls the pod.
pub(crate) fn act_on(fates: &Fates, pod: &Pod) -> Option<NodeAct>
    ensures { result ≡ option_map act_kind (act_on (ends_at_key fates.now) pod.now) }
{
    if !is_open(pod) {
        return None;
    }
    if is_marked(pod) {
        return Some(NodeAct::Stop);
    }
    act_with(pod, fates.end_of(pod))
}
