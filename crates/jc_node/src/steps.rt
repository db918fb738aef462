//! The next step of the node.

ghost use Rattle.std.specs.Prelude.{◌≡◌, ◌+◌, ◌<◌, ◌≤◌, ◌^◌, length, option_map};
ghost use Rattle.std.specs.List.{AllByRecursion as Each};
ghost use Rattle.jc_history.specs.Nodes.{node_step};
ghost use Rattle.jc_log.specs.Log.{pods_in};
ghost use Rattle.jc_node.specs.Fated.{ends_at_key};
ghost use Rattle.jc_node.specs.NodeSteps.{step_of};

use crate::acts::{NodeStep, act_on};
use crate::fates::Fates;
use jc_store::Store;
use jc_types::Uid;

// The UIDs of pods are numbers of entries of the log, of which 32 bits can count one more.
fn can_count_on(store: &Store)
    ensures within { Each (λ pod. pod.uid.0 ≤ length store.now) (pods_in store.now) }
    ensures small { length store.now + 1 < 2 ^ 32 }
{
    let _log = store.log();
}

/// The next step of the node: what befalls the open pod with the least UID that something befalls;
/// `None` exactly where nothing befalls any pod. It looks at open pods alone.
pub fn node_step(store: &Store, fates: &Fates) -> Option<NodeStep>
    ensures { result ≡ option_map step_of (node_step store.now (ends_at_key fates.now)) }
{
    can_count_on(store);
    let mut from = 0;
    'pods: while let Some(pod) = store.open_pod_from(Uid(from)) {
        let uid = pod.uid;
        if let Some(act) = act_on(fates, pod) {
            return Some(NodeStep { pod: uid, act });
        }
        from = uid.0 + 1;
    }
    None
}
