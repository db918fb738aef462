//! At which pods a sync of an owner's Job has to look.

ghost use Rattle.std.specs.Prelude.{◌≡◌, IfOk, filter};
ghost use Rattle.jc_states.specs.Noted.{is_at_odds, needs_look};

use crate::pods::is_at_odds;
use crate::uids::is_in;
use jc_types::{Arc, Copied, Pod, Uid, Want};
use std::alloc::Global;

// Whether a sync of the owner has to look at the pod.
fn needs_look(pod: &Pod, owner: Uid, uids: &[Uid], more: &[Uid]) -> bool
    ensures { result ≡ needs_look owner uids.now more.now pod.now }
{
    is_at_odds(pod) || pod.owner_uid.0 != owner.0 || is_in(pod.uid, uids) || is_in(pod.uid, more)
}

// Copies of the pods at odds among these. It goes over all of them.
//
// `Want` where there is no memory for them.
pub(crate) fn odd_among(alloc: Global, pods: &[Arc<Pod>]) -> Result<Vec<Arc<Pod>>, Want>
    ensures { IfOk result (λ odd. odd.items ≡ filter is_at_odds pods.now) }
{
    let mut odd = Vec::new(alloc);
    for pod in pods {
        if is_at_odds(pod) {
            odd.push(pod.copy()?)?;
        }
    }
    Ok(odd)
}

// Copies of the pods at which a sync of the owner has to look. It goes over all pods.
//
// `Want` where there is no memory for them.
pub(crate) fn pods_to_look_at(
    alloc: Global,
    pods: &[Arc<Pod>],
    owner: Uid,
    uids: &[Uid],
    more: &[Uid],
) -> Result<Vec<Arc<Pod>>, Want>
    ensures { IfOk result (λ noted. noted.items
        ≡ filter (needs_look owner uids.now more.now) pods.now) }
{
    let mut noted = Vec::new(alloc);
    for pod in pods {
        if needs_look(pod, owner, uids, more) {
            noted.push(pod.copy()?)?;
        }
    }
    Ok(noted)
}
