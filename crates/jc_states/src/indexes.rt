//! The completion index of a pod of an Indexed Job (KEP-2214).

ghost use Rattle.std.specs.Prelude.{◌≡◌};
ghost use Rattle.jc_states.specs.Indexes.{has_index, is_completed};

use jc_ranges::Ranges;
use jc_types::Pod;

/// Whether the pod has the index `n`.
pub fn has_index(pod: &Pod, n: u32) -> bool
    ensures { result ≡ has_index n pod.now }
{
    match pod.index {
        None => false,
        Some(index) => index == n,
    }
}

/// Whether the pod has an index, and it is one of the completed ones.
pub fn is_completed(completed: &Ranges, pod: &Pod) -> bool
    ensures { result ≡ is_completed completed.now pod.now }
{
    match pod.index {
        None => false,
        Some(index) => completed.contains(index),
    }
}
