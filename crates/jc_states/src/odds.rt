//! The numbers of the UIDs of the pods at odds, as a list of pods keeps them.

ghost use Rattle.std.specs.Prelude.{◌≡◌, OnErr, OnOk};
ghost use Rattle.jc_states.specs.Noted.{with_note};

use crate::pods::is_at_odds;
use jc_types::{Pod, Want};
use std::collections::BTreeSet;

// Puts the number of the pod's UID in where it is at odds, and takes it out where it is not.
//
// `Want` where there is no memory for it; the numbers are then as before.
pub(crate) fn put_odd(numbers: &mut BTreeSet<u32>, pod: &Pod) -> Result<(), Want>
    ensures noted { OnOk result (numbers.new.keys ≡ with_note pod.now numbers.old.keys) }
    ensures kept { OnErr result (numbers.new.keys ≡ numbers.old.keys) }
{
    if is_at_odds(pod) {
        numbers.insert(pod.uid.0)?;
        return Ok(());
    }
    numbers.remove(&pod.uid.0);
    Ok(())
}
