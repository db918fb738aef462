//! What state a pod or a Job is in (batch/v1, core/v1): whether a pod is open, active, ending or ready,
//! which index it has, how many pods of a Job are in a state, whether a UID is listed as uncounted, and
//! which conditions of a Job stand. `Pods` has pods in ascending UID, and beside them the numbers of each
//! owner, the indexes that its active pods hold, and the UIDs of the pods whose finalizer and state are at
//! odds, so that these are known without a look at the pods. A `Basis` is what one sync sees.
#![tactic(auto)]

mod bases;
mod conditions;
mod counts;
mod held;
mod holders;
mod indexes;
mod laws;
mod noted;
mod odds;
mod owners;
mod phases;
mod pod_lists;
mod pods;
mod rows;
mod tallies;
mod uids;

pub use bases::Basis;
pub use conditions::{has_end, has_target, stands};
pub use counts::{
    count_active, count_ending, count_restarts, count_tracked_active, has_active, has_open,
};
pub use indexes::{has_index, is_completed};
pub use laws::{bases_are_compared, lists_merge};
pub use owners::is_foreign;
pub use phases::{is_final, is_pending, same_phase};
pub use pod_lists::{Pods, is_there, place_from};
pub use pods::{
    goes, is_active, is_at_odds, is_ending, is_marked, is_open, is_own, is_ready, is_tracked_active,
};
pub use tallies::Tally;
pub use uids::{is_in, is_listed};
