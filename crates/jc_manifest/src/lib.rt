//! The rules on what a Job's specification may say and how it may be changed (Kubernetes batch/v1).
#![tactic(auto)]

mod index_limits;
mod laws;
mod limits;
mod manifests;
mod metadata;
mod updates;

pub use laws::{accepted_manifests_are_valid, allowed_updates_stay_valid};
pub use manifests::read_job;
pub use updates::{UpdateFault, check_update};
