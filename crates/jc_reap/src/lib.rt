//! Collection after finish: the commands that delete finished Jobs whose time is over
//! (`ttlSecondsAfterFinished` of batch/v1), and that mark the pods whose Job is gone.
#![tactic(auto)]

mod expiries;
mod laws;
mod makers;
mod marking;
mod reaping;
mod removals;
mod ttls;

pub use expiries::Expiry;
pub use laws::{
    as_many_ttls_as_commands, collecting_plays_are_due, expired_jobs_are_listed,
    longer_scripts_play_on, reaped_commands_can_be_said, reaped_commands_fit, reaped_is_due,
    reaped_plays,
};
pub use reaping::{reap, reap_machine};
pub use ttls::{Ttls, read_ttls};
