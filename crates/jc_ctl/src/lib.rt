//! The program whole: what its words ask for is read, played and written, on one thread or on several.
#![tactic(auto)]

mod audited;
mod laws;
mod run;
mod threaded;

pub use audited::run_audit;
pub use jc_shared::{Cluster, FreeGate, Gate, run_turn};
pub use jc_single::{
    Status, jobs_end_or_wait, plays_tell_their_history, reapers_collect_what_is_due, report,
    run_single, runs_tell_their_history, single_runs_end_as_told,
};
pub use jc_words::default_shape;
pub use laws::{
    audited_reports_keep_the_promises, played_scripts_are_proper, runs_end_as_told,
    written_reports_pass_audits,
};
pub use run::{is_single, run_program};
