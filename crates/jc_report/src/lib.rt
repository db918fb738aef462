//! The report of a machine, and its summary, as bytes that go out; and those of a cluster.
#![tactic(auto)]

mod drafted;
mod pages;
mod reports;

pub use drafted::{Report, report_of_machine, write_report};
pub use jc_core::{ApplyFault, Machine, new_machines_play_the_whole_script, play};
pub use reports::{report, summary, summary_of_machine};
