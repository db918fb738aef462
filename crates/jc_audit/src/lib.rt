//! The auditor: whether bytes are a report, whoever printed them.
#![tactic(auto)]

mod audits;
mod laws;
mod tails;
mod taking;
mod verdicts;
mod walking;

pub use audits::audit;
pub use jc_reading::read_scripts_are_proper;
pub use laws::{
    histories_print_reports, proper_actions_are_valid, reports_are_of_histories,
    verdicts_are_unique,
};
pub use verdicts::Verdict;
