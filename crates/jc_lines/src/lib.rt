//! The lines of a report: what each event did and was answered, what each Job has come to, and a
//! summary; the whole report and the whole summary of their parts; and what the lines determine. Each
//! function `print_..` or `put_..` puts a text behind what stands already.
#![tactic(auto)]

mod drafts;
mod events;
mod job_lists;
mod jobs;
mod laws;
mod reports;
mod short;
mod summaries;

pub use drafts::{Draft, draft_of_parts};
pub use events::{print_event, put_event, put_short_event};
pub use jc_texts::{print_action, print_system};
pub use jobs::print_job;
pub use laws::{lines_determine_histories, lines_tell_events, lines_tell_histories};
pub use reports::{report_of_parts, summary_of_parts, tail};
pub use short::is_short;
pub use summaries::{print_full, print_summary, print_verdicts};
