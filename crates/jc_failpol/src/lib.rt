//! The pod failure policy of a Job (KEP-3329): which rule decides about a failed pod, and what a pod has
//! come to, as the Job counts it.
#![tactic(auto)]

mod job_failures;
mod judgements;
mod laws;
mod outcomes;
mod rules;

pub use job_failures::{fails_job, is_fail_job};
pub use judgements::{has_ended, outcome};
pub use laws::{first_match_decides, outcomes_are_told_apart, outcomes_stay};
pub use outcomes::{Outcome, is_verdict, same_outcome};
pub use rules::{action, action_of};
