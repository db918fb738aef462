//! What the ledgers of all Jobs have counted, by one pass over a log and one over a history
//! (KEP-2307).
#![tactic(auto)]

mod books;
mod by_uid;
mod counting;
mod events;
mod places;
mod rows;
mod seen;
mod starts;
mod workers;

pub use counting::{all_verdicts, verdicts, verdicts_at};
