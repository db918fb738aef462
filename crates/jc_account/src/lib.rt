//! What a sync of the Job controller counts (KEP-2307): which pods it judges, whose UIDs it lists as
//! uncounted, which it counts for good, and whose finalizer is to go.
#![tactic(auto)]

mod accounts;
mod indexes;
mod judgements;
mod laws;
mod listed;
mod releases;
mod rooms;
mod uids;

pub use accounts::{count_in, count_out};
pub use judgements::{Judgement, retain_within};
pub use laws::{
    indexes_are_counted_in, lists_are_counted_in, newly_judged_are_filters,
    released_lists_end_empty, releases_hold_the_lists, totals_are_counted_in,
    totals_are_counted_out,
};
pub use rooms::{first_beyond, joins_list};
