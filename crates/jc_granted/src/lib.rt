//! That no request of a sync that began in a settle is refused, unless it meets a fault.
#![tactic(auto)]

mod laws;

pub use laws::{
    granted_syncs_go_on, plans_on_the_whole_log_are_ready, ready_requests_are_granted,
    requests_in_a_settle_are_granted, syncs_in_a_settle_do_what_they_plan,
};
