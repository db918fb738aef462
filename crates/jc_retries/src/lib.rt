//! How many pods a Job may still make where its pods fail, and that this falls with each pod that is made.
#![tactic(auto)]

mod laws;

pub use laws::{
    plans_keep_failures, plans_use_up_retries, retries_are_worked_out, the_node_uses_up_retries,
};
