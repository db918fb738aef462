//! How many pods a Job makes and stops, which ones, and when (batch/v1, KEP-2307, KEP-2214, KEP-3939).
#![tactic(auto)]

mod backoffs;
mod creations;
mod laws;
mod let_goes;
mod lists;
mod needs;
mod ranks;
mod results;
mod spares;
mod unheld;

pub use laws::{
    creations_are_numbered, creations_stay_within_bounds, failures_are_bounded,
    free_indexes_are_free, pods_go_in_order, pods_go_one_way,
};
pub use needs::wants;
pub use results::Wants;
