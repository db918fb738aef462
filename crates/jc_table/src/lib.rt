//! Tables: rows by key in the order in which their keys came, and pods by UID in ascending UID.
//!
//! A contract sees a table as the list of its rows, and a table of pods as the list of its pods. A
//! look-up takes no memory. It goes by a hash of the key, or by the place of the UID, so that a row
//! is found, put and taken at a step, however many there are.
#![tactic(auto)]

mod by_key;
mod by_uid;
mod keys;
mod numbered;
mod rows;
mod stored_pods;
mod values;

pub use by_key::Table;
pub use by_uid::PodTable;
pub use keys::has_key;
pub use rows::Rows;
pub use stored_pods::StoredPods;
pub use values::Values;
