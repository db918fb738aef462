//! What one controller of Jobs knows: its caches, its queue with the delays of its keys, and how far it has
//! come with each key. It knows neither the store nor what a sync does.
//!
//! A sync of a key begins on caches that have seen all that the controller itself has written for the key,
//! so that it never counts a pod twice or makes one again. A contract sees a controller as plain numbers
//! and lists beside the tables of its caches.
#![tactic(auto)]

mod begins;
mod controller;
mod ends;
mod laws;
mod queues;

pub use begins::{Begin, Lag};
pub use controller::{Controller, Known};
pub use ends::SyncEnd;
pub use laws::{
    caches_follow_the_log, forgotten_caches_have_no_number, known_stands_by_key,
    no_processing_key_is_first, syncs_begin_on_fresh_caches,
};
