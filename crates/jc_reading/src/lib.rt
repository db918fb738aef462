//! What the line of an event says, read back: its number, its lane and its act, exactly.
#![tactic(auto)]

mod cuts;
mod laws;
mod manifests;
mod parts;
mod pod_reports;
mod reading;
mod reads;

pub use laws::{
    accepted_jobs_are_proper, accepted_jobs_are_read_back, accepted_manifests_are_allowed,
    compact_texts_are_words, compact_texts_tell, lines_spell_texts, printed_acts_are_read_back,
    printed_fronts_are_read_back, printed_parts_are_read_back, printed_specs_are_read_back,
    read_scripts_are_proper,
};
pub use reads::{LineAct, LineRead, read_event};
