//! Histories of a cluster: what each controller has, what an event is answered, and what may come next.
#![tactic(auto)]

mod laws;
mod samples;

pub use laws::{
    acts_determine_a_history, begins_follow_the_notes, clusters_follow_their_history,
    deeds_are_kept, idle_has_no_notes, legal_notes_fit, notes_are_kept, notes_say,
    notes_stay_as_the_log_grows, nothing_is_played, queue_follows_the_notes,
    registers_are_the_ledgers_syncs, steps_are_those_of_the_table, syncs_have_their_own_keys,
    who_waits_is_in_line,
};
pub use samples::{
    changed_indexes_play, lost_events_play, policies_play, refusals_play, settling_plays,
    several_pods_play,
};
