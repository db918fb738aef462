//! What happens in a settle: what comes first, so that a sync which begins there runs alone and sees the whole log; that
//! it comes to be calm; and what is left to write of a pod.
#![tactic(auto)]

mod laws;

pub use laws::{
    begins_see_all, plays_do_what_comes_first, settles_are_serial, settles_calm_down,
    settles_go_on, what_comes_first, writes_leave_less_of_a_pod,
};
