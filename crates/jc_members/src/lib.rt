//! What the members of a script's line say, each by its rule, or the cause that it is refused.
#![tactic(auto)]

mod causes;
mod conditions;
mod containers;
mod ends;
mod members;
mod names;
mod phases;

pub use causes::{Cause, LineFault, broken};
pub use ends::read_ends;
pub use members::{check_known, read_given_number, read_list, read_number, read_object};
pub use names::{Seat, read_controller, read_key, read_pod, read_seat, read_times};
pub use phases::read_report;
