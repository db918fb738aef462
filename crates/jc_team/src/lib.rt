//! One controller with its workers: what it knows, the syncs in the registers, and what each of its events does.
#![tactic(auto)]

mod member;
mod places;
mod registers;
mod started;
mod strides;
mod told;

pub use jc_moment::Moment;
pub use jc_states::Basis;
pub use jc_sync::Plan;
pub use member::Member;
pub use told::{ReplyText, Told, again};
