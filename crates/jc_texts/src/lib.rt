//! The texts of a report's lines: what each command and each event of the system does, and what it is answered. Each
//! function `print_..` or `put_..` puts a text behind what stands already. Those of short texts say how much that is at
//! most: they take no memory where the text has room for so much.
#![tactic(auto)]

mod acts;
mod changes;
mod keys;
mod replies;
mod short;
mod words;

pub use acts::{print_action, print_short_action, print_system, put_system};
pub use keys::{print_key, print_version};
pub use replies::{print_reply, print_short_reply};
pub use short::{is_short_action, is_short_reply};
