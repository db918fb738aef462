//! JSON lines, and the members of JSON objects, each read exactly or refused with its path.
#![tactic(auto)]

mod field;
mod given;
mod item;
mod line;
mod needed;
mod nodes;
mod numbers;
mod numerals;
mod optional;
mod ordered;
mod owned;
mod path;
mod reader;
mod trail;
mod value;

pub use field::FieldFault;
pub use given::is_written;
pub use item::{item_number, item_object};
pub use line::{JsonFault, Room, new_room, read_line, read_owned};
pub use needed::{need_list, need_number, need_object, need_text};
pub use optional::{given_items, may_bool, may_list, may_number, may_object, may_text, member};
pub use ordered::{Ordered, in_order};
pub use owned::borrowed;
pub use path::Path;
pub use trail::Trail;
pub use value::Value;
