//! The texts of specifications, of their changes and of statuses: compact JSON, members in byte order of their names.
//! And the decimal digits of a number.
#![tactic(auto)]

mod decimals;
mod members;
mod printed_specs;
mod printed_statuses;
mod writes;

pub use decimals::{put_decimal, put_long, put_small};
pub use members::{Members, put_text, put_value};
pub use printed_specs::{print_change, print_spec};
pub use printed_statuses::print_status;
pub use writes::{
    new_writer, put_written, write_exit, write_given_number, write_number, write_text,
};
