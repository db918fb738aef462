//! The rows of the table that a manifest is read by (Kubernetes batch/v1): each reads a member or says why the manifest is
//! refused. The forms of names, how many pods are wanted, and what they are made from.
#![tactic(auto)]

mod counts;
mod refusals;
mod templates;
mod words;

pub use counts::{Counts, may_count, read_counts};
pub use refusals::{ManifestFault, broken, broken_at};
pub use templates::{check_objects, never_restarts, read_object, read_template};
pub use words::{is_label, is_subdomain};
