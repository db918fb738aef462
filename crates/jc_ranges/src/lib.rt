//! Sets of whole numbers from 0 to 99,999, and their texts: the form in which a Kubernetes Job
//! writes its completed indexes (`status.completedIndexes` of batch/v1; KEP-2214).
#![tactic(auto)]

mod bounds;
mod elements;
mod parse;
mod runs;
mod set;
mod shared;
mod text;

pub use bounds::GREATEST_INDEX;
pub use parse::RangesFault;
pub use runs::Run;
pub use set::Ranges;

/// Want of memory: an allocation was refused.
pub type Want = std::alloc::AllocError;
