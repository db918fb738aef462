//! Moments: whole seconds from 1970-01-01T00:00:00Z to 9999-12-31T23:59:59Z, and their texts in the
//! form of Kubernetes' `metav1.Time`.
#![tactic(auto)]

mod moment;
mod texts;

pub use moment::Moment;
pub use texts::MomentFault;

/// There was no memory.
pub type Want = std::alloc::AllocError;
