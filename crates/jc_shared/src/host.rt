//! What a run on threads has of its host.

use std::alloc::Global;

/// What the threads of a run have in common but for what they play: the handle by which they are
/// started and wait, the gate that is told of their plans, and the allocator.
#[derive(Drop)]
pub struct Host<'a, R, G> {
    pub rt: &'a R,
    pub gate: &'a G,
    pub alloc: Global,
}
