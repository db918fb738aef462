//! Who can make an event.

use jc_types::Kind;

/// Who can make an event.
#[derive(Clone, Copy)]
pub enum Actor {
    /// The lane of this number.
    Lane(u8),
    /// The controller's cache of the kind.
    Cache { controller: u32, kind: Kind },
    /// The controller's worker.
    Worker { controller: u32, worker: u32 },
    /// The node.
    Node,
    /// The clock.
    Clock,
}
