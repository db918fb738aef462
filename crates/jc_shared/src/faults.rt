//! Why a threaded run did not come to its end.

use jc_seats::Cluster;

/// Why a threaded run did not come to its end.
#[derive(Drop)]
pub enum ThreadsFault {
    /// The history has as many events as the shape allows, and one is to come.
    Full(Cluster),
    /// There is no memory.
    Want,
}
