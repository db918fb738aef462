//! The entries that come after a version.

ghost use Rattle.std.specs.Prelude.{◌≤◌, length};
ghost use Rattle.jc_watch.specs.Shown.{Shows};

use crate::told::Next;
use jc_store::Store;
use jc_types::Version;

/// What comes after a version, where a window of so many entries can still be read. The version is
/// at most the log's length.
///
/// It is `Expired` exactly where the version is below the floor: the log's length less the window,
/// and at least 0.
pub fn next(store: &Store, from: Version, window: u32) -> Next<'_>
    requires { from.0 ≤ length store.now }
    ensures { Shows store.now from window result }
{
    let length = store.log_len().0;
    let floor = length.saturating_sub(window);
    if from.0 < floor {
        return Next::Expired {
            floor: Version(floor),
        };
    }
    if from.0 == length {
        return Next::UpToDate;
    }
    match store.entry(Version(from.0 + 1)) {
        Some(entry) => Next::Entry(entry),
        None => unreachable!(),
    }
}
