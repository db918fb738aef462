//! Bytes in and bytes out: sources and sinks that may fail, and the calls that move all bytes.
//!
//! A source and a sink count their faults, and a call of theirs fails only where that count rose.
//! A count that stands at its last value, 2^64 - 1, counts as risen. A source counts its calls too,
//! and a sink how often it was finished.
#![tactic(auto)]

ghost use Rattle.std.specs.Prelude.{◌≡◌, ◌≤◌, ◌<◌, ℕ, List, Option, length, IfOk, OnErr, OnOk};
ghost use Rattle.std.specs.Io.{ReadsAtMost, WritesAtMost};
ghost use Rattle.std.specs.Io.KnownBytes.{Keeps, ReadConsumes, WriteAppends};
ghost use Rattle.jc_io.specs.Faults.{HasCause, raised_count};

mod all;
mod memory;
mod plan;
mod standard;

pub use all::{ReadEnd, WriteFault, read_all, write_all, write_part};
pub use memory::{MemSink, MemSource};
pub use standard::{StdSink, StdSource};
use std::alloc::AllocError;

/// Bytes in memory of their own.
pub type Bytes = Vec<u8>;

/// Want of memory.
pub type Want = AllocError;

/// A call of a source or sink failed. Its count of faults rose in that call.
#[derive(Clone, Copy, Debug, PartialEq, Eq)]
pub struct Failed;

/// Where bytes come from.
pub trait Source {
    // The bytes that are left, where the source tells them.
    ghost left: { Self → Option (List ℕ) };

    // How many calls failed. The count stops at its last value, 2^64 - 1.
    ghost faults: { Self → ℕ };

    // How many calls there were. The count stops at its last value, 2^64 - 1.
    ghost calls: { Self → ℕ };

    /// Moves bytes from the source to the front of `buf`, and says how many.
    ///
    /// `Ok(0)` for a buffer that is not empty is the end of input. `Failed` comes only where the
    /// count of faults rose, and takes nothing.
    fn read_some(&mut self, buf: &mut [u8]) -> Result<usize, Failed>
        ensures reads_at_most { ReadsAtMost result buf.new }
        // The bytes that are given leave the source, none only at its end, and none at a fault.
        ensures bytes { ReadConsumes (left self.old) (left self.new) result buf.new }
        ensures cause { HasCause (faults self.old) (faults self.new) result }
        ensures never_falls { faults self.old ≤ faults self.new }
        ensures call { calls self.new ≡ raised_count (calls self.old) };
}

/// Where bytes go.
pub trait Sink {
    // The bytes that are held, where the sink tells them.
    ghost held: { Self → Option (List ℕ) };

    // How many calls failed. The count stops at its last value, 2^64 - 1.
    ghost faults: { Self → ℕ };

    // How many calls of `finish` were answered Ok. The count stops at its last value, 2^64 - 1.
    ghost finished: { Self → ℕ };

    /// Appends bytes from the front of `piece`, at least one where it has any, and says how many.
    ///
    /// `Failed` comes only where the count of faults rose, and appends nothing.
    fn write_some(&mut self, piece: &[u8]) -> Result<usize, Failed>
        ensures writes_at_most { WritesAtMost result piece.now }
        ensures takes_some { 0 < length piece.now → IfOk result (λ n. 0 < n) }
        ensures bytes { WriteAppends (held self.old) (held self.new) result piece.now }
        ensures cause { HasCause (faults self.old) (faults self.new) result }
        ensures never_falls { faults self.old ≤ faults self.new }
        ensures not_finished { finished self.new ≡ finished self.old };

    /// Flushes what was written. It changes nothing that is held.
    ///
    /// `Failed` comes only where the count of faults rose.
    fn finish(&mut self) -> Result<(), Failed>
        ensures bytes { Keeps (held self.old) (held self.new) }
        ensures cause { HasCause (faults self.old) (faults self.new) result }
        ensures never_falls { faults self.old ≤ faults self.new }
        ensures finished { OnOk result (finished self.new ≡ raised_count (finished self.old)) }
        ensures not_finished { OnErr result (finished self.new ≡ finished self.old) };
}
