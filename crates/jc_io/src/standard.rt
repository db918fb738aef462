// Sources and sinks over the reader and the writer of std.
ghost use Rattle.std.specs.Prelude.{◌≡◌, ℕ, List, Option};
ghost use Rattle.jc_io.specs.declared.standard.StdSink.{StdSink};
ghost use Rattle.jc_io.specs.declared.standard.StdSource.{StdSource};

use super::{Failed, Sink, Source};
use std::io::{Read, Write};

/// A source over a reader of std. Each error of the reader is a fault.
#[derive(Drop)]
pub struct StdSource<R> {
    inner: R,
    faults: u64,
    calls: u64,
}

impl<R> StdSource<R> {
    /// A source that reads from `inner` and had no call yet.
    pub fn new(inner: R) -> StdSource<R>
        ensures { result ≡ record { inner = inner; faults = 0; calls = 0 } }
    {
        StdSource {
            inner,
            faults: 0,
            calls: 0,
        }
    }
}

impl<R: Read> Source for StdSource<R> {
    ghost left = { λ s. R.remaining s.inner };

    ghost faults = { λ s. s.faults };

    ghost calls = { λ s. s.calls };

    fn read_some(&mut self, buf: &mut [u8]) -> Result<usize, Failed> {
        self.calls = self.calls.saturating_add(1);
        match self.inner.read(buf) {
            Ok(count) => Ok(count),
            Err(_) => {
                self.faults = self.faults.saturating_add(1);
                Err(Failed)
            }
        }
    }
}

/// A sink over a writer of std. Each error of the writer is a fault, and so is a write that takes
/// nothing.
#[derive(Drop)]
pub struct StdSink<W> {
    inner: W,
    faults: u64,
    finished: u64,
}

impl<W> StdSink<W> {
    /// A sink that writes to `inner`, had no fault yet and was not finished.
    pub fn new(inner: W) -> StdSink<W>
        ensures { result ≡ record { inner = inner; faults = 0; finished = 0 } }
    {
        StdSink {
            inner,
            faults: 0,
            finished: 0,
        }
    }
}

impl<W: Write> Sink for StdSink<W> {
    ghost held = { λ s. W.contents s.inner };

    ghost faults = { λ s. s.faults };

    ghost finished = { λ s. s.finished };

    fn write_some(&mut self, piece: &[u8]) -> Result<usize, Failed> {
        if piece.is_empty() {
            return Ok(0);
        }
        match self.inner.write(piece) {
            Ok(count) if count > 0 => Ok(count),
            _ => {
                self.faults = self.faults.saturating_add(1);
                Err(Failed)
            }
        }
    }

    fn finish(&mut self) -> Result<(), Failed> {
        match self.inner.flush() {
            Ok(()) => {
                self.finished = self.finished.saturating_add(1);
                Ok(())
            }
            Err(_) => {
                self.faults = self.faults.saturating_add(1);
                Err(Failed)
            }
        }
    }
}
