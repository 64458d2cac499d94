//! Standard input and output, or any reader and writer of std, as a source and a sink.

ghost use Rattle.std.specs.Prelude.{◌≡◌};

use crate::{Failed, Sink, Source, Stop};
use std::io::{Read, Write};

/// A reader of std as a source. What it has left is what the reader tells, which standard input does not.
#[derive(Drop)]
pub struct StdSource<R> {
    inner: R,
    faults: u64,
}

impl<R> StdSource<R> {
    ghost use Rattle.outside.specs.Streams.{reader_of, read_faults};

    /// A source over this reader, with no fault yet.
    pub fn new(inner: R) -> Self
        ensures reader { reader_of result ≡ inner }
        ensures faults { read_faults result ≡ 0 }
    {
        StdSource { inner, faults: 0 }
    }
}

impl<R: Read> Source for StdSource<R> {
    ghost use Rattle.outside.specs.Streams.{reader_of, read_faults};

    ghost left = { λ s. R.remaining (reader_of s) };

    ghost faults = { λ s. read_faults s };

    fn read(&mut self, buf: &mut [u8]) -> Result<usize, Failed> {
        match self.inner.read(buf) {
            Ok(count) => Ok(count),
            Err(_) => {
                self.faults = self.faults.saturating_add(1);
                Err(Failed)
            }
        }
    }
}

/// A writer of std as a sink. What it has taken is what the writer tells, which standard output does not.
///
/// A write that takes nothing counts as a fault.
#[derive(Drop)]
pub struct StdSink<W> {
    inner: W,
    faults: u64,
}

impl<W> StdSink<W> {
    ghost use Rattle.outside.specs.Streams.{writer_of, write_faults};

    /// A sink over this writer, with no fault yet.
    pub fn new(inner: W) -> Self
        ensures writer { writer_of result ≡ inner }
        ensures faults { write_faults result ≡ 0 }
    {
        StdSink { inner, faults: 0 }
    }
}

impl<W: Write> Sink for StdSink<W> {
    ghost use Rattle.outside.specs.Streams.{writer_of, write_faults};

    ghost taken = { λ s. W.contents (writer_of s) };

    ghost faults = { λ s. write_faults s };

    fn write(&mut self, bytes: &[u8]) -> Result<usize, Stop> {
        match self.inner.write(bytes) {
            Ok(0) => {
                self.faults = self.faults.saturating_add(1);
                Ok(0)
            }
            Ok(count) => Ok(count),
            Err(_) => {
                self.faults = self.faults.saturating_add(1);
                Err(Stop::Failed)
            }
        }
    }
}
