//! A source and a sink in memory that never fail: their counts of faults are the constant 0.

ghost use Rattle.std.specs.Prelude.{◌≡◌, [], length, min, drop, take, ◌++◌, Some, Ok, OnOk, OnErr};
ghost use Rattle.std.specs.Io.{ReadsAtMost, WritesAtMost};
ghost use Rattle.std.specs.Io.KnownBytes.{ReadConsumes, WriteAppends};
ghost use Rattle.outside.specs.Causes.{HasReadCause, HasWriteCause};

use crate::{Failed, Sink, Source, Stop};
use std::alloc::Global;
use std::marker::Model;

/// Gives the bytes that it was made with, as many in a call as fit. Contracts see it as the bytes still to come.
#[derive(Drop)]
pub struct SureSource {
    bytes: Vec<u8>,
    position: usize,
}

impl Model for SureSource {
    ghost use Rattle.std.specs.Prelude.{◌≤◌, drop, vec_len, List, ℕ};

    ghost Value = { List ℕ };

    ghost view = { λ s. drop s.position s.bytes.items };

    ghost invariant = { λ s. s.position ≤ vec_len s.bytes };
}

impl SureSource {
    /// A source of these bytes.
    pub fn new(bytes: Vec<u8>) -> Self
        ensures { result ≡ bytes.items }
    {
        SureSource { bytes, position: 0 }
    }
}

impl Source for SureSource {
    ghost left = { λ s. Some s };

    ghost faults = { λ _. 0 };

    /// As `Source::read` says, and more: it never fails, and fills the buffer while bytes are left.
    fn read(&mut self, buf: &mut [u8]) -> Result<usize, Failed>
        ensures bound { ReadsAtMost result buf.new }
        ensures bytes { ReadConsumes (Some self.old) (Some self.new) result buf.new }
        ensures cause { HasReadCause 0 0 result }
        ensures count { result ≡ Ok (min (length self.old) (length buf.new)) }
    {
        let rest = &self.bytes[self.position..];
        let count = rest.len().min(buf.len());
        buf[..count].copy_from_slice(&rest[..count]);
        self.position += count;
        Ok(count)
    }
}

/// Keeps all the bytes that it takes. Contracts see it as the bytes taken so far.
#[derive(Drop)]
pub struct SureSink {
    bytes: Vec<u8>,
}

impl Model for SureSink {
    ghost use Rattle.std.specs.Prelude.{List, ℕ};

    ghost Value = { List ℕ };

    ghost view = { λ s. s.bytes.items };
}

impl SureSink {
    /// An empty sink.
    pub fn new(alloc: Global) -> Self
        ensures { result ≡ [] }
    {
        SureSink {
            bytes: Vec::new(alloc),
        }
    }

    /// What was taken.
    pub fn into_bytes(self) -> Vec<u8>
        ensures { result.items ≡ self }
    {
        self.bytes
    }
}

impl Sink for SureSink {
    ghost taken = { λ s. Some s };

    ghost faults = { λ _. 0 };

    /// As `Sink::write` says, and more: it takes the whole piece, and its one error is out of memory.
    fn write(&mut self, bytes: &[u8]) -> Result<usize, Stop>
        ensures bound { WritesAtMost result bytes.now }
        ensures bytes { WriteAppends (Some self.old) (Some self.new) result bytes.now }
        ensures cause { HasWriteCause 0 0 bytes.now result }
        ensures count { OnOk result (result ≡ Ok (length bytes.now)) }
    {
        match self.bytes.extend_from_slice(bytes) {
            Ok(()) => Ok(bytes.len()),
            Err(_) => Err(Stop::NoMemory),
        }
    }
}
