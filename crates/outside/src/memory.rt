//! A source and a sink in memory, whose calls fail where a list says so.

ghost use Rattle.std.specs.Prelude.{◌≡◌, ◌<◌, ◌↔◌, [], length, min, Contains, Some, IfOk, IsErr, IsErrOf};
ghost use Rattle.std.specs.Io.{ReadsAtMost, WritesAtMost};
ghost use Rattle.std.specs.Io.KnownBytes.{ReadConsumes, WriteAppends};
ghost use Rattle.outside.specs.Causes.{HasReadCause, HasWriteCause};
ghost use Rattle.outside.specs.Memory.{after_read, after_write};

use crate::{Failed, Sink, Source, Stop};
use std::alloc::Global;
use std::marker::Model;

/// Gives the bytes that it was made with, at most `chunk` in a call, and fails at the calls of its list.
#[derive(Drop)]
pub struct MemSource {
    bytes: Vec<u8>,
    position: usize,
    chunk: usize,
    calls: u64,
    failing: Vec<u64>,
    faults: u64,
}

impl Model for MemSource {
    ghost use Rattle.std.specs.Prelude.{◌<◌, ◌≤◌, drop, vec_len};
    ghost use Rattle.outside.specs.Memory.{Input};

    ghost Value = { Input };

    ghost view = { λ s. record { left = drop s.position s.bytes.items; chunk = s.chunk; calls = s.calls; failing = s.failing.items; faults = s.faults } };

    ghost invariant = { λ s. (s.position ≤ vec_len s.bytes) × (0 < s.chunk) };
}

impl MemSource {
    /// A source of these bytes. `failing` has the numbers of the calls that are to fail, counted from 0.
    pub fn new(bytes: Vec<u8>, chunk: usize, failing: Vec<u64>) -> Self
        requires { 0 < chunk }
        ensures { result ≡ record { left = bytes.items; chunk = chunk; calls = 0; failing = failing.items; faults = 0 } }
    {
        MemSource {
            bytes,
            position: 0,
            chunk,
            calls: 0,
            failing,
            faults: 0,
        }
    }
}

impl Source for MemSource {
    ghost left = { λ s. Some s.left };

    ghost faults = { λ s. s.faults };

    /// As `Source::read` says, and more: which calls fail, and how many bytes the others give.
    fn read(&mut self, buf: &mut [u8]) -> Result<usize, Failed>
        ensures bound { ReadsAtMost result buf.new }
        ensures bytes { ReadConsumes (Some self.old.left) (Some self.new.left) result buf.new }
        ensures cause { HasReadCause self.old.faults self.new.faults result }
        ensures fails { IsErr result ↔ Contains self.old.failing self.old.calls }
        ensures count { IfOk result (λ n. n ≡ min (min (length self.old.left) (length buf.new)) self.old.chunk) }
        ensures after { self.new ≡ after_read self.old result }
    {
        let call = self.calls;
        self.calls = self.calls.saturating_add(1);
        if self.failing.contains(&call) {
            self.faults = self.faults.saturating_add(1);
            return Err(Failed);
        }
        let rest = &self.bytes[self.position..];
        let count = rest.len().min(buf.len()).min(self.chunk);
        buf[..count].copy_from_slice(&rest[..count]);
        self.position += count;
        Ok(count)
    }
}

/// Keeps the bytes that it takes, at most `chunk` in a call, and fails at the calls of its list.
#[derive(Drop)]
pub struct MemSink {
    bytes: Vec<u8>,
    chunk: usize,
    calls: u64,
    failing: Vec<u64>,
    faults: u64,
}

impl Model for MemSink {
    ghost use Rattle.std.specs.Prelude.{◌<◌};
    ghost use Rattle.outside.specs.Memory.{Output};

    ghost Value = { Output };

    ghost view = { λ s. record { taken = s.bytes.items; chunk = s.chunk; calls = s.calls; failing = s.failing.items; faults = s.faults } };

    ghost invariant = { λ s. 0 < s.chunk };
}

impl MemSink {
    /// An empty sink. `failing` has the numbers of the calls that are to fail, counted from 0.
    pub fn new(alloc: Global, chunk: usize, failing: Vec<u64>) -> Self
        requires { 0 < chunk }
        ensures { result ≡ record { taken = []; chunk = chunk; calls = 0; failing = failing.items; faults = 0 } }
    {
        MemSink {
            bytes: Vec::new(alloc),
            chunk,
            calls: 0,
            failing,
            faults: 0,
        }
    }

    /// What was taken so far.
    pub fn bytes(&self) -> &[u8]
        ensures { result.now ≡ self.now.taken }
    {
        &self.bytes
    }

    /// What was taken, as a list of its own.
    pub fn into_bytes(self) -> Vec<u8>
        ensures { result.items ≡ self.taken }
    {
        self.bytes
    }
}

impl Sink for MemSink {
    ghost taken = { λ s. Some s.taken };

    ghost faults = { λ s. s.faults };

    /// As `Sink::write` says, and more: which calls fail, and how many bytes the others take.
    fn write(&mut self, bytes: &[u8]) -> Result<usize, Stop>
        ensures bound { WritesAtMost result bytes.now }
        ensures bytes { WriteAppends (Some self.old.taken) (Some self.new.taken) result bytes.now }
        ensures cause { HasWriteCause self.old.faults self.new.faults bytes.now result }
        ensures fails { IsErrOf result Stop.Failed ↔ Contains self.old.failing self.old.calls }
        ensures count { IfOk result (λ n. n ≡ min (length bytes.now) self.old.chunk) }
        ensures after { self.new ≡ after_write self.old bytes.now result }
    {
        let call = self.calls;
        self.calls = self.calls.saturating_add(1);
        if self.failing.contains(&call) {
            self.faults = self.faults.saturating_add(1);
            return Err(Stop::Failed);
        }
        let count = bytes.len().min(self.chunk);
        match self.bytes.extend_from_slice(&bytes[..count]) {
            Ok(()) => Ok(count),
            Err(_) => Err(Stop::NoMemory),
        }
    }
}
