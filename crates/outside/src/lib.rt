//! What a run meets outside itself: where its text comes from, where its lines go, and a gate for its workers.
//!
//! A fault of reading or writing is known by a count that the source or sink keeps: an answer that
//! tells of a fault comes only where that count rose in the call, and any other answer leaves the count as it was.
#![tactic(auto)]

ghost use Rattle.std.specs.Prelude.{List, ℕ, Option};
ghost use Rattle.std.specs.Io.{ReadsAtMost, WritesAtMost};
ghost use Rattle.std.specs.Io.KnownBytes.{ReadConsumes, WriteAppends};
ghost use Rattle.outside.specs.Causes.{HasReadCause, HasWriteCause};

mod memory;
mod streams;
mod sure;

pub use memory::{MemSink, MemSource};
use std::sync::Wait;
pub use streams::{StdSink, StdSource};
pub use sure::{SureSink, SureSource};
use thiserror::Error;

/// A read failed.
#[derive(Debug, Drop, Error)]
#[error("a read failed")]
pub struct Failed;

/// Why a write took nothing.
#[derive(Debug, Drop, Error)]
pub enum Stop {
    /// The write failed; the sink's count of faults rose.
    #[error("a write failed")]
    Failed,
    /// A sink in memory found no room for the bytes, and holds what it held.
    #[error("no memory for what is written")]
    NoMemory,
}

/// Where bytes are read from.
pub trait Source {
    /// The bytes still to come, where the source tells them.
    ghost left: { Self → Option (List ℕ) };

    /// How often a read has failed. It rises where a read fails and nowhere else, and stands still at the greatest
    /// `u64`.
    ghost faults: { Self → ℕ };

    /// Takes the next bytes into the front of `buf`.
    ///
    /// `Ok(n)` took the first `n` bytes that were left, at most as many as `buf` has room for. `Ok(0)` into a buffer
    /// that is not empty is the end: nothing is left. `Err(Failed)` takes nothing, and comes only where the count of
    /// faults rose in this call. `Ok` leaves the count as it was. What `buf` holds past `n`, and after an error, is
    /// left open.
    fn read(&mut self, buf: &mut [u8]) -> Result<usize, Failed>
        ensures bound { ReadsAtMost result buf.new }
        ensures bytes { ReadConsumes (left self.old) (left self.new) result buf.new }
        ensures cause { HasReadCause (faults self.old) (faults self.new) result };
}

/// Where bytes are written to.
pub trait Sink {
    /// The bytes taken so far, where the sink tells them.
    ghost taken: { Self → Option (List ℕ) };

    /// How often a write has failed, or taken nothing. It rises nowhere else, and stands still at the greatest `u64`.
    ghost faults: { Self → ℕ };

    /// Takes the first bytes of a piece.
    ///
    /// `Ok(n)` took the first `n` bytes, at most all of them.
    /// `Err(Stop::Failed)`, and `Ok(0)` of a piece that is not empty, come only where the count of
    /// faults rose in this call; who writes a whole piece in turns takes both as a fault.
    /// `Err(Stop::NoMemory)` is the answer of a sink in memory that finds no room. An error takes nothing.
    /// A write that takes some bytes, and one that finds no memory, leave the count as it was.
    fn write(&mut self, bytes: &[u8]) -> Result<usize, Stop>
        ensures bound { WritesAtMost result bytes.now }
        ensures bytes { WriteAppends (taken self.old) (taken self.new) result bytes.now }
        ensures cause { HasWriteCause (faults self.old) (faults self.new) bytes.now result };
}

/// What each worker passes before each of its tasks. It tells nothing, cannot fail, and may hold the worker.
pub trait Gate {
    /// Lets the worker of this number through, at once or later.
    fn enter<R: Wait>(&self, rt: &R, worker: u32);
}

/// A gate that holds nobody.
#[derive(Clone, Copy, Debug, Drop)]
pub struct OpenGate;

impl Gate for OpenGate {
    fn enter<R: Wait>(&self, _rt: &R, _worker: u32) {}
}
