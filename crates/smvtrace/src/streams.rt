//! The whole of a source, and the whole of a piece to a sink.

ghost use Rattle.std.specs.Prelude.{◌≡◌, ◌≤◌, IfOk, OnOk, IsErrOf, vec_len};
ghost use Rattle.std.specs.Io.KnownBytes.{Appends};
ghost use Rattle.outside.specs.Causes.{Rose};
ghost use Rattle.smvtrace.specs.Streams.{AppendsFront, ReadsFirst};

use outside::{Sink, Source, Stop};
use std::alloc::Global;

/// Why a source was not read to its end.
#[derive(Clone, Copy, Debug, PartialEq, Eq)]
pub enum SourceStop {
    /// A read failed.
    Failed,
    /// There is no memory for what was read.
    NoMemory,
}

/// Reads to the end, or the first `limit` bytes: at least one byte a turn, and no more than `limit` in all.
pub fn read_all<S: Source>(
    alloc: Global,
    source: &mut S,
    limit: usize,
) -> Result<Vec<u8>, SourceStop>
    ensures bytes { IfOk result (λ text. ReadsFirst limit (S.left source.old) text.items) }
    ensures bound { IfOk result (λ text. vec_len text ≤ limit) }
    ensures kept { OnOk result (S.faults source.new ≡ S.faults source.old) }
    ensures failed { IsErrOf result SourceStop.Failed → Rose (S.faults source.old) (S.faults source.new) }
    ensures no_memory { IsErrOf result SourceStop.NoMemory → S.faults source.new ≡ S.faults source.old }
{
    let mut text = Vec::new(alloc);
    let mut buf = [0u8; 4096];
    while text.len() < limit {
        let room = buf.len().min(limit - text.len());
        let count = match source.read(&mut buf[..room]) {
            Ok(count) => count,
            Err(_) => return Err(SourceStop::Failed),
        };
        if count == 0 {
            break;
        }
        if text.extend_from_slice(&buf[..count]).is_err() {
            return Err(SourceStop::NoMemory);
        }
    }
    Ok(text)
}

/// Writes the whole piece, in as many calls as it takes.
pub fn write_all<K: Sink>(sink: &mut K, piece: &[u8]) -> Result<(), Stop>
    ensures ok { OnOk result (Appends (K.taken sink.old) (K.taken sink.new) piece.now) }
    ensures front { AppendsFront (K.taken sink.old) (K.taken sink.new) piece.now }
    ensures kept { OnOk result (K.faults sink.new ≡ K.faults sink.old) }
    ensures failed { IsErrOf result Stop.Failed → Rose (K.faults sink.old) (K.faults sink.new) }
    ensures no_memory { IsErrOf result Stop.NoMemory → K.faults sink.new ≡ K.faults sink.old }
{
    let mut at = 0;
    while at < piece.len() {
        match sink.write(&piece[at..]) {
            Ok(0) => return Err(Stop::Failed),
            Ok(count) => at += count,
            Err(stop) => return Err(stop),
        }
    }
    Ok(())
}
