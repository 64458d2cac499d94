//! What a command works on: the source, or the model of a ring that is made.
ghost use Rattle.std.specs.Prelude.{◌≡◌, ◌≤◌, IfOk, IsErrOf, OnOk};
ghost use Rattle.command_words.specs.declared.command.Ring.{Ring as RingOf};
ghost use Rattle.outside.specs.Causes.{Rose};
ghost use Rattle.smv_cli.specs.Report.{ring_model};
ghost use Rattle.smv_cli.specs.Written.{IsCommandInRange, IsInput};

use crate::streams::{SourceStop, read_all};
use command_words::{Command, Ring};
use outside::Source;
use std::alloc::{AllocError, Global};

/// A source is at most this long.
pub const SOURCE_LIMIT: usize = 16_777_216;

// The text of the model of a ring.
fn ring_model(alloc: Global, ring: &Ring) -> Result<Vec<u8>, AllocError>
    requires { 2 ≤ ring.now.cells }
    ensures { IfOk result (λ text. text.items ≡ ring_model ring.now) }
{
    let text = model_gen::ring(alloc, ring.cells, ring.seed)?;
    Ok(text.into_bytes())
}

/// What a command works on. For a ring nothing is read; else the source is read to its end, or past its limit.
pub fn input<S: Source>(
    alloc: Global,
    source: &mut S,
    command: &Command,
) -> Result<Vec<u8>, SourceStop>
    requires range { IsCommandInRange command.now }
    ensures input { IfOk result (λ text. IsInput command.now (S.left source.old) text.items) }
    ensures unread { (ring : RingOf) → command.now ≡ Command.Ring ring → source.new ≡ source.old }
    ensures kept { OnOk result (S.faults source.new ≡ S.faults source.old) }
    ensures failed { IsErrOf result SourceStop.Failed → Rose (S.faults source.old) (S.faults source.new) }
    ensures no_memory { IsErrOf result SourceStop.NoMemory → S.faults source.new ≡ S.faults source.old }
{
    match command {
        Command::Check(_) | Command::Recheck { .. } | Command::Flat => {
            read_all(alloc, source, SOURCE_LIMIT + 1)
        }
        Command::Ring(ring) => match ring_model(alloc, ring) {
            Ok(text) => Ok(text),
            Err(_) => Err(SourceStop::NoMemory),
        },
    }
}
