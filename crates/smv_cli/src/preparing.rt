//! Preparing a model that is checked: whether one of its items ever faults, by one query an item.

ghost use Rattle.std.specs.Prelude.{◌≡◌, ◌≤◌, IfErr, IfOk, IsErrOf, OnOk};
ghost use Rattle.std.specs.Io.KnownBytes.{Appends};
ghost use Rattle.std.specs.List.{list_any};
ghost use Rattle.std.specs.Option.{is_some};
ghost use Rattle.outside.specs.Causes.{Rose};
ghost use Rattle.bit_states.specs.Layouts.{bit_limit, bits_of};
ghost use Rattle.smv_cli.specs.Prepared.{IsFaultStop, IsPreparedWith, is_printed, sound_block};
ghost use Rattle.smv_cli.specs.Streams.{AppendsFront};

use crate::streams::write_all;
use cert_core::Sound;
use command_words::Effort;
use effort_purse::PlainPurse;
use outside::{Sink, Stop};
use smv_flat::Flat;
use smv_prepare::{Prepared, prepare};
use smv_tree::TextStop;
use std::alloc::Global;

/// What is known of the items of a model that is not refused.
#[derive(Drop)]
pub enum Preparation {
    /// None ever faults: these steps show it.
    Sound(Sound),
    /// The effort was spent before all were judged.
    Spent { drawn: u64, budget: u64 },
}

/// Judges the items of a model with the tickets of an effort. A model of which an item faults is refused.
pub fn prepared(alloc: Global, flat: &Flat, effort: &Effort) -> Result<Preparation, TextStop>
    requires narrow { bits_of flat.now.typed.scope.program ≤ bit_limit }
    ensures prepared { IfOk result (IsPreparedWith flat.now.typed.scope.program effort.now) }
    ensures refused { IfErr result (IsFaultStop flat.now.typed.scope.program) }
{
    let mut purse = PlainPurse::new(effort.conflicts);
    match prepare(alloc, flat, &mut purse) {
        Ok(Prepared::Sound(sound)) => Ok(Preparation::Sound(sound)),
        Ok(Prepared::Spent { drawn, budget }) => Ok(Preparation::Spent { drawn, budget }),
        Ok(Prepared::Faulty(refusal)) => Err(TextStop::Refused(refusal)),
        Err(_) => Err(TextStop::NoMemory),
    }
}

// Whether steps are there for some item.
fn any_steps(sound: &Sound) -> bool
    ensures { result ≡ list_any is_some sound.now }
{
    for item in 0..sound.len() {
        if sound.steps(item).is_some() {
            return true;
        }
    }
    false
}

// Whether the steps are printed in front of so many specifications.
fn is_printed(effort: &Effort, count: usize, sound: &Sound) -> bool
    ensures { result ≡ is_printed effort.now count sound.now }
{
    effort.cert && count > 0 && any_steps(sound)
}

/// Writes the steps that show of items that they never fault, where the effort says so, and there is a specification.
pub fn put_block<K: Sink>(
    alloc: Global,
    sink: &mut K,
    effort: &Effort,
    count: usize,
    sound: &Sound,
) -> Result<(), Stop>
    ensures ok { OnOk result (Appends (K.taken sink.old) (K.taken sink.new) (sound_block effort.now count sound.now)) }
    ensures front { AppendsFront (K.taken sink.old) (K.taken sink.new) (sound_block effort.now count sound.now) }
    ensures kept { OnOk result (K.faults sink.new ≡ K.faults sink.old) }
    ensures failed { IsErrOf result Stop.Failed → Rose (K.faults sink.old) (K.faults sink.new) }
    ensures no_memory { IsErrOf result Stop.NoMemory → K.faults sink.new ≡ K.faults sink.old }
{
    if !is_printed(effort, count, sound) {
        return Ok(());
    }
    let Ok(text) = cert_text::print_sound(alloc, sound) else {
        return Err(Stop::NoMemory);
    };
    write_all(sink, text.as_str().as_bytes())
}
