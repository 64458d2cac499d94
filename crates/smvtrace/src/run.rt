//! The top call: from the words and the bytes of a report to the bytes that show its traces, and a status.

ghost use Rattle.std.specs.Prelude.{◌≡◌, ◌≢◌, ◌<◌, ◌≤◌, None, map, OnOk, IsErrOf};
ghost use Rattle.std.specs.Io.KnownBytes.{Appends};
ghost use Rattle.outside.specs.Causes.{Rose};
ghost use Rattle.trace_view.specs.Answers.{answer_of, command_of};
ghost use Rattle.smvtrace.specs.Run.{WritesReport, WritesBeginning, usage};
ghost use Rattle.smvtrace.specs.Streams.{AppendsFront};

use crate::streams::{SourceStop, read_all, write_all};
use outside::{Sink, Source, Stop};
use std::alloc::Global;
use trace_view::{Command, answer_of, command_of};

// Writes the line of usage.
fn refuse_words<K: Sink>(sink: &mut K) -> u8
    ensures ok { result ≡ 4 → Appends (K.taken sink.old) (K.taken sink.new) usage.text }
    ensures front { AppendsFront (K.taken sink.old) (K.taken sink.new) usage.text }
    ensures named { (4 ≤ result) × (result ≢ 5) × (result ≤ 7) }
    ensures write_fault { result ≡ 6 → Rose (K.faults sink.old) (K.faults sink.new) }
    ensures no_write_fault { result ≢ 6 → K.faults sink.new ≡ K.faults sink.old }
{
    match write_all(sink, b"-- usage: smvtrace table | vcd | svg [I]\n") {
        Ok(()) => 4,
        Err(Stop::Failed) => 6,
        Err(Stop::NoMemory) => 7,
    }
}

// Writes what is to be written for a report.
fn show<K: Sink>(alloc: Global, sink: &mut K, command: Command, report: &[u8]) -> u8
    ensures ok { result ≤ 4 → Appends (K.taken sink.old) (K.taken sink.new) (answer_of command report.now).text }
    ensures status { result ≤ 4 → result ≡ (answer_of command report.now).status }
    ensures front { AppendsFront (K.taken sink.old) (K.taken sink.new) (answer_of command report.now).text }
    ensures named { (result ≢ 5) × (result ≤ 7) }
    ensures write_fault { result ≡ 6 → Rose (K.faults sink.old) (K.faults sink.new) }
    ensures no_write_fault { result ≢ 6 → K.faults sink.new ≡ K.faults sink.old }
{
    let Ok(answer) = answer_of(alloc, command, report) else {
        return 7;
    };
    match write_all(sink, answer.text.as_str().as_bytes()) {
        Ok(()) => answer.status,
        Err(Stop::Failed) => 6,
        Err(Stop::NoMemory) => 7,
    }
}

/// Does what the words behind the program's name say, and answers the status.
///
/// The words are judged first: where they are no command line, the line of usage is written and nothing is read. Else
/// the report is read to its end, and what shows its traces is written at once. 5 comes just where a read failed, 6
/// just where a write failed, and 7 where memory was refused.
pub fn run<S: Source, K: Sink>(alloc: Global, words: &[&str], source: &mut S, sink: &mut K) -> u8
    // What was taken is all that is to be written for the words and the report, with its status.
    ensures answered { result ≤ 4 → WritesReport (map (λ w. w.now) words.now) (S.left source.old) (K.taken sink.old) (K.taken sink.new) result }
    // No other answer than these: a fault, or no memory, after the beginning of that.
    ensures begun { 4 < result → WritesBeginning (map (λ w. w.now) words.now) (S.left source.old) (K.taken sink.old) (K.taken sink.new) }
    ensures named { result ≤ 7 }
    ensures unread { command_of (map (λ w. w.now) words.now) ≡ None → source.new ≡ source.old }
    ensures read_fault { result ≡ 5 → Rose (S.faults source.old) (S.faults source.new) }
    ensures no_read_fault { result ≢ 5 → S.faults source.new ≡ S.faults source.old }
    ensures untouched { result ≡ 5 → sink.new ≡ sink.old }
    ensures write_fault { result ≡ 6 → Rose (K.faults sink.old) (K.faults sink.new) }
    ensures no_write_fault { result ≢ 6 → K.faults sink.new ≡ K.faults sink.old }
{
    let Some(command) = command_of(words) else {
        return refuse_words(sink);
    };
    match read_all(alloc, source, usize::MAX) {
        Ok(report) => show(alloc, sink, command, &report),
        Err(SourceStop::Failed) => 5,
        Err(SourceStop::NoMemory) => 7,
    }
}
