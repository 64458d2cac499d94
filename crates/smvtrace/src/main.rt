//! The program: shows the counterexamples of a report. The real source, sink and words for the top call.
#![tactic(auto)]

ghost use Rattle.std.specs.Prelude.{◌≡◌, ◌≢◌, ◌<◌, ◌≤◌, None, map, string_bytes, IfOk};
ghost use Rattle.outside.specs.Causes.{Rose};
ghost use Rattle.trace_view.specs.Answers.{command_of};
ghost use Rattle.smvtrace.specs.Run.{WritesReport, WritesBeginning};

mod run;
mod streams;

use outside::{Sink, Source, StdSink, StdSource};
use run::run;
use std::alloc::{AllocError, Global};
use std::env;
use std::io::ErrorKind;
use std::process::ExitCode;
use std::rt::Env;

// The words after the program's name. Words that are no text count as no words.
fn words<R: Env + AllocGlobal>(rt: &R) -> Result<Vec<String>, AllocError> {
    let mut words = Vec::new(rt.alloc());
    match env::args(rt) {
        Ok(args) => {
            for word in args.skip(1) {
                words.push(word)?;
            }
        }
        Err(error) => {
            if error.kind() == ErrorKind::OutOfMemory {
                return Err(AllocError);
            }
        }
    }
    Ok(words)
}

// The texts of words.
fn texts<'a>(alloc: Global, words: &'a [String]) -> Result<Vec<&'a str>, AllocError>
    ensures { IfOk result (λ texts. map (λ w. w.now) texts.items ≡ map string_bytes words.now) }
{
    let mut texts = Vec::new(alloc);
    for word in words {
        texts.push(word.as_str())?;
    }
    Ok(texts)
}

// Does what these words say, and answers the status: all of it as `run` says, and 7 where their texts find no memory.
fn start<S: Source, K: Sink>(alloc: Global, words: &[String], source: &mut S, sink: &mut K) -> u8
    ensures answered { result ≤ 4 → WritesReport (map string_bytes words.now) (S.left source.old) (K.taken sink.old) (K.taken sink.new) result }
    ensures begun { 4 < result → WritesBeginning (map string_bytes words.now) (S.left source.old) (K.taken sink.old) (K.taken sink.new) }
    ensures named { result ≤ 7 }
    ensures unread { command_of (map string_bytes words.now) ≡ None → source.new ≡ source.old }
    ensures read_fault { result ≡ 5 → Rose (S.faults source.old) (S.faults source.new) }
    ensures no_read_fault { result ≢ 5 → S.faults source.new ≡ S.faults source.old }
    ensures untouched { result ≡ 5 → sink.new ≡ sink.old }
    ensures write_fault { result ≡ 6 → Rose (K.faults sink.old) (K.faults sink.new) }
    ensures no_write_fault { result ≢ 6 → K.faults sink.new ≡ K.faults sink.old }
{
    let Ok(texts) = texts(alloc, words) else {
        return 7;
    };
    run(alloc, &texts, source, sink)
}

fn main(rt: HostRuntime) -> ExitCode {
    let mut source = StdSource::new(rt.stdin());
    let mut sink = StdSink::new(rt.stdout());
    let status = match words(&rt) {
        Ok(words) => start(rt.alloc(), &words, &mut source, &mut sink),
        Err(_) => 7,
    };
    ExitCode::from(status)
}
