//! The program: the real source, sink and words for the top call.
#![tactic(auto)]

ghost use Rattle.std.specs.Prelude.{◌≡◌, ◌≢◌, ◌<◌, ◌≤◌, ◌⊎◌, map, string_bytes, IfOk, IfSome};
ghost use Rattle.command_words.specs.declared.command.Command.{Command};
ghost use Rattle.command_words.specs.declared.command.Command.TheVariants.{Ring};
ghost use Rattle.command_words.specs.declared.command.Ring.{Ring as RingOf};
ghost use Rattle.command_words.specs.Grammar.{IsCommandLine, Says};
ghost use Rattle.outside.specs.Causes.{Rose};
ghost use Rattle.smv_cli.specs.Report.{WritesReport, WritesBeginning, IsTaken, Stage, input_of};

use outside::{OpenGate, Sink, Source, StdSink, StdSource};
use smv_cli::run;
use std::alloc::{AllocError, Global};
use std::env;
use std::io::ErrorKind;
use std::process::ExitCode;
use std::rt::Env;
use std::sync::Wait;
use std::thread::Threads;

// The words after the program's name. Words that are no text count as no words.
fn words<R: Env + AllocGlobal>(rt: &R) -> Result<Vec<String>, AllocError> {
    let mut words = Vec::new(rt.alloc());
    match env::args(rt) {
        Ok(args) => {
            for word in args.skip(1) {
                words.push(word)?;
            }
        }
        Err(error) => {
            if error.kind() == ErrorKind::OutOfMemory {
                return Err(AllocError);
            }
        }
    }
    Ok(words)
}

// The texts of words.
fn texts<'a>(alloc: Global, words: &'a [String]) -> Result<Vec<&'a str>, AllocError>
    ensures { IfOk result (λ texts. map (λ w. w.now) texts.items ≡ map string_bytes words.now) }
{
    let mut texts = Vec::new(alloc);
    for word in words {
        texts.push(word.as_str())?;
    }
    Ok(texts)
}

// Does what these words say, and answers the status: all of it as `run` says, and 7 where their texts find no memory.
fn start<R: Threads + Wait + Sync, S: Source, K: Sink>(
    rt: &R,
    alloc: Global,
    words: &[String],
    source: &mut S,
    sink: &mut K,
) -> u8
    ensures answered { result ≤ 4 → WritesReport (Stage (map string_bytes words.now)) (S.left source.old)
        (K.taken sink.old) (K.taken sink.new) result }
    ensures begun { 4 < result → WritesBeginning (Stage (map string_bytes words.now)) (S.left source.old)
        (K.taken sink.old) (K.taken sink.new) }
    ensures named { result ≤ 7 }
    ensures usage { result ≡ 4 → IsCommandLine (map string_bytes words.now) → ⊥ }
    ensures outside { (IsCommandLine (map string_bytes words.now) → ⊥) → (result ≡ 4) ⊎ (5 < result) }
    ensures unread { (IsCommandLine (map string_bytes words.now) → ⊥) → source.new ≡ source.old }
    ensures made { (ring : RingOf) → Says (map string_bytes words.now) (Ring ring) → source.new ≡ source.old }
    ensures read_fault { result ≡ 5 → Rose (S.faults source.old) (S.faults source.new) }
    ensures no_read_fault { result ≢ 5 → S.faults source.new ≡ S.faults source.old }
    ensures untouched { result ≡ 5 → sink.new ≡ sink.old }
    ensures write_fault { result ≡ 6 → Rose (K.faults sink.old) (K.faults sink.new) }
    ensures no_write_fault { result ≢ 6 → K.faults sink.new ≡ K.faults sink.old }
    ensures complete { (command : Command) → Says (map string_bytes words.now) command
        → (Rose (S.faults source.old) (S.faults source.new) → ⊥) → (Rose (K.faults sink.old) (K.faults sink.new) → ⊥)
        → IfSome (S.left source.old) (λ bytes. IsTaken command (input_of command bytes) → (result ≤ 2) ⊎ (result ≡ 7)) }
{
    let Ok(texts) = texts(alloc, words) else {
        return 7;
    };
    run(rt, alloc, &texts, source, sink, &OpenGate)
}

fn main(rt: HostRuntime) -> ExitCode {
    let mut source = StdSource::new(rt.stdin());
    let mut sink = StdSink::new(rt.stdout());
    let status = match words(&rt) {
        Ok(words) => start(&rt, rt.alloc(), &words, &mut source, &mut sink),
        Err(_) => 7,
    };
    ExitCode::from(status)
}
