//! The top call: from the words and the bytes of a source to the bytes of a report and a status.
ghost use Rattle.std.specs.Prelude.{◌≡◌, ◌<◌, ◌≤◌, true, map, All, IfOk, IsErrOf, IfSome, OnOk, ◌⊎◌, ◌≢◌, None, Some};
ghost use Rattle.std.specs.Io.KnownBytes.{Appends};
ghost use Rattle.command_words.specs.declared.command.Command.{Command as CommandOf};
ghost use Rattle.command_words.specs.declared.command.Ring.{Ring as RingOf};
ghost use Rattle.command_words.specs.Grammar.{IsCommandLine, Says};
ghost use Rattle.outside.specs.Causes.{Rose};
ghost use Rattle.smv_tree.specs.Texts.{refusal_text};
ghost use Rattle.smv_meaning.specs.Runs.{is_claim, specifications_of};
ghost use Rattle.smv_cli.specs.Listing.{listing_text};
ghost use Rattle.smv_recheck.specs.Checking.{status_of as status_again};
ghost use Rattle.smv_recheck.specs.Printed.{report_text};
ghost use Rattle.smv_cli.specs.Prepared.{IsPreparedWith};
ghost use Rattle.smv_cli.specs.Report.{WritesReport, WritesBeginning, CommandReport, IsTaken, Stage, effort_of, heading, input_of, ring_effort};
ghost use Rattle.smv_cli.specs.Streams.{AppendsFront};
ghost use Rattle.smv_cli.specs.Texts.{usage_text};
ghost use Rattle.smv_cli.specs.Written.{CommandDone, CommandPart, IsSetUp, IsCommandInRange, IsInRange, IsReady, WritesModelReport, WritesPartOfModelReport, item_in, program_in};

use crate::checking::{Checking, begin};
use crate::input::input;
use crate::judging::ask_together;
use crate::listing::{listing, sum_up};
use crate::preparing::{Preparation, put_block};
use crate::print::{put, put_open, put_records};
use crate::streams::{SourceStop, write_all};
use cert_core::Sound;
use command_words::{Command, Effort, Ring, WordsStop, default_effort, read_words};
use outside::{Gate, OpenGate, Sink, Source, Stop, SureSink, SureSource};
use smv_front::read_model;
use smv_meaning::{Typed, specifications};
use smv_recheck::{Checked, print, status, what_is_shown_holds};
use smv_resolve::Item;
use smv_tree::{Refusal, TextStop};
use std::alloc::Global;
use std::sync::Wait;
use std::thread::Threads;

const USAGE: &str = "-- usage: smvcheck check | recheck | flat | self N SEED\n";

// Refuses a source, with status 3.
fn refuse<K: Sink>(alloc: Global, sink: &mut K, refusal: &Refusal) -> Result<u8, Stop>
    ensures ok { IfOk result (λ status. (status ≡ 3) × Appends (K.taken sink.old) (K.taken sink.new) (refusal_text refusal.now)) }
    ensures front { AppendsFront (K.taken sink.old) (K.taken sink.new) (refusal_text refusal.now) }
    ensures kept { OnOk result (K.faults sink.new ≡ K.faults sink.old) }
    ensures failed { IsErrOf result Stop.Failed → Rose (K.faults sink.old) (K.faults sink.new) }
    ensures no_memory { IsErrOf result Stop.NoMemory → K.faults sink.new ≡ K.faults sink.old }
{
    put(alloc, sink, refusal)?;
    Ok(3)
}

// Writes the records of a model of which no item faults, and in front of them the steps that show that, where these are
// to be printed.
fn report_sound<R: Threads + Wait + Sync, K: Sink, G: Gate + Sync>(
    rt: &R,
    alloc: Global,
    sink: &mut K,
    model: &Checking,
    specs: &[Item],
    sound: &Sound,
    gate: &G,
) -> Result<u8, Stop>
    requires ready { IsReady model.now }
    requires claims { All (λ spec. is_claim spec.kind ≡ true) specs.now }
    requires listed { map (item_in model.now) specs.now ≡ specifications_of (program_in model.now) }
    ensures ok { IfOk result (λ status. WritesModelReport (program_in model.now) model.now.effort (Preparation.Sound sound.now) (K.taken sink.old) (K.taken sink.new) status) }
    ensures small { IfOk result (λ status. status ≤ 2) }
    ensures part { WritesPartOfModelReport (program_in model.now) model.now.effort (Preparation.Sound sound.now) (K.taken sink.old) (K.taken sink.new) }
    ensures kept { OnOk result (K.faults sink.new ≡ K.faults sink.old) }
    ensures failed { IsErrOf result Stop.Failed → Rose (K.faults sink.old) (K.faults sink.new) }
    ensures no_memory { IsErrOf result Stop.NoMemory → K.faults sink.new ≡ K.faults sink.old }
{
    put_block(alloc, sink, &model.effort, specs.len(), sound)?;
    let Ok(pool) = ask_together(rt, alloc, model, specs, gate) else {
        return Err(Stop::NoMemory);
    };
    put_records(rt, alloc, sink, model, specs, pool, gate)
}

// Writes the records of a model, and what stands in front of them.
fn report_model<R: Threads + Wait + Sync, K: Sink, G: Gate + Sync>(
    rt: &R,
    alloc: Global,
    sink: &mut K,
    model: &Checking,
    gate: &G,
) -> Result<u8, Stop>
    requires begun { IsSetUp model.now }
    requires prepared { IsPreparedWith (program_in model.now) model.now.effort model.now.preparation }
    ensures ok { IfOk result (λ status. WritesModelReport (program_in model.now) model.now.effort model.now.preparation (K.taken sink.old) (K.taken sink.new) status) }
    ensures small { IfOk result (λ status. status ≤ 2) }
    ensures part { WritesPartOfModelReport (program_in model.now) model.now.effort model.now.preparation (K.taken sink.old) (K.taken sink.new) }
    ensures kept { OnOk result (K.faults sink.new ≡ K.faults sink.old) }
    ensures failed { IsErrOf result Stop.Failed → Rose (K.faults sink.old) (K.faults sink.new) }
    ensures no_memory { IsErrOf result Stop.NoMemory → K.faults sink.new ≡ K.faults sink.old }
{
    let Ok(specs) = specifications(alloc, &model.flat.typed) else {
        return Err(Stop::NoMemory);
    };
    match &model.preparation {
        Preparation::Sound(sound) => {
            report_sound(rt, alloc, sink, model, specs.as_slice(), sound, gate)
        }
        Preparation::Spent { drawn, budget } => {
            put_open(alloc, sink, specs.as_slice(), *drawn, *budget)
        }
    }
}

// Writes what stands before the records: of a ring, how many slots and items it has.
fn put_heading<K: Sink>(
    alloc: Global,
    sink: &mut K,
    command: &Command,
    typed: &Typed,
) -> Result<(), Stop>
    ensures ok { OnOk result (Appends (K.taken sink.old) (K.taken sink.new) (heading command.now typed.now.scope.program)) }
    ensures front { AppendsFront (K.taken sink.old) (K.taken sink.new) (heading command.now typed.now.scope.program) }
    ensures kept { OnOk result (K.faults sink.new ≡ K.faults sink.old) }
    ensures failed { IsErrOf result Stop.Failed → Rose (K.faults sink.old) (K.faults sink.new) }
    ensures no_memory { IsErrOf result Stop.NoMemory → K.faults sink.new ≡ K.faults sink.old }
{
    match command {
        Command::Ring(_) => put(alloc, sink, &sum_up(typed)),
        Command::Check(_) | Command::Recheck { .. } | Command::Flat => Ok(()),
    }
}

// Writes the slots and items of a model, with status 0.
fn report_listing<K: Sink>(alloc: Global, sink: &mut K, typed: &Typed) -> Result<u8, Stop>
    ensures ok { IfOk result (λ status. (status ≡ 0) × Appends (K.taken sink.old) (K.taken sink.new) (listing_text typed.now.scope.program)) }
    ensures part { AppendsFront (K.taken sink.old) (K.taken sink.new) (listing_text typed.now.scope.program) }
    ensures kept { OnOk result (K.faults sink.new ≡ K.faults sink.old) }
    ensures failed { IsErrOf result Stop.Failed → Rose (K.faults sink.old) (K.faults sink.new) }
    ensures no_memory { IsErrOf result Stop.NoMemory → K.faults sink.new ≡ K.faults sink.old }
{
    let Ok(text) = listing(alloc, typed) else {
        return Err(Stop::NoMemory);
    };
    write_all(sink, text.as_slice())?;
    Ok(0)
}

// Writes what is said of a report.
fn report_checked<K: Sink>(alloc: Global, sink: &mut K, checked: &Checked) -> Result<u8, Stop>
    ensures ok { IfOk result (λ status. (status ≡ status_again checked.now.records) × Appends (K.taken sink.old) (K.taken sink.new) (report_text checked.now)) }
    ensures small { IfOk result (λ status. status ≤ 2) }
    ensures part { AppendsFront (K.taken sink.old) (K.taken sink.new) (report_text checked.now) }
    ensures kept { OnOk result (K.faults sink.new ≡ K.faults sink.old) }
    ensures failed { IsErrOf result Stop.Failed → Rose (K.faults sink.old) (K.faults sink.new) }
    ensures no_memory { IsErrOf result Stop.NoMemory → K.faults sink.new ≡ K.faults sink.old }
{
    let Ok(text) = print(alloc, checked) else {
        return Err(Stop::NoMemory);
    };
    write_all(sink, text.as_str().as_bytes())?;
    Ok(status(checked.records.as_slice()))
}

// Decides the specifications of the model that a text is, for a command that does so with this effort.
fn check<R: Threads + Wait + Sync, K: Sink, G: Gate + Sync>(
    rt: &R,
    alloc: Global,
    sink: &mut K,
    text: &[u8],
    command: &Command,
    effort: &Effort,
    gate: &G,
) -> Result<u8, Stop>
    requires asked { effort_of command.now ≡ Some effort.now }
    requires range { IsInRange effort.now }
    ensures ok { IfOk result (λ status. CommandDone command.now text.now (K.taken sink.old) (K.taken sink.new) status) }
    ensures small { IfOk result (λ status. status ≤ 3) }
    ensures part { CommandPart command.now text.now (K.taken sink.old) (K.taken sink.new) }
    ensures kept { OnOk result (K.faults sink.new ≡ K.faults sink.old) }
    ensures failed { IsErrOf result Stop.Failed → Rose (K.faults sink.old) (K.faults sink.new) }
    ensures no_memory { IsErrOf result Stop.NoMemory → K.faults sink.new ≡ K.faults sink.old }
{
    match begin(alloc, text, effort) {
        Ok(model) => {
            put_heading(alloc, sink, command, &model.flat.typed)?;
            report_model(rt, alloc, sink, &model, gate)
        }
        Err(TextStop::Refused(refusal)) => refuse(alloc, sink, &refusal),
        Err(TextStop::NoMemory) => Err(Stop::NoMemory),
    }
}

// Lists the slots and items of the model that a text is.
fn list<K: Sink>(alloc: Global, sink: &mut K, text: &[u8]) -> Result<u8, Stop>
    ensures ok { IfOk result (λ status. CommandDone Command.Flat text.now (K.taken sink.old) (K.taken sink.new) status) }
    ensures small { IfOk result (λ status. status ≤ 3) }
    ensures part { CommandPart Command.Flat text.now (K.taken sink.old) (K.taken sink.new) }
    ensures kept { OnOk result (K.faults sink.new ≡ K.faults sink.old) }
    ensures failed { IsErrOf result Stop.Failed → Rose (K.faults sink.old) (K.faults sink.new) }
    ensures no_memory { IsErrOf result Stop.NoMemory → K.faults sink.new ≡ K.faults sink.old }
{
    match read_model(alloc, text) {
        Ok(flat) => report_listing(alloc, sink, &flat.typed),
        Err(TextStop::Refused(refusal)) => refuse(alloc, sink, &refusal),
        Err(TextStop::NoMemory) => Err(Stop::NoMemory),
    }
}

// Judges the report again that stands beside the model that a text is.
fn recheck<K: Sink>(alloc: Global, sink: &mut K, text: &[u8], upgrade: bool) -> Result<u8, Stop>
    ensures ok { IfOk result (λ status. CommandDone (Command.Recheck upgrade) text.now (K.taken sink.old) (K.taken sink.new) status) }
    ensures small { IfOk result (λ status. status ≤ 3) }
    ensures part { CommandPart (Command.Recheck upgrade) text.now (K.taken sink.old) (K.taken sink.new) }
    ensures kept { OnOk result (K.faults sink.new ≡ K.faults sink.old) }
    ensures failed { IsErrOf result Stop.Failed → Rose (K.faults sink.old) (K.faults sink.new) }
    ensures no_memory { IsErrOf result Stop.NoMemory → K.faults sink.new ≡ K.faults sink.old }
{
    what_is_shown_holds();
    match smv_recheck::recheck(alloc, text, upgrade) {
        Ok(checked) => report_checked(alloc, sink, &checked),
        Err(TextStop::Refused(refusal)) => refuse(alloc, sink, &refusal),
        Err(TextStop::NoMemory) => Err(Stop::NoMemory),
    }
}

// The effort with which the specifications of a ring are decided.
fn ring_effort(ring: &Ring) -> Effort
    ensures { result ≡ ring_effort ring.now }
{
    Effort {
        workers: ring.workers,
        ..default_effort()
    }
}

// Reports on a text what the command asks for, and gives the status.
fn report<R: Threads + Wait + Sync, K: Sink, G: Gate + Sync>(
    rt: &R,
    alloc: Global,
    sink: &mut K,
    text: &[u8],
    command: &Command,
    gate: &G,
) -> Result<u8, Stop>
    requires range { IsCommandInRange command.now }
    ensures ok { IfOk result (λ status. CommandDone command.now text.now (K.taken sink.old) (K.taken sink.new) status) }
    ensures small { IfOk result (λ status. status ≤ 3) }
    ensures part { CommandPart command.now text.now (K.taken sink.old) (K.taken sink.new) }
    ensures kept { OnOk result (K.faults sink.new ≡ K.faults sink.old) }
    ensures failed { IsErrOf result Stop.Failed → Rose (K.faults sink.old) (K.faults sink.new) }
    ensures no_memory { IsErrOf result Stop.NoMemory → K.faults sink.new ≡ K.faults sink.old }
{
    match command {
        Command::Check(effort) => check(rt, alloc, sink, text, command, effort, gate),
        Command::Recheck { upgrade } => recheck(alloc, sink, text, *upgrade),
        Command::Flat => list(alloc, sink, text),
        Command::Ring(ring) => check(rt, alloc, sink, text, command, &ring_effort(ring), gate),
    }
}

// Reads a model, or makes one, and reports what the command asks for.
fn answer<R: Threads + Wait + Sync, S: Source, K: Sink, G: Gate + Sync>(
    rt: &R,
    alloc: Global,
    source: &mut S,
    sink: &mut K,
    command: &Command,
    gate: &G,
) -> u8
    requires range { IsCommandInRange command.now }
    ensures answered { result ≤ 4 → WritesReport (CommandReport command.now) (S.left source.old) (K.taken sink.old) (K.taken sink.new) result }
    ensures begun { 4 < result → WritesBeginning (CommandReport command.now) (S.left source.old) (K.taken sink.old) (K.taken sink.new) }
    ensures named { (result ≢ 4) × (result ≤ 7) }
    ensures unread { (ring : RingOf) → command.now ≡ Command.Ring ring → source.new ≡ source.old }
    ensures read_fault { result ≡ 5 → Rose (S.faults source.old) (S.faults source.new) }
    ensures no_read_fault { result ≢ 5 → S.faults source.new ≡ S.faults source.old }
    ensures untouched { result ≡ 5 → sink.new ≡ sink.old }
    ensures write_fault { result ≡ 6 → Rose (K.faults sink.old) (K.faults sink.new) }
    ensures no_write_fault { result ≢ 6 → K.faults sink.new ≡ K.faults sink.old }
{
    let text = match input(alloc, source, command) {
        Ok(text) => text,
        Err(SourceStop::Failed) => return 5,
        Err(SourceStop::NoMemory) => return 7,
    };
    match report(rt, alloc, sink, &text, command, gate) {
        Ok(status) => status,
        Err(Stop::Failed) => 6,
        Err(Stop::NoMemory) => 7,
    }
}

// Writes the line of usage.
fn refuse_words<K: Sink>(alloc: Global, sink: &mut K) -> u8
    ensures printed { result ≡ 4 → Appends (K.taken sink.old) (K.taken sink.new) usage_text }
    ensures front { AppendsFront (K.taken sink.old) (K.taken sink.new) usage_text }
    ensures named { (4 ≤ result) × (result ≢ 5) × (result ≤ 7) }
    ensures write_fault { result ≡ 6 → Rose (K.faults sink.old) (K.faults sink.new) }
    ensures no_write_fault { result ≢ 6 → K.faults sink.new ≡ K.faults sink.old }
{
    match put(alloc, sink, &USAGE) {
        Ok(()) => 4,
        Err(Stop::Failed) => 6,
        Err(Stop::NoMemory) => 7,
    }
}

// Does what the words say.
fn perform<'a, R: Threads + Wait + Sync, S: Source, K: Sink, G: Gate + Sync>(
    rt: &R,
    alloc: Global,
    words: &'a [&'a str],
    source: &mut S,
    sink: &mut K,
    gate: &G,
) -> u8
    ensures answered { result ≤ 4 → WritesReport (Stage (map (λ w. w.now) words.now)) (S.left source.old)
        (K.taken sink.old) (K.taken sink.new) result }
    ensures begun { 4 < result → WritesBeginning (Stage (map (λ w. w.now) words.now)) (S.left source.old)
        (K.taken sink.old) (K.taken sink.new) }
    ensures named { result ≤ 7 }
    ensures usage { result ≡ 4 → IsCommandLine (map (λ w. w.now) words.now) → ⊥ }
    ensures outside { (IsCommandLine (map (λ w. w.now) words.now) → ⊥) → (result ≡ 4) ⊎ (5 < result) }
    ensures unread { (IsCommandLine (map (λ w. w.now) words.now) → ⊥) → source.new ≡ source.old }
    ensures made { (ring : RingOf) → Says (map (λ w. w.now) words.now) (Command.Ring ring) → source.new ≡ source.old }
    ensures read_fault { result ≡ 5 → Rose (S.faults source.old) (S.faults source.new) }
    ensures no_read_fault { result ≢ 5 → S.faults source.new ≡ S.faults source.old }
    ensures untouched { result ≡ 5 → sink.new ≡ sink.old }
    ensures write_fault { result ≡ 6 → Rose (K.faults sink.old) (K.faults sink.new) }
    ensures no_write_fault { result ≢ 6 → K.faults sink.new ≡ K.faults sink.old }
{
    match read_words(alloc, words) {
        Ok(command) => answer(rt, alloc, source, sink, &command, gate),
        Err(WordsStop::Outside) => refuse_words(alloc, sink),
        Err(WordsStop::NoMemory) => 7,
    }
}

/// Does what the words of the command line say, and answers the status.
///
/// `check` first asks of each item whether it ever faults (`smv_prepare`); a model of which one does is refused. It
/// decides each INVARSPEC by IC3 (Bradley 2011; Een, Mishchenko and Brayton 2011): by lemmas that are an inductive
/// invariant, or by a run. It decides each LTLSPEC by lassos and by counted signals (Claessen and Sörensson 2012). A
/// run or a lasso is replayed before it is printed. Each specification has the whole effort of the words to itself, and
/// its record is written as soon as it is made. With `--together` all INVARSPECs share one pool of lemmas and one
/// effort, and are decided before the first record. The time is that of as many solver queries and learned clauses as
/// the effort has tickets, and of the small tries that an LTLSPEC has before.
///
/// `flat` lists the slots of the model, and its items but for specifications.
///
/// `recheck` judges a report that stands beside its model, by its traces and certificates alone, and asks no solver
/// (`smv_recheck::recheck`); with `--upgrade` it prints each certificate anew in the form that is judged by hints. What
/// it shows holds.
///
/// `self` makes the model of a ring (`model_gen::ring`), and writes how many slots and items it has. It decides its
/// specifications as `check` without options does, by as many workers as its words say. It reads no source.
///
/// So many workers as the words say explore the frames of a specification together (`prove_run`, `prove_ltl`). Each
/// passes the gate before each of its tasks: one alone is the caller, with number 0; several have the numbers from 1
/// on, and the caller takes what they leave.
pub fn run<'a, R: Threads + Wait + Sync, S: Source, K: Sink, G: Gate + Sync>(
    rt: &R,
    alloc: Global,
    words: &'a [&'a str],
    source: &mut S,
    sink: &mut K,
    gate: &G,
) -> u8
    // What was taken is a report of what the source held, with the effort that the words say; or the line of usage.
    ensures answered { result ≤ 4 → WritesReport (Stage (map (λ w. w.now) words.now)) (S.left source.old)
        (K.taken sink.old) (K.taken sink.new) result }
    // No other answer than these: a fault, or out of memory, after a prefix of a report.
    ensures begun { 4 < result → WritesBeginning (Stage (map (λ w. w.now) words.now)) (S.left source.old)
        (K.taken sink.old) (K.taken sink.new) }
    ensures named { result ≤ 7 }
    // The words are judged first: 4 comes just where they are outside the grammar, and then nothing is read; nor where
    // they ask for a ring.
    ensures usage { result ≡ 4 → IsCommandLine (map (λ w. w.now) words.now) → ⊥ }
    ensures outside { (IsCommandLine (map (λ w. w.now) words.now) → ⊥) → (result ≡ 4) ⊎ (5 < result) }
    ensures unread { (IsCommandLine (map (λ w. w.now) words.now) → ⊥) → source.new ≡ source.old }
    ensures made { (ring : RingOf) → Says (map (λ w. w.now) words.now) (Command.Ring ring) → source.new ≡ source.old }
    // 5 comes just where a read failed, and then nothing is written; 6 comes just where a write failed.
    ensures read_fault { result ≡ 5 → Rose (S.faults source.old) (S.faults source.new) }
    ensures no_read_fault { result ≢ 5 → S.faults source.new ≡ S.faults source.old }
    ensures untouched { result ≡ 5 → sink.new ≡ sink.old }
    ensures write_fault { result ≡ 6 → Rose (K.faults sink.old) (K.faults sink.new) }
    ensures no_write_fault { result ≢ 6 → K.faults sink.new ≡ K.faults sink.old }
    // Bytes that the command takes get their report, where nothing fails.
    ensures complete { (command : CommandOf) → Says (map (λ w. w.now) words.now) command
        → (Rose (S.faults source.old) (S.faults source.new) → ⊥) → (Rose (K.faults sink.old) (K.faults sink.new) → ⊥)
        → IfSome (S.left source.old) (λ bytes. IsTaken command (input_of command bytes) → (result ≤ 2) ⊎ (result ≡ 7)) }
{
    perform(rt, alloc, words, source, sink, gate)
}

/// The same over bytes: the status, and what was printed.
pub fn run_over_bytes<'a, R: Threads + Wait + Sync>(
    rt: &R,
    alloc: Global,
    words: &'a [&'a str],
    text: Vec<u8>,
) -> (u8, Vec<u8>)
    ensures no_fault { (result.0 ≢ 5) × (result.0 ≢ 6) }
    ensures report { result.0 ≤ 4 → Stage (map (λ w. w.now) words.now) text.items result.1.items (Some result.0) }
    ensures complete { (command : CommandOf) → Says (map (λ w. w.now) words.now) command → IsTaken command (input_of command text.items) → (result.0 ≤ 2) ⊎ (result.0 ≡ 7) }
{
    let mut source = SureSource::new(text);
    let mut sink = SureSink::new(alloc);
    let status = run(rt, alloc, words, &mut source, &mut sink, &OpenGate);
    (status, sink.into_bytes())
}
