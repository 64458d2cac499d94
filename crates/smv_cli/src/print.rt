//! Parts of a report, each written when it is made.
ghost use Rattle.std.specs.Prelude.{◌≡◌, ◌≤◌, true, map, All, IfSome, IfOk, List, OnOk, IsErrOf};
ghost use Rattle.std.specs.Io.KnownBytes.{Appends};
ghost use Rattle.outside.specs.Causes.{Rose};
ghost use Rattle.smv_resolve.specs.declared.node.ExprNode.{ExprNode};
ghost use Rattle.smv_resolve.specs.Items.{item_by};
ghost use Rattle.smv_meaning.specs.Runs.{is_claim, specifications_of};
ghost use Rattle.smv_cli.specs.Streams.{AppendsFront};
ghost use Rattle.smv_cli.specs.Texts.{record_text};
ghost use Rattle.smv_cli.specs.Written.{WritesOpenRecords, WritesSomeOpenRecords, IsPool, IsReady, WritesRecords, WritesSomeRecords, item_in, program_in, status_with};

use crate::checking::Checking;
use crate::judging::judge;
use crate::record::{Reason, Record, SpecVerdict, print};
use crate::streams::write_all;
use outside::{Gate, Sink, Stop};
use prove_run::Answer;
use smv_resolve::{Item, ItemKind};
use std::alloc::Global;
use std::fmt;
use std::sync::Wait;
use std::thread::Threads;

/// Writes one part.
pub fn put<K: Sink, D: fmt::Display>(alloc: Global, sink: &mut K, part: &D) -> Result<(), Stop>
    ensures ok { OnOk result (IfSome (D.output part.now) (λ text. Appends (K.taken sink.old) (K.taken sink.new) text)) }
    ensures front { IfSome (D.output part.now) (λ text. AppendsFront (K.taken sink.old) (K.taken sink.new) text) }
    ensures kept { OnOk result (K.faults sink.new ≡ K.faults sink.old) }
    ensures failed { IsErrOf result Stop.Failed → Rose (K.faults sink.old) (K.faults sink.new) }
    ensures no_memory { IsErrOf result Stop.NoMemory → K.faults sink.new ≡ K.faults sink.old }
{
    let Ok(text) = part.to_string(alloc) else {
        return Err(Stop::NoMemory);
    };
    write_all(sink, text.as_bytes())
}

// Writes one record.
fn put_record<K: Sink>(alloc: Global, sink: &mut K, made: &Record) -> Result<(), Stop>
    ensures ok { OnOk result (Appends (K.taken sink.old) (K.taken sink.new) (record_text made.now)) }
    ensures front { AppendsFront (K.taken sink.old) (K.taken sink.new) (record_text made.now) }
    ensures kept { OnOk result (K.faults sink.new ≡ K.faults sink.old) }
    ensures failed { IsErrOf result Stop.Failed → Rose (K.faults sink.old) (K.faults sink.new) }
    ensures no_memory { IsErrOf result Stop.NoMemory → K.faults sink.new ≡ K.faults sink.old }
{
    let Ok(text) = print(alloc, made) else {
        return Err(Stop::NoMemory);
    };
    write_all(sink, text.as_bytes())
}

// The status after one more verdict.
fn status_with(status: u8, verdict: &SpecVerdict) -> u8
    ensures value { result ≡ status_with status verdict.now }
    ensures small { status ≤ 2 → result ≤ 2 }
{
    match verdict {
        SpecVerdict::True(_) => status,
        SpecVerdict::False(_) => 1,
        SpecVerdict::Unknown(_) if status == 1 => 1,
        SpecVerdict::Unknown(_) => 2,
    }
}

/// Writes the record of each specification of a program, one by one, each when it is made: by what was answered of all
/// at once, or else by an answer of its own. The answer is 1 where one is false, else 2 where one is unknown, else 0.
pub fn put_records<R: Threads + Wait + Sync, K: Sink, G: Gate + Sync>(
    rt: &R,
    alloc: Global,
    sink: &mut K,
    model: &Checking,
    specs: &[Item],
    pool: Vec<Answer>,
    gate: &G,
) -> Result<u8, Stop>
    requires ready { IsReady model.now }
    requires claims { All (λ spec. is_claim spec.kind ≡ true) specs.now }
    requires listed { map (item_in model.now) specs.now ≡ specifications_of (program_in model.now) }
    requires pool { IsPool (program_in model.now) model.now.built.systems model.now.effort 0 pool.items }
    ensures ok { IfOk result (λ status. WritesRecords (program_in model.now) model.now.effort (map (item_in model.now) specs.now) (K.taken sink.old) (K.taken sink.new) status) }
    ensures small { IfOk result (λ status. status ≤ 2) }
    ensures part { WritesSomeRecords (program_in model.now) model.now.effort (map (item_in model.now) specs.now) (K.taken sink.old) (K.taken sink.new) }
    ensures kept { OnOk result (K.faults sink.new ≡ K.faults sink.old) }
    ensures failed { IsErrOf result Stop.Failed → Rose (K.faults sink.old) (K.faults sink.new) }
    ensures no_memory { IsErrOf result Stop.NoMemory → K.faults sink.new ≡ K.faults sink.old }
{
    let mut status = 0;
    let mut pool = pool;
    'specs: for (i, spec) in specs.iter().enumerate() {
        let ItemKind::Specification(kind) = spec.kind else {
            unreachable!()
        };
        let Ok(made) = judge(rt, alloc, model, i + 1, kind, spec, &mut pool, gate) else {
            return Err(Stop::NoMemory);
        };
        put_record(alloc, sink, &made)?;
        status = status_with(status, &made.verdict);
    }
    Ok(status)
}

/// Writes for each specification of a program that it is unknown, since preparing spent the effort. The answer is 2.
pub fn put_open<K: Sink>(
    alloc: Global,
    sink: &mut K,
    specs: &[Item],
    drawn: u64,
    budget: u64,
) -> Result<u8, Stop>
    requires claims { All (λ spec. is_claim spec.kind ≡ true) specs.now }
    ensures ok { (nodes : List ExprNode) → IfOk result (λ status. (status ≡ 2) × WritesOpenRecords drawn budget (map (item_by nodes) specs.now) (K.taken sink.old) (K.taken sink.new)) }
    ensures part { (nodes : List ExprNode) → WritesSomeOpenRecords drawn budget (map (item_by nodes) specs.now) (K.taken sink.old) (K.taken sink.new) }
    ensures small { IfOk result (λ status. status ≤ 2) }
    ensures kept { OnOk result (K.faults sink.new ≡ K.faults sink.old) }
    ensures failed { IsErrOf result Stop.Failed → Rose (K.faults sink.old) (K.faults sink.new) }
    ensures no_memory { IsErrOf result Stop.NoMemory → K.faults sink.new ≡ K.faults sink.old }
{
    'open_specs: for (i, spec) in specs.iter().enumerate() {
        let ItemKind::Specification(kind) = spec.kind else {
            unreachable!()
        };
        let made = Record {
            number: i + 1,
            kind,
            verdict: SpecVerdict::Unknown(Reason::Preparing { drawn, budget }),
        };
        put_record(alloc, sink, &made)?;
    }
    Ok(2)
}
