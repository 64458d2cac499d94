//! Tests of IC3 on small models, by one, two and five workers, and of gates that workers pass.

ghost use Rattle.std.specs.Prelude.{◌<◌};
ghost use Rattle.frame_core.specs.FrameLaw.{AreAlike};

use bit_runs::what_is_built_is_alike;
use bit_states::BuildStop;
use bit_system::build;
use clause_core::System;
use outside::{Gate, OpenGate};
use prove_run::{Answer, Cause, Effort, prove_all};
use smv_flat::Flat;
use smv_front::read_model;
use std::alloc::{AllocError, Global};
use std::sync::Wait;
use std::sync::atomic::{AtomicU64, Ordering};
use std::test::Fail;
use std::thread;
use std::thread::Threads;

// A model, the effort, and a letter for each specification: true, false, or unknown by conflicts or limit of frames.
#[derive(Clone, Copy)]
struct Row {
    source: &'static str,
    conflicts: u64,
    frames: u16,
    wanted: &'static str,
}

const COUNTER: &str = "MODULE main
VAR b0 : boolean; b1 : boolean; b2 : boolean;
DEFINE last := b0 & b2;
ASSIGN
  init(b0) := FALSE; next(b0) := !b0;
  init(b1) := FALSE; next(b1) := (b1 xor b0) & !last;
  init(b2) := FALSE; next(b2) := (b2 xor (b0 & b1)) & !last;
INVARSPEC !(b1 & b2)
INVARSPEC !(b0 & b1 & b2)
INVARSPEC !last
";

const FIVE_STEPS: &str = "MODULE main
VAR b0 : boolean; b1 : boolean; b2 : boolean;
ASSIGN
  init(b0) := FALSE; next(b0) := !b0;
  init(b1) := FALSE; next(b1) := b1 xor b0;
  init(b2) := FALSE; next(b2) := b2 xor (b0 & b1);
INVARSPEC !(b0 & b2)
";

const LIGHT: &str = "MODULE main
VAR red : boolean; yellow : boolean; green : boolean;
INIT red & !yellow & !green
TRANS next(green) = red & next(yellow) = green & next(red) = yellow
INVARSPEC !(red & green)
INVARSPEC red xor yellow xor green
INVARSPEC !yellow
";

const AT_ONCE: &str = "MODULE main
VAR x : boolean;
INIT x
INVARSPEC !x
INVARSPEC TRUE
INVARSPEC x
";

const NOTHING_ASKED: &str = "MODULE main
VAR x : boolean;
";

const ROWS: [Row; 8] = [
    Row {
        source: COUNTER,
        conflicts: 100000,
        frames: 100,
        wanted: "TTF",
    },
    Row {
        source: COUNTER,
        conflicts: 0,
        frames: 100,
        wanted: "CCC",
    },
    Row {
        source: FIVE_STEPS,
        conflicts: 100000,
        frames: 2,
        wanted: "L",
    },
    Row {
        source: FIVE_STEPS,
        conflicts: 100000,
        frames: 0,
        wanted: "L",
    },
    Row {
        source: FIVE_STEPS,
        conflicts: 100000,
        frames: 100,
        wanted: "F",
    },
    Row {
        source: LIGHT,
        conflicts: 100000,
        frames: 100,
        wanted: "TTF",
    },
    Row {
        source: AT_ONCE,
        conflicts: 100000,
        frames: 100,
        wanted: "FTF",
    },
    Row {
        source: NOTHING_ASKED,
        conflicts: 0,
        frames: 0,
        wanted: "",
    },
];

fn letter(answer: &Answer) -> u8 {
    match answer {
        Answer::True(_) => b'T',
        Answer::False(_) => b'F',
        Answer::Unknown(Cause::Conflicts { .. }) => b'C',
        Answer::Unknown(Cause::Frames { .. }) => b'L',
    }
}

fn letters(alloc: Global, answers: &[Answer]) -> Result<Vec<u8>, AllocError> {
    let mut letters = Vec::new(alloc);
    for answer in answers {
        letters.push(letter(answer))?;
    }
    Ok(letters)
}

// Whether these systems are answered as the row wants, by so many workers.
fn are_answered<R: Threads + Wait + Sync, G: Gate + Sync>(
    rt: &R,
    alloc: Global,
    systems: &[System],
    row: Row,
    workers: u32,
    gate: &G,
) -> Result<bool, AllocError>
    requires alike { AreAlike systems.now }
    requires workers { 0 < workers }
{
    let effort = Effort {
        conflicts: row.conflicts,
        frames: u32::from(row.frames),
    };
    let done = prove_all(rt, alloc, systems, &effort, workers, gate)?;
    let found = letters(alloc, &done.answers)?;
    Ok(found.as_slice() == row.wanted.as_bytes())
}

fn is_answered<R: Threads + Wait + Sync, G: Gate + Sync>(
    rt: &R,
    alloc: Global,
    flat: &Flat,
    row: Row,
    workers: u32,
    gate: &G,
) -> Result<bool, AllocError>
    requires workers { 0 < workers }
{
    match build(alloc, flat) {
        Ok(built) => {
            what_is_built_is_alike();
            are_answered(rt, alloc, built.systems(), row, workers, gate)
        }
        Err(BuildStop::TooManyBits) => Ok(false),
        Err(BuildStop::NoMemory) => Err(AllocError),
    }
}

fn is_right<R: Threads + Wait + Sync, G: Gate + Sync>(
    rt: &R,
    alloc: Global,
    row: Row,
    workers: u32,
    gate: &G,
) -> Result<bool, AllocError>
    requires workers { 0 < workers }
{
    match read_model(alloc, row.source.as_bytes()) {
        Ok(flat) => is_answered(rt, alloc, &flat, row, workers, gate),
        Err(_) => Ok(false),
    }
}

// The number of the first row that is answered otherwise by so many workers.
fn first_wrong<R: Threads + Wait + Sync>(
    rt: &R,
    alloc: Global,
    workers: u32,
) -> Result<Option<usize>, AllocError>
    requires workers { 0 < workers }
{
    for n in 0..ROWS.len() {
        let row = ROWS[n];
        if !is_right(rt, alloc, row, workers, &OpenGate)? {
            return Ok(Some(n));
        }
    }
    Ok(None)
}

#[test]
fn one_worker_answers(rt: HostRuntime) -> Result<(), Fail> {
    assert_eq!(rt; first_wrong(&rt, rt.alloc(), 1)?, None);
    Ok(())
}

#[test]
fn two_workers_answer(rt: HostRuntime) -> Result<(), Fail> {
    assert_eq!(rt; first_wrong(&rt, rt.alloc(), 2)?, None);
    Ok(())
}

#[test]
fn five_workers_answer(rt: HostRuntime) -> Result<(), Fail> {
    assert_eq!(rt; first_wrong(&rt, rt.alloc(), 5)?, None);
    Ok(())
}

// Counts who passes.
#[derive(Drop)]
struct Counter {
    passed: AtomicU64,
}

impl Gate for Counter {
    fn enter<R: Wait>(&self, _rt: &R, worker: u32) {
        if worker == 0 {
            self.passed.fetch_add(1, Ordering::SeqCst);
        }
    }
}

// A worker alone has the number 0, and asks for a task once more than there is one.
#[test]
fn one_worker_passes_the_gate(rt: HostRuntime) -> Result<(), Fail> {
    let gate = Counter {
        passed: AtomicU64::new(0),
    };
    assert!(rt; is_right(&rt, rt.alloc(), ROWS[5], 1, &gate)?);
    assert!(rt; gate.passed.load(Ordering::SeqCst) > 1);
    Ok(())
}

// Holds the first task of each of two workers until the other has come, for some turns.
#[derive(Drop)]
struct Meeting {
    came: [AtomicU64; 2],
    met: [AtomicU64; 2],
}

impl Gate for Meeting {
    fn enter<R: Wait>(&self, _rt: &R, worker: u32) {
        let (me, other) = if worker == 1 { (0, 1) } else { (1, 0) };
        self.came[me].store(1, Ordering::SeqCst);
        for _ in 0..1_000_000u32 {
            if self.came[other].load(Ordering::SeqCst) == 1 {
                self.met[me].store(1, Ordering::SeqCst);
                return;
            }
            thread::yield_now();
        }
    }
}

#[test]
fn two_workers_meet(rt: HostRuntime) -> Result<(), Fail> {
    let gate = Meeting {
        came: [AtomicU64::new(0), AtomicU64::new(0)],
        met: [AtomicU64::new(0), AtomicU64::new(0)],
    };
    assert!(rt; is_right(&rt, rt.alloc(), ROWS[5], 2, &gate)?);
    assert!(rt; gate.met[0].load(Ordering::SeqCst) == 1);
    assert!(rt; gate.met[1].load(Ordering::SeqCst) == 1);
    Ok(())
}
