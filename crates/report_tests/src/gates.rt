//! Two workers behind gates: they run beside each other, and in whatever order they are let in, the verdicts are the
//! same.
use outside::{Gate, SureSink, SureSource};
use smv_cli::run;
use std::alloc::{AllocError, Global};
use std::sync::Wait;
use std::sync::atomic::{AtomicBool, AtomicUsize, Ordering};
use std::test::Fail;
use std::thread::{Threads, yield_now};

const TOGGLING: &str =
    "MODULE main\nVAR x : boolean;\nASSIGN init(x) := FALSE; next(x) := !x;\nINVARSPEC !x\n";

const INFINITELY_OFTEN: &str =
    "MODULE main\nVAR x : boolean;\nASSIGN init(x) := FALSE; next(x) := !x;\nLTLSPEC G F x\n";

const BROKEN: &str =
    "-- spec 1 INVARSPEC is false\n--@ spec 1\n--@ state 0: x = FALSE\n--@ state 1: x = TRUE\n";

const TRUE: &str = "-- spec 1 LTLSPEC is true\n";

// How often a worker asks at most whether it is let in.
const TURNS: u32 = 1_000_000;

// Whether a run by two workers behind a gate prints this, and answers this status.
fn passes<R: Threads + Wait + Sync, G: Gate + Sync>(
    rt: &R,
    alloc: Global,
    text: &str,
    gate: &G,
    want: &str,
    want_status: u8,
) -> Result<bool, AllocError> {
    let mut source = SureSource::new(text.as_bytes().to_vec(alloc)?);
    let mut sink = SureSink::new(alloc);
    let words = ["check", "--workers", "2"];
    let status = run(rt, alloc, &words, &mut source, &mut sink, gate);
    Ok(status == want_status && sink.into_bytes().as_slice() == want.as_bytes())
}

// What is known of one of two workers: whether it has come to the gate, and whether it saw the other while it was held
// there for the first time.
#[derive(Drop)]
struct Place {
    came: AtomicBool,
    saw: AtomicBool,
}

impl Place {
    fn new() -> Place {
        Place {
            came: AtomicBool::new(false),
            saw: AtomicBool::new(false),
        }
    }

    // Holds a worker that comes for the first time until the other has come, for so many turns at most.
    fn meet(&self, other: &Place) {
        if self.came.swap(true, Ordering::SeqCst) {
            return;
        }
        for _ in 0..TURNS {
            if other.came.load(Ordering::SeqCst) {
                self.saw.store(true, Ordering::SeqCst);
                return;
            }
            yield_now();
        }
    }

    fn has_seen(&self) -> bool {
        self.saw.load(Ordering::SeqCst)
    }
}

// Holds each of two workers before its first task until the other has come.
#[derive(Drop)]
struct Meeting {
    first: Place,
    second: Place,
}

impl Gate for Meeting {
    fn enter<R: Wait>(&self, _rt: &R, worker: u32) {
        match worker {
            1 => self.first.meet(&self.second),
            2 => self.second.meet(&self.first),
            _ => {}
        }
    }
}

#[test]
fn two_enter(rt: HostRuntime) -> Result<(), Fail> {
    let gate = Meeting {
        first: Place::new(),
        second: Place::new(),
    };
    assert!(rt; passes(&rt, rt.alloc(), INFINITELY_OFTEN, &gate, TRUE, 0)?);
    assert!(rt; gate.first.has_seen());
    assert!(rt; gate.second.has_seen());
    Ok(())
}

// Lets two workers in in this order, and then as they come. A worker that the order forgets waits for so many turns at
// most.
#[derive(Drop)]
struct Ordered {
    order: [u32; 4],
    passed: AtomicUsize,
}

impl Ordered {
    // Whether it is this worker's turn, or the order is over.
    fn lets_in(&self, worker: u32) -> bool {
        let passed = self.passed.load(Ordering::SeqCst);
        match self.order.get(passed) {
            Some(next) if *next != worker => false,
            Some(_) => {
                self.passed.fetch_add(1, Ordering::SeqCst);
                true
            }
            None => true,
        }
    }
}

// How often a worker asks for its turn, where the other may have ended before.
const PATIENCE: u32 = 10_000;

impl Gate for Ordered {
    fn enter<R: Wait>(&self, _rt: &R, worker: u32) {
        for _ in 0..PATIENCE {
            if worker == 0 || self.lets_in(worker) {
                return;
            }
            yield_now();
        }
    }
}

const ORDERS: [[u32; 4]; 6] = [
    [1, 1, 2, 2],
    [1, 2, 1, 2],
    [1, 2, 2, 1],
    [2, 1, 1, 2],
    [2, 1, 2, 1],
    [2, 2, 1, 1],
];

// The number of the first order in which something else is printed.
fn first_wrong_order<R: Threads + Wait + Sync>(
    rt: &R,
    alloc: Global,
    text: &str,
    want: &str,
    status: u8,
) -> Result<Option<usize>, AllocError> {
    for (number, order) in ORDERS.iter().enumerate() {
        let gate = Ordered {
            order: *order,
            passed: AtomicUsize::new(0),
        };
        if !passes(rt, alloc, text, &gate, want, status)? {
            return Ok(Some(number));
        }
    }
    Ok(None)
}

#[test]
fn every_order_of_two(rt: HostRuntime) -> Result<(), Fail> {
    let alloc = rt.alloc();
    let wrong = first_wrong_order(&rt, alloc, TOGGLING, BROKEN, 1)?;
    assert_eq!(rt; wrong, None);
    let wrong = first_wrong_order(&rt, alloc, INFINITELY_OFTEN, TRUE, 0)?;
    assert_eq!(rt; wrong, None);
    Ok(())
}

// Holds one worker for long before each of its tasks.
#[derive(Drop)]
struct Slow {
    worker: u32,
}

impl Gate for Slow {
    fn enter<R: Wait>(&self, _rt: &R, worker: u32) {
        if worker == self.worker {
            for _ in 0..PATIENCE {
                yield_now();
            }
        }
    }
}

#[test]
fn one_is_held_for_long(rt: HostRuntime) -> Result<(), Fail> {
    for worker in 0..3 {
        let gate = Slow { worker };
        assert!(rt; passes(&rt, rt.alloc(), TOGGLING, &gate, BROKEN, 1)?);
        assert!(rt; passes(&rt, rt.alloc(), INFINITELY_OFTEN, &gate, TRUE, 0)?);
    }
    Ok(())
}
