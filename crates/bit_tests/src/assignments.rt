//! Tests of the systems of small models under all assignments of their bits.

use crate::refuting::{is_refuted, set_by};
use bit_states::BuildStop;
use bit_system::{Built, build};
use clause_core::{Bits, System};
use smv_flat::Flat;
use smv_front::read_model;
use smv_meaning::{State, Typed, meets_init, meets_step, outcomes, specifications};
use smv_resolve::{Item, ItemKind};
use smv_tree::ConstraintKind;
use std::alloc::{AllocError, Global};
use std::test::Fail;

// A model, how many bits a state has and all named bits are, how many assignments these have, and how many clauses its
// first specification has: of initial states, steps, bad states, good states and definitions.
#[derive(Clone, Copy)]
struct Row {
    source: &'static str,
    width: usize,
    states: usize,
    named: usize,
    steps: usize,
    clauses: [usize; 5],
}

const LIGHT: &str = "MODULE main
VAR red : boolean; yellow : boolean; green : boolean;
INIT red & !yellow & !green
TRANS next(green) = red & next(yellow) = green & next(red) = yellow
INVARSPEC !(red & green)
INVARSPEC red xor yellow xor green
";

const FROZEN: &str = "MODULE main
FROZENVAR f : boolean;
VAR x : boolean;
IVAR i : boolean;
ASSIGN init(x) := f; next(x) := i ? f : x;
INVARSPEC x = f
INVARSPEC x | !f
";

const FAIR: &str = "MODULE main
VAR x : boolean; y : boolean;
INVAR x | y
TRANS next(x) = (x xor y)
JUSTICE x & y
JUSTICE !y
INVARSPEC x -> y
";

const ASSIGNED: &str = "MODULE main
VAR x : boolean; y : boolean;
IVAR i : boolean; j : boolean;
DEFINE both := i & j;
ASSIGN y := !x; next(x) := both | x;
INVARSPEC x != y
INVARSPEC FALSE
";

const COUNTER: &str = "MODULE main
VAR n : 0..2;
ASSIGN init(n) := {0, 1}; next(n) := (n + 1) mod 3;
INVARSPEC n < 2
INVARSPEC n != 3
";

const ARRAY: &str = "MODULE main
VAR a : array 0..1 of boolean; i : 0..1;
TRANS next(a[0]) = a[i]
INVARSPEC a[i] -> a[0] | a[1]
";

const ROWS: [Row; 6] = [
    Row {
        source: LIGHT,
        width: 3,
        states: 8,
        named: 6,
        steps: 64,
        clauses: [3, 6, 2, 1, 0],
    },
    Row {
        source: FROZEN,
        width: 2,
        states: 4,
        named: 5,
        steps: 32,
        clauses: [2, 6, 2, 2, 0],
    },
    Row {
        source: FAIR,
        width: 2,
        states: 4,
        named: 4,
        steps: 16,
        clauses: [1, 6, 2, 1, 3],
    },
    Row {
        source: ASSIGNED,
        width: 2,
        states: 4,
        named: 6,
        steps: 64,
        clauses: [2, 10, 2, 2, 0],
    },
    Row {
        source: COUNTER,
        width: 2,
        states: 4,
        named: 4,
        steps: 16,
        clauses: [8, 50, 2, 2, 0],
    },
    Row {
        source: ARRAY,
        width: 3,
        states: 8,
        named: 6,
        steps: 64,
        clauses: [0, 4, 4, 7, 0],
    },
];

// The low bits of a number.
pub fn bits_of(alloc: Global, number: usize, count: usize) -> Result<Vec<bool>, AllocError> {
    let mut rest = number;
    let mut bits = Vec::new(alloc);
    for _ in 0..count {
        bits.push(rest % 2 == 1)?;
        rest /= 2;
    }
    Ok(bits)
}

// The value of the node in the state: `T`, `F` or `-`.
fn value_in(alloc: Global, typed: &Typed, s: &State, node: usize) -> Result<u8, AllocError> {
    let all = outcomes(
        alloc,
        typed.slots.as_slice(),
        typed.nodes.as_slice(),
        s.as_slice(),
        &[],
        &[],
    )?;
    let Some(outcome) = all.as_slice().get(node) else {
        return Ok(b'-');
    };
    Ok(match outcome.truth() {
        Some(true) => b'T',
        Some(false) => b'F',
        None => b'-',
    })
}

// Whether initial states are those of the model, and go to bits and back.
fn is_first_right(
    alloc: Global,
    typed: &Typed,
    built: &Built,
    sys: &System,
    bits: &Bits,
) -> Result<bool, AllocError> {
    let s = built.decode(alloc, bits)?;
    let first = meets_init(alloc, typed, &s)?;
    let refuted = is_refuted(alloc, sys.init(), sys.all_bits(), bits.as_slice())?;
    let code = built.encode(alloc, &s)?;
    Ok(first != refuted && (refuted || code.as_slice() == bits.as_slice()))
}

// Whether bad states are those in which the specification is FALSE, and good states the others.
fn is_claim_right(
    alloc: Global,
    typed: &Typed,
    built: &Built,
    sys: &System,
    bits: &Bits,
    spec: &Item,
) -> Result<bool, AllocError> {
    let s = built.decode(alloc, bits)?;
    let value = value_in(alloc, typed, &s, spec.value)?;
    let bad = is_refuted(alloc, sys.bad(), sys.all_bits(), bits.as_slice())?;
    let good = is_refuted(alloc, sys.good(), sys.all_bits(), bits.as_slice())?;
    Ok(bad == (value != b'F') && good != bad)
}

// The values of the formulas of JUSTICE in the state.
fn just_values(alloc: Global, typed: &Typed, s: &State) -> Result<Vec<u8>, AllocError> {
    let mut values = Vec::new(alloc);
    for item in typed.items.as_slice() {
        if item.kind == ItemKind::Constraint(ConstraintKind::Justice) {
            values.push(value_in(alloc, typed, s, item.value)?)?;
        }
    }
    Ok(values)
}

// Whether the literals of JUSTICE have the values of their formulas.
fn is_fair_right(
    alloc: Global,
    typed: &Typed,
    built: &Built,
    sys: &System,
    bits: &Bits,
) -> Result<bool, AllocError> {
    let s = built.decode(alloc, bits)?;
    let wanted = just_values(alloc, typed, &s)?;
    let found = set_by(
        alloc,
        sys.defs(),
        sys.all_bits(),
        bits.as_slice(),
        sys.fair(),
    )?;
    Ok(found.as_slice() == wanted.as_slice())
}

// Whether a step is one of the model.
fn is_step_right(
    alloc: Global,
    typed: &Typed,
    built: &Built,
    sys: &System,
    bits: &Bits,
    next: &Bits,
) -> Result<bool, AllocError> {
    let s = built.decode(alloc, bits)?;
    let u = built.decode_inputs(alloc, bits)?;
    let t = built.decode(alloc, next)?;
    let met = meets_step(alloc, typed, &s, &u, &t)?;
    let refuted = is_refuted(alloc, sys.step(), sys.all_bits(), bits.as_slice())?;
    Ok(met != refuted)
}

fn are_states_right(
    alloc: Global,
    typed: &Typed,
    built: &Built,
    sys: &System,
    spec: &Item,
    row: Row,
) -> Result<bool, AllocError> {
    for n in 0..row.states {
        let bits = Bits::from_vec(bits_of(alloc, n, row.width)?);
        if !is_first_right(alloc, typed, built, sys, &bits)?
            || !is_claim_right(alloc, typed, built, sys, &bits, spec)?
            || !is_fair_right(alloc, typed, built, sys, &bits)?
        {
            return Ok(false);
        }
    }
    Ok(true)
}

fn are_steps_right(
    alloc: Global,
    typed: &Typed,
    built: &Built,
    sys: &System,
    row: Row,
) -> Result<bool, AllocError> {
    for n in 0..row.steps {
        let bits = Bits::from_vec(bits_of(alloc, n, row.named)?);
        let next = Bits::from_vec(bits_of(alloc, n / row.states.max(1), row.width)?);
        if !is_step_right(alloc, typed, built, sys, &bits, &next)? {
            return Ok(false);
        }
    }
    Ok(true)
}

fn are_specs_right(
    alloc: Global,
    typed: &Typed,
    built: &Built,
    row: Row,
) -> Result<bool, AllocError> {
    let specs = specifications(alloc, typed)?;
    for (j, spec) in specs.as_slice().iter().enumerate() {
        if j >= built.len() {
            return Ok(false);
        }
        let sys = built.system_of(j);
        if !are_states_right(alloc, typed, built, sys, spec, row)?
            || !are_steps_right(alloc, typed, built, sys, row)?
        {
            return Ok(false);
        }
    }
    Ok(specs.len() == 2 || specs.len() == 1)
}

fn counts(sys: &System) -> [usize; 5] {
    [
        sys.init().len(),
        sys.step().len(),
        sys.bad().len(),
        sys.good().len(),
        sys.defs().len(),
    ]
}

fn is_model_right(alloc: Global, flat: &Flat, row: Row) -> Result<bool, AllocError> {
    match build(alloc, flat) {
        Ok(built) => are_specs_right(alloc, &flat.typed, &built, row),
        Err(BuildStop::TooManyBits) => Ok(false),
        Err(BuildStop::NoMemory) => Err(AllocError),
    }
}

fn is_right(alloc: Global, row: Row) -> Result<bool, AllocError> {
    match read_model(alloc, row.source.as_bytes()) {
        Ok(flat) => is_model_right(alloc, &flat, row),
        Err(_) => Ok(false),
    }
}

fn counted_of(built: &Built) -> [usize; 5] {
    if built.len() == 0 {
        return [0; 5];
    }
    counts(built.system_of(0))
}

fn counted_in(alloc: Global, flat: &Flat) -> [usize; 5] {
    match build(alloc, flat) {
        Ok(built) => counted_of(&built),
        Err(_) => [0; 5],
    }
}

fn counted_of_row(alloc: Global, row: Row) -> [usize; 5] {
    match read_model(alloc, row.source.as_bytes()) {
        Ok(flat) => counted_in(alloc, &flat),
        Err(_) => [0; 5],
    }
}

fn first_wrong(alloc: Global) -> Result<Option<&'static str>, AllocError> {
    for row in &ROWS {
        if !is_right(alloc, *row)? {
            return Ok(Some(row.source));
        }
    }
    Ok(None)
}

#[test]
fn systems_have_the_states_and_steps_of_their_models(rt: HostRuntime) -> Result<(), Fail> {
    assert_eq!(rt; first_wrong(rt.alloc())?, None);
    Ok(())
}

#[test]
fn few_clauses_come_of_models(rt: HostRuntime) -> Result<(), Fail> {
    for row in &ROWS {
        assert_eq!(rt; counted_of_row(rt.alloc(), *row), row.clauses);
    }
    Ok(())
}
