//! Tests of monitors beside a small system: initial states, steps and fairness sets of each operator,
//! and counted signals.

ghost use Rattle.std.specs.Prelude.{◌≡◌, ◌+◌, ◌<◌, [], ◌∷◌, IfOk, IsTrue, All};
ghost use Rattle.clause_core.specs.Literals.{Within};

use crate::tables::formula;
use clause_core::{Bits, Clause, Clauses, Lit, Parts, System, is_within};
use ltl_meaning::formula::Formula;
use ltl_monitor::{Monitored, atoms_below, counted, monitored, own_row};
use std::alloc::{AllocError, Global};
use std::test::Fail;

// A system of so many bits with no other variables, whose definitions are none and whose states are all bad.
fn of_parts(
    alloc: Global,
    bits: usize,
    init: Clauses,
    step: Clauses,
    good: Clauses,
    fair: Clause,
) -> System
    requires few { bits < 9 }
    requires init_in { All (Within (bits + bits)) init }
    requires step_in { All (Within (bits + bits)) step }
    requires none { good ≡ [] ∷ [] }
    requires fair_in { Within bits fair }
    ensures { (result.state_bits ≡ bits) × (result.all_bits ≡ bits + bits) × (result.defs ≡ []) }
{
    let bad = Clauses::new(alloc);
    let defs = Clauses::new(alloc);
    let system = System::new(Parts {
        state_bits: bits,
        all_bits: bits + bits,
        init,
        step,
        bad,
        good,
        fair,
        defs,
    });
    system
}

// Whether no literal is past the bits of two states, nor a JUSTICE literal past those of one.
fn are_within(bits: usize, init: &Clauses, step: &Clauses, fair: &[Lit]) -> bool
    requires { bits < 9 }
    ensures init { IsTrue result → All (Within (bits + bits)) init.now }
    ensures step { IsTrue result → All (Within (bits + bits)) step.now }
    ensures fair { IsTrue result → Within bits fair.now }
{
    init.is_within(bits + bits) && step.is_within(bits + bits) && is_within(fair, bits)
}

// The one empty clause.
fn never(alloc: Global) -> Result<Clauses, AllocError>
    ensures { IfOk result (λ c. c ≡ [] ∷ []) }
{
    let mut clauses = Clauses::new(alloc);
    clauses.push(&[])?;
    Ok(clauses)
}

/// A system of so many bits with these JUSTICE literals.
pub fn fair_system(
    alloc: Global,
    bits: usize,
    init: Clauses,
    step: Clauses,
    fair: &[Lit],
) -> Result<System, AllocError>
    requires { bits < 9 }
    ensures { IfOk result (λ s. (s.state_bits ≡ bits) × (s.all_bits ≡ bits + bits) × (s.defs ≡ [])) }
{
    if !are_within(bits, &init, &step, fair) {
        return Err(AllocError);
    }
    let good = never(alloc)?;
    let fair = Clause::from_slice(alloc, fair)?;
    Ok(of_parts(alloc, bits, init, step, good, fair))
}

fn watch(
    alloc: Global,
    system: &System,
    formula: &Formula,
    atoms: &[Lit],
) -> Result<Monitored, AllocError>
    requires all { system.now.all_bits ≡ system.now.state_bits + system.now.state_bits }
    requires none { system.now.defs ≡ [] }
    requires within { Within system.now.state_bits atoms.now }
{
    if !atoms_below(formula, atoms.len()) {
        return Err(AllocError);
    }
    monitored(alloc, system, formula, atoms)
}

// The monitor of a formula beside a system of bits alone. Its atoms are the first bit and its negation.
fn beside(alloc: Global, system: &System, formula: &Formula) -> Result<Monitored, AllocError>
    requires all { system.now.all_bits ≡ system.now.state_bits + system.now.state_bits }
    requires none { system.now.defs ≡ [] }
{
    let atoms = [Lit::new(0, true), Lit::new(0, false)];
    if !is_within(&atoms, system.state_bits()) {
        return Err(AllocError);
    }
    watch(alloc, system, formula, &atoms)
}

fn false_at_first(alloc: Global) -> Result<Clauses, AllocError> {
    let mut init = Clauses::new(alloc);
    init.push(&[Lit::new(0, false)])?;
    Ok(init)
}

fn turned_round(alloc: Global) -> Result<Clauses, AllocError> {
    let mut step = Clauses::new(alloc);
    step.push(&[Lit::new(0, true), Lit::new(1, true)])?;
    step.push(&[Lit::new(0, false), Lit::new(1, false)])?;
    Ok(step)
}

// The system whose bit is false at first, and which each step turns round.
fn turning(alloc: Global, fair: &[Lit]) -> Result<System, AllocError>
    ensures { IfOk result (λ s. (s.state_bits ≡ 1) × (s.all_bits ≡ 1 + 1) × (s.defs ≡ [])) }
{
    let init = false_at_first(alloc)?;
    let step = turned_round(alloc)?;
    fair_system(alloc, 1, init, step, fair)
}

// Sets what the clause asks for; false where it is false.
fn visit(clause: &[Lit], values: &mut [Option<bool>]) -> bool {
    let mut open = None;
    let mut several = false;
    for l in clause {
        match values.get(l.var) {
            Some(Some(value)) => {
                if *value == l.positive {
                    return true;
                }
            }
            _ => {
                several = open.is_some();
                open = Some(*l);
            }
        }
    }
    let Some(l) = open else {
        return false;
    };
    if !several {
        if let Some(value) = values.get_mut(l.var) {
            *value = Some(l.positive);
        }
    }
    true
}

// The known values, and all others unset.
fn at_first(alloc: Global, vars: usize, known: &[bool]) -> Result<Vec<Option<bool>>, AllocError> {
    let mut values = Vec::new(alloc);
    for value in known {
        values.push(Some(*value))?;
    }
    for _ in known.len()..vars {
        values.push(None)?;
    }
    Ok(values)
}

// Sets what each clause asks for; false where one is false.
fn visit_all(clauses: &Clauses, values: &mut [Option<bool>]) -> bool {
    for k in 0..clauses.len() {
        if !visit(clauses.get(k), values) {
            return false;
        }
    }
    true
}

// Whether unit propagation from these first values finds no false clause.
fn is_open(
    alloc: Global,
    clauses: &Clauses,
    vars: usize,
    known: &[bool],
) -> Result<bool, AllocError> {
    let mut values = at_first(alloc, vars, known)?;
    for _ in 0..vars {
        if !visit_all(clauses, &mut values) {
            return Ok(false);
        }
    }
    Ok(true)
}

// The first `size` binary digits of a number, the lowest first.
fn bits(alloc: Global, size: usize, number: u32) -> Result<Vec<bool>, AllocError> {
    let mut bits = Vec::new(alloc);
    let mut rest = number;
    for _ in 0..size {
        bits.push(rest % 2 == 1)?;
        rest /= 2;
    }
    Ok(bits)
}

// Whether the clauses can be met where the first `size` variables have these binary digits.
fn is_place(
    alloc: Global,
    clauses: &Clauses,
    vars: usize,
    size: usize,
    number: u32,
) -> Result<bool, AllocError> {
    let known = bits(alloc, size, number)?;
    is_open(alloc, clauses, vars, &known)
}

// At which values of the first `size` variables the clauses can be met: a binary digit for each of the `count`
// values, in their order.
fn places(
    alloc: Global,
    clauses: &Clauses,
    vars: usize,
    size: usize,
    count: u32,
) -> Result<u64, AllocError> {
    let mut digits = 0u64;
    for number in 0..count {
        let open = is_place(alloc, clauses, vars, size, number)?;
        digits = digits.wrapping_mul(2).wrapping_add(u64::from(open));
    }
    Ok(digits)
}

fn add_all(clauses: &mut Clauses, more: &Clauses) -> Result<(), AllocError> {
    for k in 0..more.len() {
        clauses.push(more.get(k))?;
    }
    Ok(())
}

// Adds that set number 1 holds, and the definitions.
fn add_set(clauses: &mut Clauses, system: &System) -> Result<(), AllocError> {
    let fair = system.fair();
    if fair.len() < 2 {
        return Ok(());
    }
    clauses.push(&fair[1..2])?;
    add_all(clauses, system.defs())
}

fn places_with_set(
    alloc: Global,
    clauses: &mut Clauses,
    system: &System,
) -> Result<u64, AllocError> {
    add_set(clauses, system)?;
    places(alloc, clauses, system.all_bits(), 2, 4)
}

// At which states set number 1 holds; at all, where there is no such set.
fn set_places(alloc: Global, system: &System) -> Result<u64, AllocError> {
    let mut clauses = Clauses::new(alloc);
    let places = places_with_set(alloc, &mut clauses, system);
    drop(clauses);
    places
}

// Of a monitor of one temporal operator beside the turning system, whose bit is JUSTICE: initial states, steps, and
// the states of the operator's set. A state is its bit and the operator's own bit; a step is both states.
struct Shown {
    formula: &'static [u8],
    first: u64,
    steps: u64,
    set: u64,
}

const SHOWN: [Shown; 11] = [
    Shown {
        formula: b"aX",
        first: 0b1000,
        steps: 0b0100001001000010,
        set: 0b1111,
    },
    Shown {
        formula: b"aF",
        first: 0b1000,
        steps: 0b0001100000010010,
        set: 0b1101,
    },
    Shown {
        formula: b"aG",
        first: 0b1000,
        steps: 0b0100100000011000,
        set: 0b1011,
    },
    Shown {
        formula: b"aY",
        first: 0b1000,
        steps: 0b0000101001010000,
        set: 0b1111,
    },
    Shown {
        formula: b"aZ",
        first: 0b0000,
        steps: 0b0000101001010000,
        set: 0b1111,
    },
    Shown {
        formula: b"aO",
        first: 0b1000,
        steps: 0b0100000000011010,
        set: 0b1111,
    },
    Shown {
        formula: b"aH",
        first: 0b1000,
        steps: 0b0101100000000010,
        set: 0b1111,
    },
    Shown {
        formula: b"abU",
        first: 0b1000,
        steps: 0b0100001000010010,
        set: 0b1110,
    },
    Shown {
        formula: b"abV",
        first: 0b1000,
        steps: 0b0100100001000010,
        set: 0b0111,
    },
    Shown {
        formula: b"abS",
        first: 0b0000,
        steps: 0b0000100001010010,
        set: 0b1111,
    },
    Shown {
        formula: b"abT",
        first: 0b0000,
        steps: 0b0100101000010000,
        set: 0b1111,
    },
];

fn is_shown(alloc: Global, system: &System, row: &Shown) -> Result<bool, AllocError> {
    let vars = system.all_bits();
    let first = places(alloc, system.init(), vars, 2, 4)?;
    let steps = places(alloc, system.step(), vars, 4, 16)?;
    let set = set_places(alloc, system)?;
    Ok(first == row.first && steps == row.steps && set == row.set)
}

/// The monitor of a formula in letters beside a system of bits alone.
pub fn watched(alloc: Global, system: &System, text: &[u8]) -> Result<Monitored, AllocError>
    requires all { system.now.all_bits ≡ system.now.state_bits + system.now.state_bits }
    requires none { system.now.defs ≡ [] }
{
    let formula = formula(alloc, text)?;
    let monitored = beside(alloc, system, &formula);
    drop(formula);
    monitored
}

fn is_row_shown(alloc: Global, system: &System, row: &Shown) -> Result<bool, AllocError>
    requires all { system.now.all_bits ≡ system.now.state_bits + system.now.state_bits }
    requires none { system.now.defs ≡ [] }
{
    let watched = watched(alloc, system, row.formula)?;
    let answer = is_shown(alloc, &watched.system, row);
    drop(watched);
    answer
}

fn wrong_beside(alloc: Global, system: &System) -> Result<Option<usize>, AllocError>
    requires all { system.now.all_bits ≡ system.now.state_bits + system.now.state_bits }
    requires none { system.now.defs ≡ [] }
{
    for (k, row) in SHOWN.iter().enumerate() {
        if !is_row_shown(alloc, system, row)? {
            return Ok(Some(k));
        }
    }
    Ok(None)
}

fn wrong_monitor(alloc: Global) -> Result<Option<usize>, AllocError> {
    let system = turning(alloc, &[Lit::new(0, true)])?;
    let wrong = wrong_beside(alloc, &system);
    drop(system);
    wrong
}

#[test]
fn monitors_of_operators(rt: HostRuntime) -> Result<(), Fail> {
    assert_eq!(rt; wrong_monitor(rt.alloc())?, None);
    Ok(())
}

// The turning system whose bit is to be true and false again and again.
fn with_two_sets(alloc: Global) -> Result<Monitored, AllocError> {
    let system = turning(alloc, &[Lit::new(0, true), Lit::new(0, false)])?;
    Ok(Monitored { system })
}

// The same, with a counter up to one.
fn counted_up_to_one(alloc: Global) -> Result<System, AllocError> {
    let monitored = with_two_sets(alloc)?;
    let system = counted(alloc, &monitored, 1);
    drop(monitored);
    system
}

// A state is its bit, two marks and the counter's bit. The run is 0000, 0101, 1000, 1101, 1000.
const STEPS: [u32; 4] = [0x50, 0x85, 0xd8, 0x8d];

fn wrong_step(alloc: Global, system: &System) -> Result<Option<u32>, AllocError> {
    for step in &STEPS {
        if !is_place(alloc, system.step(), system.all_bits(), 8, *step)? {
            return Ok(Some(*step));
        }
    }
    Ok(None)
}

// Whether initial states, bad states and good ones are these.
fn has_places(alloc: Global, system: &System) -> Result<bool, AllocError> {
    let vars = system.all_bits();
    let first = places(alloc, system.init(), vars, 4, 16)?;
    let bad = places(alloc, system.bad(), vars, 4, 16)?;
    let good = places(alloc, system.good(), vars, 4, 16)?;
    Ok(first == 0b1000000000000000 && bad == 0b0000000000100111 && good == 0b1111111111011000)
}

fn has_steps(alloc: Global, system: &System) -> Result<bool, AllocError> {
    Ok(has_places(alloc, system)? && wrong_step(alloc, system)?.is_none())
}

fn is_counted(alloc: Global) -> Result<bool, AllocError> {
    let system = counted_up_to_one(alloc)?;
    let answer = has_steps(alloc, &system);
    drop(system);
    answer
}

#[test]
fn signals_of_two_sets(rt: HostRuntime) -> Result<(), Fail> {
    assert!(rt; is_counted(rt.alloc())?);
    Ok(())
}

// So many values, of which only that of variable 2 is true.
fn third_alone(alloc: Global, count: usize) -> Result<Bits, AllocError> {
    let mut values = Vec::new(alloc);
    for var in 0..count {
        values.push(var == 2)?;
    }
    Ok(Bits::from_vec(values))
}

// The system's own bits of values of its monitor's, of which only variable 2 is true. Those variables are the bit, the
// operator's bit, the next bit, and so on.
fn own_bits(alloc: Global, system: &System, watched: &Monitored) -> Result<Bits, AllocError> {
    let row = third_alone(alloc, watched.system.all_bits())?;
    let own = own_row(alloc, system, watched, &row);
    drop(row);
    own
}

fn has_own_bits(alloc: Global, system: &System, watched: &Monitored) -> Result<bool, AllocError> {
    let own = own_bits(alloc, system, watched)?;
    let answer = own.as_slice() == [false, true].as_slice();
    drop(own);
    Ok(answer)
}

fn are_own(alloc: Global, system: &System) -> Result<bool, AllocError>
    requires all { system.now.all_bits ≡ system.now.state_bits + system.now.state_bits }
    requires none { system.now.defs ≡ [] }
{
    let watched = watched(alloc, system, b"aX")?;
    let answer = has_own_bits(alloc, system, &watched);
    drop(watched);
    answer
}

fn are_own_of_turning(alloc: Global) -> Result<bool, AllocError> {
    let system = turning(alloc, &[])?;
    let answer = are_own(alloc, &system);
    drop(system);
    answer
}

#[test]
fn values_of_a_step(rt: HostRuntime) -> Result<(), Fail> {
    assert!(rt; are_own_of_turning(rt.alloc())?);
    Ok(())
}
