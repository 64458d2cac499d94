//! A latch and a shift register of three bits, worked by hand: their lemmas, the states that lead to a bad one, and
//! what queries would show of them.

ghost use Rattle.std.specs.Prelude.{◌≡◌, ◌<◌, [], ◌∷◌, true, false, IfOk, IsTrue, map};
ghost use Rattle.frame_core.specs.Facts.{IsFound, IsStep};
ghost use Rattle.frame_tests.specs.ThreeBits.{three_bits, latch_over, latch, register, alone, alone_parent, either_low, last_values, middle_values, first_values};

use clause_core::{Bits, Clause, Clauses, Lit, System, is_within};
use frame_core::{BitRun, Clear, Frames, FramesVerdict, Parent, Proved, StateWitness, Step};
use std::alloc::{AllocError, Global};

pub(crate) fn yes(var: usize) -> Lit
    ensures { result ≡ record { var = var; positive = true } }
{
    Lit::new(var, true)
}

pub(crate) fn no(var: usize) -> Lit
    ensures { result ≡ record { var = var; positive = false } }
{
    Lit::new(var, false)
}

// A clause for each literal.
fn units(alloc: Global, lits: &[Lit]) -> Result<Clauses, AllocError>
    ensures { IfOk result (λ c. c ≡ map (λ l. l ∷ []) lits.now) }
{
    let mut clauses = Clauses::new(alloc);
    'lits: for l in lits {
        clauses.push(&[*l])?;
    }
    Ok(clauses)
}

// A clause for each pair.
fn pairs(alloc: Global, pairs: &[(Lit, Lit)]) -> Result<Clauses, AllocError>
    ensures { IfOk result (λ c. c ≡ map (λ p. p.0 ∷ p.1 ∷ []) pairs.now) }
{
    let mut clauses = Clauses::new(alloc);
    'pairs: for p in pairs {
        clauses.push(&[p.0, p.1])?;
    }
    Ok(clauses)
}

// The system of three bits with these clauses, whose bad states are those in which these literals are true.
fn plain(alloc: Global, init: Clauses, step: Clauses, bad: &[Lit]) -> Result<System, AllocError>
    ensures { IfOk result (λ s. s ≡ three_bits init step bad.now) }
{
    if init.is_within(6) && step.is_within(6) && is_within(bad, 3) {
        System::plain(alloc, 3, 6, init, step, bad)
    } else {
        drop(init);
        drop(step);
        Err(AllocError)
    }
}

// The latch with these bad states.
pub(crate) fn latch_with(alloc: Global, bad: &[Lit]) -> Result<System, AllocError>
    ensures { IfOk result (λ s. s ≡ latch_over bad.now) }
{
    let init = units(alloc, &[no(0)])?;
    let step = pairs(alloc, &[(no(3), yes(0))])?;
    let system = plain(alloc, init, step, bad)?;
    Ok(system)
}

pub(crate) fn latch_system(alloc: Global) -> Result<System, AllocError>
    ensures { IfOk result (λ s. s ≡ latch) }
{
    let system = latch_with(alloc, &[yes(0), yes(1), yes(2)])?;
    Ok(system)
}

pub(crate) fn register_system(alloc: Global) -> Result<System, AllocError>
    ensures { IfOk result (λ s. s ≡ register) }
{
    let init = units(alloc, &[no(1), no(2)])?;
    let step = pairs(
        alloc,
        &[
            (no(4), yes(0)),
            (yes(4), no(0)),
            (no(5), yes(1)),
            (yes(5), no(1)),
        ],
    )?;
    let system = plain(alloc, init, step, &[yes(0), yes(1), yes(2)])?;
    Ok(system)
}

// This bit is false.
fn clause_of(alloc: Global, bit: usize) -> Result<Clause, AllocError>
    ensures { IfOk result (λ c. c ≡ alone bit) }
{
    Clause::from_slice(alloc, &[no(bit)])
}

// Bit 0 or bit 1 is false.
fn either_clause(alloc: Global) -> Result<Clause, AllocError>
    ensures { IfOk result (λ c. c ≡ either_low) }
{
    Clause::from_slice(alloc, &[no(0), no(1)])
}

// Lemma 0, which says that this bit is false, as the only parent.
fn parents_of(alloc: Global, bit: usize) -> Result<Vec<Parent>, AllocError>
    ensures { IfOk result (λ v. v.items ≡ alone_parent bit ∷ []) }
{
    let clause = clause_of(alloc, bit)?;
    let mut parents = Vec::new(alloc);
    parents.push(Parent { number: 0, clause })?;
    Ok(parents)
}

// That bit 0 of the latch is false.
pub(crate) fn low_proof<'a>(
    alloc: Global,
    system: &'a System,
    level: u32,
    parents: Vec<Parent>,
) -> Result<Proved<'a>, AllocError>
    requires system { system.now ≡ latch }
    requires level { 0 < level }
    ensures { IfOk result (λ p. p.system ≡ system.now) }
{
    let clause = clause_of(alloc, 0)?;
    let part = clause_of(alloc, 0)?;
    Ok(Proved::new(system, clause, part, level, parents))
}

// The same over lemma 0, which says it too.
pub(crate) fn over_itself<'a>(
    alloc: Global,
    system: &'a System,
    level: u32,
) -> Result<Proved<'a>, AllocError>
    requires system { system.now ≡ latch }
    requires level { 0 < level }
    ensures { IfOk result (λ p. p.system ≡ system.now) }
{
    let parents = parents_of(alloc, 0)?;
    low_proof(alloc, system, level, parents)
}

// That bit 0 or bit 1 of the latch is false, at level 1.
pub(crate) fn either_proof<'a>(alloc: Global, system: &'a System) -> Result<Proved<'a>, AllocError>
    requires { system.now ≡ latch }
{
    let clause = either_clause(alloc)?;
    let part = either_clause(alloc)?;
    Ok(Proved::new(system, clause, part, 1, Vec::new(alloc)))
}

// That a level of the latch has no bad state.
pub(crate) fn clear<'a>(
    alloc: Global,
    system: &'a System,
    level: u32,
) -> Result<Clear<'a>, AllocError>
    requires { system.now ≡ latch }
    ensures { IfOk result (λ c. c.system ≡ system.now) }
{
    let parents = parents_of(alloc, 0)?;
    Ok(Clear::new(system, level, parents))
}

// That bit 2 of the register is false, at level 1.
pub(crate) fn high_proof<'a>(alloc: Global, system: &'a System) -> Result<Proved<'a>, AllocError>
    requires { system.now ≡ register }
    ensures { IfOk result (λ p. p.system ≡ system.now) }
{
    let clause = clause_of(alloc, 2)?;
    let part = clause_of(alloc, 2)?;
    Ok(Proved::new(system, clause, part, 1, Vec::new(alloc)))
}

// That a level of the register has no bad state where bit 2 is false.
pub(crate) fn high_clear<'a>(
    alloc: Global,
    system: &'a System,
    level: u32,
) -> Result<Clear<'a>, AllocError>
    requires { system.now ≡ register }
    ensures { IfOk result (λ c. c.system ≡ system.now) }
{
    let parents = parents_of(alloc, 2)?;
    Ok(Clear::new(system, level, parents))
}

fn found<'a>(
    alloc: Global,
    system: &'a System,
    values: &[bool],
    is_step: bool,
    first: bool,
) -> Result<StateWitness<'a>, AllocError>
    requires { IsFound record { system = system.now; values = values.now; is_step = is_step; first = first } }
    ensures { IfOk result (λ f. f ≡ record { system = system.now; values = values.now; is_step = is_step; first = first }) }
{
    let values = Bits::from_slice(alloc, values)?;
    Ok(StateWitness::new(system, values, is_step, first))
}

// The bad state with all bits true.
pub(crate) fn last_state<'a>(
    alloc: Global,
    system: &'a System,
) -> Result<StateWitness<'a>, AllocError>
    requires { system.now ≡ register }
    ensures { IfOk result (λ f. f ≡ record { system = register; values = last_values; is_step = false; first = false }) }
{
    let state = found(
        alloc,
        system,
        &[true, true, true, false, false, false],
        false,
        false,
    )?;
    Ok(state)
}

// The same of the latch.
pub(crate) fn latch_last<'a>(
    alloc: Global,
    system: &'a System,
) -> Result<StateWitness<'a>, AllocError>
    requires { system.now ≡ latch }
    ensures { IfOk result (λ f. f.system ≡ system.now) }
{
    let state = found(
        alloc,
        system,
        &[true, true, true, false, false, false],
        false,
        false,
    )?;
    Ok(state)
}

// A step to the bad state.
pub(crate) fn middle_state<'a>(
    alloc: Global,
    system: &'a System,
) -> Result<StateWitness<'a>, AllocError>
    requires { system.now ≡ register }
    ensures { IfOk result (λ f. f ≡ record { system = register; values = middle_values; is_step = true; first = false }) }
{
    let state = found(
        alloc,
        system,
        &[true, true, false, true, true, true],
        true,
        false,
    )?;
    Ok(state)
}

// A step from an initial state to the state that this one leads from.
pub(crate) fn first_state<'a>(
    alloc: Global,
    system: &'a System,
) -> Result<StateWitness<'a>, AllocError>
    requires { system.now ≡ register }
    ensures { IfOk result (λ f. f ≡ record { system = register; values = first_values; is_step = true; first = true }) }
{
    let state = found(
        alloc,
        system,
        &[true, false, false, true, true, false],
        true,
        true,
    )?;
    Ok(state)
}

fn step_of<'a>(alloc: Global, system: &'a System, values: &[bool]) -> Result<Step<'a>, AllocError>
    requires { IsStep record { system = system.now; values = values.now } }
    ensures { IfOk result (λ s. s.system ≡ system.now) }
{
    let values = Bits::from_slice(alloc, values)?;
    Ok(Step::new(system, values))
}

// A step after which bit 2 of the register is true.
pub(crate) fn high_step<'a>(alloc: Global, system: &'a System) -> Result<Step<'a>, AllocError>
    requires { system.now ≡ register }
    ensures { IfOk result (λ s. s.system ≡ system.now) }
{
    let step = step_of(alloc, system, &[true, true, false, true, true, true])?;
    Ok(step)
}

pub(crate) fn is_same_clause(a: &[Lit], b: &[Lit]) -> bool
    ensures { IsTrue result → a.now ≡ b.now }
{
    a == b
}

// The verdict of the only system.
pub(crate) fn verdict(frames: &Frames) -> Option<FramesVerdict> {
    if frames.systems().is_empty() {
        return None;
    }
    frames.verdict(0)
}

// Whether the run has these rows.
fn has_rows(run: &BitRun, rows: &[[bool; 6]]) -> bool {
    if run.len() != rows.len() {
        return false;
    }
    for k in 0..rows.len() {
        if run.row(k).as_slice() != rows[k].as_slice() {
            return false;
        }
    }
    true
}

fn is_expected(run: &BitRun) -> bool {
    let rows = [
        [true, false, false, true, true, false],
        [true, true, false, true, true, true],
        [true, true, true, false, false, false],
    ];
    has_rows(run, &rows)
}

// Whether the run from that state is the one that is worked by hand.
pub(crate) fn has_the_run(alloc: Global, frames: &Frames) -> Result<bool, AllocError> {
    if frames.systems().is_empty() {
        return Ok(false);
    }
    let Some(FramesVerdict::Reached(n)) = frames.verdict(0) else {
        return Ok(false);
    };
    let run = frames.run_of(alloc, n)?;
    let answer = is_expected(&run);
    drop(run);
    Ok(answer)
}
