//! The hints that are kept, by the states that they are of.

use crate::explaining::{Marks, ask_for, clause_of, explain_before, explain_conditions, no_marks};
use crate::reducing::{reduce_conditions, reduce_step};
use clause_core::{Bits, Lit, System};
use std::alloc::{AllocError, Global};

// How many hints are kept.
const MOST: usize = 1024;

// A state, and the clause of some of its bits.
#[derive(Drop)]
struct Hint {
    state: Vec<bool>,
    clause: Vec<Lit>,
    // A mix of the numbers of the bits that are true in the state. States with other mixes differ.
    key: u64,
}

// What a true bit of this number adds to a state's key.
fn key_of_bit(b: usize) -> u64 {
    let spread = (b as u64)
        .wrapping_add(1)
        .wrapping_mul(11_400_714_819_323_198_485);
    (spread ^ (spread >> 29)).wrapping_mul(13_787_848_793_156_543_929)
}

// The key of a state.
fn key_of(state: &[bool]) -> u64 {
    let mut key: u64 = 0;
    for b in 0..state.len() {
        if state[b] {
            key ^= key_of_bit(b);
        }
    }
    key
}

// The key of the state that makes each literal false, where the clause has one literal for each bit.
fn key_outside(clause: &[Lit]) -> u64 {
    let mut key: u64 = 0;
    for l in clause {
        if !l.positive {
            key ^= key_of_bit(l.var);
        }
    }
    key
}

// Whether each literal of the clause is false in the state.
fn is_outside(state: &[bool], clause: &[Lit]) -> bool {
    'literals: for l in clause {
        match state.get(l.var) {
            Some(value) => {
                if *value == l.positive {
                    return false;
                }
            }
            None => return false,
        }
    }
    true
}

// Whether the clause, of this key, says that a state is another than that of the hint.
fn is_of(hint: &Hint, key: u64, clause: &[Lit]) -> bool {
    hint.key == key && clause.len() == hint.state.len() && is_outside(&hint.state, clause)
}

// The place of the last hint for the clause.
fn place_of(hints: &[Hint], clause: &[Lit]) -> Option<usize> {
    let key = key_outside(clause);
    'hints: for k in (0..hints.len()).rev() {
        if is_of(&hints[k], key, clause) {
            return Some(k);
        }
    }
    None
}

// The hint for the clause; no literal, where there is none.
fn hint_for(alloc: Global, hints: &[Hint], clause: &[Lit]) -> Result<Vec<Lit>, AllocError> {
    match place_of(hints, clause) {
        Some(k) => match hints.get(k) {
            Some(hint) => Vec::from_slice(alloc, &hint.clause),
            None => Ok(Vec::new(alloc)),
        },
        None => Ok(Vec::new(alloc)),
    }
}

// Adds the hint; where there is no room for one more, the oldest goes.
fn keep(hints: &mut Vec<Hint>, hint: Hint) -> Result<(), AllocError> {
    if hints.len() >= MOST {
        let _ = hints.remove(0);
    }
    hints.push(hint)?;
    Ok(())
}

// The hint for the state of the first values, of the marked bits.
fn hint_of(alloc: Global, values: &[bool], bits: usize, marks: &Marks) -> Result<Hint, AllocError> {
    let clause = clause_of(alloc, values, bits, marks)?;
    let mut state = Vec::from_slice(alloc, values)?;
    state.truncate(bits);
    let key = key_of(&state);
    Ok(Hint { state, clause, key })
}

// Asks for the next bits of the clause.
fn ask_for_next(bits: usize, clause: &[Lit], marks: &mut Marks) {
    'literals: for l in clause {
        ask_for(marks, bits.saturating_add(l.var));
    }
}

// Keeps which bits of a step's first state lead out of the clause, or out of the hint for it.
fn keep_step(
    alloc: Global,
    hints: &mut Vec<Hint>,
    system: &System,
    clause: &[Lit],
    values: &Bits,
) -> Result<(), AllocError> {
    let bits = system.state_bits();
    let values = values.as_slice();
    let hint = hint_for(alloc, hints, clause)?;
    let goal = if hint.is_empty() { clause } else { &hint };
    let mut marks = no_marks(alloc, values.len())?;
    ask_for_next(bits, goal, &mut marks);
    let clauses = system.step();
    explain_before(values, bits, clauses, clauses.len(), &mut marks);
    reduce_step(alloc, values, bits, clauses, goal, &mut marks)?;
    keep(hints, hint_of(alloc, values, bits, &marks)?)
}

// Keeps which bits of the state make it bad.
fn keep_bad(
    alloc: Global,
    hints: &mut Vec<Hint>,
    system: &System,
    values: &Bits,
) -> Result<(), AllocError> {
    let bits = system.state_bits();
    let values = values.as_slice();
    let mut marks = no_marks(alloc, values.len())?;
    let clauses = system.bad();
    explain_conditions(values, bits, clauses, &mut marks);
    reduce_conditions(alloc, values, bits, clauses, &mut marks)?;
    keep(hints, hint_of(alloc, values, bits, &marks)?)
}

/// Hints of states that were found: at most 1024, the latest ones.
#[derive(Drop)]
pub struct Hints {
    // The last one stands at the end.
    kept: Vec<Hint>,
}

impl Hints {
    /// There is no hint yet.
    pub fn new(alloc: Global) -> Hints {
        Hints {
            kept: Vec::new(alloc),
        }
    }

    /// The hint for a clause that says that a state is another than one: a clause of some of its literals, or of none
    /// where there is no hint. It costs a look at each hint; the error is out of memory.
    pub fn clause_for(&self, alloc: Global, clause: &[Lit]) -> Result<Vec<Lit>, AllocError> {
        hint_for(alloc, &self.kept, clause)
    }

    /// A step with these values leads out of the clause, which says that a state is another than one. Keeps a hint for
    /// the state that the step leaves: of its bits those that lead, by the step's inputs, to the hint for the clause, or
    /// to the clause's state where there is none. Where memory runs out there may be no hint.
    ///
    /// It costs two walks over the clauses of the step, and what the bits that are tried lead to.
    pub fn note_step(&mut self, alloc: Global, system: &System, clause: &[Lit], values: &Bits) {
        let _kept = keep_step(alloc, &mut self.kept, system, clause, values);
    }

    /// The state of these values is bad. Keeps a hint for it: of its bits those that make it bad. Where memory runs out
    /// there may be no hint. It costs the same over the clauses of bad states.
    pub fn note_bad(&mut self, alloc: Global, system: &System, values: &Bits) {
        let _kept = keep_bad(alloc, &mut self.kept, system, values);
    }
}
