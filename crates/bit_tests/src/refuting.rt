//! Unit propagation by plain passes over all clauses, for tests.

use clause_core::{Clauses, Lit, Scan, is_within, scan_clause, set};
use std::alloc::{AllocError, Global};

// What one pass over the clauses finds.
#[derive(Clone, Copy, PartialEq, Eq)]
enum Pass {
    Conflict,
    More,
    Nothing,
}

fn take(values: &mut Vec<u8>, l: Lit) -> Pass {
    if l.var < values.len() {
        set(values, l);
        Pass::More
    } else {
        Pass::Nothing
    }
}

fn look(values: &mut Vec<u8>, clause: &[Lit]) -> Pass {
    if !is_within(clause, values.len()) {
        return Pass::Nothing;
    }
    match scan_clause(values, clause) {
        Scan::False => Pass::Conflict,
        Scan::UnitOn(l) => take(values, l),
        Scan::Rest => Pass::Nothing,
    }
}

fn look_at_all(values: &mut Vec<u8>, clauses: &Clauses) -> Pass {
    let mut found = Pass::Nothing;
    for k in 0..clauses.len() {
        match look(values, clauses.get(k)) {
            Pass::Conflict => return Pass::Conflict,
            Pass::More => found = Pass::More,
            Pass::Nothing => {}
        }
    }
    found
}

// The values of so many variables, of which the first are these and the others unset.
fn values_from(alloc: Global, vars: usize, bits: &[bool]) -> Result<Vec<u8>, AllocError> {
    let mut values = Vec::new(alloc);
    for bit in bits {
        values.push(if *bit { 1 } else { 2 })?;
    }
    for _ in bits.len()..vars {
        values.push(0)?;
    }
    Ok(values)
}

// Whether unit propagation from these values of the first variables meets a conflict.
pub fn is_refuted(
    alloc: Global,
    clauses: &Clauses,
    vars: usize,
    bits: &[bool],
) -> Result<bool, AllocError> {
    let mut values = values_from(alloc, vars, bits)?;
    for _ in 0..vars {
        match look_at_all(&mut values, clauses) {
            Pass::Conflict => return Ok(true),
            Pass::More => {}
            Pass::Nothing => return Ok(false),
        }
    }
    Ok(false)
}

// The values of the literals after unit propagation from these values of the first variables: `T`, `F` or `-`.
pub fn set_by(
    alloc: Global,
    clauses: &Clauses,
    vars: usize,
    bits: &[bool],
    literals: &[Lit],
) -> Result<Vec<u8>, AllocError> {
    let mut values = values_from(alloc, vars, bits)?;
    for _ in 0..vars {
        look_at_all(&mut values, clauses);
    }
    let mut found = Vec::new(alloc);
    for l in literals {
        found.push(match values.get(l.var) {
            Some(1) => if l.positive { b'T' } else { b'F' },
            Some(2) => if l.positive { b'F' } else { b'T' },
            _ => b'-',
        })?;
    }
    Ok(found)
}
