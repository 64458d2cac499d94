//! Clauses that are spelled in letters: a small letter stands for a variable, a capital one for its negation, and a dot
//! ends a clause. The letter `a` is the variable of number `first`.

use clause_core::{Clauses, Lit};
use std::alloc::{AllocError, Global};

/// The literal of a letter.
pub fn literal(letter: u8, first: u8) -> Lit {
    Lit::new(
        (usize::from(letter) + usize::from(first) + 31) % 32,
        letter >= b'a',
    )
}

/// The literals of letters.
pub fn literals(alloc: Global, text: &[u8], first: u8) -> Result<Vec<Lit>, AllocError> {
    let mut list = Vec::new(alloc);
    for letter in text {
        list.push(literal(*letter, first))?;
    }
    Ok(list)
}

// Adds the clauses; `clause` is the one that is open.
fn add_to(
    list: &mut Clauses,
    clause: &mut Vec<Lit>,
    text: &[u8],
    first: u8,
) -> Result<(), AllocError> {
    for letter in text {
        if *letter == b'.' {
            list.push(clause)?;
            clause.clear();
        } else {
            clause.push(literal(*letter, first))?;
        }
    }
    Ok(())
}

fn add(alloc: Global, list: &mut Clauses, text: &[u8], first: u8) -> Result<(), AllocError> {
    let mut clause = Vec::new(alloc);
    let added = add_to(list, &mut clause, text, first);
    drop(clause);
    added
}

/// The clauses of letters.
pub fn clauses_of(alloc: Global, text: &[u8], first: u8) -> Result<Clauses, AllocError> {
    let mut list = Clauses::new(alloc);
    match add(alloc, &mut list, text, first) {
        Ok(()) => Ok(list),
        Err(error) => {
            drop(list);
            Err(error)
        }
    }
}
