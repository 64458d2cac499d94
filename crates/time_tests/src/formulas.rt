//! Tests of how deep past operators nest in a formula, and of the atoms of a word.

use crate::tables::{chain, formula};
use ltl_meaning::node::BinaryOperator;
use ltl_meaning::temporal_equivalences::{dualities, excluded_middle, expansions};
use ltl_meaning::word::{AtomSet, Word};
use sqlite_items::Items;
use std::alloc::{AllocError, Global};
use std::test::Fail;

// A formula in letters, and how deep past operators nest in it.
struct Height(&'static [u8], u32);

const HEIGHTS: [Height; 8] = [
    Height(b"1", 0),
    Height(b"aYZOH", 4),
    Height(b"a!XFG", 0),
    Height(b"a!XFGaYZ>", 2),
    Height(b"abSY", 2),
    Height(b"aYbT", 2),
    Height(b"aYbU", 1),
    Height(b"aYbO&", 1),
];

fn has_height(alloc: Global, row: &Height) -> Result<bool, AllocError> {
    let formula = formula(alloc, row.0)?;
    let height = formula.past_height();
    drop(formula);
    Ok(height == row.1)
}

fn wrong_height(alloc: Global) -> Result<Option<usize>, AllocError> {
    for (k, row) in HEIGHTS.iter().enumerate() {
        if !has_height(alloc, row)? {
            return Ok(Some(k));
        }
    }
    Ok(None)
}

// An operator, the first operand of a chain of 100000 links of it, and the chain's height. Read to the left, each
// link of `S` or `T` is one level more.
struct ChainHeight(BinaryOperator, &'static [u8], u32);

const CHAINS: [ChainHeight; 8] = [
    ChainHeight(BinaryOperator::And, b"a", 0),
    ChainHeight(BinaryOperator::And, b"aYZOH", 4),
    ChainHeight(BinaryOperator::Until, b"a", 0),
    ChainHeight(BinaryOperator::Until, b"aYZOH", 4),
    ChainHeight(BinaryOperator::Since, b"a", 100000),
    ChainHeight(BinaryOperator::Since, b"aYZOH", 100004),
    ChainHeight(BinaryOperator::Triggered, b"a", 100000),
    ChainHeight(BinaryOperator::Triggered, b"aYZOH", 100004),
];

fn has_chain_height(alloc: Global, row: &ChainHeight) -> Result<bool, AllocError> {
    let formula = chain(alloc, row.1, row.0, 100000)?;
    let height = formula.past_height();
    drop(formula);
    Ok(height == row.2)
}

fn wrong_chain(alloc: Global) -> Result<Option<usize>, AllocError> {
    for (k, row) in CHAINS.iter().enumerate() {
        if !has_chain_height(alloc, row)? {
            return Ok(Some(k));
        }
    }
    Ok(None)
}

#[test]
fn past_heights(rt: HostRuntime) -> Result<(), Fail> {
    assert_eq!(rt; wrong_height(rt.alloc())?, None);
    Ok(())
}

#[test]
fn past_heights_of_chains(rt: HostRuntime) -> Result<(), Fail> {
    assert_eq!(rt; wrong_chain(rt.alloc())?, None);
    Ok(())
}

// An atom, a time, and whether the atom is true then on the times `{0} {} {1}`, of which the last two come again.
struct Holds(usize, usize, bool);

const HOLDS: [Holds; 10] = [
    Holds(0, 0, true),
    Holds(0, 1, false),
    Holds(0, 3, false),
    Holds(1, 0, false),
    Holds(1, 1, false),
    Holds(1, 2, true),
    Holds(1, 3, false),
    Holds(1, 1000000, true),
    Holds(1, 1000001, false),
    Holds(2, 2, false),
];

fn atoms(alloc: Global, truths: &[bool]) -> Result<AtomSet, AllocError> {
    Ok(AtomSet::new(truths.to_vec(alloc)?))
}

fn push(alloc: Global, times: &mut Items<AtomSet>, truths: &[bool]) -> Result<(), AllocError> {
    let atoms = atoms(alloc, truths)?;
    times.push(atoms)
}

fn push_three(alloc: Global, times: &mut Items<AtomSet>) -> Result<(), AllocError> {
    push(alloc, times, &[true, false])?;
    push(alloc, times, &[])?;
    push(alloc, times, &[false, true])
}

fn times(alloc: Global) -> Result<Items<AtomSet>, AllocError> {
    let mut times = Items::new(alloc);
    match push_three(alloc, &mut times) {
        Ok(()) => Ok(times),
        Err(error) => {
            drop(times);
            Err(error)
        }
    }
}

fn word(alloc: Global) -> Result<Word, AllocError> {
    let times = times(alloc)?;
    if times.len() > 1 {
        Ok(Word { times, start: 1 })
    } else {
        drop(times);
        Err(AllocError)
    }
}

fn wrong_atom(word: &Word) -> Option<usize> {
    for (k, row) in HOLDS.iter().enumerate() {
        if word.holds(row.0, row.1) != row.2 {
            return Some(k);
        }
    }
    None
}

// Whether the period is 2 and each row is right.
fn is_right(alloc: Global) -> Result<bool, AllocError> {
    let word = word(alloc)?;
    let period = word.period();
    let wrong = wrong_atom(&word);
    drop(word);
    Ok(period == 2 && wrong.is_none())
}

#[test]
fn words(rt: HostRuntime) -> Result<(), Fail> {
    assert!(rt; is_right(rt.alloc())?);
    excluded_middle();
    dualities();
    expansions();
    Ok(())
}
