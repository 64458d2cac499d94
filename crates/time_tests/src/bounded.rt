//! Tests of operators with bounds: their truth on a word, and how far they look back.

use crate::tables::{has_truths, rooted};
use ltl_meaning::formula::Formula;
use ltl_meaning::node::{BoundedOperator, FormulaNode, Window};
use ltl_meaning::temporal_equivalences::unfoldings;
use ltl_meaning::word::{AtomSet, Word};
use sqlite_items::Items;
use std::alloc::{AllocError, Global};
use std::test::Fail;

// Whether the atom is true at each time; the last time is followed by the third.
const TIMES: [bool; 6] = [false, true, true, false, true, true];

fn atoms(alloc: Global, is_true: bool) -> Result<AtomSet, AllocError> {
    Ok(AtomSet::new([is_true].to_vec(alloc)?))
}

fn push_times(alloc: Global, times: &mut Items<AtomSet>) -> Result<(), AllocError> {
    for is_true in &TIMES {
        let atoms = atoms(alloc, *is_true)?;
        times.push(atoms)?;
    }
    Ok(())
}

fn times(alloc: Global) -> Result<Items<AtomSet>, AllocError> {
    let mut times = Items::new(alloc);
    match push_times(alloc, &mut times) {
        Ok(()) => Ok(times),
        Err(error) => {
            drop(times);
            Err(error)
        }
    }
}

fn word(alloc: Global) -> Result<Word, AllocError> {
    let times = times(alloc)?;
    if times.len() > 2 {
        Ok(Word { times, start: 2 })
    } else {
        drop(times);
        Err(AllocError)
    }
}

// An operator with bounds over the atom.
fn formula(
    alloc: Global,
    operator: BoundedOperator,
    low: u8,
    high: u8,
) -> Result<Formula, AllocError> {
    if high < low {
        return Err(AllocError);
    }
    let window = Window { low, high };
    let root = FormulaNode::bounded(alloc, operator, window, FormulaNode::Atom(0))?;
    rooted(root)
}

// An operator with its bounds, and its truth over the atom at the times from 0 on.
struct Truths(BoundedOperator, u8, u8, &'static [u8]);

const TRUTHS: [Truths; 24] = [
    Truths(BoundedOperator::Finally, 0, 0, b"011011101110"),
    Truths(BoundedOperator::Finally, 3, 3, b"011101110111"),
    Truths(BoundedOperator::Finally, 0, 1, b"111111111111"),
    Truths(BoundedOperator::Finally, 1, 2, b"111111111111"),
    Truths(BoundedOperator::Finally, 2, 5, b"111111111111"),
    Truths(BoundedOperator::Finally, 0, 255, b"111111111111"),
    Truths(BoundedOperator::Globally, 0, 0, b"011011101110"),
    Truths(BoundedOperator::Globally, 3, 3, b"011101110111"),
    Truths(BoundedOperator::Globally, 0, 1, b"010011001100"),
    Truths(BoundedOperator::Globally, 1, 2, b"100110011001"),
    Truths(BoundedOperator::Globally, 2, 5, b"000000000000"),
    Truths(BoundedOperator::Globally, 4, 5, b"110011001100"),
    Truths(BoundedOperator::Once, 0, 0, b"011011101110"),
    Truths(BoundedOperator::Once, 3, 3, b"000011011101"),
    Truths(BoundedOperator::Once, 0, 1, b"011111111111"),
    Truths(BoundedOperator::Once, 1, 2, b"001111111111"),
    Truths(BoundedOperator::Once, 2, 5, b"000111111111"),
    Truths(BoundedOperator::Once, 0, 255, b"011111111111"),
    Truths(BoundedOperator::Historically, 0, 0, b"011011101110"),
    Truths(BoundedOperator::Historically, 3, 3, b"111011011101"),
    Truths(BoundedOperator::Historically, 0, 1, b"001001100110"),
    Truths(BoundedOperator::Historically, 1, 2, b"100100110011"),
    Truths(BoundedOperator::Historically, 2, 5, b"110000000000"),
    Truths(BoundedOperator::Historically, 4, 5, b"111100100110"),
];

fn is_true(alloc: Global, word: &Word, row: &Truths) -> Result<bool, AllocError> {
    let formula = formula(alloc, row.0, row.1, row.2)?;
    let answer = has_truths(alloc, &formula, word, row.3);
    drop(formula);
    answer
}

fn wrong_on(alloc: Global, word: &Word) -> Result<Option<usize>, AllocError> {
    for (k, row) in TRUTHS.iter().enumerate() {
        if !is_true(alloc, word, row)? {
            return Ok(Some(k));
        }
    }
    Ok(None)
}

fn wrong_truth(alloc: Global) -> Result<Option<usize>, AllocError> {
    let word = word(alloc)?;
    let wrong = wrong_on(alloc, &word);
    drop(word);
    wrong
}

#[test]
fn truths_within_bounds(rt: HostRuntime) -> Result<(), Fail> {
    unfoldings();
    assert_eq!(rt; wrong_truth(rt.alloc())?, None);
    Ok(())
}

// An operator with its bounds, and how deep past operators nest in it.
struct Height(BoundedOperator, u8, u8, u32);

const HEIGHTS: [Height; 4] = [
    Height(BoundedOperator::Finally, 2, 9, 0),
    Height(BoundedOperator::Globally, 0, 255, 0),
    Height(BoundedOperator::Once, 2, 9, 9),
    Height(BoundedOperator::Historically, 0, 255, 255),
];

fn has_height(alloc: Global, row: &Height) -> Result<bool, AllocError> {
    let formula = formula(alloc, row.0, row.1, row.2)?;
    let height = formula.past_height();
    drop(formula);
    Ok(height == row.3)
}

fn wrong_height(alloc: Global) -> Result<Option<usize>, AllocError> {
    for (k, row) in HEIGHTS.iter().enumerate() {
        if !has_height(alloc, row)? {
            return Ok(Some(k));
        }
    }
    Ok(None)
}

#[test]
fn bounds_look_back(rt: HostRuntime) -> Result<(), Fail> {
    assert_eq!(rt; wrong_height(rt.alloc())?, None);
    Ok(())
}
