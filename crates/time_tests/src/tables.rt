//! Tests of tables of truth: formulas on words of a few times, times far away, and long chains.

use ltl_meaning::formula::Formula;
use ltl_meaning::node::{BinaryOperator, FormulaNode, Link, UnaryOperator};
use ltl_meaning::word::{AtomSet, Word};
use ltl_table::table::Table;
use sqlite_items::Items;
use std::alloc::{AllocError, Global};
use std::test::Fail;

// The operators are single letters here, behind their operands: `ab&X` is `X (a & b)`.

fn unary_of(letter: u8) -> Option<UnaryOperator> {
    match letter {
        b'!' => Some(UnaryOperator::Not),
        b'X' => Some(UnaryOperator::Next),
        b'F' => Some(UnaryOperator::Finally),
        b'G' => Some(UnaryOperator::Globally),
        b'Y' => Some(UnaryOperator::Yesterday),
        b'Z' => Some(UnaryOperator::WeakYesterday),
        b'O' => Some(UnaryOperator::Once),
        b'H' => Some(UnaryOperator::Historically),
        _ => None,
    }
}

fn binary_of(letter: u8) -> Option<BinaryOperator> {
    match letter {
        b'&' => Some(BinaryOperator::And),
        b'|' => Some(BinaryOperator::Or),
        b'^' => Some(BinaryOperator::Xor),
        b'=' => Some(BinaryOperator::Xnor),
        b'-' => Some(BinaryOperator::Iff),
        b'U' => Some(BinaryOperator::Until),
        b'V' => Some(BinaryOperator::Releases),
        b'S' => Some(BinaryOperator::Since),
        b'T' => Some(BinaryOperator::Triggered),
        _ => None,
    }
}

fn leaf_of(letter: u8) -> Option<FormulaNode> {
    match letter {
        b'0' => Some(FormulaNode::Constant(false)),
        b'1' => Some(FormulaNode::Constant(true)),
        b'a' => Some(FormulaNode::Atom(0)),
        b'b' => Some(FormulaNode::Atom(1)),
        _ => None,
    }
}

fn last(open: &mut Vec<FormulaNode>) -> Result<FormulaNode, AllocError> {
    match open.pop() {
        Some(node) => Ok(node),
        None => Err(AllocError),
    }
}

fn push(open: &mut Vec<FormulaNode>, node: FormulaNode) -> Result<(), AllocError> {
    open.push(node)?;
    Ok(())
}

// Puts an operator above the last node.
fn put_above(
    alloc: Global,
    operator: UnaryOperator,
    open: &mut Vec<FormulaNode>,
) -> Result<(), AllocError> {
    let operand = last(open)?;
    let node = FormulaNode::unary(alloc, operator, operand)?;
    push(open, node)
}

// Makes an implication of the last two nodes.
fn imply(alloc: Global, open: &mut Vec<FormulaNode>) -> Result<(), AllocError> {
    let right = last(open)?;
    match last(open) {
        Ok(left) => {
            let node = FormulaNode::implies(alloc, left, right)?;
            push(open, node)
        }
        Err(error) => {
            drop(right);
            Err(error)
        }
    }
}

fn linked(alloc: Global, link: Link<FormulaNode>) -> Result<Items<Link<FormulaNode>>, AllocError> {
    let mut links = Items::new(alloc);
    match links.push(link) {
        Ok(()) => Ok(links),
        Err(error) => {
            drop(links);
            Err(error)
        }
    }
}

// The last node as the one link of a chain.
fn one_link(
    alloc: Global,
    operator: BinaryOperator,
    open: &mut Vec<FormulaNode>,
) -> Result<Items<Link<FormulaNode>>, AllocError> {
    let operand = last(open)?;
    linked(alloc, Link { operator, operand })
}

// Makes a chain of one link of the last two nodes.
fn join(
    alloc: Global,
    operator: BinaryOperator,
    open: &mut Vec<FormulaNode>,
) -> Result<(), AllocError> {
    let links = one_link(alloc, operator, open)?;
    match last(open) {
        Ok(left) => {
            let node = FormulaNode::chain(alloc, left, links)?;
            push(open, node)
        }
        Err(error) => {
            drop(links);
            Err(error)
        }
    }
}

fn put_operator(alloc: Global, letter: u8, open: &mut Vec<FormulaNode>) -> Result<(), AllocError> {
    if letter == b'>' {
        return imply(alloc, open);
    }
    if let Some(operator) = unary_of(letter) {
        return put_above(alloc, operator, open);
    }
    if let Some(operator) = binary_of(letter) {
        return join(alloc, operator, open);
    }
    Err(AllocError)
}

fn put(alloc: Global, letter: u8, open: &mut Vec<FormulaNode>) -> Result<(), AllocError> {
    match leaf_of(letter) {
        Some(leaf) => push(open, leaf),
        None => put_operator(alloc, letter, open),
    }
}

fn put_all(alloc: Global, text: &[u8], open: &mut Vec<FormulaNode>) -> Result<(), AllocError> {
    for letter in text {
        put(alloc, *letter, open)?;
    }
    Ok(())
}

fn last_of(
    alloc: Global,
    text: &[u8],
    open: &mut Vec<FormulaNode>,
) -> Result<FormulaNode, AllocError> {
    put_all(alloc, text, open)?;
    last(open)
}

/// The node that letters spell; letters that spell none are answered as if memory had run out.
pub fn node(alloc: Global, text: &[u8]) -> Result<FormulaNode, AllocError> {
    let mut open = Vec::new(alloc);
    let node = last_of(alloc, text, &mut open);
    drop(open);
    node
}

/// The formula of a node that is not too deep.
pub fn rooted(root: FormulaNode) -> Result<Formula, AllocError> {
    match Formula::new(root) {
        Some(formula) => Ok(formula),
        None => Err(AllocError),
    }
}

/// The formula that letters spell.
pub fn formula(alloc: Global, text: &[u8]) -> Result<Formula, AllocError> {
    let root = node(alloc, text)?;
    rooted(root)
}

fn atoms(alloc: Global, letters: &[u8]) -> Result<AtomSet, AllocError> {
    let truths = [letters.contains(&b'a'), letters.contains(&b'b')];
    Ok(AtomSet::new(truths.to_vec(alloc)?))
}

fn push_times(
    alloc: Global,
    letters: &[&[u8]],
    times: &mut Items<AtomSet>,
) -> Result<(), AllocError> {
    for at in letters {
        let atoms = atoms(alloc, at)?;
        times.push(atoms)?;
    }
    Ok(())
}

fn times(alloc: Global, letters: &[&[u8]]) -> Result<Items<AtomSet>, AllocError> {
    let mut times = Items::new(alloc);
    match push_times(alloc, letters, &mut times) {
        Ok(()) => Ok(times),
        Err(error) => {
            drop(times);
            Err(error)
        }
    }
}

// A word of the atoms `a` and `b`, from the letters at each time.
fn word(alloc: Global, letters: &[&[u8]], start: usize) -> Result<Word, AllocError> {
    let times = times(alloc, letters)?;
    if start < times.len() {
        Ok(Word { times, start })
    } else {
        drop(times);
        Err(AllocError)
    }
}

/// Whether the truths at the first times are these.
pub fn begins(table: &Table, want: &[u8]) -> bool {
    for time in 0..want.len() {
        if table.value(time) != (want[time] == b'1') {
            return false;
        }
    }
    true
}

/// Whether the formula begins with these truths on the word.
pub fn has_truths(
    alloc: Global,
    formula: &Formula,
    word: &Word,
    want: &[u8],
) -> Result<bool, AllocError> {
    let table = Table::make(alloc, formula, word)?;
    let answer = begins(&table, want);
    drop(table);
    Ok(answer)
}

// A formula, and its truth at the times from 0 on.
struct Row(&'static [u8], &'static [u8]);

fn is_right(alloc: Global, word: &Word, row: &Row) -> Result<bool, AllocError> {
    let formula = formula(alloc, row.0)?;
    let answer = has_truths(alloc, &formula, word, row.1);
    drop(formula);
    answer
}

// The times `{a, b} {a} {b}` for ever.
const THREE: [Row; 20] = [
    Row(b"a", b"11011011"),
    Row(b"b", b"10110110"),
    Row(b"1", b"11111111"),
    Row(b"0", b"00000000"),
    Row(b"a!", b"00100100"),
    Row(b"ab&", b"10010010"),
    Row(b"ab|", b"11111111"),
    Row(b"ab^", b"01101101"),
    Row(b"ab=", b"10010010"),
    Row(b"ab>", b"10110110"),
    Row(b"ab-", b"10010010"),
    Row(b"aX", b"10110110"),
    Row(b"aF", b"11111111"),
    Row(b"aG", b"00000000"),
    Row(b"ab|G", b"11111111"),
    Row(b"ab&F", b"11111111"),
    Row(b"abU", b"11111111"),
    Row(b"abV", b"10110110"),
    Row(b"ab&aY&", b"00000000"),
    Row(b"ab&bY&", b"00010010"),
];

// The time `{a}` once, and then `{b}` for ever.
const ONCE: [Row; 24] = [
    Row(b"aF", b"10000000"),
    Row(b"bF", b"11111111"),
    Row(b"bG", b"01111111"),
    Row(b"aG", b"00000000"),
    Row(b"abU", b"11111111"),
    Row(b"baU", b"10000000"),
    Row(b"a0U", b"00000000"),
    Row(b"baV", b"00000000"),
    Row(b"abV", b"01111111"),
    Row(b"0bV", b"01111111"),
    Row(b"aab|V", b"11111111"),
    Row(b"aY", b"01000000"),
    Row(b"aZ", b"11000000"),
    Row(b"bY", b"00111111"),
    Row(b"bZ", b"10111111"),
    Row(b"aO", b"11111111"),
    Row(b"bO", b"01111111"),
    Row(b"aH", b"10000000"),
    Row(b"bH", b"00000000"),
    Row(b"baS", b"11111111"),
    Row(b"abS", b"01111111"),
    Row(b"b0S", b"00000000"),
    Row(b"baT", b"10000000"),
    Row(b"abT", b"00000000"),
];

// The times `{}`, `{a, b}` and then `{b}` for ever.
const LATER: [Row; 6] = [
    Row(b"ab|", b"01111111"),
    Row(b"ab>", b"11111111"),
    Row(b"abT", b"01111111"),
    Row(b"abS", b"01111111"),
    Row(b"baS", b"01111111"),
    Row(b"bZH", b"10000000"),
];

// The times `{a} {b}` for ever: past operators tell the first pass from the others.
const TWO: [Row; 22] = [
    Row(b"aYY", b"00101010"),
    Row(b"aZZ", b"11101010"),
    Row(b"aYYY", b"00010101"),
    Row(b"aYYYF", b"11111111"),
    Row(b"aYYYG", b"00000000"),
    Row(b"bO", b"01111111"),
    Row(b"bOY", b"00111111"),
    Row(b"bOYF", b"11111111"),
    Row(b"bOYG", b"00111111"),
    Row(b"bOG", b"01111111"),
    Row(b"bOH", b"00000000"),
    Row(b"aOHO", b"11111111"),
    Row(b"bOYZ", b"10011111"),
    Row(b"bOYZG", b"00011111"),
    Row(b"bFY", b"01111111"),
    Row(b"bGY", b"00000000"),
    Row(b"bXH", b"10000000"),
    Row(b"bXHY", b"01000000"),
    Row(b"bXHYF", b"11000000"),
    Row(b"aYbS", b"01010101"),
    Row(b"bbX|H", b"11111111"),
    Row(b"aFYGO", b"01111111"),
];

// The times `{}` and then `{a} {}` for ever.
const ODD: [Row; 6] = [
    Row(b"a", b"01010101"),
    Row(b"aY", b"00101010"),
    Row(b"aaY&F", b"00000000"),
    Row(b"aaY|G", b"01111111"),
    Row(b"aaY|XG", b"11111111"),
    Row(b"aaYY&F", b"11111111"),
];

// The first row that is wrong on a word.
fn wrong_row(alloc: Global, word: &Word, rows: &[Row]) -> Result<Option<usize>, AllocError> {
    for (k, row) in rows.iter().enumerate() {
        if !is_right(alloc, word, row)? {
            return Ok(Some(k));
        }
    }
    Ok(None)
}

fn wrong_at(
    alloc: Global,
    letters: &[&[u8]],
    start: usize,
    rows: &[Row],
) -> Result<Option<usize>, AllocError> {
    let word = word(alloc, letters, start)?;
    let wrong = wrong_row(alloc, &word, rows);
    drop(word);
    wrong
}

#[test]
fn truths_of_three_times(rt: HostRuntime) -> Result<(), Fail> {
    assert_eq!(rt;
        wrong_at(rt.alloc(), &[b"ab", b"a", b"b"], 0, &THREE)?,
        None
    );
    Ok(())
}

#[test]
fn truths_of_a_time_once(rt: HostRuntime) -> Result<(), Fail> {
    assert_eq!(rt; wrong_at(rt.alloc(), &[b"a", b"b"], 1, &ONCE)?, None);
    Ok(())
}

#[test]
fn truths_of_a_later_time(rt: HostRuntime) -> Result<(), Fail> {
    assert_eq!(rt; wrong_at(rt.alloc(), &[b"", b"ab", b"b"], 2, &LATER)?, None);
    Ok(())
}

#[test]
fn truths_of_two_times(rt: HostRuntime) -> Result<(), Fail> {
    assert_eq!(rt; wrong_at(rt.alloc(), &[b"a", b"b"], 0, &TWO)?, None);
    Ok(())
}

#[test]
fn truths_of_odd_times(rt: HostRuntime) -> Result<(), Fail> {
    assert_eq!(rt; wrong_at(rt.alloc(), &[b"", b"a", b""], 1, &ODD)?, None);
    Ok(())
}

// A time, and the truth of `a` and of `X b` there on the times `{a, b} {a} {b}` for ever; 10^18 is
// 1 past a multiple of 3, and the last time is a multiple of 3.
struct Far(usize, bool, bool);

const FAR: [Far; 5] = [
    Far(1000000000000000000, true, true),
    Far(1000000000000000001, false, true),
    Far(1000000000000000002, true, false),
    Far(usize::MAX, true, false),
    Far(usize::MAX - 1, false, true),
];

fn wrong_atom(atom: &Table) -> Option<usize> {
    for (k, row) in FAR.iter().enumerate() {
        if atom.value(row.0) != row.1 {
            return Some(k);
        }
    }
    None
}

fn wrong_next(next: &Table) -> Option<usize> {
    for (k, row) in FAR.iter().enumerate() {
        if next.value(row.0) != row.2 {
            return Some(k);
        }
    }
    None
}

fn table_of(alloc: Global, word: &Word, text: &[u8]) -> Result<Table, AllocError> {
    let formula = formula(alloc, text)?;
    let table = Table::make(alloc, &formula, word);
    drop(formula);
    table
}

fn is_atom_right(alloc: Global, word: &Word) -> Result<bool, AllocError> {
    let table = table_of(alloc, word, b"a")?;
    let wrong = wrong_atom(&table);
    drop(table);
    Ok(wrong.is_none())
}

fn is_next_right(alloc: Global, word: &Word) -> Result<bool, AllocError> {
    let table = table_of(alloc, word, b"bX")?;
    let wrong = wrong_next(&table);
    drop(table);
    Ok(wrong.is_none())
}

fn three(alloc: Global) -> Result<Word, AllocError> {
    word(alloc, &[b"ab", b"a", b"b"], 0)
}

fn are_both_right(alloc: Global, word: &Word) -> Result<bool, AllocError> {
    Ok(is_atom_right(alloc, word)? && is_next_right(alloc, word)?)
}

fn are_far_times_right(alloc: Global) -> Result<bool, AllocError> {
    let word = three(alloc)?;
    let answer = are_both_right(alloc, &word);
    drop(word);
    answer
}

#[test]
fn far_times(rt: HostRuntime) -> Result<(), Fail> {
    assert!(rt; are_far_times_right(rt.alloc())?);
    Ok(())
}

fn push_links(
    links: &mut Items<Link<FormulaNode>>,
    operator: BinaryOperator,
    count: u32,
) -> Result<(), AllocError> {
    for _ in 0..count {
        links.push(Link {
            operator,
            operand: FormulaNode::Atom(1),
        })?;
    }
    Ok(())
}

// As many links of one operator, each to the atom `b`.
fn links(
    alloc: Global,
    operator: BinaryOperator,
    count: u32,
) -> Result<Items<Link<FormulaNode>>, AllocError> {
    let mut links = Items::new(alloc);
    match push_links(&mut links, operator, count) {
        Ok(()) => Ok(links),
        Err(error) => {
            drop(links);
            Err(error)
        }
    }
}

/// A chain of one operator over a first operand, in letters, and as many atoms `b`, read to the left.
pub fn chain(
    alloc: Global,
    first: &[u8],
    operator: BinaryOperator,
    count: u32,
) -> Result<Formula, AllocError> {
    let first = node(alloc, first)?;
    match links(alloc, operator, count) {
        Ok(links) => rooted(FormulaNode::chain(alloc, first, links)?),
        Err(error) => {
            drop(first);
            Err(error)
        }
    }
}

// A chain of so many links over `a`, and its truth at the times from 0 on.
struct Long(BinaryOperator, u32, &'static [u8]);

const LONG: [Long; 3] = [
    Long(BinaryOperator::And, 100000, b"10010010"),
    Long(BinaryOperator::Until, 100000, b"11111111"),
    Long(BinaryOperator::Since, 500, b"11111111"),
];

fn is_long_right(alloc: Global, word: &Word, row: &Long) -> Result<bool, AllocError> {
    let formula = chain(alloc, b"a", row.0, row.1)?;
    let answer = has_truths(alloc, &formula, word, row.2);
    drop(formula);
    answer
}

fn wrong_on(alloc: Global, word: &Word) -> Result<Option<usize>, AllocError> {
    for (k, row) in LONG.iter().enumerate() {
        if !is_long_right(alloc, word, row)? {
            return Ok(Some(k));
        }
    }
    Ok(None)
}

fn wrong_long(alloc: Global) -> Result<Option<usize>, AllocError> {
    let word = three(alloc)?;
    let wrong = wrong_on(alloc, &word);
    drop(word);
    wrong
}

#[test]
fn long_chains(rt: HostRuntime) -> Result<(), Fail> {
    assert_eq!(rt; wrong_long(rt.alloc())?, None);
    Ok(())
}
