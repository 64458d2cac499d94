//! Computes the column of a formula, its truth at each time, from those of its operands.

ghost use Rattle.std.specs.Prelude.{◌≡◌, ◌+◌, ◌-◌, ◌*◌, ◌<◌, ◌≤◌, ℕ, length, IfOk, IsTrue, vec_len};
ghost use Rattle.ltl_meaning.specs.Ltl.{Ltl, past_height};
ghost use Rattle.ltl_meaning.specs.Temporal.{formula_of};
ghost use Rattle.ltl_meaning.specs.Unfolded.{delay, repeated, unfolded, widen};
ghost use Rattle.ltl_meaning.specs.Truth.{Satisfies};
ghost use Rattle.ltl_meaning.specs.Lasso.{on, period};
ghost use Rattle.ltl_table.specs.Columns.{at, Tells, unary_value, binary_value};

use crate::constant::constant;
use crate::operators::{binary, unary};
use ltl_meaning::node::{BinaryOperator, BoundedOperator, FormulaNode, UnaryOperator, Window};
use ltl_meaning::word::Word;
use std::alloc::{AllocError, Global};

// When an atom is true, at the first `n` times.
fn atom(alloc: Global, word: &Word, n: usize, number: usize) -> Result<Vec<bool>, AllocError>
    ensures { IfOk result (λ c. Tells c.items n (on word.now number)) }
{
    let mut column = Vec::new(alloc);
    for i in 0..n {
        let value = word.holds(number, i);
        column.push(value)?;
    }
    Ok(column)
}

// The column of an operator that stands so many times over an operand, at the first `n` times, which end with one
// pass of the loop.
fn repeated(
    alloc: Global,
    word: &Word,
    passes: usize,
    start: usize,
    n: usize,
    operator: UnaryOperator,
    times: u8,
    operand: Vec<bool>,
) -> Result<Vec<bool>, AllocError>
    requires low { start ≡ word.now.start + passes * period word.now }
    requires high { n ≡ start + period word.now }
    requires full { vec_len operand ≡ n }
    ensures full { IfOk result (λ c. vec_len c ≡ n) }
    ensures told { IfOk result (λ c. (f : Ltl) → past_height (repeated operator times f) ≤ passes → Tells operand.items n (Satisfies (on word.now) f) → Tells c.items n (Satisfies (on word.now) (repeated operator times f))) }
{
    let mut column = operand;
    for _ in 0..times {
        let above = unary(alloc, operator, column.as_slice(), start)?;
        column = above;
    }
    Ok(column)
}

// The column of an operator with bounds over an operand, at the first `n` times, which end with one pass of the loop.
fn bounded(
    alloc: Global,
    word: &Word,
    passes: usize,
    start: usize,
    n: usize,
    operator: BoundedOperator,
    window: Window,
    operand: Vec<bool>,
) -> Result<Vec<bool>, AllocError>
    requires low { start ≡ word.now.start + passes * period word.now }
    requires high { n ≡ start + period word.now }
    requires full { vec_len operand ≡ n }
    ensures { IfOk result (λ c. (f : Ltl) → past_height (repeated (delay operator) window.low (repeated (widen operator) (window.high - window.low) f)) ≤ passes → Tells operand.items n (Satisfies (on word.now) f) → Tells c.items n (Satisfies (on word.now) (repeated (delay operator) window.low (repeated (widen operator) (window.high - window.low) f)))) }
{
    let times = window.high - window.low;
    let wide = repeated(
        alloc,
        word,
        passes,
        start,
        n,
        operator.widen(),
        times,
        operand,
    )?;
    let late = repeated(
        alloc,
        word,
        passes,
        start,
        n,
        operator.delay(),
        window.low,
        wide,
    )?;
    Ok(late)
}

// The column of an operator over its operand's.
fn over(
    alloc: Global,
    operator: UnaryOperator,
    operand: Vec<bool>,
    start: usize,
) -> Result<Vec<bool>, AllocError>
    requires { start < vec_len operand }
    ensures len { IfOk result (λ c. vec_len c ≡ vec_len operand) }
    ensures each { IfOk result (λ c. (t : ℕ) → t < length operand.items → at c.items t ≡ unary_value operator operand.items start t) }
{
    unary(alloc, operator, operand.as_slice(), start)
}

// The column of an operator over its operands'.
fn joined(
    alloc: Global,
    operator: BinaryOperator,
    left: Vec<bool>,
    right: Vec<bool>,
    start: usize,
) -> Result<Vec<bool>, AllocError>
    requires same_length { vec_len left ≡ vec_len right }
    requires within { start < vec_len right }
    ensures len { IfOk result (λ c. vec_len c ≡ vec_len right) }
    ensures each { IfOk result (λ c. (t : ℕ) → t < length right.items → at c.items t ≡ binary_value operator left.items right.items start t) }
{
    binary(alloc, operator, left.as_slice(), right.as_slice(), start)
}

// A node's truth at the first `n` times, which end with one pass of the loop, from `start` on, after
// `passes` others.
pub fn column(
    alloc: Global,
    word: &Word,
    passes: usize,
    start: usize,
    n: usize,
    node: &FormulaNode,
) -> Result<Vec<bool>, AllocError>
    requires deep { past_height (unfolded (formula_of node.now)) ≤ passes }
    requires low { start ≡ word.now.start + passes * period word.now }
    requires high { n ≡ start + period word.now }
    ensures { IfOk result (λ c. Tells c.items n (Satisfies (on word.now) (unfolded (formula_of node.now)))) }
{
    match node {
        FormulaNode::Constant(value) => constant(alloc, *value, n),
        FormulaNode::Atom(number) => atom(alloc, word, n, *number),
        FormulaNode::Unary(operator, operand) => {
            let of = column(alloc, word, passes, start, n, operand.get())?;
            let whole = over(alloc, *operator, of, start)?;
            Ok(whole)
        }
        FormulaNode::Bounded(operator, window, operand) => {
            let of = column(alloc, word, passes, start, n, operand.get())?;
            let whole = bounded(alloc, word, passes, start, n, *operator, *window, of)?;
            Ok(whole)
        }
        FormulaNode::Implies(left, right) => {
            let from = column(alloc, word, passes, start, n, left.get())?;
            let to = column(alloc, word, passes, start, n, right.get())?;
            let whole = joined(alloc, BinaryOperator::Implies, from, to, start)?;
            Ok(whole)
        }
        FormulaNode::Chain(first, links) => {
            let mut so_far = column(alloc, word, passes, start, n, first.get())?;
            for link in links.as_slice() {
                let right = column(alloc, word, passes, start, n, &link.operand)?;
                so_far = joined(alloc, link.operator, so_far, right, start)?;
            }
            Ok(so_far)
        }
    }
}
