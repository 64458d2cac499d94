//! Codes of symbols.

ghost use Rattle.std.specs.Prelude.{◌≡◌, ◌==◌, ◌^◌, ◌≤◌, ℕ, Bool, IfOk, IsTrue, Some, length, position, slice_get};
ghost use Rattle.bit_graph.specs.Meaning.{Consistent, Denotes, Stands, edge_value};
ghost use Rattle.bit_graph.specs.Growth.{Extends};
ghost use Rattle.bit_arith.specs.Number.{AllStand, number_of};
ghost use Rattle.bit_operators.specs.Lists.{is_distinct};
ghost use Rattle.bit_choices.specs.Symbols.{AreIn, Begins, has, is_some_of};

use bit_arith::select;
use bit_graph::{Edge, Graph};
use bit_numbers::{equal_bits, is_number};
use bit_operators::{number_edges, resized};
use std::alloc::{AllocError, Global};

/// The edge that is true where the code is the symbol's. The only error is running out of memory.
pub fn is_symbol(
    alloc: Global,
    graph: &mut Graph,
    symbols: &[u32],
    code: &[Edge],
    symbol: u32,
) -> Result<Edge, AllocError>
    requires distinct { IsTrue (is_distinct symbols.now) }
    requires stand { AllStand graph.old code.now }
    ensures extends { Extends graph.old graph.new }
    ensures stands { IfOk result (λ e. Stands graph.new e) }
    ensures value { IfOk result (λ e. Denotes graph.new e (λ v. is_some_of symbol (slice_get symbols.now (number_of v code.now)))) }
{
    match place(symbols, symbol) {
        None => Ok(graph.constant(false)),
        Some(k) => {
            let e = is_number(alloc, graph, code, k as u128)?;
            Ok(e)
        }
    }
}

// The first place of the symbol.
fn place(symbols: &[u32], symbol: u32) -> Option<usize>
    ensures { result ≡ position (λ s. s == symbol) symbols.now }
{
    symbols.iter().position(|s| *s == symbol)
}

/// The edge that is true where both codes are of the same symbol. The only error is running out of memory.
pub fn same_symbols(
    alloc: Global,
    graph: &mut Graph,
    xs: &[u32],
    code: &[Edge],
    ys: &[u32],
    other: &[Edge],
) -> Result<Edge, AllocError>
    requires xs_distinct { IsTrue (is_distinct xs.now) }
    requires ys_distinct { IsTrue (is_distinct ys.now) }
    requires code_stands { AllStand graph.old code.now }
    requires other_stands { AllStand graph.old other.now }
    ensures extends { Extends graph.old graph.new }
    ensures stands { IfOk result (λ e. Stands graph.new e) }
    ensures value { IfOk result (λ e. (v : ℕ → Bool) (s t : ℕ) → Consistent v graph.new → slice_get xs.now (number_of v code.now) ≡ Some s →
        slice_get ys.now (number_of v other.now) ≡ Some t → edge_value v e ≡ (s == t)) }
{
    let first = begins(xs, ys);
    let second = begins(ys, xs);
    if first {
        let alike = same_codes(alloc, graph, code, other)?;
        Ok(alike)
    } else if second {
        let turned = same_codes(alloc, graph, other, code)?;
        Ok(turned)
    } else if xs.len() <= ys.len() {
        let over = matched(alloc, graph, ys, other, xs, code)?;
        Ok(over)
    } else {
        let equal = matched(alloc, graph, xs, code, ys, other)?;
        Ok(equal)
    }
}

fn same_codes(
    alloc: Global,
    graph: &mut Graph,
    code: &[Edge],
    other: &[Edge],
) -> Result<Edge, AllocError>
    requires code_stands { AllStand graph.old code.now }
    requires other_stands { AllStand graph.old other.now }
    ensures extends { Extends graph.old graph.new }
    ensures stands { IfOk result (λ e. Stands graph.new e) }
    ensures value { IfOk result (λ e. Denotes graph.new e (λ v. number_of v code.now == number_of v other.now)) }
{
    let width = code.len().max(other.len());
    let left = resized(alloc, graph, false, code, width)?;
    let right = resized(alloc, graph, false, other, width)?;
    let equal = equal_bits(graph, &left, &right)?;
    Ok(equal)
}

// As `same_symbols`, symbol by symbol of the second list.
fn matched(
    alloc: Global,
    graph: &mut Graph,
    xs: &[u32],
    code: &[Edge],
    ys: &[u32],
    other: &[Edge],
) -> Result<Edge, AllocError>
    requires distinct { IsTrue (is_distinct xs.now) }
    requires code_stands { AllStand graph.old code.now }
    requires other_stands { AllStand graph.old other.now }
    ensures extends { Extends graph.old graph.new }
    ensures stands { IfOk result (λ e. Stands graph.new e) }
    ensures value { IfOk result (λ e. (v : ℕ → Bool) (s t : ℕ) → Consistent v graph.new → slice_get xs.now (number_of v code.now) ≡ Some s →
        slice_get ys.now (number_of v other.now) ≡ Some t → edge_value v e ≡ (s == t)) }
{
    let mut equal = graph.constant(false);
    'symbols: for j in 0..ys.len() {
        let same = is_symbol(alloc, graph, xs, code, ys[j])?;
        let here = is_number(alloc, graph, other, j as u128)?;
        let both = graph.and(here, same)?;
        let more = graph.or(equal, both)?;
        equal = more;
    }
    Ok(equal)
}

/// Whether the second list begins with the first.
fn begins(xs: &[u32], ys: &[u32]) -> bool
    ensures { IsTrue result → Begins xs.now ys.now }
{
    if xs.len() > ys.len() {
        return false;
    }
    'symbols: for i in 0..xs.len() {
        if xs[i] != ys[i] {
            return false;
        }
    }
    true
}

/// The symbols of both lists, each once, those of the first list in their places. The only error is running out of
/// memory.
pub fn united(alloc: Global, xs: &[u32], ys: &[u32]) -> Result<Vec<u32>, AllocError>
    requires { IsTrue (is_distinct xs.now) }
    ensures distinct { IfOk result (λ r. IsTrue (is_distinct r.items)) }
    ensures first { IfOk result (λ r. AreIn xs.now r.items) }
    ensures second { IfOk result (λ r. AreIn ys.now r.items) }
{
    let mut all = Vec::from_slice(alloc, xs)?;
    'symbols: for i in 0..ys.len() {
        push_new(&mut all, ys[i])?;
    }
    Ok(all)
}

fn push_new(all: &mut Vec<u32>, symbol: u32) -> Result<(), AllocError>
    requires { IsTrue (is_distinct all.old.items) }
    ensures distinct { IfOk result (λ _. IsTrue (is_distinct all.new.items)) }
    ensures new { IfOk result (λ _. IsTrue (has all.new.items symbol)) }
    ensures kept { IfOk result (λ _. (n : ℕ) → IsTrue (has all.old.items n) → IsTrue (has all.new.items n)) }
{
    match place(all, symbol) {
        Some(_) => Ok(()),
        None => {
            all.push(symbol)?;
            Ok(())
        }
    }
}

/// The code, among the symbols `to`, of the symbol that the code stands for among `from`. The only error is running out
/// of memory.
pub fn recoded(
    alloc: Global,
    graph: &mut Graph,
    from: &[u32],
    code: &[Edge],
    to: &[u32],
    width: usize,
) -> Result<Vec<Edge>, AllocError>
    requires wide { length to.now ≤ 2 ^ width }
    requires known { AreIn from.now to.now }
    requires stand { AllStand graph.old code.now }
    ensures extends { Extends graph.old graph.new }
    ensures stands { IfOk result (λ r. AllStand graph.new r.items) }
    ensures length { IfOk result (λ r. length r.items ≡ width) }
    ensures value { IfOk result (λ r. (v : ℕ → Bool) (s : ℕ) → Consistent v graph.new → slice_get from.now (number_of v code.now) ≡ Some s →
        slice_get to.now (number_of v r.items) ≡ Some s) }
{
    if begins(from, to) {
        let same = resized(alloc, graph, false, code, width)?;
        Ok(same)
    } else {
        let made = recoded_each(alloc, graph, from, code, to, width)?;
        Ok(made)
    }
}

fn recoded_each(
    alloc: Global,
    graph: &mut Graph,
    from: &[u32],
    code: &[Edge],
    to: &[u32],
    width: usize,
) -> Result<Vec<Edge>, AllocError>
    requires wide { length to.now ≤ 2 ^ width }
    requires known { AreIn from.now to.now }
    requires stand { AllStand graph.old code.now }
    ensures extends { Extends graph.old graph.new }
    ensures stands { IfOk result (λ r. AllStand graph.new r.items) }
    ensures length { IfOk result (λ r. length r.items ≡ width) }
    ensures value { IfOk result (λ r. (v : ℕ → Bool) (s : ℕ) → Consistent v graph.new → slice_get from.now (number_of v code.now) ≡ Some s →
        slice_get to.now (number_of v r.items) ≡ Some s) }
{
    let mut made = number_edges(alloc, graph, width, 0)?;
    'symbols: for j in 0..from.len() {
        let here = is_number(alloc, graph, code, j as u128)?;
        let place = place_of(to, from[j]);
        let edges = number_edges(alloc, graph, width, place as u128)?;
        let next = select(alloc, graph, here, &edges, &made)?;
        made = next;
    }
    Ok(made)
}

fn place_of(symbols: &[u32], symbol: u32) -> usize
    requires { IsTrue (has symbols.now symbol) }
    ensures { slice_get symbols.now result ≡ Some symbol }
{
    match place(symbols, symbol) {
        Some(k) => k,
        None => 0,
    }
}
