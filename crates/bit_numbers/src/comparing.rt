//! Equal numbers, and integers beside constants.

ghost use Rattle.std.specs.Prelude.{◌≡◌, ◌==◌, ◌&&◌, ◌^◌, ◌≤◌, ◌↔◌, ℕ, Bool, IfOk, IsTrue, Some, int_le, int_lt, length};
ghost use Rattle.bit_graph.specs.Meaning.{Consistent, Denotes, Stands, edge_value};
ghost use Rattle.bit_graph.specs.Growth.{Extends};
ghost use Rattle.bit_arith.specs.Number.{AllStand, number_of};
ghost use Rattle.smv_value.specs.declared.value.Value.{Value};
ghost use Rattle.value_types.specs.Types.{is_between};
ghost use Rattle.bit_operators.specs.Denoting.{StandsIn, denoted, integer_of};

use crate::constants::{fits, integer_edges};
use bit_graph::{Edge, Graph};
use bit_operators::{Symbolic, alike, integer_below, number_edges, resized};
use std::alloc::{AllocError, Global};

/// The edge that is true where the numbers are equal. The only error is running out of memory.
pub fn equal_bits(graph: &mut Graph, a: &[Edge], b: &[Edge]) -> Result<Edge, AllocError>
    requires lengths { length a.now ≡ length b.now }
    requires a_stand { AllStand graph.old a.now }
    requires b_stand { AllStand graph.old b.now }
    ensures extends { Extends graph.old graph.new }
    ensures stands { IfOk result (λ e. Stands graph.new e) }
    ensures value { IfOk result (λ e. Denotes graph.new e (λ v. number_of v a.now == number_of v b.now)) }
{
    let mut equal = graph.constant(true);
    'bits: for i in 0..a.len() {
        let same = alike(graph, a[i], b[i])?;
        let both = graph.and(same, equal)?;
        equal = both;
    }
    Ok(equal)
}

/// The edge that is true where the bits are this number. The only error is running out of memory.
pub fn is_number(
    alloc: Global,
    graph: &mut Graph,
    bits: &[Edge],
    n: u128,
) -> Result<Edge, AllocError>
    requires { AllStand graph.old bits.now }
    ensures extends { Extends graph.old graph.new }
    ensures stands { IfOk result (λ e. Stands graph.new e) }
    ensures value { IfOk result (λ e. Denotes graph.new e (λ v. number_of v bits.now == n)) }
{
    if reaches(n, bits.len()) {
        Ok(graph.constant(false))
    } else {
        let edges = number_edges(alloc, graph, bits.len(), n)?;
        let equal = equal_bits(graph, bits, &edges)?;
        Ok(equal)
    }
}

// Whether the number is past each of so many bits.
fn reaches(n: u128, width: usize) -> bool
    ensures { IsTrue result ↔ (2 ^ width ≤ n) }
{
    width < 128 && 1 << width <= n
}

/// The edge that is true where the integers are equal. The only error is running out of memory.
pub fn equal_integers(
    alloc: Global,
    graph: &mut Graph,
    a: &[Edge],
    b: &[Edge],
) -> Result<Edge, AllocError>
    requires a_stand { AllStand graph.old a.now }
    requires b_stand { AllStand graph.old b.now }
    ensures extends { Extends graph.old graph.new }
    ensures stands { IfOk result (λ e. Stands graph.new e) }
    ensures value { IfOk result (λ e. Denotes graph.new e (λ v. int_le (integer_of v a.now) (integer_of v b.now) && int_le (integer_of v b.now) (integer_of v a.now))) }
{
    let width = a.len().max(b.len());
    let left = resized(alloc, graph, true, a, width)?;
    let right = resized(alloc, graph, true, b, width)?;
    let equal = equal_bits(graph, &left, &right)?;
    Ok(equal)
}

/// The edge that is true where the integer is from `low` to `high`, both among them. The only error is running out of
/// memory.
pub fn between(
    alloc: Global,
    graph: &mut Graph,
    bits: &[Edge],
    low: i64,
    high: i64,
) -> Result<Edge, AllocError>
    requires { AllStand graph.old bits.now }
    ensures extends { Extends graph.old graph.new }
    ensures stands { IfOk result (λ e. Stands graph.new e) }
    ensures value { IfOk result (λ e. Denotes graph.new e (λ v. int_le low (integer_of v bits.now) && int_le (integer_of v bits.now) high)) }
{
    let under = is_below(alloc, graph, bits, low)?;
    let over = is_above(alloc, graph, bits, high)?;
    let within = graph.and(under.negation(), over.negation())?;
    Ok(within)
}

fn is_below(alloc: Global, graph: &mut Graph, bits: &[Edge], limit: i64) -> Result<Edge, AllocError>
    requires { AllStand graph.old bits.now }
    ensures extends { Extends graph.old graph.new }
    ensures stands { IfOk result (λ e. Stands graph.new e) }
    ensures value { IfOk result (λ e. Denotes graph.new e (λ v. int_lt (integer_of v bits.now) limit)) }
{
    if fits(bits.len(), limit) {
        let edges = integer_edges(alloc, graph, limit)?;
        let below = integer_below(alloc, graph, bits, &edges)?;
        Ok(below)
    } else {
        Ok(graph.constant(0 < limit))
    }
}

fn is_above(alloc: Global, graph: &mut Graph, bits: &[Edge], limit: i64) -> Result<Edge, AllocError>
    requires { AllStand graph.old bits.now }
    ensures extends { Extends graph.old graph.new }
    ensures stands { IfOk result (λ e. Stands graph.new e) }
    ensures value { IfOk result (λ e. Denotes graph.new e (λ v. int_lt limit (integer_of v bits.now))) }
{
    if fits(bits.len(), limit) {
        let edges = integer_edges(alloc, graph, limit)?;
        let above = integer_below(alloc, graph, &edges, bits)?;
        Ok(above)
    } else {
        Ok(graph.constant(limit < 0))
    }
}

/// The edge that is true where the value is an integer from `low` to `high`. The only error is running out of memory.
pub fn is_between(
    alloc: Global,
    graph: &mut Graph,
    low: i64,
    high: i64,
    a: &Symbolic,
) -> Result<Edge, AllocError>
    requires { StandsIn graph.old a.now }
    ensures extends { Extends graph.old graph.new }
    ensures stands { IfOk result (λ e. Stands graph.new e) }
    ensures value { IfOk result (λ e. (v : ℕ → Bool) (x : Value) → Consistent v graph.new → denoted v a.now ≡ Some x → edge_value v e ≡ is_between low high x) }
{
    match a {
        Symbolic::Discrete(d) => {
            let within = between(alloc, graph, d.number.as_slice(), low, high)?;
            let both = graph.and(d.is_symbol.negation(), within)?;
            Ok(both)
        }
        Symbolic::Boolean(_) | Symbolic::Word { .. } => Ok(graph.constant(false)),
    }
}
