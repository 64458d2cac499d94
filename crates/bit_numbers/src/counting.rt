//! How many operands are TRUE: `count`.

ghost use Rattle.std.specs.Prelude.{◌≡◌, ◌<◌, ℕ, Bool, IfOk, IfSome, List, Some, count_by, is_some, length, pos};
ghost use Rattle.std.specs.List.{list_all};
ghost use Rattle.bit_graph.specs.Meaning.{Consistent, Stands, edge_value};
ghost use Rattle.bit_graph.specs.declared.edge.GraphNode.{GraphNode};
ghost use Rattle.bit_graph.specs.Growth.{Extends};
ghost use Rattle.bit_arith.specs.Number.{AllStand, bit, number_of};
ghost use Rattle.smv_value.specs.declared.value.Value.{Value};
ghost use Rattle.smv_value.specs.declared.value.Value.TheVariants.{Int};
ghost use Rattle.smv_value.specs.Results.{is_true};
ghost use Rattle.bit_operators.specs.Denoting.{StandsIn, denoted, integer_of};
ghost use Rattle.bit_operators.specs.Kinds.{is_boolean};
ghost use Rattle.bit_numbers.specs.Counts.{AllStandIn, AreDenoted, count_true};

use bit_arith::add;
use bit_graph::{Edge, Graph};
use bit_operators::{Symbolic, integer, number_edges, resized};
use bit_values::least_bits;
use std::alloc::{AllocError, Global};

/// How many of the operands are true; `None` where one is no boolean.
pub fn number_of_true(
    alloc: Global,
    graph: &mut Graph,
    operands: &[Symbolic],
) -> Result<Option<Symbolic>, AllocError>
    requires { AllStandIn graph.old operands.now }
    ensures extends { Extends graph.old graph.new }
    ensures stands { IfOk result (λ r. IfSome r (λ s. StandsIn graph.new s)) }
    ensures value { IfOk result (λ r. IfSome r (λ s. (v : ℕ → Bool) (xs : List Value) → Consistent v graph.new → AreDenoted v operands.now xs →
        denoted v s ≡ Some (Int (pos (count_by is_true xs))))) }
    ensures kinds { IfOk result (λ r. is_some r ≡ list_all is_boolean operands.now) }
{
    match booleans(alloc, operands)? {
        None => Ok(None),
        Some(edges) => {
            let number = sum_of_edges(alloc, graph, &edges)?;
            Ok(Some(integer(alloc, graph, number)))
        }
    }
}

fn booleans(alloc: Global, operands: &[Symbolic]) -> Result<Option<Vec<Edge>>, AllocError>
    ensures stands { IfOk result (λ r. IfSome r (λ es. (g : List GraphNode) → AllStandIn g operands.now → AllStand g es.items)) }
    ensures value { IfOk result (λ r. IfSome r (λ es. (v : ℕ → Bool) (xs : List Value) → AreDenoted v operands.now xs → count_by is_true xs ≡ count_true v es.items)) }
    ensures kinds { IfOk result (λ r. is_some r ≡ list_all is_boolean operands.now) }
{
    let mut edges = Vec::new(alloc);
    'operands: for i in 0..operands.len() {
        match &operands[i] {
            Symbolic::Boolean(e) => edges.push(*e)?,
            Symbolic::Word { .. } | Symbolic::Discrete(_) => return Ok(None),
        }
    }
    Ok(Some(edges))
}

// In the bits that the number of edges needs, and one for the sign.
fn sum_of_edges(alloc: Global, graph: &mut Graph, edges: &[Edge]) -> Result<Vec<Edge>, AllocError>
    requires { AllStand graph.old edges.now }
    ensures extends { Extends graph.old graph.new }
    ensures stands { IfOk result (λ r. AllStand graph.new r.items) }
    ensures value { IfOk result (λ r. (v : ℕ → Bool) → Consistent v graph.new → integer_of v r.items ≡ pos (count_true v edges.now)) }
{
    let width = 1 + least_bits(edges.len() as u64 + 1);
    let mut sum = number_edges(alloc, graph, width, 0)?;
    'edges: for i in 0..edges.len() {
        let one = one_bit(alloc, graph, edges[i], width)?;
        let more = add(alloc, graph, &sum, &one)?;
        sum = more;
    }
    Ok(sum)
}

// The edge as a number of so many bits.
fn one_bit(alloc: Global, graph: &Graph, e: Edge, width: usize) -> Result<Vec<Edge>, AllocError>
    requires some { 0 < width }
    requires stands { Stands graph.now e }
    ensures stands { IfOk result (λ r. AllStand graph.now r.items) }
    ensures length { IfOk result (λ r. length r.items ≡ width) }
    ensures value { IfOk result (λ r. (v : ℕ → Bool) → Consistent v graph.now → number_of v r.items ≡ bit (edge_value v e)) }
{
    let bits = resized(alloc, graph, false, &[e], width)?;
    Ok(bits)
}
