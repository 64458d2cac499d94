//! Logic on booleans and on words, bit by bit: `! & | xor xnor -> <->`.

ghost use Rattle.std.specs.Prelude.{◌≡◌, ◌||◌, ℕ, Bool, IfOk, IfSome, List, is_some, length, map, not};
ghost use Rattle.std.specs.Bool.{beq};
ghost use Rattle.bit_graph.specs.Meaning.{Consistent, Denotes, Stands, edge_value};
ghost use Rattle.bit_graph.specs.declared.edge.GraphNode.{GraphNode};
ghost use Rattle.bit_graph.specs.Growth.{Extends};
ghost use Rattle.bit_arith.specs.Number.{AllStand, flip, values_of};
ghost use Rattle.smv_value.specs.Results.{inverted, logic_truth, logical};
ghost use Rattle.bit_operators.specs.Denoting.{ComputesOne, ComputesTwo, StandsIn};
ghost use Rattle.bit_operators.specs.Kinds.{are_logical, is_logical};
ghost use Rattle.bit_operators.specs.Lists.{bit_by_bit};

use crate::Symbolic;
use bit_graph::{Edge, Graph};
use smv_value::Logic;
use sqlite_items::Items;
use std::alloc::{AllocError, Global};

/// `!a`; `None` where `a` is neither a boolean nor a word.
pub fn inverted(alloc: Global, a: &Symbolic) -> Result<Option<Symbolic>, AllocError>
    ensures stands { IfOk result (λ r. IfSome r (λ s. (g : List GraphNode) → StandsIn g a.now → StandsIn g s)) }
    ensures value { IfOk result (λ r. IfSome r (λ s. (v : ℕ → Bool) → ComputesOne v inverted a.now s)) }
    ensures kinds { IfOk result (λ r. is_some r ≡ is_logical a.now) }
{
    match a {
        Symbolic::Boolean(x) => Ok(Some(Symbolic::Boolean(x.negation()))),
        Symbolic::Word { signed, bits } => {
            let bits = inverted_bits(alloc, bits.as_slice())?;
            Ok(Some(Symbolic::Word {
                signed: *signed,
                bits: Items::from_vec(bits),
            }))
        }
        Symbolic::Discrete(_) => Ok(None),
    }
}

fn inverted_bits(alloc: Global, bits: &[Edge]) -> Result<Vec<Edge>, AllocError>
    ensures { IfOk result (λ r. r.items ≡ map flip bits.now) }
{
    bits.iter().map(|e| e.negation()).collect(alloc)
}

/// `a & b` and so on; `None` where the operands are neither two booleans nor two words of one type.
pub fn logical(
    alloc: Global,
    graph: &mut Graph,
    o: Logic,
    a: &Symbolic,
    b: &Symbolic,
) -> Result<Option<Symbolic>, AllocError>
    requires a_stands { StandsIn graph.old a.now }
    requires b_stands { StandsIn graph.old b.now }
    ensures extends { Extends graph.old graph.new }
    ensures stands { IfOk result (λ r. IfSome r (λ s. StandsIn graph.new s)) }
    ensures value { IfOk result (λ r. IfSome r (λ s. (v : ℕ → Bool) → Consistent v graph.new → ComputesTwo v (logical o) a.now b.now s)) }
    ensures kinds { IfOk result (λ r. is_some r ≡ are_logical a.now b.now) }
{
    match (a, b) {
        (Symbolic::Boolean(x), Symbolic::Boolean(y)) => {
            let e = joined(graph, o, *x, *y)?;
            Ok(Some(Symbolic::Boolean(e)))
        }
        (
            Symbolic::Word { signed, bits },
            Symbolic::Word {
                signed: other_signed,
                bits: other_bits,
            },
        ) => if signed == other_signed && bits.len() == other_bits.len() {
            let bits = joined_bits(alloc, graph, o, bits.as_slice(), other_bits.as_slice())?;
            Ok(Some(Symbolic::Word {
                signed: *signed,
                bits: Items::from_vec(bits),
            }))
        } else {
            Ok(None)
        },
        _ => Ok(None),
    }
}

// Bit by bit.
fn joined_bits(
    alloc: Global,
    graph: &mut Graph,
    o: Logic,
    a: &[Edge],
    b: &[Edge],
) -> Result<Vec<Edge>, AllocError>
    requires lengths { length a.now ≡ length b.now }
    requires a_stand { AllStand graph.old a.now }
    requires b_stand { AllStand graph.old b.now }
    ensures extends { Extends graph.old graph.new }
    ensures stands { IfOk result (λ r. AllStand graph.new r.items) }
    ensures length { IfOk result (λ r. length r.items ≡ length a.now) }
    ensures value { IfOk result (λ r. (v : ℕ → Bool) → Consistent v graph.new →
        values_of v r.items ≡ bit_by_bit (logic_truth o) (values_of v a.now) (values_of v b.now)) }
{
    let mut bits = Vec::new(alloc);
    'bits: for i in 0..a.len() {
        let e = joined(graph, o, a[i], b[i])?;
        bits.push(e)?;
    }
    Ok(bits)
}

fn joined(graph: &mut Graph, o: Logic, a: Edge, b: Edge) -> Result<Edge, AllocError>
    requires a_stands { Stands graph.old a }
    requires b_stands { Stands graph.old b }
    ensures extends { Extends graph.old graph.new }
    ensures stands { IfOk result (λ e. Stands graph.new e) }
    ensures value { IfOk result (λ e. Denotes graph.new e (λ v. logic_truth o (edge_value v a) (edge_value v b))) }
{
    match o {
        Logic::And => graph.and(a, b),
        Logic::Or => graph.or(a, b),
        Logic::Xor => differ(graph, a, b),
        Logic::Xnor => alike(graph, a, b),
        Logic::Iff => alike(graph, a, b),
        Logic::Implies => implied(graph, a, b),
    }
}

fn differ(graph: &mut Graph, a: Edge, b: Edge) -> Result<Edge, AllocError>
    requires a_stands { Stands graph.old a }
    requires b_stands { Stands graph.old b }
    ensures extends { Extends graph.old graph.new }
    ensures stands { IfOk result (λ e. Stands graph.new e) }
    ensures value { IfOk result (λ e. Denotes graph.new e (λ v. not (beq (edge_value v a) (edge_value v b)))) }
{
    let e = graph.xor(a, b)?;
    Ok(e)
}

/// The edge that is true where both are or neither is.
pub fn alike(graph: &mut Graph, a: Edge, b: Edge) -> Result<Edge, AllocError>
    requires a_stands { Stands graph.old a }
    requires b_stands { Stands graph.old b }
    ensures extends { Extends graph.old graph.new }
    ensures stands { IfOk result (λ e. Stands graph.new e) }
    ensures value { IfOk result (λ e. Denotes graph.new e (λ v. beq (edge_value v a) (edge_value v b))) }
{
    let e = graph.xor(a, b.negation())?;
    Ok(e)
}

fn implied(graph: &mut Graph, a: Edge, b: Edge) -> Result<Edge, AllocError>
    requires a_stands { Stands graph.old a }
    requires b_stands { Stands graph.old b }
    ensures extends { Extends graph.old graph.new }
    ensures stands { IfOk result (λ e. Stands graph.new e) }
    ensures value { IfOk result (λ e. Denotes graph.new e (λ v. not (edge_value v a) || edge_value v b)) }
{
    let e = graph.or(a.negation(), b)?;
    Ok(e)
}
