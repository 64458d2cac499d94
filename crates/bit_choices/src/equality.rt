//! Equality of values as edges: `=` and `!=`.

ghost use Rattle.std.specs.Prelude.{◌≡◌, ℕ, Bool, IfOk, IfSome, Some, is_some};
ghost use Rattle.bit_graph.specs.Meaning.{Consistent, Stands, edge_value};
ghost use Rattle.bit_graph.specs.Growth.{Extends};
ghost use Rattle.smv_value.specs.declared.value.Value.{Value};
ghost use Rattle.smv_value.specs.Results.{same};
ghost use Rattle.bit_operators.specs.Denoting.{DiscreteStands, StandsIn, denoted, discrete_value};
ghost use Rattle.bit_operators.specs.Kinds.{are_alike};

use crate::symbols::same_symbols;
use bit_graph::{Edge, Graph};
use bit_numbers::{equal_bits, equal_integers};
use bit_operators::{Discrete, Symbolic, alike};
use std::alloc::{AllocError, Global};

/// The edge that is true where the values are the same.
///
/// It is `None` where the operands are neither two booleans, nor two words of one type, nor two discrete values. The
/// only error is running out of memory.
pub fn equal(
    alloc: Global,
    graph: &mut Graph,
    a: &Symbolic,
    b: &Symbolic,
) -> Result<Option<Edge>, AllocError>
    requires a_stands { StandsIn graph.old a.now }
    requires b_stands { StandsIn graph.old b.now }
    ensures extends { Extends graph.old graph.new }
    ensures stands { IfOk result (λ r. IfSome r (λ e. Stands graph.new e)) }
    ensures value { IfOk result (λ r. IfSome r (λ e. (v : ℕ → Bool) (x y : Value) → Consistent v graph.new → denoted v a.now ≡ Some x → denoted v b.now ≡ Some y →
        edge_value v e ≡ same x y)) }
    ensures kinds { IfOk result (λ r. is_some r ≡ are_alike a.now b.now) }
{
    match (a, b) {
        (Symbolic::Boolean(x), Symbolic::Boolean(y)) => {
            let e = alike(graph, *x, *y)?;
            Ok(Some(e))
        }
        (
            Symbolic::Word { signed, bits },
            Symbolic::Word {
                signed: other_signed,
                bits: other_bits,
            },
        ) => if signed == other_signed && bits.len() == other_bits.len() {
            let e = equal_bits(graph, bits.as_slice(), other_bits.as_slice())?;
            Ok(Some(e))
        } else {
            Ok(None)
        },
        (Symbolic::Discrete(x), Symbolic::Discrete(y)) => {
            let e = equal_discretes(alloc, graph, x, y)?;
            Ok(Some(e))
        }
        _ => Ok(None),
    }
}

fn equal_discretes(
    alloc: Global,
    graph: &mut Graph,
    x: &Discrete,
    y: &Discrete,
) -> Result<Edge, AllocError>
    requires x_stands { DiscreteStands graph.old x.now }
    requires y_stands { DiscreteStands graph.old y.now }
    ensures extends { Extends graph.old graph.new }
    ensures stands { IfOk result (λ e. Stands graph.new e) }
    ensures value { IfOk result (λ e. (v : ℕ → Bool) (p q : Value) → Consistent v graph.new → discrete_value v x.now ≡ Some p → discrete_value v y.now ≡ Some q →
        edge_value v e ≡ same p q) }
{
    let symbols = same_symbols(
        alloc,
        graph,
        x.symbols.as_slice(),
        x.code.as_slice(),
        y.symbols.as_slice(),
        y.code.as_slice(),
    )?;
    let numbers = equal_integers(alloc, graph, x.number.as_slice(), y.number.as_slice())?;
    let symbol = graph.and(y.is_symbol, symbols)?;
    let integer = graph.and(y.is_symbol.negation(), numbers)?;
    let equal = graph.choose(x.is_symbol, symbol, integer)?;
    Ok(equal)
}
