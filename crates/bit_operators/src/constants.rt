//! Values that are always the same.

ghost use Rattle.std.specs.Prelude.{◌≡◌, ◌^◌, ◌<◌, ℕ, Bool, IfOk, Some, length};
ghost use Rattle.bit_graph.specs.Meaning.{Consistent};
ghost use Rattle.bit_arith.specs.Number.{AllStand, number_of};
ghost use Rattle.smv_value.specs.declared.value.Value.TheVariants.{Int, Sym};
ghost use Rattle.bit_operators.specs.Denoting.{StandsIn, denoted, integer_of};

use crate::{Discrete, Symbolic};
use bit_graph::{Edge, Graph};
use bit_values::{bits_of, constant_edges};
use sqlite_items::Items;
use std::alloc::{AllocError, Global};

/// The value that is an integer in two's complement.
pub fn integer(alloc: Global, graph: &Graph, number: Vec<Edge>) -> Symbolic
    requires { AllStand graph.now number.items }
    ensures stands { StandsIn graph.now result }
    ensures value { (v : ℕ → Bool) → Consistent v graph.now → denoted v result ≡ Some (Int (integer_of v number.items)) }
{
    Symbolic::Discrete(Discrete {
        is_symbol: graph.constant(false),
        number: Items::from_vec(number),
        symbols: Items::new(alloc),
        code: Items::new(alloc),
    })
}

/// The value that is this symbol, whatever the nodes are. The only error is running out of memory.
pub fn symbol(alloc: Global, graph: &Graph, n: u32) -> Result<Symbolic, AllocError>
    ensures stands { IfOk result (λ s. StandsIn graph.now s) }
    ensures value { IfOk result (λ s. (v : ℕ → Bool) → Consistent v graph.now → denoted v s ≡ Some (Sym n)) }
{
    let symbols = Items::from_slice(alloc, &[n])?;
    Ok(Symbolic::Discrete(Discrete {
        is_symbol: graph.constant(true),
        number: Items::new(alloc),
        symbols,
        code: Items::new(alloc),
    }))
}

/// Edges that always are the number. The only error is running out of memory.
pub fn number_edges(
    alloc: Global,
    graph: &Graph,
    width: usize,
    number: u128,
) -> Result<Vec<Edge>, AllocError>
    requires { number < 2 ^ width }
    ensures stands { IfOk result (λ r. AllStand graph.now r.items) }
    ensures length { IfOk result (λ r. length r.items ≡ width) }
    ensures value { IfOk result (λ r. (v : ℕ → Bool) → Consistent v graph.now → number_of v r.items ≡ number) }
{
    let bits = bits_of(alloc, width, number)?;
    let edges = constant_edges(alloc, graph, &bits)?;
    Ok(edges)
}
