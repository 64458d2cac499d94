//! Indices of arrays.

ghost use Rattle.std.specs.Prelude.{ℕ, Bool, IfOk, IfSome};
ghost use Rattle.bit_graph.specs.Meaning.{Consistent};
ghost use Rattle.smv_value.specs.Results.{of_integer};
ghost use Rattle.bit_operators.specs.Denoting.{ComputesOne, StandsIn};

use bit_graph::Graph;
use bit_operators::{Symbolic, integer};
use std::alloc::{AllocError, Global};

/// An index: the integer that it is. `None` where it is not discrete.
pub fn subscript(alloc: Global, graph: &Graph, a: &Symbolic) -> Result<Option<Symbolic>, AllocError>
    requires { StandsIn graph.now a.now }
    ensures stands { IfOk result (λ r. IfSome r (λ s. StandsIn graph.now s)) }
    ensures value { IfOk result (λ r. IfSome r (λ s. (v : ℕ → Bool) → Consistent v graph.now → ComputesOne v (of_integer (λ n. n)) a.now s)) }
{
    match a {
        Symbolic::Discrete(d) => {
            let number = Vec::from_slice(alloc, d.number.as_slice())?;
            Ok(Some(integer(alloc, graph, number)))
        }
        Symbolic::Boolean(_) | Symbolic::Word { .. } => Ok(None),
    }
}
