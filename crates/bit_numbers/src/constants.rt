//! Constants as edges, and edges that are constants.

ghost use Rattle.std.specs.Prelude.{◌≡◌, ◌^◌, ◌<◌, ◌≤◌, ◌≤ℤ◌, ℕ, Bool, IfOk, IfSome, Some, length, pos, true};
ghost use Rattle.bit_graph.specs.Meaning.{Consistent, Denotes, Stands};
ghost use Rattle.bit_arith.specs.Number.{AllStand, number_of};
ghost use Rattle.bit_arith.specs.Words.{integer};
ghost use Rattle.smv_value.specs.declared.value.Value.TheVariants.{Int};
ghost use Rattle.smv_value.specs.Results.{is_value};
ghost use Rattle.bit_operators.specs.Integers.{fits};
ghost use Rattle.bit_operators.specs.Denoting.{StandsIn, denoted, integer_of};

use bit_graph::{Edge, Graph};
use bit_operators::{Symbolic, integer, number_edges, symbol};
use bit_values::{bits_of, constant_edges, least_bits};
use smv_value::Value;
use sqlite_items::Items;
use std::alloc::{AllocError, Global};

/// The value that this is, whatever the nodes are, an integer in the bits that it needs. The only error is running out
/// of memory.
pub fn constant(alloc: Global, graph: &Graph, value: Value) -> Result<Symbolic, AllocError>
    ensures stands { IfOk result (λ s. StandsIn graph.now s) }
    ensures value { IfOk result (λ s. (v : ℕ → Bool) → Consistent v graph.now → is_value value ≡ true → denoted v s ≡ Some value) }
{
    match value {
        Value::Bool(b) => Ok(Symbolic::Boolean(graph.constant(b))),
        Value::Int(z) => {
            let edges = integer_edges(alloc, graph, z)?;
            Ok(integer(alloc, graph, edges))
        }
        Value::Sym(n) => {
            let s = symbol(alloc, graph, n)?;
            Ok(s)
        }
        Value::Word {
            signed,
            width,
            bits,
        } => {
            let bits = bits_of(alloc, width as usize, bits)?;
            let edges = constant_edges(alloc, graph, &bits)?;
            Ok(Symbolic::Word {
                signed,
                bits: Items::from_vec(edges),
            })
        }
    }
}

/// Edges that always are the integer, as many as it needs. The only error is running out of memory.
pub fn integer_edges(alloc: Global, graph: &Graph, z: i64) -> Result<Vec<Edge>, AllocError>
    ensures stands { IfOk result (λ r. AllStand graph.now r.items) }
    ensures value { IfOk result (λ r. (v : ℕ → Bool) → Consistent v graph.now → integer_of v r.items ≡ z) }
{
    let width = integer_width(z);
    let number = number_in(width, z);
    let edges = number_edges(alloc, graph, width, number)?;
    Ok(edges)
}

/// How many bits the integer needs.
pub fn integer_width(z: i64) -> usize
    ensures within { result ≤ 64 }
    ensures fits { fits result z ≡ true }
{
    if z < 0 {
        1 + least_bits(z.unsigned_abs())
    } else {
        1 + least_bits(z.unsigned_abs() + 1)
    }
}

// The number of the integer's bits in two's complement.
fn number_in(width: usize, z: i64) -> u128
    requires within { width ≤ 64 }
    requires fits { fits width z ≡ true }
    ensures small { result < 2 ^ width }
    ensures value { integer width result ≡ z }
{
    let size = u128::from(z.unsigned_abs());
    if z < 0 { (1 << width) - size } else { size }
}

/// Whether so many bits hold the integer.
pub fn fits(width: usize, z: i64) -> bool
    ensures { result ≡ fits width z }
{
    width >= 64 || fits_few(width, z)
}

fn fits_few(width: usize, z: i64) -> bool
    requires { width < 64 }
    ensures { result ≡ fits width z }
{
    let twice = 2 * u128::from(z.unsigned_abs());
    if z < 0 {
        twice <= 1 << width
    } else {
        twice < 1 << width
    }
}

/// The integer that the value always is; `None` where it is none, or not always the same, or has more than 62 bits.
pub fn known_integer(graph: &Graph, a: &Symbolic) -> Option<i64>
    requires { StandsIn graph.now a.now }
    ensures { IfSome result (λ z. (v : ℕ → Bool) → Consistent v graph.now → denoted v a.now ≡ Some (Int z)) }
{
    match a {
        Symbolic::Discrete(d) => match graph.as_constant(d.is_symbol) {
            Some(false) => known_bits(graph, d.number.as_slice()),
            _ => None,
        },
        Symbolic::Boolean(_) | Symbolic::Word { .. } => None,
    }
}

fn known_bits(graph: &Graph, bits: &[Edge]) -> Option<i64>
    requires { AllStand graph.now bits.now }
    ensures { IfSome result (λ z. (v : ℕ → Bool) → Consistent v graph.now → integer_of v bits.now ≡ z) }
{
    if bits.len() > 62 {
        return None;
    }
    let number = known_number(graph, bits)?;
    Some(signed_integer(bits.len(), number))
}

// The integer that these bits are in two's complement.
fn signed_integer(width: usize, number: u64) -> i64
    requires within { width ≤ 62 }
    requires small { number < 2 ^ width }
    ensures { result ≡ integer width number }
{
    let past = 1u64 << width;
    if past <= 2 * number {
        -((past - number) as i64)
    } else {
        number as i64
    }
}

fn known_number(graph: &Graph, bits: &[Edge]) -> Option<u64>
    requires few { length bits.now ≤ 62 }
    requires stand { AllStand graph.now bits.now }
    ensures small { IfSome result (λ n. n < 2 ^ length bits.now) }
    ensures value { IfSome result (λ n. (v : ℕ → Bool) → Consistent v graph.now → number_of v bits.now ≡ n) }
{
    let mut value = 0;
    'bits: for i in (0..bits.len()).rev() {
        let b = graph.as_constant(bits[i])?;
        value = 2 * value + if b { 1 } else { 0 };
    }
    Some(value)
}
