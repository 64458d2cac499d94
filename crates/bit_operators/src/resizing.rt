//! Words and integers in another width.

ghost use Rattle.std.specs.Prelude.{◌≡◌, ◌++◌, ◌≤◌, ℕ, Bool, IfOk, length, replicate, take};
ghost use Rattle.bit_graph.specs.Meaning.{Consistent, Denotes, Stands, edge_value};
ghost use Rattle.bit_arith.specs.Number.{AllStand, number_of};
ghost use Rattle.smv_value.specs.Results.{number_of_word, low_bits};
ghost use Rattle.bit_arith.specs.Words.{is_negative};
ghost use Rattle.bit_operators.specs.Resizing.{is_below_zero};

use bit_graph::{Edge, Graph};
use std::alloc::{AllocError, Global};

/// The low bits of what a word counts, so many. An integer keeps its value in as many bits as it has, and in more. The
/// only error is running out of memory.
pub fn resized(
    alloc: Global,
    graph: &Graph,
    signed: bool,
    bits: &[Edge],
    width: usize,
) -> Result<Vec<Edge>, AllocError>
    requires { AllStand graph.now bits.now }
    ensures stands { IfOk result (λ r. AllStand graph.now r.items) }
    ensures length { IfOk result (λ r. length r.items ≡ width) }
    ensures value { IfOk result (λ r. (v : ℕ → Bool) → Consistent v graph.now →
        number_of v r.items ≡ low_bits width (number_of_word signed (length bits.now) (number_of v bits.now))) }
{
    let fill = sign(graph, signed, bits);
    if width <= bits.len() {
        let low = lowest(alloc, bits, width)?;
        Ok(low)
    } else {
        let wider = widened(alloc, bits, fill, width - bits.len())?;
        Ok(wider)
    }
}

fn lowest(alloc: Global, bits: &[Edge], width: usize) -> Result<Vec<Edge>, AllocError>
    requires { width ≤ length bits.now }
    ensures { IfOk result (λ r. r.items ≡ take width bits.now) }
{
    let low = Vec::from_slice(alloc, &bits[..width])?;
    Ok(low)
}

// The bits, and above them the same one so many times.
fn widened(alloc: Global, bits: &[Edge], fill: Edge, by: usize) -> Result<Vec<Edge>, AllocError>
    ensures { IfOk result (λ r. r.items ≡ bits.now ++ replicate by fill) }
{
    let mut made = Vec::from_slice(alloc, bits)?;
    let filled = vec![in alloc; fill; by]?;
    made.extend_from_slice(&filled)?;
    Ok(made)
}

/// Whether what the word counts is below 0.
pub fn sign(graph: &Graph, signed: bool, bits: &[Edge]) -> Edge
    requires { AllStand graph.now bits.now }
    ensures stands { Stands graph.now result }
    ensures value { Denotes graph.now result (λ v. is_below_zero signed (length bits.now) (number_of v bits.now)) }
{
    if signed {
        top(graph, bits)
    } else {
        graph.constant(false)
    }
}

// The highest bit.
fn top(graph: &Graph, bits: &[Edge]) -> Edge
    requires { AllStand graph.now bits.now }
    ensures stands { Stands graph.now result }
    ensures value { Denotes graph.now result (λ v. is_negative (length bits.now) (number_of v bits.now)) }
{
    if bits.is_empty() {
        graph.constant(false)
    } else {
        bits[bits.len() - 1]
    }
}
