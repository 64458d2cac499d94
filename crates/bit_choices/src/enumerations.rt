//! Enumerations: their elements by code.

ghost use Rattle.std.specs.Prelude.{◌≡◌, ◌==◌, ℕ, Bool, IfOk, IfSome, IsTrue, Some, if◌then◌else◌, length, map, pos, slice_get, ◌+ℤ◌};
ghost use Rattle.std.specs.Option.{option_map};
ghost use Rattle.bit_graph.specs.Meaning.{Consistent};
ghost use Rattle.bit_graph.specs.Growth.{Extends};
ghost use Rattle.bit_arith.specs.Number.{AllStand, number_of};
ghost use Rattle.smv_value.specs.declared.value.Value.{Value};
ghost use Rattle.smv_value.specs.declared.value.Value.TheVariants as value;
ghost use Rattle.value_types.specs.declared.value_type.Element.TheVariants.{Int, Sym};
ghost use Rattle.value_types.specs.Types.{element_value, is_distinct};
ghost use Rattle.bit_operators.specs.Denoting.{DiscreteStands, discrete_value, integer_of};
ghost use Rattle.bit_choices.specs.Runs.{IsRun};

use crate::choices::choose_discrete;
use crate::variables::in_range;
use bit_graph::{Edge, Graph};
use bit_numbers::{integer_edges, is_number};
use bit_operators::Discrete;
use sqlite_items::Items;
use std::alloc::{AllocError, Global};
use value_types::Element;

/// The element that has this code. The only error is running out of memory.
pub fn enumeration(
    alloc: Global,
    graph: &mut Graph,
    elements: &[Element],
    bits: &[Edge],
) -> Result<Discrete, AllocError>
    requires distinct { IsTrue (is_distinct elements.now) }
    requires bits_stand { AllStand graph.old bits.now }
    ensures extends { Extends graph.old graph.new }
    ensures stands { IfOk result (λ d. DiscreteStands graph.new d) }
    ensures value { IfOk result (λ d. (v : ℕ → Bool) (x : Value) → Consistent v graph.new → option_map element_value (slice_get elements.now (number_of v bits.now)) ≡ Some x →
        discrete_value v d ≡ Some x) }
{
    match symbols_of(alloc, elements)? {
        Some(symbols) => {
            let d = symbolic(alloc, graph, elements, symbols, bits)?;
            Ok(d)
        }
        None => {
            let d = with_integers(alloc, graph, elements, bits)?;
            Ok(d)
        }
    }
}

// Their symbols, where each is one.
fn symbols_of(alloc: Global, elements: &[Element]) -> Result<Option<Vec<u32>>, AllocError>
    ensures { IfOk result (λ r. IfSome r (λ ss. elements.now ≡ map Sym ss.items)) }
{
    let mut symbols = Vec::new(alloc);
    'elements: for i in 0..elements.len() {
        match elements[i] {
            Element::Sym(n) => symbols.push(n)?,
            Element::Int(_) => return Ok(None),
        }
    }
    Ok(Some(symbols))
}

// The symbol of the code.
fn symbolic(
    alloc: Global,
    graph: &Graph,
    elements: &[Element],
    symbols: Vec<u32>,
    bits: &[Edge],
) -> Result<Discrete, AllocError>
    requires distinct { IsTrue (is_distinct elements.now) }
    requires symbols { elements.now ≡ map Sym symbols.items }
    requires bits_stand { AllStand graph.now bits.now }
    ensures stands { IfOk result (λ d. DiscreteStands graph.now d) }
    ensures value { IfOk result (λ d. (v : ℕ → Bool) (x : Value) → Consistent v graph.now → option_map element_value (slice_get elements.now (number_of v bits.now)) ≡ Some x →
        discrete_value v d ≡ Some x) }
{
    let code = Items::from_slice(alloc, bits)?;
    Ok(Discrete {
        is_symbol: graph.constant(true),
        number: Items::new(alloc),
        symbols: Items::from_vec(symbols),
        code,
    })
}

fn with_integers(
    alloc: Global,
    graph: &mut Graph,
    elements: &[Element],
    bits: &[Edge],
) -> Result<Discrete, AllocError>
    requires { AllStand graph.old bits.now }
    ensures extends { Extends graph.old graph.new }
    ensures stands { IfOk result (λ d. DiscreteStands graph.new d) }
    ensures value { IfOk result (λ d. (v : ℕ → Bool) (x : Value) → Consistent v graph.new → option_map element_value (slice_get elements.now (number_of v bits.now)) ≡ Some x →
        discrete_value v d ≡ Some x) }
{
    match run_of(elements) {
        Some(row) => {
            let number = in_range(alloc, graph, row.low, row.high, bits)?;
            Ok(of_number(alloc, graph, number))
        }
        None => {
            let d = chosen(alloc, graph, elements, bits)?;
            Ok(d)
        }
    }
}

/// Integers in a row.
#[derive(Clone, Copy, Drop)]
pub struct Run {
    pub low: i64,
    pub high: i64,
}

/// The first and the last, where the elements are integers in a row.
pub fn run_of(elements: &[Element]) -> Option<Run>
    ensures run { IfSome result (λ r. IsRun r.low elements.now) }
    ensures high { IfSome result (λ r. r.high +ℤ pos 1 ≡ r.low +ℤ pos (length elements.now)) }
{
    if elements.is_empty() {
        return None;
    }
    let low = match elements[0] {
        Element::Int(z) => i64::from(z),
        Element::Sym(_) => return None,
    };
    'elements: for i in 0..elements.len() {
        if !is_integer(elements[i], low + i as i64) {
            return None;
        }
    }
    Some(Run {
        low,
        high: low + (elements.len() as i64 - 1),
    })
}

// Whether the element is this integer.
fn is_integer(e: Element, z: i64) -> bool
    ensures { IsTrue result → e ≡ Int z }
{
    match e {
        Element::Int(y) => i64::from(y) == z,
        Element::Sym(_) => false,
    }
}

// The value that is always an integer.
fn of_number(alloc: Global, graph: &Graph, number: Vec<Edge>) -> Discrete
    requires { AllStand graph.now number.items }
    ensures stands { DiscreteStands graph.now result }
    ensures value { (v : ℕ → Bool) → Consistent v graph.now → discrete_value v result ≡ Some (value.Int (integer_of v number.items)) }
{
    Discrete {
        is_symbol: graph.constant(false),
        number: Items::from_vec(number),
        symbols: Items::new(alloc),
        code: Items::new(alloc),
    }
}

// The value that is always this element.
fn of_element(alloc: Global, graph: &Graph, e: Element) -> Result<Discrete, AllocError>
    ensures stands { IfOk result (λ d. DiscreteStands graph.now d) }
    ensures value { IfOk result (λ d. (v : ℕ → Bool) → Consistent v graph.now → discrete_value v d ≡ Some (element_value e)) }
{
    match e {
        Element::Int(z) => {
            let number = integer_edges(alloc, graph, i64::from(z))?;
            Ok(of_number(alloc, graph, number))
        }
        Element::Sym(n) => {
            let d = of_symbol(alloc, graph, n)?;
            Ok(d)
        }
    }
}

fn of_symbol(alloc: Global, graph: &Graph, n: u32) -> Result<Discrete, AllocError>
    ensures stands { IfOk result (λ d. DiscreteStands graph.now d) }
    ensures value { IfOk result (λ d. (v : ℕ → Bool) → Consistent v graph.now → discrete_value v d ≡ Some (value.Sym n)) }
{
    let symbols = Items::from_slice(alloc, &[n])?;
    Ok(Discrete {
        is_symbol: graph.constant(true),
        number: Items::new(alloc),
        symbols,
        code: Items::new(alloc),
    })
}

// Element by element, where the code is its place.
fn chosen(
    alloc: Global,
    graph: &mut Graph,
    elements: &[Element],
    bits: &[Edge],
) -> Result<Discrete, AllocError>
    requires { AllStand graph.old bits.now }
    ensures extends { Extends graph.old graph.new }
    ensures stands { IfOk result (λ d. DiscreteStands graph.new d) }
    ensures value { IfOk result (λ d. (v : ℕ → Bool) (x : Value) → Consistent v graph.new → option_map element_value (slice_get elements.now (number_of v bits.now)) ≡ Some x →
        discrete_value v d ≡ Some x) }
{
    let mut made = of_number(alloc, graph, Vec::new(alloc));
    'elements: for i in 0..elements.len() {
        let next = with_element(alloc, graph, elements[i], i, bits, &made)?;
        made = next;
    }
    Ok(made)
}

// The element where the code is this place, else the other value.
fn with_element(
    alloc: Global,
    graph: &mut Graph,
    e: Element,
    place: usize,
    bits: &[Edge],
    other: &Discrete,
) -> Result<Discrete, AllocError>
    requires bits_stand { AllStand graph.old bits.now }
    requires other_stands { DiscreteStands graph.old other.now }
    ensures extends { Extends graph.old graph.new }
    ensures stands { IfOk result (λ d. DiscreteStands graph.new d) }
    ensures value { IfOk result (λ d. (v : ℕ → Bool) (x : Value) → Consistent v graph.new →
        (if number_of v bits.now == place then Some (element_value e) else discrete_value v other.now) ≡ Some x → discrete_value v d ≡ Some x) }
{
    let here = is_number(alloc, graph, bits, place as u128)?;
    let this = of_element(alloc, graph, e)?;
    let next = choose_discrete(alloc, graph, here, &this, other)?;
    Ok(next)
}
