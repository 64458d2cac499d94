//! Which values are of a type.

ghost use Rattle.std.specs.Prelude.{◌≡◌, ℕ, Bool, IfOk, IsTrue, Some, not, slice_get, ◌==◌, ◌&&◌, ◌||◌};
ghost use Rattle.std.specs.List.{list_any};
ghost use Rattle.bit_graph.specs.Meaning.{Consistent, Denotes, Stands, edge_value};
ghost use Rattle.bit_graph.specs.Growth.{Extends};
ghost use Rattle.bit_arith.specs.Number.{AllStand, number_of};
ghost use Rattle.smv_value.specs.declared.value.Value.{Value};
ghost use Rattle.smv_value.specs.declared.value.Value.TheVariants.{Int, Sym};
ghost use Rattle.smv_value.specs.Results.{is_width};
ghost use Rattle.value_types.specs.Types.{is_boolean, is_element, is_of_type, is_type, is_word_of};
ghost use Rattle.bit_operators.specs.Denoting.{DiscreteStands, StandsIn, denoted, discrete_value, integer_of};

use crate::enumerations::run_of;
use bit_graph::{Edge, Graph};
use bit_numbers::{between, equal_integers, integer_edges, is_between, is_number};
use bit_operators::{Discrete, Symbolic};
use std::alloc::{AllocError, Global};
use value_types::{Element, ValueType};

/// The edge that is true where the value is one of the type. The only error is running out of memory.
///
/// It is a constant where the kinds are enough to tell. A symbol costs a gate only if the value may be one that is not
/// of the type.
pub fn is_in_type(
    alloc: Global,
    graph: &mut Graph,
    declared: &ValueType,
    a: &Symbolic,
) -> Result<Edge, AllocError>
    requires declared { IsTrue (is_type declared.now) }
    requires stands { StandsIn graph.old a.now }
    ensures extends { Extends graph.old graph.new }
    ensures stands { IfOk result (λ e. Stands graph.new e) }
    ensures value { IfOk result (λ e. (v : ℕ → Bool) (x : Value) → Consistent v graph.new → denoted v a.now ≡ Some x →
        edge_value v e ≡ is_of_type x declared.now) }
{
    match declared {
        ValueType::Boolean => Ok(graph.constant(is_boolean(a))),
        ValueType::Word { signed, width } => Ok(graph.constant(is_word_of(*signed, *width, a))),
        ValueType::Range { low, high } => {
            let e = is_between(alloc, graph, i64::from(*low), i64::from(*high), a)?;
            Ok(e)
        }
        ValueType::Enumeration(elements) => {
            let e = is_element_of(alloc, graph, elements.as_slice(), a)?;
            Ok(e)
        }
    }
}

fn is_element_of(
    alloc: Global,
    graph: &mut Graph,
    elements: &[Element],
    a: &Symbolic,
) -> Result<Edge, AllocError>
    requires { StandsIn graph.old a.now }
    ensures extends { Extends graph.old graph.new }
    ensures stands { IfOk result (λ e. Stands graph.new e) }
    ensures value { IfOk result (λ e. (v : ℕ → Bool) (x : Value) → Consistent v graph.new → denoted v a.now ≡ Some x → edge_value v e ≡ list_any (is_element x) elements.now) }
{
    match a {
        Symbolic::Discrete(d) => {
            let e = is_among(alloc, graph, elements, d)?;
            Ok(e)
        }
        Symbolic::Boolean(_) => Ok(graph.constant(false)),
        Symbolic::Word { .. } => Ok(graph.constant(false)),
    }
}

fn is_boolean(a: &Symbolic) -> bool
    ensures { (v : ℕ → Bool) (x : Value) → denoted v a.now ≡ Some x → result ≡ is_boolean x }
{
    match a {
        Symbolic::Boolean(_) => true,
        Symbolic::Word { .. } | Symbolic::Discrete(_) => false,
    }
}

fn is_word_of(signed: bool, width: u32, a: &Symbolic) -> bool
    requires { IsTrue (is_width width) }
    ensures { (v : ℕ → Bool) (x : Value) → denoted v a.now ≡ Some x → result ≡ is_word_of signed width x }
{
    match a {
        Symbolic::Word {
            signed: its_sign,
            bits,
        } => signed == *its_sign && width as usize == bits.len(),
        Symbolic::Boolean(_) | Symbolic::Discrete(_) => false,
    }
}

fn is_among(
    alloc: Global,
    graph: &mut Graph,
    elements: &[Element],
    d: &Discrete,
) -> Result<Edge, AllocError>
    requires { DiscreteStands graph.old d.now }
    ensures extends { Extends graph.old graph.new }
    ensures stands { IfOk result (λ e. Stands graph.new e) }
    ensures value { IfOk result (λ e. (v : ℕ → Bool) (x : Value) → Consistent v graph.new → discrete_value v d.now ≡ Some x → edge_value v e ≡ list_any (is_element x) elements.now) }
{
    let outside = is_other_symbol(
        alloc,
        graph,
        elements,
        d.symbols.as_slice(),
        d.code.as_slice(),
    )?;
    let number = is_among_integers(alloc, graph, elements, d.number.as_slice())?;
    let among = graph.choose(d.is_symbol, outside.negation(), number)?;
    Ok(among)
}

// The edge that is true where the symbol of the code is none of the elements.
fn is_other_symbol(
    alloc: Global,
    graph: &mut Graph,
    elements: &[Element],
    symbols: &[u32],
    code: &[Edge],
) -> Result<Edge, AllocError>
    requires { AllStand graph.old code.now }
    ensures extends { Extends graph.old graph.new }
    ensures stands { IfOk result (λ e. Stands graph.new e) }
    ensures value { IfOk result (λ e. (v : ℕ → Bool) (s : ℕ) → Consistent v graph.new → slice_get symbols.now (number_of v code.now) ≡ Some s →
        edge_value v e ≡ not (list_any (is_element (Sym s)) elements.now)) }
{
    let mut other = graph.constant(false);
    'symbols: for j in 0..symbols.len() {
        let more = or_other(alloc, graph, elements, symbols[j], j, code, other)?;
        other = more;
    }
    Ok(other)
}

// The edge, or, if the symbol is none of the elements, where the code is its place.
fn or_other(
    alloc: Global,
    graph: &mut Graph,
    elements: &[Element],
    symbol: u32,
    place: usize,
    code: &[Edge],
    other: Edge,
) -> Result<Edge, AllocError>
    requires code_stands { AllStand graph.old code.now }
    requires other_stands { Stands graph.old other }
    ensures extends { Extends graph.old graph.new }
    ensures stands { IfOk result (λ e. Stands graph.new e) }
    ensures value { IfOk result (λ e. Denotes graph.new e (λ v. edge_value v other || (number_of v code.now == place && not (list_any (is_element (Sym symbol)) elements.now)))) }
{
    if is_symbol_of(elements, symbol) {
        Ok(other)
    } else {
        let here = is_number(alloc, graph, code, place as u128)?;
        let more = graph.or(other, here)?;
        Ok(more)
    }
}

fn is_symbol_of(elements: &[Element], symbol: u32) -> bool
    ensures { result ≡ list_any (is_element (Sym symbol)) elements.now }
{
    elements.iter().any(|e| is_this_symbol(*e, symbol))
}

fn is_this_symbol(e: Element, symbol: u32) -> bool
    ensures { result ≡ is_element (Sym symbol) e }
{
    match e {
        Element::Sym(n) => symbol == n,
        Element::Int(_) => false,
    }
}

fn is_among_integers(
    alloc: Global,
    graph: &mut Graph,
    elements: &[Element],
    number: &[Edge],
) -> Result<Edge, AllocError>
    requires { AllStand graph.old number.now }
    ensures extends { Extends graph.old graph.new }
    ensures stands { IfOk result (λ e. Stands graph.new e) }
    ensures value { IfOk result (λ e. Denotes graph.new e (λ v. list_any (is_element (Int (integer_of v number.now))) elements.now)) }
{
    match run_of(elements) {
        Some(row) => {
            let within = between(alloc, graph, number, row.low, row.high)?;
            Ok(within)
        }
        None => {
            let any = is_one_of(alloc, graph, elements, number)?;
            Ok(any)
        }
    }
}

// Element by element.
fn is_one_of(
    alloc: Global,
    graph: &mut Graph,
    elements: &[Element],
    number: &[Edge],
) -> Result<Edge, AllocError>
    requires { AllStand graph.old number.now }
    ensures extends { Extends graph.old graph.new }
    ensures stands { IfOk result (λ e. Stands graph.new e) }
    ensures value { IfOk result (λ e. Denotes graph.new e (λ v. list_any (is_element (Int (integer_of v number.now))) elements.now)) }
{
    let mut any = graph.constant(false);
    'elements: for i in 0..elements.len() {
        let same = is_integer_of(alloc, graph, elements[i], number)?;
        let more = graph.or(any, same)?;
        any = more;
    }
    Ok(any)
}

fn is_integer_of(
    alloc: Global,
    graph: &mut Graph,
    e: Element,
    number: &[Edge],
) -> Result<Edge, AllocError>
    requires { AllStand graph.old number.now }
    ensures extends { Extends graph.old graph.new }
    ensures stands { IfOk result (λ r. Stands graph.new r) }
    ensures value { IfOk result (λ r. Denotes graph.new r (λ v. is_element (Int (integer_of v number.now)) e)) }
{
    match e {
        Element::Int(z) => {
            let edges = integer_edges(alloc, graph, i64::from(z))?;
            let same = equal_integers(alloc, graph, number, &edges)?;
            Ok(same)
        }
        Element::Sym(_) => Ok(graph.constant(false)),
    }
}
