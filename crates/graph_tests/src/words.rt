//! Tests of operators on words of three bits against plain arithmetic.

ghost use Rattle.std.specs.Prelude.{◌≡◌, ◌+◌, ◌≤◌, length, IfOk};
ghost use Rattle.bit_graph.specs.Meaning.{Stands};
ghost use Rattle.bit_arith.specs.Number.{AllStand};

use bit_arith::{add, compare, divide, multiply, negate, remainder, select, shift, subtract};
use bit_graph::{Edge, Graph, evaluate};
use std::alloc::{AllocError, Global};
use std::test::Fail;

#[derive(Clone, Copy, Debug, PartialEq, Eq)]
enum Operator {
    Add,
    Subtract,
    Multiply,
    Negate,
    Divide,
    DivideSigned,
    Remainder,
    RemainderSigned,
    ShiftLeft,
    ShiftRight,
    Select,
    Compare,
    CompareSigned,
}

const OPERATORS: [Operator; 13] = [
    Operator::Add,
    Operator::Subtract,
    Operator::Multiply,
    Operator::Negate,
    Operator::Divide,
    Operator::DivideSigned,
    Operator::Remainder,
    Operator::RemainderSigned,
    Operator::ShiftLeft,
    Operator::ShiftRight,
    Operator::Select,
    Operator::Compare,
    Operator::CompareSigned,
];

fn inputs(alloc: Global, graph: &Graph, from: usize) -> Result<Vec<Edge>, AllocError>
    requires { from + 3 ≤ length graph.now }
    ensures stand { IfOk result (λ r. AllStand graph.now r.items) }
    ensures length { IfOk result (λ r. length r.items ≡ 3) }
{
    let _size = graph.len();
    let mut made = Vec::new(alloc);
    'bits: for i in 0..3 {
        made.push(Edge::to(from + i))?;
    }
    Ok(made)
}

fn compared(
    alloc: Global,
    graph: &mut Graph,
    a: &[Edge],
    b: &[Edge],
    signed: bool,
) -> Result<Vec<Edge>, AllocError>
    requires lengths { length a.now ≡ length b.now }
    requires a_stand { AllStand graph.old a.now }
    requires b_stand { AllStand graph.old b.now }
{
    let (equal, less) = compare(graph, a, b, signed)?;
    Ok(vec![in alloc; equal, less]?)
}

fn build(
    alloc: Global,
    graph: &mut Graph,
    operator: Operator,
    a: &[Edge],
    b: &[Edge],
    c: Edge,
) -> Result<Vec<Edge>, AllocError>
    requires lengths { length a.now ≡ length b.now }
    requires a_stand { AllStand graph.old a.now }
    requires b_stand { AllStand graph.old b.now }
    requires c_stands { Stands graph.old c }
{
    match operator {
        Operator::Add => add(alloc, graph, a, b),
        Operator::Subtract => subtract(alloc, graph, a, b),
        Operator::Multiply => multiply(alloc, graph, a, b),
        Operator::Negate => negate(alloc, graph, a),
        Operator::Divide => divide(alloc, graph, a, b, false),
        Operator::DivideSigned => divide(alloc, graph, a, b, true),
        Operator::Remainder => remainder(alloc, graph, a, b, false),
        Operator::RemainderSigned => remainder(alloc, graph, a, b, true),
        Operator::ShiftLeft => shift(alloc, graph, a, b, true, c),
        Operator::ShiftRight => shift(alloc, graph, a, b, false, c),
        Operator::Select => select(alloc, graph, c, a, b),
        Operator::Compare => compared(alloc, graph, a, b, false),
        Operator::CompareSigned => compared(alloc, graph, a, b, true),
    }
}

fn bits_of(alloc: Global, operands: u8) -> Result<Vec<bool>, AllocError> {
    let mut values = Vec::new(alloc);
    for k in 0..7u8 {
        values.push(operands >> k & 1 != 0)?;
    }
    Ok(values)
}

fn known_of(alloc: Global, graph: &Graph, operands: u8) -> Result<Vec<bool>, AllocError> {
    let values = bits_of(alloc, operands)?;
    let known = evaluate(alloc, graph, &values);
    drop(values);
    known
}

fn value_of(known: &[bool], e: Edge) -> bool {
    match known.get(e.node) {
        Some(value) => *value != e.negated,
        None => false,
    }
}

fn number_of(known: &[bool], edges: &[Edge]) -> i32 {
    let mut number = 0i32;
    for e in edges.iter().rev() {
        let bit = value_of(known, *e);
        number = number.saturating_mul(2).saturating_add(i32::from(bit));
    }
    number
}

// What the graph's edges give for two words and a bit, which are the 7 bits of the operands.
fn found(alloc: Global, graph: &Graph, edges: &[Edge], operands: u8) -> Result<i32, AllocError> {
    let known = known_of(alloc, graph, operands)?;
    let number = number_of(&known, edges);
    drop(known);
    Ok(number)
}

fn signed(a: i32) -> i32 {
    if a >= 4 { a.saturating_sub(8) } else { a }
}

fn quotient(a: i32, b: i32) -> i32 {
    a.checked_div(b).unwrap_or(if a < 0 { 1 } else { -1 })
}

fn shifted(a: i32, places: i32, fill: bool, left: bool) -> i32 {
    let mut word = a;
    for _ in 0..places {
        word = if left {
            word.saturating_mul(2).saturating_add(i32::from(fill)) & 7
        } else {
            (word >> 1) | (if fill { 4 } else { 0 })
        };
    }
    word
}

// Plain arithmetic; of a comparison 1 where the operands are equal, and 2 more where the first is less.
fn expected(operator: Operator, a: i32, b: i32, c: bool) -> i32 {
    match operator {
        Operator::Add => a.saturating_add(b) & 7,
        Operator::Subtract => a.saturating_sub(b) & 7,
        Operator::Multiply => a.saturating_mul(b) & 7,
        Operator::Negate => 0i32.saturating_sub(a) & 7,
        Operator::Divide => quotient(a, b) & 7,
        Operator::DivideSigned => quotient(signed(a), signed(b)) & 7,
        Operator::Remainder => a.checked_rem(b).unwrap_or(a) & 7,
        Operator::RemainderSigned => signed(a).checked_rem(signed(b)).unwrap_or(a) & 7,
        Operator::ShiftLeft => shifted(a, b, c, true),
        Operator::ShiftRight => shifted(a, b, c, false),
        Operator::Select => { if c { a } else { b } }
        Operator::Compare => i32::from(a == b).saturating_add(if a < b { 2 } else { 0 }),
        Operator::CompareSigned => {
            i32::from(a == b).saturating_add(if signed(a) < signed(b) { 2 } else { 0 })
        }
    }
}

// The operands, two words of 3 bits and a bit, for which the operator's graph gives something else.
fn first_wrong(
    alloc: Global,
    graph: &Graph,
    edges: &[Edge],
    operator: Operator,
) -> Result<Option<u8>, AllocError> {
    for operands in 0..128u8 {
        let a = i32::from(operands & 7);
        let b = i32::from(operands >> 3 & 7);
        let want = expected(operator, a, b, operands >= 64);
        if found(alloc, graph, edges, operands)? != want {
            return Ok(Some(operands));
        }
    }
    Ok(None)
}

fn is_built(
    alloc: Global,
    graph: &mut Graph,
    operator: Operator,
    a: &[Edge],
    b: &[Edge],
) -> Result<bool, AllocError>
    requires lengths { length a.now ≡ length b.now }
    requires a_stand { AllStand graph.old a.now }
    requires b_stand { AllStand graph.old b.now }
    requires inputs { 7 ≤ length graph.old }
{
    let edges = build(alloc, graph, operator, a, b, Edge::to(6))?;
    let wrong = first_wrong(alloc, graph, &edges, operator);
    drop(edges);
    Ok(wrong?.is_none())
}

fn is_built_of(
    alloc: Global,
    graph: &mut Graph,
    operator: Operator,
    a: &[Edge],
) -> Result<bool, AllocError>
    requires length { length a.now ≡ 3 }
    requires stand { AllStand graph.old a.now }
    requires inputs { 7 ≤ length graph.old }
{
    let b = inputs(alloc, graph, 3)?;
    let answer = is_built(alloc, graph, operator, a, &b);
    drop(b);
    answer
}

fn is_right_in(alloc: Global, graph: &mut Graph, operator: Operator) -> Result<bool, AllocError>
    requires { 7 ≤ length graph.old }
{
    let a = inputs(alloc, graph, 0)?;
    let answer = is_built_of(alloc, graph, operator, &a);
    drop(a);
    answer
}

fn is_right(alloc: Global, operator: Operator) -> Result<bool, AllocError> {
    let mut graph = Graph::new(alloc, 7)?;
    let answer = is_right_in(alloc, &mut graph, operator);
    drop(graph);
    answer
}

fn first_wrong_operator(alloc: Global) -> Result<Option<Operator>, AllocError> {
    for operator in &OPERATORS {
        if !is_right(alloc, *operator)? {
            return Ok(Some(*operator));
        }
    }
    Ok(None)
}

#[test]
fn words_of_three_bits_are_as_in_plain_arithmetic(rt: HostRuntime) -> Result<(), Fail> {
    assert_eq!(rt; first_wrong_operator(rt.alloc())?, None);
    Ok(())
}
