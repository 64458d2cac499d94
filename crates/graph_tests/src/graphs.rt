//! Tests of gates: their values under all assignments, and that equal gates are shared.

ghost use Rattle.std.specs.Prelude.{◌≡◌, ◌<◌, ◌≤◌, length};

use bit_graph::{Edge, Graph, evaluate};
use std::alloc::{AllocError, Global};
use std::test::Fail;

#[derive(Clone, Copy, Debug, PartialEq, Eq)]
enum Gate {
    And,
    Or,
    Xor,
    Choice,
}

// Of a graph with three inputs: the edges to these and to the constant, and from 4 on their negations.
fn edge(number: u8) -> Edge
    ensures { result.node < 4 }
{
    Edge {
        node: usize::from(number % 4),
        negated: number >= 4,
    }
}

// The values of the inputs, of the constant and of their negations at the 8 assignments, a bit for each.
fn truth(number: u8) -> u8 {
    let at = match number % 4 {
        0 => 0xaa,
        1 => 0xcc,
        2 => 0xf0,
        _ => 0,
    };
    if number >= 4 { !at } else { at }
}

fn expected(gate: Gate, a: u8, b: u8, c: u8) -> u8 {
    match gate {
        Gate::And => a & b,
        Gate::Or => a | b,
        Gate::Xor => a ^ b,
        Gate::Choice => (a & b) | (!a & c),
    }
}

// How many of the three inputs such values depend on.
fn inputs_read(truth: u8) -> u8 {
    u8::from((truth ^ (truth >> 1)) & 0x55 != 0)
        + u8::from((truth ^ (truth >> 2)) & 0x33 != 0)
        + u8::from((truth ^ (truth >> 4)) & 0x0f != 0)
}

fn made(graph: &mut Graph, gate: Gate, a: Edge, b: Edge, c: Edge) -> Result<Edge, AllocError>
    requires a { a.node < length graph.old }
    requires b { b.node < length graph.old }
    requires c { c.node < length graph.old }
    ensures { length graph.old ≤ length graph.new }
{
    match gate {
        Gate::And => graph.and(a, b),
        Gate::Or => graph.or(a, b),
        Gate::Xor => graph.xor(a, b),
        Gate::Choice => graph.choose(a, b, c),
    }
}

fn value_of(known: &[bool], e: Edge) -> bool {
    match known.get(e.node) {
        Some(value) => *value != e.negated,
        None => false,
    }
}

// The edge's value where the inputs have the bits of this number.
fn value_at(alloc: Global, graph: &Graph, e: Edge, k: u8) -> Result<bool, AllocError> {
    let known = evaluate(alloc, graph, &[k & 1 != 0, k & 2 != 0, k & 4 != 0])?;
    let value = value_of(&known, e);
    drop(known);
    Ok(value)
}

fn has_values(alloc: Global, graph: &Graph, e: Edge, want: u8) -> Result<bool, AllocError> {
    for k in 0..8u8 {
        if value_at(alloc, graph, e, k)? != (want >> k & 1 != 0) {
            return Ok(false);
        }
    }
    Ok(true)
}

// Whether a gate over the three inputs has its values, is made just where these depend on two inputs, and made again is
// the same.
fn is_made(
    alloc: Global,
    graph: &mut Graph,
    gate: Gate,
    a: u8,
    b: u8,
    c: u8,
) -> Result<bool, AllocError>
    requires { length graph.old ≡ 4 }
{
    let first = made(graph, gate, edge(a), edge(b), edge(c))?;
    let gates = graph.len();
    let second = made(graph, gate, edge(a), edge(b), edge(c))?;
    let want = expected(gate, truth(a), truth(b), truth(c));
    let count = if inputs_read(want) > 1 { 5 } else { 4 };
    let same = first == second && gates == count && graph.len() == count;
    Ok(same && has_values(alloc, graph, first, want)?)
}

fn is_made_in(
    alloc: Global,
    graph: &mut Graph,
    gate: Gate,
    a: u8,
    b: u8,
    c: u8,
) -> Result<bool, AllocError> {
    if graph.len() != 4 || graph.is_empty() {
        return Ok(false);
    }
    is_made(alloc, graph, gate, a, b, c)
}

fn is_right(alloc: Global, gate: Gate, a: u8, b: u8, c: u8) -> Result<bool, AllocError> {
    let mut graph = Graph::new(alloc, 3)?;
    let answer = is_made_in(alloc, &mut graph, gate, a, b, c);
    drop(graph);
    answer
}

// The three operands of which the gate is wrong.
fn first_wrong(alloc: Global, gate: Gate) -> Result<Option<(u8, u8, u8)>, AllocError> {
    for number in 0..512u16 {
        let a = (number % 8) as u8;
        let b = (number / 8 % 8) as u8;
        let c = (number / 64) as u8;
        if !is_right(alloc, gate, a, b, c)? {
            return Ok(Some((a, b, c)));
        }
    }
    Ok(None)
}

const GATES: [Gate; 4] = [Gate::And, Gate::Or, Gate::Xor, Gate::Choice];

fn wrong_gate(alloc: Global) -> Result<Option<Gate>, AllocError> {
    for gate in &GATES {
        if first_wrong(alloc, *gate)?.is_some() {
            return Ok(Some(*gate));
        }
    }
    Ok(None)
}

#[test]
fn gates_are_made_where_two_inputs_matter(rt: HostRuntime) -> Result<(), Fail> {
    assert_eq!(rt; wrong_gate(rt.alloc())?, None);
    Ok(())
}

const X: Edge = Edge {
    node: 0,
    negated: false,
};

const Y: Edge = Edge {
    node: 1,
    negated: false,
};

const Z: Edge = Edge {
    node: 2,
    negated: false,
};

// A gate of each kind.
#[derive(Clone, Copy)]
struct Kinds {
    both: Edge,
    apart: Edge,
    chosen: Edge,
}

fn one_of_each(graph: &mut Graph) -> Result<Kinds, AllocError>
    requires { 2 < length graph.old }
    ensures { length graph.old ≤ length graph.new }
{
    let both = graph.and(X, Y)?;
    let apart = graph.xor(X, Y)?;
    let chosen = graph.choose(X, Y, Z)?;
    Ok(Kinds {
        both,
        apart,
        chosen,
    })
}

// Whether calls with the operands in another order, or with other signs, give the same gates.
fn are_same(graph: &mut Graph, made: Kinds) -> Result<bool, AllocError>
    requires { 2 < length graph.old }
{
    let both = graph.and(Y, X)?;
    let apart = graph.xor(Y, X.negation())?;
    let turned = graph.choose(X.negation(), Z, Y)?;
    let opposite = graph.choose(X, Y.negation(), Z.negation())?;
    Ok(
        both == made.both
            && apart == made.apart.negation()
            && turned == made.chosen
            && opposite == made.chosen.negation(),
    )
}

fn are_each_shared(graph: &mut Graph) -> Result<bool, AllocError>
    requires { 2 < length graph.old }
{
    let made = one_of_each(graph)?;
    let size = graph.len();
    let same = are_same(graph, made)?;
    graph.one_way();
    graph.reduced();
    Ok(same && size == 7 && graph.len() == 7)
}

fn are_shared(alloc: Global) -> Result<bool, AllocError> {
    let mut graph = Graph::new(alloc, 3)?;
    let answer = are_each_shared(&mut graph);
    drop(graph);
    answer
}

#[test]
fn equal_gates_are_one(rt: HostRuntime) -> Result<(), Fail> {
    assert!(rt; are_shared(rt.alloc())?);
    Ok(())
}

fn knows_constants(graph: &Graph) -> bool
    requires { 0 < length graph.now }
{
    graph.as_constant(graph.constant(true)) == Some(true)
        && graph.as_constant(graph.constant(false)) == Some(false)
        && graph.as_constant(Edge::to(0)).is_none()
}

fn are_known(alloc: Global) -> Result<bool, AllocError> {
    let graph = Graph::new(alloc, 1)?;
    let answer = knows_constants(&graph);
    drop(graph);
    Ok(answer)
}

#[test]
fn constants_are_known(rt: HostRuntime) -> Result<(), Fail> {
    assert!(rt; are_known(rt.alloc())?);
    Ok(())
}
