//! Tests of a graph's clauses: they hold just where each variable has its node's value.

ghost use Rattle.std.specs.Prelude.{◌<◌, length, IfOk};
ghost use Rattle.bit_graph.specs.Meaning.{Stands};

use bit_graph::{Edge, Graph, evaluate};
use clause_core::{Clauses, Lit};
use cnf_build::{Cnf, clauses};
use std::alloc::{AllocError, Global};
use std::test::Fail;

fn is_met(clause: &[Lit], values: &[bool]) -> bool {
    for l in clause {
        if let Some(value) = values.get(l.var) {
            if *value == l.positive {
                return true;
            }
        }
    }
    false
}

fn all_met(clauses: &Clauses, values: &[bool]) -> bool {
    for k in 0..clauses.len() {
        if !is_met(clauses.get(k), values) {
            return false;
        }
    }
    true
}

fn bits(alloc: Global, size: usize, number: u32) -> Result<Vec<bool>, AllocError> {
    let mut bits = Vec::new(alloc);
    let mut rest = number;
    for _ in 0..size {
        bits.push(rest % 2 == 1)?;
        rest /= 2;
    }
    Ok(bits)
}

// The node of each variable below.
const NODES: [usize; 8] = [0, 1, 2, 3, 4, 6, 7, 8];

fn is_value(value: Option<&bool>, known: Option<&bool>) -> bool {
    match (value, known) {
        (Some(value), Some(known)) => *value == *known,
        _ => false,
    }
}

// Whether the variables have the values of their nodes.
fn are_values(values: &[bool], known: &[bool]) -> bool {
    for (k, node) in NODES.iter().enumerate() {
        if !is_value(values.get(k), known.get(*node)) {
            return false;
        }
    }
    true
}

// Whether the clauses hold just where the values are those of the nodes.
fn is_right_at(
    alloc: Global,
    graph: &Graph,
    cnf: &Cnf,
    values: &[bool],
) -> Result<bool, AllocError> {
    let known = evaluate(alloc, graph, values)?;
    let answer = all_met(&cnf.clauses, values) == are_values(values, &known);
    drop(known);
    Ok(answer)
}

fn is_right(alloc: Global, graph: &Graph, cnf: &Cnf, number: u32) -> Result<bool, AllocError> {
    let values = bits(alloc, 8, number)?;
    let answer = is_right_at(alloc, graph, cnf, &values);
    drop(values);
    answer
}

fn first_wrong(alloc: Global, graph: &Graph, cnf: &Cnf) -> Result<Option<u32>, AllocError> {
    for number in 0..256u32 {
        if !is_right(alloc, graph, cnf, number)? {
            return Ok(Some(number));
        }
    }
    Ok(None)
}

// Nodes 0 to 3 are inputs, 4 the constant, 5 a conjunction that no root reaches, 6 an exclusive or, 7 a conjunction,
// and 8 a choice.
fn grow(graph: &mut Graph) -> Result<Edge, AllocError>
    requires { 3 < length graph.old }
    ensures { IfOk result (Stands graph.new) }
{
    graph.and(Edge::to(0), Edge::to(1))?;
    let apart = graph.xor(Edge::to(0), Edge::to(1))?;
    let both = graph.and(Edge::to(1), Edge::to(2).negation())?;
    graph.choose(Edge::to(2), apart, both.negation())
}

fn has_sizes(graph: &Graph, cnf: &Cnf) -> bool {
    graph.len() == 9 && cnf.vars == 8 && cnf.clauses.len() == 14
}

fn has_roots(cnf: &Cnf, chosen: Edge) -> bool {
    let roots = [Lit::new(7, chosen.negated), Lit::new(4, false)];
    cnf.roots.as_slice() == roots.as_slice()
}

// Whether the clauses of the choice's negation and of the true constant are as told here.
fn are_right_in(alloc: Global, graph: &mut Graph) -> Result<bool, AllocError>
    requires { 3 < length graph.old }
{
    let chosen = grow(graph)?;
    let yes = graph.constant(true);
    let cnf = clauses(alloc, graph, &[chosen.negation(), yes])?;
    let sizes = has_sizes(graph, &cnf);
    let roots = has_roots(&cnf, chosen);
    let wrong = first_wrong(alloc, graph, &cnf);
    drop(cnf);
    Ok(sizes && roots && wrong?.is_none())
}

fn are_right(alloc: Global) -> Result<bool, AllocError> {
    let mut graph = Graph::new(alloc, 4)?;
    let answer = are_right_in(alloc, &mut graph);
    drop(graph);
    answer
}

#[test]
fn clauses_hold_just_where_each_variable_has_its_nodes_value(rt: HostRuntime) -> Result<(), Fail> {
    assert!(rt; are_right(rt.alloc())?);
    Ok(())
}
