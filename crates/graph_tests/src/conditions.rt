//! Tests of how many clauses and gates come of conditions of many shapes.

ghost use Rattle.std.specs.Prelude.{◌<◌, length, IfOk};
ghost use Rattle.bit_graph.specs.Growth.{Extends};
ghost use Rattle.bit_graph.specs.Meaning.{HasInputs, Stands};
ghost use Rattle.bit_clauses.specs.Asserted.{EithersStand};

use bit_clauses::{Decided, Defined, Either, ask, ask_same, decide, define};
use bit_graph::{Edge, Graph};
use std::alloc::{AllocError, Global};
use std::test::Fail;

#[derive(Clone, Copy, Debug, PartialEq, Eq)]
enum Shape {
    True,
    False,
    Input,
    Conjunction,
    LongConjunction,
    LongDisjunction,
    ExclusiveOr,
    Choice,
    ChoiceOfExclusiveOr,
}

// How many clauses and gates come of a shape that is to be true, and of one that is the next value of a variable.
struct Row {
    shape: Shape,
    is_next: bool,
    clauses: usize,
    gates: usize,
}

const ROWS: [Row; 18] = [
    Row {
        shape: Shape::True,
        is_next: false,
        clauses: 0,
        gates: 0,
    },
    Row {
        shape: Shape::False,
        is_next: false,
        clauses: 2,
        gates: 1,
    },
    Row {
        shape: Shape::Input,
        is_next: false,
        clauses: 1,
        gates: 0,
    },
    Row {
        shape: Shape::Conjunction,
        is_next: false,
        clauses: 2,
        gates: 0,
    },
    Row {
        shape: Shape::LongConjunction,
        is_next: false,
        clauses: 4,
        gates: 0,
    },
    Row {
        shape: Shape::LongDisjunction,
        is_next: false,
        clauses: 1,
        gates: 0,
    },
    Row {
        shape: Shape::ExclusiveOr,
        is_next: false,
        clauses: 2,
        gates: 0,
    },
    Row {
        shape: Shape::Choice,
        is_next: false,
        clauses: 2,
        gates: 0,
    },
    Row {
        shape: Shape::ChoiceOfExclusiveOr,
        is_next: false,
        clauses: 3,
        gates: 0,
    },
    Row {
        shape: Shape::True,
        is_next: true,
        clauses: 1,
        gates: 0,
    },
    Row {
        shape: Shape::False,
        is_next: true,
        clauses: 1,
        gates: 0,
    },
    Row {
        shape: Shape::Input,
        is_next: true,
        clauses: 2,
        gates: 0,
    },
    Row {
        shape: Shape::Conjunction,
        is_next: true,
        clauses: 3,
        gates: 0,
    },
    Row {
        shape: Shape::LongConjunction,
        is_next: true,
        clauses: 9,
        gates: 2,
    },
    Row {
        shape: Shape::LongDisjunction,
        is_next: true,
        clauses: 9,
        gates: 2,
    },
    Row {
        shape: Shape::ExclusiveOr,
        is_next: true,
        clauses: 4,
        gates: 0,
    },
    Row {
        shape: Shape::Choice,
        is_next: true,
        clauses: 4,
        gates: 0,
    },
    Row {
        shape: Shape::ChoiceOfExclusiveOr,
        is_next: true,
        clauses: 8,
        gates: 1,
    },
];

fn long_conjunction(graph: &mut Graph) -> Result<Edge, AllocError>
    requires { 5 < length graph.old }
    ensures extends { Extends graph.old graph.new }
    ensures stands { IfOk result (Stands graph.new) }
{
    let e = graph.and(Edge::to(1), Edge::to(2))?;
    let e = graph.and(e, Edge::to(3))?;
    graph.and(e, Edge::to(4))
}

fn long_disjunction(graph: &mut Graph) -> Result<Edge, AllocError>
    requires { 5 < length graph.old }
    ensures extends { Extends graph.old graph.new }
    ensures stands { IfOk result (Stands graph.new) }
{
    let e = graph.or(Edge::to(1), Edge::to(2))?;
    let e = graph.or(e, Edge::to(3))?;
    graph.or(e, Edge::to(4))
}

fn choice_of_exclusive_or(graph: &mut Graph) -> Result<Edge, AllocError>
    requires { 5 < length graph.old }
    ensures extends { Extends graph.old graph.new }
    ensures stands { IfOk result (Stands graph.new) }
{
    let e = graph.xor(Edge::to(1), Edge::to(2))?;
    graph.choose(Edge::to(3), e, Edge::to(4))
}

// The shape over inputs 1 to 4.
fn shaped(graph: &mut Graph, shape: Shape) -> Result<Edge, AllocError>
    requires { 5 < length graph.old }
    ensures extends { Extends graph.old graph.new }
    ensures stands { IfOk result (Stands graph.new) }
{
    match shape {
        Shape::True => Ok(graph.constant(true)),
        Shape::False => Ok(graph.constant(false)),
        Shape::Input => Ok(Edge::to(1)),
        Shape::Conjunction => graph.and(Edge::to(1), Edge::to(2)),
        Shape::LongConjunction => long_conjunction(graph),
        Shape::LongDisjunction => long_disjunction(graph),
        Shape::ExclusiveOr => graph.xor(Edge::to(1), Edge::to(2)),
        Shape::Choice => graph.choose(Edge::to(3), Edge::to(1), Edge::to(2)),
        Shape::ChoiceOfExclusiveOr => choice_of_exclusive_or(graph),
    }
}

fn ask_for(graph: &Graph, asked: &mut Vec<Either>, e: Edge, is_next: bool) -> Result<(), AllocError>
    requires first { 0 < length graph.now }
    requires e { Stands graph.now e }
    requires stand { EithersStand graph.now asked.old.items }
    ensures { IfOk result (λ _. EithersStand graph.now asked.new.items) }
{
    if is_next {
        ask_same(graph, asked, Edge::to(0), e)
    } else {
        ask(graph, asked, e)
    }
}

fn has_counts(made: &Decided, row: &Row) -> bool {
    made.clauses.len() == row.clauses && made.vars.checked_sub(7) == Some(row.gates)
}

fn is_decided(alloc: Global, graph: &Graph, asked: &[Either], row: &Row) -> Result<bool, AllocError>
    requires inputs { HasInputs 5 graph.now }
    requires stand { EithersStand graph.now asked.now }
{
    let made = decide(alloc, graph, 5, asked, 2)?;
    let answer = has_counts(&made, row);
    drop(made);
    Ok(answer)
}

fn is_asked(
    alloc: Global,
    graph: &Graph,
    asked: &mut Vec<Either>,
    e: Edge,
    row: &Row,
) -> Result<bool, AllocError>
    requires inputs { HasInputs 5 graph.now }
    requires first { 0 < length graph.now }
    requires e { Stands graph.now e }
    requires stand { EithersStand graph.now asked.old.items }
{
    ask_for(graph, asked, e, row.is_next)?;
    is_decided(alloc, graph, asked, row)
}

fn is_right_in(alloc: Global, graph: &mut Graph, row: &Row) -> Result<bool, AllocError>
    requires inputs { HasInputs 5 graph.old }
    requires length { 5 < length graph.old }
{
    let e = shaped(graph, row.shape)?;
    let mut asked = Vec::new(alloc);
    let answer = is_asked(alloc, graph, &mut asked, e, row);
    drop(asked);
    answer
}

fn is_right(alloc: Global, row: &Row) -> Result<bool, AllocError> {
    let mut graph = Graph::new(alloc, 5)?;
    let answer = is_right_in(alloc, &mut graph, row);
    drop(graph);
    answer
}

fn first_wrong(alloc: Global) -> Result<Option<Shape>, AllocError> {
    for row in &ROWS {
        if !is_right(alloc, row)? {
            return Ok(Some(row.shape));
        }
    }
    Ok(None)
}

#[test]
fn few_clauses_come_of_conditions(rt: HostRuntime) -> Result<(), Fail> {
    assert_eq!(rt; first_wrong(rt.alloc())?, None);
    Ok(())
}

fn has_definitions(made: &Defined) -> bool {
    made.vars == 10 && made.clauses.len() == 10 && made.literals.as_slice().len() == 2
}

fn is_defined_in(alloc: Global, graph: &mut Graph) -> Result<bool, AllocError>
    requires inputs { HasInputs 5 graph.old }
    requires length { 5 < length graph.old }
{
    let e = choice_of_exclusive_or(graph)?;
    let made = define(alloc, graph, 5, &[e, Edge::to(0)], 3)?;
    let answer = has_definitions(&made);
    drop(made);
    Ok(answer)
}

fn is_defined(alloc: Global) -> Result<bool, AllocError> {
    let mut graph = Graph::new(alloc, 5)?;
    let answer = is_defined_in(alloc, &mut graph);
    drop(graph);
    answer
}

#[test]
fn edges_are_defined_by_their_gates(rt: HostRuntime) -> Result<(), Fail> {
    assert!(rt; is_defined(rt.alloc())?);
    Ok(())
}
