//! What items ask of outcomes, as edges.

ghost use Rattle.std.specs.Prelude.{◌≡◌, List, ℕ, Bool, All, IfOk, IsTrue, Some, true};
ghost use Rattle.std.specs.List.{list_all, list_any};
ghost use Rattle.std.specs.Option.{is_some};
ghost use Rattle.bit_graph.specs.declared.edge.GraphNode.{GraphNode};
ghost use Rattle.bit_graph.specs.Growth.{Extends};
ghost use Rattle.bit_graph.specs.Meaning.{Consistent, Stands, edge_value};
ghost use Rattle.value_types.specs.Types.{is_of_type, is_type};
ghost use Rattle.value_sets.specs.Members.{run};
ghost use Rattle.smv_meaning.specs.declared.outcome.Evaluation.{Evaluation};
ghost use Rattle.smv_meaning.specs.Faults.{is_outside};
ghost use Rattle.smv_meaning.specs.Formulas.{fault_in};
ghost use Rattle.smv_meaning.specs.Runs.{is_given, is_true, takes};
ghost use Rattle.bit_operators.specs.Denoting.{StandsIn};
ghost use Rattle.bit_outcomes.specs.Telling.{IsThere, MemberStands, MembersStand, Tells, TellsOne, ToldStands};
ghost use Rattle.bit_outcomes.specs.Asked.{is_false, is_out};

use crate::members::{among, as_row};
use crate::told::{Member, Told, Which};
use bit_choices::is_in_type;
use bit_graph::{Edge, Graph};
use bit_operators::Symbolic;
use std::alloc::{AllocError, Global};
use value_sets::ValueSet;
use value_types::ValueType;

/// The edge that is true where the variable has a value of the expression. Out of memory is answered too where the
/// variable has no one value, or nothing is told.
pub fn takes_edge(alloc: Global, graph: &mut Graph, x: &Told, e: &Told) -> Result<Edge, AllocError>
    requires x_stands { ToldStands graph.old x.now }
    requires e_stands { ToldStands graph.old e.now }
    ensures extends { Extends graph.old graph.new }
    ensures stands { IfOk result (λ r. Stands graph.new r) }
    ensures value { IfOk result (λ r. (v : ℕ → Bool) (p q : Evaluation) → Consistent v graph.new → Tells v x.now p → Tells v e.now q → is_given p ≡ true → is_given q ≡ true →
        edge_value v r ≡ takes p q) }
{
    match x {
        Told::One(f, value) => {
            let edge = takes_value(alloc, graph, *f, value, e)?;
            Ok(edge)
        }
        Told::Untold => Err(AllocError),
        Told::Set(..) => Err(AllocError),
    }
}

fn takes_value(
    alloc: Global,
    graph: &mut Graph,
    f: Edge,
    x: &Symbolic,
    e: &Told,
) -> Result<Edge, AllocError>
    requires f_stands { Stands graph.old f }
    requires x_stands { StandsIn graph.old x.now }
    requires e_stands { ToldStands graph.old e.now }
    ensures extends { Extends graph.old graph.new }
    ensures stands { IfOk result (λ r. Stands graph.new r) }
    ensures value { IfOk result (λ r. (v : ℕ → Bool) (p q : Evaluation) → Consistent v graph.new → TellsOne v f x.now p → Tells v e.now q → is_given p ≡ true → is_given q ≡ true →
        edge_value v r ≡ takes p q) }
{
    match as_row(alloc, graph, e)? {
        Some(row) => {
            let any = among(alloc, graph, x, row.members.as_slice())?;
            let failed = graph.or(f, row.fault)?;
            let edge = graph.and(failed.negation(), any)?;
            Ok(edge)
        }
        None => Err(AllocError),
    }
}

/// The edge that is true where the outcome is TRUE, as no word, integer or symbol is. Out of memory is answered too
/// where it is told as a set, or nothing is told.
pub fn true_edge(graph: &mut Graph, e: &Told) -> Result<Edge, AllocError>
    requires { ToldStands graph.old e.now }
    ensures extends { Extends graph.old graph.new }
    ensures stands { IfOk result (λ r. Stands graph.new r) }
    ensures value { IfOk result (λ r. (v : ℕ → Bool) (o : Evaluation) → Consistent v graph.new → Tells v e.now o → is_given o ≡ true → edge_value v r ≡ is_true o) }
{
    match e {
        Told::One(f, value) => match value {
            Symbolic::Boolean(b) => {
                let edge = graph.and(f.negation(), *b)?;
                Ok(edge)
            }
            Symbolic::Word { .. } => Ok(graph.constant(false)),
            Symbolic::Discrete(_) => Ok(graph.constant(false)),
        },
        Told::Untold => Err(AllocError),
        Told::Set(..) => Err(AllocError),
    }
}

/// The edge that is true where the outcome is FALSE; the answers are as of `true_edge`.
pub fn false_edge(graph: &mut Graph, e: &Told) -> Result<Edge, AllocError>
    requires { ToldStands graph.old e.now }
    ensures extends { Extends graph.old graph.new }
    ensures stands { IfOk result (λ r. Stands graph.new r) }
    ensures value { IfOk result (λ r. (v : ℕ → Bool) (o : Evaluation) → Consistent v graph.new → Tells v e.now o → is_given o ≡ true → edge_value v r ≡ is_false o) }
{
    match e {
        Told::One(f, value) => match value {
            Symbolic::Boolean(b) => {
                let given = f.negation();
                let other = b.negation();
                let edge = graph.and(given, other)?;
                Ok(edge)
            }
            Symbolic::Word { .. } => Ok(graph.constant(false)),
            Symbolic::Discrete(_) => Ok(graph.constant(false)),
        },
        Told::Untold => Err(AllocError),
        Told::Set(..) => Err(AllocError),
    }
}

/// The edge that is true where the outcome is a fault. Out of memory is answered where nothing is told.
pub fn fault_edge(e: &Told) -> Result<Edge, AllocError>
    ensures stands { IfOk result (λ r. (g : List GraphNode) → ToldStands g e.now → Stands g r) }
    ensures value { IfOk result (λ r. (v : ℕ → Bool) (o : Evaluation) → Tells v e.now o → is_given o ≡ true → edge_value v r ≡ is_some (fault_in o)) }
{
    match e {
        Told::One(f, _) => Ok(*f),
        Told::Set(f, _) => Ok(*f),
        Told::Untold => Err(AllocError),
    }
}

/// The edge that is true where some value is none of the type. Out of memory is answered too where nothing is told.
pub fn outside_edge(
    alloc: Global,
    graph: &mut Graph,
    declared: &ValueType,
    e: &Told,
) -> Result<Edge, AllocError>
    requires declared { IsTrue (is_type declared.now) }
    requires stands { ToldStands graph.old e.now }
    ensures extends { Extends graph.old graph.new }
    ensures stands { IfOk result (λ r. Stands graph.new r) }
    ensures value { IfOk result (λ r. (v : ℕ → Bool) (o : Evaluation) → Consistent v graph.new → Tells v e.now o → is_given o ≡ true → edge_value v r ≡ is_outside (Some declared.now) o) }
{
    match as_row(alloc, graph, e)? {
        Some(row) => {
            let any = some_outside(alloc, graph, declared, row.members.as_slice())?;
            let edge = graph.and(row.fault.negation(), any)?;
            Ok(edge)
        }
        None => Err(AllocError),
    }
}

// The edge that is true where some member is none of the type.
fn some_outside(
    alloc: Global,
    graph: &mut Graph,
    declared: &ValueType,
    members: &[Member],
) -> Result<Edge, AllocError>
    requires declared { IsTrue (is_type declared.now) }
    requires stand { MembersStand graph.old members.now }
    ensures extends { Extends graph.old graph.new }
    ensures stands { IfOk result (λ r. Stands graph.new r) }
    ensures value { IfOk result (λ r. (v : ℕ → Bool) → Consistent v graph.new → All (IsThere v) members.now → edge_value v r ≡ list_any (is_out v declared.now) members.now) }
{
    let mut any = graph.constant(false);
    'members: for i in 0..members.len() {
        let out = is_out(alloc, graph, declared, &members[i])?;
        let more = graph.or(any, out)?;
        any = more;
    }
    Ok(any)
}

fn is_out(
    alloc: Global,
    graph: &mut Graph,
    declared: &ValueType,
    member: &Member,
) -> Result<Edge, AllocError>
    requires declared { IsTrue (is_type declared.now) }
    requires stands { MemberStands graph.old member.now }
    ensures extends { Extends graph.old graph.new }
    ensures stands { IfOk result (λ r. Stands graph.new r) }
    ensures value { IfOk result (λ r. (v : ℕ → Bool) → Consistent v graph.new → IsThere v member.now → edge_value v r ≡ is_out v declared.now member.now) }
{
    match &member.which {
        Which::Value(value) => {
            let within = is_in_type(alloc, graph, declared, value)?;
            let out = graph.and(member.present, within.negation())?;
            Ok(out)
        }
        Which::Run(low, high) => {
            let within = run_in_type(alloc, declared, *low, *high)?;
            let out = graph.and(member.present, graph.constant(!within))?;
            Ok(out)
        }
    }
}

fn run_in_type(alloc: Global, declared: &ValueType, low: i64, high: i64) -> Result<bool, AllocError>
    ensures { IfOk result (λ b. b ≡ list_all (λ w. is_of_type w declared.now) (run low high)) }
{
    let integers = ValueSet::range(alloc, low, high)?;
    Ok(integers.is_of(declared))
}
