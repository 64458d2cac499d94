//! Conditions and branches.

ghost use Rattle.std.specs.Prelude.{◌≡◌, ◌≤◌, ◌*◌, ◌/◌, ◌||◌, ℕ, Bool, List, IfOk, IfSome, IsTrue, Some, drop, false, if◌then◌else◌, length, true};
ghost use Rattle.bit_graph.specs.Growth.{Extends};
ghost use Rattle.bit_graph.specs.Meaning.{Consistent, Denotes, Stands, edge_value};
ghost use Rattle.smv_tree.specs.declared.place.Place.{Place};
ghost use Rattle.smv_value.specs.declared.value.FaultRule.{FaultRule};
ghost use Rattle.smv_value.specs.declared.value.Value.{Value};
ghost use Rattle.smv_meaning.specs.declared.outcome.Evaluation.{Evaluation};
ghost use Rattle.smv_meaning.specs.declared.outcome.Evaluation.TheVariants.{Fault};
ghost use Rattle.smv_meaning.specs.Outcomes.{choice, taken, truth};
ghost use Rattle.bit_operators.specs.declared.symbolic.Symbolic.TheVariants as symbolic;
ghost use Rattle.bit_operators.specs.Denoting.{StandsIn, denoted};
ghost use Rattle.bit_outcomes.specs.Telling.{AllTold, Tells, TellsAll, TellsOne, ToldStands};

use crate::fronts::{Front, closed, with_branch};
use crate::told::{Told, copied, copied_value};
use bit_choices::choose;
use bit_graph::{Edge, Graph};
use bit_operators::Symbolic;
use std::alloc::{AllocError, Global};

/// The branch of the first condition that is TRUE, or a last branch that has none; without one a fault, by whichever
/// rule. The only error is running out of memory.
///
/// It takes a gate for each condition without a branch behind it for the rest, and so many for a branch as its value
/// has edges. Up to the last branch that is a set, a condition takes some gates, and each member of its branch one.
pub fn choice(alloc: Global, graph: &mut Graph, operands: &[Told]) -> Result<Told, AllocError>
    requires { AllTold graph.old operands.now }
    ensures extends { Extends graph.old graph.new }
    ensures stands { IfOk result (λ t. ToldStands graph.new t) }
    ensures told { IfOk result (λ t. (rule : FaultRule) (place : Place) (v : ℕ → Bool) (os : List Evaluation) → Consistent v graph.new → TellsAll v operands.now os → Tells v t (choice rule place os)) }
{
    let tail = values_behind(alloc, graph, operands)?;
    if tail.from == 0 {
        Ok(tail.told)
    } else {
        let told = with_front(alloc, graph, operands, &tail)?;
        Ok(told)
    }
}

// What is told from a condition on, of which this is the number.
#[derive(Debug, Drop)]
struct Tail {
    from: usize,
    told: Told,
}

// What is told behind the last branch that is a set.
fn values_behind(alloc: Global, graph: &mut Graph, operands: &[Told]) -> Result<Tail, AllocError>
    requires { AllTold graph.old operands.now }
    ensures extends { Extends graph.old graph.new }
    ensures stands { IfOk result (λ x. ToldStands graph.new x.told) }
    ensures from { IfOk result (λ x. 2 * x.from ≤ length operands.now) }
    ensures told { IfOk result (λ x. (rule : FaultRule) (place : Place) (v : ℕ → Bool) (os : List Evaluation) → Consistent v graph.new → TellsAll v operands.now os →
        Tells v x.told (choice rule place (drop (2 * x.from) os))) }
{
    let mut rest = last_branch(alloc, graph, operands)?;
    'pairs: for i in (0..operands.len() / 2).rev() {
        let condition = &operands[2 * i];
        let branch = &operands[2 * i + 1];
        if !are_values(branch, &rest) {
            return Ok(Tail {
                from: i + 1,
                told: rest,
            });
        }
        let next = either(alloc, graph, condition, branch, &rest)?;
        rest = next;
    }
    Ok(Tail {
        from: 0,
        told: rest,
    })
}

// Whether one value is told of both.
fn are_values(one: &Told, other: &Told) -> bool {
    match (one, other) {
        (Told::One(..), Told::One(..)) => true,
        _ => false,
    }
}

// The conditions and branches before the tail, and then this.
fn with_front(
    alloc: Global,
    graph: &mut Graph,
    operands: &[Told],
    tail: &Tail,
) -> Result<Told, AllocError>
    requires operands { AllTold graph.old operands.now }
    requires tail { ToldStands graph.old tail.now.told }
    requires from { 2 * tail.now.from ≤ length operands.now }
    ensures extends { Extends graph.old graph.new }
    ensures stands { IfOk result (λ t. ToldStands graph.new t) }
    ensures told { IfOk result (λ t. (rule : FaultRule) (place : Place) (v : ℕ → Bool) (os : List Evaluation) → Consistent v graph.new → TellsAll v operands.now os →
        Tells v tail.now.told (choice rule place (drop (2 * tail.now.from) os)) → Tells v t (choice rule place os)) }
{
    let mut front = Front::new(alloc, graph);
    'pairs: for i in 0..tail.from {
        let condition = &operands[2 * i];
        let branch = &operands[2 * i + 1];
        match with_branch(alloc, graph, front, condition, branch)? {
            Some(next) => front = next,
            None => return Ok(Told::Untold),
        }
    }
    let told = closed(alloc, graph, front, &tail.told)?;
    Ok(told)
}

// The last branch, if it has no condition; else a fault.
fn last_branch(alloc: Global, graph: &Graph, operands: &[Told]) -> Result<Told, AllocError>
    requires { AllTold graph.now operands.now }
    ensures stands { IfOk result (λ t. ToldStands graph.now t) }
    ensures told { IfOk result (λ t. (rule : FaultRule) (place : Place) (v : ℕ → Bool) (os : List Evaluation) → Consistent v graph.now → TellsAll v operands.now os →
        Tells v t (choice rule place (drop (2 * (length operands.now / 2)) os))) }
{
    let paired = 2 * (operands.len() / 2);
    if paired < operands.len() {
        let copy = copied(alloc, &operands[paired])?;
        Ok(copy)
    } else {
        Ok(always_fault(graph))
    }
}

// What is told of a fault.
fn always_fault(graph: &Graph) -> Told
    ensures stands { ToldStands graph.now result }
    ensures told { (v : ℕ → Bool) (rule : FaultRule) (place : Place) → Consistent v graph.now → Tells v result (Fault rule place) }
{
    Told::One(
        graph.constant(true),
        Symbolic::Boolean(graph.constant(false)),
    )
}

// The branch where the condition is TRUE, and the rest where it is FALSE.
fn either(
    alloc: Global,
    graph: &mut Graph,
    condition: &Told,
    branch: &Told,
    rest: &Told,
) -> Result<Told, AllocError>
    requires condition_stands { ToldStands graph.old condition.now }
    requires branch_stands { ToldStands graph.old branch.now }
    requires rest_stands { ToldStands graph.old rest.now }
    ensures extends { Extends graph.old graph.new }
    ensures stands { IfOk result (λ t. ToldStands graph.new t) }
    ensures told { IfOk result (λ t. (v : ℕ → Bool) (c a r : Evaluation) → Consistent v graph.new → Tells v condition.now c → Tells v branch.now a → Tells v rest.now r →
        Tells v t (taken (truth c) c a r)) }
{
    match condition {
        Told::One(fault, value) => match value {
            Symbolic::Boolean(b) => {
                let told = decided(alloc, graph, *fault, *b, branch, rest)?;
                Ok(told)
            }
            Symbolic::Word { .. } => Ok(Told::Untold),
            Symbolic::Discrete(_) => Ok(Told::Untold),
        },
        Told::Untold => Ok(Told::Untold),
        Told::Set(..) => Ok(Told::Untold),
    }
}

// The same, where the condition is told by the edges `failed` and `b`.
fn decided(
    alloc: Global,
    graph: &mut Graph,
    failed: Edge,
    b: Edge,
    branch: &Told,
    rest: &Told,
) -> Result<Told, AllocError>
    requires failed_stands { Stands graph.old failed }
    requires b_stands { Stands graph.old b }
    requires branch_stands { ToldStands graph.old branch.now }
    requires rest_stands { ToldStands graph.old rest.now }
    ensures extends { Extends graph.old graph.new }
    ensures stands { IfOk result (λ t. ToldStands graph.new t) }
    ensures told { IfOk result (λ t. (v : ℕ → Bool) (c a r : Evaluation) → Consistent v graph.new → TellsOne v failed (symbolic.Boolean b) c → Tells v branch.now a → Tells v rest.now r →
        Tells v t (taken (truth c) c a r)) }
{
    match (branch, rest) {
        (Told::One(f, x), Told::One(g, y)) => {
            let told = one_of_values(alloc, graph, failed, b, *f, x, *g, y)?;
            Ok(told)
        }
        _ => Ok(Told::Untold),
    }
}

fn one_of_values(
    alloc: Global,
    graph: &mut Graph,
    failed: Edge,
    b: Edge,
    f: Edge,
    x: &Symbolic,
    g: Edge,
    y: &Symbolic,
) -> Result<Told, AllocError>
    requires failed_stands { Stands graph.old failed }
    requires b_stands { Stands graph.old b }
    requires f_stands { Stands graph.old f }
    requires x_stands { StandsIn graph.old x.now }
    requires g_stands { Stands graph.old g }
    requires y_stands { StandsIn graph.old y.now }
    ensures extends { Extends graph.old graph.new }
    ensures stands { IfOk result (λ t. ToldStands graph.new t) }
    ensures told { IfOk result (λ t. (v : ℕ → Bool) (c a r : Evaluation) → Consistent v graph.new → TellsOne v failed (symbolic.Boolean b) c → TellsOne v f x.now a → TellsOne v g y.now r →
        Tells v t (taken (truth c) c a r)) }
{
    match chosen(alloc, graph, b, f, x, g, y)? {
        Some(value) => {
            let fault = fault_of(graph, failed, b, f, g)?;
            Ok(Told::One(fault, value))
        }
        None => Ok(Told::Untold),
    }
}

// The edge of the condition's fault, or of that of the branch that is taken.
fn fault_of(graph: &mut Graph, failed: Edge, b: Edge, f: Edge, g: Edge) -> Result<Edge, AllocError>
    requires failed_stands { Stands graph.old failed }
    requires b_stands { Stands graph.old b }
    requires f_stands { Stands graph.old f }
    requires g_stands { Stands graph.old g }
    ensures extends { Extends graph.old graph.new }
    ensures stands { IfOk result (λ e. Stands graph.new e) }
    ensures value { IfOk result (λ e. Denotes graph.new e (λ v. edge_value v failed || (if edge_value v b then edge_value v f else edge_value v g))) }
{
    let branch = graph.choose(b, f, g)?;
    let fault = graph.or(failed, branch)?;
    Ok(fault)
}

// One of two values, where it is taken without a fault: of a branch that always faults no value is asked.
fn chosen(
    alloc: Global,
    graph: &mut Graph,
    b: Edge,
    f: Edge,
    x: &Symbolic,
    g: Edge,
    y: &Symbolic,
) -> Result<Option<Symbolic>, AllocError>
    requires b_stands { Stands graph.old b }
    requires f_stands { Stands graph.old f }
    requires x_stands { StandsIn graph.old x.now }
    requires g_stands { Stands graph.old g }
    requires y_stands { StandsIn graph.old y.now }
    ensures extends { Extends graph.old graph.new }
    ensures stands { IfOk result (λ r. IfSome r (λ z. StandsIn graph.new z)) }
    ensures value { IfOk result (λ r. IfSome r (λ z. (v : ℕ → Bool) (w : Value) → Consistent v graph.new → (if edge_value v b then edge_value v f else edge_value v g) ≡ false →
        (if edge_value v b then denoted v x.now else denoted v y.now) ≡ Some w → denoted v z ≡ Some w)) }
{
    if is_always(graph, g) {
        let copy = copied_value(alloc, x)?;
        Ok(Some(copy))
    } else if is_always(graph, f) {
        let copy = copied_value(alloc, y)?;
        Ok(Some(copy))
    } else {
        let value = choose(alloc, graph, b, x, y)?;
        Ok(value)
    }
}

/// Whether the edge is the constant TRUE.
pub fn is_always(graph: &Graph, e: Edge) -> bool
    requires { Stands graph.now e }
    ensures { IsTrue result → Denotes graph.now e (λ v. true) }
{
    match graph.as_constant(e) {
        Some(b) => b,
        None => false,
    }
}
