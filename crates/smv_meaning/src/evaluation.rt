//! The values of expressions.

ghost use Rattle.std.specs.Prelude.{◌≡◌, [], ◌∷◌, ℕ, List, IfOk, IsSome, Some};
ghost use Rattle.std.specs.Option.{option_copied};
ghost use Rattle.smv_value.specs.declared.value.Value.{Value};
ghost use Rattle.smv_resolve.specs.Resolved.{part_of};
ghost use Rattle.smv_slots.specs.Slots.{item_of, slots_of};
ghost use Rattle.smv_layout.specs.Layout.{laid_expression};
ghost use Rattle.smv_scope.specs.Targets.{seen as seen_target};
ghost use Rattle.smv_meaning.specs.Answers.{Evaluates, GivesWhereTyped};
ghost use Rattle.smv_meaning.specs.Outcomes.{applied};
ghost use Rattle.smv_meaning.specs.Paths.{instance_at, whole_of};
ghost use Rattle.smv_meaning.specs.Tables.{outcome_at, outcome_by, outcomes_of, seen};
ghost use Rattle.smv_meaning.specs.Values.{outcome};

use crate::outcome::{one, valued};
use crate::{Evaluation, Inputs, Path, State, Typed, applied};
use smv_layout::lay_out_expression;
use smv_resolve::{ExprNode, ResolveStop, Single, first, last, resolve_expression};
use smv_scope::{NameTarget, member_target};
use smv_slots::Slot;
use smv_tree::{Expr, Place, VariableKind};
use smv_value::{Operator, Value};
use sqlite_items::at;
use std::alloc::{AllocError, Global};

/// The outcome of an expression that stands in the instance of this path, in a state with inputs and the next state;
/// each of these is empty where there is none. Where it is what an item of the program assigns, asks for or claims of
/// states or steps, it is values or a fault in those of the declared types.
///
/// The error is that a part of the expression is stuck, at the place of the first such part, or that memory ran out.
pub fn eval(
    alloc: Global,
    typed: &Typed,
    path: &Path,
    e: &Expr,
    s: &State,
    u: &Inputs,
    next: &State,
) -> Result<Evaluation, ResolveStop>
    requires { IsSome (instance_at typed.now.scope.program path.now) }
    ensures evaluates { (at : ℕ) → instance_at typed.now.scope.program path.now ≡ Some at → Evaluates typed.now.scope.program at e.now s.now u.now next.now result }
    ensures given { (at : ℕ) → instance_at typed.now.scope.program path.now ≡ Some at → IfOk result (GivesWhereTyped typed.now.scope.program at e.now s.now u.now next.now) }
{
    match instance_at(typed, path) {
        Some(at) => eval_at(alloc, typed, at, e, s, u, next),
        None => unreachable!(),
    }
}

/// The instance to which the names of a path lead, if they are names of instances.
pub fn instance_at(typed: &Typed, path: &Path) -> Option<usize>
    ensures { result ≡ instance_at typed.now.scope.program path.now }
{
    let mut at = 0;
    for name in path.as_slice() {
        match whole_of(member_target(&typed.scope, at, name.as_str())) {
            Some(below) => at = below,
            None => return None,
        }
    }
    Some(at)
}

// The instance that a target is.
fn whole_of(target: NameTarget<'_>) -> Option<usize>
    ensures { result ≡ whole_of (seen_target target.entry) }
{
    match target {
        NameTarget::Whole(at) => Some(at),
        NameTarget::Variable(_) => None,
        NameTarget::Given { .. } => None,
        NameTarget::Defined { .. } => None,
        NameTarget::Symbol(_) => None,
        NameTarget::Unknown => None,
        NameTarget::TooFar => None,
    }
}

// The same in the instance of this number.
fn eval_at(
    alloc: Global,
    typed: &Typed,
    at: usize,
    e: &Expr,
    s: &State,
    u: &Inputs,
    next: &State,
) -> Result<Evaluation, ResolveStop>
    ensures evaluates { Evaluates typed.now.scope.program at e.now s.now u.now next.now result }
    ensures given { IfOk result (GivesWhereTyped typed.now.scope.program at e.now s.now u.now next.now) }
{
    let resolved = resolve_expression(alloc, &typed.scope, at, e)?;
    let outcome = outcome_of_resolved(alloc, typed, &resolved, s, u, next);
    drop(resolved);
    Ok(outcome?)
}

// The outcome of a resolved expression.
fn outcome_of_resolved(
    alloc: Global,
    typed: &Typed,
    resolved: &Single,
    s: &State,
    u: &Inputs,
    next: &State,
) -> Result<Evaluation, AllocError>
    ensures { IfOk result (λ o. o ≡ outcome (slots_of typed.now.scope.program) s.now u.now next.now (laid_expression typed.now.scope.program (part_of resolved.now.nodes resolved.now.root))) }
{
    let laid = lay_out_expression(alloc, typed.variables.as_slice(), resolved)?;
    let outcome = outcome_of(
        alloc,
        typed.slots.as_slice(),
        laid.nodes.as_slice(),
        laid.root,
        s.as_slice(),
        u.as_slice(),
        next.as_slice(),
    );
    drop(laid);
    outcome
}

// The outcome of the node of this number, in a state with inputs and the next state.
pub fn outcome_of(
    alloc: Global,
    slots: &[Slot],
    nodes: &[ExprNode],
    root: usize,
    s: &[Value],
    u: &[Value],
    next: &[Value],
) -> Result<Evaluation, AllocError>
    ensures { IfOk result (λ o. o ≡ outcome slots.now s.now u.now next.now (part_of nodes.now root)) }
{
    let outcomes = outcomes(alloc, slots, nodes, s, u, next)?;
    copy_at(alloc, outcomes.as_slice(), root)
}

/// The outcome of each node, in a state with inputs and the next state; each of these is empty where there is none.
pub fn outcomes(
    alloc: Global,
    slots: &[Slot],
    nodes: &[ExprNode],
    s: &[Value],
    u: &[Value],
    next: &[Value],
) -> Result<Vec<Evaluation>, AllocError>
    ensures { IfOk result (λ outcomes. outcomes.items ≡ outcomes_of slots.now s.now u.now next.now nodes.now) }
{
    let nowhere = nowhere(alloc, slots, nodes)?;
    let later = outcomes_before(alloc, slots, nodes, next, &[], nowhere.as_slice())?;
    let here = outcomes_before(alloc, slots, nodes, s, u, later.as_slice())?;
    Ok(here)
}

// The outcome of each node where there is no state.
fn nowhere(alloc: Global, slots: &[Slot], nodes: &[ExprNode]) -> Result<Vec<Evaluation>, AllocError>
    ensures { IfOk result (λ outcomes. outcomes.items ≡ outcomes_of slots.now [] [] [] nodes.now) }
{
    let mut made = Vec::new(alloc);
    for node in nodes {
        let outcome = outcome_by(
            alloc,
            slots,
            &[],
            &[],
            made.as_slice(),
            made.as_slice(),
            node,
        )?;
        made.push(outcome)?;
    }
    Ok(made)
}

// The outcome of each node in a state with inputs, where `later` has those in the next state.
fn outcomes_before(
    alloc: Global,
    slots: &[Slot],
    nodes: &[ExprNode],
    s: &[Value],
    u: &[Value],
    later: &[Evaluation],
) -> Result<Vec<Evaluation>, AllocError>
    ensures { IfOk result (λ outcomes. (t : List Value) → later.now ≡ outcomes_of slots.now t [] [] nodes.now
        → outcomes.items ≡ outcomes_of slots.now s.now u.now t nodes.now) }
{
    let mut made = Vec::new(alloc);
    for (i, node) in nodes.iter().enumerate() {
        let outcome = outcome_by(alloc, slots, s, u, made.as_slice(), first(later, i), node)?;
        made.push(outcome)?;
    }
    Ok(made)
}

/// The outcome of the node of this number, if there is one.
pub fn outcome_at(outcomes: &[Evaluation], k: usize) -> Option<&Evaluation>
    ensures { seen (option_copied result) ≡ outcome_at outcomes.now k }
{
    at(outcomes, k)
}

// A copy of it.
fn copy_at(alloc: Global, outcomes: &[Evaluation], k: usize) -> Result<Evaluation, AllocError>
    ensures { IfOk result (λ o. o ≡ outcome_at outcomes.now k) }
{
    match outcome_at(outcomes, k) {
        None => Ok(Evaluation::Nothing),
        Some(outcome) => outcome.copied(alloc),
    }
}

// The outcome of a node, by those of the nodes before it.
fn outcome_by(
    alloc: Global,
    slots: &[Slot],
    s: &[Value],
    u: &[Value],
    here: &[Evaluation],
    later: &[Evaluation],
    node: &ExprNode,
) -> Result<Evaluation, AllocError>
    ensures { IfOk result (λ o. o ≡ outcome_by slots.now s.now u.now here.now later.now node.now) }
{
    match *node {
        ExprNode::Constant(_, v) => Ok(one(v)),
        ExprNode::Slot(_, n) => Ok(valued(item_of(slots, s, u, n))),
        ExprNode::Whole(..) => Ok(Evaluation::Nothing),
        ExprNode::Named(_, _, a) | ExprNode::Operand(a) => copy_at(alloc, here, a),
        ExprNode::Next(_, a) => copy_at(alloc, later, a),
        ExprNode::Apply(place, operator, count) => applied(
            alloc,
            operator,
            place,
            last(here, count),
        ),
        ExprNode::Link(place, operator, a, b) => linked(alloc, operator, place, here, a, b),
    }
}

// The outcome of an operator over the nodes of these numbers.
fn linked(
    alloc: Global,
    operator: Operator,
    place: Place,
    outcomes: &[Evaluation],
    a: usize,
    b: usize,
) -> Result<Evaluation, AllocError>
    ensures { IfOk result (λ o. o ≡ applied operator place (outcome_at outcomes.now a ∷ outcome_at outcomes.now b ∷ [])) }
{
    let left = copy_at(alloc, outcomes, a)?;
    let right = copy_at(alloc, outcomes, b)?;
    let operands = [left, right];
    let outcome = applied(alloc, operator, place, &operands);
    drop(operands);
    outcome
}

// The value that a state and inputs give to the slot of this number.
fn item_of(slots: &[Slot], s: &[Value], u: &[Value], n: usize) -> Option<Value>
    ensures { result ≡ item_of slots.now s.now u.now n }
{
    match slots.get(n) {
        None => None,
        Some(slot) => match slot.kind {
            VariableKind::Input => u.get(slot.index).copied(),
            VariableKind::State | VariableKind::Frozen => s.get(slot.index).copied(),
        },
    }
}
