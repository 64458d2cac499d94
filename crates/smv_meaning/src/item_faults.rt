//! Where items fault.

ghost use Rattle.std.specs.Prelude.{◌≡◌, List, [], map, option_and_then, slice_get, IfOk};
ghost use Rattle.std.specs.Option.{option_copied};
ghost use Rattle.smv_resolve.specs.Items.{item_by, target_by};
ghost use Rattle.smv_resolve.specs.Resolved.{part_of, parts_of};
ghost use Rattle.smv_value.specs.declared.value.Value.{Value};
ghost use Rattle.smv_slots.specs.declared.slot.Slot.{Slot};
ghost use Rattle.smv_slots.specs.Slots.{slots_of, types_of};
ghost use Rattle.smv_meaning.specs.Faults.{fault_of_value, is_outside, item_fault, slot_assigned, speaks_of_paths, type_assigned};
ghost use Rattle.smv_meaning.specs.Formulas.{fault_in, formula_fault};
ghost use Rattle.smv_meaning.specs.Tables.{fault_at, fault_by_node, first_fault, outcome_at, outcomes_of, slot_at, slot_by_node};
ghost use Rattle.smv_meaning.specs.Runs.{item_outcome, speaks_of_step};

use crate::evaluation::{outcome_of, outcomes};
use crate::formulas::is_over_formulas;
use crate::{Evaluation, Inputs, State, Typed};
use smv_resolve::{ExprNode, Item, ItemKind, last};
use smv_slots::Slot;
use smv_tree::{AssignmentKind, ConstraintKind, Place, SpecificationKind};
use smv_value::{FaultRule, Value};
use sqlite_items::at;
use std::alloc::{AllocError, Global};
use value_types::ValueType;

/// The fault of an item in the state, or the step with these inputs to the next state, of which the item speaks. A
/// value that is assigned and is none of the variable's type is out of range where the right side begins. Of a temporal
/// formula it is the first fault of its parts. The error is running out of memory. It takes the time of evaluating the
/// nodes of the program.
pub fn faults(
    alloc: Global,
    typed: &Typed,
    item: &Item,
    s: &State,
    u: &Inputs,
    next: &State,
) -> Result<Option<(FaultRule, Place)>, AllocError>
    ensures { IfOk result (λ found. found ≡ item_fault (types_of typed.now.scope.program) (slots_of typed.now.scope.program) s.now u.now next.now (item_by typed.now.nodes item.now)) }
{
    let slots = typed.slots.as_slice();
    let nodes = typed.nodes.as_slice();
    if speaks_of_paths(item.kind) {
        formula_fault(alloc, slots, nodes, item.value, s.as_slice(), u.as_slice())
    } else {
        let e = item_outcome(
            alloc,
            typed,
            item,
            s.as_slice(),
            u.as_slice(),
            next.as_slice(),
        )?;
        let declared = type_assigned(alloc, typed.types.as_slice(), nodes, item.target)?;
        Ok(fault_of_value(declared, item.begins, &e))
    }
}

fn speaks_of_paths(kind: ItemKind) -> bool
    ensures { result ≡ speaks_of_paths kind }
{
    match kind {
        ItemKind::Specification(SpecificationKind::Temporal) => true,
        ItemKind::Specification(SpecificationKind::Invariant) => false,
        ItemKind::Assignment(_) | ItemKind::Constraint(_) => false,
    }
}

fn speaks_of_step(kind: ItemKind) -> bool
    ensures { result ≡ speaks_of_step kind }
{
    match kind {
        ItemKind::Assignment(AssignmentKind::Next) => true,
        ItemKind::Assignment(AssignmentKind::Init | AssignmentKind::Current) => false,
        ItemKind::Constraint(ConstraintKind::Trans) => true,
        ItemKind::Constraint(
            ConstraintKind::Init | ConstraintKind::Invar | ConstraintKind::Justice,
        ) => false,
        ItemKind::Specification(_) => false,
    }
}

// The outcome of an item's value, in the state or the step of which it speaks.
fn item_outcome(
    alloc: Global,
    typed: &Typed,
    item: &Item,
    s: &[Value],
    u: &[Value],
    next: &[Value],
) -> Result<Evaluation, AllocError>
    ensures { IfOk result (λ e. e ≡ item_outcome (slots_of typed.now.scope.program) s.now u.now next.now (part_of typed.now.nodes item.now.value) item.now.kind) }
{
    let slots = typed.slots.as_slice();
    let nodes = typed.nodes.as_slice();
    if speaks_of_step(item.kind) {
        outcome_of(alloc, slots, nodes, item.value, s, u, next)
    } else {
        outcome_of(alloc, slots, nodes, item.value, s, &[], &[])
    }
}

// The fault of a value that is assigned to a variable of this type, or of what is asked for.
fn fault_of_value(
    declared: Option<&ValueType>,
    begins: Place,
    e: &Evaluation,
) -> Option<(FaultRule, Place)>
    ensures { result ≡ fault_of_value (option_copied declared.entry) begins e.now }
{
    if is_outside(declared, e) {
        Some((FaultRule::OutOfRange, begins))
    } else {
        fault_in(e)
    }
}

// Whether some value is none of the type.
fn is_outside(declared: Option<&ValueType>, e: &Evaluation) -> bool
    ensures { result ≡ is_outside (option_copied declared.entry) e.now }
{
    match declared {
        None => false,
        Some(t) => match e {
            Evaluation::Nothing => false,
            Evaluation::Values(values) => !values.is_of(t),
            Evaluation::Fault(..) => false,
        },
    }
}

fn fault_in(outcome: &Evaluation) -> Option<(FaultRule, Place)>
    ensures { result ≡ fault_in outcome.now }
{
    match outcome {
        Evaluation::Nothing => None,
        Evaluation::Values(_) => None,
        Evaluation::Fault(rule, place) => Some((*rule, *place)),
    }
}

// The type of the variable that is assigned, if one is.
fn type_assigned<'a>(
    alloc: Global,
    types: &'a [ValueType],
    nodes: &[ExprNode],
    target: Option<usize>,
) -> Result<Option<&'a ValueType>, AllocError>
    ensures { IfOk result (λ declared. option_copied declared ≡ type_assigned types.now (target_by nodes.now target)) }
{
    match target {
        None => Ok(None),
        Some(k) => {
            let slots = slots_assigned(alloc, nodes)?;
            Ok(type_of_slot(types, slot_at(slots.as_slice(), k)))
        }
    }
}

fn type_of_slot(types: &[ValueType], slot: Option<usize>) -> Option<&ValueType>
    ensures { option_copied result ≡ option_and_then (slice_get types.now) slot }
{
    match slot {
        None => None,
        Some(n) => at(types, n),
    }
}

// The slot that each node is, itself or as what a name stands for.
fn slots_assigned(alloc: Global, nodes: &[ExprNode]) -> Result<Vec<Option<usize>>, AllocError>
    ensures { IfOk result (λ slots. slots.items ≡ map slot_assigned (parts_of nodes.now)) }
{
    let mut made = Vec::new(alloc);
    for node in nodes {
        let slot = slot_by_node(made.as_slice(), node);
        made.push(slot)?;
    }
    Ok(made)
}

fn slot_by_node(slots: &[Option<usize>], node: &ExprNode) -> Option<usize>
    ensures { result ≡ slot_by_node slots.now node.now }
{
    match *node {
        ExprNode::Slot(_, n) => Some(n),
        ExprNode::Named(_, _, a) => slot_at(slots, a),
        ExprNode::Operand(a) => slot_at(slots, a),
        ExprNode::Constant(..) => None,
        ExprNode::Whole(..) => None,
        ExprNode::Next(..) => None,
        ExprNode::Apply(..) => None,
        ExprNode::Link(..) => None,
    }
}

fn slot_at(slots: &[Option<usize>], k: usize) -> Option<usize>
    ensures { result ≡ slot_at slots.now k }
{
    match slots.get(k) {
        None => None,
        Some(slot) => *slot,
    }
}

// The first fault of the parts of a formula, in a state with inputs.
fn formula_fault(
    alloc: Global,
    slots: &[Slot],
    nodes: &[ExprNode],
    root: usize,
    s: &[Value],
    u: &[Value],
) -> Result<Option<(FaultRule, Place)>, AllocError>
    ensures { IfOk result (λ found. found ≡ formula_fault slots.now s.now u.now (part_of nodes.now root)) }
{
    let here = outcomes(alloc, slots, nodes, s, u, &[])?;
    let faults = formula_faults(alloc, nodes, here.as_slice())?;
    Ok(fault_at(faults.as_slice(), root))
}

// The same of each node, where `here` has their outcomes.
fn formula_faults(
    alloc: Global,
    nodes: &[ExprNode],
    here: &[Evaluation],
) -> Result<Vec<Option<(FaultRule, Place)>>, AllocError>
    ensures { IfOk result (λ faults. (slots : List Slot) (s u : List Value) → here.now ≡ outcomes_of slots s u [] nodes.now
        → faults.items ≡ map (formula_fault slots s u) (parts_of nodes.now)) }
{
    let mut made = Vec::new(alloc);
    for (i, node) in nodes.iter().enumerate() {
        let fault = fault_by_node(fault_of(here, i), made.as_slice(), node);
        made.push(fault)?;
    }
    Ok(made)
}

// The fault that the node of this number gives.
fn fault_of(here: &[Evaluation], k: usize) -> Option<(FaultRule, Place)>
    ensures { result ≡ fault_in (outcome_at here.now k) }
{
    match at(here, k) {
        None => None,
        Some(outcome) => fault_in(outcome),
    }
}

// The first fault of the parts of a node, by those of the nodes before it and that of its own outcome.
fn fault_by_node(
    mine: Option<(FaultRule, Place)>,
    faults: &[Option<(FaultRule, Place)>],
    node: &ExprNode,
) -> Option<(FaultRule, Place)>
    ensures { result ≡ fault_by_node mine faults.now node.now }
{
    match *node {
        ExprNode::Constant(..) => None,
        ExprNode::Slot(..) => None,
        ExprNode::Whole(..) => None,
        ExprNode::Named(..) => mine,
        ExprNode::Next(..) => mine,
        ExprNode::Operand(a) => fault_at(faults, a),
        ExprNode::Apply(_, operator, count) => if is_over_formulas(operator) {
            first_fault(last(faults, count))
        } else {
            mine
        },
        ExprNode::Link(_, operator, a, b) => if is_over_formulas(operator) {
            first_fault(&[fault_at(faults, a), fault_at(faults, b)])
        } else {
            mine
        },
    }
}

fn fault_at(faults: &[Option<(FaultRule, Place)>], k: usize) -> Option<(FaultRule, Place)>
    ensures { result ≡ fault_at faults.now k }
{
    match faults.get(k) {
        None => None,
        Some(fault) => *fault,
    }
}

fn first_fault(faults: &[Option<(FaultRule, Place)>]) -> Option<(FaultRule, Place)>
    ensures { result ≡ first_fault faults.now }
{
    for fault in faults {
        match *fault {
            Some(found) => return Some(found),
            None => {}
        }
    }
    None
}
