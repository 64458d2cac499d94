//! Whether what a test evaluates faults: the items that ask something of a state or of a step, and a formula at the
//! times of a lasso.

ghost use Rattle.std.specs.Prelude.{◌≡◌, [], List, map, option_and_then, slice_get, IfOk};
ghost use Rattle.std.specs.Option.{is_none, option_copied};
ghost use Rattle.smv_tree.specs.declared.place.Place.{Place};
ghost use Rattle.smv_resolve.specs.Items.{item_by};
ghost use Rattle.smv_resolve.specs.Resolved.{parts_of};
ghost use Rattle.smv_meaning.specs.Faults.{fault_of_value, slot_assigned};
ghost use Rattle.smv_meaning.specs.Tables.{seen, slot_at, slot_by_node};
ghost use Rattle.trace_replay.specs.Faultless.{all_faultless, begins_well, is_asking, is_faultless, stays_well, steps_well};
ghost use Rattle.trace_replay.specs.Tables.{all_faultless_by, is_faultless_by, type_by};

use smv_meaning::{
    Evaluation, Inputs, State, Typed, faults, meets_init, meets_inv, meets_step, outcome_at,
    outcomes, slots,
};
use smv_resolve::{ExprNode, Item, ItemKind};
use smv_tree::{AssignmentKind, ConstraintKind};
use sqlite_items::{Items, at};
use std::alloc::{AllocError, Global};
use value_types::ValueType;

/// What items ask something of: an initial state, each state, or a step.
#[derive(Clone, Copy, Debug, PartialEq, Eq)]
pub enum Asked {
    First,
    Always,
    Step,
}

/// Whether the state is an initial state, and nothing faults that is asked of it.
pub fn begins_well(alloc: Global, typed: &Typed, s: &State) -> Result<bool, AllocError>
    ensures { IfOk result (λ well. well ≡ begins_well typed.now.scope.program s.now) }
{
    let met = meets_init(alloc, typed, s)?;
    let faultless = is_state_faultless(alloc, typed, Asked::First, s)?;
    Ok(met && faultless)
}

/// Whether the state has what invariants ask, and nothing faults there that they ask.
pub fn stays_well(alloc: Global, typed: &Typed, s: &State) -> Result<bool, AllocError>
    ensures { IfOk result (λ well. well ≡ stays_well typed.now.scope.program s.now) }
{
    let met = meets_inv(alloc, typed, s)?;
    let faultless = is_state_faultless(alloc, typed, Asked::Always, s)?;
    Ok(met && faultless)
}

/// Whether there is a step with these inputs from the first state to the second, and nothing faults that is asked of it
/// and of its ends.
pub fn steps_well(
    alloc: Global,
    typed: &Typed,
    s: &State,
    u: &Inputs,
    next: &State,
) -> Result<bool, AllocError>
    ensures { IfOk result (λ well. well ≡ steps_well typed.now.scope.program s.now u.now next.now) }
{
    let met = meets_step(alloc, typed, s, u, next)?;
    let faultless = is_step_faultless(alloc, typed, s, u, next)?;
    let here = is_state_faultless(alloc, typed, Asked::Always, s)?;
    let there = is_state_faultless(alloc, typed, Asked::Always, next)?;
    Ok(met && (faultless && (here && there)))
}

/// Whether the item does not fault in a state with these inputs, where there is no next state.
pub fn is_faultless(
    alloc: Global,
    typed: &Typed,
    item: &Item,
    s: &State,
    u: &Inputs,
) -> Result<bool, AllocError>
    ensures { IfOk result (λ faultless. faultless ≡ is_faultless typed.now.scope.program s.now u.now [] (item_by typed.now.nodes item.now)) }
{
    let nowhere = Items::new(alloc);
    let found = faults(alloc, typed, item, s, u, &nowhere)?;
    Ok(found.is_none())
}

// Whether no item faults that asks something of the state.
fn is_state_faultless(
    alloc: Global,
    typed: &Typed,
    asked: Asked,
    s: &State,
) -> Result<bool, AllocError>
    ensures { IfOk result (λ faultless. faultless ≡ all_faultless asked typed.now.scope.program s.now [] []) }
{
    let nodes = typed.nodes.as_slice();
    let here = outcomes(alloc, slots(typed), nodes, s.as_slice(), &[], &[])?;
    let faultless = are_faultless(alloc, typed, asked, here.as_slice())?;
    Ok(faultless)
}

// Whether no item faults that asks something of the step.
fn is_step_faultless(
    alloc: Global,
    typed: &Typed,
    s: &State,
    u: &Inputs,
    next: &State,
) -> Result<bool, AllocError>
    ensures { IfOk result (λ faultless. faultless ≡ all_faultless Asked.Step typed.now.scope.program s.now u.now next.now) }
{
    let here = outcomes(
        alloc,
        slots(typed),
        typed.nodes.as_slice(),
        s.as_slice(),
        u.as_slice(),
        next.as_slice(),
    )?;
    let faultless = are_faultless(alloc, typed, Asked::Step, here.as_slice())?;
    Ok(faultless)
}

// Whether no item faults that asks something, where the nodes have these outcomes.
fn are_faultless(
    alloc: Global,
    typed: &Typed,
    asked: Asked,
    here: &[Evaluation],
) -> Result<bool, AllocError>
    ensures { IfOk result (λ faultless. faultless ≡ all_faultless_by asked typed.now.types (map slot_assigned (parts_of typed.now.nodes)) here.now typed.now.items) }
{
    let slots = slots_assigned(alloc, typed.nodes.as_slice())?;
    let (types, items) = (typed.types.as_slice(), typed.items.as_slice());
    Ok(all_faultless(asked, types, slots.as_slice(), here, items))
}

fn all_faultless(
    asked: Asked,
    types: &[ValueType],
    slots: &[Option<usize>],
    here: &[Evaluation],
    items: &[Item],
) -> bool
    ensures { result ≡ all_faultless_by asked types.now slots.now here.now items.now }
{
    items.iter().all(|x| !is_asking(asked, x.kind) || is_faultless_by(types, slots, here, x))
}

// Whether the value of an item does not fault, where the nodes have these outcomes.
fn is_faultless_by(
    types: &[ValueType],
    slots: &[Option<usize>],
    here: &[Evaluation],
    x: &Item,
) -> bool
    ensures { result ≡ is_faultless_by types.now slots.now here.now x.now }
{
    is_value_faultless(type_by(types, slots, x.target), outcome_at(here, x.value))
}

// Whether a value that is assigned to a variable of this type, or asked for, does not fault.
fn is_value_faultless(declared: Option<&ValueType>, e: Option<&Evaluation>) -> bool
    ensures { (begins : Place) → result ≡ is_none (fault_of_value (option_copied declared.entry) begins (seen (option_copied e.entry))) }
{
    match e {
        None => true,
        Some(Evaluation::Nothing) => true,
        Some(Evaluation::Fault(..)) => false,
        Some(Evaluation::Values(values)) => match declared {
            None => true,
            Some(t) => values.is_of(t),
        },
    }
}

// Whether an item of this kind asks something.
fn is_asking(asked: Asked, kind: ItemKind) -> bool
    ensures { result ≡ is_asking asked kind }
{
    match asked {
        Asked::First => match kind {
            ItemKind::Assignment(AssignmentKind::Init | AssignmentKind::Current) => true,
            ItemKind::Assignment(AssignmentKind::Next) => false,
            ItemKind::Constraint(ConstraintKind::Init | ConstraintKind::Invar) => true,
            ItemKind::Constraint(ConstraintKind::Trans | ConstraintKind::Justice) => false,
            ItemKind::Specification(_) => false,
        },
        Asked::Always => match kind {
            ItemKind::Assignment(AssignmentKind::Current) => true,
            ItemKind::Assignment(AssignmentKind::Init | AssignmentKind::Next) => false,
            ItemKind::Constraint(ConstraintKind::Invar) => true,
            ItemKind::Constraint(
                ConstraintKind::Init | ConstraintKind::Trans | ConstraintKind::Justice,
            ) => false,
            ItemKind::Specification(_) => false,
        },
        Asked::Step => match kind {
            ItemKind::Assignment(AssignmentKind::Next) => true,
            ItemKind::Assignment(AssignmentKind::Init | AssignmentKind::Current) => false,
            ItemKind::Constraint(ConstraintKind::Trans) => true,
            ItemKind::Constraint(
                ConstraintKind::Init | ConstraintKind::Invar | ConstraintKind::Justice,
            ) => false,
            ItemKind::Specification(_) => false,
        },
    }
}

// The slot that each node is, itself or as what a name stands for.
fn slots_assigned(alloc: Global, nodes: &[ExprNode]) -> Result<Vec<Option<usize>>, AllocError>
    ensures { IfOk result (λ slots. slots.items ≡ map slot_assigned (parts_of nodes.now)) }
{
    let mut made = Vec::new(alloc);
    for node in nodes {
        let slot = slot_by_node(made.as_slice(), node);
        made.push(slot)?;
    }
    Ok(made)
}

fn slot_by_node(slots: &[Option<usize>], node: &ExprNode) -> Option<usize>
    ensures { result ≡ slot_by_node slots.now node.now }
{
    match *node {
        ExprNode::Slot(_, n) => Some(n),
        ExprNode::Named(_, _, a) => slot_at(slots, a),
        ExprNode::Operand(a) => slot_at(slots, a),
        ExprNode::Constant(..) => None,
        ExprNode::Whole(..) => None,
        ExprNode::Next(..) => None,
        ExprNode::Apply(..) => None,
        ExprNode::Link(..) => None,
    }
}

fn slot_at(slots: &[Option<usize>], k: usize) -> Option<usize>
    ensures { result ≡ slot_at slots.now k }
{
    match slots.get(k) {
        None => None,
        Some(slot) => *slot,
    }
}

// The type of the variable that is assigned, if one is, where the nodes are these slots.
fn type_by<'a>(
    types: &'a [ValueType],
    slots: &[Option<usize>],
    target: Option<usize>,
) -> Option<&'a ValueType>
    ensures { option_copied result ≡ type_by types.now slots.now target }
{
    match target {
        None => None,
        Some(k) => type_of_slot(types, slot_at(slots, k)),
    }
}

fn type_of_slot(types: &[ValueType], slot: Option<usize>) -> Option<&ValueType>
    ensures { option_copied result ≡ option_and_then (slice_get types.now) slot }
{
    match slot {
        None => None,
        Some(n) => at(types, n),
    }
}
