//! Initial states and steps.

ghost use Rattle.std.specs.Prelude.{◌≡◌, ◌&&◌, [], Some, IfOk, slice_get};
ghost use Rattle.std.specs.Option.{option_copied};
ghost use Rattle.std.specs.List.{list_all, zip};
ghost use Rattle.smv_value.specs.declared.value.Value.{Value};
ghost use Rattle.smv_slots.specs.declared.slot.Slot.{Slot};
ghost use Rattle.smv_slots.specs.Slots.{slots_of};
ghost use Rattle.smv_layout.specs.Layout.{items_of};
ghost use Rattle.smv_meaning.specs.Runs.{allows_first, allows_step, are_inputs, asks_always, asks_first, asks_step, fits, in_type, is_among, is_first_state, is_frozen, is_state, is_step, is_true, keeps, keeps_frozen, meets_invariants, takes};
ghost use Rattle.smv_meaning.specs.Tables.{always_allowed, first_allowed, outcomes_of, seen, step_allowed, target_at};

use crate::evaluation::{outcome_at, outcomes};
use crate::readers::{input_slots, state_slots};
use crate::{Evaluation, Inputs, State, Typed};
use smv_resolve::{Item, ItemKind};
use smv_slots::Slot;
use smv_tree::{AssignmentKind, ConstraintKind, VariableKind};
use smv_value::{Value, same};
use sqlite_items::at;
use std::alloc::{AllocError, Global};
use value_types::ValueType;

/// Whether the state is an initial state of the program.
pub fn meets_init(alloc: Global, typed: &Typed, s: &State) -> Result<bool, AllocError>
    ensures { IfOk result (λ met. met ≡ is_first_state typed.now.scope.program s.now) }
{
    let is_state = is_state(alloc, typed, s.as_slice())?;
    let allowed = all_allow_first(alloc, typed, s.as_slice())?;
    Ok(is_state && allowed)
}

/// Whether the values have what the invariants of the program ask of each state. Whether they are of the types of the
/// slots is not asked here.
pub fn meets_inv(alloc: Global, typed: &Typed, s: &State) -> Result<bool, AllocError>
    ensures { IfOk result (λ met. met ≡ meets_invariants typed.now.scope.program s.now) }
{
    let here = outcomes_in(alloc, typed, s.as_slice())?;
    Ok(always_allowed(here.as_slice(), typed.items.as_slice()))
}

/// Whether the program has a step with these inputs from the first state to the second.
pub fn meets_step(
    alloc: Global,
    typed: &Typed,
    s: &State,
    u: &Inputs,
    next: &State,
) -> Result<bool, AllocError>
    ensures { IfOk result (λ met. met ≡ is_step typed.now.scope.program s.now u.now next.now) }
{
    let typed_right = are_step_values(alloc, typed, s.as_slice(), u.as_slice(), next.as_slice())?;
    let kept = keeps_frozen(alloc, typed, s.as_slice(), next.as_slice())?;
    let allowed = all_allow_step(alloc, typed, s.as_slice(), u.as_slice(), next.as_slice())?;
    let here_met = meets_inv(alloc, typed, s)?;
    let next_met = meets_inv(alloc, typed, next)?;
    Ok(typed_right && kept && allowed && (here_met && next_met))
}

// Whether there is one value of its type for each slot of the state.
fn is_state(alloc: Global, typed: &Typed, s: &[Value]) -> Result<bool, AllocError>
    ensures { IfOk result (λ met. met ≡ is_state typed.now.scope.program s.now) }
{
    let slots = state_slots(alloc, typed.slots.as_slice())?;
    Ok(fits(typed.types.as_slice(), slots.as_slice(), s))
}

// Whether there is one value of its type for each input slot.
fn are_inputs(alloc: Global, typed: &Typed, u: &[Value]) -> Result<bool, AllocError>
    ensures { IfOk result (λ met. met ≡ are_inputs typed.now.scope.program u.now) }
{
    let slots = input_slots(alloc, typed.slots.as_slice())?;
    Ok(fits(typed.types.as_slice(), slots.as_slice(), u))
}

// Whether the values are two states with inputs.
fn are_step_values(
    alloc: Global,
    typed: &Typed,
    s: &[Value],
    u: &[Value],
    next: &[Value],
) -> Result<bool, AllocError>
    ensures { IfOk result (λ met. met ≡ (is_state typed.now.scope.program s.now && are_inputs typed.now.scope.program u.now && is_state typed.now.scope.program next.now)) }
{
    let first = is_state(alloc, typed, s)?;
    let inputs = are_inputs(alloc, typed, u)?;
    let second = is_state(alloc, typed, next)?;
    Ok(first && inputs && second)
}

// Whether each frozen slot keeps its value.
fn keeps_frozen(
    alloc: Global,
    typed: &Typed,
    s: &[Value],
    next: &[Value],
) -> Result<bool, AllocError>
    ensures { IfOk result (λ met. met ≡ keeps_frozen (slots_of typed.now.scope.program) s.now next.now) }
{
    let slots = state_slots(alloc, typed.slots.as_slice())?;
    Ok(all_keep(slots.as_slice(), s, next))
}

fn all_keep(slots: &[Slot], s: &[Value], next: &[Value]) -> bool
    ensures { result ≡ list_all (λ (x : (Slot × Value) × Value). keeps x.0.0 x.0.1 x.1) (zip (zip slots.now s.now) next.now) }
{
    slots
        .iter()
        .zip(s)
        .zip(next)
        .all(|((slot, a), b)| keeps(*slot, *a, *b))
}

fn keeps(slot: Slot, a: Value, b: Value) -> bool
    ensures { result ≡ keeps slot a b }
{
    !is_frozen(slot.kind) || same(a, b)
}

fn is_frozen(kind: VariableKind) -> bool
    ensures { result ≡ is_frozen kind }
{
    match kind {
        VariableKind::Frozen => true,
        VariableKind::State | VariableKind::Input => false,
    }
}

// The outcomes of the nodes in a state alone.
fn outcomes_in(alloc: Global, typed: &Typed, s: &[Value]) -> Result<Vec<Evaluation>, AllocError>
    ensures { IfOk result (λ here. here.items ≡ outcomes_of (slots_of typed.now.scope.program) s.now [] [] typed.now.nodes) }
{
    outcomes(
        alloc,
        typed.slots.as_slice(),
        typed.nodes.as_slice(),
        s,
        &[],
        &[],
    )
}

// Whether the items allow the state as an initial one.
fn all_allow_first(alloc: Global, typed: &Typed, s: &[Value]) -> Result<bool, AllocError>
    ensures { IfOk result (λ met. met ≡ list_all (allows_first (slots_of typed.now.scope.program) s.now) (items_of typed.now.scope.program)) }
{
    let here = outcomes_in(alloc, typed, s)?;
    Ok(first_allowed(here.as_slice(), typed.items.as_slice()))
}

// Whether the items allow the step.
fn all_allow_step(
    alloc: Global,
    typed: &Typed,
    s: &[Value],
    u: &[Value],
    next: &[Value],
) -> Result<bool, AllocError>
    ensures { IfOk result (λ met. met ≡ list_all (allows_step (slots_of typed.now.scope.program) s.now u.now next.now) (items_of typed.now.scope.program)) }
{
    let later = outcomes_in(alloc, typed, next)?;
    let here = outcomes(
        alloc,
        typed.slots.as_slice(),
        typed.nodes.as_slice(),
        s,
        u,
        next,
    )?;
    Ok(step_allowed(here.as_slice(), later.as_slice(), typed.items.as_slice()))
}

// Whether the values are one of its type for each slot, where these are the types of all slots.
fn fits(types: &[ValueType], slots: &[Slot], s: &[Value]) -> bool
    ensures { result ≡ fits types.now slots.now s.now }
{
    slots.len() == s.len() && all_in_type(types, slots, s)
}

fn all_in_type(types: &[ValueType], slots: &[Slot], s: &[Value]) -> bool
    ensures { result ≡ list_all (λ (pair : Slot × Value). in_type (slice_get types.now pair.0.declared) pair.1) (zip slots.now s.now) }
{
    slots
        .iter()
        .zip(s)
        .all(|(slot, v)| in_type(types, slot.declared, *v))
}

// Whether the value is one of the type of this number.
fn in_type(types: &[ValueType], number: usize, v: Value) -> bool
    ensures { result ≡ in_type (slice_get types.now number) v }
{
    match at(types, number) {
        None => false,
        Some(declared) => declared.contains(v),
    }
}

// What the items ask of an initial state, by the outcomes there.
fn first_allowed(here: &[Evaluation], items: &[Item]) -> bool
    ensures { result ≡ first_allowed here.now items.now }
{
    items.iter().all(|x| asks_first(target_at(here, x.target), outcome_at(here, x.value), x.kind))
}

// What the items ask of both states of a step, by the outcomes there.
fn always_allowed(here: &[Evaluation], items: &[Item]) -> bool
    ensures { result ≡ always_allowed here.now items.now }
{
    items.iter().all(|x| asks_always(target_at(here, x.target), outcome_at(here, x.value), x.kind))
}

// What the items ask of a step, by the outcomes in the step and in the next state.
fn step_allowed(here: &[Evaluation], later: &[Evaluation], items: &[Item]) -> bool
    ensures { result ≡ step_allowed here.now later.now items.now }
{
    items.iter().all(|x| asks_step(
        target_at(later, x.target),
        outcome_at(here, x.value),
        x.kind,
    ))
}

fn target_at(outcomes: &[Evaluation], target: Option<usize>) -> Option<&Evaluation>
    ensures { seen (option_copied result) ≡ target_at outcomes.now target }
{
    match target {
        None => None,
        Some(k) => outcome_at(outcomes, k),
    }
}

// Whether the variable has a value of the expression.
fn takes(variable: Option<&Evaluation>, expression: Option<&Evaluation>) -> bool
    ensures { result ≡ takes (seen (option_copied variable.entry)) (seen (option_copied expression.entry)) }
{
    match variable {
        None => false,
        Some(variable) => is_among(variable.value(), expression),
    }
}

fn is_among(v: Option<Value>, expression: Option<&Evaluation>) -> bool
    ensures { result ≡ is_among v (seen (option_copied expression.entry)) }
{
    match (v, expression) {
        (None, _) => false,
        (Some(_), None) => false,
        (Some(v), Some(expression)) => has(expression, v),
    }
}

fn has(expression: &Evaluation, v: Value) -> bool
    ensures { result ≡ is_among (Some v) expression.now }
{
    match expression {
        Evaluation::Nothing => false,
        Evaluation::Values(values) => values.contains(v),
        Evaluation::Fault(..) => false,
    }
}

fn is_true(outcome: Option<&Evaluation>) -> bool
    ensures { result ≡ is_true (seen (option_copied outcome.entry)) }
{
    match outcome {
        None => false,
        Some(outcome) => match outcome.truth() {
            Some(b) => b,
            None => false,
        },
    }
}

fn asks_first(x: Option<&Evaluation>, e: Option<&Evaluation>, kind: ItemKind) -> bool
    ensures { result ≡ asks_first (seen (option_copied x.entry)) (seen (option_copied e.entry)) kind }
{
    match kind {
        ItemKind::Assignment(AssignmentKind::Init | AssignmentKind::Current) => takes(x, e),
        ItemKind::Assignment(AssignmentKind::Next) => true,
        ItemKind::Constraint(ConstraintKind::Init | ConstraintKind::Invar) => is_true(e),
        ItemKind::Constraint(ConstraintKind::Trans | ConstraintKind::Justice) => true,
        ItemKind::Specification(_) => true,
    }
}

fn asks_always(x: Option<&Evaluation>, e: Option<&Evaluation>, kind: ItemKind) -> bool
    ensures { result ≡ asks_always (seen (option_copied x.entry)) (seen (option_copied e.entry)) kind }
{
    match kind {
        ItemKind::Assignment(AssignmentKind::Current) => takes(x, e),
        ItemKind::Assignment(AssignmentKind::Init | AssignmentKind::Next) => true,
        ItemKind::Constraint(ConstraintKind::Invar) => is_true(e),
        ItemKind::Constraint(
            ConstraintKind::Init | ConstraintKind::Trans | ConstraintKind::Justice,
        ) => true,
        ItemKind::Specification(_) => true,
    }
}

fn asks_step(x: Option<&Evaluation>, e: Option<&Evaluation>, kind: ItemKind) -> bool
    ensures { result ≡ asks_step (seen (option_copied x.entry)) (seen (option_copied e.entry)) kind }
{
    match kind {
        ItemKind::Assignment(AssignmentKind::Next) => takes(x, e),
        ItemKind::Assignment(AssignmentKind::Init | AssignmentKind::Current) => true,
        ItemKind::Constraint(ConstraintKind::Trans) => is_true(e),
        ItemKind::Constraint(
            ConstraintKind::Init | ConstraintKind::Invar | ConstraintKind::Justice,
        ) => true,
        ItemKind::Specification(_) => true,
    }
}
