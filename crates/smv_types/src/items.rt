//! The rules of kinds and contexts, over items.

ghost use Rattle.std.specs.Prelude.{◌≡◌, List, Option, Some, map, IfOk};
ghost use Rattle.value_types.specs.declared.value_type.ValueType.{ValueType};
ghost use Rattle.smv_slots.specs.declared.slot.Slot.{Slot};
ghost use Rattle.smv_resolve.specs.Items.{item_by};
ghost use Rattle.smv_resolve.specs.Resolved.{Resolved, part_at, parts_of};
ghost use Rattle.smv_kinds.specs.Kinds.{is_boolean};
ghost use Rattle.smv_verdicts.specs.Verdicts.{Judges, first_of};
ghost use Rattle.smv_tree.specs.declared.refusal.Refusal.{Refusal as ARefusal};
ghost use Rattle.smv_types.specs.Judged.{AreNotes, IsJudged, IsOf, Tells, as_refusal, as_told, text_of, timed_refusal, told_bounds};
ghost use Rattle.smv_types.specs.Kinds.{Context, assignment_refusal, at_root, bounds_text, context_of_constraint, context_of_side, context_of_specification, first_at_root, formula_refusal, is_after_kind, is_assignable, is_at, item_refusal, kind_refusal, left_refusal, no_boolean, no_taker, target_refusal};

use crate::judged::{Judged, Notes, TimedViolation, ToldBounds, Violation};
use crate::kinds::{Table, no_value};
use crate::notes::{first, timed};
use crate::told::told_at;
use plain_text::Text;
use smv_kinds::{Kind, takes};
use smv_resolve::{ExprNode, Item, ItemKind};
use smv_slots::Slot;
use smv_tree::{AssignmentKind, ConstraintKind, Place, Refusal, Rule, SpecificationKind, TextStop};
use std::alloc::{AllocError, Global};
use value_types::ValueType;
use whole_numbers::WholeNumber;

/// What is told and noted of an expression.
#[derive(Clone, Copy, Debug)]
pub struct Part<'c> {
    pub kind: Kind,
    pub judged: Judged<'c>,
}

// The first item whose expressions are of other kinds, or stand where they may not.
pub(crate) fn misused(
    alloc: Global,
    slots: &[Slot],
    types: &[ValueType],
    nodes: &[ExprNode],
    table: &Table<'_>,
    items: &[Item],
) -> Result<(), TextStop>
    requires { Tells slots.now types.now (parts_of nodes.now) table.now.operands.items table.now.judged }
    ensures { Judges result (first_of (item_refusal slots.now types.now) (map (item_by nodes.now) items.now)) }
{
    for item in items {
        if let Some(broken) = item_violation(slots, types, nodes, table, item) {
            return refused_by(alloc, broken);
        }
    }
    Ok(())
}

fn item_violation<'c>(
    _slots: &[Slot],
    _types: &[ValueType],
    _nodes: &[ExprNode],
    table: &Table<'c>,
    item: &Item,
) -> Option<TimedViolation<'c>>
    requires { Tells _slots.now _types.now (parts_of _nodes.now) table.now.operands.items table.now.judged }
    ensures { timed_refusal result ≡ item_refusal _slots.now _types.now (item_by _nodes.now item.now) }
{
    let value = part_at(table, item.value);
    match item.kind {
        ItemKind::Assignment(which) => match item.target {
            None => timed(Some(Violation::new(Rule::NotAssignable, item.place))),
            Some(k) => { timed(assignment_violation(item.place, which, part_at(table, k), value)) }
        },
        ItemKind::Constraint(which) => constraint_violation(which, value),
        ItemKind::Specification(which) => specification_violation(which, value),
    }
}

// What is told and noted of the node of this number.
fn part_at<'c>(table: &Table<'c>, k: usize) -> Part<'c>
    ensures { (slots : List Slot) (types : List ValueType) (parts : List Resolved) → Tells slots types parts table.now.operands.items table.now.judged → IsOf slots types (part_at parts k) result }
{
    Part {
        kind: told_at(table.operands.as_slice(), k).kind,
        judged: table.judged.at(k),
    }
}

fn assignment_violation(
    place: Place,
    which: AssignmentKind,
    target: Part<'_>,
    value: Part<'_>,
) -> Option<Violation>
    ensures { (slots : List Slot) (types : List ValueType) (r e : Resolved) → IsOf slots types r target.entry → IsOf slots types e value.entry → as_refusal result ≡ assignment_refusal slots types place which (Some r) e }
{
    first(
        left_violation(place, which, target),
        first(
            value_violation(which, value.judged),
            no_taker(place, target.kind, value.kind),
        ),
    )
}

fn no_taker(place: Place, x: Kind, e: Kind) -> Option<Violation>
    ensures { as_refusal result ≡ no_taker place x e }
{
    if takes(x, e) {
        None
    } else {
        Some(Violation::new(Rule::TypeMismatch, place))
    }
}

// The left side, which begins at this place.
fn left_violation(place: Place, which: AssignmentKind, target: Part<'_>) -> Option<Violation>
    ensures { (slots : List Slot) (types : List ValueType) (r : Resolved) → IsOf slots types r target.entry → as_refusal result ≡ left_refusal slots types place which r }
{
    first(
        target.judged.inner,
        first(
            target_violation(place, which, target.judged),
            no_value(place, target.kind),
        ),
    )
}

// What is assigned is no variable that may be assigned so; the left side begins at this place.
fn target_violation(place: Place, which: AssignmentKind, target: Judged<'_>) -> Option<Violation>
    ensures { (slots : List Slot) (types : List ValueType) (r : Resolved) → IsJudged slots types r target.entry → as_refusal result ≡ target_refusal slots place which r }
{
    if takes_so(which, target) {
        None
    } else {
        Some(Violation::new(Rule::NotAssignable, place))
    }
}

#[tactic(auto, using(crate::proofs::Assigning::later_same))]
fn takes_so(which: AssignmentKind, target: Judged<'_>) -> bool
    ensures { (slots : List Slot) (types : List ValueType) (r : Resolved) → IsJudged slots types r target.entry → result ≡ is_assignable slots which r }
{
    match which {
        AssignmentKind::Init => target.takes_init,
        AssignmentKind::Next => target.takes_later,
        AssignmentKind::Current => target.takes_later,
    }
}

fn value_violation(which: AssignmentKind, value: Judged<'_>) -> Option<Violation>
    ensures { (slots : List Slot) (types : List ValueType) (e : Resolved) → IsJudged slots types e value.entry → as_refusal result ≡ kind_refusal slots types (context_of_side which) e }
{
    match which {
        AssignmentKind::Next => value.notes.step_set,
        AssignmentKind::Init | AssignmentKind::Current => value.notes.state_set,
    }
}

fn constraint_violation<'c>(which: ConstraintKind, value: Part<'c>) -> Option<TimedViolation<'c>>
    ensures { (slots : List Slot) (types : List ValueType) (e : Resolved) → IsOf slots types e value.entry → timed_refusal result ≡ formula_refusal slots types (context_of_constraint which) e }
{
    at_root(value, timed(constraint_note(which, value.judged.notes)))
}

// What is noted of an expression in the context of a constraint.
fn constraint_note(which: ConstraintKind, notes: Notes<'_>) -> Option<Violation>
    ensures { (refusal : Context → Option ARefusal) → AreNotes refusal notes.entry → as_refusal result ≡ refusal (context_of_constraint which) }
{
    match which {
        ConstraintKind::Trans => notes.step,
        ConstraintKind::Init | ConstraintKind::Invar | ConstraintKind::Justice => notes.state,
    }
}

fn specification_violation<'c>(
    which: SpecificationKind,
    value: Part<'c>,
) -> Option<TimedViolation<'c>>
    ensures { (slots : List Slot) (types : List ValueType) (e : Resolved) → IsOf slots types e value.entry → timed_refusal result ≡ formula_refusal slots types (context_of_specification which) e }
{
    at_root(value, specification_note(which, value.judged.notes))
}

// What is noted of an expression in the context of a specification.
fn specification_note<'c>(which: SpecificationKind, notes: Notes<'c>) -> Option<TimedViolation<'c>>
    ensures { (refusal : Context → Option ARefusal) → AreNotes refusal notes.entry → timed_refusal result ≡ refusal (context_of_specification which) }
{
    match which {
        SpecificationKind::Invariant => timed(notes.state),
        SpecificationKind::Temporal => notes.path,
    }
}

// What is broken by an expression that has to be a boolean, where it breaks this inside.
fn at_root<'c>(value: Part<'c>, inside: Option<TimedViolation<'c>>) -> Option<TimedViolation<'c>>
    ensures { timed_refusal result ≡ at_root value.entry.judged.is_window value.entry.judged.place value.entry.kind (timed_refusal inside.entry) }
{
    match inside {
        None => timed(no_boolean(value.judged.place, value.kind)),
        Some(broken) => {
            let is_boolean = value.judged.is_window || is_boolean(value.kind);
            Some(first_at_root(is_boolean, value.judged.place, broken))
        }
    }
}

fn is_boolean(kind: Kind) -> bool
    ensures { result ≡ is_boolean kind }
{
    match kind {
        Kind::Boolean => true,
        _ => false,
    }
}

// At the root, that it is no boolean comes before the rules that are asked after that.
fn first_at_root<'c>(
    is_boolean: bool,
    place: Place,
    broken: TimedViolation<'c>,
) -> TimedViolation<'c>
    ensures { timed_refusal (Some result) ≡ Some (first_at_root is_boolean place (as_told broken.entry)) }
{
    let violation = broken.violation;
    if !is_boolean && is_after_kind(violation.rule) && is_at(violation.place, place) {
        TimedViolation {
            violation: Violation::new(Rule::TypeMismatch, place),
            bounds: None,
        }
    } else {
        broken
    }
}

fn is_after_kind(rule: Rule) -> bool
    ensures { result ≡ is_after_kind rule }
{
    match rule {
        Rule::WordWidth | Rule::NotConstant | Rule::BadSelection | Rule::IntWidth => true,
        _ => false,
    }
}

fn is_at(a: Place, b: Place) -> bool
    ensures { result ≡ is_at a b }
{
    a.line == b.line && a.column == b.column
}

// A place where TRUE or FALSE is wanted, and there is something else.
fn no_boolean(place: Place, kind: Kind) -> Option<Violation>
    ensures { as_refusal result ≡ no_boolean place kind }
{
    match kind {
        Kind::Boolean => None,
        _ => Some(Violation::new(Rule::TypeMismatch, place)),
    }
}

// The refusal by the rule that is broken.
fn refused_by(alloc: Global, broken: TimedViolation<'_>) -> Result<(), TextStop>
    ensures { Judges result (timed_refusal (Some broken.entry)) }
{
    let detail = match broken.bounds {
        None => None,
        Some(bounds) => Some(text_of(alloc, bounds)?),
    };
    Err(TextStop::Refused(Refusal {
        rule: broken.violation.rule,
        place: broken.violation.place,
        detail,
    }))
}

// Bounds as they are told.
fn text_of(alloc: Global, bounds: ToldBounds<'_>) -> Result<Text, AllocError>
    ensures { IfOk result (λ t. t ≡ text_of (told_bounds bounds.entry)) }
{
    match bounds {
        ToldBounds::Written(bounds) => bounds_text(alloc, bounds.low, bounds.high),
        ToldBounds::Kept(low, high) => {
            let (low, high) = (i64::from(low), i64::from(high));
            bounds_text(alloc, &WholeNumber::new(low), &WholeNumber::new(high))
        }
    }
}

fn bounds_text(alloc: Global, low: &WholeNumber, high: &WholeNumber) -> Result<Text, AllocError>
    ensures { IfOk result (λ t. t ≡ bounds_text low.now high.now) }
{
    let first = low.to_text(alloc)?;
    let last = high.to_text(alloc)?;
    let text = format!(in alloc; "{first},{last}")?;
    Text::from_str(alloc, text.as_str())
}
