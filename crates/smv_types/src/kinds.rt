//! The rules of kinds and contexts, over nodes.

ghost use Rattle.std.specs.Prelude.{◌≡◌, ℕ, ℤ, List, [], ◌∷◌, IfOk, None, Option, Some, false, map, slice_get, slice_index_or};
ghost use Rattle.smv_tree.specs.declared.refusal.Refusal.{Refusal};
ghost use Rattle.smv_tree.specs.declared.tree.AssignmentKind.TheVariants as side;
ghost use Rattle.value_types.specs.declared.value_type.ValueType.{ValueType};
ghost use Rattle.std.specs.Option.{option_copied};
ghost use Rattle.smv_declared.specs.declared.constant.Constant.TheVariants.{NotConstant};
ghost use Rattle.smv_declared.specs.Constants.{constant_of, constants_of};
ghost use Rattle.smv_kinds.specs.Contexts.{kind_in_context};
ghost use Rattle.smv_kinds.specs.Kinds.{next_kind};
ghost use Rattle.smv_slots.specs.declared.slot.Slot.{Slot};
ghost use Rattle.smv_slots.specs.Slots.{is_input};
ghost use Rattle.smv_resolve.specs.declared.node.Naming.TheVariants as naming;
ghost use Rattle.smv_resolve.specs.Resolved.{Operands, Resolved, Resolved as R, operands_of, parts_of, resolved_by};
ghost use Rattle.smv_tree.specs.declared.place.Place.{Place};
ghost use Rattle.smv_value.specs.declared.operator.Operator.TheVariants as operator;
ghost use Rattle.smv_value.specs.declared.value.FaultRule.TheVariants as fault;
ghost use Rattle.smv_meaning.specs.Formulas.{is_temporal};
ghost use Rattle.smv_verdicts.specs.Verdicts.{or_else, plain};
ghost use Rattle.smv_types.specs.Judged.{AreJudged, AreNotes, IsJudged, Tells, as_refusal, judged_at, no_indexing, read_bounds, timed_refusal, told_bounds};
ghost use Rattle.smv_types.specs.Kinds.{both_integers, broken_by, chosen_refusal, constant_here, has_values, index_rule, indexing_of, inner_refusal, input_here, is_assignable, is_input_slot, is_window_operator, kinds_broken, next_broken, no_value, not_within, operands_refusal, rule_of, takes_assignment, temporal_here, told, waiting_refusal, window_refusal, with_bounds, written_bounds};

use crate::judged::{
    Indexing, Judged, Notes, TimedViolation, ToldBounds, Violation, WrittenBounds,
};
use crate::judged_list::JudgedList;
use crate::notes::{
    as_operand, both, by_sets, everywhere, first, input_here, next_here, temporal_here,
    under_element, under_name, under_next,
};
use crate::told::{kinds_of, told, told_at};
use smv_declared::{Constant, integer_at};
use smv_kinds::{Kind, KindRule, Operand, kind_in_context, next_kind};
use smv_meaning::is_temporal;
use smv_resolve::{ExprNode, Naming, first as before, last};
use smv_slots::Slot;
use smv_tree::{Place, Rule, VariableKind};
use smv_value::{FaultRule, Operator, Value, is_value};
use smv_verdicts::START;
use std::alloc::{AllocError, Global};
use value_types::ValueType;
use whole_numbers::WholeNumber;

/// What is told and noted of nodes.
#[derive(Drop)]
pub(crate) struct Table<'c> {
    pub operands: Vec<Operand>,
    pub judged: JudgedList<'c>,
}

/// What is told and noted of each node, where these are the constants that they are. Linear in the nodes.
pub(crate) fn judge_nodes<'c>(
    alloc: Global,
    slots: &[Slot],
    types: &[ValueType],
    nodes: &[ExprNode],
    constants: &'c [Constant],
) -> Result<Table<'c>, AllocError>
    requires { constants.now ≡ map constant_of (parts_of nodes.now) }
    ensures { IfOk result (λ table. Tells slots.now types.now (parts_of nodes.now) table.operands.items table.judged) }
{
    let kinds = kinds_of(alloc, types)?;
    let mut operands = Vec::with_capacity(alloc, nodes.len())?;
    let mut judged = JudgedList::with_capacity(alloc, nodes.len())?;
    for (i, node) in nodes.iter().enumerate() {
        let operand = told(slots, kinds.as_slice(), *node, operands.as_slice());
        let one = judge(
            alloc,
            slots,
            *node,
            before(constants, i),
            operands.as_slice(),
            &judged,
        )?;
        operands.push(operand)?;
        judged.push(one)?;
    }
    Ok(Table { operands, judged })
}

// What is noted of a node, over what is told and noted of those before it.
fn judge<'c>(
    alloc: Global,
    slots: &[Slot],
    node: ExprNode,
    constants: &'c [Constant],
    operands: &[Operand],
    table: &JudgedList<'c>,
) -> Result<Judged<'c>, AllocError>
    ensures { IfOk result (λ j. (types : List ValueType) (parts : List Resolved) → constants.now ≡ map constant_of parts → Tells slots.now types parts operands.now table.now
        → IsJudged slots.now types (resolved_by parts node) j) }
{
    match node {
        ExprNode::Constant(place, value) => Ok(judge_constant(place, value)),
        ExprNode::Slot(place, n) => Ok(judge_slot(slots, place, n)),
        ExprNode::Whole(place, _) => Ok(judge_whole(place)),
        ExprNode::Named(place, naming, a) => Ok(judge_named(
            slots,
            place,
            naming,
            table.at(a),
            told_at(operands, a).kind,
        )),
        ExprNode::Next(place, a) => Ok(judge_next(place, table.at(a), told_at(operands, a).kind)),
        ExprNode::Operand(a) => Ok(table.at(a)),
        ExprNode::Apply(place, operator, count) => {
            let noted = table.last(alloc, count)?;
            Ok(judge_apply(
                place,
                operator,
                written_bounds(last(constants, count)),
                last(operands, count),
                noted.as_slice(),
            ))
        }
        ExprNode::Link(place, operator, a, b) => Ok(judge_apply(
            place,
            operator,
            bounds_at(constants, a, b),
            &[told_at(operands, a), told_at(operands, b)],
            &[table.at(a), table.at(b)],
        )),
    }
}

// The bounds before a formula, where they are constants.
fn written_bounds(constants: &[Constant]) -> Option<WrittenBounds<'_>>
    ensures { read_bounds result ≡ written_bounds constants.now }
{
    match constants {
        [low, high, ..] => both_integers(low.integer(), high.integer()),
        _ => None,
    }
}

// The same, by the numbers of the constants.
fn bounds_at(constants: &[Constant], a: usize, b: usize) -> Option<WrittenBounds<'_>>
    ensures { read_bounds result ≡ written_bounds (slice_index_or constants.now a NotConstant ∷ slice_index_or constants.now b NotConstant ∷ []) }
{
    both_integers(integer_at(constants, a), integer_at(constants, b))
}

fn both_integers<'c>(
    low: Option<&'c WholeNumber>,
    high: Option<&'c WholeNumber>,
) -> Option<WrittenBounds<'c>>
    ensures { read_bounds result ≡ both_integers (option_copied low.entry) (option_copied high.entry) }
{
    match (low, high) {
        (Some(low), Some(high)) => Some(WrittenBounds { low, high }),
        _ => None,
    }
}

fn judged_at<'c>(table: &[Judged<'c>], k: usize) -> Judged<'c>
    ensures { result ≡ judged_at table.now k }
{
    match table.get(k) {
        None => noted(START, everywhere(None)),
        Some(judged) => *judged,
    }
}

// What is noted of what cannot be assigned.
fn noted<'c>(place: Place, notes: Notes<'c>) -> Judged<'c>
    ensures { result ≡ record { place = place; notes = notes.entry; inner = None; defined = None; indexing = no_indexing; is_window = false; takes_init = false; takes_later = false } }
{
    Judged {
        place,
        notes,
        inner: None,
        defined: None,
        indexing: no_indexing(),
        is_window: false,
        takes_init: false,
        takes_later: false,
    }
}

// What asks no index.
fn no_indexing() -> Indexing
    ensures { result ≡ no_indexing }
{
    Indexing {
        by_constant: false,
        passed: false,
        asked: false,
        within: false,
    }
}

fn judge_constant<'c>(place: Place, value: Value) -> Judged<'c>
    ensures { (slots : List Slot) (types : List ValueType) → IsJudged slots types (R.Constant place value) result }
{
    noted(place, everywhere(constant_here(place, value)))
}

fn constant_here(place: Place, value: Value) -> Option<Violation>
    ensures { as_refusal result ≡ constant_here place value }
{
    if is_value(value) {
        None
    } else {
        Some(Violation::new(Rule::IntWidth, place))
    }
}

fn judge_whole<'c>(place: Place) -> Judged<'c>
    ensures { (slots : List Slot) (types : List ValueType) (i : ℕ) → IsJudged slots types (R.Whole place i) result }
{
    Judged {
        takes_init: true,
        takes_later: true,
        ..noted(place, everywhere(None))
    }
}

// What is noted of the slot of this number.
fn judge_slot<'c>(slots: &[Slot], place: Place, n: usize) -> Judged<'c>
    ensures { (types : List ValueType) → IsJudged slots.now types (R.Slot place n) result }
{
    match slots.get(n) {
        None => noted(place, everywhere(None)),
        Some(slot) => judge_slot_of(place, slot.kind),
    }
}

fn judge_slot_of<'c>(place: Place, kind: VariableKind) -> Judged<'c>
    ensures place { result.place ≡ place }
    ensures notes { AreNotes (λ c. input_here c place (is_input kind)) result.notes }
    ensures inner { result.inner ≡ None }
    ensures defined { result.defined ≡ None }
    ensures indexing { result.indexing ≡ no_indexing }
    ensures window { result.is_window ≡ false }
    ensures init { result.takes_init ≡ takes_assignment side.Init kind }
    ensures later { result.takes_later ≡ takes_assignment side.Next kind }
{
    match kind {
        VariableKind::State => Judged {
            takes_init: true,
            takes_later: true,
            ..noted(place, input_here(place, false))
        },
        VariableKind::Frozen => Judged {
            takes_init: true,
            ..noted(place, input_here(place, false))
        },
        VariableKind::Input => noted(place, input_here(place, true)),
    }
}

// What a name stands for, which is of this kind.
fn judge_named<'c>(
    slots: &[Slot],
    place: Place,
    naming: Naming,
    a: Judged<'c>,
    kind: Kind,
) -> Judged<'c>
    ensures { (types : List ValueType) (r : Resolved) → IsJudged slots.now types r a.entry → kind ≡ (told slots.now types r).kind → IsJudged slots.now types (R.Named place naming r) result }
{
    match naming {
        Naming::Given => judge_given(place, a),
        Naming::Defined => judge_defined(place, a, kind),
        Naming::Element => judge_element(place, a),
        Naming::Array(name, first) => judge_array(slots, place, name, first, a),
        Naming::Passed => judge_passed(place, a),
    }
}

// What a parameter was given.
fn judge_given<'c>(place: Place, a: Judged<'c>) -> Judged<'c>
    ensures { (slots : List Slot) (types : List ValueType) (r : Resolved) → IsJudged slots types r a.entry → IsJudged slots types (R.Named place naming.Given r) result }
{
    Judged {
        inner: a.notes.name_set,
        takes_init: a.takes_init,
        takes_later: a.takes_later,
        ..noted(place, under_name(a.notes))
    }
}

// An element of an array.
fn judge_element<'c>(place: Place, a: Judged<'c>) -> Judged<'c>
    ensures { (slots : List Slot) (types : List ValueType) (r : Resolved) → IsJudged slots types r a.entry → IsJudged slots types (R.Named place naming.Element r) result }
{
    Judged {
        inner: a.inner,
        indexing: Indexing {
            within: true,
            ..no_indexing()
        },
        takes_init: a.takes_init,
        takes_later: a.takes_later,
        ..noted(place, under_element(a.notes))
    }
}

// An array or an element of one, where this is the place of the array's name, and the slot of its first element.
fn judge_array<'c>(
    slots: &[Slot],
    place: Place,
    name: Place,
    first: usize,
    a: Judged<'c>,
) -> Judged<'c>
    ensures { (types : List ValueType) (r : Resolved) → IsJudged slots.now types r a.entry → IsJudged slots.now types (R.Named place (naming.Array name first) r) result }
{
    let named = input_here(name, is_input_at(slots, first));
    Judged {
        inner: a.inner,
        takes_init: a.takes_init,
        takes_later: a.takes_later,
        ..noted(place, both(named, under_element(a.notes)))
    }
}

// The slot of this number is an input.
fn is_input_at(slots: &[Slot], n: usize) -> bool
    ensures { result ≡ is_input_slot (slice_get slots.now n) }
{
    match slots.get(n) {
        None => false,
        Some(slot) => slot.kind == VariableKind::Input,
    }
}

// An index with which a parameter was given an array.
fn judge_passed<'c>(place: Place, a: Judged<'c>) -> Judged<'c>
    ensures { (slots : List Slot) (types : List ValueType) (r : Resolved) → IsJudged slots types r a.entry → IsJudged slots types (R.Named place naming.Passed r) result }
{
    Judged {
        indexing: Indexing {
            passed: true,
            ..no_indexing()
        },
        ..noted(place, under_name(a.notes))
    }
}

// What a definition stands for, which is of this kind.
fn judge_defined<'c>(place: Place, a: Judged<'c>, kind: Kind) -> Judged<'c>
    ensures { (slots : List Slot) (types : List ValueType) (r : Resolved) → IsJudged slots types r a.entry → kind ≡ (told slots types r).kind → IsJudged slots types (R.Named place naming.Defined r) result }
{
    let whole = everywhere(no_value(a.place, kind));
    let notes = both(under_name(a.notes), whole);
    Judged {
        defined: notes.name,
        ..noted(place, notes)
    }
}

// A place where a value is wanted, and there is none.
pub(crate) fn no_value(place: Place, kind: Kind) -> Option<Violation>
    ensures { as_refusal result ≡ no_value place kind }
{
    if has_values(kind) {
        None
    } else {
        Some(Violation::new(Rule::TypeMismatch, place))
    }
}

fn has_values(kind: Kind) -> bool
    ensures { result ≡ has_values kind }
{
    match kind {
        Kind::Array | Kind::Instance | Kind::Nothing => false,
        Kind::Boolean
        | Kind::Word { .. }
        | Kind::Discrete(_)
        | Kind::BooleanSet
        | Kind::DiscreteSet(_) => true,
    }
}

// `next` of what is of this kind.
fn judge_next<'c>(place: Place, a: Judged<'c>, kind: Kind) -> Judged<'c>
    ensures { (slots : List Slot) (types : List ValueType) (r : Resolved) → IsJudged slots types r a.entry → kind ≡ (told slots types r).kind → IsJudged slots types (R.Next place r) result }
{
    let whole = everywhere(next_broken(place, kind));
    noted(
        place,
        both(under_next(a.notes), both(next_here(place), whole)),
    )
}

fn next_broken(place: Place, kind: Kind) -> Option<Violation>
    ensures { as_refusal result ≡ next_broken place (next_kind kind) }
{
    match next_kind(kind) {
        Ok(_) => None,
        Err(rule) => Some(Violation::new(rule_of(rule), place)),
    }
}

// An operator, over what is told and noted of its operands, and the bounds that these are.
fn judge_apply<'c>(
    place: Place,
    operator: Operator,
    bounds: Option<WrittenBounds<'c>>,
    operands: &[Operand],
    table: &[Judged<'c>],
) -> Judged<'c>
    ensures { (slots : List Slot) (types : List ValueType) (rs : List Resolved) → read_bounds bounds.entry ≡ written_bounds (constants_of (operands_of rs)) → Tells slots types rs operands.now table.now
        → IsJudged slots types (R.Apply place operator (operands_of rs)) result }
{
    let inside = all_noted(operator, table);
    let own = own_notes(place, operator, bounds, operands);
    let notes = both(inside, own);
    let is_array = is_array(operator);
    Judged {
        inner: inner_of(place, operator, operands, table),
        indexing: indexing_of(operator, operands, table),
        is_window: is_window_operator(operator),
        takes_init: is_array,
        takes_later: is_array,
        ..noted(place, notes)
    }
}

// A whole array, or an array with an index.
fn is_array(operator: Operator) -> bool
    ensures init { (slots : List Slot) (place : Place) (rs : Operands) → result ≡ is_assignable slots side.Init (R.Apply place operator rs) }
    ensures later { (slots : List Slot) (place : Place) (rs : Operands) → result ≡ is_assignable slots side.Next (R.Apply place operator rs) }
{
    match operator {
        Operator::WholeArray | Operator::Index => true,
        _ => false,
    }
}

// What an operator says of the index of an element, over what is told and noted of operands.
fn indexing_of(operator: Operator, operands: &[Operand], table: &[Judged<'_>]) -> Indexing
    ensures { (slots : List Slot) (types : List ValueType) (place : Place) (rs : List Resolved) → Tells slots types rs operands.now table.now
        → result ≡ indexing_of slots types (R.Apply place operator (operands_of rs)) }
{
    let first = judged_at(table, 0).indexing;
    match operator {
        Operator::Subscript => Indexing {
            by_constant: told_at(operands, 0).constant.is_some(),
            passed: first.passed,
            ..no_indexing()
        },
        Operator::Equal => Indexing {
            by_constant: first.by_constant,
            passed: first.passed,
            asked: true,
            within: false,
        },
        _ => no_indexing(),
    }
}

// What an operator breaks on a left side, over what is told and noted of its operands.
fn inner_of(
    place: Place,
    operator: Operator,
    operands: &[Operand],
    table: &[Judged<'_>],
) -> Option<Violation>
    ensures { (slots : List Slot) (types : List ValueType) (rs : List Resolved) → Tells slots types rs operands.now table.now
        → as_refusal result ≡ inner_refusal slots types (R.Apply place operator (operands_of rs)) }
{
    match operator {
        Operator::Index => inner_of_index(place, operands, table),
        Operator::Choice(FaultRule::IndexOutside) => inner_of_choice(place, table),
        _ => None,
    }
}

// What an array that waits for more indices breaks there.
fn inner_of_index(place: Place, operands: &[Operand], table: &[Judged<'_>]) -> Option<Violation>
    ensures { (slots : List Slot) (types : List ValueType) (rs : List Resolved) → Tells slots types rs operands.now table.now
        → as_refusal result ≡ inner_refusal slots types (R.Apply place operator.Index (operands_of rs)) }
{
    if table.len() < 2 {
        return None;
    }
    let array = judged_at(table, 0);
    let index = waiting(
        place,
        told_at(operands, 0),
        told_at(operands, 1),
        judged_at(table, 1),
    );
    first(array.defined, first(array.inner, index))
}

// What an index of an array that waits for more breaks there, over what is told of the array and of the index.
fn waiting(place: Place, array: Operand, index: Operand, i: Judged<'_>) -> Option<Violation>
    ensures { (slots : List Slot) (types : List ValueType) (a r : Resolved) → array ≡ told slots types a → index ≡ told slots types r → IsJudged slots types r i.entry
        → as_refusal result ≡ waiting_refusal slots types place a r }
{
    let kinds = kinds_broken(place, Operator::Index, false, &[array, index]);
    let outside = not_within(place, i.indexing.within, index.constant.is_some());
    first(i.notes.name, first(kinds, outside))
}

// An index of an array that waits for more is no constant, or none of the array.
fn not_within(place: Place, is_within: bool, is_constant: bool) -> Option<Violation>
    ensures { as_refusal result ≡ not_within place is_within is_constant }
{
    if is_within {
        None
    } else {
        Some(outside(place, is_constant))
    }
}

// What the choice of an element breaks there.
fn inner_of_choice(place: Place, table: &[Judged<'_>]) -> Option<Violation>
    ensures { (slots : List Slot) (types : List ValueType) (rs : List Resolved) → AreJudged slots types rs table.now
        → as_refusal result ≡ inner_refusal slots types (R.Apply place (operator.Choice fault.IndexOutside) (operands_of rs)) }
{
    if table.len() < 2 {
        return None;
    }
    chosen(place, judged_at(table, 0), judged_at(table, 1).inner)
}

// What an index by which an element is chosen breaks there, where the element breaks this.
fn chosen(place: Place, condition: Judged<'_>, inner: Option<Violation>) -> Option<Violation>
    ensures { (slots : List Slot) (types : List ValueType) (r : Resolved) (broken : Option Refusal) → IsJudged slots types r condition.entry → as_refusal inner ≡ broken
        → as_refusal result ≡ chosen_refusal slots types place r broken }
{
    let indexing = condition.indexing;
    if indexing.passed {
        first(condition.notes.name_set, inner)
    } else if indexing.asked {
        first(
            condition.notes.name,
            Some(outside(place, indexing.by_constant)),
        )
    } else {
        None
    }
}

// An index on a left side that is no constant, or none of the array.
fn outside(place: Place, is_constant: bool) -> Violation
    ensures { as_refusal (Some result) ≡ Some (plain (index_rule is_constant) place) }
{
    if is_constant {
        Violation::new(Rule::BadSelection, place)
    } else {
        Violation::new(Rule::NotConstant, place)
    }
}

// What is noted of all operands of an operator.
fn all_noted<'c>(operator: Operator, table: &[Judged<'c>]) -> Notes<'c>
    ensures { (slots : List Slot) (types : List ValueType) (rs : List Resolved) → AreJudged slots types rs table.now → AreNotes (λ c. operands_refusal slots types operator 0 c (operands_of rs)) result }
{
    let mut all = none_noted(table);
    for (k, judged) in table.iter().enumerate() {
        all = both(all, as_operand(operator, k, judged.notes));
    }
    all
}

// What is noted of no operands; notes of these may be put to it.
fn none_noted<'c>(_table: &[Judged<'c>]) -> Notes<'c>
    ensures { AreNotes (λ c. as_refusal None) result }
{
    everywhere(None)
}

// What an operator itself breaks in each context.
fn own_notes<'c>(
    place: Place,
    operator: Operator,
    bounds: Option<WrittenBounds<'c>>,
    operands: &[Operand],
) -> Notes<'c>
    ensures { AreNotes (λ c. or_else (temporal_here c place operator) (kinds_broken place operator (read_bounds bounds.entry) (kind_in_context c.set operator operands.now))) result }
{
    if is_temporal(operator) {
        temporal_here(place, timed_broken(place, operator, bounds, operands))
    } else {
        by_sets(
            kinds_broken(place, operator, false, operands),
            kinds_broken(place, operator, true, operands),
        )
    }
}

// The rule that operands break by their kinds, where sets may stand or may not. It is told of no temporal operator.
fn kinds_broken(
    place: Place,
    operator: Operator,
    sets: bool,
    operands: &[Operand],
) -> Option<Violation>
    ensures { (bounds : Option (ℤ × ℤ)) → is_temporal operator ≡ false → as_refusal result ≡ kinds_broken place operator bounds (kind_in_context sets operator operands.now) }
{
    match kind_in_context(sets, operator, operands) {
        Ok(_) => None,
        Err(rule) => Some(Violation::new(rule_of(rule), place)),
    }
}

// The rule that operands of a temporal operator break by their kinds, where one may stand.
fn timed_broken<'c>(
    place: Place,
    operator: Operator,
    bounds: Option<WrittenBounds<'c>>,
    operands: &[Operand],
) -> Option<TimedViolation<'c>>
    ensures { timed_refusal result ≡ kinds_broken place operator (read_bounds bounds.entry) (kind_in_context false operator operands.now) }
{
    match kind_in_context(false, operator, operands) {
        Ok(_) => None,
        Err(rule) => Some(broken_by(place, operator, bounds, rule)),
    }
}

fn broken_by<'c>(
    place: Place,
    operator: Operator,
    bounds: Option<WrittenBounds<'c>>,
    rule: KindRule,
) -> TimedViolation<'c>
    ensures { timed_refusal (Some result) ≡ Some (broken_by place operator (read_bounds bounds.entry) rule) }
{
    match operator {
        Operator::Window(_) => match rule {
            KindRule::NotConstant | KindRule::BadBound => window_violation(place, bounds),
            _ => plainly(rule_of(rule), place),
        },
        Operator::Bounded(_, low, high) => match rule {
            KindRule::BadBound => with_bounds(place, ToldBounds::Kept(low, high)),
            _ => plainly(rule_of(rule), place),
        },
        _ => plainly(rule_of(rule), place),
    }
}

// A rule that is broken, of which no bounds are told.
fn plainly<'c>(rule: Rule, place: Place) -> TimedViolation<'c>
    ensures { timed_refusal (Some result) ≡ Some (plain rule place) }
{
    TimedViolation {
        violation: Violation::new(rule, place),
        bounds: None,
    }
}

fn with_bounds<'c>(place: Place, bounds: ToldBounds<'c>) -> TimedViolation<'c>
    ensures { timed_refusal (Some result) ≡ Some (with_bounds place (told_bounds bounds.entry)) }
{
    TimedViolation {
        violation: Violation::new(Rule::BadBound, place),
        bounds: Some(bounds),
    }
}

// Bounds as they are written, which are none.
fn window_violation<'c>(place: Place, bounds: Option<WrittenBounds<'c>>) -> TimedViolation<'c>
    ensures { timed_refusal (Some result) ≡ Some (window_refusal place (read_bounds bounds.entry)) }
{
    match bounds {
        None => plainly(Rule::NotConstant, place),
        Some(bounds) => with_bounds(place, ToldBounds::Written(bounds)),
    }
}

// A temporal operator with its bounds as they are written.
fn is_window_operator(operator: Operator) -> bool
    ensures { result ≡ is_window_operator operator }
{
    match operator {
        Operator::Window(_) => true,
        _ => false,
    }
}

fn rule_of(rule: KindRule) -> Rule
    ensures { result ≡ rule_of rule }
{
    match rule {
        KindRule::SetHere => Rule::SetHere,
        KindRule::TypeMismatch => Rule::TypeMismatch,
        KindRule::WordWidth => Rule::WordWidth,
        KindRule::NotConstant => Rule::NotConstant,
        KindRule::BadSelection => Rule::BadSelection,
        KindRule::IntWidth => Rule::IntWidth,
        KindRule::BadBound => Rule::BadBound,
    }
}
