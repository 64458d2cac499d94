//! The kinds of nodes, and the integers that constants are.

ghost use Rattle.std.specs.Prelude.{◌≡◌, List, [], map, Some, IfOk, slice_get};
ghost use Rattle.std.specs.List.{list_any};
ghost use Rattle.value_types.specs.declared.value_type.ValueType.{ValueType};
ghost use Rattle.value_types.specs.Intervals.{interval_of};
ghost use Rattle.smv_resolve.specs.Resolved.{Resolved, resolved_by};
ghost use Rattle.smv_types.specs.Judged.{told_at};
ghost use Rattle.smv_types.specs.Kinds.{interval_with, is_symbol, kind_in, kind_of_slot, kind_of_some, kind_of_type, of_kind, told};
ghost use Rattle.smv_kinds.specs.Constants.{constant_given, integer_in};
ghost use Rattle.smv_kinds.specs.Kinds.{kind_given, kind_of_value};

use smv_kinds::{
    Discrete, Interval, Kind, KindRule, Operand, constant_given, kind_given, kind_of_value,
    next_kind,
};
use smv_resolve::{ExprNode, last};
use smv_slots::Slot;
use smv_value::{Operator, Value};
use std::alloc::{AllocError, Global};
use value_types::{Element, ValueType};

// The kind of a variable of each type.
pub(crate) fn kinds_of(alloc: Global, types: &[ValueType]) -> Result<Vec<Kind>, AllocError>
    ensures { IfOk result (λ kinds. kinds.items ≡ map kind_of_type types.now) }
{
    let mut kinds = Vec::new(alloc);
    for declared in types {
        kinds.push(kind_of_type(declared))?;
    }
    Ok(kinds)
}

fn kind_of_type(declared: &ValueType) -> Kind
    ensures { result ≡ kind_of_type declared.now }
{
    match declared {
        ValueType::Boolean => Kind::Boolean,
        ValueType::Word { signed, width } => Kind::Word {
            signed: *signed,
            width: *width,
        },
        ValueType::Range { .. } => Kind::Discrete(Discrete {
            integers: interval_of(declared),
            symbols: false,
        }),
        ValueType::Enumeration(elements) => Kind::Discrete(Discrete {
            integers: interval_of(declared),
            symbols: has_symbols(elements.as_slice()),
        }),
    }
}

fn interval_of(declared: &ValueType) -> Option<Interval>
    ensures { result ≡ interval_with (interval_of declared.now) }
{
    match declared.interval() {
        None => None,
        Some(i) => Some(Interval {
            low: i.low,
            high: i.high,
        }),
    }
}

fn has_symbols(elements: &[Element]) -> bool
    ensures { result ≡ list_any is_symbol elements.now }
{
    elements.iter().any(|e| is_symbol(*e))
}

fn is_symbol(element: Element) -> bool
    ensures { result ≡ is_symbol element }
{
    match element {
        Element::Sym(_) => true,
        Element::Int(_) => false,
    }
}

// What is told of a node, over what is told of those before it.
pub(crate) fn told(slots: &[Slot], kinds: &[Kind], node: ExprNode, operands: &[Operand]) -> Operand
    ensures { (types : List ValueType) (parts : List Resolved) → kinds.now ≡ map kind_of_type types → operands.now ≡ map (told slots.now types) parts → result ≡ told slots.now types (resolved_by parts node) }
{
    match node {
        ExprNode::Constant(_, value) => told_constant(value),
        ExprNode::Slot(_, n) => of_kind(kind_of_slot(slots, kinds, n)),
        ExprNode::Whole(..) => of_kind(Kind::Instance),
        ExprNode::Named(_, _, a) => told_at(operands, a),
        ExprNode::Next(_, a) => of_kind(kind_in(next_kind(told_at(operands, a).kind))),
        ExprNode::Operand(a) => told_at(operands, a),
        ExprNode::Apply(_, operator, count) => told_apply(operator, last(operands, count)),
        ExprNode::Link(_, operator, a, b) => {
            told_apply(operator, &[told_at(operands, a), told_at(operands, b)])
        }
    }
}

pub(crate) fn told_at(operands: &[Operand], k: usize) -> Operand
    ensures { result ≡ told_at operands.now k }
{
    match operands.get(k) {
        None => of_kind(Kind::Nothing),
        Some(operand) => *operand,
    }
}

fn told_constant(value: Value) -> Operand
    ensures { result ≡ record { kind = kind_of_value value; constant = integer_in (Some value) } }
{
    let constant = match value {
        Value::Int(z) => Some(z),
        Value::Bool(_) | Value::Sym(_) | Value::Word { .. } => None,
    };
    Operand {
        kind: kind_of_value(value),
        constant,
    }
}

// The kind of the slot of this number.
fn kind_of_slot(slots: &[Slot], kinds: &[Kind], n: usize) -> Kind
    ensures { (types : List ValueType) → kinds.now ≡ map kind_of_type types → result ≡ kind_of_slot types (slice_get slots.now n) }
{
    match slots.get(n) {
        None => Kind::Nothing,
        Some(slot) => kind_at(kinds, slot.declared),
    }
}

fn kind_at(kinds: &[Kind], k: usize) -> Kind
    ensures { (types : List ValueType) → kinds.now ≡ map kind_of_type types → result ≡ kind_of_some (slice_get types k) }
{
    match kinds.get(k) {
        None => Kind::Nothing,
        Some(kind) => *kind,
    }
}

// What is told of an operator over these operands.
fn told_apply(operator: Operator, operands: &[Operand]) -> Operand
    ensures { result ≡ record { kind = kind_in (kind_given operator operands.now); constant = constant_given operator operands.now } }
{
    Operand {
        kind: kind_in(kind_given(operator, operands)),
        constant: constant_given(operator, operands),
    }
}

fn kind_in(given: Result<Kind, KindRule>) -> Kind
    ensures { result ≡ kind_in given }
{
    match given {
        Ok(kind) => kind,
        Err(_) => Kind::Nothing,
    }
}

fn of_kind(kind: Kind) -> Operand
    ensures { result ≡ of_kind kind }
{
    Operand {
        kind,
        constant: None,
    }
}
