//! The limits of declared types, and the rules of constants and of their order.

ghost use Rattle.std.specs.Prelude.{◌≡◌, map, IfOk};
ghost use Rattle.smv_verdicts.specs.Verdicts.{Judges, first_of};
ghost use Rattle.smv_declared.specs.Refusals.{dimension_limits, element_limits, empty_limits, empty_of, limits_by, no_constant, no_constant_of, no_constants};

use crate::Constant;
use crate::constants::bound_of;
use crate::place::place_of;
use smv_scope::Scope;
use smv_tree::{Dimension, Expr, Place, Rule, TextStop, TypeExpr};
use smv_verdicts::refused;
use sqlite_items::Items;
use std::alloc::{AllocError, Global};

// The first and the last integer of a range or of a dimension, each with its place.
#[derive(Debug, Drop)]
pub(crate) struct Limits {
    pub low_place: Place,
    pub low: Constant,
    pub high_place: Place,
    pub high: Constant,
}

// What limits a type that has no dimensions.
#[derive(Debug, Drop)]
pub(crate) enum ElementLimits {
    Absent,
    // The width of a word.
    Width(Place, Constant),
    Range(Limits),
}

pub(crate) fn dimension_limits(
    alloc: Global,
    scope: &Scope,
    at: usize,
    dimensions: &[Dimension],
) -> Result<Items<Limits>, AllocError>
    ensures { IfOk result (λ all. all ≡ map (dimension_limits scope.now.program at) dimensions.now) }
{
    let mut all = Items::new(alloc);
    for dimension in dimensions {
        let limits = limits_by(alloc, scope, at, &dimension.low, &dimension.high)?;
        all.push(limits)?;
    }
    Ok(all)
}

pub(crate) fn element_limits(
    alloc: Global,
    scope: &Scope,
    at: usize,
    declared: &TypeExpr,
) -> Result<ElementLimits, AllocError>
    ensures { IfOk result (λ limits. limits ≡ element_limits scope.now.program at declared.now) }
{
    match declared {
        TypeExpr::Word(_, _, width) => {
            let constant = bound_of(alloc, scope, at, width)?;
            Ok(ElementLimits::Width(place_of(width), constant))
        }
        TypeExpr::Range(_, low, high) => {
            let limits = limits_by(alloc, scope, at, low, high)?;
            Ok(ElementLimits::Range(limits))
        }
        TypeExpr::Boolean(_) | TypeExpr::Enumeration(..) | TypeExpr::Instance(..) => {
            Ok(ElementLimits::Absent)
        }
    }
}

fn limits_by(
    alloc: Global,
    scope: &Scope,
    at: usize,
    low: &Expr,
    high: &Expr,
) -> Result<Limits, AllocError>
    ensures { IfOk result (λ limits. limits ≡ limits_by scope.now.program at low.now high.now) }
{
    let least = bound_of(alloc, scope, at, low)?;
    let greatest = bound_of(alloc, scope, at, high)?;
    Ok(Limits {
        low_place: place_of(low),
        low: least,
        high_place: place_of(high),
        high: greatest,
    })
}

// Each limit is a constant.
pub(crate) fn judge_constants(all: &[Limits]) -> Result<(), TextStop>
    ensures { Judges result (first_of no_constants all.now) }
{
    for limits in all {
        both_constants(limits)?;
    }
    Ok(())
}

pub(crate) fn judge_element_constants(element: &ElementLimits) -> Result<(), TextStop>
    ensures { Judges result (no_constant_of element.now) }
{
    match element {
        ElementLimits::Absent => Ok(()),
        ElementLimits::Width(place, width) => is_constant(*place, width),
        ElementLimits::Range(limits) => both_constants(limits),
    }
}

fn both_constants(limits: &Limits) -> Result<(), TextStop>
    ensures { Judges result (no_constants limits.now) }
{
    is_constant(limits.low_place, &limits.low)?;
    is_constant(limits.high_place, &limits.high)
}

fn is_constant(place: Place, bound: &Constant) -> Result<(), TextStop>
    ensures { Judges result (no_constant place bound.now) }
{
    match bound {
        Constant::NotConstant => Err(refused(Rule::NotConstant, place)),
        Constant::Integer(_) => Ok(()),
    }
}

// No first limit is greater than the second.
pub(crate) fn judge_orders(alloc: Global, all: &[Limits]) -> Result<(), TextStop>
    ensures { Judges result (first_of empty_limits all.now) }
{
    for limits in all {
        some_between(alloc, limits)?;
    }
    Ok(())
}

pub(crate) fn judge_element_order(alloc: Global, element: &ElementLimits) -> Result<(), TextStop>
    ensures { Judges result (empty_of element.now) }
{
    match element {
        ElementLimits::Absent | ElementLimits::Width(..) => Ok(()),
        ElementLimits::Range(limits) => some_between(alloc, limits),
    }
}

// The first bound is no greater than the second.
fn some_between(alloc: Global, limits: &Limits) -> Result<(), TextStop>
    ensures { Judges result (empty_limits limits.now) }
{
    match (&limits.low, &limits.high) {
        (Constant::Integer(low), Constant::Integer(high)) => if high.is_less(alloc, low)? {
            Err(refused(Rule::EmptyRange, limits.low_place))
        } else {
            Ok(())
        },
        _ => Ok(()),
    }
}
