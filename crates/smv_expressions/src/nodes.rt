//! Nodes of expressions, of parts that are read.

ghost use Rattle.std.specs.Prelude.{◌≡◌, [], ◌∷◌, Some, IfOk};
ghost use Rattle.smv_tree.specs.declared.tree.Expr.TheVariants as expr;
ghost use Rattle.smv_expressions.specs.Expressions.{Link, chain_of, over_all, chosen_by, implication_of, bounds_of, range_of, selected_by};

use crate::tokens::integer_of;
use smv_tree::{Expr, Place, Token};
use smv_value::{FaultRule, Logic, Operator};
use sqlite_items::{Boxed, Items};
use std::alloc::{AllocError, Global};

/// An operator at its place, and its right operand.
pub type Link = (Place, Operator, Expr);

/// One operand.
pub fn one(alloc: Global, e: Expr) -> Result<Items<Expr>, AllocError>
    ensures { IfOk result (λ es. es ≡ e ∷ []) }
{
    let mut operands = Items::new(alloc);
    operands.push(e)?;
    Ok(operands)
}

/// Two operands.
pub fn two(alloc: Global, a: Expr, b: Expr) -> Result<Items<Expr>, AllocError>
    ensures { IfOk result (λ es. es ≡ a ∷ b ∷ []) }
{
    let mut operands = Items::new(alloc);
    operands.push(a)?;
    operands.push(b)?;
    Ok(operands)
}

/// An operator over operands a level below.
pub fn over_all(alloc: Global, place: Place, operator: Operator, operands: Items<Expr>) -> Expr
    ensures { result ≡ over_all place operator operands }
{
    Expr::Apply(place, operator, Items::new(alloc), operands)
}

/// The range from an integer to another, with `..` at this place.
pub fn range_of(
    alloc: Global,
    first: &Token,
    dots: &Token,
    last: &Token,
) -> Result<Expr, AllocError>
    ensures { IfOk result (λ e. e ≡ range_of (first.now, Some (dots.now, last.now))) }
{
    let ends = two(alloc, integer_of(first), integer_of(last))?;
    let none = Items::new(alloc);
    Ok(Expr::Apply(dots.place, Operator::Range, ends, none))
}

/// An operator over one operand beside it and others a level below.
fn over(
    alloc: Global,
    place: Place,
    operator: Operator,
    operand: Expr,
    below: Items<Expr>,
) -> Result<Expr, AllocError>
    ensures { IfOk result (λ e. e ≡ expr.Apply place operator (operand ∷ []) below) }
{
    let beside = one(alloc, operand)?;
    Ok(Expr::Apply(place, operator, beside, below))
}

/// An operand and the links behind it: itself where there are none, and one node where there are some.
pub fn chain_of(alloc: Global, first: Expr, links: Items<Link>) -> Result<Expr, AllocError>
    ensures { IfOk result (λ e. e ≡ chain_of first links) }
{
    if links.is_empty() {
        return Ok(first);
    }
    let first = Boxed::new(alloc, first)?;
    Ok(Expr::Chain(first, links))
}

/// A condition, and its branches behind `?`.
pub fn chosen_by(
    alloc: Global,
    condition: Expr,
    question: &Token,
    first: Expr,
    second: Expr,
) -> Result<Expr, AllocError>
    ensures { IfOk result (λ e. e ≡ chosen_by condition (question.now, (first, second))) }
{
    let branches = two(alloc, first, second)?;
    let operator = Operator::Choice(FaultRule::CaseOpen);
    over(alloc, question.place, operator, condition, branches)
}

/// A left side, and the right side that it implies.
pub fn implication_of(
    alloc: Global,
    left: Expr,
    arrow: &Token,
    right: Expr,
) -> Result<Expr, AllocError>
    ensures { IfOk result (λ e. e ≡ implication_of (left, Some (arrow.now, right))) }
{
    let below = one(alloc, right)?;
    let operator = Operator::Logic(Logic::Implies);
    over(alloc, arrow.place, operator, left, below)
}

/// Bounds that stand in the brackets as in parentheses.
pub fn bounds_of(
    alloc: Global,
    bracket: &Token,
    bounds: (Expr, Expr),
) -> Result<(Expr, Expr), AllocError>
    ensures { IfOk result (λ x. (x.0, x.1) ≡ bounds_of (bracket.now, (bounds.0, bounds.1))) }
{
    let low = Boxed::new(alloc, bounds.0)?;
    let high = Boxed::new(alloc, bounds.1)?;
    Ok((
        Expr::Group(bracket.place, low),
        Expr::Group(bracket.place, high),
    ))
}

/// What is selected of an expression by one that stands behind `[`, or by two.
pub fn selected_by(
    alloc: Global,
    whole: Expr,
    bracket: &Token,
    first: Expr,
    second: Option<Expr>,
) -> Result<Expr, AllocError>
    ensures { IfOk result (λ e. e ≡ selected_by whole (bracket.now, (first, second))) }
{
    match second {
        None => {
            let below = one(alloc, first)?;
            over(alloc, bracket.place, Operator::Index, whole, below)
        }
        Some(low) => {
            let below = two(alloc, first, low)?;
            over(alloc, bracket.place, Operator::Select, whole, below)
        }
    }
}
