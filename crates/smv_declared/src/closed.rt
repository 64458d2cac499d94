//! Declarations whose types name nothing, or definitions that are literals: they say the same in each instance of their module.

ghost use Rattle.std.specs.Prelude.{◌≡◌, ℕ, true, map};
ghost use Rattle.smv_tree.specs.declared.tree.VariableKind.{VariableKind};
ghost use Rattle.smv_scope.specs.Targets.{seen};
ghost use Rattle.smv_declared.specs.Closed.{AreClosed, AreClosedLinks, IsAlike, IsClosed, IsClosedName, LeadsAlike};
ghost use Rattle.smv_declared.specs.Closed.{AreClosedDimensions, AreClosedLimits, IsClosedType, IsClosedVariable};

use smv_scope::{NameTarget, Scope, own_target};
use smv_tree::{Dimension, Expr, Name, Place, Start, TypeExpr, Variable};
use smv_value::Operator;

/// Whether it is seen that a variable has the same type in each instance of the module of this one. What an instance is given
/// breaks no rule of types.
pub(crate) fn is_closed_variable(scope: &Scope, from: usize, variable: &Variable) -> bool
    ensures { result ≡ true → IsClosedVariable scope.now.program from variable.now }
{
    if are_closed_dimensions(scope, from, variable.dimensions.as_slice()) {
        return is_closed_type(scope, from, &variable.declared);
    }
    false
}

fn are_closed_dimensions(scope: &Scope, from: usize, dimensions: &[Dimension]) -> bool
    ensures { result ≡ true → AreClosedDimensions scope.now.program from dimensions.now }
{
    for dimension in dimensions {
        if !are_closed_limits(scope, from, &dimension.low, &dimension.high) {
            return false;
        }
    }
    true
}

fn is_closed_type(scope: &Scope, from: usize, declared: &TypeExpr) -> bool
    ensures { result ≡ true → IsClosedType scope.now.program from declared.now }
{
    match declared {
        TypeExpr::Word(_, _, width) => is_closed(scope, from, width),
        TypeExpr::Range(_, low, high) => are_closed_limits(scope, from, low, high),
        TypeExpr::Boolean(_) | TypeExpr::Enumeration(..) | TypeExpr::Instance(..) => true,
    }
}

fn are_closed_limits(scope: &Scope, from: usize, low: &Expr, high: &Expr) -> bool
    ensures { result ≡ true → AreClosedLimits scope.now.program from low.now high.now }
{
    if is_closed(scope, from, low) {
        return is_closed(scope, from, high);
    }
    false
}

// Whether it is seen that an expression is the same in each instance. No limit of a type has a `next`.
#[cycle(closed)]
fn is_closed(scope: &Scope, from: usize, e: &Expr) -> bool
    ensures { result ≡ true → IsClosed scope.now.program from e.now }
{
    match e {
        Expr::Constant(..) => true,
        Expr::Name(name) => is_closed_name(scope, from, name),
        Expr::Group(_, inner) => is_closed(scope, from, inner.get()),
        Expr::Next(..) => false,
        Expr::Apply(_, _, beside, below) => {
            if are_closed(scope, from, beside.as_slice()) {
                return are_closed(scope, from, below.as_slice());
            }
            false
        }
        Expr::Chain(first, links) => {
            if is_closed(scope, from, first.get()) {
                return are_closed_links(scope, from, links.as_slice());
            }
            false
        }
    }
}

#[cycle(closed)]
fn are_closed(scope: &Scope, from: usize, operands: &[Expr]) -> bool
    ensures { result ≡ true → AreClosed scope.now.program from operands.now }
{
    for e in operands {
        if !is_closed(scope, from, e) {
            return false;
        }
    }
    true
}

#[cycle(closed)]
fn are_closed_links(scope: &Scope, from: usize, links: &[(Place, Operator, Expr)]) -> bool
    ensures { result ≡ true → AreClosedLinks scope.now.program from links.now }
{
    for link in links {
        if !is_closed(scope, from, &link.2) {
            return false;
        }
    }
    true
}

// A name of a definition of the module that is a literal.
fn is_closed_name(scope: &Scope, from: usize, name: &Name) -> bool
    ensures { result ≡ true → IsClosedName scope.now.program from name.now }
{
    if !name.members.is_empty() {
        return false;
    }
    match &name.start {
        Start::Own(x) => leads_to_literal(own_target(scope, from, x.name.as_str())),
        Start::Itself(_) => false,
    }
}

fn leads_to_literal(target: NameTarget) -> bool
    ensures { result ≡ true → LeadsAlike (seen target.entry) }
{
    match target {
        NameTarget::Defined { body, .. } => is_literal(body),
        _ => false,
    }
}

fn is_literal(e: &Expr) -> bool
    ensures { result ≡ true → IsAlike e.now }
{
    match e {
        Expr::Constant(..) => true,
        _ => false,
    }
}
