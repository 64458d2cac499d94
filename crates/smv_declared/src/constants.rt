//! The constants that expressions are.

ghost use Rattle.std.specs.Prelude.{◌≡◌, List, map, IfOk, slice_index_or};
ghost use Rattle.smv_resolve.specs.Resolved.{Resolved, part_of, parts_of, resolved_by};
ghost use Rattle.std.specs.Option.{option_copied};
ghost use Rattle.smv_declared.specs.Constants.{constant_of, integer_of, operated_by_two};
ghost use Rattle.smv_declared.specs.Types.{bound_of};
ghost use Rattle.smv_declared.specs.declared.constant.Constant.TheVariants.{NotConstant};

use crate::Constant;
use crate::constant::{constant_of_value, operated, operated_by_two};
use smv_resolve::{ExprNode, ResolveStop, last, resolve_wholly};
use smv_scope::Scope;
use smv_tree::Expr;
use smv_value::Operator;
use std::alloc::{AllocError, Global};
use whole_numbers::WholeNumber;

// What a bound or a width of a type is, in the instance of this number.
pub(crate) fn bound_of(
    alloc: Global,
    scope: &Scope,
    at: usize,
    e: &Expr,
) -> Result<Constant, AllocError>
    ensures { IfOk result (λ c. c ≡ bound_of scope.now.program at e.now) }
{
    if let Expr::Constant(_, value) = e {
        return Ok(constant_of_value(*value));
    }
    match resolve_wholly(alloc, scope, at, e) {
        Ok(single) => constant_of_node(alloc, single.nodes.as_slice(), single.root),
        Err(ResolveStop::Stuck(_)) => Ok(Constant::NotConstant),
        Err(ResolveStop::NoMemory) => Err(AllocError),
    }
}

// The constant that the node of this number is.
fn constant_of_node(alloc: Global, nodes: &[ExprNode], root: usize) -> Result<Constant, AllocError>
    ensures { IfOk result (λ c. c ≡ constant_of (part_of nodes.now root)) }
{
    let table = constants_of(alloc, nodes)?;
    copy_at(alloc, table.as_slice(), root)
}

/// The constant that each node is, in the order of the nodes. It takes a step for each node, and the only error is running out of memory.
pub fn constants_of(alloc: Global, nodes: &[ExprNode]) -> Result<Vec<Constant>, AllocError>
    ensures { IfOk result (λ table. table.items ≡ map constant_of (parts_of nodes.now)) }
{
    let mut table = Vec::new(alloc);
    for node in nodes {
        let constant = constant_by(alloc, *node, table.as_slice())?;
        table.push(constant)?;
    }
    Ok(table)
}

// The constant that a node is, over those of the nodes before it.
fn constant_by(alloc: Global, node: ExprNode, table: &[Constant]) -> Result<Constant, AllocError>
    ensures { (parts : List Resolved) → table.now ≡ map constant_of parts → IfOk result (λ c. c ≡ constant_of (resolved_by parts node)) }
{
    match node {
        ExprNode::Constant(_, value) => Ok(constant_of_value(value)),
        ExprNode::Named(_, _, a) => copy_at(alloc, table, a),
        ExprNode::Operand(a) => copy_at(alloc, table, a),
        ExprNode::Apply(_, operator, count) => operated(alloc, operator, last(table, count)),
        ExprNode::Link(_, operator, a, b) => linked(alloc, operator, table, a, b),
        ExprNode::Slot(..) | ExprNode::Whole(..) | ExprNode::Next(..) => Ok(Constant::NotConstant),
    }
}

// What an operator gives of the constants of these numbers.
fn linked(
    alloc: Global,
    operator: Operator,
    table: &[Constant],
    a: usize,
    b: usize,
) -> Result<Constant, AllocError>
    ensures { IfOk result (λ c. c ≡ operated_by_two operator (slice_index_or table.now a NotConstant) (slice_index_or table.now b NotConstant)) }
{
    let left = copy_at(alloc, table, a)?;
    let right = copy_at(alloc, table, b)?;
    operated_by_two(alloc, operator, &left, &right)
}

fn copy_at(alloc: Global, table: &[Constant], k: usize) -> Result<Constant, AllocError>
    ensures { IfOk result (λ c. c ≡ slice_index_or table.now k NotConstant) }
{
    match table.get(k) {
        None => Ok(Constant::NotConstant),
        Some(constant) => constant.copy(alloc),
    }
}

/// The integer that the constant of this number in a table is, if it is one.
pub fn integer_at(table: &[Constant], k: usize) -> Option<&WholeNumber>
    ensures { option_copied result ≡ integer_of (slice_index_or table.now k NotConstant) }
{
    match table.get(k) {
        None => None,
        Some(constant) => constant.integer(),
    }
}
