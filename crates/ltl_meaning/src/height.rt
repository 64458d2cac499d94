//! Computes how deep past operators nest in a formula, up to a limit.

ghost use Rattle.std.specs.Prelude.{◌≡◌, ◌<◌, min};
ghost use Rattle.ltl_meaning.specs.Ltl.{past_unary, past_binary};
ghost use Rattle.ltl_meaning.specs.Temporal.{formula_of, past_bounded, past_depth};

use crate::node::{BinaryOperator, BoundedOperator, FormulaNode, UnaryOperator, Window};

// The least past height that is too large.
pub const LIMIT: u64 = 1 << 32;

fn past_unary(operator: UnaryOperator) -> u64
    ensures { result ≡ past_unary operator }
{
    match operator {
        UnaryOperator::Not
        | UnaryOperator::Next
        | UnaryOperator::Finally
        | UnaryOperator::Globally
        | UnaryOperator::NowOrNext
        | UnaryOperator::NowAndNext => 0,
        UnaryOperator::Yesterday
        | UnaryOperator::WeakYesterday
        | UnaryOperator::Once
        | UnaryOperator::Historically
        | UnaryOperator::NowOrBefore
        | UnaryOperator::NowAndBefore => 1,
    }
}

fn past_bounded(operator: BoundedOperator, window: Window) -> u64
    ensures value { result ≡ past_bounded operator window }
    ensures small { result < 256 }
{
    match operator {
        BoundedOperator::Finally | BoundedOperator::Globally => 0,
        BoundedOperator::Once | BoundedOperator::Historically => window.high as u64,
    }
}

fn past_binary(operator: BinaryOperator) -> u64
    ensures { result ≡ past_binary operator }
{
    match operator {
        BinaryOperator::Since | BinaryOperator::Triggered => 1,
        BinaryOperator::And
        | BinaryOperator::Or
        | BinaryOperator::Xor
        | BinaryOperator::Xnor
        | BinaryOperator::Implies
        | BinaryOperator::Iff
        | BinaryOperator::Until
        | BinaryOperator::Releases => 0,
    }
}

// How deep past operators nest, or the limit where it is no less.
pub fn capped_height(node: &FormulaNode) -> u64
    ensures { result ≡ min (past_depth (formula_of node.now)) LIMIT }
{
    match node {
        FormulaNode::Constant(_) | FormulaNode::Atom(_) => 0,
        FormulaNode::Unary(operator, operand) => {
            LIMIT.min(past_unary(*operator) + capped_height(operand.get()))
        }
        FormulaNode::Bounded(operator, window, operand) => {
            LIMIT.min(past_bounded(*operator, *window) + capped_height(operand.get()))
        }
        FormulaNode::Implies(left, right) => capped_height(left.get()).max(capped_height(
            right.get(),
        )),
        FormulaNode::Chain(first, links) => {
            let mut height = capped_height(first.get());
            for link in links.as_slice() {
                let inner = height.max(capped_height(&link.operand));
                height = LIMIT.min(past_binary(link.operator) + inner);
            }
            height
        }
    }
}
