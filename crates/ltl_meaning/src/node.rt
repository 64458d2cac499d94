//! The syntax of formulas: atoms, operators, operators with bounds, and chains.

ghost use Rattle.std.specs.Prelude.{◌≤◌};

use sqlite_items::{Boxed, Items};
use std::alloc::{AllocError, Global};

/// The operators with one operand: negation and the temporal ones.
#[derive(Clone, Copy, PartialEq, Eq, Debug)]
pub enum UnaryOperator {
    /// `!`
    Not,
    /// `X`: at the next time.
    Next,
    /// `F`: at some time from now on.
    Finally,
    /// `G`: at each time from now on.
    Globally,
    /// `Y`: at the time before; false at the first time.
    Yesterday,
    /// `Z`: at the time before; true at the first time.
    WeakYesterday,
    /// `O`: at some time up to now.
    Once,
    /// `H`: at each time up to now.
    Historically,
    /// `F [0, 1]`: now or at the next time.
    NowOrNext,
    /// `G [0, 1]`: now and at the next time.
    NowAndNext,
    /// `O [0, 1]`: now or at the time before.
    NowOrBefore,
    /// `H [0, 1]`: now and at the time before, if there is one.
    NowAndBefore,
}

/// The operators with bounds.
#[derive(Clone, Copy, PartialEq, Eq, Debug)]
pub enum BoundedOperator {
    /// `F [a, b]`: at some time from `a` to `b` times on.
    Finally,
    /// `G [a, b]`: at each time from `a` to `b` times on.
    Globally,
    /// `O [a, b]`: at some time from `b` to `a` times ago.
    Once,
    /// `H [a, b]`: at each time from `b` to `a` times ago that there is.
    Historically,
}

impl BoundedOperator {
    ghost use Rattle.std.specs.Prelude.{◌≡◌};
    ghost use Rattle.ltl_meaning.specs.Unfolded.{delay, widen};

    /// The operator that looks one time further, `X`, `Y` or `Z`: both bounds are one more.
    pub fn delay(self) -> UnaryOperator
        ensures { result ≡ delay self }
    {
        match self {
            BoundedOperator::Finally | BoundedOperator::Globally => UnaryOperator::Next,
            BoundedOperator::Once => UnaryOperator::Yesterday,
            BoundedOperator::Historically => UnaryOperator::WeakYesterday,
        }
    }

    /// The operator with the bounds `[0, 1]`, which looks at one time more: the upper bound is one more.
    pub fn widen(self) -> UnaryOperator
        ensures { result ≡ widen self }
    {
        match self {
            BoundedOperator::Finally => UnaryOperator::NowOrNext,
            BoundedOperator::Globally => UnaryOperator::NowAndNext,
            BoundedOperator::Once => UnaryOperator::NowOrBefore,
            BoundedOperator::Historically => UnaryOperator::NowAndBefore,
        }
    }
}

/// The bounds `[low, high]` of an operator.
#[derive(Clone, Copy, Debug, Drop)]
pub struct Window {
    pub low: u8,
    pub high: u8,
    pub ghost ordered: { low ≤ high },
}

/// The operators with two operands.
#[derive(Clone, Copy, PartialEq, Eq, Debug)]
pub enum BinaryOperator {
    /// `&`
    And,
    /// `|`
    Or,
    /// `xor`
    Xor,
    /// `xnor`
    Xnor,
    /// `->`
    Implies,
    /// `<->`
    Iff,
    /// `U`: the right operand at some time from now on, the left one until then.
    Until,
    /// `V`: the dual of `U`.
    Releases,
    /// `S`: the right operand at some time up to now, the left one since then.
    Since,
    /// `T`: the dual of `S`.
    Triggered,
}

/// An operator and its right operand.
#[derive(Debug, Drop)]
pub struct Link<E> {
    pub operator: BinaryOperator,
    pub operand: E,
}

/// One node of a formula, and all below it.
///
/// Functions over it call themselves once for each level of nesting, which callers keep to 2000, and
/// go over the links of a chain in a loop, so a chain may be of any length.
#[derive(Debug, Drop)]
pub enum FormulaNode {
    /// `TRUE` or `FALSE`.
    Constant(bool),
    /// An atom, by its number.
    Atom(usize),
    /// An operator and its operand.
    Unary(UnaryOperator, Boxed<FormulaNode>),
    /// An operator with bounds and its operand.
    Bounded(BoundedOperator, Window, Boxed<FormulaNode>),
    /// `->` between its sides: the one operator that groups to the right.
    Implies(Boxed<FormulaNode>, Boxed<FormulaNode>),
    /// Operators of one precedence level and their operands, read from left to right.
    Chain(Boxed<FormulaNode>, Items<Link<FormulaNode>>),
}

impl FormulaNode {
    ghost use Rattle.std.specs.Prelude.{◌≡◌, IfOk};
    ghost use Rattle.ltl_meaning.specs.Temporal.{Temporal, formula_of, chain_of, links_of};

    /// An operator over its operand.
    pub fn unary(
        alloc: Global,
        operator: UnaryOperator,
        operand: FormulaNode,
    ) -> Result<FormulaNode, AllocError>
        ensures { IfOk result (λ n. formula_of n ≡ Temporal.Unary operator (formula_of operand)) }
    {
        Ok(FormulaNode::Unary(operator, Boxed::new(alloc, operand)?))
    }

    /// An operator with bounds over its operand.
    pub fn bounded(
        alloc: Global,
        operator: BoundedOperator,
        window: Window,
        operand: FormulaNode,
    ) -> Result<FormulaNode, AllocError>
        ensures { IfOk result (λ n. formula_of n ≡ Temporal.Bounded operator window (formula_of operand)) }
    {
        Ok(FormulaNode::Bounded(operator, window, Boxed::new(alloc, operand)?))
    }

    /// `left -> right`.
    pub fn implies(
        alloc: Global,
        left: FormulaNode,
        right: FormulaNode,
    ) -> Result<FormulaNode, AllocError>
        ensures { IfOk result (λ n. formula_of n ≡ Temporal.Binary BinaryOperator.Implies (formula_of left) (formula_of right)) }
    {
        let left = Boxed::new(alloc, left)?;
        Ok(FormulaNode::Implies(left, Boxed::new(alloc, right)?))
    }

    /// A first operand and the links that follow it, read from left to right.
    pub fn chain(
        alloc: Global,
        first: FormulaNode,
        links: Items<Link<FormulaNode>>,
    ) -> Result<FormulaNode, AllocError>
        ensures { IfOk result (λ n. formula_of n ≡ chain_of (formula_of first) (links_of links)) }
    {
        Ok(FormulaNode::Chain(Boxed::new(alloc, first)?, links))
    }
}
