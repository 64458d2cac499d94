//! Expressions without names, as lists of nodes.

use smv_tree::Place;
use smv_value::{Operator, Value};

/// How a name stands for an expression.
#[derive(Clone, Copy, Debug, PartialEq, Eq)]
pub enum Naming {
    /// A parameter, for what it was given.
    Given,
    /// A definition, for its body.
    Defined,
    /// An element of an array with a constant index, for its slot. No name is resolved to one: it comes where slots are
    /// laid out, as the next two do.
    Element,
    /// An array, for what stands for it, or an element of one by all its indices. The name of the array stands at this
    /// place, and its first element has the slot of this number.
    Array(Place, usize),
    /// An index with which a parameter was given an array, for that index.
    Passed,
}

/// A node of an expression without names. Its parts are nodes before it in the same list, by their numbers, so that
/// what several expressions name stands there once.
#[derive(Clone, Copy, Debug)]
pub enum ExprNode {
    Constant(Place, Value),
    /// The variable of this number among those that have values; where slots are laid out, the slot of this number.
    Slot(Place, usize),
    /// The instance of this number.
    Whole(Place, usize),
    /// What a name stands for.
    Named(Place, Naming, usize),
    Next(Place, usize),
    /// The same as that node: an operand of the operator that follows.
    Operand(usize),
    /// An operator over as many nodes as stand right before it.
    Apply(Place, Operator, usize),
    /// An operator over the nodes of these two numbers: a link of a chain.
    Link(Place, Operator, usize, usize),
}
