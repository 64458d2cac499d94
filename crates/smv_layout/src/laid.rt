//! What is laid out so far, by the numbers of its nodes.

ghost use Rattle.std.specs.Prelude.{◌≡◌, IfOk};

use smv_tree::Place;
use sqlite_items::Items;
use std::alloc::{AllocError, Global};

/// An index as it is written.
#[derive(Clone, Copy, Debug, Drop)]
pub struct SubscriptNode {
    /// The place of its `[`.
    pub place: Place,
    /// The node of what stands there.
    pub node: usize,
    /// The integer that it is, if it is a constant.
    pub constant: Option<i64>,
}

/// An array without all its indices.
#[derive(Debug, Drop)]
pub struct SubarrayNode {
    /// The number of the variable.
    pub variable: usize,
    /// The place of its name.
    pub place: Place,
    /// The indices that it has.
    pub subscripts: Items<SubscriptNode>,
    /// The node of what stands for it where no element is meant.
    pub whole: usize,
}

/// An expression over slots, or an array that waits for more indices.
#[derive(Debug, Drop)]
pub enum LaidNode {
    Value(usize),
    Array(SubarrayNode),
}

impl LaidNode {
    /// The same.
    pub fn copied(&self, alloc: Global) -> Result<LaidNode, AllocError>
        ensures { IfOk result (λ copy. copy ≡ self.now) }
    {
        match self {
            LaidNode::Value(n) => Ok(LaidNode::Value(*n)),
            LaidNode::Array(array) => {
                let subscripts = Items::from_slice(alloc, array.subscripts.as_slice())?;
                Ok(LaidNode::Array(SubarrayNode {
                    variable: array.variable,
                    place: array.place,
                    subscripts,
                    whole: array.whole,
                }))
            }
        }
    }
}
