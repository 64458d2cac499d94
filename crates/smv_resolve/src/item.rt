//! Assignments, constraints and specifications over nodes.

use smv_tree::{AssignmentKind, ConstraintKind, Place, SpecificationKind};

/// What an item is.
#[derive(Clone, Copy, Debug, PartialEq, Eq)]
pub enum ItemKind {
    Assignment(AssignmentKind),
    Constraint(ConstraintKind),
    Specification(SpecificationKind),
}

/// An assignment, a constraint or a specification of an instance; its place is that of its first token.
#[derive(Clone, Copy, Debug, PartialEq, Eq)]
pub struct Item {
    /// The number of the instance.
    pub at: usize,
    pub kind: ItemKind,
    pub place: Place,
    /// Where the value begins that is assigned, asked for or claimed: the place of its first token.
    pub begins: Place,
    /// The node of what is assigned, if something is.
    pub target: Option<usize>,
    /// The node of the value that is assigned, asked for or claimed.
    pub value: usize,
}
