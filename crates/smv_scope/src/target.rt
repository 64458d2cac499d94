//! What names lead to.

use smv_tree::Expr;

/// What a name leads to.
#[derive(Clone, Copy, Debug)]
pub enum NameTarget<'a> {
    /// The variable of this number among those that have values.
    Variable(usize),
    /// The instance of this number.
    Whole(usize),
    /// What the parameter of this number of the instance `at` was given, an expression that stands in the instance
    /// `owner`.
    Given {
        at: usize,
        parameter: usize,
        owner: usize,
        argument: &'a Expr,
    },
    /// The body of the definition of this number of the instance `at`.
    Defined {
        at: usize,
        definition: usize,
        body: &'a Expr,
    },
    /// The symbol of this number.
    Symbol(usize),
    /// The name leads nowhere.
    Unknown,
    /// It leads by more parameters than are followed.
    TooFar,
}

/// What several names may stand for: what a parameter of an instance was given, or the body of a definition of it.
#[derive(Clone, Copy, Debug, Drop, PartialEq, Eq, Hash)]
pub struct Shared {
    pub is_definition: bool,
    /// The number of the instance.
    pub at: usize,
    /// The number of the parameter, or of the definition.
    pub number: usize,
}
