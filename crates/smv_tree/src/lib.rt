//! The tokens and the syntax tree of a model, with the place of each, and the refusals that a text may meet.
//!
//! The only error of a call is running out of memory.
#![tactic(auto)]

mod occurring;
mod place;
mod refusal;
mod token;
mod tree;

pub use occurring::names_in;
pub use place::Place;
pub use refusal::{Refusal, Rule, TextStop};
pub use token::{Token, TokenKind, Tokens};
pub use tree::{
    Assignment, AssignmentKind, Constraint, ConstraintKind, Definition, Dimension, Expr,
    Identifier, Module, Name, Parameter, Program, Section, Specification, SpecificationKind, Start,
    TypeExpr, Variable, VariableKind, WrittenElement,
};
