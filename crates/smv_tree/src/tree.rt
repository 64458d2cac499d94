//! The syntax tree of a model: NuSMV 2.6 User Manual, chapter 2, as far as the language goes today.
//! Lists and boxes are those that contracts see as plain data, so that two trees can be said to be equal.

ghost use Rattle.std.specs.Prelude.{Some};
ghost use Rattle.smv_tree.specs.Texts.{kind_text};

use crate::Place;
use plain_text::Text;
use smv_value::{Operator, Value};
use sqlite_items::{Boxed, Items};
use std::fmt;

/// A whole source: its modules in order.
#[derive(Debug, Drop)]
pub struct Program {
    pub modules: Items<Module>,
}

/// A module with its parameters and sections in order (manual 2.3.10, Module Declarations).
#[derive(Debug, Drop)]
pub struct Module {
    /// The place of the keyword.
    pub place: Place,
    /// The place of the name.
    pub name_place: Place,
    pub name: Text,
    pub parameters: Items<Parameter>,
    pub sections: Items<Section>,
}

/// A formal parameter of a module.
#[derive(Debug, Drop)]
pub struct Parameter {
    pub place: Place,
    pub name: Text,
}

/// A section of a module.
#[derive(Debug, Drop)]
pub enum Section {
    /// `VAR`, `IVAR` or `FROZENVAR` and its declarations (manual 2.3.1, Variable Declarations).
    Variables(VariableKind, Items<Variable>),
    /// `DEFINE` and its definitions (manual 2.3.2).
    Definitions(Items<Definition>),
    /// `CONSTANTS` and its symbols (manual 2.3.4).
    Constants(Items<Identifier>),
    /// `ASSIGN` and its assignments (manual 2.3.8).
    Assignments(Items<Assignment>),
    /// `INIT`, `INVAR`, `TRANS` or `JUSTICE` (manual 2.3.5 to 2.3.7, 2.3.9).
    Constraint(Constraint),
    /// A specification (manual 2.4).
    Specification(Specification),
}

/// What may happen to a variable from a state to the next.
#[derive(Clone, Copy, Debug, PartialEq, Eq)]
pub enum VariableKind {
    /// `VAR`: a part of the state.
    State,
    /// `IVAR`: a part of the step, and of no state (manual 2.3.1, Input Variables).
    Input,
    /// `FROZENVAR`: a part of the state that no step changes (manual 2.3.1, Frozen Variables).
    Frozen,
}

/// The indices of an array as they are written: the integers from the first bound to the second, both among them
/// (manual 2.1.6, Array Types).
#[derive(Debug, Drop)]
pub struct Dimension {
    pub low: Expr,
    pub high: Expr,
}

/// A declared variable; its place is that of its name.
#[derive(Debug, Drop)]
pub struct Variable {
    pub place: Place,
    pub name: Text,
    /// Those of an array, the outermost first; none of what is no array.
    pub dimensions: Items<Dimension>,
    /// The type of the variable, or of each element of an array.
    pub declared: TypeExpr,
}

/// An element of an enumeration as it is written.
#[derive(Debug, Drop)]
pub struct WrittenElement {
    pub place: Place,
    /// Its tokens, without what stands between them.
    pub text: Text,
    /// The integer that it is; none where it is a symbol.
    pub number: Option<i32>,
}

/// A type as it is written (manual 2.1, Types Overview). Its place is that of its first token.
#[derive(Debug, Drop)]
pub enum TypeExpr {
    Boolean(Place),
    /// `word[n]`, `unsigned word[n]` or `signed word[n]`: whether it is signed, and its width.
    Word(Place, bool, Expr),
    /// The integers from the first bound to the second, both among them.
    Range(Place, Expr, Expr),
    /// These elements.
    Enumeration(Place, Items<WrittenElement>),
    /// An instance of the module of this name, with what it is given (manual 2.3.11, Module Instantiations).
    Instance(Place, Text, Items<Expr>),
}

/// What an assignment speaks of: the first value, the next one, or the value in each state.
#[derive(Clone, Copy, Debug, PartialEq, Eq)]
pub enum AssignmentKind {
    Init,
    Next,
    Current,
}

/// A name for an expression; its place is that of the name.
#[derive(Debug, Drop)]
pub struct Definition {
    pub place: Place,
    pub name: Text,
    pub body: Expr,
}

/// What a constraint speaks of: initial states, all states, steps, or what comes again and again.
#[derive(Clone, Copy, Debug, PartialEq, Eq)]
pub enum ConstraintKind {
    Init,
    Invar,
    Trans,
    /// `JUSTICE`, or `FAIRNESS`, which says the same.
    Justice,
}

/// A constraint; its place is that of its keyword.
#[derive(Debug, Drop)]
pub struct Constraint {
    pub place: Place,
    pub kind: ConstraintKind,
    pub formula: Expr,
}

/// An assignment; its place is that of its first token.
#[derive(Debug, Drop)]
pub struct Assignment {
    pub place: Place,
    pub kind: AssignmentKind,
    /// The variable that is assigned, a name.
    pub target: Expr,
    pub value: Expr,
}

/// Which temporal claim a specification makes.
#[derive(Clone, Copy, Debug, PartialEq, Eq)]
pub enum SpecificationKind {
    /// `INVARSPEC`: the formula holds in each reachable state (manual 2.4.2, Invariant Specifications).
    Invariant,
    /// `LTLSPEC`: the formula is true at the first time of each fair path (manual 2.4.3, LTL Specifications).
    Temporal,
}

impl fmt::Display for SpecificationKind {
    ghost output = { λ k. Some (kind_text k) };

    fn fmt<W: fmt::Write>(&self, f: &mut fmt::Formatter<W>) -> fmt::Result {
        match self {
            SpecificationKind::Invariant => write!(f, "INVARSPEC"),
            SpecificationKind::Temporal => write!(f, "LTLSPEC"),
        }
    }
}

/// A specification; its place is that of its keyword.
#[derive(Debug, Drop)]
pub struct Specification {
    pub place: Place,
    pub kind: SpecificationKind,
    pub formula: Expr,
}

/// An identifier at its place.
#[derive(Debug, Drop)]
pub struct Identifier {
    pub place: Place,
    pub name: Text,
}

/// What a name begins with.
#[derive(Debug, Drop)]
pub enum Start {
    /// An identifier, which the module of the instance that the name stands in knows.
    Own(Identifier),
    /// `self`: the instance that the name stands in.
    Itself(Place),
}

/// A name: its start, and then the members that follow it behind dots (manual 2.3.13, References to Module Components).
#[derive(Debug, Drop)]
pub struct Name {
    pub start: Start,
    pub members: Items<Identifier>,
}

/// An expression (manual 2.2). A node's place is that of its operator, or of its first token.
#[derive(Debug, Drop)]
pub enum Expr {
    /// `TRUE`, `FALSE`, an integer or a word.
    Constant(Place, Value),
    Name(Name),
    /// An expression in parentheses, at its `(`; or a bound of a temporal operator, at its `[`.
    Group(Place, Boxed<Expr>),
    /// The value in the next state.
    Next(Place, Boxed<Expr>),
    /// A first operand and then, from left to right, operators of one precedence level and their operands.
    Chain(Boxed<Expr>, Items<(Place, Operator, Expr)>),
    /// An operator with its operands: those that stand beside it, on its own level, and then those that stand a level
    /// below.
    Apply(Place, Operator, Items<Expr>, Items<Expr>),
}
