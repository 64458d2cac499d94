//! Literals: a variable or its negation.

ghost use Rattle.std.specs.Prelude.{◌≡◌, MatchBool};
ghost use Rattle.clause_core.specs.Literals.{negate};

/// A literal: a variable, counted from 0, or its negation.
#[derive(Clone, Copy, PartialEq, Eq, Debug)]
pub struct Lit {
    /// The variable's number.
    pub var: usize,
    /// Whether the literal is the variable itself, and not its negation.
    pub positive: bool,
}

impl Lit {
    /// The literal of this variable and sign.
    pub fn new(var: usize, positive: bool) -> Lit
        ensures { result ≡ record { var = var; positive = positive } }
    {
        Lit { var, positive }
    }

    /// The same variable with the other sign.
    pub fn negated(self) -> Lit
        ensures { result ≡ negate self }
    {
        Lit {
            var: self.var,
            positive: !self.positive,
        }
    }

    /// Whether both are the same literal.
    pub fn is_same(self, other: Lit) -> bool
        ensures { MatchBool result (self ≡ other) (self ≡ other → ⊥) }
    {
        self.var == other.var && self.positive == other.positive
    }
}
