//! Values of variables, and whether they meet a clause.

ghost use Rattle.std.specs.Prelude.{◌≡◌, ◌<◌, ◌↔◌, false, List, length, IfOk, IsTrue, slice_index_or};
ghost use Rattle.clause_core.specs.Literals.{Within};
ghost use Rattle.clause_core.specs.Assignments.{assignment_of, ClauseTrue};

use crate::clause::Clause;
use crate::literal::Lit;
use std::alloc::{AllocError, Global};
use std::marker::Model;

/// The values of the first variables, in their order. Contracts see the list of them.
#[derive(Drop)]
pub struct Bits {
    values: Vec<bool>,
}

impl Model for Bits {
    ghost use Rattle.std.specs.Prelude.{List, Bool};

    ghost Value = { List Bool };

    ghost view = { λ b. b.values.items };
}

impl Bits {
    /// A copy of these values.
    pub fn from_slice(alloc: Global, values: &[bool]) -> Result<Bits, AllocError>
        ensures { IfOk result (λ b. b ≡ values.now) }
    {
        let values = Vec::from_slice(alloc, values)?;
        Ok(Bits { values })
    }

    /// The list of these values; takes no memory.
    pub fn from_vec(values: Vec<bool>) -> Bits
        ensures { result ≡ values.items }
    {
        Bits { values }
    }

    /// The values; takes no memory.
    pub fn into_vec(self) -> Vec<bool>
        ensures { result.items ≡ self }
    {
        let Bits { values } = self;
        values
    }

    /// The values, in their order.
    pub fn as_slice(&self) -> &[bool]
        ensures { result.now ≡ self.now }
    {
        &self.values
    }

    /// How many values there are.
    pub fn len(&self) -> usize
        ensures { result ≡ length self.now }
    {
        self.values.as_slice().len()
    }

    /// The value of a variable.
    pub fn get(&self, var: usize) -> bool
        requires { var < length self.now }
        ensures { result ≡ slice_index_or self.now var false }
    {
        self.values[var]
    }
}

/// Whether these values make the clause true; takes no memory.
pub fn met(clause: &Clause, bits: &Bits) -> bool
    requires { Within (length bits.now) clause.now }
    ensures { IsTrue result ↔ ClauseTrue (assignment_of bits.now) clause.now }
{
    is_met(clause.as_slice(), bits.as_slice())
}

fn is_met(clause: &[Lit], values: &[bool]) -> bool
    requires { Within (length values.now) clause.now }
    ensures { IsTrue result ↔ ClauseTrue (assignment_of values.now) clause.now }
{
    for l in clause {
        if values[l.var] == l.positive {
            return true;
        }
    }
    false
}
