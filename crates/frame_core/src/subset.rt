//! Whether the literals of one clause are among those of another, by a table of marks.

ghost use Rattle.std.specs.Prelude.{◌≡◌, ◌<◌, ◌↔◌, ◌⊎◌, Bool, true, false, List, length, All, Contains, IfOk, IsTrue, slice_index_or};
ghost use Rattle.clause_core.specs.declared.literal.Lit.{Lit as ALit};
ghost use Rattle.clause_core.specs.Literals.{Within};
ghost use Rattle.frame_core.specs.Looking.{has_literal, IsSetOf};

use clause_core::Lit;
use std::alloc::{AllocError, Global};
use std::marker::Model;

/// The literals of a clause as a table, so that one look tells whether a literal is among them. Contracts
/// see the lists of marks.
#[derive(Drop)]
pub(crate) struct LiteralSet {
    // for each variable whether it is among the literals, and whether its negation is
    positive: Vec<bool>,
    negative: Vec<bool>,
}

impl Model for LiteralSet {
    ghost use Rattle.std.specs.Prelude.{List, Bool};

    ghost Value = { List Bool × List Bool };

    ghost view = { λ s. (s.positive.items, s.negative.items) };
}

impl LiteralSet {
    /// The literals of this clause, whose variables are below `vars`.
    pub(crate) fn of(alloc: Global, vars: usize, clause: &[Lit]) -> Result<LiteralSet, AllocError>
        requires { Within vars clause.now }
        ensures { IfOk result (λ s. IsSetOf clause.now (has_literal s)) }
    {
        let mut positive = vec![in alloc; false; vars]?;
        let mut negative = vec![in alloc; false; vars]?;
        'literals: for l in clause {
            mark(&mut positive, &mut negative, *l);
        }
        Ok(LiteralSet { positive, negative })
    }

    /// Whether the literal is among them.
    pub(crate) fn has(&self, l: Lit) -> bool
        ensures { result ≡ has_literal self.now l }
    {
        let marks: &[bool] = if l.positive {
            &self.positive
        } else {
            &self.negative
        };
        l.var < marks.len() && marks[l.var]
    }
}

fn mark(positive: &mut Vec<bool>, negative: &mut Vec<bool>, l: Lit)
    requires in_positive { l.var < length positive.old.items }
    requires in_negative { l.var < length negative.old.items }
    ensures positive { length positive.new.items ≡ length positive.old.items }
    ensures negative { length negative.new.items ≡ length negative.old.items }
    ensures here { has_literal (positive.new.items, negative.new.items) l ≡ true }
    ensures grows { (m : ALit) → has_literal (positive.old.items, negative.old.items) m ≡ true → has_literal (positive.new.items, negative.new.items) m ≡ true }
    ensures only { (m : ALit) → has_literal (positive.new.items, negative.new.items) m ≡ true → (m ≡ l) ⊎ (has_literal (positive.old.items, negative.old.items) m ≡ true) }
{
    if l.positive {
        positive[l.var] = true;
    } else {
        negative[l.var] = true;
    }
}

// Whether each literal of the clause is in the set; looks at them up to the first that is not.
pub(crate) fn is_part(clause: &[Lit], set: &LiteralSet) -> bool
    ensures { IsTrue result ↔ All (λ l. has_literal set.now l ≡ true) clause.now }
{
    for l in clause {
        if !set.has(*l) {
            return false;
        }
    }
    true
}
