//! Asks a solver to refute its clauses under assumptions, within a purse.

ghost use Rattle.std.specs.Prelude.{◌≡◌, IfOk};
ghost use Rattle.clause_core.specs.Literals.{Within};
ghost use Rattle.sat_core.specs.Paying.{PaysForOne};
ghost use Rattle.sat_core.specs.Queries.{Learns, IsSound};
ghost use Rattle.cert_make.specs.Making.{AskedSays};
ghost use Rattle.cert_make.specs.Paying.{HasNoModel};

use clause_core::Lit;
use effort_purse::Purse;
use sat_core::{Answer, Solver};
use sat_prop::Watched;
use std::alloc::{AllocError, Global};

pub type Engine = Solver<Watched>;

/// The outcome of a query whose clauses and assumptions are unsatisfiable.
#[derive(Clone, Copy)]
pub enum Asked {
    /// It is refuted.
    Refuted,
    /// The purse was spent.
    Spent { drawn: u64, budget: u64 },
}

// Has the solver refute its clauses under the assumptions.
pub fn ask<Q: Purse>(
    alloc: Global,
    solver: &mut Engine,
    assumptions: &[Lit],
    purse: &mut Q,
) -> Result<Asked, AllocError>
    requires within { Within solver.old.vars assumptions.now }
    requires no_model { HasNoModel solver.old.given assumptions.now }
    requires ready { Q.ready purse.old }
    ensures asked { IfOk result (AskedSays solver.old.vars solver.old.given solver.new.learned assumptions.now (Q.budget purse.old) (Q.spent purse.new)) }
    ensures pays { PaysForOne solver.old assumptions.now solver.new (Q.tickets purse.old) (Q.tickets purse.new) }
    ensures learned { Learns assumptions.now solver.old solver.new }
    ensures sound { IsSound solver.new }
    ensures kept { Q.kept purse.old purse.new }
    ensures ready { Q.ready purse.new }
    ensures budget { Q.budget purse.new ≡ Q.budget purse.old }
{
    match solver.solve(alloc, assumptions, purse)? {
        Answer::Sat(_) => unreachable!(),
        Answer::Unsat { .. } => Ok(Asked::Refuted),
        Answer::Spent { drawn, budget } => Ok(Asked::Spent { drawn, budget }),
    }
}
