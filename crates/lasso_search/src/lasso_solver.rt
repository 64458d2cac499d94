//! Searches for fair lassos of any length with one incremental solver (Eén and Sörensson 2003). The
//! unrolling stays loaded; what holds for one length alone is assumed.

use crate::loading::Engine;
use crate::searched::Searched;
use crate::searching::search_in;
use clause_core::System;
use effort_purse::Purse;
use std::alloc::{AllocError, Global};
use std::marker::Model;

/// A solver of fair lassos of one system that is kept over all lengths.
///
/// It has a copy of the system for each time, made when a length first needs it, and what was learned of one
/// length serves the others: a length is asked for by literals that a query assumes, so no clause belongs to
/// a length alone (Biere, Heljanko, Junttila, Latvala and Schuppan 2006; Eén and Sörensson 2003). Contracts
/// see the system, and learned clauses that later queries may use.
#[derive(Drop)]
pub struct LassoSolver<'a> {
    system: &'a System,
    // The solver, once a length was asked for.
    kept: Option<Engine>,
}

impl<'a> Model for LassoSolver<'a> {
    ghost use Rattle.lasso_search.specs.Searches.{SolverView, IsKept, known_of};

    ghost Value = { SolverView };

    ghost view = { λ s. record { system = s.system.now; known = known_of s.kept } };

    ghost invariant = { λ s. IsKept s.system.now s.kept };
}

impl<'a> LassoSolver<'a> {
    ghost use Rattle.std.specs.Prelude.{◌≡◌, [], IfOk};
    ghost use Rattle.lasso_search.specs.Searches.{SolverView, Finds};
    ghost use Rattle.lasso_search.specs.Paying.{PaysOne, IsAsked};

    /// A solver for this system, of which no length was asked for; takes no memory.
    pub fn new(system: &'a System) -> LassoSolver<'a>
        ensures { result ≡ record { system = system.now; known = [] } }
    {
        LassoSolver { system, kept: None }
    }

    /// A fair lasso of `n` states, if there is one; lengths may be asked for in any order, and more than once.
    ///
    /// For a monitored system each JUSTICE and each promise of the formula is a fairness set of its own, and
    /// is met by some state of the loop. At most one query is asked, that of this length: it costs a ticket of
    /// the purse, and each clause that the solver learns for it another, after each way out; `Spent` comes only
    /// where the purse refused one. The only error is out of memory, which more variables than there are
    /// numbers count as; after it the solver answers as before.
    ///
    /// Up to `n` steps are loaded, each once in its solver, which is made anew where lengths outgrow it, for
    /// twice as many; a length costs no clause beside them.
    pub fn search<Q: Purse>(
        &mut self,
        alloc: Global,
        n: usize,
        purse: &mut Q,
    ) -> Result<Searched, AllocError>
        requires ready { Q.ready purse.old }
        ensures found { IfOk result (Finds self.old.system n (Q.budget purse.old) (Q.spent purse.new)) }
        ensures asked { IfOk result (IsAsked (Q.tickets purse.old) (Q.tickets purse.new)) }
        ensures pays { PaysOne self.old.system n self.old.known self.new.known (Q.tickets purse.old) (Q.tickets purse.new) }
        ensures system { self.new.system ≡ self.old.system }
        ensures kept { Q.kept purse.old purse.new }
        ensures ready { Q.ready purse.new }
        ensures budget { Q.budget purse.new ≡ Q.budget purse.old }
    {
        search_in(alloc, self.system, &mut self.kept, n, purse)
    }
}
