//! The answer to a query: a model, a core of the assumptions, or a spent purse.

use clause_core::{Bits, Lit};

/// What a query is answered.
#[derive(Drop)]
pub enum Answer {
    /// These values of the variables make each clause and each assumption true.
    Sat(Bits),
    /// The clauses and the assumptions of the core can't all be true. The core is a part of the assumptions, and
    /// `Solver::log` gives the derivation.
    Unsat { core: Vec<Lit> },
    /// The purse was spent before an answer was found.
    Spent { drawn: u64, budget: u64 },
}
