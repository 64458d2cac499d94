//! All clauses that a hint can name, numbered through.

use crate::chains::clause_at;
use clause_core::{Clauses, Lit};

// The given clauses, a clause for each of the units behind them, and the steps behind these.
#[derive(Clone, Copy)]
pub(crate) struct Numbered<'a> {
    pub clauses: &'a Clauses,
    pub units: &'a [Lit],
    pub steps: &'a Clauses,
}

impl<'a> Numbered<'a> {
    // The clause of this number, if there is one.
    pub(crate) fn get(self, number: usize) -> Option<&'a [Lit]> {
        clause_at(
            self.clauses,
            self.units,
            self.steps,
            self.steps.len(),
            number,
        )
    }
}
