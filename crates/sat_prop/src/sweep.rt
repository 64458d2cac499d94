//! Unit propagation by passes over all clauses.

ghost use Rattle.std.specs.Prelude.{IfOk, MatchOption};
ghost use Rattle.sat_prop.specs.Moves.{Extends, SweptSays, FalseClause};
ghost use Rattle.sat_prop.specs.States.{IsBased};
ghost use Rattle.sat_prop.specs.Trails.{AtRest};

use crate::trail::Trail;
use clause_core::{Clauses, Lit, Scan, scan_clause};
use std::alloc::{AllocError, Global};

// What one pass over the clauses found: a false clause, something to set, or nothing left to do.
#[derive(Clone, Copy, Drop)]
pub enum Swept {
    False(usize),
    Changed,
    Still,
}

// One pass over the clauses: sets each literal that a clause is unit on.
fn sweep(clauses: &Clauses, trail: &mut Trail) -> Result<Swept, AllocError>
    requires based { IsBased clauses.now trail.old }
    ensures based { IsBased clauses.now trail.new }
    ensures extends { Extends trail.old trail.new }
    ensures says { IfOk result (SweptSays clauses.now trail.old trail.new) }
{
    let mut changed = false;
    for k in 0..clauses.len() {
        match scan_clause(&trail.values, clauses.get(k)) {
            Scan::False => return Ok(Swept::False(k)),
            Scan::UnitOn(l) => {
                trail.imply(l, k + 1)?;
                changed = true;
            }
            Scan::Rest => {}
        }
    }
    if changed {
        Ok(Swept::Changed)
    } else {
        Ok(Swept::Still)
    }
}

// Passes over the clauses until one is false or nothing is left to set.
pub fn sweep_all(clauses: &Clauses, trail: &mut Trail) -> Result<Option<usize>, AllocError>
    requires based { IsBased clauses.now trail.old }
    ensures based { IsBased clauses.now trail.new }
    ensures extends { Extends trail.old trail.new }
    ensures says { IfOk result (λ o. MatchOption o (AtRest clauses.now trail.new.literals.items) (FalseClause clauses.now trail.new)) }
{
    'rounds: loop {
        match sweep(clauses, trail)? {
            Swept::False(k) => return Ok(Some(k)),
            Swept::Changed => {}
            Swept::Still => return Ok(None),
        }
    }
}
