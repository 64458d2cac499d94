//! Notes what queries found for hints, which choose the clauses that generalisation tries.

use crate::outcomes::{Bads, Relative};
use clause_core::{Lit, System};
use state_hints::Hints;
use std::alloc::Global;

// Where a step was found out of a clause that says that a state is another, keeps a hint for the state that it leaves.
pub(crate) fn note_step(
    alloc: Global,
    hints: &mut Hints,
    system: &System,
    clause: &[Lit],
    found: &Relative,
) {
    if let Relative::Step(step) = found {
        if clause.len() == system.state_bits() {
            hints.note_step(alloc, system, clause, step.values());
        }
    }
}

// Where a bad state was found, keeps a hint for it.
pub(crate) fn note_bad(alloc: Global, hints: &mut Hints, system: &System, found: &Bads) {
    if let Bads::Found(state) = found {
        hints.note_bad(alloc, system, state.values());
    }
}
