//! Unit propagation that looks at every clause, with which tests compare the watched one.

ghost use Rattle.sat_prop.specs.States.{IsBased};

use crate::propagator::Propagator;
use crate::sweep::sweep_all;
use crate::trail::Trail;
use clause_core::{Clauses, Lit};
use std::alloc::{AllocError, Global};

/// The propagator that looks at every clause, again and again, until nothing is left to set. It is slow
/// and plain: `Watched` does the same work, and tests compare the two.
#[derive(Drop)]
pub struct Scan {
    clauses: Clauses,
    trail: Trail,
    ghost based_in: { IsBased clauses trail },
}

impl Propagator for Scan {
    ghost clauses = { λ s. s.clauses };

    ghost trail = { λ s. s.trail };

    ghost rested = { λ _. Unit {0} };

    fn new(alloc: Global, vars: usize) -> Result<Scan, AllocError> {
        let trail = Trail::new(alloc, vars)?;
        Ok(Scan {
            clauses: Clauses::new(alloc),
            trail,
        })
    }

    fn assignment(&self) -> &Trail {
        &self.trail
    }

    fn clause_count(&self) -> usize {
        self.clauses.len()
    }

    fn clause(&self, k: usize) -> &[Lit] {
        self.clauses.get(k)
    }

    fn add(&mut self, c: &[Lit]) -> Result<(), AllocError> {
        self.clauses.push(c)
    }

    fn learn(&mut self, c: &[Lit], _second: usize) -> Result<(), AllocError> {
        self.clauses.push(c)
    }

    fn decide(&mut self, l: Lit) -> Result<(), AllocError> {
        self.trail.decide(l)
    }

    fn undo(&mut self, level: usize) {
        self.trail.undo(level)
    }

    fn propagate(&mut self) -> Result<Option<usize>, AllocError> {
        sweep_all(&self.clauses, &mut self.trail)
    }

    ghost based = { λ s. s.based_in.reasons };

    ghost within = { λ s. s.based_in.within };
}
