//! A derivation whose steps name the clauses that they follow from (Cruz-Filipe and others 2017).

use crate::numbers::Numbers;
use clause_core::{Clauses, Lit};
use std::alloc::{AllocError, Global};
use std::marker::Model;

/// The steps of a derivation, in their order, each with its hints: the numbers of the clauses that it
/// follows from. The clauses that are given are numbered from 0, and the steps go on behind them.
#[derive(Drop)]
pub struct Hinted {
    steps: Clauses,
    hints: Numbers,
}

impl Model for Hinted {
    ghost use Rattle.std.specs.Prelude.{◌≡◌, length};
    ghost use Rattle.hinted_log.specs.Hints.{HintedLog};

    ghost Value = { HintedLog };

    ghost view = { λ h. record { steps = h.steps; hints = h.hints } };

    ghost invariant = { λ h. length h.hints ≡ length h.steps };
}

impl Hinted {
    ghost use Rattle.std.specs.Prelude.{◌≡◌, ◌<◌, [], ◌∷◌, ◌++◌, length, OnOk, OnErr, slice_index_or};
    ghost use Rattle.hinted_log.specs.Hints.{HintedLog};

    /// No steps.
    pub fn new(alloc: Global) -> Hinted
        ensures { result ≡ record { steps = []; hints = [] } }
    {
        Hinted {
            steps: Clauses::new(alloc),
            hints: Numbers::new(alloc),
        }
    }

    /// How many steps there are.
    pub fn len(&self) -> usize
        ensures value { result ≡ length self.now.steps }
        ensures hints { result ≡ length self.now.hints }
    {
        self.steps.len()
    }

    /// The steps without their hints.
    pub fn steps(&self) -> &Clauses
        ensures value { result.now ≡ self.now.steps }
        ensures hints { length self.now.hints ≡ length self.now.steps }
    {
        &self.steps
    }

    /// The hints of step number `k`, counted from 0.
    pub fn hints(&self, k: usize) -> &[usize]
        requires { k < length self.now.steps }
        ensures { result.now ≡ slice_index_or self.now.hints k [] }
    {
        self.hints.get(k)
    }

    /// Adds a step with its hints at the end. If memory runs out, the steps are as before.
    pub fn push(&mut self, step: &[Lit], hints: &[usize]) -> Result<(), AllocError>
        ensures done { OnOk result (self.new ≡ record { steps = self.old.steps ++ step.now ∷ []; hints = self.old.hints ++ hints.now ∷ [] }) }
        ensures failed { OnErr result (self.new ≡ self.old) }
    {
        let n = self.hints.len();
        self.hints.push(hints)?;
        if let Err(e) = self.steps.push(step) {
            self.hints.truncate(n);
            return Err(e);
        }
        Ok(())
    }
}
