//! A table with an entry for each length up to a bound: the fair lasso that was found, or that
//! there is none. Workers fill tables of their own, which are merged.

ghost use Rattle.std.specs.Prelude.{◌≡◌, ℕ, ◌-◌, ◌≤◌, Some, None, length, replicate, slice_index_or, slice_set, IfOk, ◌==◌, IsSome, MatchOption};
ghost use Rattle.clause_core.specs.Systems.{TransitionSystem};
ghost use Rattle.lasso_search.specs.Books.{IsAnswer, IsLength, KeepsAnswers, entry, either};
ghost use Rattle.lasso_search.specs.Lassos.{Lasso};

use crate::lasso::BitLasso;
use std::alloc::{AllocError, Global};
use std::marker::Model;

/// What was found of each length from 1 up to a bound: a fair lasso of that length, or that there is none.
/// Contracts see an entry for each length.
///
/// A book owns its lassos and borrows nothing, so that workers can hand theirs over. That its answers are
/// right for a system is a fact of its entries (`KeepsAnswers`), which each call hands on.
#[derive(Drop)]
pub struct LassoBook {
    entries: Vec<Option<Option<BitLasso>>>,
}

impl Model for LassoBook {
    ghost use Rattle.lasso_search.specs.Books.{Book};

    ghost Value = { Book };

    ghost view = { λ b. b.entries.items };
}

impl LassoBook {
    /// A book for lengths up to `bound`, none of them recorded.
    pub fn new(alloc: Global, bound: usize) -> Result<LassoBook, AllocError>
        ensures empty { IfOk result (λ b. b ≡ replicate bound None) }
        ensures right { IfOk result (λ b. (m : TransitionSystem) → KeepsAnswers m b) }
    {
        let mut entries = Vec::new(alloc);
        for _ in 0..bound {
            entries.push(None)?;
        }
        Ok(LassoBook { entries })
    }

    /// How many lengths it has, the bound.
    pub fn len(&self) -> usize
        ensures { result ≡ length self.now }
    {
        self.entries.as_slice().len()
    }

    /// Whether it has no length.
    pub fn is_empty(&self) -> bool
        ensures { result ≡ (length self.now == 0) }
    {
        self.entries.is_empty()
    }

    /// Records what was found of length `n`; takes no memory.
    pub fn record(&mut self, n: usize, answer: Option<BitLasso>)
        requires { IsLength self.old n }
        ensures recorded { self.new ≡ slice_set self.old (n - 1) (Some answer) }
        ensures right { (m : TransitionSystem) → KeepsAnswers m self.old → IsAnswer m n answer → KeepsAnswers m self.new }
    {
        self.entries[n - 1] = Some(answer);
    }

    /// Takes over the answers of another book: a length is recorded afterwards where one of both had it, with
    /// that answer, and with its own where both had one. Takes no memory.
    pub fn absorb(&mut self, other: LassoBook)
        requires { length other ≤ length self.old }
        ensures bound { length self.new ≡ length self.old }
        ensures taken { (n : ℕ) → IsLength self.new n → entry self.new n ≡ either (entry self.old n) (entry other n) }
        ensures right { (m : TransitionSystem) → KeepsAnswers m self.old → KeepsAnswers m other → KeepsAnswers m self.new }
    {
        let LassoBook { mut entries } = other;
        take_over(&mut self.entries, &mut entries);
    }

    /// A length that is not recorded, if there is one; takes no memory.
    pub fn missing(&self) -> Option<usize>
        ensures { MatchOption result ((n : ℕ) → IsLength self.now n → IsSome (entry self.now n)) (λ n. IsLength self.now n × (entry self.now n ≡ None)) }
    {
        for (k, entry) in self.entries.iter().enumerate() {
            if entry.is_none() {
                return Some(k + 1);
            }
        }
        None
    }

    /// A fair lasso that is recorded, if there is one; takes no memory.
    pub fn found(&self) -> Option<&BitLasso>
        ensures { MatchOption result ((n : ℕ) (r : Lasso) → IsLength self.now n → entry self.now n ≡ Some (Some r) → ⊥) (λ r. (n : ℕ) × IsLength self.now n × (entry self.now n ≡ Some (Some r.now))) }
    {
        for entry in &self.entries {
            if let Some(lasso) = lasso_of(entry) {
                return Some(lasso);
            }
        }
        None
    }
}

// Moves each entry to the place of its number, where nothing is recorded.
fn take_over(into: &mut [Option<Option<BitLasso>>], from: &mut [Option<Option<BitLasso>>])
    requires { length from.old ≤ length into.old }
    ensures bound { length into.new ≡ length into.old }
    ensures taken { (i : ℕ) → slice_index_or into.new i None ≡ either (slice_index_or into.old i None) (slice_index_or from.old i None) }
{
    for k in 0..from.len() {
        if into[k].is_none() {
            into[k] = from[k].take();
        }
    }
}

// The lasso that is recorded here, if there is one.
fn lasso_of(entry: &Option<Option<BitLasso>>) -> Option<&BitLasso>
    ensures { MatchOption result ((r : Lasso) → entry.now ≡ Some (Some r) → ⊥) (λ r. entry.now ≡ Some (Some r.now)) }
{
    match entry {
        Some(answer) => answer.as_ref(),
        None => None,
    }
}
