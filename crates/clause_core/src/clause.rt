//! Clauses, and lists of clauses in one buffer of literals.

ghost use Rattle.std.specs.Prelude.{◌≡◌, ◌<◌, ◌==◌, ◌↔◌, ◌≤◌, List, [], ◌∷◌, ◌++◌, length, take, All, OnOk, OnErr, IfOk, IsTrue, slice_index_or};
ghost use Rattle.clause_core.specs.Literals.{Within};

use crate::literal::Lit;
use std::alloc::{AllocError, Global};
use std::marker::Model;

/// A clause: the list of its literals, one of which is to be true. Contracts see the list.
#[derive(Drop)]
pub struct Clause {
    lits: Vec<Lit>,
}

impl Model for Clause {
    ghost use Rattle.std.specs.Prelude.{List};
    ghost use Rattle.clause_core.specs.declared.literal.Lit.{Lit};

    ghost Value = { List Lit };

    ghost view = { λ c. c.lits.items };
}

impl Clause {
    /// A copy of these literals.
    pub fn from_slice(alloc: Global, lits: &[Lit]) -> Result<Clause, AllocError>
        ensures { IfOk result (λ c. c ≡ lits.now) }
    {
        let lits = Vec::from_slice(alloc, lits)?;
        Ok(Clause { lits })
    }

    /// The clause of these literals; takes no memory.
    pub fn from_vec(lits: Vec<Lit>) -> Clause
        ensures { result ≡ lits.items }
    {
        Clause { lits }
    }

    /// The literals; takes no memory.
    pub fn into_vec(self) -> Vec<Lit>
        ensures { result.items ≡ self }
    {
        let Clause { lits } = self;
        lits
    }

    /// The literals, in their order.
    pub fn as_slice(&self) -> &[Lit]
        ensures { result.now ≡ self.now }
    {
        &self.lits
    }
}

/// Where a clause lies in a buffer of literals.
#[derive(Clone, Copy, Drop)]
pub struct Span {
    pub from: usize,
    pub len: usize,
}

/// A list of clauses in one buffer of literals. Contracts see the list.
#[derive(Drop)]
pub struct Clauses {
    lits: Vec<Lit>,
    spans: Vec<Span>,
}

impl Model for Clauses {
    ghost use Rattle.std.specs.Prelude.{List};
    ghost use Rattle.clause_core.specs.declared.literal.Lit.{Lit};
    ghost use Rattle.clause_core.specs.Spans.{pieces, IsBuffer};

    ghost Value = { List (List Lit) };

    ghost view = { λ c. pieces c.lits.items c.spans.items };

    ghost invariant = { λ c. IsBuffer c.lits.items c.spans.items };
}

/// The steps of a derivation, in their order.
pub type Log = Clauses;

impl Clauses {
    /// No clauses.
    pub fn new(alloc: Global) -> Clauses
        ensures { result ≡ [] }
    {
        Clauses {
            lits: Vec::new(alloc),
            spans: Vec::new(alloc),
        }
    }

    /// How many clauses there are.
    pub fn len(&self) -> usize
        ensures { result ≡ length self.now }
    {
        self.spans.len()
    }

    /// Whether there is none.
    pub fn is_empty(&self) -> bool
        ensures { result ≡ (length self.now == 0) }
    {
        self.spans.is_empty()
    }

    /// Clause number `k`, counted from 0.
    pub fn get(&self, k: usize) -> &[Lit]
        requires { k < length self.now }
        ensures { result.now ≡ slice_index_or self.now k [] }
    {
        let span = self.spans[k];
        let tail = &self.lits[span.from..];
        &tail[..span.len]
    }

    /// Adds the clause at the end. If memory runs out, the list is as before.
    pub fn push(&mut self, c: &[Lit]) -> Result<(), AllocError>
        ensures done { OnOk result (self.new ≡ self.old ++ c.now ∷ []) }
        ensures failed { OnErr result (self.new ≡ self.old) }
    {
        let from = self.lits.as_slice().len();
        self.lits.extend_from_slice(c)?;
        self.spans.push(Span { from, len: c.len() })?;
        Ok(())
    }

    /// Leaves the first `len` clauses, and lets the others go; takes no memory.
    pub fn truncate(&mut self, len: usize)
        ensures { self.new ≡ take len self.old }
    {
        if len < self.spans.len() {
            let end = self.spans[len].from;
            self.lits.truncate(end);
            self.spans.truncate(len);
        }
    }

    /// Whether no literal of any clause is past the variables below `vars`.
    pub fn is_within(&self, vars: usize) -> bool
        ensures { IsTrue result ↔ All (Within vars) self.now }
    {
        for k in 0..self.len() {
            if !is_within(self.get(k), vars) {
                return false;
            }
        }
        true
    }
}

/// Whether no literal is past the variables below `vars`.
pub fn is_within(lits: &[Lit], vars: usize) -> bool
    ensures { IsTrue result ↔ Within vars lits.now }
{
    for l in lits {
        if l.var >= vars {
            return false;
        }
    }
    true
}
