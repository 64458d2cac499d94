//! A certificate: the clauses of an inductive invariant, with derivations that show initiation,
//! consecution and safety.

ghost use Rattle.std.specs.Prelude.{◌≡◌, ◌≤◌, OnOk, OnErr, IfSome, option_copied};
ghost use Rattle.std.specs.Option.{ForSome};
ghost use Rattle.clause_core.specs.Literals.{Within};
ghost use Rattle.cert_core.specs.Blocks.{empty_block, with_clause, part_of, with_part, HasPlace, LogFits, IsBlock};

use crate::form::{Form, MAX_COUNTER, MAX_VARS, Part};
use crate::parts::{part_at, push_missing};
use clause_core::{Clauses, Lit};
use hinted_log::Hinted;
use std::alloc::{AllocError, Global};
use std::marker::Model;

/// Clauses over state bits, and the steps that show them to be an invariant without bad states. Each part may be
/// missing. Contracts see its form, its counter, its clauses and its parts.
///
/// Its type keeps that all of it can stand in a text: the counter is at most `MAX_COUNTER`, each variable is below
/// `MAX_VARS`, and in the plain form there are no hints and no shared part.
#[derive(Drop)]
pub struct Certificate {
    form: Form,
    counter: Option<usize>,
    clauses: Clauses,
    shared: Option<Hinted>,
    first: Vec<Option<Hinted>>,
    kept: Vec<Option<Hinted>>,
    safe: Option<Hinted>,
}

impl Model for Certificate {
    ghost use Rattle.cert_core.specs.Blocks.{Block, IsBlock};

    ghost Value = { Block };

    ghost view = { λ c. record { form = c.form; counter = c.counter; clauses = c.clauses; shared = c.shared; first = c.first.items; kept = c.kept.items; safe = c.safe } };

    ghost invariant = { λ c. IsBlock record { form = c.form; counter = c.counter; clauses = c.clauses; shared = c.shared; first = c.first.items; kept = c.kept.items; safe = c.safe } };
}

impl Certificate {
    /// A certificate with no clauses, all parts of which are missing. Up to `counter` signals were counted; none is for
    /// an invariant.
    pub fn new(alloc: Global, form: Form, counter: Option<usize>) -> Certificate
        requires { ForSome counter (λ k. k ≤ MAX_COUNTER) }
        ensures { result ≡ empty_block form counter }
    {
        Certificate {
            form,
            counter,
            clauses: Clauses::new(alloc),
            shared: None,
            first: Vec::new(alloc),
            kept: Vec::new(alloc),
            safe: None,
        }
    }

    /// What the type keeps. It does nothing.
    pub fn law(&self)
        ensures { IsBlock self.now }
    {
        let _form = self.form;
    }

    /// How the steps are judged.
    pub fn form(&self) -> Form
        ensures { result ≡ self.now.form }
    {
        self.form
    }

    /// Up to how many signals were counted; none for an invariant.
    pub fn counter(&self) -> Option<usize>
        ensures { result ≡ self.now.counter }
    {
        self.counter
    }

    /// Says up to how many signals were counted; none is for an invariant.
    pub fn set_counter(&mut self, counter: Option<usize>)
        requires { ForSome counter (λ k. k ≤ MAX_COUNTER) }
        ensures { self.new ≡ record self.old { counter = counter } }
    {
        self.counter = counter;
    }

    /// The clauses.
    pub fn clauses(&self) -> &Clauses
        ensures { result.now ≡ self.now.clauses }
    {
        &self.clauses
    }

    /// The steps of the part, if it is there.
    pub fn steps(&self, part: Part) -> Option<&Hinted>
        ensures value { option_copied result ≡ part_of self.now part }
        ensures fits { IfSome result (λ log. LogFits self.now.form log.now) }
    {
        match part {
            Part::Shared => self.shared.as_ref(),
            Part::First(k) => part_at(&self.first, k),
            Part::Kept(k) => part_at(&self.kept, k),
            Part::Safe => self.safe.as_ref(),
        }
    }

    /// Adds a clause at the end, whose parts are missing. If memory runs out, all is as before.
    pub fn push_clause(&mut self, c: &[Lit]) -> Result<(), AllocError>
        requires { Within MAX_VARS c.now }
        ensures done { OnOk result (self.new ≡ with_clause self.old c.now) }
        ensures failed { OnErr result (self.new ≡ self.old) }
    {
        let n = self.clauses.len();
        self.clauses.push(c)?;
        if let Err(e) = push_missing(&mut self.first) {
            self.clauses.truncate(n);
            return Err(e);
        }
        if let Err(e) = push_missing(&mut self.kept) {
            self.clauses.truncate(n);
            self.first.truncate(n);
            return Err(e);
        }
        Ok(())
    }

    /// Gives the part these steps, in place of those that it may have.
    pub fn put(&mut self, part: Part, steps: Hinted)
        requires place { HasPlace self.old part }
        requires fits { LogFits self.old.form steps }
        ensures { self.new ≡ with_part self.old part steps }
    {
        match part {
            Part::Shared => self.shared = Some(steps),
            Part::First(k) => self.first[k] = Some(steps),
            Part::Kept(k) => self.kept[k] = Some(steps),
            Part::Safe => self.safe = Some(steps),
        }
    }
}
