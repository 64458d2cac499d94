//! A certificate while it is read: first its clauses, then its parts in order, each with its
//! derivation.

ghost use Rattle.std.specs.Prelude.{◌≡◌, ◌∷◌, [], IfOk, None, Some};
ghost use Rattle.std.specs.Option.{ForSome};
ghost use Rattle.clause_core.specs.Literals.{Within};
ghost use Rattle.cert_core.specs.Blocks.{empty_block, HintsFit};
ghost use Rattle.cert_text.specs.Open.{no_steps, rank, is_in_order, has_place, closed, clause_line, part_line, step_line, Makes};

use cert_core::{Certificate, Form, MAX_COUNTER, MAX_VARS, Part};
use clause_core::Lit;
use hinted_log::Hinted;
use std::alloc::{AllocError, Global};
use std::marker::Model;
use std::mem;

/// A certificate that is being read.
#[derive(Drop)]
pub struct OpenCertificate {
    spec: usize,
    block: Certificate,
    part: Option<Part>,
    steps: Hinted,
}

impl Model for OpenCertificate {
    ghost use Rattle.cert_text.specs.Open.{OpenBlock, IsOpenBlock};

    ghost Value = { OpenBlock };

    ghost view = { λ o. record { spec = o.spec; block = o.block; part = o.part; steps = o.steps } };

    ghost invariant = { λ o. IsOpenBlock record { spec = o.spec; block = o.block; part = o.part; steps = o.steps } };
}

fn rank(part: Part) -> usize
    ensures { result ≡ rank part }
{
    match part {
        Part::Shared => 0,
        Part::First(_) => 1,
        Part::Kept(_) => 2,
        Part::Safe => 3,
    }
}

fn is_in_order(last: Option<Part>, part: Part) -> bool
    ensures { result ≡ is_in_order last part }
{
    match last {
        None => true,
        Some(last) => rank(last) <= rank(part),
    }
}

fn has_place(block: &Certificate, part: Part) -> bool
    ensures { result ≡ has_place block.now part }
{
    match part {
        Part::Shared => matches!(block.form(), Form::Hinted),
        Part::First(k) => k < block.clauses().len(),
        Part::Kept(k) => k < block.clauses().len(),
        Part::Safe => true,
    }
}

impl OpenCertificate {
    ghost use Rattle.std.specs.Prelude.{◌≤◌};
    ghost use Rattle.cert_text.specs.Open.{OpenBlock};

    /// Only its first line was read.
    pub fn new(alloc: Global, spec: usize, form: Form, counter: Option<usize>) -> OpenCertificate
        requires { ForSome counter (λ k. k ≤ MAX_COUNTER) }
        ensures { result ≡ record { spec = spec; block = empty_block form counter; part = None; steps = no_steps } }
    {
        OpenCertificate {
            spec,
            block: Certificate::new(alloc, form, counter),
            part: None,
            steps: Hinted::new(alloc),
        }
    }

    /// How the steps are judged.
    pub fn form(&self) -> Form
        ensures { result ≡ self.now.block.form }
    {
        self.block.form()
    }

    /// The number of its specification.
    pub fn spec(&self) -> usize
        ensures { result ≡ self.now.spec }
    {
        self.spec
    }

    /// Reads a clause, if it may stand here.
    pub fn add_clause(&mut self, c: &[Lit]) -> Result<bool, AllocError>
        requires { Within MAX_VARS c.now }
        ensures { IfOk result (Makes (clause_line self.old (Some c.now)) self.new) }
    {
        if self.part.is_some() {
            return Ok(false);
        }
        self.block.push_clause(c)?;
        Ok(true)
    }

    // The part that was read gets its steps.
    fn close(&mut self, alloc: Global)
        ensures { self.new ≡ record { spec = self.old.spec; block = closed self.old; part = None; steps = no_steps } }
    {
        let steps = mem::replace(&mut self.steps, Hinted::new(alloc));
        match self.part {
            None => {}
            Some(part) => {
                self.part = None;
                self.block.put(part, steps);
            }
        }
    }

    /// Reads the line of a part, if it may stand here.
    pub fn begin(&mut self, alloc: Global, part: Part) -> bool
        ensures { Makes (part_line self.old (Some part)) self.new result }
    {
        let last = self.part;
        self.close(alloc);
        if !has_place(&self.block, part) || !is_in_order(last, part) {
            return false;
        }
        if self.block.steps(part).is_some() {
            return false;
        }
        self.part = Some(part);
        true
    }

    /// Reads a step, if it may stand here.
    pub fn add_step(&mut self, lits: &[Lit], hints: &[usize]) -> Result<bool, AllocError>
        requires within { Within MAX_VARS lits.now }
        requires hints { HintsFit self.old.block.form (hints.now ∷ []) }
        ensures { IfOk result (Makes (step_line self.old (Some record { lits = lits.now; hints = hints.now })) self.new) }
    {
        if self.part.is_none() {
            return Ok(false);
        }
        self.steps.push(lits, hints)?;
        Ok(true)
    }

    /// The certificate as it was read.
    pub fn finish(self, alloc: Global) -> Certificate
        ensures { result ≡ closed self }
    {
        let mut open = self;
        open.close(alloc);
        let OpenCertificate { block, .. } = open;
        block
    }
}
