//! Leaves out the shared steps of a certificate that no part needs, backwards from the hints (Heule, Hunt and
//! Wetzler 2013).

ghost use Rattle.std.specs.Prelude.{◌≡◌, IfOk, OnOk};
ghost use Rattle.cert_core.specs.declared.form.Form.TheVariants.{Hinted as Hints};
ghost use Rattle.cert_core.specs.Blocks.{HasPlace, LogFits};
ghost use Rattle.cert_make.specs.Trimming.{IsOfClausesOf};

use cert_core::{Certificate, Form, Part};
use hinted_log::Hinted;
use std::alloc::{AllocError, Global};

// Marks the shared steps that these hints name, where they are numbered behind so many given clauses.
fn mark(needed: &mut [bool], given: usize, hints: &[usize]) {
    for number in hints {
        if let Some(step) = number.checked_sub(given) {
            if step < needed.len() {
                needed[step] = true;
            }
        }
    }
}

// Marks the shared steps that the hints of all these steps name.
fn mark_all(needed: &mut [bool], given: usize, steps: &Hinted) {
    for k in 0..steps.len() {
        mark(needed, given, steps.hints(k));
    }
}

// Marks the shared steps that marked ones name, from the last one on, since a step names steps before it.
fn mark_back(needed: &mut [bool], given: usize, shared: &Hinted) {
    for k in (0..shared.len()).rev() {
        if k < needed.len() && needed[k] {
            mark(needed, given, shared.hints(k));
        }
    }
}

// Which shared steps the parts `kept` need, by their own hints or by those of shared steps that they need.
fn needed_steps(alloc: Global, given: usize, cert: &Certificate) -> Result<Vec<bool>, AllocError> {
    match cert.steps(Part::Shared) {
        None => Ok(Vec::new(alloc)),
        Some(shared) => {
            let mut needed = vec![in alloc; false; shared.len()]?;
            for k in 0..cert.clauses().len() {
                match cert.steps(Part::Kept(k)) {
                    None => {}
                    Some(steps) => mark_all(&mut needed, given, steps),
                }
            }
            mark_back(&mut needed, given, shared);
            Ok(needed)
        }
    }
}

// The numbers of clauses when the shared steps that are not needed are left out: how many clauses are given before
// these, and how many are left out before each of them and in all.
#[derive(Drop)]
struct Numbering {
    given: usize,
    left_out: Vec<usize>,
    in_all: usize,
}

impl Numbering {
    // All numbers as they are.
    fn unchanged(alloc: Global) -> Numbering {
        Numbering {
            given: 0,
            left_out: Vec::new(alloc),
            in_all: 0,
        }
    }

    // The numbers behind so many given clauses when the shared steps that are not marked are left out.
    fn without_unneeded(
        alloc: Global,
        given: usize,
        needed: &[bool],
    ) -> Result<Numbering, AllocError> {
        let mut left_out = Vec::new(alloc);
        let mut in_all: usize = 0;
        for is_needed in needed {
            left_out.push(in_all)?;
            if !*is_needed {
                in_all = in_all.saturating_add(1);
            }
        }
        Ok(Numbering {
            given,
            left_out,
            in_all,
        })
    }

    // The new number of the clause.
    fn renumber(&self, number: usize) -> usize {
        match number.checked_sub(self.given) {
            None => number,
            Some(k) if k < self.left_out.len() => number.saturating_sub(self.left_out[k]),
            Some(_) => number.saturating_sub(self.in_all),
        }
    }

    // The new numbers of the clauses.
    fn renumber_all(&self, alloc: Global, numbers: &[usize]) -> Result<Vec<usize>, AllocError> {
        let mut renumbered = Vec::new(alloc);
        for number in numbers {
            renumbered.push(self.renumber(*number))?;
        }
        Ok(renumbered)
    }
}

// The steps with their hints renumbered.
fn renumbered(alloc: Global, numbering: &Numbering, steps: &Hinted) -> Result<Hinted, AllocError>
    ensures { IfOk result (λ log. log.steps ≡ steps.now.steps) }
{
    let mut log = Hinted::new(alloc);
    for k in 0..steps.len() {
        let hints = numbering.renumber_all(alloc, steps.hints(k))?;
        log.push(steps.steps().get(k), &hints)?;
    }
    Ok(log)
}

// The marked steps with their hints renumbered.
fn marked(
    alloc: Global,
    needed: &[bool],
    numbering: &Numbering,
    steps: &Hinted,
) -> Result<Hinted, AllocError>
    requires { LogFits Hints steps.now }
    ensures { IfOk result (LogFits Hints) }
{
    let mut log = Hinted::new(alloc);
    for k in 0..steps.len() {
        if k < needed.len() && needed[k] {
            let hints = numbering.renumber_all(alloc, steps.hints(k))?;
            log.push(steps.steps().get(k), &hints)?;
        }
    }
    Ok(log)
}

// The certificate without its parts.
fn bare(alloc: Global, cert: &Certificate) -> Result<Certificate, AllocError>
    requires { cert.now.form ≡ Hints }
    ensures { IfOk result (IsOfClausesOf cert.now) }
{
    cert.law();
    let mut bare = Certificate::new(alloc, Form::Hinted, cert.counter());
    let clauses = cert.clauses();
    for k in 0..clauses.len() {
        bare.push_clause(clauses.get(k))?;
    }
    Ok(bare)
}

// Gives the shared part the steps that are needed, if there are any.
fn put_shared(
    alloc: Global,
    needed: &[bool],
    numbering: &Numbering,
    cert: &Certificate,
    to: &mut Certificate,
) -> Result<(), AllocError>
    requires form { cert.now.form ≡ Hints }
    requires same { IsOfClausesOf cert.now to.old }
    ensures { OnOk result (IsOfClausesOf cert.now to.new) }
{
    match cert.steps(Part::Shared) {
        None => Ok(()),
        Some(steps) => {
            let left = marked(alloc, needed, numbering, steps)?;
            if left.len() > 0 {
                to.put(Part::Shared, left);
            }
            Ok(())
        }
    }
}

// Gives the part the steps that it has in the other certificate, with their hints renumbered.
fn put_part(
    alloc: Global,
    numbering: &Numbering,
    cert: &Certificate,
    part: Part,
    to: &mut Certificate,
) -> Result<(), AllocError>
    requires form { cert.now.form ≡ Hints }
    requires same { IsOfClausesOf cert.now to.old }
    requires place { HasPlace cert.now part }
    ensures { OnOk result (IsOfClausesOf cert.now to.new) }
{
    match cert.steps(part) {
        None => Ok(()),
        Some(steps) => {
            let log = renumbered(alloc, numbering, steps)?;
            to.put(part, log);
            Ok(())
        }
    }
}

// The certificate without the shared steps that no part needs, where they are numbered behind so many given clauses. Of
// its parts nothing is claimed. In time that grows with its literals and hints.
pub fn trimmed(alloc: Global, given: usize, cert: &Certificate) -> Result<Certificate, AllocError>
    requires { cert.now.form ≡ Hints }
    ensures { IfOk result (IsOfClausesOf cert.now) }
{
    let needed = needed_steps(alloc, given, cert)?;
    let numbering = Numbering::without_unneeded(alloc, given, &needed)?;
    let unchanged = Numbering::unchanged(alloc);
    let mut to = bare(alloc, cert)?;
    put_shared(alloc, &needed, &numbering, cert, &mut to)?;
    for k in 0..cert.clauses().len() {
        put_part(alloc, &unchanged, cert, Part::First(k), &mut to)?;
        put_part(alloc, &numbering, cert, Part::Kept(k), &mut to)?;
    }
    put_part(alloc, &unchanged, cert, Part::Safe, &mut to)?;
    Ok(to)
}
