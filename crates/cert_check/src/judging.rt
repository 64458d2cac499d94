//! Judges a certificate part by part, and names the first part that fails: shared steps,
//! initiation, consecution, safety.

ghost use Rattle.std.specs.Prelude.{◌≡◌, ◌*◌, ◌≤◌, ◌++◌, [], length, All, IfOk, MatchBool, MatchOption, slice_index_or};
ghost use Rattle.clause_core.specs.Literals.{Within};
ghost use Rattle.cert_core.specs.declared.form.Form.TheVariants.{Hinted};
ghost use Rattle.cert_core.specs.Certificates.{shared_steps, SharedFollow};
ghost use Rattle.cert_check.specs.Judgements.{Begun, EachBelow, FirstHolds, FailsFirst, Judges, VerdictSays};

use crate::lists::{append, joined};
use crate::parts::{all_follow, judge_first, judge_kept, shows};
use cert_core::{Certificate, Form, Part};
use clause_core::{Clauses, System, is_within};
use rup_check::Checker;
use std::alloc::{AllocError, Global};

/// What a certificate's check says.
#[derive(Clone, Copy, PartialEq, Eq, Debug)]
pub enum CertVerdict {
    /// The certificate certifies.
    Yes,
    /// This part is the first that fails. The parts are judged in the order `shared`, `first`, `kept`, `safe`; by
    /// hints a clause with a literal past the state bits fails before all of them, as its part `first`.
    No { part: Part },
}

// The first clause with a literal past the state bits.
fn first_far(clauses: &Clauses, state_bits: usize) -> Option<usize>
    ensures { Judges (λ k. Within state_bits (slice_index_or clauses.now k [])) (length clauses.now) result }
{
    for k in 0..clauses.len() {
        if !is_within(clauses.get(k), state_bits) {
            return Some(k);
        }
    }
    None
}

// Whether the shared part, if it is there, has steps, each of which follows by its hints.
fn share(checker: &mut Checker, cert: &Certificate, given: &Clauses) -> bool
    requires { All (Within checker.old) given.now }
    ensures vars { checker.new ≡ checker.old }
    ensures says { MatchBool result (SharedFollow Hinted checker.old given.now cert.now.shared) (SharedFollow Hinted checker.old given.now cert.now.shared → ⊥) }
{
    match cert.steps(Part::Shared) {
        None => true,
        Some(steps) => {
            if steps.len() == 0 {
                return false;
            }
            all_follow(checker, given, steps)
        }
    }
}

// What fails before the parts `first` are judged.
fn judge_shared(
    alloc: Global,
    checker: &mut Checker,
    system: &System,
    cert: &Certificate,
) -> Result<Option<Part>, AllocError>
    requires { checker.old ≡ system.now.all_bits }
    ensures vars { checker.new ≡ checker.old }
    ensures says { IfOk result (λ r. MatchOption r (Begun system.now cert.now) (FailsFirst system.now cert.now)) }
{
    system.law();
    let clauses = cert.clauses();
    match cert.form() {
        Form::Plain => Ok(None),
        Form::Hinted => {
            match first_far(clauses, system.state_bits()) {
                Some(k) => return Ok(Some(Part::First(k))),
                None => {}
            }
            let given = joined(alloc, clauses, system.step())?;
            if share(checker, cert, &given) {
                Ok(None)
            } else {
                Ok(Some(Part::Shared))
            }
        }
    }
}

// What the parts `kept` follow from.
fn kept_from(alloc: Global, step: &Clauses, cert: &Certificate) -> Result<Clauses, AllocError>
    ensures { IfOk result (λ c. c ≡ cert.now.clauses ++ step.now ++ shared_steps cert.now.form cert.now.shared) }
{
    let mut given = joined(alloc, cert.clauses(), step)?;
    match cert.form() {
        Form::Plain => {}
        Form::Hinted => match cert.steps(Part::Shared) {
            None => {}
            Some(steps) => append(&mut given, steps.steps())?,
        },
    }
    Ok(given)
}

// What fails of the parts `kept` and `safe`.
fn judge_rest(
    alloc: Global,
    checker: &mut Checker,
    system: &System,
    cert: &Certificate,
) -> Result<CertVerdict, AllocError>
    requires vars { checker.old ≡ system.now.all_bits }
    requires room { 2 * system.now.state_bits ≤ system.now.all_bits }
    requires begun { Begun system.now cert.now }
    requires first { EachBelow (FirstHolds system.now cert.now) (length cert.now.clauses) }
    ensures { IfOk result (VerdictSays system.now cert.now) }
{
    system.law();
    let given = kept_from(alloc, system.step(), cert)?;
    if let Some(k) = judge_kept(alloc, checker, system, cert, &given)? {
        return Ok(CertVerdict::No {
            part: Part::Kept(k),
        });
    }
    let given = joined(alloc, cert.clauses(), system.bad())?;
    if shows(alloc, checker, cert, Part::Safe, &given, &[])? {
        Ok(CertVerdict::Yes)
    } else {
        Ok(CertVerdict::No { part: Part::Safe })
    }
}

/// Whether the certificate certifies: `Yes` exactly where it does, and `No` exactly with the first part that fails.
/// By hints its time is that of a few looks at each literal of the certificate, of the system and of the clauses that
/// the steps name; by unit propagation that of `Checker::check` for each part.
pub fn check(alloc: Global, system: &System, cert: &Certificate) -> Result<CertVerdict, AllocError>
    ensures { IfOk result (VerdictSays system.now cert.now) }
{
    let mut checker = Checker::new(alloc, system.all_bits())?;
    if let Some(part) = judge_shared(alloc, &mut checker, system, cert)? {
        return Ok(CertVerdict::No { part });
    }
    if let Some(k) = judge_first(alloc, &mut checker, system, cert)? {
        return Ok(CertVerdict::No {
            part: Part::First(k),
        });
    }
    judge_rest(alloc, &mut checker, system, cert)
}
