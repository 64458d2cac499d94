//! Makes a certificate of an inductive invariant: a solver refutes each part's negation, and its
//! log is the derivation.

ghost use Rattle.std.specs.Prelude.{◌≡◌, ◌+◌, ◌≤◌, ◌++◌, [], All, IfOk, None, length};
ghost use Rattle.clause_core.specs.Literals.{Within};
ghost use Rattle.cert_core.specs.declared.form.Form.TheVariants.{Hinted as Hints};
ghost use Rattle.cert_core.specs.declared.form.Part.TheVariants.{Safe as OfSafe};
ghost use Rattle.cert_core.specs.Certificates.{unit_clauses, IsInvariant};
ghost use Rattle.cert_check.specs.Upgrades.{Puts};
ghost use Rattle.cert_make.specs.Making.{AllSay, FirstPut, SharedAndKept, IsMade, MadeSays};
ghost use Rattle.cert_make.specs.Paying.{PaysOn, PaysMaking};

use crate::asking::{Asked, Engine};
use crate::parts::{discard, put_part};
use crate::shared::{Learned, learn, put_shared_and_kept};
use crate::trimming::trimmed;
use cert_check::lists::{joined, negate_all};
use cert_check::{CertVerdict, check};
use cert_core::{Certificate, Form, MAX_VARS, Part};
use clause_core::{Clauses, System};
use effort_purse::Purse;
use rup_check::Checker;
use sat_core::Solver;
use std::alloc::{AllocError, Global};

/// What is made of an invariant.
#[derive(Drop)]
pub enum Made {
    /// A certificate that certifies.
    Certificate(Certificate),
    /// The purse was spent before it was made: `drawn` tickets of `budget`, two equal numbers.
    Spent { drawn: u64, budget: u64 },
}

// A certificate of these clauses with no parts, to be judged by hints.
fn bare(alloc: Global, clauses: &Clauses) -> Result<Certificate, AllocError>
    requires { All (Within MAX_VARS) clauses.now }
    ensures form { IfOk result (λ b. b.form ≡ Hints) }
    ensures counter { IfOk result (λ b. b.counter ≡ None) }
    ensures clauses { IfOk result (λ b. b.clauses ≡ clauses.now) }
    ensures shared { IfOk result (λ b. b.shared ≡ None) }
{
    let mut bare = Certificate::new(alloc, Form::Hinted, None);
    for k in 0..clauses.len() {
        bare.push_clause(clauses.get(k))?;
    }
    Ok(bare)
}

// Gives each clause's part `first` its steps, by a solver of the clauses of initial states.
fn put_first_with<Q: Purse>(
    alloc: Global,
    solver: &mut Engine,
    checker: &mut Checker,
    system: &System,
    clauses: &Clauses,
    to: &mut Certificate,
    purse: &mut Q,
) -> Result<Asked, AllocError>
    requires fresh { solver.old ≡ record { vars = system.now.all_bits; given = system.now.init; learned = [] } }
    requires vars { checker.old ≡ system.now.all_bits }
    requires room { system.now.all_bits ≤ MAX_VARS }
    requires within { All (Within system.now.state_bits) clauses.now }
    requires invariant { IsInvariant system.now clauses.now }
    requires form { to.old.form ≡ Hints }
    requires clauses { to.old.clauses ≡ clauses.now }
    requires ready { Q.ready purse.old }
    ensures vars { checker.new ≡ checker.old }
    ensures says { IfOk result (AllSay (FirstPut system.now clauses.now to.old to.new) (Q.budget purse.old) (Q.spent purse.new)) }
    ensures pays { IfOk result (PaysOn system.now clauses.now 0 (length clauses.now) [] [] (Q.tickets purse.old) (Q.tickets purse.new)) }
    ensures kept { Q.kept purse.old purse.new }
    ensures ready { Q.ready purse.new }
    ensures budget { Q.budget purse.new ≡ Q.budget purse.old }
{
    system.law();
    to.law();
    for k in 0..clauses.len() {
        let units = negate_all(alloc, clauses.get(k))?;
        match put_part(
            alloc,
            solver,
            checker,
            system.init(),
            &units,
            to,
            Part::First(k),
            purse,
        )? {
            Asked::Spent { drawn, budget } => return Ok(Asked::Spent { drawn, budget }),
            Asked::Refuted => {}
        }
    }
    Ok(Asked::Refuted)
}

// As `put_first_with`, by a solver that it makes.
fn put_first<Q: Purse>(
    alloc: Global,
    checker: &mut Checker,
    system: &System,
    clauses: &Clauses,
    to: &mut Certificate,
    purse: &mut Q,
) -> Result<Asked, AllocError>
    requires vars { checker.old ≡ system.now.all_bits }
    requires room { system.now.all_bits ≤ MAX_VARS }
    requires within { All (Within system.now.state_bits) clauses.now }
    requires invariant { IsInvariant system.now clauses.now }
    requires form { to.old.form ≡ Hints }
    requires clauses { to.old.clauses ≡ clauses.now }
    requires ready { Q.ready purse.old }
    ensures vars { checker.new ≡ checker.old }
    ensures says { IfOk result (AllSay (FirstPut system.now clauses.now to.old to.new) (Q.budget purse.old) (Q.spent purse.new)) }
    ensures pays { IfOk result (PaysOn system.now clauses.now 0 (length clauses.now) [] [] (Q.tickets purse.old) (Q.tickets purse.new)) }
    ensures kept { Q.kept purse.old purse.new }
    ensures ready { Q.ready purse.new }
    ensures budget { Q.budget purse.new ≡ Q.budget purse.old }
{
    system.law();
    let mut solver: Engine = Solver::with_clauses(alloc, system.all_bits(), system.init())?;
    let asked = put_first_with(alloc, &mut solver, checker, system, clauses, to, purse);
    discard(solver);
    asked
}

// Gives the shared part its steps, and each clause's part `kept`.
fn put_kept<Q: Purse>(
    alloc: Global,
    checker: &mut Checker,
    system: &System,
    clauses: &Clauses,
    given: &Clauses,
    to: &mut Certificate,
    purse: &mut Q,
) -> Result<Asked, AllocError>
    requires vars { checker.old ≡ system.now.all_bits }
    requires room { system.now.all_bits ≤ MAX_VARS }
    requires within { All (Within system.now.state_bits) clauses.now }
    requires invariant { IsInvariant system.now clauses.now }
    requires given { given.now ≡ clauses.now ++ system.now.step }
    requires given_in { All (Within system.now.all_bits) given.now }
    requires form { to.old.form ≡ Hints }
    requires clauses { to.old.clauses ≡ clauses.now }
    requires none { to.old.shared ≡ None }
    requires ready { Q.ready purse.old }
    ensures vars { checker.new ≡ checker.old }
    ensures says { IfOk result (AllSay (SharedAndKept system.now.all_bits system.now.state_bits given.now clauses.now to.old to.new) (Q.budget purse.old) (Q.spent purse.new)) }
    ensures pays { IfOk result (PaysOn system.now clauses.now (length clauses.now) (length clauses.now + length clauses.now) [] [] (Q.tickets purse.old) (Q.tickets purse.new)) }
    ensures kept { Q.kept purse.old purse.new }
    ensures ready { Q.ready purse.new }
    ensures budget { Q.budget purse.new ≡ Q.budget purse.old }
{
    let state_bits = system.state_bits();
    match learn(alloc, system, given, clauses, purse)? {
        Learned::Spent { drawn, budget } => Ok(Asked::Spent { drawn, budget }),
        Learned::Clauses(log) => {
            put_shared_and_kept(alloc, checker, given, &log, state_bits, clauses, to)?;
            Ok(Asked::Refuted)
        }
    }
}

// Gives the part `safe` its steps, where `bad` is what it follows from.
fn put_safe<Q: Purse>(
    alloc: Global,
    checker: &mut Checker,
    system: &System,
    clauses: &Clauses,
    bad: &Clauses,
    to: &mut Certificate,
    purse: &mut Q,
) -> Result<Asked, AllocError>
    requires vars { checker.old ≡ system.now.all_bits }
    requires room { system.now.all_bits ≤ MAX_VARS }
    requires invariant { IsInvariant system.now clauses.now }
    requires bad { bad.now ≡ clauses.now ++ system.now.bad }
    requires bad_in { All (Within system.now.all_bits) bad.now }
    requires form { to.old.form ≡ Hints }
    requires ready { Q.ready purse.old }
    ensures says { IfOk result (AllSay (Puts system.now.all_bits (bad.now ++ unit_clauses []) OfSafe to.old to.new) (Q.budget purse.old) (Q.spent purse.new)) }
    ensures pays { IfOk result (PaysOn system.now clauses.now (length clauses.now + length clauses.now) (length clauses.now + length clauses.now + 1) [] [] (Q.tickets purse.old) (Q.tickets purse.new)) }
    ensures kept { Q.kept purse.old purse.new }
    ensures ready { Q.ready purse.new }
    ensures budget { Q.budget purse.new ≡ Q.budget purse.old }
{
    let _count = clauses.len();
    let mut solver: Engine = Solver::with_clauses(alloc, system.all_bits(), bad)?;
    let asked = put_part(alloc, &mut solver, checker, bad, &[], to, Part::Safe, purse);
    discard(solver);
    asked
}

// Gives all parts their steps.
fn put_all<Q: Purse>(
    alloc: Global,
    checker: &mut Checker,
    system: &System,
    clauses: &Clauses,
    to: &mut Certificate,
    purse: &mut Q,
) -> Result<Asked, AllocError>
    requires vars { checker.old ≡ system.now.all_bits }
    requires room { system.now.all_bits ≤ MAX_VARS }
    requires within { All (Within system.now.state_bits) clauses.now }
    requires invariant { IsInvariant system.now clauses.now }
    requires form { to.old.form ≡ Hints }
    requires counter { to.old.counter ≡ None }
    requires clauses { to.old.clauses ≡ clauses.now }
    requires none { to.old.shared ≡ None }
    requires ready { Q.ready purse.old }
    ensures says { IfOk result (AllSay (IsMade system.now clauses.now to.new) (Q.budget purse.old) (Q.spent purse.new)) }
    ensures pays { IfOk result (PaysOn system.now clauses.now 0 (length clauses.now + length clauses.now + 1) [] [] (Q.tickets purse.old) (Q.tickets purse.new)) }
    ensures kept { Q.kept purse.old purse.new }
    ensures ready { Q.ready purse.new }
    ensures budget { Q.budget purse.new ≡ Q.budget purse.old }
{
    system.law();
    let given = joined(alloc, clauses, system.step())?;
    let bad = joined(alloc, clauses, system.bad())?;
    match put_first(alloc, checker, system, clauses, to, purse)? {
        Asked::Spent { drawn, budget } => return Ok(Asked::Spent { drawn, budget }),
        Asked::Refuted => {}
    }
    match put_kept(alloc, checker, system, clauses, &given, to, purse)? {
        Asked::Spent { drawn, budget } => return Ok(Asked::Spent { drawn, budget }),
        Asked::Refuted => {}
    }
    match put_safe(alloc, checker, system, clauses, &bad, to, purse)? {
        Asked::Spent { drawn, budget } => Ok(Asked::Spent { drawn, budget }),
        Asked::Refuted => Ok(Asked::Refuted),
    }
}

// The certificate without the shared steps that no part needs, if what is left certifies; else as it is.
fn trimmed_or_whole(
    alloc: Global,
    system: &System,
    cert: Certificate,
) -> Result<Certificate, AllocError>
    requires { IsMade system.now cert.clauses cert }
    ensures { IfOk result (IsMade system.now cert.clauses) }
{
    let given = cert.clauses().len().saturating_add(system.step().len());
    let less = trimmed(alloc, given, &cert)?;
    match check(alloc, system, &less)? {
        CertVerdict::Yes => Ok(less),
        CertVerdict::No { .. } => Ok(cert),
    }
}

/// Makes of clauses over state bits that are an invariant without bad states a certificate that certifies, judged by
/// hints.
///
/// A solver for all parts `first` is asked each clause, negated; one for all parts `kept` each clause, negated, at the
/// next state; and one for the part `safe` its own question. What the second one learns follows from the clauses and
/// the steps alone, and is the shared part, so that each part `kept` is one step. Shared steps that no part needs are
/// then left out, backwards from the hints, if `check` accepts what is left: the time of one more check, which grows
/// with the hints and the clauses that they name. Each question costs a ticket of the purse, and each clause that a
/// solver learns another; `Spent` comes only where the purse refused one, and then some part is not answered. The other
/// error is out of memory; more variables than a text can number count as that.
pub fn make<Q: Purse>(
    alloc: Global,
    system: &System,
    clauses: &Clauses,
    purse: &mut Q,
) -> Result<Made, AllocError>
    requires within { All (Within system.now.state_bits) clauses.now }
    requires invariant { IsInvariant system.now clauses.now }
    requires ready { Q.ready purse.old }
    ensures made { IfOk result (MadeSays system.now clauses.now (Q.budget purse.old) (Q.spent purse.new)) }
    ensures pays { IfOk result (PaysMaking system.now clauses.now (Q.tickets purse.old) (Q.tickets purse.new)) }
    ensures kept { Q.kept purse.old purse.new }
    ensures ready { Q.ready purse.new }
    ensures budget { Q.budget purse.new ≡ Q.budget purse.old }
{
    let vars = system.all_bits();
    if vars > MAX_VARS {
        return Err(AllocError);
    }
    system.law();
    let mut checker = Checker::new(alloc, vars)?;
    let mut cert = bare(alloc, clauses)?;
    match put_all(alloc, &mut checker, system, clauses, &mut cert, purse)? {
        Asked::Spent { drawn, budget } => Ok(Made::Spent { drawn, budget }),
        Asked::Refuted => {
            let made = trimmed_or_whole(alloc, system, cert)?;
            Ok(Made::Certificate(made))
        }
    }
}
