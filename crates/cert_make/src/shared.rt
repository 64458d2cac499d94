//! The shared part of a certificate: what a solver learned from the clauses and the steps. The
//! parts that show consecution then take one step each.

ghost use Rattle.std.specs.Prelude.{◌≡◌, ◌+◌, ◌≤◌, ◌*◌, ◌++◌, [], ◌∷◌, All, IfOk, OnOk, None, length, slice_index_or};
ghost use Rattle.clause_core.specs.Literals.{Within};
ghost use Rattle.clause_core.specs.Derivations.{AllStepsBelow, Derives};
ghost use Rattle.cert_core.specs.declared.form.Form.TheVariants.{Hinted as Hints};
ghost use Rattle.cert_core.specs.declared.form.Part.TheVariants.{Kept as OfKept};
ghost use Rattle.cert_core.specs.Blocks.{part_of};
ghost use Rattle.cert_core.specs.Certificates.{unit_clauses, negated_next, shared_steps, Shows, IsInvariant};
ghost use Rattle.cert_check.specs.Judgements.{EachBelow};
ghost use Rattle.cert_make.specs.Making.{KeptFollows, LearnedSays, SharedPut, SharedAndKept};
ghost use Rattle.cert_make.specs.Paying.{PaysOn, asked_of};

use crate::asking::{Asked, Engine};
use crate::parts::{discard, learn_kept};
use cert_check::hinting::hint_part;
use cert_check::lists::{append, negate_next};
use cert_core::{Certificate, MAX_VARS, Part};
use clause_core::{Clauses, System};
use effort_purse::Purse;
use rup_check::Checker;
use sat_core::Solver;
use std::alloc::{AllocError, Global};

/// What was learned on the way, or that the purse was spent.
#[derive(Drop)]
pub enum Learned {
    /// These clauses.
    Clauses(Clauses),
    /// The purse was spent.
    Spent { drawn: u64, budget: u64 },
}

// What the solver learned.
fn learned_of(alloc: Global, solver: &Engine) -> Result<Clauses, AllocError>
    ensures { IfOk result (λ log. log ≡ solver.now.learned) }
{
    let mut log = solver.log(alloc)?;
    log.truncate(solver.learned());
    Ok(log)
}

// Asks the solver of each clause whether it is kept, and gives what it learned.
fn learn_with<Q: Purse>(
    alloc: Global,
    solver: &mut Engine,
    system: &System,
    given: &Clauses,
    clauses: &Clauses,
    purse: &mut Q,
) -> Result<Learned, AllocError>
    requires fresh { solver.old ≡ record { vars = system.now.all_bits; given = given.now; learned = [] } }
    requires given { given.now ≡ clauses.now ++ system.now.step }
    requires fits { system.now.all_bits ≤ MAX_VARS }
    requires within { All (Within system.now.state_bits) clauses.now }
    requires invariant { IsInvariant system.now clauses.now }
    requires ready { Q.ready purse.old }
    ensures says { IfOk result (LearnedSays system.now.all_bits system.now.state_bits given.now clauses.now (Q.budget purse.old) (Q.spent purse.new)) }
    ensures pays { IfOk result (λ r. PaysOn system.now clauses.now (length clauses.now) (length clauses.now + length clauses.now) [] [] (Q.tickets purse.old) (Q.tickets purse.new) (asked_of r)) }
    ensures kept { Q.kept purse.old purse.new }
    ensures ready { Q.ready purse.new }
    ensures budget { Q.budget purse.new ≡ Q.budget purse.old }
{
    let _count = (system.all_bits(), given.len());
    match learn_kept(alloc, solver, system, clauses, purse)? {
        Asked::Spent { drawn, budget } => Ok(Learned::Spent { drawn, budget }),
        Asked::Refuted => {
            let log = learned_of(alloc, solver)?;
            Ok(Learned::Clauses(log))
        }
    }
}

// The clauses that a solver learns when it is asked of each clause whether steps keep it.
pub fn learn<Q: Purse>(
    alloc: Global,
    system: &System,
    given: &Clauses,
    clauses: &Clauses,
    purse: &mut Q,
) -> Result<Learned, AllocError>
    requires given { given.now ≡ clauses.now ++ system.now.step }
    requires given_in { All (Within system.now.all_bits) given.now }
    requires fits { system.now.all_bits ≤ MAX_VARS }
    requires within { All (Within system.now.state_bits) clauses.now }
    requires invariant { IsInvariant system.now clauses.now }
    requires ready { Q.ready purse.old }
    ensures says { IfOk result (LearnedSays system.now.all_bits system.now.state_bits given.now clauses.now (Q.budget purse.old) (Q.spent purse.new)) }
    ensures pays { IfOk result (λ r. PaysOn system.now clauses.now (length clauses.now) (length clauses.now + length clauses.now) [] [] (Q.tickets purse.old) (Q.tickets purse.new) (asked_of r)) }
    ensures kept { Q.kept purse.old purse.new }
    ensures ready { Q.ready purse.new }
    ensures budget { Q.budget purse.new ≡ Q.budget purse.old }
{
    let mut solver: Engine = Solver::with_clauses(alloc, system.all_bits(), given)?;
    let learned = learn_with(alloc, &mut solver, system, given, clauses, purse);
    discard(solver);
    learned
}

// Gives the shared part the steps of the log with hints, if there are any.
pub fn put_shared(
    alloc: Global,
    checker: &mut Checker,
    given: &Clauses,
    log: &Clauses,
    to: &mut Certificate,
) -> Result<(), AllocError>
    requires given { All (Within checker.old) given.now }
    requires follow { AllStepsBelow checker.old given.now log.now (length log.now) }
    requires room { checker.old ≤ MAX_VARS }
    requires form { to.old.form ≡ Hints }
    requires none { to.old.shared ≡ None }
    ensures vars { checker.new ≡ checker.old }
    ensures put { OnOk result (SharedPut checker.old given.now log.now to.old to.new) }
{
    let steps = checker.hint_steps(alloc, given, log)?;
    if steps.len() == 0 {
        return Ok(());
    }
    to.put(Part::Shared, steps);
    Ok(())
}

// The log of the empty clause alone.
fn empty_log(alloc: Global) -> Result<Clauses, AllocError>
    ensures { IfOk result (λ log. log ≡ [] ∷ []) }
{
    let mut log = Clauses::new(alloc);
    log.push(&[])?;
    Ok(log)
}

// The clauses with the steps of the shared part behind them.
fn with_shared(alloc: Global, given: &Clauses, cert: &Certificate) -> Result<Clauses, AllocError>
    ensures { IfOk result (λ all. all ≡ given.now ++ shared_steps Hints cert.now.shared) }
{
    let mut all = Clauses::new(alloc);
    append(&mut all, given)?;
    match cert.steps(Part::Shared) {
        None => {}
        Some(steps) => append(&mut all, steps.steps())?,
    }
    Ok(all)
}

// Gives the shared part the steps of the log, and each clause's part `kept` its one step.
pub fn put_shared_and_kept(
    alloc: Global,
    checker: &mut Checker,
    given: &Clauses,
    log: &Clauses,
    state_bits: usize,
    clauses: &Clauses,
    to: &mut Certificate,
) -> Result<(), AllocError>
    requires given { All (Within checker.old) given.now }
    requires room { 2 * state_bits ≤ checker.old }
    requires fits { checker.old ≤ MAX_VARS }
    requires within { All (Within state_bits) clauses.now }
    requires follow { AllStepsBelow checker.old given.now log.now (length log.now) }
    requires each { EachBelow (λ j. KeptFollows state_bits given.now log.now (slice_index_or clauses.now j [])) (length clauses.now) }
    requires form { to.old.form ≡ Hints }
    requires clauses { to.old.clauses ≡ clauses.now }
    requires none { to.old.shared ≡ None }
    ensures vars { checker.new ≡ checker.old }
    ensures put { OnOk result (SharedAndKept checker.old state_bits given.now clauses.now to.old to.new) }
{
    put_shared(alloc, checker, given, log, to)?;
    let all = with_shared(alloc, given, to)?;
    put_kept(alloc, checker, &all, state_bits, clauses, to)?;
    Ok(())
}

// Gives each clause's part `kept` the one step that the empty clause is, with hints.
pub fn put_kept(
    alloc: Global,
    checker: &mut Checker,
    given: &Clauses,
    state_bits: usize,
    clauses: &Clauses,
    to: &mut Certificate,
) -> Result<(), AllocError>
    requires room { 2 * state_bits ≤ checker.old }
    requires fits { checker.old ≤ MAX_VARS }
    requires given { All (Within checker.old) given.now }
    requires within { All (Within state_bits) clauses.now }
    requires derive { EachBelow (λ j. Derives checker.old (given.now ++ unit_clauses (negated_next state_bits (slice_index_or clauses.now j []))) ([] ∷ [])) (length clauses.now) }
    requires form { to.old.form ≡ Hints }
    requires clauses { to.old.clauses ≡ clauses.now }
    ensures vars { checker.new ≡ checker.old }
    ensures shown { OnOk result (EachBelow (λ j. Shows Hints checker.old (given.now ++ unit_clauses (negated_next state_bits (slice_index_or clauses.now j []))) (part_of to.new (OfKept j))) (length clauses.now)) }
    ensures rest { OnOk result (to.new ≡ record to.old { kept = to.new.kept }) }
{
    to.law();
    let log = empty_log(alloc)?;
    for k in 0..clauses.len() {
        let units = negate_next(alloc, state_bits, clauses.get(k))?;
        hint_part(alloc, checker, given, &units, &log, to, Part::Kept(k))?;
    }
    Ok(())
}
