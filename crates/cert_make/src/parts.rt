//! The derivation of one part, from the log of a solver.

ghost use Rattle.std.specs.Prelude.{◌≡◌, ◌+◌, ◌≤◌, ◌*◌, ◌++◌, [], All, IfOk, length, slice_index_or};
ghost use Rattle.clause_core.specs.Literals.{Within};
ghost use Rattle.sat_core.specs.Paying.{PaysForOne};
ghost use Rattle.sat_core.specs.Queries.{IsSound, Learns};
ghost use Rattle.cert_core.specs.Certificates.{unit_clauses, IsInvariant};
ghost use Rattle.cert_core.specs.declared.form.Form.TheVariants.{Hinted as Hints};
ghost use Rattle.cert_core.specs.Blocks.{HasPlace};
ghost use Rattle.cert_check.specs.Judgements.{EachBelow};
ghost use Rattle.cert_check.specs.Upgrades.{Puts};
ghost use Rattle.cert_make.specs.Making.{AllSay, KeptFollows};
ghost use Rattle.cert_make.specs.Paying.{HasNoModel, PaysOn};

use crate::asking::{Asked, Engine, ask};
use cert_check::hinting::hint_part;
use cert_check::lists::negate_next;
use cert_core::{Certificate, MAX_VARS, Part};
use clause_core::{Clauses, Lit, System};
use effort_purse::Purse;
use rup_check::Checker;
use std::alloc::{AllocError, Global};

pub fn discard(_solver: Engine) {}

// Has the solver refute these clauses and units, and gives the part the derivation.
pub fn put_part<Q: Purse>(
    alloc: Global,
    solver: &mut Engine,
    checker: &mut Checker,
    clauses: &Clauses,
    units: &[Lit],
    to: &mut Certificate,
    part: Part,
    purse: &mut Q,
) -> Result<Asked, AllocError>
    requires vars { checker.old ≡ solver.old.vars }
    requires same { solver.old.given ≡ clauses.now }
    requires room { checker.old ≤ MAX_VARS }
    requires clauses { All (Within checker.old) clauses.now }
    requires units { Within checker.old units.now }
    requires no_model { HasNoModel clauses.now units.now }
    requires form { to.old.form ≡ Hints }
    requires place { HasPlace to.old part }
    requires ready { Q.ready purse.old }
    ensures vars { checker.new ≡ checker.old }
    ensures learned { Learns units.now solver.old solver.new }
    ensures says { IfOk result (AllSay (Puts checker.old (clauses.now ++ unit_clauses units.now) part to.old to.new) (Q.budget purse.old) (Q.spent purse.new)) }
    ensures pays { PaysForOne solver.old units.now solver.new (Q.tickets purse.old) (Q.tickets purse.new) }
    ensures kept { Q.kept purse.old purse.new }
    ensures ready { Q.ready purse.new }
    ensures budget { Q.budget purse.new ≡ Q.budget purse.old }
{
    match ask(alloc, solver, units, purse)? {
        Asked::Spent { drawn, budget } => Ok(Asked::Spent { drawn, budget }),
        Asked::Refuted => {
            let log = solver.log(alloc)?;
            hint_part(alloc, checker, clauses, units, &log, to, part)?;
            Ok(Asked::Refuted)
        }
    }
}

// Asks of each clause whether steps keep it, so that the solver learns the clauses that show it.
pub fn learn_kept<Q: Purse>(
    alloc: Global,
    solver: &mut Engine,
    system: &System,
    clauses: &Clauses,
    purse: &mut Q,
) -> Result<Asked, AllocError>
    requires vars { solver.old.vars ≡ system.now.all_bits }
    requires given { solver.old.given ≡ clauses.now ++ system.now.step }
    requires fits { system.now.all_bits ≤ MAX_VARS }
    requires within { All (Within system.now.state_bits) clauses.now }
    requires invariant { IsInvariant system.now clauses.now }
    requires sound { IsSound solver.old }
    requires ready { Q.ready purse.old }
    ensures vars { solver.new.vars ≡ solver.old.vars }
    ensures given { solver.new.given ≡ solver.old.given }
    ensures sound { IsSound solver.new }
    ensures says { IfOk result (AllSay (EachBelow (λ j. KeptFollows system.now.state_bits solver.old.given solver.new.learned (slice_index_or clauses.now j [])) (length clauses.now)) (Q.budget purse.old) (Q.spent purse.new)) }
    ensures pays { IfOk result (PaysOn system.now clauses.now (length clauses.now) (length clauses.now + length clauses.now) solver.old.learned solver.new.learned (Q.tickets purse.old) (Q.tickets purse.new)) }
    ensures kept { Q.kept purse.old purse.new }
    ensures ready { Q.ready purse.new }
    ensures budget { Q.budget purse.new ≡ Q.budget purse.old }
{
    system.law();
    let state_bits = system.state_bits();
    for k in 0..clauses.len() {
        let units = negate_next(alloc, state_bits, clauses.get(k))?;
        match ask(alloc, solver, &units, purse)? {
            Asked::Spent { drawn, budget } => return Ok(Asked::Spent { drawn, budget }),
            Asked::Refuted => {}
        }
    }
    Ok(Asked::Refuted)
}
