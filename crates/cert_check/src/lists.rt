//! Lists of clauses joined, and the negation of a clause as literals, in this state or the next.

ghost use Rattle.std.specs.Prelude.{◌≡◌, ◌<◌, ◌*◌, ◌^◌, ◌++◌, map, OnOk, IfOk};
ghost use Rattle.clause_core.specs.Literals.{negate, Within};
ghost use Rattle.cert_core.specs.Certificates.{unit_clauses, negated, negated_next};

use clause_core::{Clauses, Lit};
use std::alloc::{AllocError, Global};

/// Adds all clauses of another list.
pub fn append(to: &mut Clauses, from: &Clauses) -> Result<(), AllocError>
    ensures { OnOk result (to.new ≡ to.old ++ from.now) }
{
    for k in 0..from.len() {
        to.push(from.get(k))?;
    }
    Ok(())
}

/// Adds a clause of one literal for each of these.
pub fn append_units(to: &mut Clauses, units: &[Lit]) -> Result<(), AllocError>
    ensures { OnOk result (to.new ≡ to.old ++ unit_clauses units.now) }
{
    for l in units {
        to.push(&[*l])?;
    }
    Ok(())
}

/// The clauses of both lists.
pub fn joined(alloc: Global, first: &Clauses, second: &Clauses) -> Result<Clauses, AllocError>
    ensures { IfOk result (λ c. c ≡ first.now ++ second.now) }
{
    let mut all = Clauses::new(alloc);
    append(&mut all, first)?;
    append(&mut all, second)?;
    Ok(all)
}

/// The literals of the negated clause.
pub fn negate_all(alloc: Global, c: &[Lit]) -> Result<Vec<Lit>, AllocError>
    ensures { IfOk result (λ v. v.items ≡ negated c.now) }
{
    let mut lits = Vec::new(alloc);
    for l in c {
        lits.push(l.negated())?;
    }
    Ok(lits)
}

/// The literals of the negated clause, at the next state.
pub fn negate_next(alloc: Global, state_bits: usize, c: &[Lit]) -> Result<Vec<Lit>, AllocError>
    requires room { 2 * state_bits < 2 ^ 64 }
    requires within { Within state_bits c.now }
    ensures { IfOk result (λ v. v.items ≡ negated_next state_bits c.now) }
{
    let mut lits = Vec::new(alloc);
    for l in c {
        lits.push(Lit::new(state_bits + l.var, !l.positive))?;
    }
    Ok(lits)
}
