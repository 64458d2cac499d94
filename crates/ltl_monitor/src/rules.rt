//! Clauses that define a literal by the values of others (Tseitin 1968).

ghost use Rattle.std.specs.Prelude.{◌≡◌, ◌++◌, OnOk};
ghost use Rattle.clause_core.specs.Literals.{negate};
ghost use Rattle.ltl_monitor.specs.Drafting.{is_same, is_or, is_iff, is_or_and};

use clause_core::{Clauses, Lit};
use std::alloc::AllocError;

// Adds that b is x.
pub fn push_same(clauses: &mut Clauses, b: Lit, x: Lit) -> Result<(), AllocError>
    ensures { OnOk result (clauses.new ≡ clauses.old ++ is_same b x) }
{
    clauses.push(&[b, x.negated()])?;
    clauses.push(&[b.negated(), x])
}

// Adds that b is x or y.
pub fn push_or(clauses: &mut Clauses, b: Lit, x: Lit, y: Lit) -> Result<(), AllocError>
    ensures { OnOk result (clauses.new ≡ clauses.old ++ is_or b x y) }
{
    clauses.push(&[b, x.negated()])?;
    clauses.push(&[b, y.negated()])?;
    clauses.push(&[b.negated(), x, y])
}

// Adds that b is whether x and y are alike.
pub fn push_iff(clauses: &mut Clauses, b: Lit, x: Lit, y: Lit) -> Result<(), AllocError>
    ensures { OnOk result (clauses.new ≡ clauses.old ++ is_iff b x y) }
{
    clauses.push(&[b.negated(), x.negated(), y])?;
    clauses.push(&[b.negated(), x, y.negated()])?;
    clauses.push(&[b, x, y])?;
    clauses.push(&[b, x.negated(), y.negated()])
}

// Adds that b is x, or y and z.
pub fn push_or_and(clauses: &mut Clauses, b: Lit, x: Lit, y: Lit, z: Lit) -> Result<(), AllocError>
    ensures { OnOk result (clauses.new ≡ clauses.old ++ is_or_and b x y z) }
{
    clauses.push(&[b, x.negated()])?;
    clauses.push(&[b, y.negated(), z.negated()])?;
    clauses.push(&[b.negated(), x, y])?;
    clauses.push(&[b.negated(), x, z])
}

// Adds that b is x and y.
pub fn push_and(clauses: &mut Clauses, b: Lit, x: Lit, y: Lit) -> Result<(), AllocError>
    ensures { OnOk result (clauses.new ≡ clauses.old ++ is_or (negate b) (negate x) (negate y)) }
{
    push_or(clauses, b.negated(), x.negated(), y.negated())
}

// Adds that b is both x, and y or z.
pub fn push_and_or(clauses: &mut Clauses, b: Lit, x: Lit, y: Lit, z: Lit) -> Result<(), AllocError>
    ensures { OnOk result (clauses.new ≡ clauses.old ++ is_or_and (negate b) (negate x) (negate y) (negate z)) }
{
    push_or_and(clauses, b.negated(), x.negated(), y.negated(), z.negated())
}
