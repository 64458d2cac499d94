//! Checks each step of a derivation by its hints, and names the first that fails.

ghost use Rattle.std.specs.Prelude.{◌++◌, All, length};
ghost use Rattle.clause_core.specs.Literals.{Within};
ghost use Rattle.rup_check.specs.Chains.{units_of, IsClear, HintedVerdict};

use crate::chains::follows_by;
use crate::checking::LogVerdict;
use clause_core::{Clauses, Lit, is_within};
use hinted_log::Hinted;

// Judges each step by its hints.
pub(crate) fn check_steps(
    values: &mut [u8],
    clauses: &Clauses,
    units: &[Lit],
    log: &Hinted,
) -> LogVerdict
    requires clear { IsClear values.old }
    requires in_clauses { All (Within (length values.old)) clauses.now }
    requires in_units { Within (length values.old) units.now }
    ensures says { HintedVerdict (length values.old) (clauses.now ++ units_of units.now) log.now result }
    ensures clear { IsClear values.new }
{
    let steps = log.steps();
    let n = steps.len();
    for k in 0..n {
        let step = steps.get(k);
        if !is_within(step, values.len()) {
            return LogVerdict::No { step: k };
        }
        if !follows_by(values, clauses, units, steps, k, step, log.hints(k)) {
            return LogVerdict::No { step: k };
        }
    }
    if n == 0 {
        return LogVerdict::No { step: 0 };
    }
    if steps.get(n - 1).len() != 0 {
        return LogVerdict::No { step: n };
    }
    LogVerdict::Yes
}
