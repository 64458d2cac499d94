//! One pass of unit propagation over a list of clauses.

ghost use Rattle.std.specs.Prelude.{◌≤◌, All, length, take};
ghost use Rattle.clause_core.specs.Literals.{Within};
ghost use Rattle.clause_core.specs.Values.{Consequent, Grows, unset};
ghost use Rattle.rup_check.specs.Passes.{PassSays};

use clause_core::{Clauses, Scan, scan_clause, set};

// What a pass over clauses found.
#[derive(Clone, Copy, Drop)]
pub(crate) enum Pass {
    // A clause with all literals false.
    Conflict,
    // No such clause; some literal was set.
    Changed,
    // Nothing: unit propagation has nothing left to do at these clauses.
    Still,
}

// One pass over the first `count` clauses: sets each literal that a clause is unit on.
pub(crate) fn pass_over(values: &mut [u8], clauses: &Clauses, count: usize) -> Pass
    requires in_list { count ≤ length clauses.now }
    requires within { All (Within (length values.old)) (take count clauses.now) }
    ensures kept { Consequent values.old (take count clauses.now) values.new }
    ensures grows { Grows values.old values.new }
    ensures says { PassSays values.old (take count clauses.now) values.new result }
    ensures less { unset values.new ≤ unset values.old }
{
    let mut changed = false;
    for k in 0..count {
        match scan_clause(values, clauses.get(k)) {
            Scan::False => return Pass::Conflict,
            Scan::UnitOn(l) => {
                set(values, l);
                changed = true;
            }
            Scan::Rest => {}
        }
    }
    if changed { Pass::Changed } else { Pass::Still }
}
