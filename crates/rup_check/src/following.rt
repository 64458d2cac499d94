//! Whether a clause follows by unit propagation from those before it (Goldberg and Novikov 2003).

ghost use Rattle.std.specs.Prelude.{◌≤◌, ◌++◌, All, length, take, MatchBool};
ghost use Rattle.clause_core.specs.Literals.{Within};
ghost use Rattle.clause_core.specs.Propagation.{Follows};
ghost use Rattle.rup_check.specs.Passes.{AssumeSays};

use crate::passes::{Pass, pass_over};
use clause_core::{Clauses, Lit, Log, is_set, set};

// Sets each literal of the clause false, and no other. True: it has a literal and its negation.
fn assume_false(values: &mut [u8], c: &[Lit]) -> bool
    requires { Within (length values.old) c.now }
    ensures { AssumeSays c.now values.new result }
{
    values.fill(0);
    for x in c {
        let l = *x;
        if is_set(values, l) {
            return true;
        }
        set(values, l.negated());
    }
    false
}

// Whether the clause follows by unit propagation from the clauses and the first `steps` of the log.
pub(crate) fn follows(
    values: &mut [u8],
    clauses: &Clauses,
    log: &Log,
    steps: usize,
    c: &[Lit],
) -> bool
    requires in_log { steps ≤ length log.now }
    requires in_clauses { All (Within (length values.old)) clauses.now }
    requires in_before { All (Within (length values.old)) (take steps log.now) }
    requires in_c { Within (length values.old) c.now }
    ensures { MatchBool result (Follows (clauses.now ++ take steps log.now) c.now) (Follows (clauses.now ++ take steps log.now) c.now → ⊥) }
{
    if assume_false(values, c) {
        return true;
    }
    'rounds: loop {
        match pass_over(values, clauses, clauses.len()) {
            Pass::Conflict => return true,
            Pass::Changed => {}
            Pass::Still => match pass_over(values, log, steps) {
                Pass::Conflict => return true,
                Pass::Changed => {}
                Pass::Still => return false,
            },
        }
    }
}
