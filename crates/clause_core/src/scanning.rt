//! What unit propagation finds at one clause: a conflict, a literal to be set, or nothing.

ghost use Rattle.std.specs.Prelude.{length};
ghost use Rattle.clause_core.specs.Literals.{Within};
ghost use Rattle.clause_core.specs.Values.{holds};
ghost use Rattle.clause_core.specs.Scans.{ScanSays};

use crate::assignment::{is_false, is_set};
use crate::literal::Lit;

/// What a clause asks for under a partial assignment.
#[derive(Clone, Copy, PartialEq, Eq, Debug)]
pub enum Scan {
    /// Each of its literals is false: a conflict.
    False,
    /// All its literals but this one are false, and this one is unset.
    UnitOn(Lit),
    /// Nothing: a literal is true, or two different ones are not false.
    Rest,
}

/// What the clause asks for; looks at no more of its literals than it needs, and takes no memory.
pub fn scan_clause(values: &[u8], c: &[Lit]) -> Scan
    requires { Within (length values.now) c.now }
    ensures { ScanSays (holds values.now) c.now result }
{
    let mut found: Option<Lit> = None;
    for x in c {
        let l = *x;
        if is_set(values, l) {
            return Scan::Rest;
        }
        if !is_false(values, l) {
            match found {
                None => found = Some(l),
                Some(f) => {
                    if !f.is_same(l) {
                        return Scan::Rest;
                    }
                }
            }
        }
    }
    match found {
        None => Scan::False,
        Some(f) => Scan::UnitOn(f),
    }
}
