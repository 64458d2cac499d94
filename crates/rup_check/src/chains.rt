//! Whether a clause follows by its hints: each named clause is unit in turn, and the last is false
//! (Cruz-Filipe and others 2017).

ghost use Rattle.std.specs.Prelude.{◌≡◌, ℕ, ◌<◌, ◌≤◌, ◌⊎◌, [], All, length, slice_index_or, slice_index, IfSome, IsNone, IsTrue, MatchBool};
ghost use Rattle.clause_core.specs.Literals.{Within};
ghost use Rattle.hinted_log.specs.Hints.{FollowsBy};
ghost use Rattle.rup_check.specs.Chains.{before, IsClear, Cleared, ClearedAt, HasVar, AssumedFalse, Walks, Touched};

use clause_core::{Clauses, Lit, Scan, is_set, scan_clause, set};

// This clause of the given ones, the units, and the first `count` steps, numbered through.
pub(crate) fn clause_at<'a>(
    clauses: &'a Clauses,
    units: &'a [Lit],
    steps: &'a Clauses,
    count: usize,
    number: usize,
) -> Option<&'a [Lit]>
    requires { count ≤ length steps.now }
    ensures none { IsNone result → length (before clauses.now units.now steps.now count) ≤ number }
    ensures below { IfSome result (λ c. number < length (before clauses.now units.now steps.now count)) }
    ensures some { IfSome result (λ c. c.now ≡ slice_index_or (before clauses.now units.now steps.now count) number []) }
{
    if number < clauses.len() {
        return Some(clauses.get(number));
    }
    let unit = number - clauses.len();
    if unit < units.len() {
        return Some(&units[unit..unit + 1]);
    }
    let step = unit - units.len();
    if step < count {
        Some(steps.get(step))
    } else {
        None
    }
}

// Sets each literal of the clause false. False: it has a literal and its negation.
pub(crate) fn assume_open(values: &mut [u8], c: &[Lit]) -> bool
    requires clear { IsClear values.old }
    requires within { Within (length values.old) c.now }
    ensures says { AssumedFalse c.now values.new result }
    ensures touched { (k : ℕ) → (slice_index values.new k ≡ 0) ⊎ HasVar c.now k }
{
    for x in c {
        let l = *x;
        if is_set(values, l) {
            return false;
        }
        set(values, l.negated());
    }
    true
}

// Whether each hinted clause in turn sets one literal, and the last is false.
fn walk(
    values: &mut [u8],
    clauses: &Clauses,
    units: &[Lit],
    steps: &Clauses,
    count: usize,
    hints: &[usize],
) -> bool
    requires in_steps { count ≤ length steps.now }
    requires within { All (Within (length values.old)) (before clauses.now units.now steps.now count) }
    ensures says { MatchBool result (Walks (before clauses.now units.now steps.now count) values.old hints.now) (Walks (before clauses.now units.now steps.now count) values.old hints.now → ⊥) }
    ensures touched { Touched (before clauses.now units.now steps.now count) values.old hints.now values.new }
{
    let n = hints.len();
    for (j, h) in hints.iter().enumerate() {
        match clause_at(clauses, units, steps, count, *h) {
            None => return false,
            Some(c) => match scan_clause(values, c) {
                Scan::False => return j + 1 == n,
                Scan::UnitOn(l) => set(values, l),
                Scan::Rest => return false,
            },
        }
    }
    false
}

// Leaves the variables of the clause unset.
pub(crate) fn clear(values: &mut [u8], c: &[Lit])
    requires { Within (length values.old) c.now }
    ensures { Cleared values.old c.now values.new }
{
    for x in c {
        values[x.var] = 0;
    }
}

// Leaves the variables of all hinted clauses unset.
fn clear_hinted(
    values: &mut [u8],
    clauses: &Clauses,
    units: &[Lit],
    steps: &Clauses,
    count: usize,
    hints: &[usize],
)
    requires in_steps { count ≤ length steps.now }
    requires within { All (Within (length values.old)) (before clauses.now units.now steps.now count) }
    ensures { ClearedAt (before clauses.now units.now steps.now count) values.old hints.now values.new }
{
    for h in hints {
        if let Some(c) = clause_at(clauses, units, steps, count, *h) {
            clear(values, c);
        }
    }
}

// Whether the clause follows by its hints from the given clauses, the units and the first `count` steps.
// In the time of a few looks at each of its literals and at each clause that it names.
pub(crate) fn follows_by(
    values: &mut [u8],
    clauses: &Clauses,
    units: &[Lit],
    steps: &Clauses,
    count: usize,
    c: &[Lit],
    hints: &[usize],
) -> bool
    requires clear { IsClear values.old }
    requires in_steps { count ≤ length steps.now }
    requires within { All (Within (length values.old)) (before clauses.now units.now steps.now count) }
    requires in_c { Within (length values.old) c.now }
    ensures says { MatchBool result (FollowsBy (before clauses.now units.now steps.now count) c.now hints.now) (FollowsBy (before clauses.now units.now steps.now count) c.now hints.now → ⊥) }
    ensures clear { IsClear values.new }
{
    let follows = if assume_open(values, c) {
        walk(values, clauses, units, steps, count, hints)
    } else {
        false
    };
    clear(values, c);
    clear_hinted(values, clauses, units, steps, count, hints);
    follows
}
