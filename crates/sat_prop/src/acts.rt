//! What the solver does to clauses and trail under watches: add or learn a clause, decide, and
//! undo.

ghost use Rattle.std.specs.Prelude.{◌+◌, [], ◌∷◌, ◌≡◌, ◌<◌, ◌≤◌, ◌++◌, false, OnOk, OnErr, length, take, slice_index};
ghost use Rattle.clause_core.specs.Literals.{Within, negate};
ghost use Rattle.sat_prop.specs.Moves.{Decides};
ghost use Rattle.sat_prop.specs.Packing.{pairs};
ghost use Rattle.sat_prop.specs.States.{IsGuarded, IsWatching};
ghost use Rattle.sat_prop.specs.Trails.{among};
ghost use Rattle.sat_prop.specs.Watches.{HasTwo, ShortTrue, Watchable};

use crate::attach::{attach, watches_of};
use crate::cover::Recent;
use crate::lists::WatchLists;
use crate::rows::Rows;
use crate::trail::Trail;
use crate::watch::Watches;
use clause_core::{Clauses, Lit, is_false};
use std::alloc::AllocError;

// The greatest trail position up to n before which the literal is not false.
fn open_until(trail: &Trail, l: Lit, n: usize) -> usize
    requires in_range { l.var < length trail.now.values.items }
    requires low { n ≤ length trail.now.literals.items }
    ensures low { result ≤ n }
    ensures open { among (take result trail.now.literals.items) (negate l) ≡ false }
{
    if is_false(&trail.values, l) {
        let q = trail.positions[l.var];
        if q < n {
            return q;
        }
    }
    n
}

// The place in the clause of a second watch: a literal that is not false and differs from the first, or else 0. With such
// a watch few watch lists are visited again.
pub fn open_place(trail: &Trail, c: &[Lit]) -> usize {
    for j in 1..c.len() {
        let l = c[j];
        if l.var < trail.values.len() && !is_false(&trail.values, l) && !l.is_same(c[0]) {
            return j;
        }
    }
    0
}

// The greatest trail position up to n before which neither watch is false, if the two differ.
fn head_for(trail: &Trail, h: Watches, n: usize) -> usize
    requires a_in { HasTwo h → h.a.var < length trail.now.values.items }
    requires b_in { HasTwo h → h.b.var < length trail.now.values.items }
    requires low { n ≤ length trail.now.literals.items }
    ensures low { result ≤ n }
    ensures open_a { HasTwo h → among (take result trail.now.literals.items) (negate h.a) ≡ false }
    ensures open_b { HasTwo h → among (take result trail.now.literals.items) (negate h.b) ≡ false }
{
    if h.a.is_same(h.b) {
        return n;
    }
    let m = open_until(trail, h.a, n);
    open_until(trail, h.b, m)
}

// Adds a clause that watches its first literal and that at w. The head of the queue moves back to where one of these
// became false.
pub fn add_on(
    clauses: &mut Clauses,
    trail: &Trail,
    rows: &mut Rows,
    lists: &mut WatchLists,
    short: &mut Vec<usize>,
    swept: usize,
    head: &mut usize,
    c: &[Lit],
    w: usize,
) -> Result<(), AllocError>
    requires within { Within (length trail.now.values.items) c.now }
    requires watch { Watchable trail.now.literals.items trail.now.level_starts.items c.now w }
    requires watching { IsWatching clauses.old trail.now rows.old lists.old short.old.items swept head.old }
    ensures watching { IsWatching clauses.new trail.now rows.new lists.new short.new.items swept head.new }
    ensures done { OnOk result (clauses.new ≡ clauses.old ++ c.now ∷ []) }
    ensures failed { OnErr result (clauses.new ≡ clauses.old) }
{
    let h = watches_of(c, w);
    let n = head_for(trail, h, *head);
    attach(clauses, rows, lists, short, c, h)?;
    *head = n;
    Ok(())
}

// Adds a clause as `add_on` does, and empties the rows of the recent clauses that it covers: once nothing is to be
// propagated by it, nothing is by those.
pub fn learn_on(
    clauses: &mut Clauses,
    trail: &Trail,
    rows: &mut Rows,
    lists: &mut WatchLists,
    short: &mut Vec<usize>,
    swept: usize,
    head: &mut usize,
    recent: &mut Recent,
    c: &[Lit],
    w: usize,
) -> Result<(), AllocError>
    requires within { Within (length trail.now.values.items) c.now }
    requires watch { Watchable trail.now.literals.items trail.now.level_starts.items c.now w }
    requires watching { IsWatching clauses.old trail.now rows.old lists.old short.old.items swept head.old }
    ensures watching { IsWatching clauses.new trail.now rows.new lists.new short.new.items swept head.new }
    ensures done { OnOk result (clauses.new ≡ clauses.old ++ c.now ∷ []) }
    ensures failed { OnErr result (clauses.new ≡ clauses.old) }
{
    recent.note(c, clauses.len())?;
    add_on(clauses, trail, rows, lists, short, swept, head, c, w)?;
    recent.retire_covered(clauses, rows);
    Ok(())
}

// Sets a literal as a decision.
pub fn decide_on(
    clauses: &Clauses,
    rows: &Rows,
    short: &[usize],
    swept: usize,
    head: usize,
    trail: &mut Trail,
    l: Lit,
) -> Result<(), AllocError>
    requires in_range { l.var < length trail.old.values.items }
    requires off { among trail.old.literals.items l ≡ false }
    requires off_too { among trail.old.literals.items (negate l) ≡ false }
    requires rested { (head ≡ length trail.old.literals.items) × ShortTrue clauses.now (pairs rows.now) trail.old.literals.items }
    requires guarded { IsGuarded clauses.now trail.old rows.now short.now swept head }
    ensures guarded { IsGuarded clauses.now trail.new rows.now short.now swept head }
    ensures decided { OnOk result (Decides trail.old trail.new l) }
    ensures vars { length trail.new.values.items ≡ length trail.old.values.items }
{
    trail.decide(l)?;
    Ok(())
}

// Undoes decision number `level` and all after it. Nothing is to be propagated on what is left.
pub fn undo_on(
    clauses: &Clauses,
    rows: &Rows,
    short: &[usize],
    swept: usize,
    head: &mut usize,
    trail: &mut Trail,
    level: usize,
)
    requires level { level < length trail.old.level_starts.items }
    requires guarded { IsGuarded clauses.now trail.old rows.now short.now swept head.old }
    ensures guarded { IsGuarded clauses.now trail.new rows.now short.now swept head.new }
    ensures literals { trail.new.literals.items ≡ take (slice_index trail.old.level_starts.items level) trail.old.literals.items }
    ensures level_starts { trail.new.level_starts.items ≡ take level trail.old.level_starts.items }
    ensures vars { length trail.new.values.items ≡ length trail.old.values.items }
{
    trail.undo(level);
    *head = trail.literals.len();
}
