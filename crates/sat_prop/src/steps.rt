//! The steps of a trail: a literal that a clause forces, a decision, and taking decisions back (Eén
//! and Sörensson 2003).

ghost use Rattle.std.specs.Prelude.{◌+◌, [], ◌∷◌, ◌≡◌, ◌<◌, ◌≤◌, ◌++◌, false, OnOk, OnErr, length, take, List, slice_set, slice_index};
ghost use Rattle.clause_core.specs.declared.literal.Lit.{Lit};
ghost use Rattle.clause_core.specs.Values.{holds, code};
ghost use Rattle.clause_core.specs.Literals.{negate, Within};
ghost use Rattle.sat_prop.specs.Moves.{IsSameTrail, Pushes};
ghost use Rattle.sat_prop.specs.Trails.{ValuesMatch, PlacesMatch, Based};

use crate::trail::Trail;
use clause_core::{Lit, set};
use std::alloc::AllocError;

impl Trail {
    /// Sets a literal that a clause forces; `reason` is one more than the clause's number. If memory runs out,
    /// the trail is as before.
    pub(crate) fn imply(&mut self, l: Lit, reason: usize) -> Result<(), AllocError>
        requires in_range { l.var < length self.old.values.items }
        requires off { holds self.old.values.items l ≡ false }
        requires off_too { holds self.old.values.items (negate l) ≡ false }
        requires reason { 0 < reason }
        ensures pushed { OnOk result (Pushes self.old self.new l reason) }
        ensures failed { OnErr result (IsSameTrail self.old self.new) }
        ensures level_starts { self.new.level_starts.items ≡ self.old.level_starts.items }
    {
        let n = self.literals.len();
        self.literals.push(l)?;
        note_literal(
            &mut self.values,
            &mut self.positions,
            &mut self.reasons,
            l,
            n,
            reason,
        );
        Ok(())
    }

    /// Sets a literal as a decision. If memory runs out, the trail is as before.
    pub(crate) fn decide(&mut self, l: Lit) -> Result<(), AllocError>
        requires in_range { l.var < length self.old.values.items }
        requires off { holds self.old.values.items l ≡ false }
        requires off_too { holds self.old.values.items (negate l) ≡ false }
        ensures pushed { OnOk result (Pushes self.old self.new l 0) }
        ensures level_starts { OnOk result (self.new.level_starts.items ≡ self.old.level_starts.items ++ length self.old.literals.items ∷ []) }
        ensures failed { OnErr result (IsSameTrail self.old self.new) }
        ensures vars { length self.new.values.items ≡ length self.old.values.items }
        ensures based { (cs : List (List Lit)) → Based self.old.literals.items self.old.reasons.items cs → Based self.new.literals.items self.new.reasons.items cs }
    {
        let n = self.literals.len();
        push_decision(&mut self.literals, &mut self.level_starts, l)?;
        note_literal(
            &mut self.values,
            &mut self.positions,
            &mut self.reasons,
            l,
            n,
            0,
        );
        Ok(())
    }

    /// Takes back decision number `level` and all that came after it.
    pub(crate) fn undo(&mut self, level: usize)
        requires { level < length self.old.level_starts.items }
        ensures literals { self.new.literals.items ≡ take (slice_index self.old.level_starts.items level) self.old.literals.items }
        ensures level_starts { self.new.level_starts.items ≡ take level self.old.level_starts.items }
        ensures reasons { self.new.reasons.items ≡ self.old.reasons.items }
        ensures vars { length self.new.values.items ≡ length self.old.values.items }
    {
        let n = self.level_starts[level];
        clear_from(&mut self.values, &self.literals, &self.positions, n);
        self.literals.truncate(n);
        self.level_starts.truncate(level);
    }
}

// Notes that the literal is true, where it stands, and why.
fn note_literal(
    values: &mut Vec<u8>,
    positions: &mut Vec<usize>,
    reasons: &mut Vec<usize>,
    l: Lit,
    place: usize,
    reason: usize,
)
    requires values { l.var < length values.old.items }
    requires positions { l.var < length positions.old.items }
    requires reasons { l.var < length reasons.old.items }
    ensures values { values.new.items ≡ slice_set values.old.items l.var (code l.positive) }
    ensures positions { positions.new.items ≡ slice_set positions.old.items l.var place }
    ensures reasons { reasons.new.items ≡ slice_set reasons.old.items l.var reason }
{
    set(values, l);
    positions[l.var] = place;
    reasons[l.var] = reason;
}

// Puts a decision behind the literals, and its place behind the starts of the levels. If memory runs out, both are as
// before.
fn push_decision(
    literals: &mut Vec<Lit>,
    level_starts: &mut Vec<usize>,
    l: Lit,
) -> Result<(), AllocError>
    ensures literals { OnOk result (literals.new.items ≡ literals.old.items ++ l ∷ []) }
    ensures level_starts { OnOk result (level_starts.new.items ≡ level_starts.old.items ++ length literals.old.items ∷ []) }
    ensures literals_kept { OnErr result (literals.new.items ≡ literals.old.items) }
    ensures starts_kept { OnErr result (level_starts.new.items ≡ level_starts.old.items) }
{
    let levels = level_starts.len();
    level_starts.push(literals.len())?;
    if let Err(e) = literals.push(l) {
        level_starts.truncate(levels);
        return Err(e.into());
    }
    Ok(())
}

// Clears the values of the literals from n on.
fn clear_from(values: &mut Vec<u8>, literals: &[Lit], positions: &[usize], n: usize)
    requires low { n ≤ length literals.now }
    requires placed { PlacesMatch literals.now positions.now }
    requires within { Within (length values.old.items) literals.now }
    requires values { ValuesMatch values.old.items literals.now }
    ensures values { ValuesMatch values.new.items (take n literals.now) }
    ensures vars { length values.new.items ≡ length values.old.items }
{
    for p in (n..literals.len()).rev() {
        values[literals[p].var] = 0;
    }
}
