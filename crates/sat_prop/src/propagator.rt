//! What a solver needs of clauses, trail and unit propagation, as a trait.

ghost use Rattle.std.specs.Prelude.{◌≡◌, ◌<◌, ℕ, [], ◌∷◌, ◌++◌, true, false, IfOk, OnOk, OnErr, length, take, All, List, slice_index, slice_index_or, MatchOption};
ghost use Rattle.clause_core.specs.declared.literal.Lit.{Lit};
ghost use Rattle.clause_core.specs.Literals.{Within, negate};
ghost use Rattle.clause_core.specs.Values.{unset};
ghost use Rattle.sat_prop.specs.declared.trail.Trail.{Trail};
ghost use Rattle.sat_prop.specs.Trails.{Based, AtRest, among};
ghost use Rattle.sat_prop.specs.Moves.{Extends, FalseClause};
ghost use Rattle.sat_prop.specs.Watches.{Watchable};

use crate::trail::Trail;
use clause_core::Lit;
use std::alloc::{AllocError, Global};

/// Keeps clauses and a trail, and does unit propagation.
///
/// Contracts see the list of the clauses (`clauses`), the trail (`trail`), and whether the trail is at
/// rest, with no propagation left to do (`rested`). Two laws hold of each propagator: each literal of the
/// trail that is no decision stands in the clause that its reason names, whose other literals were false
/// before it (`based`); and no literal of a clause is past the variables (`within`).
pub trait Propagator {
    ghost clauses: { Self → List (List Lit) };

    ghost trail: { Self → Trail };

    ghost rested: { Self → Type 0 };

    /// No clauses over `vars` variables, and nothing set. Where so many variables can't be numbered, it
    /// reports out of memory.
    fn new(alloc: Global, vars: usize) -> Result<Self, AllocError>
        ensures clauses { IfOk result (λ p. clauses p ≡ []) }
        ensures vars { IfOk result (λ p. length (trail p).values.items ≡ vars) }
        ensures literals { IfOk result (λ p. (trail p).literals.items ≡ []) }
        ensures level_starts { IfOk result (λ p. (trail p).level_starts.items ≡ []) };

    /// The trail.
    fn assignment(&self) -> &Trail
        ensures { result.now ≡ trail self.now };

    /// How many clauses there are.
    fn clause_count(&self) -> usize
        ensures { result ≡ length (clauses self.now) };

    /// Clause number `k`, counted from 0.
    fn clause(&self, k: usize) -> &[Lit]
        requires { k < length (clauses self.now) }
        ensures { result.now ≡ slice_index_or (clauses self.now) k [] };

    /// Adds a clause while no decision stands. If memory runs out, the clauses are as before.
    fn add(&mut self, c: &[Lit]) -> Result<(), AllocError>
        requires within { Within (length (trail self.old).values.items) c.now }
        requires bare { length (trail self.old).level_starts.items ≡ 0 }
        ensures done { OnOk result (clauses self.new ≡ clauses self.old ++ c.now ∷ []) }
        ensures failed { OnErr result (clauses self.new ≡ clauses self.old) }
        ensures literals { (trail self.new).literals.items ≡ (trail self.old).literals.items }
        ensures level_starts { (trail self.new).level_starts.items ≡ (trail self.old).level_starts.items }
        ensures vars { length (trail self.new).values.items ≡ length (trail self.old).values.items };

    /// Adds a learned clause while decisions may stand. Before each decision that stands, neither its
    /// first literal nor that at `second` was false, and the two differ. If memory runs out, the clauses
    /// are as before.
    fn learn(&mut self, c: &[Lit], second: usize) -> Result<(), AllocError>
        requires within { Within (length (trail self.old).values.items) c.now }
        requires watch { Watchable (trail self.old).literals.items (trail self.old).level_starts.items c.now second }
        ensures done { OnOk result (clauses self.new ≡ clauses self.old ++ c.now ∷ []) }
        ensures failed { OnErr result (clauses self.new ≡ clauses self.old) }
        ensures literals { (trail self.new).literals.items ≡ (trail self.old).literals.items }
        ensures level_starts { (trail self.new).level_starts.items ≡ (trail self.old).level_starts.items }
        ensures vars { length (trail self.new).values.items ≡ length (trail self.old).values.items };

    /// Sets a literal that is unset, as a decision, where the trail is at rest.
    fn decide(&mut self, l: Lit) -> Result<(), AllocError>
        requires in_range { l.var < length (trail self.old).values.items }
        requires off { among (trail self.old).literals.items l ≡ false }
        requires off_too { among (trail self.old).literals.items (negate l) ≡ false }
        requires rested { rested self.old }
        ensures clauses_kept { clauses self.new ≡ clauses self.old }
        ensures literals { OnOk result ((trail self.new).literals.items ≡ (trail self.old).literals.items ++ l ∷ []) }
        ensures level_starts { OnOk result ((trail self.new).level_starts.items ≡ (trail self.old).level_starts.items ++ length (trail self.old).literals.items ∷ []) }
        ensures fewer { OnOk result (unset (trail self.new).values.items < unset (trail self.old).values.items) }
        ensures vars { length (trail self.new).values.items ≡ length (trail self.old).values.items };

    /// Takes back decision number `level`, counted from 0, and all that came after it; what stood before it
    /// stays.
    fn undo(&mut self, level: usize)
        requires { level < length (trail self.old).level_starts.items }
        ensures clauses_kept { clauses self.new ≡ clauses self.old }
        ensures literals { (trail self.new).literals.items ≡ take (slice_index (trail self.old).level_starts.items level) (trail self.old).literals.items }
        ensures level_starts { (trail self.new).level_starts.items ≡ take level (trail self.old).level_starts.items }
        ensures vars { length (trail self.new).values.items ≡ length (trail self.old).values.items };

    /// Does unit propagation. Answers the number of a false clause (a conflict), or `None` once no clause is
    /// false and each unit clause's literal is set; then the trail is at rest. What stood on the trail stays,
    /// also if memory runs out.
    fn propagate(&mut self) -> Result<Option<usize>, AllocError>
        ensures clauses_kept { clauses self.new ≡ clauses self.old }
        ensures extends { Extends (trail self.old) (trail self.new) }
        ensures says { IfOk result (λ o. MatchOption o (AtRest (clauses self.new) (trail self.new).literals.items × rested self.new) (FalseClause (clauses self.new) (trail self.new))) };

    ghost based: { (p : Self) → Based (trail p).literals.items (trail p).reasons.items (clauses p) };

    ghost within: { (p : Self) → All (Within (length (trail p).values.items)) (clauses p) };
}
