//! Whether two systems are equal, and the first place at which they differ.

ghost use Rattle.std.specs.Prelude.{◌≡◌, ◌<◌, ◌↔◌, ℕ, false, length, IsTrue, MatchOption};
ghost use Rattle.frame_core.specs.Differences.{DifferFirstAt, IsSameSystem, DifferAt};
ghost use Rattle.frame_core.specs.FrameLaw.{AreAlike, system_at};

use clause_core::{Clauses, Lit, System};

/// Where two systems differ: in the numbers of state bits or of all bits, or at the clause of this number
/// of a list.
#[derive(Clone, Copy, PartialEq, Eq, Debug)]
pub enum Place {
    Bits,
    Init(usize),
    Step(usize),
    Bad(usize),
    Good(usize),
}

pub(crate) fn is_same_clause(a: &[Lit], b: &[Lit]) -> bool
    ensures { IsTrue result ↔ (a.now ≡ b.now) }
{
    a == b
}

// The number of the first clause at which the lists differ.
fn first_difference(a: &Clauses, b: &Clauses) -> Option<usize>
    ensures { MatchOption result (a.now ≡ b.now) (DifferFirstAt a.now b.now) }
{
    let common = a.len().min(b.len());
    for k in 0..common {
        if !is_same_clause(a.get(k), b.get(k)) {
            return Some(k);
        }
    }
    if a.len() == b.len() {
        None
    } else {
        Some(common)
    }
}

// The first place at which the systems differ; the bad and good clauses count only where `with_bad` is true.
pub(crate) fn difference(a: &System, b: &System, with_bad: bool) -> Option<Place>
    ensures { MatchOption result (IsSameSystem with_bad a.now b.now) (DifferAt with_bad a.now b.now) }
{
    if a.state_bits() != b.state_bits() || a.all_bits() != b.all_bits() {
        return Some(Place::Bits);
    }
    if let Some(k) = first_difference(a.init(), b.init()) {
        return Some(Place::Init(k));
    }
    if let Some(k) = first_difference(a.step(), b.step()) {
        return Some(Place::Step(k));
    }
    if with_bad {
        if let Some(k) = first_difference(a.bad(), b.bad()) {
            return Some(Place::Bad(k));
        }
        if let Some(k) = first_difference(a.good(), b.good()) {
            return Some(Place::Good(k));
        }
    }
    None
}

/// The first system that differs from the first one by more than its bad and good clauses, and where.
pub fn first_unlike(systems: &[System]) -> Option<(usize, Place)>
    ensures { MatchOption result (AreAlike systems.now) (λ u. (u.0 < length systems.now) × DifferAt false (system_at systems.now 0) (system_at systems.now u.0) u.1 × ((j : ℕ) → j < u.0 → IsSameSystem false (system_at systems.now 0) (system_at systems.now j))) }
{
    for j in 0..systems.len() {
        if let Some(place) = difference(&systems[0], &systems[j], false) {
            return Some((j, place));
        }
    }
    None
}
