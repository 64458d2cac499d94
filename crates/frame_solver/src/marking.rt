//! Marks for a range of variables: which of them a list of literals has. One walk over the list then answers for each
//! variable of the range.

ghost use Rattle.std.specs.Prelude.{◌≡◌, ◌+◌, ◌<◌, ℕ, true, false, List, ◌∷◌, [], ◌++◌, IfOk, MatchOption, length, slice_index_or};
ghost use Rattle.clause_core.specs.declared.literal.Lit.{Lit as ALit};
ghost use Rattle.frame_solver.specs.Stepping.{AreMarked};

use clause_core::Lit;
use std::alloc::{AllocError, Global};

// The number of the variable in the range of `count` variables that begins at `from`, if it is one of these.
fn place_of(from: usize, count: usize, var: usize) -> Option<usize>
    ensures { MatchOption result ((v : ℕ) → v < count → var ≡ from + v → ⊥) (λ v. (v < count) × (var ≡ from + v)) }
{
    if var < from {
        return None;
    }
    let v = var - from;
    if v < count { Some(v) } else { None }
}

// Marks the literal's variable, if it is in the range that begins at `from`.
fn mark(marks: &mut Vec<bool>, from: usize, l: Lit)
    ensures marked { (before : List ALit) → AreMarked from before marks.old.items → AreMarked from (before ++ l ∷ []) marks.new.items }
    ensures len { length marks.new.items ≡ length marks.old.items }
{
    match place_of(from, marks.as_slice().len(), l.var) {
        None => {}
        Some(v) => marks[v] = true,
    }
}

// Marks the variables of the literals that are in the range that begins at `from`.
fn mark_all(marks: &mut Vec<bool>, from: usize, literals: &[Lit])
    ensures marked { AreMarked from literals.now marks.new.items }
    ensures len { length marks.new.items ≡ length marks.old.items }
{
    'literals: for l in literals {
        mark(marks, from, *l);
    }
}

// For each of `count` variables from `from` on a mark where one of the literals has it.
pub(crate) fn marks_of(
    alloc: Global,
    from: usize,
    count: usize,
    literals: &[Lit],
) -> Result<Vec<bool>, AllocError>
    ensures marked { IfOk result (λ m. AreMarked from literals.now m.items) }
    ensures len { IfOk result (λ m. length m.items ≡ count) }
{
    let mut marks = vec![in alloc; false; count]?;
    mark_all(&mut marks, from, literals);
    Ok(marks)
}

// Whether variable number `v` of the range is marked.
pub(crate) fn is_marked(marks: &[bool], v: usize) -> bool
    ensures { result ≡ slice_index_or marks.now v false }
{
    if v < marks.len() { marks[v] } else { false }
}
