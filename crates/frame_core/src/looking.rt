//! Looks up the levels of a proof's parents, and a lemma that covers a clause.

ghost use Rattle.std.specs.Prelude.{◌≡◌, ◌≤◌, ℕ, true, IfOk, IsTrue, All, ◌↔◌, MatchOption};
ghost use Rattle.clause_core.specs.Literals.{Within};
ghost use Rattle.frame_core.specs.FrameLaw.{AllStand};
ghost use Rattle.frame_core.specs.Looking.{IsKeptLevel, IsBehind, IsHeldBy, IsHeldByNone, IsSetOf, has_literal};

use crate::comparing::is_same_clause;
use crate::lemma_list::Lemmas;
use crate::parts::{Lemma, Parent};
use crate::signing::signature_of;
use crate::subset::{LiteralSet, is_part};
use clause_core::Lit;
use std::alloc::{AllocError, Global};

// The level that the parent has here; 0 where no lemma has its number and clause.
fn kept_level(lemmas: &[Lemma], parent: &Parent) -> u32
    ensures { IsKeptLevel lemmas.now parent.now result }
{
    if parent.number < lemmas.len() {
        let lemma = &lemmas[parent.number];
        if is_same_clause(lemma.clause.as_slice(), parent.clause.as_slice()) {
            return lemma.level;
        }
    }
    0
}

// A parent whose level here is below this one, with its level.
pub(crate) fn some_behind(lemmas: &[Lemma], least: u32, parents: &[Parent]) -> Option<(usize, u32)>
    ensures { MatchOption result (AllStand lemmas.now least parents.now) (λ b. IsBehind lemmas.now least parents.now b.0 b.1) }
{
    for k in 0..parents.len() {
        let level = kept_level(lemmas, &parents[k]);
        if level < least {
            return Some((k, level));
        }
    }
    None
}

// A lemma that has a part of these literals, whose variables are below `vars`, and at least this level.
pub(crate) fn holder(
    alloc: Global,
    vars: usize,
    lemmas: &Lemmas,
    clause: &[Lit],
    level: u32,
) -> Result<Option<usize>, AllocError>
    requires { Within vars clause.now }
    ensures { IfOk result (λ r. MatchOption r (IsHeldByNone lemmas.now clause.now level) (IsHeldBy lemmas.now clause.now level)) }
{
    let literals = LiteralSet::of(alloc, vars, clause)?;
    Ok(some_holder(lemmas, clause, &literals, level))
}

// A lemma that has a part of these literals, of which `literals` is the set, and at least this level.
fn some_holder(lemmas: &Lemmas, clause: &[Lit], literals: &LiteralSet, level: u32) -> Option<usize>
    requires { IsSetOf clause.now (has_literal literals.now) }
    ensures { MatchOption result (IsHeldByNone lemmas.now clause.now level) (IsHeldBy lemmas.now clause.now level) }
{
    let signature = signature_of(clause);
    for n in 0..lemmas.len() {
        if !lemmas.may_be_part(n, signature) {
            continue;
        }
        if holds(lemmas.lemma(n), literals, level) {
            return Some(n);
        }
    }
    None
}

// Whether the lemma has a part of these literals and at least this level.
fn holds(lemma: &Lemma, literals: &LiteralSet, level: u32) -> bool
    ensures { IsTrue result ↔ (All (λ l. has_literal literals.now l ≡ true) lemma.now.clause × level ≤ lemma.now.level) }
{
    lemma.level >= level && is_part(lemma.clause.as_slice(), literals)
}
