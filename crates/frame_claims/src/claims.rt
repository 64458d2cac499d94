//! What a worker asks for a claim of the book, over its own copy of the lemmas.

ghost use Rattle.std.specs.Prelude.{◌≡◌, IfOk};
ghost use Rattle.frame_claims.specs.Asking.{AnswersClaim, MayBeAsked, PaysFor};
ghost use Rattle.frame_claims.specs.Paying.{MayAskFor};

use crate::asking::{ask_bad, ask_block, ask_push};
use clause_core::System;
use effort_purse::Purse;
use frame_book::{Claim, ClaimOutcome};
use frame_history::Subject;
use frame_query::FrameSolver;
use std::alloc::{AllocError, Global};

/// The outcome of a claim, by a solver of these systems that has the lemmas as they were when the claim was made.
///
/// It is `Spent` only where the purse is. What was asked may be asked for this claim, no two queries are of one
/// question, and each was paid for with what it learned, after each way out. The only error is out of memory.
pub fn ask<'a, Q: Purse>(
    alloc: Global,
    systems: &'a [System],
    solver: &mut FrameSolver<'a>,
    claim: &Claim,
    purse: &mut Q,
) -> Result<ClaimOutcome<'a>, AllocError>
    requires systems { solver.old.systems ≡ systems.now }
    requires asked { MayBeAsked solver.old claim.now claim.now.subject }
    requires ready { Q.ready purse.old }
    ensures answer { IfOk result (AnswersClaim solver.old claim.now claim.now.subject (Q.spent purse.new)) }
    ensures pays { PaysFor solver.old solver.new (Q.tickets purse.old) (Q.tickets purse.new) (MayAskFor claim.now claim.now.subject) }
    ensures systems { solver.new.systems ≡ solver.old.systems }
    ensures lemmas { solver.new.lemmas ≡ solver.old.lemmas }
    ensures kept { Q.kept purse.old purse.new }
    ensures ready { Q.ready purse.new }
    ensures budget { Q.budget purse.new ≡ Q.budget purse.old }
{
    let level = claim.level();
    match claim.subject() {
        Subject::Bad(j) => ask_bad(alloc, solver, j, level, purse),
        Subject::Block(_) => {
            let state_bits = systems[0].state_bits();
            ask_block(alloc, solver, claim.values(), level, state_bits, purse)
        }
        Subject::Push(lemma) => ask_push(alloc, solver, lemma, purse),
    }
}
