//! What a worker asks for a claim: bad states of the top's frame, a step into an obligation or out of a lemma, and the
//! generalisation of what is proved (Bradley 2011, section 4).

ghost use Rattle.std.specs.Prelude.{◌≡◌, ◌+◌, ◌-◌, ◌^◌, ◌<◌, ◌≤◌, length, IfOk};
ghost use Rattle.clause_core.specs.Assignments.{assignment_of};
ghost use Rattle.clause_core.specs.Systems.{FirstBits};
ghost use Rattle.frame_core.specs.FrameLaw.{AllStand, system_at, lemma_at};
ghost use Rattle.frame_solver.specs.Firsts.{AllFirstsMeet, negation_of};
ghost use Rattle.frame_query.specs.Dropping.{PaysParts};
ghost use Rattle.frame_solver.specs.Paying.{Firsts, PaysOne};
ghost use Rattle.frame_claims.specs.Asking.{AnswersBad, AnswersBlock, AnswersPush, IsBefore, IsSmaller, PaysFor};
ghost use Rattle.frame_claims.specs.Paying.{MayAskBad, MayAskBlock, MayAskPush};

use clause_core::Bits;
use effort_purse::Purse;
use frame_book::ClaimOutcome;
use frame_core::{Proved, Step};
use frame_query::{Bads, FrameSolver, Generalised, Noted, Relative, negation};
use std::alloc::{AllocError, Global};

// Asks for a bad state of system `j` in the frame of this level.
#[tactic(auto, using(crate::proofs::Joining::bad_paid))]
pub(crate) fn ask_bad<'a, Q: Purse>(
    alloc: Global,
    solver: &mut FrameSolver<'a>,
    j: usize,
    level: u32,
    purse: &mut Q,
) -> Result<ClaimOutcome<'a>, AllocError>
    requires number { j < length solver.old.systems }
    requires ready { Q.ready purse.old }
    ensures answer { IfOk result (AnswersBad solver.old j level (Q.spent purse.new)) }
    ensures pays { PaysFor solver.old solver.new (Q.tickets purse.old) (Q.tickets purse.new) (MayAskBad j level) }
    ensures systems { solver.new.systems ≡ solver.old.systems }
    ensures lemmas { solver.new.lemmas ≡ solver.old.lemmas }
    ensures kept { Q.kept purse.old purse.new }
    ensures ready { Q.ready purse.new }
    ensures budget { Q.budget purse.new ≡ Q.budget purse.old }
{
    match solver.bad(alloc, j, level, purse)? {
        Bads::Clear(clear) => Ok(ClaimOutcome::Clear(clear)),
        Bads::Found(found) => Ok(ClaimOutcome::Found(found)),
        Bads::Spent { drawn, budget } => Ok(ClaimOutcome::Spent { drawn, budget }),
    }
}

// Asks whether a lemma holds one level higher.
#[tactic(auto, using(crate::proofs::Joining::push_paid))]
pub(crate) fn ask_push<'a, Q: Purse>(
    alloc: Global,
    solver: &mut FrameSolver<'a>,
    lemma: usize,
    purse: &mut Q,
) -> Result<ClaimOutcome<'a>, AllocError>
    requires number { lemma < length solver.old.lemmas }
    requires level { (lemma_at solver.old.lemmas lemma).level + 1 < 2 ^ 32 }
    requires first { AllFirstsMeet (system_at solver.old.systems 0) (lemma_at solver.old.lemmas lemma).clause }
    requires ready { Q.ready purse.old }
    ensures answer { IfOk result (AnswersPush solver.old lemma ((lemma_at solver.old.lemmas lemma).level + 1) (Q.spent purse.new)) }
    ensures pays { PaysFor solver.old solver.new (Q.tickets purse.old) (Q.tickets purse.new) (MayAskPush (lemma_at solver.old.lemmas lemma).clause ((lemma_at solver.old.lemmas lemma).level + 1)) }
    ensures systems { solver.new.systems ≡ solver.old.systems }
    ensures lemmas { solver.new.lemmas ≡ solver.old.lemmas }
    ensures kept { Q.kept purse.old purse.new }
    ensures ready { Q.ready purse.new }
    ensures budget { Q.budget purse.new ≡ Q.budget purse.old }
{
    match solver.push(alloc, lemma, purse)? {
        Relative::Proved(proved) => Ok(ClaimOutcome::Proved(proved)),
        Relative::Step(step) => Ok(ClaimOutcome::Step(step)),
        Relative::Spent { drawn, budget } => Ok(ClaimOutcome::Spent { drawn, budget }),
    }
}

// Asks whether the state of these values can be left out of the frame of this level: whether a step leads to it from
// the frame below.
#[tactic(auto, using(crate::proofs::Joining::nothing_paid))]
pub(crate) fn ask_block<'a, Q: Purse>(
    alloc: Global,
    solver: &mut FrameSolver<'a>,
    values: &Bits,
    level: u32,
    state_bits: usize,
    purse: &mut Q,
) -> Result<ClaimOutcome<'a>, AllocError>
    requires some { 0 < length solver.old.systems }
    requires bits { state_bits ≡ (system_at solver.old.systems 0).state_bits }
    requires whole { state_bits ≤ length values.now }
    requires level { 0 < level }
    requires later { FirstBits (system_at solver.old.systems 0) (assignment_of values.now) → ⊥ }
    requires ready { Q.ready purse.old }
    ensures answer { IfOk result (AnswersBlock solver.old values.now level (Q.spent purse.new)) }
    ensures pays { PaysFor solver.old solver.new (Q.tickets purse.old) (Q.tickets purse.new) (MayAskBlock values.now level) }
    ensures systems { solver.new.systems ≡ solver.old.systems }
    ensures lemmas { solver.new.lemmas ≡ solver.old.lemmas }
    ensures kept { Q.kept purse.old purse.new }
    ensures ready { Q.ready purse.new }
    ensures budget { Q.budget purse.new ≡ Q.budget purse.old }
{
    let clause = negation(alloc, values, state_bits)?;
    match solver.relative(alloc, &clause, level, purse)? {
        Relative::Proved(proved) => smaller(alloc, solver, proved, purse),
        Relative::Step(step) => before(alloc, solver, step, purse),
        Relative::Spent { drawn, budget } => Ok(ClaimOutcome::Spent { drawn, budget }),
    }
}

// The proof with fewer literals, where the purse pays for it.
fn smaller<'a, Q: Purse>(
    alloc: Global,
    solver: &mut FrameSolver<'a>,
    proved: Proved<'a>,
    purse: &mut Q,
) -> Result<ClaimOutcome<'a>, AllocError>
    requires system { proved.system ≡ system_at solver.old.systems 0 }
    requires stand { AllStand solver.old.lemmas (proved.level - 1) proved.parents }
    requires ready { Q.ready purse.old }
    ensures answer { IfOk result (IsSmaller solver.old proved.entry) }
    ensures pays { PaysParts solver.old.systems solver.old.lemmas solver.old.known solver.new.known (Q.tickets purse.old) (Q.tickets purse.new) proved.entry.level proved.entry.clause }
    ensures systems { solver.new.systems ≡ solver.old.systems }
    ensures lemmas { solver.new.lemmas ≡ solver.old.lemmas }
    ensures kept { Q.kept purse.old purse.new }
    ensures ready { Q.ready purse.new }
    ensures budget { Q.budget purse.new ≡ Q.budget purse.old }
{
    match solver.generalise(alloc, proved, purse) {
        Generalised::Smaller(proved) => Ok(ClaimOutcome::Proved(proved)),
        Generalised::Spent {
            given,
            drawn: _,
            budget: _,
        } => Ok(ClaimOutcome::Proved(given)),
        Generalised::NoMemory { given: _ } => Err(AllocError),
    }
}

// The state that the step leads from, and whether it is an initial one.
fn before<'a, Q: Purse>(
    alloc: Global,
    solver: &mut FrameSolver<'a>,
    step: Step<'a>,
    purse: &mut Q,
) -> Result<ClaimOutcome<'a>, AllocError>
    requires system { step.system ≡ system_at solver.old.systems 0 }
    requires ready { Q.ready purse.old }
    ensures answer { IfOk result (IsBefore step.entry (Q.spent purse.new)) }
    ensures pays { PaysOne solver.old.systems solver.old.lemmas solver.old.known solver.new.known (Q.tickets purse.old) (Q.tickets purse.new) (Firsts (negation_of step.entry.values (system_at solver.old.systems 0).state_bits)) }
    ensures systems { solver.new.systems ≡ solver.old.systems }
    ensures lemmas { solver.new.lemmas ≡ solver.old.lemmas }
    ensures kept { Q.kept purse.old purse.new }
    ensures ready { Q.ready purse.new }
    ensures budget { Q.budget purse.new ≡ Q.budget purse.old }
{
    match solver.note(alloc, step, purse)? {
        Noted::Found(found) => Ok(ClaimOutcome::Found(found)),
        Noted::Spent { drawn, budget } => Ok(ClaimOutcome::Spent { drawn, budget }),
    }
}
