//! What each worker does: it takes a claim, asks for it by its own solver, and puts back what came of it.

ghost use Rattle.std.specs.Prelude.{◌≡◌, ◌<◌, [], length, IfSome};
ghost use Rattle.effort_purse.specs.Seats.{budget_of};
ghost use Rattle.frame_core.specs.FrameLaw.{AreAlike};

use crate::begun::Begun;
use crate::desk::Desk;
use crate::hand::{Done, Hand};
use crate::stoppable::Stoppable;
use clause_core::System;
use effort_purse::SharedPurse;
use frame_book::Claim;
use frame_claims::ask;
use frame_history::Entry;
use frame_query::FrameSolver;
use shared_history::{Line, Naming};
use std::alloc::{AllocError, Global};
use std::marker::PhantomData;
use std::sync::ledger::Ledger;
use work_crew::{Craft, Taking};

/// What the workers of some frames need of each other: the systems, the history that they share, and the purse.
///
/// They take turns: one claim is out at a time. Claims that were asked side by side took two to four times the work of
/// one worker, since lemmas that one was finding would have spared the others their queries. The next claim is left to
/// the worker who had the last one, whose solver knows most of it; another takes it where that one does not come.
#[derive(Drop)]
pub(crate) struct Explorer<'a, 'p, L: Ledger, J: Naming + Begun> {
    pub(crate) alloc: Global,
    pub(crate) systems: &'a [System],
    pub(crate) line: Line<Entry, J>,
    pub(crate) purse: &'p SharedPurse,
    pub(crate) budget: u64,
    pub(crate) of: PhantomData<L>,
    pub(crate) ghost budget_is: { budget_of purse.now ≡ budget },
    pub(crate) ghost begun: { systems.now ≡ J.systems },
    pub(crate) ghost some: { 0 < length systems.now },
    pub(crate) ghost alike: { AreAlike systems.now },
}

impl<'a, 'p, L: Ledger, J: Naming + Begun + Send> Craft for Explorer<'a, 'p, L, J> {
    ghost use Rattle.frame_history.specs.History.{start};
    ghost use Rattle.frame_worker.specs.Working.{hand, IsFresh, IsHeld, IsTaken, IsAnswered};

    type Desk = Desk<'a, L, J>;

    type Hand = Hand<'a, L, J>;

    type Task = Claim;

    type Done = Done<'a>;

    ghost parts = { λ h. h.parts };

    ghost first = { λ h. h.first };

    ghost fresh = { λ x h. IsFresh x.purse.now (hand h.seat h.account.share.parts h.front h.solver h.first h.parts) };

    ghost holds = { λ x h. IsHeld J.systems (start J.limits J.systems J.carried) x.purse.now (hand h.seat h.account.share.parts h.front h.solver h.first h.parts) };

    ghost took = { λ x h c. IsTaken J.systems J.limits (start J.limits J.systems J.carried) x.purse.now (hand h.seat h.account.share.parts h.front h.solver h.first h.parts) c };

    ghost did = { λ x h d. IsAnswered J.systems (start J.limits J.systems J.carried) x.purse.now (hand h.seat h.account.share.parts h.front h.solver h.first h.parts) d.claim d.outcome };

    fn workers(&self, hand: &Hand<'a, L, J>) -> u32 {
        hand.parts
    }

    fn number(&self, hand: &Hand<'a, L, J>) -> u32 {
        hand.first
    }

    fn begin(&self, hand: &mut Hand<'a, L, J>) {
        hand.solver = solver_of(self.alloc, self.systems);
    }

    fn is_over(&self, hand: &mut Hand<'a, L, J>) -> bool {
        hand.solver.is_none()
    }

    fn take(&self, desk: &mut Desk<'a, L, J>, hand: &mut Hand<'a, L, J>) -> Taking<Claim> {
        if desk.broken {
            return Taking::Ended;
        }
        if desk.has_claim_out() {
            return Taking::Idle;
        }
        if desk.passes_on(hand.first) {
            return Taking::Later;
        }
        if !desk.show(&mut hand.front, &mut hand.solver) {
            return Taking::Ended;
        }
        desk.claim(&self.line, hand.first, &mut hand.front)
    }

    fn perform(&self, hand: Hand<'a, L, J>, task: Claim) -> (Hand<'a, L, J>, Done<'a>) {
        let Hand {
            seat,
            account,
            front,
            solver,
            first,
            parts,
        } = hand;
        let Some(mut solver) = solver else {
            let hand = Hand {
                seat,
                account,
                front,
                solver: None,
                first,
                parts,
            };
            return (
                hand,
                Done {
                    claim: task,
                    outcome: None,
                },
            );
        };
        let mut lent = Stoppable {
            purse: self.purse,
            seat,
            budget: self.budget,
            refused: false,
        };
        let outcome = ask(self.alloc, self.systems, &mut solver, &task, &mut lent);
        let Stoppable {
            purse: _,
            seat,
            budget: _,
            refused: _,
        } = lent;
        let hand = Hand {
            seat,
            account,
            front,
            solver: Some(solver),
            first,
            parts,
        };
        (
            hand,
            Done {
                claim: task,
                outcome: outcome.ok(),
            },
        )
    }

    fn put(&self, desk: &mut Desk<'a, L, J>, hand: &mut Hand<'a, L, J>, done: Done<'a>) -> bool {
        let Done { claim, outcome } = done;
        match outcome {
            Some(outcome) => desk.settle(&self.line, claim, outcome, &mut hand.account),
            None => {
                desk.give_back(&self.line, claim);
                false
            }
        }
    }

    fn split(&self, hand: &mut Hand<'a, L, J>, count: u32) -> Hand<'a, L, J> {
        let seat = self.purse.split(&mut hand.seat, u64::from(count));
        let account = hand.account.split_off(count);
        hand.parts -= count;
        Hand {
            seat,
            account,
            front: hand.front.again(),
            solver: None,
            first: hand.first + hand.parts,
            parts: count,
        }
    }

    fn join(&self, hand: &mut Hand<'a, L, J>, other: Hand<'a, L, J>) {
        let Hand {
            seat,
            account,
            front,
            solver: _,
            first: _,
            parts,
        } = other;
        self.purse.join(&mut hand.seat, seat);
        hand.account.merge(account);
        hand.front.unite(&front);
        hand.solver = None;
        hand.parts += parts;
    }
}

// A solver of the systems; none where there is no memory.
fn solver_of<'a>(alloc: Global, systems: &'a [System]) -> Option<FrameSolver<'a>>
    requires some { 0 < length systems.now }
    requires alike { AreAlike systems.now }
    ensures { IfSome result (λ v. v ≡ record { systems = systems.now; lemmas = []; known = [] }) }
{
    match FrameSolver::new(alloc, systems) {
        Ok(solver) => Some(solver),
        Err(AllocError) => None,
    }
}
