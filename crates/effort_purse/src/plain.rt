//! A purse of one thread: a counter and its limit.

ghost use Rattle.std.specs.Prelude.{◌≡◌, ◌≤◌, true, false};

use crate::draw::Draw;
use crate::purse::Purse;

/// A purse of one thread: it gives the numbers below its budget in order.
#[derive(Drop)]
pub struct PlainPurse {
    budget: u64,
    next: u64,
    spent: bool,
    /// No ticket is at the budget or past it.
    pub ghost within: { next ≤ budget },
    /// `Spent` was answered only where each ticket was drawn.
    pub ghost used_up: { spent ≡ true → next ≡ budget },
}

impl PlainPurse {
    ghost use Rattle.effort_purse.specs.Plain.{plain_budget, plain_count, plain_spent};

    /// A purse of so many tickets, none of them drawn.
    pub fn new(budget: u64) -> PlainPurse
        ensures budget { plain_budget result ≡ budget }
        ensures count { plain_count result ≡ 0 }
        ensures spent { plain_spent result ≡ false }
    {
        PlainPurse {
            budget,
            next: 0,
            spent: false,
        }
    }

    /// Whether the purse has answered `Spent`.
    pub fn seen_spent(&self) -> bool
        ensures { result ≡ plain_spent self.now }
    {
        self.spent
    }
}

impl Purse for PlainPurse {
    ghost use Rattle.std.specs.Prelude.{◌≡◌, ◌==◌};
    ghost use Rattle.std.proofs.Common.{refl, ◌∙◌};
    ghost use Rattle.effort_purse.specs.Drawing.{DrawsOne, numbers_below};
    ghost use Rattle.effort_purse.specs.Plain.{plain_budget, plain_count, plain_spent, DrawsInOrder};

    ghost tickets = { λ p. numbers_below (plain_count p) };

    ghost budget = { λ p. plain_budget p };

    ghost spent = { λ p. plain_spent p };

    ghost ready = { λ _. Unit {0} };

    ghost kept = { λ p q. plain_budget q ≡ plain_budget p };

    ghost kept_refl = { λ _. refl };

    ghost kept_trans = { λ _ _ _ first second. second ∙ first };

    /// As `Purse::draw` says, and more: the ticket's number is the count of those drawn before, and `Spent`
    /// comes exactly where that count is the budget.
    fn draw(&mut self) -> Draw
        ensures budget { plain_budget self.new ≡ plain_budget self.old }
        ensures drawn { DrawsOne (plain_budget self.old) (numbers_below (plain_count self.old)) (plain_spent self.old) result (numbers_below (plain_count self.new)) (plain_spent self.new) }
        ensures order { DrawsInOrder (plain_budget self.old) (plain_count self.old) result (plain_count self.new) }
    {
        if self.next < self.budget {
            let number = self.next;
            self.next += 1;
            return Draw::Ticket(number);
        }
        self.spent = true;
        Draw::Spent {
            drawn: self.budget,
            budget: self.budget,
        }
    }
}
