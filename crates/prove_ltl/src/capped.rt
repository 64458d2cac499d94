//! A purse that gives at most so many tickets of one that workers share.

ghost use Rattle.std.specs.Prelude.{◌≡◌};
ghost use Rattle.effort_purse.specs.Seats.{IsSeatOf, budget_of};

use effort_purse::{Draw, Purse};
use frame_worker::Stoppable;

// A shared purse and a seat of it, which gives so many tickets more. It refuses one where they are drawn, where the budget
// is used up, or where some seat has raised the stop.
#[derive(Drop)]
pub(crate) struct Capped<'a> {
    pub lent: Stoppable<'a>,
    // How many tickets it still gives.
    pub left: u64,
    // Whether it has refused a ticket.
    pub refused: bool,
}

impl<'a> Purse for Capped<'a> {
    ghost use Rattle.effort_purse.specs.Seats.{IsSeatOf, budget_of, tickets_of};
    ghost use Rattle.frame_worker.specs.Stopping.{KeepsStoppable};
    ghost use Rattle.frame_worker.specs.StoppingLaws.{KeepsStoppable-refl, KeepsStoppable-trans};

    ghost tickets = { λ c. tickets_of c.lent.seat };

    ghost budget = { λ c. budget_of c.lent.purse.now };

    ghost spent = { λ c. c.refused };

    ghost ready = { λ c. IsSeatOf c.lent.purse.now c.lent.seat };

    ghost kept = { λ before after. KeepsStoppable before.lent after.lent };

    ghost kept_refl = { λ c. KeepsStoppable-refl c.lent };

    ghost kept_trans = { λ a b c. KeepsStoppable-trans a.lent b.lent c.lent };

    fn draw(&mut self) -> Draw {
        if !self.refused && 0 < self.left {
            if let Draw::Ticket(number) = self.lent.draw() {
                self.left -= 1;
                return Draw::Ticket(number);
            }
        }
        self.refused = true;
        Draw::Spent {
            drawn: self.lent.budget,
            budget: self.lent.budget,
        }
    }
}
