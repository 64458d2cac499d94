//! A purse that workers share, which gives one of them no more once the stop is raised.

ghost use Rattle.std.specs.Prelude.{◌≡◌};
ghost use Rattle.effort_purse.specs.Seats.{IsSeatOf, budget_of};

use effort_purse::{Draw, Purse, Seat, SharedPurse};

/// A shared purse and a seat of it, lent together: a `Purse` that refuses a ticket where the budget is used up, or some
/// seat has raised the stop. So a query that another worker has made needless ends at its next learned clause.
#[derive(Drop)]
pub struct Stoppable<'a> {
    pub purse: &'a SharedPurse,
    pub seat: Seat,
    /// How many tickets the purse has.
    pub budget: u64,
    /// Whether it has refused a ticket.
    pub refused: bool,
    pub ghost budget_is: { budget_of purse.now ≡ budget },
}

impl<'a> Stoppable<'a> {
    /// Raises the stop, for every seat and for good.
    pub fn raise_stop(&mut self)
        requires { IsSeatOf self.old.purse.now self.old.seat }
    {
        self.purse.raise_stop(&mut self.seat);
    }
}

impl<'a> Purse for Stoppable<'a> {
    ghost use Rattle.effort_purse.specs.Seats.{budget_of, tickets_of, IsSeatOf};
    ghost use Rattle.frame_worker.specs.Stopping.{KeepsStoppable};
    ghost use Rattle.frame_worker.specs.StoppingLaws.{KeepsStoppable-refl, KeepsStoppable-trans};

    ghost tickets = { λ s. tickets_of s.seat };

    ghost budget = { λ s. budget_of s.purse.now };

    ghost spent = { λ s. s.refused };

    ghost ready = { λ s. IsSeatOf s.purse.now s.seat };

    ghost kept = { KeepsStoppable };

    ghost kept_refl = { KeepsStoppable-refl };

    ghost kept_trans = { KeepsStoppable-trans };

    fn draw(&mut self) -> Draw {
        if !self.refused && !self.purse.stop_seen(&mut self.seat) {
            if let Draw::Ticket(number) = self.purse.draw(&mut self.seat) {
                return Draw::Ticket(number);
            }
        }
        self.refused = true;
        Draw::Spent {
            drawn: self.budget,
            budget: self.budget,
        }
    }
}
