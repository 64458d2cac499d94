//! A shared purse and a seat of it, used together as a purse of one thread.

ghost use Rattle.effort_purse.specs.Lending.{KeepsSeat, KeepsLent};

use crate::draw::Draw;
use crate::purse::Purse;
use crate::seat::Seat;
use crate::shared::SharedPurse;

/// A shared purse and a seat of it, lent together: a `Purse`.
///
/// It holds the seat, which is taken out again by a pattern, as `let Lent { purse: _, seat } = lent`.
#[derive(Drop)]
pub struct Lent<'a> {
    pub purse: &'a SharedPurse,
    pub seat: Seat,
}

impl<'a> Purse for Lent<'a> {
    ghost use Rattle.std.specs.Prelude.{◌≡◌};
    ghost use Rattle.std.proofs.Common.{refl, ◌∙◌};
    ghost use Rattle.effort_purse.specs.Lending.{KeepsLent};
    ghost use Rattle.effort_purse.specs.Seats.{budget_of, tickets_of, is_spent, IsSeatOf};
    ghost use Rattle.effort_purse.specs.LendingLaws.{KeepsLent-refl, KeepsLent-trans};

    ghost tickets = { λ lent. tickets_of lent.seat };

    ghost budget = { λ lent. budget_of lent.purse.now };

    ghost spent = { λ lent. is_spent lent.seat };

    ghost ready = { λ lent. IsSeatOf lent.purse.now lent.seat };

    ghost kept = { KeepsLent };

    ghost kept_refl = { KeepsLent-refl };

    ghost kept_trans = { KeepsLent-trans };

    fn draw(&mut self) -> Draw {
        self.purse.draw(&mut self.seat)
    }
}
