//! What a purse is, as a trait: it gives numbered tickets out of a budget.

ghost use Rattle.std.specs.Prelude.{◌≡◌};
ghost use Rattle.effort_purse.specs.Drawing.{DrawsOne};

use crate::draw::Draw;

/// Who draws numbered tickets out of a budget.
pub trait Purse {
    ghost use Rattle.std.specs.Prelude.{ℕ, Bool, List};

    /// The numbers of the tickets drawn so far, in the order in which they came.
    ghost tickets: { Self → List ℕ };

    /// How many tickets there are in all; they are numbered from 0.
    ghost budget: { Self → ℕ };

    /// Whether the purse has answered `Spent`.
    ghost spent: { Self → Bool };

    /// That a ticket may be asked for.
    ghost ready: { Self → Type 0 };

    /// What draws leave as it was, from an earlier state to a later one.
    ghost kept: { Self → Self → Type 0 };

    /// Draws the next ticket.
    ///
    /// `Ticket(n)`: `n` is below the budget and above each number drawn before.
    /// `Spent`: no number below the budget is left, and `drawn` and `budget` are the budget. How that is known, the
    /// clauses of each kind of purse say. A purse that answered `Spent` answers it from then on.
    /// Takes no memory.
    fn draw(&mut self) -> Draw
        requires ready { ready self.old }
        ensures kept { kept self.old self.new }
        ensures ready { ready self.new }
        ensures budget { budget self.new ≡ budget self.old }
        ensures drawn { DrawsOne (budget self.old) (tickets self.old) (spent self.old) result (tickets self.new) (spent self.new) };

    /// Where nothing was drawn all is kept.
    ghost kept_refl: { (x : Self) → kept x x };

    /// What two runs of draws keep, the two together keep.
    ghost kept_trans: { (x y z : Self) → kept x y → kept y z → kept x z };
}
