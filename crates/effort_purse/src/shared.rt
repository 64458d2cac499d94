//! A purse that several threads share, by atomic steps on three words.

ghost use Rattle.std.specs.Prelude.{◌≡◌, ◌+◌, ◌-◌, ◌^◌, ◌<◌, ◌≤◌, true, false, [], IfOk};
ghost use Rattle.effort_purse.specs.Drawing.{DrawsOne, BoundsOne};
ghost use Rattle.effort_purse.specs.Rule.{stays, goes, joined, Takes, ticket_lane, bound_lane, with_tickets, with_bounds, SeesStop, KnowsWhole};

use crate::draw::{Draw, NextBound};
use crate::plays::{Counts, Cut, Glue, Law, Limited, Raises, Sees, TakesBound, TakesTicket, Told};
use crate::seat::Seat;
use crate::view::{Limits, View};
use atomic_table::Table;
use std::alloc::{AllocError, Global};
use std::marker::Brand;

/// Tickets, bounds and a stop flag that several threads share, each thread by a seat of its own.
///
/// The tickets are numbered from 0, the bounds are the numbers 1, 2, .. Each is given once over all seats. A seat
/// has shares; the first has all, a split divides them, and a join puts them together. A seat with every share
/// knows what was drawn in all: its tickets are the numbers below their count, and the whole budget if it is spent.
///
/// A draw, a bound, a raise and a look at the stop are one atomic step on one of three words, or none where the
/// seat knows the answer; a split and a join look at a word and change the seats. No call waits, and but for `new`
/// none takes memory.
#[derive(Drop)]
pub struct SharedPurse {
    table: Table<u8, View, Limits, Law, Global>,
    budget: u64,
    bounds: u64,
    /// The table has the words of the tickets, of the bounds and of the stop.
    pub ghost words: { table.shared.table_id.words ≡ 3 },
    /// The limits are those of the table.
    pub ghost budget_is: { table.shared.key.budget ≡ budget },
    pub ghost bounds_is: { table.shared.key.bounds ≡ bounds },
}

impl SharedPurse {
    ghost use Rattle.effort_purse.specs.Seats.{budget_of, bounds_of, seats_of, shares_of, tickets_of, is_spent, lengths_of, has_no_more, has_raised, knows_stop, IsSeatOf, IsFirstSeat, IsSplitFrom, Joins, KeepsTickets, KeepsLengths, KeepsStop};

    /// A purse of `budget` tickets and the lengths up to `bounds`, and a seat with all of its `seats` shares.
    ///
    /// The one error is out of memory.
    pub fn new(
        alloc: Global,
        budget: u64,
        bounds: u64,
        seats: u64,
    ) -> Result<(SharedPurse, Seat), AllocError>
        requires some { 0 < seats }
        requires room { (budget + seats < 2 ^ 64) × (bounds + seats < 2 ^ 64) }
        ensures budget { IfOk result (λ made. budget_of made.0 ≡ budget) }
        ensures bounds { IfOk result (λ made. bounds_of made.0 ≡ bounds) }
        ensures seats { IfOk result (λ made. seats_of made.0 ≡ seats) }
        ensures own { IfOk result (λ made. IsSeatOf made.0 made.1) }
        ensures first { IfOk result (λ made. IsFirstSeat seats made.1) }
    {
        let limits = Limits {
            budget,
            bounds,
            seats,
        };
        let (table, inner) = Table::of_words(alloc, &[0, 0, 0], &limits)?;
        let purse = SharedPurse {
            table,
            budget,
            bounds,
        };
        let seat = Seat {
            inner,
            spent: false,
            no_more: false,
            stop: false,
        };
        Ok((purse, seat))
    }

    /// Draws the next ticket of the purse: a number that no seat had, or `Spent` where it is at least the budget.
    ///
    /// A seat that is spent is answered `Spent` without a step.
    pub fn draw(&self, seat: &mut Seat) -> Draw
        requires own { IsSeatOf self.now seat.old }
        ensures own { IsSeatOf self.now seat.new }
        ensures drawn { DrawsOne (budget_of self.now) (tickets_of seat.old) (is_spent seat.old) result (tickets_of seat.new) (is_spent seat.new) }
        ensures shares { shares_of seat.new ≡ shares_of seat.old }
        ensures lengths { KeepsLengths seat.old seat.new }
        ensures stop { KeepsStop seat.old seat.new }
    {
        if seat.spent {
            return Draw::Spent {
                drawn: self.budget,
                budget: self.budget,
            };
        }
        let found = self.take_ticket::<Brand>(&mut seat.inner);
        if found < self.budget {
            return Draw::Ticket(found);
        }
        seat.spent = true;
        Draw::Spent {
            drawn: self.budget,
            budget: self.budget,
        }
    }

    // one step on the word of tickets
    fn take_ticket<L: Limited>(&self, seat: &mut atomic_table::Seat<u8, View>) -> u64
        requires limits { L.limits ≡ self.now.table.shared.key }
        requires own { seat.old.table_id ≡ self.now.table.shared.table_id }
        requires bare { seat.old.me.1 ≡ [] }
        requires share { 0 < seat.old.me.0.shares }
        requires fresh { seat.old.me.0.tickets.done ≡ false }
        ensures same { (seat.new.table_id ≡ seat.old.table_id) × (seat.new.me.1 ≡ []) }
        ensures takes { Takes ticket_lane with_tickets self.now.budget seat.old.me.0 result seat.new.me.0 }
        ensures whole { KnowsWhole self.now.table.shared.key seat.new.me.0 }
    {
        self.table.shared.fetch_add::<TakesTicket<L>>(seat, 0, 1)
    }

    /// Gives the next length from 1 to the bounds, which no seat had, or `NoMore` where the number drawn is greater.
    ///
    /// A seat that has no more is answered `NoMore` without a step.
    pub fn next_bound(&self, seat: &mut Seat) -> NextBound
        requires own { IsSeatOf self.now seat.old }
        ensures own { IsSeatOf self.now seat.new }
        ensures drawn { BoundsOne (bounds_of self.now) (lengths_of seat.old) (has_no_more seat.old) result (lengths_of seat.new) (has_no_more seat.new) }
        ensures shares { shares_of seat.new ≡ shares_of seat.old }
        ensures tickets { KeepsTickets seat.old seat.new }
        ensures stop { KeepsStop seat.old seat.new }
    {
        if seat.no_more {
            return NextBound::NoMore {
                bounds: self.bounds,
            };
        }
        let found = self.take_bound::<Brand>(&mut seat.inner);
        if found < self.bounds {
            return NextBound::Bound(found + 1);
        }
        seat.no_more = true;
        NextBound::NoMore {
            bounds: self.bounds,
        }
    }

    // one step on the word of bounds
    fn take_bound<L: Limited>(&self, seat: &mut atomic_table::Seat<u8, View>) -> u64
        requires limits { L.limits ≡ self.now.table.shared.key }
        requires own { seat.old.table_id ≡ self.now.table.shared.table_id }
        requires bare { seat.old.me.1 ≡ [] }
        requires share { 0 < seat.old.me.0.shares }
        requires fresh { seat.old.me.0.bounds.done ≡ false }
        ensures same { (seat.new.table_id ≡ seat.old.table_id) × (seat.new.me.1 ≡ []) }
        ensures takes { Takes bound_lane with_bounds self.now.bounds seat.old.me.0 result seat.new.me.0 }
        ensures whole { KnowsWhole self.now.table.shared.key seat.new.me.0 }
    {
        self.table.shared.fetch_add::<TakesBound<L>>(seat, 1, 1)
    }

    /// Raises the stop, for every seat and for good.
    pub fn raise_stop(&self, seat: &mut Seat)
        requires own { IsSeatOf self.now seat.old }
        ensures own { IsSeatOf self.now seat.new }
        ensures raised { has_raised seat.new ≡ true }
        ensures stop { knows_stop seat.new ≡ true }
        ensures shares { shares_of seat.new ≡ shares_of seat.old }
        ensures tickets { KeepsTickets seat.old seat.new }
        ensures lengths { KeepsLengths seat.old seat.new }
    {
        self.table.shared.fetch_or::<Raises>(&mut seat.inner, 2, 1);
        seat.stop = true;
    }

    /// Whether the stop is raised: true only where some seat raised it, and always where this seat knows of it.
    ///
    /// A seat that knows of it is answered without a step.
    pub fn stop_seen(&self, seat: &mut Seat) -> bool
        requires own { IsSeatOf self.now seat.old }
        ensures own { IsSeatOf self.now seat.new }
        ensures known { knows_stop seat.old ≡ true → result ≡ true }
        ensures answer { result ≡ knows_stop seat.new }
        ensures raised { has_raised seat.new ≡ has_raised seat.old }
        ensures shares { shares_of seat.new ≡ shares_of seat.old }
        ensures tickets { KeepsTickets seat.old seat.new }
        ensures lengths { KeepsLengths seat.old seat.new }
    {
        if seat.stop {
            return true;
        }
        let seen = self.look::<Brand>(&mut seat.inner) == 1;
        seat.stop = seen;
        seen
    }

    // one look at the word of the stop
    fn look<L: Limited>(&self, seat: &mut atomic_table::Seat<u8, View>) -> u64
        requires limits { L.limits ≡ self.now.table.shared.key }
        requires own { seat.old.table_id ≡ self.now.table.shared.table_id }
        requires bare { seat.old.me.1 ≡ [] }
        requires share { 0 < seat.old.me.0.shares }
        ensures same { (seat.new.table_id ≡ seat.old.table_id) × (seat.new.me.1 ≡ []) }
        ensures sees { SeesStop seat.old.me.0 result seat.new.me.0 }
        ensures whole { KnowsWhole self.now.table.shared.key seat.new.me.0 }
    {
        self.table.shared.load::<Sees<L>>(seat, 2)
    }

    /// Whether this seat was answered `Spent`, or split from a seat that was, or had such a seat joined into it.
    pub fn seen_spent(seat: &Seat) -> bool
        ensures { result ≡ is_spent seat.now }
    {
        seat.spent
    }

    /// Gives a new seat so many of a seat's shares. At least one goes and one stays.
    ///
    /// The new seat has no tickets and no lengths, and is spent, or has no more, where the first is.
    pub fn split(&self, seat: &mut Seat, shares: u64) -> Seat
        requires own { IsSeatOf self.now seat.old }
        requires some_go { 0 < shares }
        requires some_stay { shares < shares_of seat.old }
        ensures own { IsSeatOf self.now seat.new }
        ensures new_own { IsSeatOf self.now result }
        ensures shares { shares_of seat.new ≡ shares_of seat.old - shares }
        ensures tickets { KeepsTickets seat.old seat.new }
        ensures lengths { KeepsLengths seat.old seat.new }
        ensures stop { KeepsStop seat.old seat.new }
        ensures new { IsSplitFrom seat.old shares result }
    {
        let inner = self.cut::<Brand>(&mut seat.inner, shares);
        Seat {
            inner,
            spent: seat.spent,
            no_more: seat.no_more,
            stop: false,
        }
    }

    // a split of the table's seat
    fn cut<L: Told>(
        &self,
        seat: &mut atomic_table::Seat<u8, View>,
        shares: u64,
    ) -> atomic_table::Seat<u8, View>
        requires told { L.number ≡ shares }
        requires own { seat.old.table_id ≡ self.now.table.shared.table_id }
        requires some_go { 0 < shares }
        requires some_stay { shares < seat.old.me.0.shares }
        ensures same { (seat.new.table_id ≡ seat.old.table_id) × (result.table_id ≡ seat.old.table_id) }
        ensures stays { seat.new.me ≡ (stays shares seat.old.me.0, seat.old.me.1) }
        ensures goes { result.me ≡ (goes shares seat.old.me.0, []) }
    {
        self.table.shared.split_seat::<Cut<L>>(seat)
    }

    /// Takes the second seat back into the first, with its shares, tickets and lengths.
    ///
    /// The first is spent, has no more, or knows of the stop, where one of the two was or did.
    pub fn join(&self, seat: &mut Seat, other: Seat)
        requires own { IsSeatOf self.now seat.old }
        requires other_own { IsSeatOf self.now other }
        ensures own { IsSeatOf self.now seat.new }
        ensures joined { Joins seat.old other seat.new }
    {
        let Seat {
            inner,
            spent,
            no_more,
            stop,
        } = other;
        self.table.shared.join_seat::<Glue>(&mut seat.inner, inner);
        self.count::<Brand>(&mut seat.inner);
        seat.spent = seat.spent || spent;
        seat.no_more = seat.no_more || no_more;
        seat.stop = seat.stop || stop;
    }

    // one look at the word of tickets, which tells what a seat with every share knows
    fn count<L: Limited>(&self, seat: &mut atomic_table::Seat<u8, View>)
        requires limits { L.limits ≡ self.now.table.shared.key }
        requires own { seat.old.table_id ≡ self.now.table.shared.table_id }
        ensures same { (seat.new.table_id ≡ seat.old.table_id) × (seat.new.me ≡ seat.old.me) }
        ensures within { seat.old.me.0.shares ≤ self.now.table.shared.key.seats }
        ensures whole { KnowsWhole self.now.table.shared.key seat.old.me.0 }
    {
        self.table.shared.load::<Counts<L>>(seat, 0);
    }
}
