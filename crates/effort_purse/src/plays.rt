//! The rule of the table of a shared purse, and what each atomic step tells.

use crate::view::{Limits, View};
use atomic_table::{Join, Play, Split, TableRule};
use std::marker::{Brand, PhantomData};

/// The limits of a purse, which the proof of a step may read.
pub trait Limited {
    ghost use Rattle.effort_purse.specs.declared.view.Limits.{Limits};

    ghost limits: { Limits };
}

impl Limited for Brand {
    ghost limits = { record { budget = 0; bounds = 0; seats = 0 } };
}

/// A number of shares, which the proof of a split may read.
pub trait Told {
    ghost use Rattle.std.specs.Prelude.{ℕ};

    ghost number: { ℕ };
}

impl Told for Brand {
    ghost number = { 0 };
}

// the rule of the table
pub struct Law;

impl TableRule<u8, View, Limits> for Law {
    ghost use Rattle.effort_purse.specs.Rule.{Holds, all_shares};

    ghost holds = { Holds };

    ghost first = { all_shares };
}

// a ticket is drawn
pub struct TakesTicket<L: Limited> {
    of: PhantomData<L>,
}

impl<L: Limited> Play<u8, View> for TakesTicket<L> {
    ghost use Rattle.std.specs.Prelude.{◌≡◌};
    ghost use Rattle.effort_purse.specs.Rule.{Takes, ticket_lane, with_tickets, KnowsWhole};

    ghost then = { λ st me n w. Takes ticket_lane with_tickets L.limits.budget me.0 n w.0 × (w.1 ≡ me.1) × KnowsWhole L.limits w.0 };
}

// a bound is drawn
pub struct TakesBound<L: Limited> {
    of: PhantomData<L>,
}

impl<L: Limited> Play<u8, View> for TakesBound<L> {
    ghost use Rattle.std.specs.Prelude.{◌≡◌};
    ghost use Rattle.effort_purse.specs.Rule.{Takes, bound_lane, with_bounds, KnowsWhole};

    ghost then = { λ st me n w. Takes bound_lane with_bounds L.limits.bounds me.0 n w.0 × (w.1 ≡ me.1) × KnowsWhole L.limits w.0 };
}

// the stop is raised
pub struct Raises;

impl Play<u8, View> for Raises {
    ghost use Rattle.std.specs.Prelude.{◌≡◌};
    ghost use Rattle.effort_purse.specs.Rule.{raised};

    ghost then = { λ st me n w. (w.0 ≡ raised me.0) × (w.1 ≡ me.1) };
}

// a look at the stop
pub struct Sees<L: Limited> {
    of: PhantomData<L>,
}

impl<L: Limited> Play<u8, View> for Sees<L> {
    ghost use Rattle.std.specs.Prelude.{◌≡◌};
    ghost use Rattle.effort_purse.specs.Rule.{SeesStop, KnowsWhole};

    ghost then = { λ st me n w. SeesStop me.0 n w.0 × (w.1 ≡ me.1) × KnowsWhole L.limits w.0 };
}

// a look that tells a seat how its shares stand to all
pub struct Counts<L: Limited> {
    of: PhantomData<L>,
}

impl<L: Limited> Play<u8, View> for Counts<L> {
    ghost use Rattle.std.specs.Prelude.{◌≡◌, ◌≤◌};
    ghost use Rattle.effort_purse.specs.Rule.{KnowsWhole};

    ghost then = { λ st me n w. (w ≡ me) × (me.0.shares ≤ L.limits.seats) × KnowsWhole L.limits me.0 };
}

// so many shares go to a new seat
pub struct Cut<L: Told> {
    of: PhantomData<L>,
}

impl<L: Told> Split<View> for Cut<L> {
    ghost use Rattle.effort_purse.specs.Rule.{stays, goes};

    ghost left = { stays L.number };

    ghost right = { goes L.number };
}

// a seat takes another back
pub struct Glue;

impl Join<View> for Glue {
    ghost use Rattle.effort_purse.specs.Rule.{joined, empty};

    ghost both = { joined };

    ghost spent = { empty };
}
