//! Tests of purses that one thread and four threads draw from, and of seats that are split and
//! joined in every order.

ghost use Rattle.std.specs.Prelude.{◌≡◌, ◌<◌, ◌≤◌, ◌+◌, ◌-◌, ◌^◌, true};
ghost use Rattle.std.specs.Thread.{IsSync};
ghost use Rattle.effort_purse.specs.Seats.{IsSeatOf, shares_of};

use effort_purse::{Draw, Lent, NextBound, PlainPurse, Purse, Seat, SharedPurse};
use std::alloc::{AllocError, Global};
use std::test::Fail;
use std::thread::{Threads, join};

// Draws until the purse is spent, and gives the numbers as the bits of a word.
fn drain<P: Purse>(purse: &mut P) -> u64
    requires ready { P.ready purse.old }
    ensures ready { P.ready purse.new }
    ensures kept { P.kept purse.old purse.new }
    ensures spent { P.spent purse.new ≡ true }
{
    let mut numbers = 0;
    'draws: loop {
        match purse.draw() {
            Draw::Ticket(number) => numbers |= 1 << (number % 64),
            Draw::Spent { .. } => return numbers,
        }
    }
}

// What workers drew: the seat that is left, the numbers as bits, and whether no number came twice.
#[derive(Drop)]
struct Drawn {
    seat: Seat,
    numbers: u64,
    distinct: bool,
}

// Drains a purse by one seat.
fn drain_seat(purse: &SharedPurse, seat: Seat) -> Drawn
    requires own { IsSeatOf purse.now seat }
    ensures own { IsSeatOf purse.now result.seat }
    ensures shares { shares_of result.seat ≡ shares_of seat }
{
    let mut lent = Lent { purse, seat };
    let numbers = drain(&mut lent);
    let Lent { purse: _, seat } = lent;
    Drawn {
        seat,
        numbers,
        distinct: true,
    }
}

// Drains a purse by as many threads as there are workers.
fn fan_out<R: Threads + Sync>(rt: &R, purse: &SharedPurse, mut seat: Seat, workers: u64) -> Drawn
    requires own { IsSeatOf purse.now seat }
    requires some { 0 < workers }
    requires shares { workers ≤ shares_of seat }
    requires few { workers < 2 ^ 32 }
    ensures own { IsSeatOf purse.now result.seat }
    ensures shares { shares_of result.seat ≡ shares_of seat }
{
    if workers == 1 {
        return drain_seat(purse, seat);
    }
    let half = workers / 2;
    let other = purse.split(&mut seat, half);
    let (here, there) = join(
        rt,
        || -> Drawn
            requires { IsSync R.row × IsSeatOf purse.now seat × (half < workers) × (workers < 2 ^ 32) × (workers - half ≤ shares_of seat) }
            ensures own { IsSeatOf purse.entry.now result.seat }
            ensures shares { shares_of result.seat ≡ shares_of seat }
        { fan_out(rt, purse, seat, workers - half) },
        || -> Drawn
            requires { IsSync R.row × IsSeatOf purse.now other × (0 < half) × (half < 2 ^ 32) × (half ≤ shares_of other) }
            ensures own { IsSeatOf purse.entry.now result.seat }
            ensures shares { shares_of result.seat ≡ shares_of other }
        { fan_out(rt, purse, other, half) },
    );
    with_other(purse, here, there)
}

// What two workers drew, as what one drew.
fn with_other(purse: &SharedPurse, here: Drawn, there: Drawn) -> Drawn
    requires here { IsSeatOf purse.now here.seat }
    requires there { IsSeatOf purse.now there.seat }
    ensures own { IsSeatOf purse.now result.seat }
    ensures shares { shares_of result.seat ≡ shares_of here.seat + shares_of there.seat }
{
    let distinct = here.distinct && there.distinct && here.numbers & there.numbers == 0;
    let numbers = here.numbers | there.numbers;
    let mut seat = here.seat;
    purse.join(&mut seat, there.seat);
    Drawn {
        seat,
        numbers,
        distinct,
    }
}

// How many tickets there are, and their numbers as bits.
struct Budget {
    tickets: u32,
    numbers: u64,
}

const BUDGETS: [Budget; 4] = [
    Budget {
        tickets: 0,
        numbers: 0,
    },
    Budget {
        tickets: 1,
        numbers: 1,
    },
    Budget {
        tickets: 10,
        numbers: 0x3ff,
    },
    Budget {
        tickets: 64,
        numbers: u64::MAX,
    },
];

// Whether four threads draw these numbers, each once.
fn is_drawn_by_four<R: Threads + Sync>(
    rt: &R,
    alloc: Global,
    row: &Budget,
) -> Result<bool, AllocError> {
    let (purse, seat) = SharedPurse::new(alloc, u64::from(row.tickets), 0, 4)?;
    let drawn = fan_out(rt, &purse, seat, 4);
    Ok(drawn.numbers == row.numbers && drawn.distinct && SharedPurse::seen_spent(&drawn.seat))
}

// Whether a spent purse gives no ticket, and tells that all were drawn.
fn is_used_up(purse: &mut PlainPurse, budget: u64) -> bool {
    match purse.draw() {
        Draw::Spent { drawn, budget: all } => drawn == budget && all == budget,
        Draw::Ticket(_) => false,
    }
}

// Whether one thread draws these numbers.
fn is_drawn_by_one(row: &Budget) -> bool {
    let budget = u64::from(row.tickets);
    let mut purse = PlainPurse::new(budget);
    let spent_at_first = purse.seen_spent();
    let numbers = drain(&mut purse);
    !spent_at_first
        && numbers == row.numbers
        && purse.seen_spent()
        && is_used_up(&mut purse, budget)
}

fn wrong_budget<R: Threads + Sync>(rt: &R, alloc: Global) -> Result<Option<usize>, AllocError> {
    for (k, row) in BUDGETS.iter().enumerate() {
        if !is_drawn_by_four(rt, alloc, row)? || !is_drawn_by_one(row) {
            return Ok(Some(k));
        }
    }
    Ok(None)
}

#[test]
fn four_threads_draw_each_number_once(rt: HostRuntime) -> Result<(), Fail> {
    assert_eq!(rt; wrong_budget(&rt, rt.alloc())?, None);
    Ok(())
}

// Asks so often for a ticket and for a length, and gives those that came as bits.
fn ask(purse: &SharedPurse, seat: &mut Seat, times: u8) -> (u64, u64)
    requires own { IsSeatOf purse.now seat.old }
    ensures own { IsSeatOf purse.now seat.new }
    ensures shares { shares_of seat.new ≡ shares_of seat.old }
{
    let mut tickets = 0;
    let mut lengths = 0;
    for _turn in 0..times {
        if let Draw::Ticket(number) = purse.draw(seat) {
            tickets |= 1 << (number % 64);
        }
        if let NextBound::Bound(length) = purse.next_bound(seat) {
            lengths |= 1 << (length % 64);
        }
    }
    (tickets, lengths)
}

// Joins the second seat into the first, and then the third.
fn join_forward(purse: &SharedPurse, first: Seat, second: Seat, third: Seat) -> Seat
    requires first { IsSeatOf purse.now first }
    requires second { IsSeatOf purse.now second }
    requires third { IsSeatOf purse.now third }
    ensures own { IsSeatOf purse.now result }
{
    let mut seat = first;
    purse.join(&mut seat, second);
    purse.join(&mut seat, third);
    seat
}

// Joins the third seat into the second, and these into the first.
fn join_backward(purse: &SharedPurse, first: Seat, second: Seat, third: Seat) -> Seat
    requires first { IsSeatOf purse.now first }
    requires second { IsSeatOf purse.now second }
    requires third { IsSeatOf purse.now third }
    ensures own { IsSeatOf purse.now result }
{
    let mut rest = second;
    purse.join(&mut rest, third);
    let mut seat = first;
    purse.join(&mut seat, rest);
    seat
}

// Puts three seats together in one of the orders in which that can be done.
fn join_three(purse: &SharedPurse, a: Seat, b: Seat, c: Seat, order: u8) -> Seat
    requires first { IsSeatOf purse.now a }
    requires second { IsSeatOf purse.now b }
    requires third { IsSeatOf purse.now c }
    ensures own { IsSeatOf purse.now result }
{
    match order {
        0 => join_forward(purse, a, b, c),
        1 => join_backward(purse, a, b, c),
        2 => join_backward(purse, b, c, a),
        _ => join_backward(purse, c, b, a),
    }
}

// The budget and the bounds, and what six questions of three seats get: the numbers and the lengths as bits, and
// whether the purse is spent then.
struct Asked {
    budget: u32,
    bounds: u32,
    tickets: u64,
    lengths: u64,
    is_spent: bool,
}

const ASKED: [Asked; 4] = [
    Asked {
        budget: 0,
        bounds: 0,
        tickets: 0,
        lengths: 0,
        is_spent: true,
    },
    Asked {
        budget: 4,
        bounds: 3,
        tickets: 0xf,
        lengths: 0xe,
        is_spent: true,
    },
    Asked {
        budget: 6,
        bounds: 6,
        tickets: 0x3f,
        lengths: 0x7e,
        is_spent: false,
    },
    Asked {
        budget: 9,
        bounds: 0,
        tickets: 0x3f,
        lengths: 0,
        is_spent: false,
    },
];

// Whether six questions of three seats get what the row says.
fn are_told(purse: &SharedPurse, a: &mut Seat, b: &mut Seat, c: &mut Seat, row: &Asked) -> bool
    requires first { IsSeatOf purse.now a.old }
    requires second { IsSeatOf purse.now b.old }
    requires third { IsSeatOf purse.now c.old }
    ensures first { IsSeatOf purse.now a.new }
    ensures second { IsSeatOf purse.now b.new }
    ensures third { IsSeatOf purse.now c.new }
{
    let of_a = ask(purse, a, 1);
    let of_b = ask(purse, b, 2);
    let of_c = ask(purse, c, 3);
    of_a.0 | of_b.0 | of_c.0 == row.tickets && of_a.1 | of_b.1 | of_c.1 == row.lengths
}

// Whether a stop that the third seat raises is seen by the second one, and was not seen before.
fn is_stop_seen(purse: &SharedPurse, a: &mut Seat, b: &mut Seat, c: &mut Seat) -> bool
    requires first { IsSeatOf purse.now a.old }
    requires second { IsSeatOf purse.now b.old }
    requires third { IsSeatOf purse.now c.old }
    ensures first { IsSeatOf purse.now a.new }
    ensures second { IsSeatOf purse.now b.new }
    ensures third { IsSeatOf purse.now c.new }
{
    let seen_before = purse.stop_seen(a);
    purse.raise_stop(c);
    let seen_after = purse.stop_seen(b);
    !seen_before && seen_after
}

// Whether three seats get what the row says, and know it where they are joined in this order.
fn are_joined(
    purse: &SharedPurse,
    mut a: Seat,
    mut b: Seat,
    mut c: Seat,
    row: &Asked,
    order: u8,
) -> bool
    requires first { IsSeatOf purse.now a }
    requires second { IsSeatOf purse.now b }
    requires third { IsSeatOf purse.now c }
{
    let told = are_told(purse, &mut a, &mut b, &mut c, row);
    let stopped = is_stop_seen(purse, &mut a, &mut b, &mut c);
    let mut whole = join_three(purse, a, b, c, order);
    let spent = SharedPurse::seen_spent(&whole);
    told && stopped && spent == row.is_spent && purse.stop_seen(&mut whole)
}

fn is_right(alloc: Global, row: &Asked, order: u8) -> Result<bool, AllocError> {
    let (purse, mut a) = SharedPurse::new(alloc, u64::from(row.budget), u64::from(row.bounds), 3)?;
    let b = purse.split(&mut a, 1);
    let c = purse.split(&mut a, 1);
    Ok(are_joined(&purse, a, b, c, row, order))
}

fn wrong_order(alloc: Global, row: &Asked) -> Result<Option<u8>, AllocError> {
    for order in 0..4u8 {
        if !is_right(alloc, row, order)? {
            return Ok(Some(order));
        }
    }
    Ok(None)
}

fn wrong_row(alloc: Global) -> Result<Option<usize>, AllocError> {
    for (k, row) in ASKED.iter().enumerate() {
        if wrong_order(alloc, row)?.is_some() {
            return Ok(Some(k));
        }
    }
    Ok(None)
}

#[test]
fn seats_in_every_order(rt: HostRuntime) -> Result<(), Fail> {
    assert_eq!(rt; wrong_row(rt.alloc())?, None);
    Ok(())
}

// Whether a seat gets the one ticket and the one length.
fn gets_one(purse: &SharedPurse, seat: &mut Seat) -> bool
    requires own { IsSeatOf purse.now seat.old }
    ensures own { IsSeatOf purse.now seat.new }
    ensures shares { shares_of seat.new ≡ shares_of seat.old }
{
    let asked = ask(purse, seat, 1);
    asked.0 == 1 && asked.1 == 2 && !SharedPurse::seen_spent(seat)
}

fn is_one_of_one(draw: Draw) -> bool {
    match draw {
        Draw::Spent { drawn, budget } => drawn == 1 && budget == 1,
        Draw::Ticket(_) => false,
    }
}

fn is_none_of_one(next: NextBound) -> bool {
    match next {
        NextBound::NoMore { bounds } => bounds == 1,
        NextBound::Bound(_) => false,
    }
}

// Whether a seat is told that the one ticket and the one length are drawn.
fn is_refused(purse: &SharedPurse, seat: &mut Seat) -> bool
    requires own { IsSeatOf purse.now seat.old }
    ensures own { IsSeatOf purse.now seat.new }
    ensures shares { shares_of seat.new ≡ shares_of seat.old }
{
    let no_ticket = is_one_of_one(purse.draw(seat));
    let no_length = is_none_of_one(purse.next_bound(seat));
    no_ticket && no_length
}

// Whether a seat is spent and has no more, and is told so.
fn gets_no_more(purse: &SharedPurse, seat: &mut Seat) -> bool
    requires own { IsSeatOf purse.now seat.old }
    ensures own { IsSeatOf purse.now seat.new }
    ensures shares { shares_of seat.new ≡ shares_of seat.old }
{
    let spent = SharedPurse::seen_spent(seat);
    let refused = is_refused(purse, seat);
    spent && refused
}

// Whether a spent seat, a seat that is split from it, and the two together get no more.
fn stays_spent(purse: &SharedPurse, seat: &mut Seat) -> bool
    requires own { IsSeatOf purse.now seat.old }
    requires shares { 1 < shares_of seat.old }
{
    let mut other = purse.split(seat, 1);
    let here = gets_no_more(purse, seat);
    let there = gets_no_more(purse, &mut other);
    purse.join(seat, other);
    here && there && gets_no_more(purse, seat)
}

fn is_spent_for_good(alloc: Global) -> Result<bool, AllocError> {
    let (purse, mut seat) = SharedPurse::new(alloc, 1, 1, 2)?;
    let first = gets_one(&purse, &mut seat);
    let second = is_refused(&purse, &mut seat);
    let spent = stays_spent(&purse, &mut seat);
    Ok(first && second && spent)
}

#[test]
fn a_spent_seat_stays_spent(rt: HostRuntime) -> Result<(), Fail> {
    assert!(rt; is_spent_for_good(rt.alloc())?);
    Ok(())
}
