//! Workers that take tasks from a value under a lock, do them without the lock, and wait while
//! there is none.

ghost use Rattle.std.specs.Prelude.{◌≡◌};
ghost use Rattle.std.specs.Thread.{IsSync};
ghost use Rattle.work_crew.specs.Takings.{IfTask, IfNoTask};

use crate::craft::{Craft, Taking};
use outside::Gate;
use std::sync::{Condvar, Mutex, Wait};
use std::thread::{Threads, join};
use std::time::Duration;

// For how many milliseconds a worker sleeps, if nobody wakes it, that leaves a task to another.
const PAUSE: u64 = 1;

/// What workers share: what they do, the value under the lock, and where those wait that have no task.
#[derive(Drop)]
pub struct Crew<C: Craft> {
    pub craft: C,
    pub desk: Mutex<C::Desk>,
    pub moved: Condvar,
}

/// Works until the craft says that this worker does nothing more.
///
/// It passes the gate before each time that it asks for a task, and holds no lock while it does one. A worker without a
/// task waits. Whoever puts something back wakes one that waits, and who ends wakes all.
pub fn work<C: Craft, R: Wait, G: Gate>(
    rt: &R,
    crew: &Crew<C>,
    mut hand: C::Hand,
    gate: &G,
) -> C::Hand
    requires fresh { C.fresh crew.now.craft hand }
    ensures holds { C.holds crew.now.craft result }
    ensures parts { C.parts result ≡ C.parts hand }
    ensures first { C.first result ≡ C.first hand }
{
    let number = crew.craft.number(&hand);
    crew.craft.begin(&mut hand);
    for _ in rt.forever() {
        gate.enter(rt, number);
        if crew.craft.is_over(&mut hand) {
            break;
        }
        let mut desk = crew.desk.lock(rt);
        match crew.craft.take(&mut desk, &mut hand) {
            Taking::Task(task) => {
                drop(desk);
                let (after, done) = crew.craft.perform(hand, task);
                hand = after;
                if !put_back(rt, crew, &mut hand, done) {
                    break;
                }
            }
            Taking::Idle => {
                let _desk = crew.moved.wait(rt, desk);
            }
            Taking::Later => {
                let seen = crew.moved.notifications();
                drop(desk);
                crew.moved.sleep(rt, seen, Duration::from_millis(PAUSE));
            }
            Taking::Ended => {
                break;
            }
        }
    }
    crew.moved.notify_all();
    hand
}

/// Works as the last one, when all others have met: until nothing is given any more. It asks neither the gate nor
/// whether all is over, and does not wait for a task.
pub fn finish<C: Craft, R: Wait>(rt: &R, crew: &Crew<C>, mut hand: C::Hand) -> C::Hand
    requires fresh { C.fresh crew.now.craft hand }
    ensures holds { C.holds crew.now.craft result }
    ensures parts { C.parts result ≡ C.parts hand }
    ensures first { C.first result ≡ C.first hand }
{
    let craft = &crew.craft;
    craft.begin(&mut hand);
    for _ in rt.forever() {
        match take_one(rt, crew, &mut hand) {
            Taking::Task(task) => {
                let (after, done) = crew.craft.perform(hand, task);
                hand = after;
                if !put_back(rt, crew, &mut hand, done) {
                    break;
                }
            }
            Taking::Idle => {
                break;
            }
            Taking::Later => {}
            Taking::Ended => {
                break;
            }
        }
    }
    hand
}

// Takes a task under the lock.
fn take_one<C: Craft, R: Wait>(rt: &R, crew: &Crew<C>, hand: &mut C::Hand) -> Taking<C::Task>
    requires holds { C.holds crew.now.craft hand.old }
    ensures took { IfTask result (C.took crew.now.craft hand.new) }
    ensures holds { IfNoTask result (C.holds crew.now.craft hand.new) }
    ensures parts { C.parts hand.new ≡ C.parts hand.old }
    ensures first { C.first hand.new ≡ C.first hand.old }
{
    let mut desk = crew.desk.lock(rt);
    crew.craft.take(&mut desk, hand)
}

// Puts back what came of a task, and tells one of those that wait.
fn put_back<C: Craft, R: Wait>(rt: &R, crew: &Crew<C>, hand: &mut C::Hand, done: C::Done) -> bool
    requires did { C.did crew.now.craft hand.old done }
    ensures holds { C.holds crew.now.craft hand.new }
    ensures parts { C.parts hand.new ≡ C.parts hand.old }
    ensures first { C.first hand.new ≡ C.first hand.old }
{
    let mut desk = crew.desk.lock(rt);
    let goes_on = crew.craft.put(&mut desk, hand, done);
    drop(desk);
    crew.moved.notify_one();
    goes_on
}

/// Divides the hand by recursive join until each is one worker's, lets each work, and puts together what they own.
pub fn fan_out<C: Craft + Sync, R: Threads + Wait + Sync, G: Gate + Sync>(
    rt: &R,
    crew: &Crew<C>,
    mut hand: C::Hand,
    gate: &G,
) -> C::Hand
    requires fresh { C.fresh crew.now.craft hand }
    ensures holds { C.holds crew.now.craft result }
    ensures parts { C.parts result ≡ C.parts hand }
    ensures first { C.first result ≡ C.first hand }
{
    let workers = crew.craft.workers(&hand);
    if workers < 2 {
        return work(rt, crew, hand, gate);
    }
    let other = crew.craft.split(&mut hand, workers / 2);
    let (mut hand, other) = join(
        rt,
        || -> C::Hand
            requires { IsSync R.row × IsSync G.row × C.fresh crew.now.craft hand }
            ensures holds { C.holds crew.entry.now.craft result }
            ensures parts { C.parts result ≡ C.parts hand }
            ensures first { C.first result ≡ C.first hand }
        { fan_out(rt, crew, hand, gate) },
        || -> C::Hand
            requires { IsSync R.row × IsSync G.row × C.fresh crew.now.craft other }
            ensures holds { C.holds crew.entry.now.craft result }
            ensures parts { C.parts result ≡ C.parts other }
            ensures first { C.first result ≡ C.first other }
        { fan_out(rt, crew, other, gate) },
    );
    crew.craft.join(&mut hand, other);
    hand
}
