//! The decision heuristics: variable activities (VSIDS), saved signs and restarts.

use clause_core::Lit;
use sat_prop::Trail;
use std::alloc::{AllocError, Global};

// The order in which variables are decided: those first that came up in late conflicts (Moskewicz and others
// 2001), by a binary heap; and the sign that each had last (Pipatsrisawat, Darwiche 2007). Nothing is promised
// of it: a variable that it names is tested before it is decided.
#[derive(Drop)]
pub struct Order {
    // The variables, the most active first: each is at most as active as the one at half its place.
    heap: Vec<usize>,
    // One more than the place of each variable in the heap, 0 for one that is not in it.
    slot: Vec<usize>,
    activity: Vec<u64>,
    phase: Vec<bool>,
    // What a variable's activity gains.
    step: u64,
    // Which restart comes next, and after how many conflicts.
    round: u64,
    left: u64,
    // For each variable, as far as it is long, the number of an assumption that a query had with it.
    pub numbers: Vec<usize>,
}

// The entry, 0 past the end.
fn entry(v: &[usize], i: usize) -> usize {
    if i < v.len() { v[i] } else { 0 }
}

// Writes the entry, if there is one.
fn put(v: &mut [usize], i: usize, x: usize) {
    if i < v.len() {
        v[i] = x;
    }
}

// Whether the variable is marked.
fn is_on(v: &[bool], i: usize) -> bool {
    if i < v.len() { v[i] } else { false }
}

// A variable's activity, 0 for one that is not there.
fn activity_of(v: &[u64], i: usize) -> u64 {
    if i < v.len() { v[i] } else { 0 }
}

// Writes a variable's activity, if it is there.
fn put_activity(v: &mut [u64], i: usize, x: u64) {
    if i < v.len() {
        v[i] = x;
    }
}

// Number n of the sequence 1, 1, 2, 1, 1, 2, 4, .. (Luby, Sinclair, Zuckerman 1993).
fn luby(n: u64) -> u64 {
    let mut i = n;
    for _ in 0..64 {
        let mut size: u64 = 0;
        for _ in 0..62 {
            if size >= i {
                break;
            }
            size = size.wrapping_mul(2).wrapping_add(1);
        }
        if size == i {
            return size.wrapping_add(1) / 2;
        }
        i = i.wrapping_sub(size / 2);
    }
    1
}

// Moves the variable at a place of the heap towards the front, past the less active ones.
fn sift_up(heap: &mut [usize], slot: &mut [usize], activity: &[u64], from: usize) {
    let v = entry(heap, from);
    let a = activity_of(activity, v);
    let mut i = from;
    for _ in 0..64 {
        if i == 0 {
            break;
        }
        let parent = (i - 1) / 2;
        let u = entry(heap, parent);
        if activity_of(activity, u) >= a {
            break;
        }
        put(heap, i, u);
        put(slot, u, i.wrapping_add(1));
        i = parent;
    }
    put(heap, i, v);
    put(slot, v, i.wrapping_add(1));
}

// Moves the first variable of the heap towards the end, past the more active ones.
fn sift_down(heap: &mut [usize], slot: &mut [usize], activity: &[u64]) {
    let v = entry(heap, 0);
    let a = activity_of(activity, v);
    let n = heap.len();
    let mut i: usize = 0;
    for _ in 0..64 {
        let mut child = i.wrapping_mul(2).wrapping_add(1);
        if child >= n {
            break;
        }
        let other = child.wrapping_add(1);
        if other < n
            && activity_of(activity, entry(heap, other))
                > activity_of(activity, entry(heap, child))
        {
            child = other;
        }
        let u = entry(heap, child);
        if activity_of(activity, u) <= a {
            break;
        }
        put(heap, i, u);
        put(slot, u, i.wrapping_add(1));
        i = child;
    }
    put(heap, i, v);
    put(slot, v, i.wrapping_add(1));
}

// So many numbers, one after another.
fn numbers_from(alloc: Global, first: usize, count: usize) -> Result<Vec<usize>, AllocError> {
    let mut numbers = Vec::new(alloc);
    for k in 0..count {
        numbers.push(first.wrapping_add(k))?;
    }
    Ok(numbers)
}

impl Order {
    // Each variable once, none more active than another.
    pub fn new(alloc: Global, vars: usize) -> Result<Order, AllocError> {
        let heap = numbers_from(alloc, 0, vars)?;
        let slot = numbers_from(alloc, 1, vars)?;
        let activity = vec![in alloc; 0; vars]?;
        let phase = vec![in alloc; false; vars]?;
        Ok(Order {
            heap,
            slot,
            activity,
            phase,
            step: 1,
            round: 1,
            left: 64,
            numbers: Vec::new(alloc),
        })
    }

    // Takes the most active variable out of the heap: the one to be decided next.
    pub fn next(&mut self) -> Option<usize> {
        let top = entry(&self.heap, 0);
        match self.heap.pop() {
            None => None,
            Some(last) => {
                put(&mut self.slot, top, 0);
                if self.heap.len() > 0 {
                    put(&mut self.heap, 0, last);
                    put(&mut self.slot, last, 1);
                    sift_down(&mut self.heap, &mut self.slot, &self.activity);
                }
                Some(top)
            }
        }
    }

    // The sign that a variable gets when it is decided next.
    pub fn set_sign(&mut self, v: usize, positive: bool) {
        if v < self.phase.len() {
            self.phase[v] = positive;
        }
    }

    // Makes a variable as active as one that came up in so many late conflicts.
    pub fn raise(&mut self, v: usize, conflicts: u64) {
        for _ in 0..conflicts {
            self.bump(v);
        }
    }

    // Makes all numbers smaller that say how active variables are.
    fn rescale(&mut self) {
        for x in self.activity.iter_mut() {
            *x = *x >> 40;
        }
        self.step = self.step >> 40;
        if self.step == 0 {
            self.step = 1;
        }
    }

    // Makes a variable more active; where numbers grow large, all are made smaller.
    fn bump(&mut self, v: usize) {
        let a = activity_of(&self.activity, v).wrapping_add(self.step);
        put_activity(&mut self.activity, v, a);
        if a > 1 << 60 {
            self.rescale();
        }
        let s = entry(&self.slot, v);
        if s > 0 {
            sift_up(&mut self.heap, &mut self.slot, &self.activity, s - 1);
        }
    }

    // Makes a clause's variables more active.
    pub fn bump_all(&mut self, c: &[Lit]) {
        for x in c {
            self.bump(x.var);
        }
    }

    // Makes those of a clause's variables more active whose places are not marked, but that at `skip`: the ones that
    // this conflict has not met before.
    pub fn bump_new(&mut self, c: &[Lit], skip: usize, positions: &[usize], marks: &[bool]) {
        for x in c {
            let q = entry(positions, x.var);
            if q != skip && q < marks.len() && !marks[q] {
                self.bump(x.var);
            }
        }
    }

    // Decay: later bumps add more, so that earlier conflicts count less.
    pub fn decay(&mut self) {
        let more = self.step / 40;
        self.step = self.step.wrapping_add(more).wrapping_add(1);
    }

    // Whether the search restarts after this conflict.
    pub fn restarts(&mut self) -> bool {
        if self.left == 0 {
            self.round = self.round.wrapping_add(1);
            self.left = luby(self.round).wrapping_mul(64);
            true
        } else {
            self.left -= 1;
            false
        }
    }

    // The sign that a variable had last.
    pub fn sign(&self, v: usize) -> bool {
        if v < self.phase.len() {
            self.phase[v]
        } else {
            false
        }
    }

    // Puts a variable into the heap, if it is not there.
    pub fn insert(&mut self, v: usize) -> Result<(), AllocError> {
        if v < self.slot.len() && self.slot[v] == 0 {
            let n = self.heap.len();
            self.heap.push(v)?;
            self.slot[v] = n.wrapping_add(1);
            sift_up(&mut self.heap, &mut self.slot, &self.activity, n);
        }
        Ok(())
    }

    // Puts all marked variables into the heap.
    pub fn fill(&mut self, marks: &[bool]) -> Result<(), AllocError> {
        for v in 0..marks.len() {
            if marks[v] {
                self.insert(v)?;
            }
        }
        Ok(())
    }

    // Notes the signs of the literals from a level on, which are about to be unset, and puts those of their variables
    // back into the heap that are marked.
    pub fn keep(&mut self, trail: &Trail, level: usize, marks: &[bool]) -> Result<(), AllocError> {
        if level < trail.level_starts.len() {
            for p in trail.level_starts[level]..trail.literals.len() {
                let l = trail.literals[p];
                self.set_sign(l.var, l.positive);
                if is_on(marks, l.var) {
                    self.insert(l.var)?;
                }
            }
        }
        Ok(())
    }
}
