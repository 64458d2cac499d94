//! The watches of a list of clauses: two literals of each (Moskewicz and others 2001).

use crate::numbered::Numbered;
use crate::trail::Trail;
use clause_core::{Clauses, Lit};
use std::alloc::{AllocError, Global};

// Links are numbered from 1, two for each clause: 0 is none.
#[derive(Drop)]
pub(crate) struct Links {
    // The first link of each literal's list.
    heads: Vec<usize>,
    // The next link of each link.
    nexts: Vec<usize>,
    // The place in its clause that each link watches.
    places: Vec<usize>,
    // The clauses without two different literals.
    units: Vec<usize>,
}

// The number of a literal.
pub(crate) fn code(l: Lit) -> usize {
    let even = l.var.saturating_mul(2);
    if l.positive {
        even.saturating_add(1)
    } else {
        even
    }
}

fn read(list: &[usize], at: usize) -> usize {
    match list.get(at) {
        Some(x) => *x,
        None => 0,
    }
}

fn write(list: &mut [usize], at: usize, value: usize) {
    if at < list.len() {
        list[at] = value;
    }
}

// The first literal that is not this one, if any.
fn other_place(c: &[Lit], first: Lit) -> Option<usize> {
    for (p, l) in c.iter().enumerate() {
        if !l.is_same(first) {
            return Some(p);
        }
    }
    None
}

// The place of the first literal that differs from the one at the front, if any.
fn second_place(c: &[Lit]) -> Option<usize> {
    match c.first() {
        None => None,
        Some(first) => other_place(c, *first),
    }
}

// Puts 0 at the end, twice.
fn push_two(list: &mut Vec<usize>) -> Result<(), AllocError> {
    list.push(0)?;
    list.push(0)?;
    Ok(())
}

impl Links {
    pub(crate) fn new(alloc: Global) -> Links {
        Links {
            heads: Vec::new(alloc),
            nexts: Vec::new(alloc),
            places: Vec::new(alloc),
            units: Vec::new(alloc),
        }
    }

    pub(crate) fn make_room(&mut self, vars: usize) -> Result<(), AllocError> {
        match vars.checked_mul(2) {
            None => Err(AllocError),
            Some(codes) => self.heads.resize(codes, 0),
        }
    }

    // Watches no clause.
    pub(crate) fn clear(&mut self) {
        if self.units.len() < self.nexts.len() / 2 {
            self.heads.fill(0);
        }
        self.nexts.clear();
        self.places.clear();
        self.units.clear();
    }

    // Watches one clause more.
    pub(crate) fn add(&mut self, c: &[Lit]) -> Result<(), AllocError> {
        let link = self.nexts.len();
        push_two(&mut self.nexts)?;
        push_two(&mut self.places)?;
        match second_place(c) {
            None => self.units.push(link / 2)?,
            Some(p) => self.watch_two(link, c, p),
        }
        Ok(())
    }

    // Watches the first literal of the clause by the next link, and that at p by the one behind it.
    fn watch_two(&mut self, link: usize, c: &[Lit], p: usize) {
        if let Some(first) = c.first() {
            self.watch(link.saturating_add(1), *first, 0);
        }
        if let Some(second) = c.get(p) {
            self.watch(link.saturating_add(2), *second, p);
        }
    }

    // Watches all clauses of a list.
    pub(crate) fn add_all(&mut self, clauses: &Clauses) -> Result<(), AllocError> {
        for k in 0..clauses.len() {
            self.add(clauses.get(k))?;
        }
        Ok(())
    }

    // Watches a clause of one literal for each of these.
    pub(crate) fn add_units(&mut self, units: &[Lit]) -> Result<(), AllocError> {
        for l in units {
            self.add(&[*l])?;
        }
        Ok(())
    }

    // Puts the link at the head of the literal's list.
    fn watch(&mut self, link: usize, l: Lit, place: usize) {
        let c = code(l);
        let head = read(&self.heads, c);
        write(&mut self.nexts, link.saturating_sub(1), head);
        write(&mut self.places, link.saturating_sub(1), place);
        write(&mut self.heads, c, link);
    }

    // Sets what the clauses without two different literals ask for, where the first clause of the list has number
    // `from`. The number of one that is false, plus one, or 0.
    pub(crate) fn set_units(
        &self,
        trail: &mut Trail,
        lists: Numbered<'_>,
        from: usize,
    ) -> Result<usize, AllocError> {
        for i in 0..self.units.len() {
            let number = from.saturating_add(read(&self.units, i));
            if let Some(c) = lists.get(number) {
                match c.first() {
                    None => return Ok(number.saturating_add(1)),
                    Some(l) => {
                        let s = trail.state(*l);
                        if s == 2 {
                            return Ok(number.saturating_add(1));
                        }
                        if s == 0 {
                            trail.set(*l, number.saturating_add(1))?;
                        }
                    }
                }
            }
        }
        Ok(0)
    }

    // Visits one link of a literal that is false now. The number of its clause, plus one, if that is false, or 0.
    fn visit(
        &mut self,
        trail: &mut Trail,
        c: &[Lit],
        number: usize,
        link: usize,
        l: Lit,
    ) -> Result<usize, AllocError> {
        let at = link.saturating_sub(1);
        let twin = if at % 2 == 0 {
            at.saturating_add(1)
        } else {
            at - 1
        };
        let place = read(&self.places, at);
        let Some(other) = c.get(read(&self.places, twin)) else {
            return Ok(0);
        };
        let s = trail.state(*other);
        if s != 1 {
            if let Some(p) = trail.free_place(c, *other) {
                if let Some(free) = c.get(p) {
                    self.watch(link, *free, p);
                    return Ok(0);
                }
            }
        }
        self.watch(link, l, place);
        if s == 2 {
            return Ok(number.saturating_add(1));
        }
        if s == 0 {
            trail.set(*other, number.saturating_add(1))?;
        }
        Ok(0)
    }

    // Visits all clauses that watch a literal which is false now, where the first clause of the list has number `from`.
    pub(crate) fn visit_all(
        &mut self,
        trail: &mut Trail,
        lists: Numbered<'_>,
        from: usize,
        l: Lit,
    ) -> Result<usize, AllocError> {
        let c = code(l);
        let mut link = read(&self.heads, c);
        write(&mut self.heads, c, 0);
        let mut conflict = 0;
        for _ in 0..self.nexts.len() {
            if link == 0 {
                break;
            }
            let at = link.saturating_sub(1);
            let next = read(&self.nexts, at);
            let number = from.saturating_add(at / 2);
            if conflict == 0 {
                if let Some(lits) = lists.get(number) {
                    conflict = self.visit(trail, lits, number, link, l)?;
                }
            } else {
                let place = read(&self.places, at);
                self.watch(link, l, place);
            }
            link = next;
        }
        Ok(conflict)
    }
}
