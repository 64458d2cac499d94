//! What a look for hints has set, in its order.

use clause_core::Lit;
use std::alloc::{AllocError, Global};

#[derive(Drop)]
pub(crate) struct Trail {
    // 0 for a variable that is not set, 1 for one that is true, 2 for one that is false.
    values: Vec<u8>,
    // The literals that are set, in their order, and the clause of each, plus one.
    lits: Vec<Lit>,
    reasons: Vec<usize>,
}

impl Trail {
    pub(crate) fn new(alloc: Global) -> Trail {
        Trail {
            values: Vec::new(alloc),
            lits: Vec::new(alloc),
            reasons: Vec::new(alloc),
        }
    }

    pub(crate) fn make_room(&mut self, vars: usize) -> Result<(), AllocError> {
        self.values.resize(vars, 0)
    }

    // How many variables can be set.
    pub(crate) fn vars(&self) -> usize {
        self.values.len()
    }

    // How many literals are set.
    pub(crate) fn len(&self) -> usize {
        self.lits.len()
    }

    // The literal that was set at this place, if any.
    pub(crate) fn lit(&self, at: usize) -> Option<Lit> {
        match self.lits.get(at) {
            Some(l) => Some(*l),
            None => None,
        }
    }

    // The number of the clause that set the literal at this place, if one did.
    pub(crate) fn reason(&self, at: usize) -> Option<usize> {
        match self.reasons.get(at) {
            None => None,
            Some(r) => { if *r == 0 { None } else { Some(*r - 1) } }
        }
    }

    // 0 for a literal that is not set, 1 for one that is true, 2 for one that is false.
    pub(crate) fn state(&self, l: Lit) -> u8 {
        match self.values.get(l.var) {
            None => 0,
            Some(v) => {
                if *v == 0 {
                    0
                } else if (*v == 1) == l.positive {
                    1
                } else {
                    2
                }
            }
        }
    }

    // The first literal that is not false and not that other one, if any.
    pub(crate) fn free_place(&self, c: &[Lit], other: Lit) -> Option<usize> {
        for (p, l) in c.iter().enumerate() {
            if !l.is_same(other) && self.state(*l) != 2 {
                return Some(p);
            }
        }
        None
    }

    // Sets a literal. The reason is the number of the clause that asks for it, plus one, or 0.
    pub(crate) fn set(&mut self, l: Lit, reason: usize) -> Result<(), AllocError> {
        self.lits.push(l)?;
        self.reasons.push(reason)?;
        if l.var < self.values.len() {
            self.values[l.var] = if l.positive { 1 } else { 2 };
        }
        Ok(())
    }

    // Leaves nothing set.
    pub(crate) fn clear(&mut self) {
        for l in &self.lits {
            if l.var < self.values.len() {
                self.values[l.var] = 0;
            }
        }
        self.lits.clear();
        self.reasons.clear();
    }
}
