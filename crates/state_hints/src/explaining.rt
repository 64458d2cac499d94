//! Which state bits of a step, or of a bad state, its clauses lead to what is asked for by: one walk back over the
//! clauses, in which those of what a variable is made of come before those that use it. What is found is a hint:
//! nothing is claimed of it.

use clause_core::{Clauses, Lit};
use std::alloc::{AllocError, Global};

// The variables that are to be explained, and those that are.
#[derive(Drop)]
pub struct Marks {
    asked: Vec<bool>,
    done: Vec<bool>,
}

impl Marks {
    // Whether the variable is asked for; past the end none is.
    pub(crate) fn is_asked(&self, var: usize) -> bool {
        is_marked(&self.asked, var)
    }

    // Asks for the variable no more.
    pub(crate) fn give_up(&mut self, var: usize) {
        if var < self.asked.len() {
            self.asked[var] = false;
        }
    }
}

// No mark for any of so many variables.
pub(crate) fn no_marks(alloc: Global, count: usize) -> Result<Marks, AllocError> {
    let asked = vec![in alloc; false; count]?;
    let done = vec![in alloc; false; count]?;
    Ok(Marks { asked, done })
}

// Whether the mark stands; past the end none does.
pub(crate) fn is_marked(marks: &[bool], var: usize) -> bool {
    match marks.get(var) {
        Some(mark) => *mark,
        None => false,
    }
}

// Sets the mark, if there is one.
fn mark(marks: &mut Vec<bool>, var: usize) {
    if var < marks.len() {
        marks[var] = true;
    }
}

// Asks for the variable.
pub(crate) fn ask_for(marks: &mut Marks, var: usize) {
    mark(&mut marks.asked, var);
}

// Whether the values make the literal true; past their end they make none true.
pub(crate) fn is_true(values: &[bool], l: Lit) -> bool {
    match values.get(l.var) {
        Some(value) => *value == l.positive,
        None => false,
    }
}

// Whether the variable stands above the other: next bits, which are the second `bits` variables, above all others, and
// else by number.
fn is_above(bits: usize, var: usize, other: usize) -> bool {
    let end = bits.saturating_add(bits);
    let is_next = bits <= var && var < end;
    let is_other_next = bits <= other && other < end;
    if is_next == is_other_next {
        return other < var;
    }
    is_next
}

// The literal of the highest variable.
pub(crate) fn top_of(bits: usize, clause: &[Lit]) -> Option<Lit> {
    let mut top: Option<Lit> = None;
    'literals: for l in clause {
        match top {
            None => top = Some(*l),
            Some(high) => {
                if is_above(bits, l.var, high.var) {
                    top = Some(*l);
                }
            }
        }
    }
    top
}

// Whether the values make no literal true but that one.
pub(crate) fn is_reason(values: &[bool], clause: &[Lit], top: Lit) -> bool {
    'literals: for l in clause {
        if is_true(values, *l) && !l.is_same(top) {
            return false;
        }
    }
    is_true(values, top)
}

// Asks for all variables of the clause.
fn ask_for_all(marks: &mut Marks, clause: &[Lit]) {
    'literals: for l in clause {
        ask_for(marks, l.var);
    }
}

// Where the clause is why its highest variable, which is asked for, has its value, the others are asked for.
fn explain(values: &[bool], bits: usize, clause: &[Lit], marks: &mut Marks) {
    if let Some(top) = top_of(bits, clause) {
        let is_open = is_marked(&marks.asked, top.var) && !is_marked(&marks.done, top.var);
        if is_open && is_reason(values, clause, top) {
            mark(&mut marks.done, top.var);
            ask_for_all(marks, clause);
        }
    }
}

// Explains what is asked for, by each clause before this place, the last one first.
pub(crate) fn explain_before(
    values: &[bool],
    bits: usize,
    clauses: &Clauses,
    end: usize,
    marks: &mut Marks,
) {
    'clauses: for k in (0..clauses.len()).rev() {
        if k < end {
            explain(values, bits, clauses.get(k), marks);
        }
    }
}

// The place of the clauses from which on none has a new variable past the next bits: what is asked of the state. The
// clauses before say what these variables are.
pub(crate) fn conditions_from(bits: usize, clauses: &Clauses) -> usize {
    let mut high = bits.saturating_add(bits);
    let mut from = 0;
    'clauses: for k in 0..clauses.len() {
        if let Some(top) = top_of(bits, clauses.get(k)) {
            if high <= top.var {
                high = top.var.saturating_add(1);
                from = k;
            }
        }
    }
    from
}

// Asks for the first true literal of the clause, where no true one is asked for.
fn ask_for_one(values: &[bool], clause: &[Lit], marks: &mut Marks) {
    let mut first: Option<Lit> = None;
    'literals: for l in clause {
        if is_true(values, *l) {
            if is_marked(&marks.asked, l.var) {
                return;
            }
            if first.is_none() {
                first = Some(*l);
            }
        }
    }
    if let Some(l) = first {
        ask_for(marks, l.var);
    }
}

// Asks for a true literal of each condition, and explains these.
pub(crate) fn explain_conditions(
    values: &[bool],
    bits: usize,
    clauses: &Clauses,
    marks: &mut Marks,
) {
    let from = conditions_from(bits, clauses);
    'clauses: for k in (0..clauses.len()).rev() {
        if from <= k {
            ask_for_one(values, clauses.get(k), marks);
        }
    }
    explain_before(values, bits, clauses, clauses.len(), marks);
}

// The clause that says that one of the marked state bits has another value.
pub(crate) fn clause_of(
    alloc: Global,
    values: &[bool],
    bits: usize,
    marks: &Marks,
) -> Result<Vec<Lit>, AllocError> {
    let mut clause = Vec::new(alloc);
    'bits: for var in 0..bits {
        if is_marked(&marks.asked, var) {
            let positive = !is_true(
                values,
                Lit {
                    var,
                    positive: true,
                },
            );
            clause.push(Lit { var, positive })?;
        }
    }
    Ok(clause)
}
