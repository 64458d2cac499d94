//! Which of the state bits that a walk back marked can be left out: each in turn is, where the others still lead to what
//! is asked for, whatever the bits that are left out are (ternary simulation: Eén, Mishchenko and Brayton 2011). What is
//! left is a hint: nothing is claimed of it.

use crate::explaining::{
    Marks, ask_for, conditions_from, is_marked, is_reason, is_true, no_marks, top_of,
};
use clause_core::{Clauses, Lit};
use std::alloc::{AllocError, Global};

// How many uses are looked at for one hint, beside as many as there are.
const MOST: usize = 20_000;

// A clause that says why a variable has its value, as long as none of its other variables is lost.
#[derive(Clone, Copy)]
struct Reason {
    // The variable.
    of: usize,
    // How many of the others are lost.
    lost: usize,
}

// That a variable stands in a reason for another.
#[derive(Clone, Copy)]
struct Use {
    // The number of the reason.
    reason: usize,
    // The place behind the variable's use before this one; 0 where this is its first.
    before: usize,
}

// The reasons for what is asked for. A variable is lost where it may have either value.
#[derive(Drop)]
struct Cone {
    reasons: Vec<Reason>,
    uses: Vec<Use>,
    // For each variable the place behind its last use; 0 where it has none.
    last_use: Vec<usize>,
    // For each variable how many of its reasons stand.
    standing: Vec<usize>,
    is_lost: Vec<bool>,
    is_asked: Vec<bool>,
    // How many more uses may be looked at.
    left: usize,
}

// A cone without reasons over so many variables.
fn no_reasons(alloc: Global, count: usize) -> Result<Cone, AllocError> {
    let last_use = vec![in alloc; 0; count]?;
    let standing = vec![in alloc; 0; count]?;
    let is_lost = vec![in alloc; false; count]?;
    let is_asked = vec![in alloc; false; count]?;
    Ok(Cone {
        reasons: Vec::new(alloc),
        uses: Vec::new(alloc),
        last_use,
        standing,
        is_lost,
        is_asked,
        left: MOST,
    })
}

// The number at the place; 0 past the end.
fn number_at(numbers: &[usize], place: usize) -> usize {
    match numbers.get(place) {
        Some(number) => *number,
        None => 0,
    }
}

// Sets the number at the place, if there is one.
fn set_number(numbers: &mut [usize], place: usize, number: usize) {
    if place < numbers.len() {
        numbers[place] = number;
    }
}

// Sets the mark at the place, if there is one.
fn set_mark(marks: &mut [bool], place: usize, mark: bool) {
    if place < marks.len() {
        marks[place] = mark;
    }
}

// Adds a reason for the variable.
fn add_reason(cone: &mut Cone, of: usize) -> Result<(), AllocError> {
    let count = number_at(&cone.standing, of);
    set_number(&mut cone.standing, of, count.saturating_add(1));
    cone.reasons.push(Reason { of, lost: 0 })?;
    Ok(())
}

// Notes that the variable stands in the reason that was added last.
fn add_use(cone: &mut Cone, var: usize) -> Result<(), AllocError> {
    let reason = cone.reasons.len().saturating_sub(1);
    let before = number_at(&cone.last_use, var);
    cone.uses.push(Use { reason, before })?;
    let place = cone.uses.len();
    set_number(&mut cone.last_use, var, place);
    cone.left = cone.left.saturating_add(1);
    Ok(())
}

// Adds the clause as a reason for its highest variable, and asks for the others.
fn add_clause(
    cone: &mut Cone,
    clause: &[Lit],
    top: Lit,
    wide: &mut Marks,
) -> Result<(), AllocError> {
    add_reason(cone, top.var)?;
    for l in clause {
        if l.var != top.var {
            add_use(cone, l.var)?;
            ask_for(wide, l.var);
        }
    }
    Ok(())
}

// Adds the reasons for what is asked for, and for what these stand on, among the clauses before this place.
fn add_reasons(
    cone: &mut Cone,
    values: &[bool],
    bits: usize,
    clauses: &Clauses,
    end: usize,
    wide: &mut Marks,
) -> Result<(), AllocError> {
    'clauses: for k in (0..clauses.len().min(end)).rev() {
        let clause = clauses.get(k);
        if let Some(top) = top_of(bits, clause) {
            if bits <= top.var && wide.is_asked(top.var) && is_reason(values, clause, top) {
                add_clause(cone, clause, top, wide)?;
            }
        }
    }
    Ok(())
}

// Adds a condition, as a variable of its own that is asked for: each of its true literals is a reason for it.
fn add_condition(
    cone: &mut Cone,
    values: &[bool],
    condition: &[Lit],
    own: usize,
    wide: &mut Marks,
) -> Result<(), AllocError> {
    set_mark(&mut cone.is_asked, own, true);
    for l in condition {
        if is_true(values, *l) {
            add_reason(cone, own)?;
            add_use(cone, l.var)?;
            ask_for(wide, l.var);
        }
    }
    Ok(())
}

// The variable is lost. The trail has all that are, in their order.
fn lose(cone: &mut Cone, trail: &mut Vec<usize>, var: usize) -> Result<(), AllocError> {
    if !is_marked(&cone.is_lost, var) {
        set_mark(&mut cone.is_lost, var, true);
        trail.push(var)?;
    }
    Ok(())
}

// One more variable of the reason is lost. Where none of a variable's reasons stands any more, it is lost too.
fn loosen(cone: &mut Cone, trail: &mut Vec<usize>, reason: usize) -> Result<(), AllocError> {
    if reason < cone.reasons.len() {
        let Reason { of, lost } = cone.reasons[reason];
        cone.reasons[reason].lost = lost.saturating_add(1);
        if lost == 0 {
            let count = number_at(&cone.standing, of).saturating_sub(1);
            set_number(&mut cone.standing, of, count);
            if count == 0 {
                lose(cone, trail, of)?;
            }
        }
    }
    Ok(())
}

// One fewer variable of the reason is lost.
fn tighten(cone: &mut Cone, reason: usize) {
    if reason < cone.reasons.len() {
        let Reason { of, lost } = cone.reasons[reason];
        cone.reasons[reason].lost = lost.saturating_sub(1);
        if lost == 1 {
            let count = number_at(&cone.standing, of).saturating_add(1);
            set_number(&mut cone.standing, of, count);
        }
    }
}

// The variable's last use up to this place, which is one behind it; none at 0.
fn use_before(cone: &Cone, place: usize) -> Option<Use> {
    match cone.uses.get(place.checked_sub(1)?) {
        Some(found) => Some(*found),
        None => None,
    }
}

// Loosens each reason in which the variable stands.
fn loosen_all(cone: &mut Cone, trail: &mut Vec<usize>, var: usize) -> Result<(), AllocError> {
    let mut place = number_at(&cone.last_use, var);
    for _use in 0..cone.uses.len() {
        match use_before(cone, place) {
            Some(Use { reason, before }) => {
                loosen(cone, trail, reason)?;
                cone.left = cone.left.saturating_sub(1);
                place = before;
            }
            None => return Ok(()),
        }
    }
    Ok(())
}

// Tightens each reason in which the variable stands.
fn tighten_all(cone: &mut Cone, var: usize) {
    let mut place = number_at(&cone.last_use, var);
    for _use in 0..cone.uses.len() {
        match use_before(cone, place) {
            Some(Use { reason, before }) => {
                tighten(cone, reason);
                place = before;
            }
            None => return,
        }
    }
}

// Loses what stands on the variables of the trail, up to one that is asked for: then its place is the answer.
fn spread(cone: &mut Cone, trail: &mut Vec<usize>) -> Result<Option<usize>, AllocError> {
    for at in 0..cone.is_lost.len() {
        if at >= trail.len() {
            return Ok(None);
        }
        let var = trail[at];
        if is_marked(&cone.is_asked, var) {
            return Ok(Some(at));
        }
        loosen_all(cone, trail, var)?;
    }
    Ok(None)
}

// Takes back what was lost, where the variables of the trail before this place were spread.
fn restore(cone: &mut Cone, trail: &[usize], spread: usize) {
    for at in (0..trail.len()).rev() {
        let var = trail[at];
        if at < spread {
            tighten_all(cone, var);
        }
        set_mark(&mut cone.is_lost, var, false);
    }
}

// Whether all that is asked for stands without the state bits that are not marked.
fn is_enough(
    alloc: Global,
    cone: &mut Cone,
    bits: usize,
    marks: &Marks,
) -> Result<bool, AllocError> {
    let mut trail = Vec::new(alloc);
    for var in 0..bits {
        if !marks.is_asked(var) {
            lose(cone, &mut trail, var)?;
        }
    }
    let found = spread(cone, &mut trail)?;
    Ok(found.is_none())
}

// Whether the state bit can be left out; then it is lost.
fn is_idle(cone: &mut Cone, trail: &mut Vec<usize>, var: usize) -> Result<bool, AllocError> {
    trail.clear();
    lose(cone, trail, var)?;
    match spread(cone, trail)? {
        None => Ok(true),
        Some(at) => {
            restore(cone, trail, at);
            Ok(false)
        }
    }
}

// Takes the marks of those state bits that can be left out, one after another, as long as uses may be looked at.
fn leave_out(
    alloc: Global,
    cone: &mut Cone,
    bits: usize,
    marks: &mut Marks,
) -> Result<(), AllocError> {
    if !is_enough(alloc, cone, bits, marks)? {
        return Ok(());
    }
    let mut trail = Vec::new(alloc);
    for var in 0..bits {
        if marks.is_asked(var) && cone.left > 0 {
            if is_idle(cone, &mut trail, var)? {
                marks.give_up(var);
            }
        }
    }
    Ok(())
}

/// Of the state bits that are marked, takes the marks of those without which the others still lead to the next bits of
/// this clause.
pub(crate) fn reduce_step(
    alloc: Global,
    values: &[bool],
    bits: usize,
    clauses: &Clauses,
    clause: &[Lit],
    marks: &mut Marks,
) -> Result<(), AllocError> {
    let mut cone = no_reasons(alloc, values.len())?;
    let mut wide = no_marks(alloc, values.len())?;
    for l in clause {
        let next = bits.saturating_add(l.var);
        set_mark(&mut cone.is_asked, next, true);
        ask_for(&mut wide, next);
    }
    add_reasons(&mut cone, values, bits, clauses, clauses.len(), &mut wide)?;
    leave_out(alloc, &mut cone, bits, marks)
}

/// The same for the conditions among these clauses.
pub(crate) fn reduce_conditions(
    alloc: Global,
    values: &[bool],
    bits: usize,
    clauses: &Clauses,
    marks: &mut Marks,
) -> Result<(), AllocError> {
    let from = conditions_from(bits, clauses);
    let count = values.len().saturating_add(clauses.len());
    let mut cone = no_reasons(alloc, count)?;
    let mut wide = no_marks(alloc, values.len())?;
    'conditions: for k in from..clauses.len() {
        let own = values.len().saturating_add(k - from);
        add_condition(&mut cone, values, clauses.get(k), own, &mut wide)?;
    }
    add_reasons(&mut cone, values, bits, clauses, from, &mut wide)?;
    leave_out(alloc, &mut cone, bits, marks)
}
