//! Tests that both propagators agree: on values after propagation, after a decision, and after it
//! is undone.

ghost use Rattle.std.specs.Prelude.{◌≡◌, ◌<◌, false, IfOk, IsTrue, length};
ghost use Rattle.clause_core.specs.Literals.{negate};
ghost use Rattle.sat_prop.specs.Trails.{among};

use clause_core::{Lit, is_false, is_set, is_within};
use sat_prop::{Propagator, Scan, Trail, Watched};
use std::alloc::{AllocError, Global};
use std::test::Fail;

// Clauses over c, a, b, in this order, a decision, and the values after propagation of the clauses; then, if the
// decision was unset, those after it, and those after it is taken back. A small letter is a variable, a capital one its
// negation, and a dot ends a clause; 0 stands for unset, 1 for true, 2 for false, and 9 for a conflict.
struct Row(&'static str, u8, &'static str);

const ROWS: [Row; 10] = [
    Row("", b'a', "000010000"),
    Row(".", b'a', "9"),
    Row("a.A.", b'b', "9"),
    Row("aa.AB.", b'c', "012112012"),
    Row("a.Ab.Bc.", b'a', "111"),
    Row("Ab.Bc.", b'a', "000111000"),
    Row("Ab.BA.", b'a', "0009000"),
    Row("abc.aBc.", b'A', "000020000"),
    Row("abc.Cb.", b'B', "000212000"),
    Row("b.b.aB.", b'C', "011211011"),
];

fn literal(letter: u8) -> Lit {
    Lit::new(letter as usize % 32 % 3, letter >= b'a')
}

fn is_unset<P: Propagator>(p: &P, l: Lit) -> bool
    ensures in_range { IsTrue result → l.var < length (P.trail p.now).values.items }
    ensures off { IsTrue result → among (P.trail p.now).literals.items l ≡ false }
    ensures off_too { IsTrue result → among (P.trail p.now).literals.items (negate l) ≡ false }
{
    let trail = p.assignment();
    if l.var >= trail.values.as_slice().len() {
        return false;
    }
    !is_set(&trail.values, l) && !is_false(&trail.values, l)
}

// Notes the values, as digits.
fn note(seen: &mut Vec<u8>, trail: &Trail) -> Result<(), AllocError> {
    for x in &trail.values {
        seen.push(b'0'.wrapping_add(*x))?;
    }
    Ok(())
}

// Adds the clauses, and tells whether all of them could be.
fn add_all<P: Propagator>(alloc: Global, p: &mut P, text: &str) -> Result<bool, AllocError>
    requires { length (P.trail p.old).level_starts.items ≡ 0 }
    ensures { length (P.trail p.new).level_starts.items ≡ 0 }
{
    let mut clause = Vec::new(alloc);
    for letter in text.as_bytes() {
        if *letter == b'.' {
            if !is_within(&clause, p.assignment().values.len()) {
                return Ok(false);
            }
            p.add(&clause)?;
            clause.clear();
        } else {
            clause.push(literal(*letter))?;
        }
    }
    Ok(true)
}

// Propagates, and notes what came of it; whether there was no conflict.
fn note_rest<P: Propagator>(p: &mut P, seen: &mut Vec<u8>) -> Result<bool, AllocError>
    ensures { IfOk result (λ calm. IsTrue calm → P.rested p.new) }
{
    match p.propagate()? {
        Some(_) => {
            seen.push(b'9')?;
            Ok(false)
        }
        None => {
            note(seen, p.assignment())?;
            Ok(true)
        }
    }
}

// Takes the decision, and notes the values after it and after it is taken back; whether that could be.
fn note_decision<P: Propagator>(
    p: &mut P,
    decision: Lit,
    seen: &mut Vec<u8>,
) -> Result<bool, AllocError>
    requires rested { P.rested p.old }
    requires in_range { decision.var < length (P.trail p.old).values.items }
    requires off { among (P.trail p.old).literals.items decision ≡ false }
    requires off_too { among (P.trail p.old).literals.items (negate decision) ≡ false }
{
    p.decide(decision)?;
    let _ = note_rest(p, seen)?;
    if p.assignment().level_starts.len() == 0 {
        return Ok(false);
    }
    p.undo(0);
    note(seen, p.assignment())?;
    Ok(true)
}

// Notes what comes of the clauses and of the decision; whether that could be.
fn note_all<P: Propagator>(
    p: &mut P,
    decision: Lit,
    seen: &mut Vec<u8>,
) -> Result<bool, AllocError> {
    if !note_rest(p, seen)? {
        return Ok(true);
    }
    if !is_unset(p, decision) {
        return Ok(true);
    }
    note_decision(p, decision, seen)
}

// Whether these values are seen.
fn is_seen<P: Propagator>(
    alloc: Global,
    p: &mut P,
    decision: Lit,
    want: &str,
) -> Result<bool, AllocError> {
    let mut seen = Vec::new(alloc);
    let noted = note_all(p, decision, &mut seen)?;
    Ok(noted && seen.as_slice() == want.as_bytes())
}

// Whether the row's values are seen.
fn is_row<P: Propagator + Drop>(alloc: Global, row: &Row) -> Result<bool, AllocError> {
    let mut p = P::new(alloc, 3)?;
    let added = add_all(alloc, &mut p, row.0)?;
    Ok(added && is_seen(alloc, &mut p, literal(row.1), row.2)?)
}

fn wrong_row<P: Propagator + Drop>(alloc: Global) -> Result<Option<usize>, AllocError> {
    for (k, row) in ROWS.iter().enumerate() {
        if !is_row::<P>(alloc, row)? {
            return Ok(Some(k));
        }
    }
    Ok(None)
}

#[test]
fn both_propagators_imply_the_same(rt: HostRuntime) -> Result<(), Fail> {
    assert_eq!(rt; wrong_row::<Scan>(rt.alloc())?, None);
    assert_eq!(rt; wrong_row::<Watched>(rt.alloc())?, None);
    Ok(())
}
