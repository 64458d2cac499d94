//! Tests of literals, clauses, bits and a small system, and of what unit propagation does at one
//! clause.

use clause_core::{
    Bits, Clause, Clauses, Lit, Scan, System, is_false, is_set, is_within, met, scan_clause, set,
};
use std::alloc::{AllocError, Global};
use std::test::Fail;

const A: Lit = Lit {
    var: 0,
    positive: true,
};

const NOT_A: Lit = Lit {
    var: 0,
    positive: false,
};

const B: Lit = Lit {
    var: 2,
    positive: false,
};

const NOT_B: Lit = Lit {
    var: 2,
    positive: true,
};

fn literals_have_signs() -> bool {
    A == Lit::new(0, true)
        && A.negated() == NOT_A
        && B.negated() == NOT_B
        && B.negated().negated().is_same(B)
        && !A.is_same(A.negated())
}

#[test]
fn literals(rt: HostRuntime) {
    assert!(rt; literals_have_signs());
}

fn add_three(clauses: &mut Clauses) -> Result<(), AllocError> {
    clauses.push(&[A, B])?;
    clauses.push(&[])?;
    clauses.push(&[NOT_B])
}

// Whether the clauses are the three above.
fn are_three(clauses: &Clauses) -> bool {
    clauses.len() == 3
        && clauses.get(0) == [A, B].as_slice()
        && clauses.get(1) == [].as_slice()
        && clauses.get(2) == [NOT_B].as_slice()
        && clauses.is_within(3)
        && !clauses.is_within(2)
}

// Whether the first of the three is left where the list is cut behind it.
fn is_first_left(clauses: &mut Clauses) -> bool {
    clauses.truncate(1);
    clauses.len() == 1 && clauses.get(0) == [A, B].as_slice()
}

fn are_added(clauses: &mut Clauses) -> Result<bool, AllocError> {
    add_three(clauses)?;
    Ok(are_three(clauses) && is_first_left(clauses))
}

// Whether a list is empty at first, has what is added, and is cut.
fn are_listed(alloc: Global) -> Result<bool, AllocError> {
    let mut clauses = Clauses::new(alloc);
    let is_empty = clauses.is_empty();
    let listed = are_added(&mut clauses);
    drop(clauses);
    Ok(is_empty && listed?)
}

fn is_kept(alloc: Global) -> Result<bool, AllocError> {
    let clause = Clause::from_vec(Clause::from_slice(alloc, &[B, A])?.into_vec());
    let answer = clause.as_slice() == [B, A].as_slice();
    drop(clause);
    Ok(answer)
}

#[test]
fn lists_of_clauses(rt: HostRuntime) -> Result<(), Fail> {
    assert!(rt; are_listed(rt.alloc())?);
    assert!(rt; is_kept(rt.alloc())?);
    assert!(rt; is_within(&[A], 1) && !is_within(&[A, B], 2));
    Ok(())
}

// Whether the bits are a true one and a false one.
fn are_true_and_false(bits: &Bits) -> bool {
    bits.as_slice() == [true, false].as_slice() && bits.len() == 2 && bits.get(0) && !bits.get(1)
}

// Each row: the signs of the two literals of a clause, and whether the bits meet it.
struct Met {
    first: bool,
    second: bool,
    want: bool,
}

const MET: [Met; 4] = [
    Met {
        first: true,
        second: true,
        want: true,
    },
    Met {
        first: true,
        second: false,
        want: true,
    },
    Met {
        first: false,
        second: true,
        want: false,
    },
    Met {
        first: false,
        second: false,
        want: true,
    },
];

// Whether the bits meet the clause, where none of its literals is past them.
fn is_met(alloc: Global, bits: &Bits, lits: &[Lit]) -> Result<bool, AllocError> {
    if !is_within(lits, bits.len()) {
        return Ok(false);
    }
    let clause = Clause::from_slice(alloc, lits)?;
    let answer = met(&clause, bits);
    drop(clause);
    Ok(answer)
}

fn first_wrong(alloc: Global, bits: &Bits) -> Result<Option<usize>, AllocError> {
    for (k, row) in MET.iter().enumerate() {
        let lits = [Lit::new(0, row.first), Lit::new(1, row.second)];
        if is_met(alloc, bits, &lits)? != row.want {
            return Ok(Some(k));
        }
    }
    Ok(None)
}

fn are_met_by(alloc: Global, bits: &Bits) -> Result<bool, AllocError> {
    let no_row = first_wrong(alloc, bits)?.is_none();
    Ok(are_true_and_false(bits) && no_row && !is_met(alloc, bits, &[])?)
}

fn are_met(alloc: Global) -> Result<bool, AllocError> {
    let bits = Bits::from_vec(Bits::from_slice(alloc, &[true, false])?.into_vec());
    let answer = are_met_by(alloc, &bits);
    drop(bits);
    answer
}

#[test]
fn clauses_met_by_bits(rt: HostRuntime) -> Result<(), Fail> {
    assert!(rt; are_met(rt.alloc())?);
    Ok(())
}

fn one_clause(alloc: Global, lits: &[Lit]) -> Result<Clauses, AllocError> {
    let mut clauses = Clauses::new(alloc);
    clauses.push(lits)?;
    Ok(clauses)
}

// The system of one bit, false at first, bad where it is true, and with one clause of steps.
fn system_of(alloc: Global, init: Clauses, step: Clauses) -> Result<System, AllocError> {
    if init.is_within(2) && step.is_within(2) {
        System::plain(alloc, 1, 2, init, step, &[A])
    } else {
        Err(AllocError)
    }
}

fn system(alloc: Global) -> Result<System, AllocError> {
    let init = one_clause(alloc, &[NOT_A])?;
    let step = one_clause(alloc, &[A, Lit::new(1, true)])?;
    system_of(alloc, init, step)
}

fn has_the_sizes(system: &System) -> bool {
    system.state_bits() == 1
        && system.all_bits() == 2
        && system.init().len() == 1
        && system.step().len() == 1
        && system.fair().len() == 0
        && system.defs().len() == 0
}

fn has_the_states(system: &System) -> bool {
    let bad = system.bad();
    let good = system.good();
    bad.len() == 1
        && good.len() == 1
        && bad.get(0) == [A].as_slice()
        && good.get(0) == [NOT_A].as_slice()
}

fn has_its_parts(alloc: Global) -> Result<bool, AllocError> {
    let system = system(alloc)?;
    let sizes = has_the_sizes(&system);
    let states = has_the_states(&system);
    drop(system);
    Ok(sizes && states)
}

#[test]
fn a_system_of_one_bit(rt: HostRuntime) -> Result<(), Fail> {
    assert!(rt; has_its_parts(rt.alloc())?);
    Ok(())
}

// Below, variable 0 is true, variable 1 is false, and variables 2 and 3 are unset.

const YES: Lit = Lit {
    var: 0,
    positive: true,
};

const NOT_YES: Lit = Lit {
    var: 0,
    positive: false,
};

const NO: Lit = Lit {
    var: 1,
    positive: true,
};

const FREE: Lit = Lit {
    var: 2,
    positive: false,
};

const NOT_FREE: Lit = Lit {
    var: 2,
    positive: true,
};

const OTHER: Lit = Lit {
    var: 3,
    positive: true,
};

fn values() -> [u8; 4] {
    let mut values = [0, 0, 0, 0];
    set(&mut values, YES);
    set(&mut values, NO.negated());
    values
}

fn are_set(values: &[u8; 4]) -> bool {
    is_set(values, YES)
        && !is_false(values, YES)
        && is_false(values, NO)
        && !is_set(values, NO)
        && !is_false(values, FREE)
        && !is_set(values, FREE)
}

// Each row: the two literals of a clause, and what is found of it.
struct Scanned {
    first: Lit,
    second: Lit,
    want: Scan,
}

const SCANNED: [Scanned; 6] = [
    Scanned {
        first: NO,
        second: NOT_YES,
        want: Scan::False,
    },
    Scanned {
        first: NO,
        second: FREE,
        want: Scan::UnitOn(FREE),
    },
    Scanned {
        first: FREE,
        second: FREE,
        want: Scan::UnitOn(FREE),
    },
    Scanned {
        first: FREE,
        second: OTHER,
        want: Scan::Rest,
    },
    Scanned {
        first: FREE,
        second: NOT_FREE,
        want: Scan::Rest,
    },
    Scanned {
        first: FREE,
        second: YES,
        want: Scan::Rest,
    },
];

fn is_scanned(values: &[u8; 4], row: &Scanned) -> bool {
    let lits = [row.first, row.second];
    is_within(&lits, 4) && scan_clause(values, &lits) == row.want
}

fn first_wrong_scan(values: &[u8; 4]) -> Option<usize> {
    for (k, row) in SCANNED.iter().enumerate() {
        if !is_scanned(values, row) {
            return Some(k);
        }
    }
    None
}

#[test]
fn scans_of_clauses(rt: HostRuntime) {
    let values = values();
    assert!(rt; are_set(&values));
    assert!(rt; scan_clause(&values, &[]) == Scan::False);
    assert_eq!(rt; first_wrong_scan(&values), None);
}
