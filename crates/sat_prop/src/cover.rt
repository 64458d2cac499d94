//! Backward subsumption: a learned clause that a later one covers needs no watches (Eén and Biere
//! 2005).

ghost use Rattle.std.specs.Prelude.{◌≡◌, ◌<◌, [], MatchBool, length, slice_index_or, slice_set};
ghost use Rattle.sat_prop.specs.Trails.{among};
ghost use Rattle.sat_prop.specs.Covers.{covers, Retired};

use crate::rows::Rows;
use clause_core::{Clauses, Lit};
use std::alloc::{AllocError, Global};

// How many of the clauses learned last are tried: at least this many, and at most twice as many.
const WINDOW: usize = 500;

// A clause that a later one may cover: its number, how many literals it has (0 for one that was retired), and bits
// that include those of each part of it.
#[derive(Clone, Copy, Drop)]
pub struct Candidate {
    clause: usize,
    size: usize,
    bits: u64,
}

// The clauses that were learned last. Nothing is promised of them: each is tested before its row is emptied.
#[derive(Drop)]
pub struct Recent {
    candidates: Vec<Candidate>,
}

// A signature: one bit for each literal, which two literals may share.
fn bits_of(c: &[Lit]) -> u64 {
    let mut bits: u64 = 0;
    for x in c {
        let number = (x.var as u64)
            .wrapping_mul(2)
            .wrapping_add(x.positive as u64);
        let place = number.wrapping_mul(0x9E37_79B9_7F4A_7C15) >> 58;
        bits = bits | (1 as u64).rotate_left(place as u32);
    }
    bits
}

impl Recent {
    // No clauses.
    pub fn new(alloc: Global) -> Recent {
        Recent {
            candidates: Vec::new(alloc),
        }
    }

    // Notes clause number k, which comes last.
    pub fn note(&mut self, c: &[Lit], k: usize) -> Result<(), AllocError> {
        if self.candidates.len() >= 2 * WINDOW {
            self.forget();
        }
        let candidate = Candidate {
            clause: k,
            size: c.len(),
            bits: bits_of(c),
        };
        self.candidates.push(candidate)?;
        Ok(())
    }

    // Empties the rows of the noted clauses that the last clause covers.
    pub fn retire_covered(&mut self, clauses: &Clauses, rows: &mut Rows)
        requires { length rows.old ≡ length clauses.now }
        ensures { Retired clauses.now rows.old rows.new }
    {
        retire_candidates(clauses, rows, &mut self.candidates)
    }

    // Drops the clauses that were retired, and of the others the oldest.
    fn forget(&mut self) {
        self.candidates.retain(|x| x.size > 0);
        let n = self.candidates.len();
        if n > WINDOW {
            self.candidates.copy_within(n - WINDOW.., 0);
            self.candidates.truncate(WINDOW);
        }
    }
}

// Whether the literal is one of the clause's.
fn has(d: &[Lit], l: Lit) -> bool
    ensures { result ≡ among d.now l }
{
    for x in d {
        if l.is_same(*x) {
            return true;
        }
    }
    false
}

// Whether each literal of c is one of d's.
fn is_part(c: &[Lit], d: &[Lit]) -> bool
    ensures { result ≡ covers c.now d.now }
{
    for x in c {
        if !has(d, *x) {
            return false;
        }
    }
    true
}

// Empties row number k where a later clause covers its clause, and says whether it does.
fn retire_if_covered(clauses: &Clauses, rows: &mut Rows, k: usize, later: usize) -> bool
    requires rows_len { length rows.old ≡ length clauses.now }
    requires later { k < later }
    requires later_in { later < length clauses.now }
    ensures says { result ≡ covers (slice_index_or clauses.now later []) (slice_index_or clauses.now k []) }
    ensures rows { MatchBool result (rows.new ≡ slice_set rows.old k []) (rows.new ≡ rows.old) }
    ensures retired { Retired clauses.now rows.old rows.new }
{
    if is_part(clauses.get(later), clauses.get(k)) {
        rows.retire(k);
        true
    } else {
        false
    }
}

// Empties the rows of the candidates that the last clause covers.
fn retire_candidates(clauses: &Clauses, rows: &mut Rows, candidates: &mut [Candidate])
    requires { length rows.old ≡ length clauses.now }
    ensures { Retired clauses.now rows.old rows.new }
{
    let n = clauses.len();
    if n == 0 {
        return;
    }
    let last = clauses.get(n - 1);
    let bits = bits_of(last);
    'candidates: for i in 0..candidates.len() {
        let x = candidates[i];
        if x.size >= last.len() && x.bits & bits == bits && x.clause < n - 1 {
            if retire_if_covered(clauses, rows, x.clause, n - 1) {
                candidates[i].size = 0;
            }
        }
    }
}
