//! The two watched literals of a clause, and what is to be done when one becomes false.

ghost use Rattle.std.specs.Prelude.{◌+◌, ◌-◌, ◌*◌, ◌^◌, [], ◌∷◌, ◌≡◌, ◌<◌, ◌≤◌, ℕ, ◌++◌, true, false, IfOk, OnOk, OnErr, length, take, All, List, Contains, map, ⊤, slice_set, slice_index_or, MatchOption, ◌⊎◌};
ghost use Rattle.clause_core.specs.Values.{holds};
ghost use Rattle.clause_core.specs.Literals.{Within, negate};
ghost use Rattle.sat_prop.specs.Words.{literal_of};
ghost use Rattle.sat_prop.specs.Packing.{pair_of};
ghost use Rattle.sat_prop.specs.Watches.{FindingSays, OtherSays, cell};

use crate::words::literal;
use clause_core::{Lit, is_false, is_set};

// The two watched literals of a clause. A clause that has no two different literals gets two that are the same.
#[derive(Clone, Copy, Drop)]
pub struct Watches {
    pub a: Lit,
    pub b: Lit,
}

// What is to be done at a clause when one of its watches became false.
#[derive(Clone, Copy, Drop)]
pub enum Finding {
    // Nothing: the other watch is true.
    Hit,
    // This literal, which is not false, is to be watched, and where it stands in the row.
    Move(Lit, usize),
    // The other watch is to be set.
    Force,
    // The clause is false.
    False,
}

// Looks at the row of a clause whose watch beside `other` became false.
pub fn look_at(values: &[u8], row: &[u32], other: Lit) -> Finding
    requires within { Within (length values.now) (map literal_of row.now) }
    requires has { Contains (map literal_of row.now) other }
    requires off { All (λ m. (m ≡ other → ⊥) → holds values.now (negate m) ≡ true) (take 2 (map literal_of row.now)) }
    ensures { FindingSays (holds values.now) (map literal_of row.now) other result }
{
    if is_set(values, other) {
        return Finding::Hit;
    }
    for j in 2..row.len() {
        let l = literal(row[j]);
        if !is_false(values, l) {
            if !l.is_same(other) {
                return Finding::Move(l, j);
            }
        }
    }
    if is_false(values, other) {
        Finding::False
    } else {
        Finding::Force
    }
}

// The number of the list of a literal.
pub fn cell_of(l: Lit) -> usize
    requires { 2 * l.var + 1 < 2 ^ 64 }
    ensures { result ≡ cell l }
{
    if l.positive { 2 * l.var + 1 } else { 2 * l.var }
}

// The word of the other watch of a row, where `fallen` is that of one of two.
pub fn other_of(row: &[u32], fallen: u32) -> Option<u32>
    ensures says { let h = pair_of (map literal_of row.now) in MatchOption result (OtherSays h (literal_of fallen) None) (λ w. OtherSays h (literal_of fallen) (Some (literal_of w))) }
    ensures long { MatchOption result ⊤ (λ _. 1 < length row.now) }
{
    if row.len() < 2 {
        return None;
    }
    if row[0] == row[1] {
        None
    } else if row[0] == fallen {
        Some(row[1])
    } else if row[1] == fallen {
        Some(row[0])
    } else {
        None
    }
}
