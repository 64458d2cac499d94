//! The propagation queue: literals of the trail whose watch lists are still to be visited, and unit
//! clauses.

ghost use Rattle.std.specs.Prelude.{◌+◌, ◌^◌, ◌≡◌, ◌<◌, ℕ, IfOk, length, slice_index, MatchOption, ◌⊎◌};
ghost use Rattle.sat_prop.specs.Moves.{Extends, FalseClause};
ghost use Rattle.sat_prop.specs.Roots.{ShortSwept};
ghost use Rattle.sat_prop.specs.States.{IsBased, IsWatched, IsPropagated, KeepsWatches};
ghost use Rattle.sat_prop.specs.Watches.{ShortDone};

use crate::lists::WatchLists;
use crate::rows::Rows;
use crate::trail::Trail;
use crate::visit::visit_list;
use clause_core::{Clauses, Lit, Scan, scan_clause};
use std::alloc::AllocError;

// Visits the watch lists of the literals of the trail from `head` on.
pub fn run_queue(
    clauses: &Clauses,
    trail: &mut Trail,
    rows: &mut Rows,
    lists: &mut WatchLists,
    head: &mut usize,
) -> Result<Option<usize>, AllocError>
    requires watched { IsWatched clauses.now trail.old rows.old lists.old }
    requires propagated { IsPropagated clauses.now trail.old rows.old head.old }
    ensures watched { IsWatched clauses.now trail.new rows.new lists.new }
    ensures propagated { IsPropagated clauses.now trail.new rows.new head.new }
    ensures extends { Extends trail.old trail.new }
    ensures kept { KeepsWatches clauses.now rows.old rows.new trail.old }
    ensures says { IfOk result (λ o. MatchOption o (head.new ≡ length trail.new.literals.items) (FalseClause clauses.now trail.new)) }
{
    'queue: while *head < trail.literals.len() {
        let f = trail.literals[*head].negated();
        match visit_list(clauses, trail, rows, lists, f)? {
            Some(k) => return Ok(Some(k)),
            None => *head += 1,
        }
    }
    Ok(None)
}

// The number of entries that were swept, after entry j with clause k: one more, if all before it were swept and k is the
// number of a clause.
fn swept_to(swept: usize, j: usize, k: usize, clauses: usize) -> usize
    requires { j + 1 < 2 ^ 64 }
    ensures { (result ≡ swept) ⊎ ((swept ≡ j) × (k < clauses) × (result ≡ j + 1)) }
{
    if swept == j && k < clauses {
        j + 1
    } else {
        swept
    }
}

// Propagates unit clauses: those of their list from entry `swept` on, as the others were propagated before.
pub fn sweep_short(
    clauses: &Clauses,
    trail: &mut Trail,
    short: &[usize],
    swept: &mut usize,
) -> Result<Option<usize>, AllocError>
    requires based { IsBased clauses.now trail.old }
    requires swept { ShortSwept clauses.now short.now swept.old trail.old.literals.items }
    ensures based { IsBased clauses.now trail.new }
    ensures extends { Extends trail.old trail.new }
    ensures swept { ShortSwept clauses.now short.now swept.new trail.new.literals.items }
    ensures says { IfOk result (λ o. MatchOption o ((j : ℕ) → j < length short.now → ShortDone clauses.now trail.new.literals.items (slice_index short.now j)) (FalseClause clauses.now trail.new)) }
{
    let from = *swept;
    'short: for j in from..short.len() {
        let k = short[j];
        if k < clauses.len() {
            match scan_clause(&trail.values, clauses.get(k)) {
                Scan::False => return Ok(Some(k)),
                Scan::UnitOn(l) => trail.imply(l, k + 1)?,
                Scan::Rest => {}
            }
        }
        *swept = swept_to(*swept, j, k, clauses.len());
    }
    Ok(None)
}
