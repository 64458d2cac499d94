//! Visits the clauses that watch a literal that became false (Moskewicz and others 2001). Each
//! finds another watch, forces a literal, or is a conflict.

ghost use Rattle.std.specs.Prelude.{[], ◌≡◌, ℕ, IfOk, MatchOption};
ghost use Rattle.sat_prop.specs.Moves.{Extends, FalseClause};
ghost use Rattle.sat_prop.specs.Packing.{pairs};
ghost use Rattle.sat_prop.specs.Sifted.{put_back};
ghost use Rattle.sat_prop.specs.States.{IsWatched, IsFallen, KeepsWatches};
ghost use Rattle.sat_prop.specs.Watches.{DoneWith};

use crate::lists::{PackedWatcher, Sieve, WatchLists, Watcher};
use crate::rows::Rows;
use crate::trail::Trail;
use crate::watch::{Finding, cell_of, look_at, other_of};
use crate::words::{literal, word_of};
use clause_core::{Clauses, Lit, is_set};
use std::alloc::AllocError;

// Visits the clauses still to be read in the watch list of f, a literal that became false.
fn visit_entries(
    clauses: &Clauses,
    trail: &mut Trail,
    rows: &mut Rows,
    lists: &mut WatchLists,
    sieve: &mut Sieve,
    f: Lit,
) -> Result<Option<usize>, AllocError>
    requires watched { IsWatched clauses.now trail.old rows.old (put_back lists.old f sieve.old) }
    requires start { sieve.old.kept ≡ [] }
    requires fallen { IsFallen trail.old f }
    ensures watched { IsWatched clauses.now trail.new rows.new (put_back lists.new f sieve.new) }
    ensures extends { Extends trail.old trail.new }
    ensures kept { KeepsWatches clauses.now rows.old rows.new trail.old }
    ensures says { IfOk result (λ o. MatchOption o ((k : ℕ) → DoneWith clauses.now (pairs rows.new) trail.new.literals.items f k) (FalseClause clauses.now trail.new)) }
{
    let fallen = word_of(f);
    'visit: while let Some(slot) = sieve.front() {
        if is_set(&trail.values, literal(slot.blocker)) {
            sieve.keep(slot);
            continue;
        }
        let k = slot.clause as usize;
        let Some(word) = other_of(rows.get(k), fallen) else {
            sieve.skip();
            continue;
        };
        let other = literal(word);
        let seen = PackedWatcher {
            clause: slot.clause,
            blocker: word,
        };
        match look_at(&trail.values, rows.get(k), other) {
            Finding::Hit => sieve.keep(seen),
            Finding::Move(g, j) => {
                lists.push(
                    cell_of(g),
                    Watcher {
                        clause: k,
                        blocker: other,
                    },
                )?;
                rows.rewatch(k, j, other, f);
                sieve.skip();
            }
            Finding::Force => {
                trail.imply(other, k + 1)?;
                sieve.keep(seen);
            }
            Finding::False => return Ok(Some(k)),
        }
    }
    Ok(None)
}

// Visits each clause that watches f, a literal that became false.
pub fn visit_list(
    clauses: &Clauses,
    trail: &mut Trail,
    rows: &mut Rows,
    lists: &mut WatchLists,
    f: Lit,
) -> Result<Option<usize>, AllocError>
    requires watched { IsWatched clauses.now trail.old rows.old lists.old }
    requires fallen { IsFallen trail.old f }
    ensures watched { IsWatched clauses.now trail.new rows.new lists.new }
    ensures extends { Extends trail.old trail.new }
    ensures kept { KeepsWatches clauses.now rows.old rows.new trail.old }
    ensures says { IfOk result (λ o. MatchOption o ((k : ℕ) → DoneWith clauses.now (pairs rows.new) trail.new.literals.items f k) (FalseClause clauses.now trail.new)) }
{
    let c = cell_of(f);
    let mut sieve = Sieve::new(lists.take(c));
    let found = visit_entries(clauses, trail, rows, lists, &mut sieve, f);
    lists.put_back(c, sieve.into_slots());
    found
}
