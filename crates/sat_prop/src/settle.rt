//! Unit propagation until a conflict or until nothing is left: unit clauses first, then the queue.

ghost use Rattle.std.specs.Prelude.{◌≡◌, IfOk, length, MatchOption};
ghost use Rattle.sat_prop.specs.Moves.{Extends, FalseClause};
ghost use Rattle.sat_prop.specs.Packing.{pairs};
ghost use Rattle.sat_prop.specs.Roots.{ShortSwept, root};
ghost use Rattle.sat_prop.specs.States.{IsBased, IsWatching};
ghost use Rattle.sat_prop.specs.Trails.{AtRest};
ghost use Rattle.sat_prop.specs.Watches.{ShortListed, ShortTrue, LevelsGuarded};

use crate::lists::WatchLists;
use crate::queue::{run_queue, sweep_short};
use crate::rows::Rows;
use crate::trail::Trail;
use clause_core::Clauses;
use std::alloc::AllocError;

// Propagates unit clauses. Once there is a decision they are true already.
fn settle_short(
    clauses: &Clauses,
    trail: &mut Trail,
    rows: &Rows,
    short: &[usize],
    swept: &mut usize,
) -> Result<Option<usize>, AllocError>
    requires based { IsBased clauses.now trail.old }
    requires short_listed { ShortListed clauses.now (pairs rows.now) short.now }
    requires levels { LevelsGuarded clauses.now (pairs rows.now) trail.old.literals.items trail.old.level_starts.items }
    requires swept { ShortSwept clauses.now short.now swept.old (root trail.old.literals.items trail.old.level_starts.items) }
    ensures based { IsBased clauses.now trail.new }
    ensures extends { Extends trail.old trail.new }
    ensures swept { ShortSwept clauses.now short.now swept.new (root trail.new.literals.items trail.new.level_starts.items) }
    ensures says { IfOk result (λ o. MatchOption o (ShortTrue clauses.now (pairs rows.now) trail.new.literals.items) (FalseClause clauses.now trail.new)) }
{
    if trail.level_starts.len() == 0 {
        sweep_short(clauses, trail, short, swept)
    } else {
        Ok(None)
    }
}

// Does unit propagation until a conflict, or until nothing is left to set.
pub fn settle(
    clauses: &Clauses,
    trail: &mut Trail,
    rows: &mut Rows,
    lists: &mut WatchLists,
    short: &[usize],
    swept: &mut usize,
    head: &mut usize,
) -> Result<Option<usize>, AllocError>
    requires watching { IsWatching clauses.now trail.old rows.old lists.old short.now swept.old head.old }
    ensures watching { IsWatching clauses.now trail.new rows.new lists.new short.now swept.new head.new }
    ensures extends { Extends trail.old trail.new }
    ensures says { IfOk result (λ o. MatchOption o (AtRest clauses.now trail.new.literals.items × ((head.new ≡ length trail.new.literals.items) × ShortTrue clauses.now (pairs rows.new) trail.new.literals.items)) (FalseClause clauses.now trail.new)) }
{
    match settle_short(clauses, trail, rows, short, swept)? {
        Some(k) => Ok(Some(k)),
        None => run_queue(clauses, trail, rows, lists, head),
    }
}
