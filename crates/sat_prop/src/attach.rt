//! Adds a clause: chooses its two watched literals and puts it into their watch lists.

ghost use Rattle.std.specs.Prelude.{◌+◌, ◌^◌, [], ◌∷◌, ◌≡◌, ◌<◌, ℕ, ◌++◌, true, OnOk, OnErr, length, take, All, List};
ghost use Rattle.sat_prop.specs.declared.lists.Watcher.{Watcher};
ghost use Rattle.sat_prop.specs.Entries.{listed_with};
ghost use Rattle.sat_prop.specs.Packing.{pairs, row_of};
ghost use Rattle.sat_prop.specs.States.{HasCells, IsAttachable, IsListed};
ghost use Rattle.sat_prop.specs.Trails.{is_literal};
ghost use Rattle.sat_prop.specs.Watches.{WatchesIn, ShortListed, WatchesSay, ShortMore, InShort, HasTwo, HasOneLiteral, cell};

use crate::lists::{WatchLists, Watcher};
use crate::rows::Rows;
use crate::watch::{Watches, cell_of};
use clause_core::{Clauses, Lit};
use std::alloc::AllocError;

// The watches of a clause: its first literal and that at w, where these differ; else the first two that differ.
pub fn watches_of(c: &[Lit], w: usize) -> Watches
    ensures { WatchesSay c.now w result }
{
    if w < c.len() {
        if !c[0].is_same(c[w]) {
            return Watches { a: c[0], b: c[w] };
        }
    }
    pair_of(c)
}

// Two literals of the clause that differ, if any do.
fn pair_of(c: &[Lit]) -> Watches
    ensures two { HasTwo result → WatchesIn result c.now }
    ensures one { is_literal result.a result.b ≡ true → HasOneLiteral c.now }
    ensures none { is_literal result.a result.b ≡ true → (cell result.a ≡ 0) × (cell result.b ≡ 0) }
{
    for i in 1..c.len() {
        if !c[i].is_same(c[0]) {
            return Watches { a: c[0], b: c[i] };
        }
    }
    let none = Lit {
        var: 0,
        positive: false,
    };
    Watches { a: none, b: none }
}

// Puts clause k into the lists of its two watches. If memory runs out, these are as before.
fn list_both(lists: &mut WatchLists, h: Watches, k: usize) -> Result<(), AllocError>
    requires two { HasTwo h }
    requires cells { HasCells (length lists.old) h }
    requires number { k < 2 ^ 32 }
    ensures done { OnOk result (lists.new ≡ listed_with lists.old h k) }
    ensures failed { OnErr result (lists.new ≡ lists.old) }
{
    let a = cell_of(h.a);
    let first = Watcher {
        clause: k,
        blocker: h.b,
    };
    let second = Watcher {
        clause: k,
        blocker: h.a,
    };
    lists.push(a, first)?;
    if let Err(e) = lists.push(cell_of(h.b), second) {
        lists.pop(a);
        return Err(e);
    }
    Ok(())
}

// Takes a clause out of the lists again, where it came last.
fn unlist_both(lists: &mut WatchLists, h: Watches)
    requires two { HasTwo h }
    requires cells { HasCells (length lists.old) h }
    ensures { (before : List (List Watcher)) (k : ℕ) → length before ≡ length lists.old → lists.old ≡ listed_with before h k → lists.new ≡ before }
{
    lists.pop(cell_of(h.b));
    lists.pop(cell_of(h.a));
}

// Notes where clause k is to be found. If memory runs out, the lists are as before.
fn enlist(
    lists: &mut WatchLists,
    short: &mut Vec<usize>,
    h: Watches,
    k: usize,
) -> Result<(), AllocError>
    requires cells { HasCells (length lists.old) h }
    requires number { k < 2 ^ 32 }
    ensures same { is_literal h.a h.b ≡ true → lists.new ≡ lists.old }
    ensures both { OnOk result (HasTwo h → lists.new ≡ listed_with lists.old h k) }
    ensures failed { OnErr result (lists.new ≡ lists.old) }
    ensures short { ShortMore short.old.items short.new.items }
    ensures short_done { OnOk result (is_literal h.a h.b ≡ true → InShort short.new.items k) }
    ensures short_kept { take (length short.old.items) short.new.items ≡ short.old.items }
{
    if h.a.is_same(h.b) {
        short.push(k)?;
        Ok(())
    } else {
        list_both(lists, h, k)
    }
}

// Takes a clause out of the lists again, where it came last.
fn delist(lists: &mut WatchLists, h: Watches)
    requires cells { HasCells (length lists.old) h }
    ensures same { is_literal h.a h.b ≡ true → lists.new ≡ lists.old }
    ensures undone { HasTwo h → (before : List (List Watcher)) (k : ℕ) → length before ≡ length lists.old → lists.old ≡ listed_with before h k → lists.new ≡ before }
{
    if !h.a.is_same(h.b) {
        unlist_both(lists, h);
    }
}

// Puts a clause and its row behind the others. If memory runs out, these are as before.
fn push_clause(
    clauses: &mut Clauses,
    rows: &mut Rows,
    c: &[Lit],
    h: Watches,
) -> Result<(), AllocError>
    requires a_word { cell h.a < 2 ^ 32 }
    requires b_word { cell h.b < 2 ^ 32 }
    requires words { All (λ l. cell l < 2 ^ 32) c.now }
    ensures done { OnOk result (clauses.new ≡ clauses.old ++ c.now ∷ []) }
    ensures done_rows { OnOk result (rows.new ≡ rows.old ++ row_of h c.now ∷ []) }
    ensures failed { OnErr result (clauses.new ≡ clauses.old) }
    ensures failed_rows { OnErr result (rows.new ≡ rows.old) }
{
    rows.push(h, c)?;
    if let Err(e) = clauses.push(c) {
        rows.pop();
        return Err(e);
    }
    Ok(())
}

// Adds a clause with its watches.
pub fn attach(
    clauses: &mut Clauses,
    rows: &mut Rows,
    lists: &mut WatchLists,
    short: &mut Vec<usize>,
    c: &[Lit],
    h: Watches,
) -> Result<(), AllocError>
    requires attachable { IsAttachable (length lists.old) c.now h }
    requires listed { IsListed clauses.old rows.old lists.old }
    requires short_listed { ShortListed clauses.old (pairs rows.old) short.old.items }
    ensures listed { IsListed clauses.new rows.new lists.new }
    ensures short_listed { ShortListed clauses.new (pairs rows.new) short.new.items }
    ensures cells { length lists.new ≡ length lists.old }
    ensures short_kept { take (length short.old.items) short.new.items ≡ short.old.items }
    ensures done { OnOk result ((clauses.new ≡ clauses.old ++ c.now ∷ []) × (rows.new ≡ rows.old ++ row_of h c.now ∷ [])) }
    ensures failed { OnErr result ((clauses.new ≡ clauses.old) × (rows.new ≡ rows.old)) }
{
    let k = rows.len();
    if k >= u32::MAX as usize {
        return Err(AllocError);
    }
    enlist(lists, short, h, k)?;
    if let Err(e) = push_clause(clauses, rows, c, h) {
        delist(lists, h);
        return Err(e);
    }
    Ok(())
}
