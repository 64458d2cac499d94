//! Watch lists: for each literal the clauses that watch it (Moskewicz and others 2001). An entry
//! also holds another literal of its clause, whose truth saves a look at the clause.

ghost use Rattle.std.specs.Prelude.{◌+◌, ◌-◌, ◌*◌, ◌^◌, [], ◌∷◌, ◌≡◌, ◌<◌, ◌≤◌, ℕ, ◌++◌, Bool, true, IfOk, OnOk, OnErr, length, List, take, drop, slice_set, slice_index_or, MatchOption};
ghost use Rattle.sat_prop.specs.Entries.{AllEntries};
ghost use Rattle.sat_prop.specs.Slots.{entries_of, entry_of};
ghost use Rattle.sat_prop.specs.Watches.{cell};
ghost use Rattle.sat_prop.specs.declared.lists.Watcher.{Watcher};

use crate::words::word_of;
use clause_core::Lit;
use std::alloc::{AllocError, Global};
use std::marker::Model;
use std::mem::replace;

// The number of a clause that watches a literal, and another literal of it: where that one is true, nothing is to
// be done at the clause, and it need not be looked up.
#[derive(Clone, Copy, Drop)]
pub struct Watcher {
    pub clause: usize,
    pub blocker: Lit,
}

// An entry as it is stored, in few bytes.
#[derive(Clone, Copy, Drop)]
pub struct PackedWatcher {
    pub clause: u32,
    pub blocker: u32,
}

// For each literal the list of the clauses that watch it.
#[derive(Drop)]
pub struct WatchLists {
    cells: Vec<Vec<PackedWatcher>>,
}

impl Model for WatchLists {
    ghost use Rattle.std.specs.Prelude.{List, map};
    ghost use Rattle.sat_prop.specs.declared.lists.Watcher.{Watcher};
    ghost use Rattle.sat_prop.specs.Slots.{entries_of};

    ghost Value = { List (List Watcher) };

    ghost view = { λ s. map (λ v. entries_of v.items) s.cells.items };
}

// The bytes of an entry.
fn slot_of(e: Watcher) -> PackedWatcher
    requires clause { e.clause < 2 ^ 32 }
    requires other { cell e.blocker < 2 ^ 32 }
    ensures { entry_of result ≡ e }
{
    PackedWatcher {
        clause: e.clause as u32,
        blocker: word_of(e.blocker),
    }
}

impl WatchLists {
    // So many empty lists.
    pub fn new(alloc: Global, n: usize) -> Result<WatchLists, AllocError>
        ensures len { IfOk result (λ s. length s ≡ n) }
        ensures empty { IfOk result (λ s. (p : Watcher → Bool) → AllEntries p s) }
    {
        let mut cells = Vec::new(alloc);
        for _ in 0..n {
            cells.push(Vec::new(alloc))?;
        }
        Ok(WatchLists { cells })
    }

    // Puts an entry at the end of list number c.
    pub fn push(&mut self, c: usize, e: Watcher) -> Result<(), AllocError>
        requires cell { c < length self.old }
        requires clause { e.clause < 2 ^ 32 }
        requires other { cell e.blocker < 2 ^ 32 }
        ensures done { OnOk result (self.new ≡ slice_set self.old c (slice_index_or self.old c [] ++ e ∷ [])) }
        ensures failed { OnErr result (self.new ≡ self.old) }
    {
        let slot = slot_of(e);
        self.cells[c].push(slot)?;
        Ok(())
    }

    // Takes the last entry out of list number c.
    pub fn pop(&mut self, c: usize)
        requires { c < length self.old }
        ensures { self.new ≡ slice_set self.old c (take (length (slice_index_or self.old c []) - 1) (slice_index_or self.old c [])) }
    {
        let _ = self.cells[c].pop();
    }

    // Takes list number c out, and leaves an empty one.
    pub fn take(&mut self, c: usize) -> Vec<PackedWatcher>
        requires { c < length self.old }
        ensures list { entries_of result.items ≡ slice_index_or self.old c [] }
        ensures others { self.new ≡ slice_set self.old c [] }
    {
        let alloc = *self.cells.allocator();
        replace(&mut self.cells[c], Vec::new(alloc))
    }

    // Puts this in place of list number c.
    pub fn put_back(&mut self, c: usize, slots: Vec<PackedWatcher>)
        requires { c < length self.old }
        ensures { self.new ≡ slice_set self.old c (entries_of slots.items) }
    {
        self.cells[c] = slots;
    }
}

// A list from which entries are taken out while it is read. Those that stay keep their order, and are moved to the
// front: below `kept` they stay, and from `read` on they are still to be read.
#[derive(Drop)]
pub struct Sieve {
    slots: Vec<PackedWatcher>,
    kept: usize,
    read: usize,
}

impl Model for Sieve {
    ghost use Rattle.std.specs.Prelude.{◌≤◌, take, drop, length};
    ghost use Rattle.sat_prop.specs.Sifted.{Sifted};
    ghost use Rattle.sat_prop.specs.Slots.{entries_of};

    ghost Value = { Sifted };

    ghost view = { λ s. record { kept = entries_of (take s.kept s.slots.items); rest = entries_of (drop s.read s.slots.items) } };

    ghost invariant = { λ s. (s.kept ≤ s.read) × (s.read ≤ length s.slots.items) };
}

impl Sieve {
    // All of the list is still to be read.
    pub fn new(slots: Vec<PackedWatcher>) -> Sieve
        ensures kept { result.kept ≡ [] }
        ensures rest { result.rest ≡ entries_of slots.items }
    {
        Sieve {
            slots,
            kept: 0,
            read: 0,
        }
    }

    // The entry that is read next.
    pub fn front(&self) -> Option<PackedWatcher>
        ensures { MatchOption result (self.now.rest ≡ []) (λ s. self.now.rest ≡ entry_of s ∷ drop 1 self.now.rest) }
    {
        if self.read < self.slots.as_slice().len() {
            Some(self.slots[self.read])
        } else {
            None
        }
    }

    // Takes the entry out that is read next.
    pub fn skip(&mut self)
        requires { 0 < length self.old.rest }
        ensures kept { self.new.kept ≡ self.old.kept }
        ensures rest { self.new.rest ≡ drop 1 self.old.rest }
    {
        self.read += 1;
    }

    // Puts this in place of the entry that is read next, and goes on to the one after it.
    pub fn keep(&mut self, slot: PackedWatcher)
        requires { 0 < length self.old.rest }
        ensures kept { self.new.kept ≡ self.old.kept ++ entry_of slot ∷ [] }
        ensures rest { self.new.rest ≡ drop 1 self.old.rest }
    {
        self.slots[self.kept] = slot;
        self.kept += 1;
        self.read += 1;
    }

    // The list of what stays, and what was not read.
    pub fn into_slots(self) -> Vec<PackedWatcher>
        ensures { entries_of result.items ≡ self.kept ++ self.rest }
    {
        let Sieve {
            mut slots,
            mut kept,
            mut read,
        } = self;
        while read < slots.as_slice().len() {
            slots[kept] = slots[read];
            kept += 1;
            read += 1;
        }
        slots.truncate(kept);
        slots
    }
}
