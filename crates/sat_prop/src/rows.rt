//! The clauses as propagation reads them: rows of literals in one buffer, the two watched ones
//! first.

ghost use Rattle.std.specs.Prelude.{◌+◌, ◌-◌, ◌*◌, ◌^◌, [], ◌∷◌, ◌≡◌, ◌<◌, ◌≤◌, ℕ, ◌++◌, IfOk, OnOk, OnErr, length, take, map, All, List, slice_set, slice_index_or};
ghost use Rattle.std.specs.List.{filter};
ghost use Rattle.clause_core.specs.Literals.{at};
ghost use Rattle.sat_prop.specs.Watches.{cell};
ghost use Rattle.sat_prop.specs.Words.{literal_of};
ghost use Rattle.sat_prop.specs.Packing.{is_beside, rewatched, row_of};

use crate::watch::Watches;
use crate::words::{literal, word_of};
use clause_core::Lit;
use std::alloc::{AllocError, Global};
use std::marker::Model;

// Where a row lies among the words.
#[derive(Clone, Copy, Drop)]
pub struct Span {
    pub from: u32,
    pub len: u32,
}

// The clauses as propagation reads them: a row for each, of one word a literal, whose first two are watched. The
// order of the others does not matter, and changes as watches move. Contracts see the list of the rows.
#[derive(Drop)]
pub struct Rows {
    words: Vec<u32>,
    spans: Vec<Span>,
}

impl Model for Rows {
    ghost use Rattle.std.specs.Prelude.{List};
    ghost use Rattle.clause_core.specs.declared.literal.Lit.{Lit};
    ghost use Rattle.sat_prop.specs.Packing.{rows_at, SpansIn, SpansApart};

    ghost Value = { List (List Lit) };

    ghost view = { λ s. rows_at s.words.items s.spans.items };

    ghost invariant = { λ s. SpansIn s.words.items s.spans.items × SpansApart s.spans.items };
}

// Whether the literal is neither of the watches.
fn stands_beside(h: Watches, l: Lit) -> bool
    ensures { result ≡ is_beside h l }
{
    !l.is_same(h.a) && !l.is_same(h.b)
}

// Writes the words of a clause's literals but the watches behind the others. If memory runs out, some of them may stand
// there.
fn write_beside(words: &mut Vec<u32>, h: Watches, c: &[Lit]) -> Result<(), AllocError>
    requires { All (λ l. cell l < 2 ^ 32) c.now }
    ensures done { OnOk result (words.new.items ≡ words.old.items ++ map cell (filter (is_beside h) c.now)) }
    ensures kept { take (length words.old.items) words.new.items ≡ words.old.items }
{
    for x in c {
        if stands_beside(h, *x) {
            words.push(word_of(*x))?;
        }
    }
    Ok(())
}

// Writes the words of a clause's row behind the others. If memory runs out, some of them may stand there.
fn write_row(words: &mut Vec<u32>, h: Watches, c: &[Lit]) -> Result<(), AllocError>
    requires a_in { cell h.a < 2 ^ 32 }
    requires b_in { cell h.b < 2 ^ 32 }
    requires fits { All (λ l. cell l < 2 ^ 32) c.now }
    ensures done { OnOk result (words.new.items ≡ words.old.items ++ map cell (row_of h c.now)) }
    ensures kept { take (length words.old.items) words.new.items ≡ words.old.items }
{
    words.push(word_of(h.a))?;
    words.push(word_of(h.b))?;
    write_beside(words, h, c)
}

impl Rows {
    // No rows.
    pub fn new(alloc: Global) -> Rows
        ensures { result ≡ [] }
    {
        Rows {
            words: Vec::new(alloc),
            spans: Vec::new(alloc),
        }
    }

    // How many rows there are.
    pub fn len(&self) -> usize
        ensures { result ≡ length self.now }
    {
        self.spans.as_slice().len()
    }

    // The words of row number k.
    pub fn get(&self, k: usize) -> &[u32]
        requires { k < length self.now }
        ensures { map literal_of result.now ≡ slice_index_or self.now k [] }
    {
        let span = self.spans[k];
        let tail = &self.words[span.from as usize..];
        &tail[..span.len as usize]
    }

    // Writes literal i of row number k.
    fn put(&mut self, k: usize, i: usize, l: Lit)
        requires row { k < length self.old }
        requires place { i < length (slice_index_or self.old k []) }
        requires fits { cell l < 2 ^ 32 }
        ensures { self.new ≡ slice_set self.old k (slice_set (slice_index_or self.old k []) i l) }
    {
        let from = self.spans[k].from as usize;
        self.words[from + i] = word_of(l);
    }

    // Watches literal j of row number k, and `other`, in place of `fallen`, which is put where the former stood.
    pub fn rewatch(&mut self, k: usize, j: usize, other: Lit, fallen: Lit)
        requires row { k < length self.old }
        requires place { j < length (slice_index_or self.old k []) }
        requires two { 1 < length (slice_index_or self.old k []) }
        requires fits_first { cell (at (slice_index_or self.old k []) j) < 2 ^ 32 }
        requires fits_other { cell other < 2 ^ 32 }
        requires fits_fallen { cell fallen < 2 ^ 32 }
        ensures { self.new ≡ slice_set self.old k (rewatched (slice_index_or self.old k []) j other fallen) }
    {
        let first = literal(self.get(k)[j]);
        self.put(k, j, fallen);
        self.put(k, 0, first);
        self.put(k, 1, other);
    }

    // Adds the row of a clause. If memory runs out, the rows are as before; words past 2^32 count as that.
    pub fn push(&mut self, h: Watches, c: &[Lit]) -> Result<(), AllocError>
        requires a_in { cell h.a < 2 ^ 32 }
        requires b_in { cell h.b < 2 ^ 32 }
        requires fits { All (λ l. cell l < 2 ^ 32) c.now }
        ensures done { OnOk result (self.new ≡ self.old ++ row_of h c.now ∷ []) }
        ensures failed { OnErr result (self.new ≡ self.old) }
    {
        let from = self.words.as_slice().len();
        write_row(&mut self.words, h, c)?;
        let end = self.words.as_slice().len();
        if end > u32::MAX as usize {
            return Err(AllocError);
        }
        let span = Span {
            from: from as u32,
            len: (end - from) as u32,
        };
        self.spans.push(span)?;
        Ok(())
    }

    // Empties row number k.
    pub fn retire(&mut self, k: usize)
        requires { k < length self.old }
        ensures { self.new ≡ slice_set self.old k [] }
    {
        let from = self.spans[k].from;
        self.spans[k] = Span { from, len: 0 };
    }

    // Takes the last row away.
    pub fn pop(&mut self)
        ensures { self.new ≡ take (length self.old - 1) self.old }
    {
        let _ = self.spans.pop();
    }
}
