//! Rows of literals, asked 64 at a time which of them have one of some literals. For each 64 rows there is a word for
//! each literal, and the bits of this word are the rows.

ghost use Rattle.std.specs.Prelude.{◌≡◌, ◌⊎◌, ◌↔◌, ◌+◌, ◌*◌, ◌/◌, ◌<◌, ◌≤◌, ◌^◌, ℕ, length, slice_index_or, slice_set, bit_or, vec_len, IsTrue, IfOk};
ghost use Rattle.std.specs.Int.{bit_at};
ghost use Rattle.std.specs.List.{Contains};
ghost use Rattle.clause_core.specs.Assignments.{assignment_of};
ghost use Rattle.clause_core.specs.declared.literal.Lit.{Lit as ALit};
ghost use Rattle.book_agenda.specs.Tables.{IsSet, AddsLiterals, AddsValues, place_of};

use clause_core::Lit;
use std::alloc::{AllocError, Global};
use std::marker::Model;

/// Rows of literals. What a row is said to have was put there; it may lack some of what was put there.
#[derive(Drop)]
pub(crate) struct LiteralTable {
    // how many words each 64 rows have
    width: usize,
    rows: usize,
    words: Vec<u64>,
}

impl Model for LiteralTable {
    ghost use Rattle.book_agenda.specs.Tables.{Table};

    ghost Value = { Table };

    ghost view = { λ t. record { width = t.width; rows = t.rows; words = t.words.items } };
}

impl LiteralTable {
    ghost use Rattle.std.specs.Prelude.{◌≡◌, ◌+◌, ◌*◌, ◌<◌, ◌^◌, ℕ, List, Bool, OnOk};
    ghost use Rattle.std.specs.Int.{bit_at};
    ghost use Rattle.std.specs.List.{Contains};
    ghost use Rattle.clause_core.specs.Assignments.{assignment_of};
    ghost use Rattle.clause_core.specs.declared.literal.Lit.{Lit as ALit};
    ghost use Rattle.book_agenda.specs.Tables.{Has, AddsLiterals, AddsValues};

    /// No rows. Literals of the variables from this one on will be left out. Takes no memory.
    pub(crate) fn new(alloc: Global, vars: usize) -> LiteralTable
        ensures { (row : ℕ) (l : ALit) → Has result row l → ⊥ }
    {
        LiteralTable {
            width: vars.saturating_mul(2),
            rows: 0,
            words: Vec::new(alloc),
        }
    }

    /// How many rows there are.
    pub(crate) fn rows(&self) -> usize
        ensures { result ≡ self.now.rows }
    {
        self.rows
    }

    /// Adds a row of these literals. If memory runs out, it adds none.
    pub(crate) fn push(&mut self, lits: &[Lit]) -> Result<(), AllocError>
        requires { self.old.rows + 1 < 2 ^ 64 }
        ensures rows { OnOk result (self.new.rows ≡ self.old.rows + 1) }
        ensures has { AddsLiterals self.old lits.now self.new }
    {
        let begin = reserve_part(&mut self.words, self.width, self.rows / 64)?;
        set_literals(&mut self.words, self.width, begin, self.rows, lits);
        self.rows += 1;
        Ok(())
    }

    /// Adds a row of the literals that these values make true. If memory runs out, it adds none.
    pub(crate) fn push_values(&mut self, values: &[bool]) -> Result<(), AllocError>
        requires { self.old.rows + 1 < 2 ^ 64 }
        ensures rows { OnOk result (self.new.rows ≡ self.old.rows + 1) }
        ensures has { AddsValues self.old values.now self.new }
    {
        let begin = reserve_part(&mut self.words, self.width, self.rows / 64)?;
        set_values(&mut self.words, self.width, begin, self.rows, values);
        self.rows += 1;
        Ok(())
    }

    /// Rows of part `c` of 64 that have one of these literals: those whose bits are set. Takes no memory.
    pub(crate) fn having(&self, c: usize, lits: &[Lit]) -> u64
        ensures { (b : ℕ) → b < 64 → bit_at result b ≡ 1 → (l : ALit) × Contains lits.now l × Has self.now (c * 64 + b) l }
    {
        having_in(part_of(&self.words, self.width, c), lits)
    }

    /// Rows of part `c` of 64 that have one of the literals that these values make true: those whose bits are set.
    /// Takes no memory.
    pub(crate) fn having_value(&self, c: usize, values: &[bool]) -> u64
        ensures { (b : ℕ) → b < 64 → bit_at result b ≡ 1 → (l : ALit) × (assignment_of values.now l.var ≡ l.positive) × Has self.now (c * 64 + b) l }
    {
        having_value_in(part_of(&self.words, self.width, c), values)
    }
}

/// Whether this bit of the word is set.
pub(crate) fn is_set(word: u64, bit: usize) -> bool
    requires { bit < 64 }
    ensures { IsTrue result ↔ bit_at word bit ≡ 1 }
{
    (word >> bit) % 2 == 1
}

fn least(a: usize, b: usize) -> usize
    ensures { (result ≤ a) × (result ≤ b) }
{
    if a < b { a } else { b }
}

// Which word is the literal's, of those of 64 rows.
fn place(l: Lit) -> usize
    requires { place_of l < 2 ^ 64 }
    ensures { result ≡ place_of l }
{
    if l.positive { 2 * l.var + 1 } else { 2 * l.var }
}

// Makes place for the words of part `c`, and says where they begin.
fn reserve_part(words: &mut Vec<u64>, width: usize, c: usize) -> Result<usize, AllocError>
    ensures same { (k : ℕ) → slice_index_or words.new.items k 0 ≡ slice_index_or words.old.items k 0 }
    ensures place { IfOk result (λ begin. (begin ≡ c * width) × (begin + width ≤ vec_len words.new)) }
{
    let begin = c.checked_mul(width).ok_or(AllocError)?;
    let end = begin.checked_add(width).ok_or(AllocError)?;
    if words.len() < end {
        words.resize(end, 0)?;
    }
    Ok(begin)
}

// The words of part `c`; none where there are not that many.
fn part_of(words: &[u64], width: usize, c: usize) -> &[u64]
    ensures width { length result.now ≤ width }
    ensures words { (k : ℕ) → k < length result.now → slice_index_or result.now k 0 ≡ slice_index_or words.now (c * width + k) 0 }
{
    match c.checked_mul(width) {
        Some(begin) => piece(words, begin, width),
        None => &words[..0],
    }
}

// So many words from this place on; none where there are not that many.
fn piece(words: &[u64], begin: usize, len: usize) -> &[u64]
    ensures width { length result.now ≤ len }
    ensures words { (k : ℕ) → k < length result.now → slice_index_or result.now k 0 ≡ slice_index_or words.now (begin + k) 0 }
{
    if begin < words.len() && len <= words.len() - begin {
        &words[begin..begin + len]
    } else {
        &words[..0]
    }
}

// Sets the bit of this row for the literal, where it has a word; the words of the row's part begin at `begin`.
fn set(words: &mut Vec<u64>, width: usize, begin: usize, row: usize, l: Lit)
    requires begin { begin ≡ row / 64 * width }
    requires end { begin + width ≤ vec_len words.old }
    ensures length { vec_len words.new ≡ vec_len words.old }
    ensures set { (r : ℕ) (k : ALit) → IsSet width words.new.items r k → IsSet width words.old.items r k ⊎ ((r ≡ row) × (k ≡ l)) }
{
    if l.var < width / 2 {
        set_bit(words, begin + place(l), row % 64);
    }
}

fn set_bit(words: &mut Vec<u64>, place: usize, bit: usize)
    requires place { place < vec_len words.old }
    requires bit { bit < 64 }
    ensures length { vec_len words.new ≡ vec_len words.old }
    ensures here { (b : ℕ) → (b ≡ bit → ⊥) → bit_at (slice_index_or words.new.items place 0) b ≡ bit_at (slice_index_or words.old.items place 0) b }
    ensures others { (k : ℕ) → (k ≡ place → ⊥) → slice_index_or words.new.items k 0 ≡ slice_index_or words.old.items k 0 }
{
    words[place] |= 1u64 << bit;
}

// Sets the bits of this row for these literals.
fn set_literals(words: &mut Vec<u64>, width: usize, begin: usize, row: usize, lits: &[Lit])
    requires begin { begin ≡ row / 64 * width }
    requires end { begin + width ≤ vec_len words.old }
    ensures { AddsLiterals record { width = width; rows = row; words = words.old.items } lits.now record { width = width; rows = row; words = words.new.items } }
{
    for l in lits {
        set(words, width, begin, row, *l);
    }
}

// Sets the bits of this row for the literals that these values make true.
fn set_values(words: &mut Vec<u64>, width: usize, begin: usize, row: usize, values: &[bool])
    requires begin { begin ≡ row / 64 * width }
    requires end { begin + width ≤ vec_len words.old }
    ensures { AddsValues record { width = width; rows = row; words = words.old.items } values.now record { width = width; rows = row; words = words.new.items } }
{
    for var in 0..least(values.len(), width / 2) {
        let positive = values[var];
        set(words, width, begin, row, Lit { var, positive });
    }
}

// The literal's word; 0 where it has none.
fn word_of(words: &[u64], l: Lit) -> u64
    ensures { (b : ℕ) → bit_at result b ≡ 1 → (place_of l < length words.now) × (bit_at (slice_index_or words.now (place_of l) 0) b ≡ 1) }
{
    if l.var < words.len() / 2 {
        words[place(l)]
    } else {
        0
    }
}

// The rows that have one of these literals, of the 64 rows with these words.
fn having_in(words: &[u64], lits: &[Lit]) -> u64
    ensures { (b : ℕ) → bit_at result b ≡ 1 → (l : ALit) × Contains lits.now l × (place_of l < length words.now) × (bit_at (slice_index_or words.now (place_of l) 0) b ≡ 1) }
{
    let mut seen = 0;
    for l in lits {
        seen |= word_of(words, *l);
        if seen == u64::MAX {
            return seen;
        }
    }
    seen
}

// The rows that have one of the literals that these values make true, of the 64 rows with these words.
fn having_value_in(words: &[u64], values: &[bool]) -> u64
    ensures { (b : ℕ) → bit_at result b ≡ 1 → (l : ALit) × (assignment_of values.now l.var ≡ l.positive) × (place_of l < length words.now) × (bit_at (slice_index_or words.now (place_of l) 0) b ≡ 1) }
{
    let mut seen = 0;
    for var in 0..least(values.len(), words.len() / 2) {
        let positive = values[var];
        seen |= word_of(words, Lit { var, positive });
        if seen == u64::MAX {
            return seen;
        }
    }
    seen
}
