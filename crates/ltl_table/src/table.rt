//! A formula's truth at every time of a word, from a table of finitely many times.

ghost use Rattle.std.specs.Prelude.{◌<◌, length};

use crate::column::column;
use ltl_meaning::formula::Formula;
use ltl_meaning::word::Word;
use std::alloc::{AllocError, Global};

/// A formula's truth at every time of a word.
#[derive(Debug, Drop)]
pub struct Table {
    column: Vec<bool>,
    start: usize,
    ghost loops: { start < length column.items },
}

impl Table {
    ghost use Rattle.std.specs.Prelude.{◌≡◌, ◌↔◌, ℕ, IfOk, IsTrue};
    ghost use Rattle.ltl_meaning.specs.Temporal.{formula_of};
    ghost use Rattle.ltl_meaning.specs.Truth.{IsTrueAt};
    ghost use Rattle.ltl_meaning.specs.Lasso.{on};
    ghost use Rattle.ltl_table.specs.Told.{told};

    /// The table of a formula on a word.
    ///
    /// Time and memory are linear in the formula's size times the number of times that the table
    /// has: the word's length, and one more pass of its loop for each level of past operators. An operator
    /// with bounds counts as many times as its upper bound says. The
    /// stack grows with the nesting of nodes, which callers keep to 2000; a chain takes none of it,
    /// however long. A table of more than `usize::MAX` times is refused as one for which there is no
    /// memory.
    pub fn make(alloc: Global, formula: &Formula, word: &Word) -> Result<Table, AllocError>
        ensures { IfOk result (λ t. (i : ℕ) → IsTrue (told t i) ↔ IsTrueAt (on word.now) (formula_of formula.now.root) i) }
    {
        let passes = formula.past_height() as usize;
        let period = word.period();
        let Some(turns) = passes.checked_mul(period) else {
            return Err(AllocError);
        };
        let Some(start) = turns.checked_add(word.start) else {
            return Err(AllocError);
        };
        let Some(n) = start.checked_add(period) else {
            return Err(AllocError);
        };
        let column = column(alloc, word, passes, start, n, &formula.root)?;
        Ok(Table { column, start })
    }

    /// The truth at a time, however far.
    pub fn value(&self, time: usize) -> bool
        ensures { result ≡ told self.now time }
    {
        let n = self.column.len();
        let start = self.start;
        self.column[if time < n {
            time
        } else {
            start + (time - start) % (n - start)
        }]
    }
}
