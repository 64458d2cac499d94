//! Counterexamples as tables; and the kinds of their values, which the texts of the values tell.
//!
//! The only error of a call is running out of memory.
#![tactic(auto)]

mod cells;
mod kinds;
mod table;

pub use cells::{is_changed, shown, value_at, value_before};
pub use kinds::{Kind, Word, column_kind, column_kinds, word_of, write_bits};
pub use table::{name_width, time, title, widths, write_table, write_tables};
