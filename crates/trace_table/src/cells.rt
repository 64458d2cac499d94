//! The values of a trace by time and column.

ghost use Rattle.std.specs.Prelude.{◌≡◌};
ghost use Rattle.std.specs.Option.{option_copied};
ghost use Rattle.trace_table.specs.Cells.{is_changed, shown, value_at, value_before};

use plain_text::Text;
use sqlite_items::Items;
use trace_lines::Binding;

/// The value at time `i` in column `j`, if there is one.
pub fn value_at(rows: &[Items<Binding>], i: usize, j: usize) -> Option<&Text>
    ensures { option_copied result ≡ value_at rows.now i j }
{
    match rows.get(i) {
        None => None,
        Some(row) => match row.get(j) {
            None => None,
            Some(binding) => Some(&binding.value),
        },
    }
}

/// The value at the time before, if there is one.
pub fn value_before(rows: &[Items<Binding>], i: usize, j: usize) -> Option<&Text>
    ensures { option_copied result ≡ value_before rows.now i j }
{
    if i == 0 {
        None
    } else {
        value_at(rows, i - 1, j)
    }
}

/// A value, or `-` where there is none.
pub fn shown(value: Option<&Text>) -> &str
    ensures { result.now ≡ shown (option_copied value.entry) }
{
    match value {
        None => "-",
        Some(text) => text.as_str(),
    }
}

/// Whether a value is another than that before.
pub fn is_changed(before: Option<&Text>, now: Option<&Text>) -> bool
    ensures { result ≡ is_changed (option_copied before.entry) (option_copied now.entry) }
{
    match (before, now) {
        (Some(before), Some(now)) => !before.is(now),
        _ => false,
    }
}
