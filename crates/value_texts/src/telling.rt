//! The texts of values.

ghost use Rattle.std.specs.Prelude.{◌≡◌, IfOk};
ghost use Rattle.value_texts.specs.Told.{told_text};

use crate::Symbols;
use crate::symbols::symbol_text;
use plain_text::Text;
use smv_value::{Shown, Value};
use std::alloc::{AllocError, Global};

/// The text of a value.
pub fn told(alloc: Global, symbols: &Symbols, value: Value) -> Result<Text, AllocError>
    ensures { IfOk result (λ text. text ≡ told_text symbols.now.names.now value) }
{
    if let Value::Sym(n) = value {
        return symbol_text(alloc, symbols, n);
    }
    let shown = Shown {
        value,
        names: symbols.names,
    };
    let text = shown.to_string(alloc)?;
    Text::from_str(alloc, text.as_str())
}
