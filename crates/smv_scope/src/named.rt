//! What is looked up by name: the number of the first that bears each name.

ghost use Rattle.std.specs.Prelude.{◌≡◌, ℕ, List, None, IfOk, OnOk, position, bytes_eq};
ghost use Rattle.std.specs.HashMap.{get_by_text};
ghost use Rattle.smv_scope.specs.Symbols.{first_of};

use indexmap::IndexMap;
use plain_text::Text;
use smv_tree::{Definition, Module, Parameter, Variable, VariableKind};
use std::alloc::{AllocError, Global};

/// What bears a name.
pub(crate) trait Named {
    ghost use Rattle.std.specs.Prelude.{ℕ, List};

    ghost name_of: { Self → List ℕ };

    /// Its name.
    fn name(&self) -> &str
        ensures { result.now ≡ name_of self.now };
}

impl Named for Module {
    ghost name_of = { λ x. x.name };

    fn name(&self) -> &str {
        self.name.as_str()
    }
}

impl Named for Parameter {
    ghost name_of = { λ x. x.name };

    fn name(&self) -> &str {
        self.name.as_str()
    }
}

impl Named for Text {
    ghost name_of = { λ x. x };

    fn name(&self) -> &str {
        self.as_str()
    }
}

impl Named for &Definition {
    ghost name_of = { λ x. x.now.name };

    fn name(&self) -> &str {
        self.name.as_str()
    }
}

impl Named for (VariableKind, &Variable) {
    ghost name_of = { λ x. x.1.now.name };

    fn name(&self) -> &str {
        self.1.name.as_str()
    }
}

/// The number of the first of each name.
pub(crate) fn first_numbers<T: Named>(
    alloc: Global,
    items: &[T],
) -> Result<IndexMap<String, usize>, AllocError>
    ensures { IfOk result (λ table. (name : List ℕ) → get_by_text table name ≡ position (λ (x : T). bytes_eq name (T.name_of x)) items.now) }
{
    let mut table = IndexMap::new(alloc);
    note_names(alloc, &mut table, items)?;
    Ok(table)
}

/// A name that has no number yet gets that of the first that bears it.
pub(crate) fn note_names<T: Named>(
    alloc: Global,
    table: &mut IndexMap<String, usize>,
    items: &[T],
) -> Result<(), AllocError>
    ensures { OnOk result ((name : List ℕ) → get_by_text table.old name ≡ None → get_by_text table.new name ≡ position (λ (x : T). bytes_eq name (T.name_of x)) items.now) }
{
    for (k, x) in items.iter().enumerate() {
        note_name(alloc, table, x.name(), k)?;
    }
    Ok(())
}

// A name that has no number yet gets this one.
fn note_name(
    alloc: Global,
    table: &mut IndexMap<String, usize>,
    name: &str,
    number: usize,
) -> Result<(), AllocError>
    ensures { OnOk result ((q : List ℕ) → get_by_text table.new q ≡ first_of (get_by_text table.old q) (bytes_eq q name.now) number) }
{
    if table.contains_key(name) {
        return Ok(());
    }
    table.insert(String::from_str(alloc, name)?, number)?;
    Ok(())
}
