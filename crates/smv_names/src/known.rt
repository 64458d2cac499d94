//! Sets of names.

ghost use Rattle.std.specs.Prelude.{◌≡◌, ◌||◌, List, ℕ, IfOk, OnOk, not, bytes_eq};
ghost use Rattle.smv_names.specs.Lent.{knows};

use plain_text::Text;
use std::alloc::AllocError;
use std::collections::HashSet;

// Adds a name, and says whether it is new.
pub(crate) fn add_name<'a>(names: &mut HashSet<&'a str>, name: &'a Text) -> Result<bool, AllocError>
    ensures fresh { IfOk result (λ fresh. fresh ≡ not (knows names.old name.now)) }
    ensures known { OnOk result ((q : List ℕ) → knows names.new q ≡ (bytes_eq name.now q || knows names.old q)) }
{
    Ok(names.insert(name.as_str())?)
}
