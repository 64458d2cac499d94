//! Lists of derivations, each of which may be missing.

ghost use Rattle.std.specs.Prelude.{◌≡◌, ◌∷◌, ◌++◌, [], OnOk, OnErr, None, option_copied, slice_index_or};

use hinted_log::Hinted;
use std::alloc::AllocError;

// Adds a part that is missing. If memory runs out, the parts are as before.
pub(crate) fn push_missing(parts: &mut Vec<Option<Hinted>>) -> Result<(), AllocError>
    ensures done { OnOk result (parts.new.items ≡ parts.old.items ++ None ∷ []) }
    ensures failed { OnErr result (parts.new.items ≡ parts.old.items) }
{
    parts.push(None)?;
    Ok(())
}

// The part at this place, or none.
pub(crate) fn part_at(parts: &[Option<Hinted>], k: usize) -> Option<&Hinted>
    ensures { option_copied result ≡ slice_index_or parts.now k None }
{
    if k < parts.len() {
        parts[k].as_ref()
    } else {
        None
    }
}
