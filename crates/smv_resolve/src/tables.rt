//! Tables over nodes: one entry for each node, made of the entries of the nodes before it.

ghost use Rattle.std.specs.Prelude.{◌≡◌, take};
ghost use Rattle.smv_resolve.specs.Resolved.{last_of};

/// The first entries, so many if there are: those of the nodes before the one of this number.
pub fn first<T>(entries: &[T], count: usize) -> &[T]
    ensures { result.now ≡ take count entries.now }
{
    if count < entries.len() {
        &entries[..count]
    } else {
        entries
    }
}

/// The last entries, so many if there are: those of the operands of an operator whose node comes next.
pub fn last<T>(entries: &[T], count: usize) -> &[T]
    ensures { result.now ≡ last_of count entries.now }
{
    if count < entries.len() {
        &entries[entries.len() - count..]
    } else {
        entries
    }
}
