//! A proof issued again at another level.

ghost use Rattle.std.specs.Prelude.{◌≡◌, ◌<◌};

use frame_core::{Proved, ProvedParts};

/// The same proof at another level, without a query: what it says of steps is the same at each level above
/// 1, and whether its parents stand at the level below is known to the frames. Takes no memory.
pub fn reissued<'a>(proved: Proved<'a>, level: u32) -> Proved<'a>
    requires was { 1 < proved.level }
    requires now { 1 < level }
    ensures { result ≡ record proved.entry { level = level } }
{
    let system = proved.system();
    let ProvedParts {
        clause,
        part,
        parents,
    } = proved.into_parts();
    Proved::new(system, clause, part, level, parents)
}
