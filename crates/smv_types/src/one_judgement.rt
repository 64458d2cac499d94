//! The law of the rules of names and kinds: what is right to say of a program is one thing.

ghost use Rattle.smv_types.specs.Rules.{IsJudgedOnce};

/// What is right to say of a program by its names and kinds is one thing: no program is both let through and refused,
/// and none is refused in two ways.
pub fn is_judged_once()
    ensures { IsJudgedOnce }
{}
