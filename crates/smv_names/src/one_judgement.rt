//! The law of the rules of names: what is right to say of a program is one thing.

ghost use Rattle.smv_names.specs.Rules.{AreNamesJudgedOnce};

/// What is right to say of a program by its names is one thing: no program is both let through and refused, and none is
/// refused in two ways.
pub fn are_names_judged_once()
    ensures { AreNamesJudgedOnce }
{}
