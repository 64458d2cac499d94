//! The law of states as bits.

ghost use Rattle.smv_tree.specs.declared.tree.Program.{Program};
ghost use Rattle.bit_states.specs.Coding.{IsCoding};
ghost use Rattle.bit_states.specs.Layouts.{HasTypes};

/// States and their bits are each other's, and so are inputs and theirs. It does nothing: its contract is the law.
pub fn what_a_coding_is()
    ensures { (p : Program) → HasTypes p → IsCoding p }
{}
