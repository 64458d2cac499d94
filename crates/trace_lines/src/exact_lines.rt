//! The law of lines: each says what is printed so, and nothing else.

ghost use Rattle.std.specs.Prelude.{List, ℕ};
ghost use Rattle.trace_lines.specs.declared.entry.TraceLine.{TraceLine};
ghost use Rattle.trace_lines.specs.Printed.{SaysExactly};

/// A line of a trace says what is printed so, and nothing else.
pub fn is_said_exactly()
    ensures { (line : List ℕ) (e : TraceLine) → SaysExactly line e }
{}
