//! Places in a source.

ghost use Rattle.std.specs.Prelude.{Some};
ghost use Rattle.smv_tree.specs.Texts.{place_text};

use std::fmt;

/// A place in a source: lines count from 1 and end at a line feed, columns count bytes from 1.
#[derive(Clone, Copy, Debug, PartialEq, Eq)]
pub struct Place {
    pub line: usize,
    pub column: usize,
}

impl fmt::Display for Place {
    ghost output = { λ p. Some (place_text p) };

    fn fmt<W: fmt::Write>(&self, f: &mut fmt::Formatter<W>) -> fmt::Result {
        let (line, column) = (self.line, self.column);
        write!(f, "{line}:{column}")
    }
}
