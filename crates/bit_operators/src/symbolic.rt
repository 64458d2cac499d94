//! Values as edges.

ghost use Rattle.bit_operators.specs.Lists.{is_distinct};
ghost use Rattle.std.specs.Prelude.{IsTrue};

use bit_graph::Edge;
use sqlite_items::Items;

/// A value as edges: which one it is depends on the values of the nodes.
#[derive(Debug, Drop)]
pub enum Symbolic {
    Boolean(Edge),
    /// A word, the lowest bit first.
    Word { signed: bool, bits: Items<Edge> },
    Discrete(Discrete),
}

/// An integer or a symbol.
#[derive(Debug, Drop)]
pub struct Discrete {
    /// True where it is a symbol.
    pub is_symbol: Edge,
    /// The integer in two's complement, the lowest bit first, where it is one.
    pub number: Items<Edge>,
    /// The symbols that it may be, none twice.
    pub symbols: Items<u32>,
    /// Its position among them, the lowest bit first, where it is one.
    pub code: Items<Edge>,
    ghost distinct: { IsTrue (is_distinct symbols) },
}
