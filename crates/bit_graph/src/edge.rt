//! The nodes of a graph, and edges to them that may negate.

ghost use Rattle.std.specs.Prelude.{◌≡◌, not, false};

/// A node of a graph, or the negation of one.
#[derive(Clone, Copy, Debug, Drop, PartialEq, Eq, Hash)]
pub struct Edge {
    /// The node's number in its graph.
    pub node: usize,
    /// Whether the edge stands for the opposite of the node's value.
    pub negated: bool,
}

/// A node of a graph.
#[derive(Clone, Copy, Debug, Drop, PartialEq, Eq, Hash)]
pub enum GraphNode {
    /// Always false.
    False,
    /// As the assignment says.
    Input,
    /// True where both edges are.
    And(Edge, Edge),
    /// True where just one of the nodes is.
    Xor(usize, usize),
    /// As the second node where the first is true, else as the edge.
    Choice(usize, usize, Edge),
}

impl Edge {
    /// The edge to the node with this number.
    pub fn to(node: usize) -> Edge
        ensures { result ≡ record { node = node; negated = false } }
    {
        Edge {
            node,
            negated: false,
        }
    }

    /// The edge to the same node with the opposite value.
    pub fn negation(self) -> Edge
        ensures { result ≡ record self { negated = not self.negated } }
    {
        Edge {
            node: self.node,
            negated: !self.negated,
        }
    }
}
