//! An edge to a gate as one or two conditions on the gate's operands.

ghost use Rattle.std.specs.Prelude.{◌≡◌, ◌<◌, ◌&&◌, ℕ, Bool, IfSome, if◌then◌else◌};
ghost use Rattle.bit_graph.specs.Meaning.{Consistent, IsBelow, NodeHolds, Stands, edge_value, exclusive_or};
ghost use Rattle.bit_clauses.specs.Splits.{SplitBelow, hold};

use crate::either::Either;
use bit_graph::{Edge, Graph, GraphNode};

/// One or two conditions, which are to hold together.
#[derive(Clone, Copy, Drop)]
pub struct Split {
    pub first: Either,
    pub second: Option<Either>,
}

/// The conditions on the operands that hold where the edge is true; `None` of an input or a constant.
pub fn halves(graph: &Graph, edge: Edge) -> Option<Split>
    requires { Stands graph.now edge }
    ensures below { IfSome result (SplitBelow edge.node) }
    ensures value { IfSome result (λ h. (v : ℕ → Bool) → Consistent v graph.now → edge_value v edge ≡ hold v h) }
{
    let node = graph.node(edge.node);
    halves_of(node, edge.node, edge.negated)
}

fn halves_of(node: GraphNode, number: usize, negated: bool) -> Option<Split>
    requires { IsBelow number node }
    ensures below { IfSome result (SplitBelow number) }
    ensures value { IfSome result (λ h. (v : ℕ → Bool) → NodeHolds v number node → exclusive_or negated (v number) ≡ hold v h) }
{
    match node {
        GraphNode::False | GraphNode::Input => None,
        GraphNode::And(a, b) => Some(halves_of_and(a, b, negated)),
        GraphNode::Xor(a, b) => Some(halves_of_xor(a, b, negated)),
        GraphNode::Choice(c, a, b) => Some(halves_of_choice(c, a, b, negated)),
    }
}

fn halves_of_and(a: Edge, b: Edge, negated: bool) -> Split
    ensures below { (k : ℕ) → a.node < k → b.node < k → SplitBelow k result }
    ensures value { (v : ℕ → Bool) → hold v result ≡ exclusive_or negated (edge_value v a && edge_value v b) }
{
    if negated {
        Split {
            first: Either {
                one: a.negation(),
                other: b.negation(),
            },
            second: None,
        }
    } else {
        Split {
            first: Either { one: a, other: a },
            second: Some(Either { one: b, other: b }),
        }
    }
}

fn halves_of_xor(a: usize, b: usize, negated: bool) -> Split
    ensures below { (k : ℕ) → a < k → b < k → SplitBelow k result }
    ensures value { (v : ℕ → Bool) → hold v result ≡ exclusive_or negated (exclusive_or (v a) (v b)) }
{
    let a = Edge::to(a);
    let b = Edge { node: b, negated };
    Split {
        first: Either { one: a, other: b },
        second: Some(Either {
            one: a.negation(),
            other: b.negation(),
        }),
    }
}

fn halves_of_choice(c: usize, a: usize, b: Edge, negated: bool) -> Split
    ensures below { (k : ℕ) → c < k → a < k → b.node < k → SplitBelow k result }
    ensures value { (v : ℕ → Bool) → hold v result ≡ exclusive_or negated (if v c then v a else edge_value v b) }
{
    let c = Edge::to(c);
    let a = Edge { node: a, negated };
    let b = Edge {
        node: b.node,
        negated: b.negated ^ negated,
    };
    Split {
        first: Either {
            one: c.negation(),
            other: a,
        },
        second: Some(Either { one: c, other: b }),
    }
}
