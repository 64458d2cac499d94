//! Nodes that are to be true, or false.

ghost use Rattle.std.specs.Prelude.{◌≡◌, ◌<◌, ◌≤◌, ◌↔◌, ℕ, Bool, true, length};
ghost use Rattle.bit_graph.specs.Meaning.{edge_value};
ghost use Rattle.bit_clauses.specs.Claims.{Claimed};

use bit_graph::Edge;

/// Which nodes are to be true, and which false.
#[derive(Drop)]
pub struct Claims {
    pub on: Vec<bool>,
    pub off: Vec<bool>,
}

impl Claims {
    /// Claims that the edge is true.
    pub fn add(&mut self, edge: Edge)
        requires on { edge.node < length self.old.on.items }
        requires off { edge.node < length self.old.off.items }
        ensures on { length self.new.on.items ≡ length self.old.on.items }
        ensures off { length self.new.off.items ≡ length self.old.off.items }
        ensures claims { (v : ℕ → Bool) (k : ℕ) → edge.node < k → Claimed v self.new k ↔ (Claimed v self.old k × (edge_value v edge ≡ true)) }
    {
        if edge.negated {
            self.off[edge.node] = true;
        } else {
            self.on[edge.node] = true;
        }
    }
}
