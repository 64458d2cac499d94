//! Clauses for the gates below some roots, with a variable for each node (Tseitin 1968).

ghost use Rattle.std.specs.Prelude.{◌≡◌, ◌<◌, ◌≤◌, ℕ, Bool, List, [], ◌∷◌, ◌++◌, length, IfOk, OnOk, All, map, if◌then◌else◌};
ghost use Rattle.bit_graph.specs.Meaning.{Stands, IsBelow};
ghost use Rattle.clause_core.specs.Literals.{Within};
ghost use Rattle.cnf_build.specs.Cone.{marked};
ghost use Rattle.cnf_build.specs.Encoding.{lit, node_lit, clauses_of, forced};
ghost use Rattle.cnf_build.specs.CnfMeaning.{CnfLaw, IsCnf};
ghost use Rattle.cnf_build.specs.Numbering.{name_in};

use crate::cone::cone;
use crate::numbers::numbers;
use bit_graph::{Edge, Graph, GraphNode};
use clause_core::{Clauses, Lit};
use std::alloc::{AllocError, Global};

/// Clauses over the variables below a number, and a literal for each root.
#[derive(Drop)]
pub struct Cnf {
    /// How many variables there are.
    pub vars: usize,
    /// What the roots' nodes and all that they stand on say.
    pub clauses: Clauses,
    /// The literal of each root, in the roots' order.
    pub roots: Vec<Lit>,
}

/// The clauses of the nodes that the roots reach, with a variable for each of these nodes and for each
/// input, in the nodes' order: where the inputs are the first nodes, input k is variable k.
///
/// It takes time and memory in proportion to the number of nodes, at most six clauses a node, and
/// no recursion. The only error is out of memory.
pub fn clauses(alloc: Global, graph: &Graph, roots: &[Edge]) -> Result<Cnf, AllocError>
    requires { All (Stands graph.now) roots.now }
    ensures law { IfOk result (λ c. CnfLaw graph.now roots.now c.vars c.clauses c.roots.items) }
    ensures within { IfOk result (λ c. All (Within c.vars) c.clauses) }
    ensures roots_within { IfOk result (λ c. Within c.vars c.roots.items) }
{
    graph.one_way();
    let _ = graph.len();
    let cnf = encoding(alloc, graph, roots)?;
    Ok(cnf)
}

fn encoding(alloc: Global, graph: &Graph, roots: &[Edge]) -> Result<Cnf, AllocError>
    requires { All (Stands graph.now) roots.now }
    ensures { IfOk result (λ c. IsCnf graph.now roots.now c.vars c.clauses c.roots.items) }
{
    let marks = cone(alloc, graph, roots)?;
    let (names, vars) = numbers(alloc, graph, &marks)?;
    let mut clauses = Clauses::new(alloc);
    'nodes: for k in 0..graph.len() {
        push_live(&mut clauses, marks[k], &names, k, graph.node(k))?;
    }
    let mut lits = Vec::new(alloc);
    'roots: for e in roots {
        lits.push(literal(&names, *e))?;
    }
    Ok(Cnf {
        vars,
        clauses,
        roots: lits,
    })
}

fn push_live(
    clauses: &mut Clauses,
    live: bool,
    names: &[usize],
    k: usize,
    node: GraphNode,
) -> Result<(), AllocError>
    requires size { k < length names.now }
    requires below { IsBelow k node }
    ensures { OnOk result (clauses.new ≡ clauses.old ++ (if live then clauses_of (name_in names.now) k node else [])) }
{
    if live {
        push_node(clauses, names, k, node)?;
    }
    Ok(())
}

// Adds the clauses of one node.
fn push_node(
    clauses: &mut Clauses,
    names: &[usize],
    k: usize,
    node: GraphNode,
) -> Result<(), AllocError>
    requires size { k < length names.now }
    requires below { IsBelow k node }
    ensures { OnOk result (clauses.new ≡ clauses.old ++ clauses_of (name_in names.now) k node) }
{
    match node {
        GraphNode::False => clauses.push(&[Lit::new(names[k], false)])?,
        GraphNode::Input => {}
        GraphNode::And(a, b) => {
            let off = Lit::new(names[k], false);
            let a = literal(names, a);
            let b = literal(names, b);
            clauses.push(&[off, a])?;
            clauses.push(&[off, b])?;
            push_forced(clauses, names, k, true, a, b)?;
        }
        GraphNode::Xor(a, b) => {
            let a = Lit::new(names[a], true);
            let b = Lit::new(names[b], true);
            push_forced(clauses, names, k, false, a, b)?;
            push_forced(clauses, names, k, true, a, b.negated())?;
            push_forced(clauses, names, k, true, a.negated(), b)?;
            push_forced(clauses, names, k, false, a.negated(), b.negated())?;
        }
        GraphNode::Choice(c, a, b) => {
            let c = Lit::new(names[c], true);
            let yes = Lit::new(names[a], true);
            let no = literal(names, b);
            push_forced(clauses, names, k, true, c, yes)?;
            push_forced(clauses, names, k, false, c, yes.negated())?;
            push_forced(clauses, names, k, true, c.negated(), no)?;
            push_forced(clauses, names, k, false, c.negated(), no.negated())?;
            // by these two, branches that are alike decide the node without the condition
            push_forced(clauses, names, k, true, yes, no)?;
            push_forced(clauses, names, k, false, yes.negated(), no.negated())?;
        }
    }
    Ok(())
}

// Adds the clause that node k has this value where both literals are true.
fn push_forced(
    clauses: &mut Clauses,
    names: &[usize],
    k: usize,
    value: bool,
    l: Lit,
    m: Lit,
) -> Result<(), AllocError>
    requires { k < length names.now }
    ensures { OnOk result (clauses.new ≡ clauses.old ++ (forced (name_in names.now) k value l m ∷ [])) }
{
    clauses.push(&[Lit::new(names[k], value), l.negated(), m.negated()])
}

fn literal(names: &[usize], e: Edge) -> Lit
    requires { e.node < length names.now }
    ensures { result ≡ lit (name_in names.now) e }
{
    Lit::new(names[e.node], !e.negated)
}
