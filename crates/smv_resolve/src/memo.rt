//! The nodes that stand so far, and which of them stand for what names share.

ghost use Rattle.std.specs.Prelude.{◌≡◌, ◌<◌, ◌≤◌, length, [], ◌∷◌, ◌++◌, map, IfOk, OnOk, IfSome};
ghost use Rattle.std.specs.List.{All};
ghost use Rattle.std.specs.HashMap.{get};
ghost use Rattle.smv_tree.specs.declared.tree.Program.{Program};
ghost use Rattle.smv_scope.specs.Targets.{shared_eq};
ghost use Rattle.smv_resolve.specs.Resolved.{Resolved, operands_of, parts_of, part_of, resolved_by};
ghost use Rattle.smv_resolve.specs.Finding.{Grows, Known, AllKnown, IsKept};
ghost use Rattle.smv_resolve.specs.declared.memo.ResolveError.TheVariants.{NoMemory};

use crate::ExprNode;
use smv_scope::Shared;
use smv_tree::Place;
use smv_value::Operator;
use sqlite_items::Items;
use std::alloc::{AllocError, AllocFailed, Global};
use std::collections::{HashMap, HashSet};

/// The node of an expression, and the levels that are opened below it.
#[derive(Clone, Copy, Debug, Drop)]
pub struct FoundNode {
    pub node: usize,
    pub height: usize,
}

/// The nodes so far, and what was found of them for what names share.
#[derive(Drop)]
pub struct Memo {
    pub nodes: Items<ExprNode>,
    pub known: HashMap<Shared, FoundNode>,
    /// What was begun of what names share.
    pub begun: HashSet<Shared>,
    /// For what is kept while a node is found.
    pub alloc: Global,
}

/// Why there is no node.
#[derive(Debug, Drop)]
pub enum ResolveError {
    /// At this place something leads nowhere, or lies too deep.
    Stuck(Place),
    /// Memory was refused, which may come at any time.
    NoMemory,
}

impl From<AllocError> for ResolveError {
    ghost from_gives = { λ _ e. e ≡ NoMemory };

    fn from(_error: AllocError) -> ResolveError {
        ResolveError::NoMemory
    }
}

impl<T: Drop> From<AllocFailed<T>> for ResolveError {
    ghost from_gives = { λ _ e. e ≡ NoMemory };

    fn from(_error: AllocFailed<T>) -> ResolveError {
        ResolveError::NoMemory
    }
}

/// No nodes, and nothing known.
pub fn empty_memo(alloc: Global) -> Memo
    ensures nodes { result.nodes ≡ [] }
    ensures known { (p : Program) → AllKnown p result }
{
    Memo {
        nodes: Items::new(alloc),
        known: HashMap::new(alloc),
        begun: HashSet::new(alloc),
        alloc,
    }
}

// What follows is kept out of the frames of the recursion, which are many.

/// One node more, over those before it.
#[inline(never)]
pub fn push(memo: &mut Memo, node: ExprNode) -> Result<usize, AllocError>
    ensures grows { OnOk result (Grows memo.old.nodes memo.new.nodes) }
    ensures known { OnOk result ((p : Program) → AllKnown p memo.old → AllKnown p memo.new) }
    ensures stands { IfOk result (λ n. n < length memo.new.nodes) }
    ensures parts { OnOk result (parts_of memo.new.nodes ≡ parts_of memo.old.nodes ++ resolved_by (parts_of memo.old.nodes) node ∷ []) }
    ensures value { IfOk result (λ n. part_of memo.new.nodes n ≡ resolved_by (parts_of memo.old.nodes) node) }
{
    let number = memo.nodes.len();
    memo.nodes.push(node)?;
    Ok(number)
}

/// An operator over the nodes of these numbers.
#[inline(never)]
pub fn push_apply(
    memo: &mut Memo,
    place: Place,
    operator: Operator,
    operands: &[usize],
) -> Result<usize, AllocError>
    requires { All (λ k. k < length memo.old.nodes) operands.now }
    ensures grows { OnOk result (Grows memo.old.nodes memo.new.nodes) }
    ensures known { OnOk result ((p : Program) → AllKnown p memo.old → AllKnown p memo.new) }
    ensures stands { IfOk result (λ n. n < length memo.new.nodes) }
    ensures value { IfOk result (λ n. part_of memo.new.nodes n ≡ Resolved.Apply place operator (operands_of (map (part_of memo.old.nodes) operands.now))) }
{
    for k in operands {
        push(memo, ExprNode::Operand(*k))?;
    }
    let node = push(memo, ExprNode::Apply(place, operator, operands.len()))?;
    Ok(node)
}

/// What is known of this.
#[inline(never)]
pub fn get(memo: &Memo, shared: Shared) -> Option<FoundNode>
    ensures found { result ≡ get shared_eq memo.now.known shared }
    ensures right { IfSome result (λ found. (p : Program) → AllKnown p memo.now → Known p memo.now.nodes shared found) }
{
    match memo.known.get(&shared) {
        None => None,
        Some(found) => Some(*found),
    }
}

/// From now on this is known.
#[inline(never)]
pub fn insert(
    memo: &mut Memo,
    shared: Shared,
    found: FoundNode,
) -> Result<(), AllocFailed<(Shared, FoundNode)>>
    ensures nodes { memo.new.nodes ≡ memo.old.nodes }
    ensures known { OnOk result ((p : Program) → AllKnown p memo.old → Known p memo.old.nodes shared found → AllKnown p memo.new) }
    ensures kept { OnOk result (IsKept memo.new shared) }
{
    memo.known.insert(shared, found)?;
    Ok(())
}

/// From now on it is begun.
pub fn begin(memo: &mut Memo, shared: Shared) -> Result<(), AllocError>
    ensures nodes { memo.new.nodes ≡ memo.old.nodes }
    ensures known { (p : Program) → AllKnown p memo.old → AllKnown p memo.new }
{
    memo.begun.insert(shared)?;
    Ok(())
}
