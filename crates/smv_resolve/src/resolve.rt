//! Expressions without names.

ghost use Rattle.std.specs.Prelude.{◌≡◌};
ghost use Rattle.smv_resolve.specs.Answers.{ResolvesItems, ResolvesOne, ResolvesWholly};
ghost use Rattle.smv_resolve.specs.declared.resolve.ResolveStop.TheVariants.{NoMemory};

use crate::listing::{add_instances, find_expression, find_wholly};
use crate::memo::empty_memo;
use crate::{ExprNode, Item};
use smv_scope::Scope;
use smv_tree::{Expr, Place};
use sqlite_items::Items;
use std::alloc::{AllocError, Global};

/// The items of a program over one list of nodes.
#[derive(Debug, Drop)]
pub struct Resolution {
    pub nodes: Items<ExprNode>,
    pub items: Items<Item>,
}

/// An expression as a node of a list.
#[derive(Debug, Drop)]
pub struct Single {
    pub nodes: Items<ExprNode>,
    pub root: usize,
}

/// Why expressions are not resolved.
#[derive(Debug, Drop)]
pub enum ResolveStop {
    /// At this place something leads nowhere, or lies too deep.
    Stuck(Place),
    /// Memory was refused, which may come at any time.
    NoMemory,
}

impl From<AllocError> for ResolveStop {
    ghost from_gives = { λ _ e. e ≡ NoMemory };

    fn from(_error: AllocError) -> ResolveStop {
        ResolveStop::NoMemory
    }
}

/// The items of a program, in the order of the source. The body of each definition of each instance, and what each
/// parameter was given, stands there once. Stuck names the place of the first item with a name that leads nowhere, or
/// that nests too deep where names are followed.
pub fn resolve_items(alloc: Global, scope: &Scope) -> Result<Resolution, ResolveStop>
    ensures { ResolvesItems scope.now.program result }
{
    let mut memo = empty_memo(alloc);
    let mut items = Items::new(alloc);
    add_instances(scope, &mut memo, &mut items, scope.tree.as_slice())?;
    Ok(Resolution {
        nodes: memo.nodes,
        items,
    })
}

/// An expression that stands in the instance of this number. Stuck names the place of its first part, in the order of
/// the text, that leads nowhere or nests too deep: a name, or what opens one level too many.
pub fn resolve_expression(
    alloc: Global,
    scope: &Scope,
    at: usize,
    e: &Expr,
) -> Result<Single, ResolveStop>
    ensures { ResolvesOne scope.now.program at e.now result }
{
    let mut memo = empty_memo(alloc);
    let root = find_expression(scope, &mut memo, at, e)?;
    Ok(Single {
        nodes: memo.nodes,
        root,
    })
}

/// The same where names are followed as far as they lead.
pub fn resolve_wholly(
    alloc: Global,
    scope: &Scope,
    at: usize,
    e: &Expr,
) -> Result<Single, ResolveStop>
    ensures { ResolvesWholly scope.now.program at e.now result }
{
    let mut memo = empty_memo(alloc);
    let root = find_wholly(scope, &mut memo, at, e)?;
    Ok(Single {
        nodes: memo.nodes,
        root,
    })
}
