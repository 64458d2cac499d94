//! The levels that are opened before the dots of names.

ghost use Rattle.std.specs.Prelude.{◌≡◌, ◌≤◌};
ghost use Rattle.smv_tree.specs.declared.tree.Expr.{out-Expr};
ghost use Rattle.smv_scope.specs.Lookup.{depth_limit};
ghost use Rattle.smv_scope.specs.Targets.{seen};
ghost use Rattle.smv_resolve.specs.Levels.{levels_before, levels_by_node, levels_of_target, levels_within};

use smv_scope::{DEPTH_LIMIT, NameTarget, Scope, start_target};
use smv_tree::{Expr, Name};

/// The levels that are opened before the dots of a name that stands in the instance of this number: one for each
/// parameter that is followed there, and one for each parenthesis around what it was given.
#[tactic(auto, unfolding(crate::specs::Levels::levels_before))]
#[inline(never)]
pub fn levels_before(scope: &Scope, instance: usize, name: &Name) -> usize
    ensures levels { result ≡ levels_before scope.now.program instance name.now }
    ensures few { result ≤ depth_limit }
{
    if name.members.as_slice().is_empty() {
        return 0;
    }
    let start = start_target(scope, instance, &name.start);
    levels_of_target(scope, DEPTH_LIMIT, start)
}

// The same from a target on, where at most so many levels are opened.
#[cycle(levels)]
fn levels_of_target<'a>(scope: &'a Scope, depth: usize, target: NameTarget<'a>) -> usize
    ensures levels { result ≡ levels_of_target (levels_within scope.now.program depth) (seen target.entry) }
    ensures few { result ≤ depth }
{
    match target {
        NameTarget::Given {
            owner,
            argument,
            ..
        } => levels_within(scope, depth, owner, argument),
        _ => 0,
    }
}

// The same from an expression on, which a parameter was given.
#[cycle(levels)]
fn levels_within(scope: &Scope, depth: usize, instance: usize, e: &Expr) -> usize
    ensures levels { result ≡ levels_within scope.now.program depth instance e.now }
    ensures few { result ≤ depth }
{
    if depth == 0 {
        return 0;
    }
    let below = levels_by_node(scope, depth - 1, instance, e);
    below + 1
}

// The same behind the level that the expression opens.
#[cycle(levels)]
fn levels_by_node(scope: &Scope, depth: usize, instance: usize, e: &Expr) -> usize
    ensures levels { result ≡ levels_by_node scope.now.program (levels_within scope.now.program depth) instance (out-Expr e.now) }
    ensures few { result ≤ depth }
{
    match e {
        Expr::Name(name) => {
            let start = start_target(scope, instance, &name.start);
            levels_of_target(scope, depth, start)
        }
        Expr::Group(_, inner) => levels_within(scope, depth, instance, inner.get()),
        _ => 0,
    }
}
