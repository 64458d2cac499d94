//! The nodes of an expression.

ghost use Rattle.std.specs.Prelude.{◌≡◌, ℕ, OnOk};
ghost use Rattle.smv_tree.specs.declared.tree.Expr.{Expr};
ghost use Rattle.smv_value.specs.declared.value.Value.TheVariants.{Sym};
ghost use Rattle.smv_resolve.specs.Resolved.{Resolved, operands_of, opened, lowered, levelled, followed, resolved_name, resolved_links, resolved_operands, place_of_start};
ghost use Rattle.smv_resolve.specs.Levels.{levels_before};
ghost use Rattle.smv_resolve.specs.Finding.{Grows, AllKnown, Finds, IsKept, IsShared, UnlessMemory, error_at};
ghost use Rattle.smv_resolve.specs.StuckParts.{TellsPart, stuck_below, stuck_links, stuck_name, stuck_operands, stuck_part};

use crate::dots::levels_before;
use crate::memo::{FoundNode, Memo, ResolveError, get, insert, push, push_apply};
use crate::{ExprNode, Naming};
use smv_scope::{NameTarget, Scope, Shared, name_target};
use smv_tree::{Expr, Name, Place, Start};
use smv_value::{Operator, Value};

/// The node of an expression that stands in the instance of this number, where `depth` levels may be opened. Memory is
/// refused where more than `room` nodes stand one in another, as the stack would not hold the way to them.
#[cycle(expressions)]
pub fn find(
    scope: &Scope,
    memo: &mut Memo,
    room: usize,
    depth: usize,
    at: usize,
    e: &Expr,
) -> Result<FoundNode, ResolveError>
    requires { AllKnown scope.now.program memo.old }
    ensures known { UnlessMemory result (AllKnown scope.now.program memo.new) }
    ensures grows { UnlessMemory result (Grows memo.old.nodes memo.new.nodes) }
    ensures finds { Finds memo.new.nodes depth (λ n. levelled scope.now.program n at e.now) result }
    ensures part { TellsPart depth (λ n. stuck_part scope.now.program n at e.now) result }
{
    if room == 0 {
        return Err(ResolveError::NoMemory);
    }
    let room = room - 1;
    match e {
        Expr::Constant(place, value) => find_constant(scope, memo, depth, *place, *value),
        Expr::Name(name) => find_name(scope, memo, room, depth, at, name),
        Expr::Group(place, inner) => find_below(scope, memo, room, depth, at, *place, inner.get()),
        Expr::Next(place, a) => find_next(scope, memo, room, depth, at, *place, a.get()),
        Expr::Apply(place, operator, beside, below) => find_apply(
            scope,
            memo,
            room,
            depth,
            at,
            *place,
            *operator,
            beside.as_slice(),
            below.as_slice(),
        ),
        Expr::Chain(first, links) => {
            find_chain(scope, memo, room, depth, at, first.get(), links.as_slice())
        }
    }
}

// One level down, which what stands at this place opens: an expression there is found in itself, and as what a name
// stands for.
#[cycle(expressions)]
fn find_below(
    scope: &Scope,
    memo: &mut Memo,
    room: usize,
    depth: usize,
    at: usize,
    place: Place,
    e: &Expr,
) -> Result<FoundNode, ResolveError>
    requires { AllKnown scope.now.program memo.old }
    ensures known { UnlessMemory result (AllKnown scope.now.program memo.new) }
    ensures grows { UnlessMemory result (Grows memo.old.nodes memo.new.nodes) }
    ensures finds { Finds memo.new.nodes depth (λ n. opened (levelled scope.now.program n at e.now)) result }
    ensures follows { Finds memo.new.nodes depth (λ n. opened (followed scope.now.program n at e.now)) result }
    ensures part { TellsPart depth (λ n. stuck_below place (stuck_part scope.now.program n at e.now)) result }
{
    if depth == 0 {
        return Err(ResolveError::Stuck(place));
    }
    let below = find(scope, memo, room, depth - 1, at, e)?;
    Ok(FoundNode {
        node: below.node,
        height: below.height + 1,
    })
}

fn find_constant(
    _scope: &Scope,
    memo: &mut Memo,
    _depth: usize,
    place: Place,
    value: Value,
) -> Result<FoundNode, ResolveError>
    requires { AllKnown _scope.now.program memo.old }
    ensures known { UnlessMemory result (AllKnown _scope.now.program memo.new) }
    ensures grows { UnlessMemory result (Grows memo.old.nodes memo.new.nodes) }
    ensures finds { Finds memo.new.nodes _depth (λ n d. Resolved.Constant place value) result }
{
    let node = push(memo, ExprNode::Constant(place, value))?;
    Ok(FoundNode { node, height: 0 })
}

fn find_variable(
    _scope: &Scope,
    memo: &mut Memo,
    _depth: usize,
    place: Place,
    n: usize,
) -> Result<FoundNode, ResolveError>
    requires { AllKnown _scope.now.program memo.old }
    ensures known { UnlessMemory result (AllKnown _scope.now.program memo.new) }
    ensures grows { UnlessMemory result (Grows memo.old.nodes memo.new.nodes) }
    ensures finds { Finds memo.new.nodes _depth (λ names d. Resolved.Slot place n) result }
{
    let node = push(memo, ExprNode::Slot(place, n))?;
    Ok(FoundNode { node, height: 0 })
}

// A symbol is a constant. Memory is refused where there are more symbols than a value can tell apart.
fn find_symbol(
    scope: &Scope,
    memo: &mut Memo,
    depth: usize,
    place: Place,
    n: usize,
) -> Result<FoundNode, ResolveError>
    requires { AllKnown scope.now.program memo.old }
    ensures known { UnlessMemory result (AllKnown scope.now.program memo.new) }
    ensures grows { UnlessMemory result (Grows memo.old.nodes memo.new.nodes) }
    ensures finds { Finds memo.new.nodes depth (λ names d. Resolved.Constant place (Sym n)) result }
{
    if n > u32::MAX as usize {
        return Err(ResolveError::NoMemory);
    }
    find_constant(scope, memo, depth, place, Value::Sym(n as u32))
}

fn find_whole(
    _scope: &Scope,
    memo: &mut Memo,
    _depth: usize,
    place: Place,
    i: usize,
) -> Result<FoundNode, ResolveError>
    requires { AllKnown _scope.now.program memo.old }
    ensures known { UnlessMemory result (AllKnown _scope.now.program memo.new) }
    ensures grows { UnlessMemory result (Grows memo.old.nodes memo.new.nodes) }
    ensures finds { Finds memo.new.nodes _depth (λ n d. Resolved.Whole place i) result }
{
    let node = push(memo, ExprNode::Whole(place, i))?;
    Ok(FoundNode { node, height: 0 })
}

#[cycle(expressions)]
fn find_next(
    scope: &Scope,
    memo: &mut Memo,
    room: usize,
    depth: usize,
    at: usize,
    place: Place,
    a: &Expr,
) -> Result<FoundNode, ResolveError>
    requires { AllKnown scope.now.program memo.old }
    ensures known { UnlessMemory result (AllKnown scope.now.program memo.new) }
    ensures grows { UnlessMemory result (Grows memo.old.nodes memo.new.nodes) }
    ensures finds { Finds memo.new.nodes depth (λ n d. Resolved.Next place (opened (levelled scope.now.program n at a.now) d)) result }
    ensures part { TellsPart depth (λ n. stuck_below place (stuck_part scope.now.program n at a.now)) result }
{
    let operand = find_below(scope, memo, room, depth, at, place, a)?;
    let node = push(memo, ExprNode::Next(place, operand.node))?;
    Ok(FoundNode {
        node,
        height: operand.height,
    })
}

// An operator over operands that stand beside it, and then over others a level below it.
#[cycle(expressions)]
fn find_apply(
    scope: &Scope,
    memo: &mut Memo,
    room: usize,
    depth: usize,
    at: usize,
    place: Place,
    operator: Operator,
    beside: &[Expr],
    below: &[Expr],
) -> Result<FoundNode, ResolveError>
    requires { AllKnown scope.now.program memo.old }
    ensures known { UnlessMemory result (AllKnown scope.now.program memo.new) }
    ensures grows { UnlessMemory result (Grows memo.old.nodes memo.new.nodes) }
    ensures finds { Finds memo.new.nodes depth (λ n d. Resolved.Apply place operator (operands_of (resolved_operands (levelled scope.now.program n at) beside.now below.now d))) result }
    ensures part { TellsPart depth (λ n. stuck_operands place (stuck_part scope.now.program n at) beside.now below.now) result }
{
    let mut operands = Vec::new(memo.alloc);
    let mut height = 0;
    for e in beside {
        let same = find(scope, memo, room, depth, at, e)?;
        operands.push(same.node)?;
        height = same.height.max(height);
    }
    for lower in below {
        let next = find_below(scope, memo, room, depth, at, place, lower)?;
        operands.push(next.node)?;
        height = next.height.max(height);
    }
    let node = push_apply(memo, place, operator, operands.as_slice())?;
    Ok(FoundNode { node, height })
}

// A chain, whose operators are taken from left to right. All its operands stand on its own level.
#[cycle(expressions)]
fn find_chain(
    scope: &Scope,
    memo: &mut Memo,
    room: usize,
    depth: usize,
    at: usize,
    first: &Expr,
    links: &[(Place, Operator, Expr)],
) -> Result<FoundNode, ResolveError>
    requires { AllKnown scope.now.program memo.old }
    ensures known { UnlessMemory result (AllKnown scope.now.program memo.new) }
    ensures grows { UnlessMemory result (Grows memo.old.nodes memo.new.nodes) }
    ensures finds { Finds memo.new.nodes depth (λ n d. resolved_links (λ (e : Expr). levelled scope.now.program n at e d) (levelled scope.now.program n at first.now d) links.now) result }
    ensures part { TellsPart depth (λ n. stuck_links (stuck_part scope.now.program n at) first.now links.now) result }
{
    let start = find(scope, memo, room, depth, at, first)?;
    let mut left = start;
    for link in links {
        let right = find(scope, memo, room, depth, at, &link.2)?;
        let node = push(memo, ExprNode::Link(link.0, link.1, left.node, right.node))?;
        let height = left.height.max(right.height);
        left = FoundNode { node, height };
    }
    Ok(left)
}

// A name opens the levels that are followed before its dots. It is stuck at its own place.
#[cycle(expressions)]
fn find_name(
    scope: &Scope,
    memo: &mut Memo,
    room: usize,
    depth: usize,
    at: usize,
    name: &Name,
) -> Result<FoundNode, ResolveError>
    requires { AllKnown scope.now.program memo.old }
    ensures known { UnlessMemory result (AllKnown scope.now.program memo.new) }
    ensures grows { UnlessMemory result (Grows memo.old.nodes memo.new.nodes) }
    ensures finds { Finds memo.new.nodes depth (λ n. lowered (levels_before scope.now.program at name.now) (resolved_name scope.now.program (followed scope.now.program n) at name.now)) result }
    ensures part { TellsPart depth (λ n. stuck_name scope.now.program (followed scope.now.program n) at name.now) result }
{
    let place = place_of_start(&name.start);
    let levels = levels_before(scope, at, name);
    if depth < levels {
        return Err(ResolveError::Stuck(place));
    }
    match find_target(scope, memo, room, depth - levels, at, name) {
        Ok(found) => Ok(FoundNode {
            node: found.node,
            height: found.height + levels,
        }),
        Err(error) => Err(error_at(error, place)),
    }
}

// The same error, told at this place.
fn error_at(error: ResolveError, place: Place) -> ResolveError
    ensures { result ≡ error_at error place }
{
    match error {
        ResolveError::Stuck(_) => ResolveError::Stuck(place),
        ResolveError::NoMemory => ResolveError::NoMemory,
    }
}

// What the name leads to.
#[cycle(expressions)]
fn find_target(
    scope: &Scope,
    memo: &mut Memo,
    room: usize,
    depth: usize,
    at: usize,
    name: &Name,
) -> Result<FoundNode, ResolveError>
    requires { AllKnown scope.now.program memo.old }
    ensures known { UnlessMemory result (AllKnown scope.now.program memo.new) }
    ensures grows { UnlessMemory result (Grows memo.old.nodes memo.new.nodes) }
    ensures finds { Finds memo.new.nodes depth (λ n. resolved_name scope.now.program (followed scope.now.program n) at name.now) result }
{
    let place = place_of_start(&name.start);
    match name_target(scope, at, name) {
        NameTarget::Variable(n) => find_variable(scope, memo, depth, place, n),
        NameTarget::Whole(i) => find_whole(scope, memo, depth, place, i),
        NameTarget::Given {
            at: of,
            parameter,
            owner,
            argument,
        } => {
            let shared = Shared {
                is_definition: false,
                at: of,
                number: parameter,
            };
            let naming = Naming::Given;
            find_named(
                scope, memo, room, depth, place, naming, shared, owner, argument,
            )
        }
        NameTarget::Defined {
            at: of,
            definition,
            body,
        } => {
            let shared = Shared {
                is_definition: true,
                at: of,
                number: definition,
            };
            let naming = Naming::Defined;
            find_named(scope, memo, room, depth, place, naming, shared, of, body)
        }
        NameTarget::Symbol(n) => find_symbol(scope, memo, depth, place, n),
        NameTarget::Unknown | NameTarget::TooFar => Err(ResolveError::Stuck(place)),
    }
}

/// The place of a name.
pub fn place_of_start(start: &Start) -> Place
    ensures { result ≡ place_of_start start.now }
{
    match start {
        Start::Own(x) => x.place,
        Start::Itself(place) => *place,
    }
}

#[cycle(expressions)]
fn find_named(
    scope: &Scope,
    memo: &mut Memo,
    room: usize,
    depth: usize,
    place: Place,
    naming: Naming,
    shared: Shared,
    at: usize,
    e: &Expr,
) -> Result<FoundNode, ResolveError>
    requires known { AllKnown scope.now.program memo.old }
    requires leads { IsShared scope.now.program shared at e.now }
    ensures known { UnlessMemory result (AllKnown scope.now.program memo.new) }
    ensures grows { UnlessMemory result (Grows memo.old.nodes memo.new.nodes) }
    ensures finds { Finds memo.new.nodes depth (λ n d. Resolved.Named place naming (opened (followed scope.now.program n at e.now) d)) result }
{
    let named = find_shared(scope, memo, room, depth, place, shared, at, e)?;
    let node = push(memo, ExprNode::Named(place, naming, named.node))?;
    Ok(FoundNode {
        node,
        height: named.height,
    })
}

/// What names share is found once. The place is that of a name of these; where it is stuck, that of some part is told.
#[cycle(expressions)]
pub fn find_shared(
    scope: &Scope,
    memo: &mut Memo,
    room: usize,
    depth: usize,
    place: Place,
    shared: Shared,
    at: usize,
    e: &Expr,
) -> Result<FoundNode, ResolveError>
    requires known { AllKnown scope.now.program memo.old }
    requires leads { IsShared scope.now.program shared at e.now }
    ensures known { UnlessMemory result (AllKnown scope.now.program memo.new) }
    ensures grows { UnlessMemory result (Grows memo.old.nodes memo.new.nodes) }
    ensures finds { Finds memo.new.nodes depth (λ n. opened (followed scope.now.program n at e.now)) result }
    ensures kept { OnOk result (IsKept memo.new shared) }
{
    if let Some(found) = get(memo, shared) {
        if found.height <= depth {
            return Ok(found);
        }
        return Err(ResolveError::Stuck(place));
    }
    let found = find_below(scope, memo, room, depth, at, place, e)?;
    insert(memo, shared, found)?;
    Ok(found)
}
