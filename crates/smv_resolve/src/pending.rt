//! What names share is found before the expressions that name it, by a list of what is pending, so that no way from
//! name to name lies on the stack.

ghost use Rattle.std.specs.Prelude.{◌≡◌, true, IfOk, OnOk};
ghost use Rattle.smv_tree.specs.declared.tree.Program.{Program};
ghost use Rattle.smv_resolve.specs.Finding.{Grows, AllKnown, IsKept, IsShared};
ghost use Rattle.smv_resolve.specs.Pending.{AllLead, Leads};

use crate::expressions::find_shared;
use crate::first_places::first_place;
use crate::memo::{Memo, ResolveError, begin};
use smv_scope::{NameTarget, Scope, Shared, name_target};
use smv_tree::{Expr, Name, names_in};
use sqlite_items::Items;
use std::alloc::AllocError;

// So many nodes stand one in another in an expression that is parsed, names aside: up to 256 levels of it are open, and
// between two of them there are at most fifteen nodes, one for each level of precedence that opens none, and what opens
// the next level. Selections come on top: of more than 250 one over another some names may find no room, which is
// answered as out of memory.
const ROOM: usize = 16 * 257;

// What names share is found however deep it lies.
const ANY_DEPTH: usize = usize::MAX;

/// What a name stands for: an expression that stands in the instance of this number.
#[derive(Clone, Copy, Debug, Drop)]
pub struct Pending<'a> {
    pub shared: Shared,
    pub at: usize,
    pub e: &'a Expr,
    /// What it names in turn stands above it on the list.
    pub is_begun: bool,
}

/// Finds what an expression names, and what is named there in turn, each after those that it names. Where a name leads
/// nowhere, too far or to itself, some may be left.
pub fn find_named(scope: &Scope, memo: &mut Memo, at: usize, e: &Expr) -> Result<(), AllocError>
    requires { AllKnown scope.now.program memo.old }
    ensures known { OnOk result (AllKnown scope.now.program memo.new) }
    ensures grows { OnOk result (Grows memo.old.nodes memo.new.nodes) }
{
    let mut pending = Items::new(memo.alloc);
    if !push_names(scope, memo, &mut pending, at, e)? {
        return Ok(());
    }
    find_pending(scope, memo, &mut pending)
}

// Finds what is on the list until nothing is, or a name leads nowhere, too far or to itself.
fn find_pending<'a>(
    scope: &'a Scope,
    memo: &mut Memo,
    pending: &mut Items<Pending<'a>>,
) -> Result<(), AllocError>
    requires known { AllKnown scope.now.program memo.old }
    requires lead { AllLead scope.now.program pending.old }
    ensures known { OnOk result (AllKnown scope.now.program memo.new) }
    ensures grows { OnOk result (Grows memo.old.nodes memo.new.nodes) }
{
    'pending: for _ in 0..u64::MAX {
        let Some(next) = pending.pop() else {
            return Ok(());
        };
        if !take_up(scope, memo, pending, next)? {
            return Ok(());
        }
    }
    Ok(())
}

// Finds what is next, or puts on the list what it names. The answer is whether there is more to do.
fn take_up<'a>(
    scope: &'a Scope,
    memo: &mut Memo,
    pending: &mut Items<Pending<'a>>,
    next: Pending<'a>,
) -> Result<bool, AllocError>
    requires known { AllKnown scope.now.program memo.old }
    requires lead { AllLead scope.now.program pending.old }
    requires leads { Leads scope.now.program next }
    ensures known { OnOk result (AllKnown scope.now.program memo.new) }
    ensures grows { OnOk result (Grows memo.old.nodes memo.new.nodes) }
    ensures lead { OnOk result (AllLead scope.now.program pending.new) }
{
    if next.is_begun {
        return find_next(scope, memo, next);
    }
    if memo.known.contains_key(&next.shared) {
        return Ok(true);
    }
    begin(memo, next.shared)?;
    pending.push(Pending {
        is_begun: true,
        ..next
    })?;
    let goes_on = push_names(scope, memo, pending, next.at, next.e)?;
    Ok(goes_on)
}

// All that it names is known, and then it is. The answer is whether there is more to do, as there is unless it is
// stuck.
fn find_next(scope: &Scope, memo: &mut Memo, next: Pending) -> Result<bool, AllocError>
    requires known { AllKnown scope.now.program memo.old }
    requires leads { Leads scope.now.program next }
    ensures known { OnOk result (AllKnown scope.now.program memo.new) }
    ensures grows { OnOk result (Grows memo.old.nodes memo.new.nodes) }
    ensures kept { IfOk result (λ goes_on. goes_on ≡ true → IsKept memo.new next.entry.shared) }
{
    let place = first_place(next.e);
    match find_shared(
        scope,
        memo,
        ROOM,
        ANY_DEPTH,
        place,
        next.shared,
        next.at,
        next.e,
    ) {
        Ok(_) => Ok(true),
        Err(ResolveError::Stuck(_)) => Ok(false),
        Err(ResolveError::NoMemory) => Err(AllocError),
    }
}

// Puts on the list what the names of an expression stand for, as far as it is not known. The answer is whether each of
// them leads somewhere, and to nothing that was begun.
fn push_names<'a>(
    scope: &'a Scope,
    memo: &Memo,
    pending: &mut Items<Pending<'a>>,
    at: usize,
    e: &'a Expr,
) -> Result<bool, AllocError>
    requires { AllLead scope.now.program pending.old }
    ensures { OnOk result (AllLead scope.now.program pending.new) }
{
    let names = names_in(memo.alloc, e)?;
    push_each(scope, memo, pending, at, names.as_slice())
}

// The same of these names.
fn push_each<'a>(
    scope: &'a Scope,
    memo: &Memo,
    pending: &mut Items<Pending<'a>>,
    at: usize,
    names: &[&Name],
) -> Result<bool, AllocError>
    requires { AllLead scope.now.program pending.old }
    ensures { OnOk result (AllLead scope.now.program pending.new) }
{
    for name in names {
        if !push_name(scope, memo, pending, at, name)? {
            return Ok(false);
        }
    }
    Ok(true)
}

fn push_name<'a>(
    scope: &'a Scope,
    memo: &Memo,
    pending: &mut Items<Pending<'a>>,
    at: usize,
    name: &Name,
) -> Result<bool, AllocError>
    requires { AllLead scope.now.program pending.old }
    ensures { OnOk result (AllLead scope.now.program pending.new) }
{
    match name_target(scope, at, name) {
        NameTarget::Variable(_) => Ok(true),
        NameTarget::Whole(_) => Ok(true),
        NameTarget::Symbol(_) => Ok(true),
        NameTarget::Given {
            at: of,
            parameter,
            owner,
            argument,
        } => {
            let shared = Shared {
                is_definition: false,
                at: of,
                number: parameter,
            };
            push_pending(memo, pending, shared, owner, argument)
        }
        NameTarget::Defined {
            at: of,
            definition,
            body,
        } => {
            let shared = Shared {
                is_definition: true,
                at: of,
                number: definition,
            };
            push_pending(memo, pending, shared, of, body)
        }
        NameTarget::Unknown => Ok(false),
        NameTarget::TooFar => Ok(false),
    }
}

fn push_pending<'a>(
    memo: &Memo,
    pending: &mut Items<Pending<'a>>,
    shared: Shared,
    at: usize,
    e: &'a Expr,
) -> Result<bool, AllocError>
    ensures { OnOk result ((p : Program) → AllLead p pending.old → IsShared p shared at e.now → AllLead p pending.new) }
{
    if memo.known.contains_key(&shared) {
        return Ok(true);
    }
    if memo.begun.contains(&shared) {
        return Ok(false);
    }
    pending.push(Pending {
        shared,
        at,
        e,
        is_begun: false,
    })?;
    Ok(true)
}
