//! The open names of a module: those that may lead nowhere in one instance of it and somewhere in another. Only these
//! are looked up in each instance.

ghost use Rattle.std.specs.Prelude.{◌≡◌, ◌++◌, true, Some, nat_eq, IfOk, OnOk};
ghost use Rattle.std.specs.HashMap.{get};
ghost use Rattle.std.specs.List.{flat_map};
ghost use Rattle.smv_tree.specs.declared.tree.Program.{Program};
ghost use Rattle.smv_tree.specs.Occurring.{names_in, read};
ghost use Rattle.smv_scope.specs.Instances.{module_at};
ghost use Rattle.smv_scope.specs.Targets.{seen};
ghost use Rattle.smv_names.specs.OpenNames.{AreOpen, IsClosedName, SayAll, SayInModule, StaysKnown};

use crate::expressions::expressions_of;
use smv_scope::{NameTarget, Scope, own_target, sections_of};
use smv_tree::{Expr, Name, Program, Start, names_in};
use std::alloc::{AllocError, Global};
use std::collections::HashMap;

/// The open names of modules, by the number of the module.
pub(crate) type OpenNames<'a> = HashMap<usize, Vec<&'a Name>>;

/// The open names of no module.
pub(crate) fn no_open_names<'a>(alloc: Global) -> OpenNames<'a>
    ensures { (p : Program) → AreOpen p (get nat_eq result) }
{
    HashMap::new(alloc)
}

/// Notes the open names of the module of this number.
pub(crate) fn note<'a>(
    _program: &Program,
    noted: &mut OpenNames<'a>,
    m: usize,
    again: Vec<&'a Name>,
) -> Result<(), AllocError>
    requires again { SayInModule _program.now m (read again.items) }
    requires noted { AreOpen _program.now (get nat_eq noted.old) }
    ensures { OnOk result (AreOpen _program.now (get nat_eq noted.new)) }
{
    noted.insert(m, again)?;
    Ok(())
}

/// The open names of the module of this number, by an instance of it.
pub(crate) fn open_names<'a>(
    alloc: Global,
    scope: &'a Scope,
    from: usize,
    m: usize,
) -> Result<Vec<&'a Name>, AllocError>
    requires { module_at scope.now.program from ≡ Some m }
    ensures { IfOk result (λ again. SayInModule scope.now.program m (read again.items)) }
{
    let expressions = expressions_of(alloc, sections_of(&scope.program, m))?;
    let names = names_of(alloc, expressions.as_slice())?;
    open_among(alloc, scope, from, names.as_slice())
}

// The names of these expressions.
fn names_of<'a>(alloc: Global, expressions: &[&'a Expr]) -> Result<Vec<&'a Name>, AllocError>
    ensures { IfOk result (λ names. read names.items ≡ flat_map names_in (read expressions.now)) }
{
    let mut all = Vec::new(alloc);
    for e in expressions {
        let names = names_in(alloc, *e)?;
        push_all(&mut all, names.as_slice())?;
    }
    Ok(all)
}

fn push_all<'a>(all: &mut Vec<&'a Name>, names: &[&'a Name]) -> Result<(), AllocError>
    ensures { OnOk result (read all.new.items ≡ read all.old.items ++ read names.now) }
{
    for name in names {
        all.push(*name)?;
    }
    Ok(())
}

// The open names among these names of the module of this instance.
fn open_among<'a>(
    alloc: Global,
    scope: &Scope,
    from: usize,
    names: &[&'a Name],
) -> Result<Vec<&'a Name>, AllocError>
    ensures { IfOk result (λ again. SayAll scope.now.program from (read names.now) (read again.items)) }
{
    let mut again = Vec::new(alloc);
    for name in names {
        if !is_closed_name(scope, from, name) {
            again.push(*name)?;
        }
    }
    Ok(again)
}

// Whether it is seen that a name leads somewhere in each instance of the module of this one.
fn is_closed_name(scope: &Scope, from: usize, name: &Name) -> bool
    ensures { result ≡ true → IsClosedName scope.now.program from name.now }
{
    if !name.members.is_empty() {
        return false;
    }
    match &name.start {
        Start::Own(x) => stays_known(own_target(scope, from, x.name.as_str())),
        Start::Itself(_) => true,
    }
}

// Whether an own name that leads here leads somewhere in each instance. Of a parameter or an instance it is not seen.
fn stays_known(target: NameTarget) -> bool
    ensures { result ≡ true → StaysKnown (seen target.entry) }
{
    match target {
        NameTarget::Variable(_) | NameTarget::Defined { .. } | NameTarget::Symbol(_) => true,
        _ => false,
    }
}
