//! The rule of names: each name of each instance leads somewhere.

ghost use Rattle.std.specs.Prelude.{◌≡◌, Some, nat_eq, OnOk};
ghost use Rattle.std.specs.HashMap.{get};
ghost use Rattle.smv_tree.specs.declared.tree.Start.TheVariants as start;
ghost use Rattle.smv_tree.specs.Occurring.{read};
ghost use Rattle.smv_scope.specs.Instances.{module_at};
ghost use Rattle.smv_scope.specs.Modules.{sections_of};
ghost use Rattle.smv_scope.specs.Targets.{seen};
ghost use Rattle.smv_names.specs.Lent.{read_some};
ghost use Rattle.smv_names.specs.Named.{unknown_before, unknown_from, unknown_in_name, unknown_in_sections, unknown_last, unknown_members, unknown_names};
ghost use Rattle.smv_names.specs.OpenNames.{AreOpen, unknown_name};
ghost use Rattle.smv_verdicts.specs.Verdicts.{Judges, first_of};

use crate::open_names::{OpenNames, no_open_names, note, open_names};
use smv_scope::{NameTarget, Scope, instance_of, member_target, own_target};
use smv_tree::{Identifier, Name, Rule, Start, TextStop};
use smv_verdicts::refuse_name;
use std::alloc::Global;

/// Each name of each instance leads somewhere. It costs the text of the modules, and for each instance the names of its
/// module that may lead nowhere in one instance and somewhere in another.
pub(crate) fn unknown_names(alloc: Global, scope: &Scope) -> Result<(), TextStop>
    ensures { Judges result (unknown_names scope.now.program) }
{
    let mut noted = no_open_names(alloc);
    for (n, x) in scope.tree.as_slice().iter().enumerate() {
        unknown_in_instance(alloc, scope, &mut noted, n, x.of_module)?;
    }
    Ok(())
}

// Each name of this instance of the module of this number.
fn unknown_in_instance<'a>(
    alloc: Global,
    scope: &'a Scope,
    noted: &mut OpenNames<'a>,
    at: usize,
    m: usize,
) -> Result<(), TextStop>
    requires is { module_at scope.now.program at ≡ Some m }
    requires noted { AreOpen scope.now.program (get nat_eq noted.old) }
    ensures noted { OnOk result (AreOpen scope.now.program (get nat_eq noted.new)) }
    ensures judged { Judges result (unknown_in_sections scope.now.program at (sections_of scope.now.program m)) }
{
    if let Some(again) = noted.get(&m) {
        return unknown_among(alloc, scope, at, again.as_slice());
    }
    unknown_in_first(alloc, scope, noted, at, m)
}

// The same of the first instance of a module, of which the open names are noted.
fn unknown_in_first<'a>(
    alloc: Global,
    scope: &'a Scope,
    noted: &mut OpenNames<'a>,
    at: usize,
    m: usize,
) -> Result<(), TextStop>
    requires is { module_at scope.now.program at ≡ Some m }
    requires noted { AreOpen scope.now.program (get nat_eq noted.old) }
    ensures noted { OnOk result (AreOpen scope.now.program (get nat_eq noted.new)) }
    ensures judged { Judges result (unknown_in_sections scope.now.program at (sections_of scope.now.program m)) }
{
    let again = open_names(alloc, scope, at, m)?;
    unknown_among(alloc, scope, at, again.as_slice())?;
    note(&scope.program, noted, m, again)?;
    Ok(())
}

fn unknown_among(alloc: Global, scope: &Scope, at: usize, names: &[&Name]) -> Result<(), TextStop>
    ensures { Judges result (first_of (unknown_name scope.now.program at) (read names.now)) }
{
    for name in names {
        if let Some(x) = unknown_in_name(scope, at, name) {
            return refuse_name(alloc, Rule::UnknownName, x.place, &x.name);
        }
    }
    Ok(())
}

// The first identifier of a name that leads nowhere.
fn unknown_in_name<'a>(scope: &Scope, at: usize, name: &'a Name) -> Option<&'a Identifier>
    ensures { read_some result ≡ unknown_in_name scope.now.program at name.now }
{
    let members = name.members.as_slice();
    match &name.start {
        Start::Itself(_) => unknown_members(scope, at, members),
        Start::Own(x) => unknown_from_own(scope, at, x, members),
    }
}

fn unknown_from_own<'a>(
    scope: &Scope,
    at: usize,
    x: &'a Identifier,
    members: &'a [Identifier],
) -> Option<&'a Identifier>
    ensures { read_some result ≡ unknown_from scope.now.program at (start.Own x.now) members.now }
{
    let target = own_target(scope, at, x.name.as_str());
    if members.is_empty() {
        unknown_last(x, target)
    } else {
        unknown_before(scope, x, instance_of(scope, target), members)
    }
}

// The first of these members of an instance that leads nowhere.
fn unknown_members<'a>(
    scope: &Scope,
    at: usize,
    members: &'a [Identifier],
) -> Option<&'a Identifier>
    ensures { read_some result ≡ unknown_members scope.now.program at members.now }
{
    let mut here = at;
    for (k, x) in members.iter().enumerate() {
        let target = member_target(scope, here, x.name.as_str());
        if k + 1 == members.len() {
            return unknown_last(x, target);
        }
        match target {
            NameTarget::Whole(i) => here = i,
            NameTarget::TooFar => return None,
            _ => return Some(x),
        }
    }
    None
}

fn unknown_last<'a>(x: &'a Identifier, target: NameTarget) -> Option<&'a Identifier>
    ensures { read_some result ≡ unknown_last x.now (seen target.entry) }
{
    match target {
        NameTarget::Unknown => Some(x),
        _ => None,
    }
}

// An identifier before others has to lead to an instance.
fn unknown_before<'a>(
    scope: &Scope,
    x: &'a Identifier,
    target: NameTarget,
    rest: &'a [Identifier],
) -> Option<&'a Identifier>
    ensures { read_some result ≡ unknown_before x.now (λ i. unknown_members scope.now.program i rest.now) (seen target.entry) }
{
    match target {
        NameTarget::Whole(i) => unknown_members(scope, i, rest),
        NameTarget::TooFar => None,
        _ => Some(x),
    }
}
