//! Where names lead.

ghost use Rattle.std.specs.Prelude.{◌≡◌, position, slice_get, bytes_eq};
ghost use Rattle.smv_tree.specs.declared.tree.Definition.{Definition};
ghost use Rattle.smv_tree.specs.declared.tree.Expr.{out-Expr};
ghost use Rattle.smv_tree.specs.declared.tree.Variable.{Variable};
ghost use Rattle.smv_tree.specs.declared.tree.VariableKind.{VariableKind};
ghost use Rattle.smv_scope.specs.Modules.{variables_of, definitions_of};
ghost use Rattle.smv_scope.specs.Instances.{module_at, child_number};
ghost use Rattle.smv_scope.specs.Holders.{holder_number, rank_of};
ghost use Rattle.smv_scope.specs.Enumerated.{symbol_number};
ghost use Rattle.smv_scope.specs.Lookup.{holder_target, instance_target, symbol_target, or_symbol, typed_target, variable_target, definition_target, named_target, member_target, arguments_with, arguments_by, given_by, parent_at, own_target, start_target, members_target, whole_only, name_target_by, as_instance, depth_limit, instance_by_node, instance_within, name_target};
ghost use Rattle.smv_scope.specs.Targets.{seen};

use crate::holders::{holds, is_array, rank_of};
use crate::modules::{
    definition_at, definition_named, parameter_named, variable_at, variable_named,
};
use crate::{NameTarget, Parent, Scope};
use smv_tree::{Definition, Expr, Identifier, Name, Start, TypeExpr, Variable};
use sqlite_items::at;

/// Names are followed to this depth.
pub const DEPTH_LIMIT: usize = 2000;

/// Where a name leads that stands in the instance of this number.
#[tactic(auto, unfolding(crate::specs::Lookup::name_target))]
#[inline(never)]
pub fn name_target<'a>(scope: &'a Scope, instance: usize, name: &Name) -> NameTarget<'a>
    ensures { seen result ≡ name_target scope.now.program instance name.now }
{
    name_target_within(scope, DEPTH_LIMIT, instance, name)
}

// Where a name leads, by at most so many parameters one in another.
#[cycle(follow)]
fn name_target_within<'a>(
    scope: &'a Scope,
    depth: usize,
    instance: usize,
    name: &Name,
) -> NameTarget<'a>
    ensures { seen result ≡ name_target_by scope.now.program (instance_within scope.now.program depth) instance name.now.start name.now.members }
{
    let start = start_target(scope, instance, &name.start);
    let members = name.members.as_slice();
    if members.is_empty() {
        return start;
    }
    match start {
        NameTarget::Whole(i) => members_target(scope, i, members),
        NameTarget::Given {
            owner,
            argument,
            ..
        } => members_behind(
            scope,
            instance_within(scope, depth, owner, argument),
            members,
        ),
        _ => NameTarget::Unknown,
    }
}

// The members of the instance that a target is.
fn members_behind<'a>(
    scope: &'a Scope,
    target: NameTarget<'a>,
    members: &[Identifier],
) -> NameTarget<'a>
    ensures { seen result ≡ whole_only (λ i. members_target scope.now.program i members.now) (seen target.entry) }
{
    match target {
        NameTarget::Whole(i) => members_target(scope, i, members),
        NameTarget::TooFar => NameTarget::TooFar,
        _ => NameTarget::Unknown,
    }
}

/// The instance that a target is, itself or by what parameters were given.
pub fn instance_of<'a>(scope: &'a Scope, target: NameTarget<'a>) -> NameTarget<'a>
    ensures { seen result ≡ as_instance (instance_within scope.now.program depth_limit) (seen target.entry) }
{
    match target {
        NameTarget::Whole(i) => NameTarget::Whole(i),
        NameTarget::Given {
            owner,
            argument,
            ..
        } => instance_within(scope, DEPTH_LIMIT, owner, argument),
        NameTarget::TooFar => NameTarget::TooFar,
        _ => NameTarget::Unknown,
    }
}

// The instance to which an expression leads as a name, by at most so many parameters and parentheses one in another.
#[cycle(follow)]
fn instance_within<'a>(
    scope: &'a Scope,
    depth: usize,
    instance: usize,
    e: &'a Expr,
) -> NameTarget<'a>
    ensures { seen result ≡ instance_within scope.now.program depth instance e.now }
{
    if depth == 0 {
        return NameTarget::TooFar;
    }
    instance_by_node(scope, depth - 1, instance, e)
}

// The same where at most so many follow the first.
#[cycle(follow)]
fn instance_by_node<'a>(
    scope: &'a Scope,
    depth: usize,
    instance: usize,
    e: &'a Expr,
) -> NameTarget<'a>
    ensures { seen result ≡ instance_by_node scope.now.program (instance_within scope.now.program depth) instance (out-Expr e.now) }
{
    match e {
        Expr::Name(name) => instance_by_name(scope, depth, instance, name),
        Expr::Group(_, inner) => instance_within(scope, depth, instance, inner.get()),
        _ => NameTarget::Unknown,
    }
}

// The instance to which a name leads, itself or by at most so many parameters one in another.
#[cycle(follow)]
fn instance_by_name<'a>(
    scope: &'a Scope,
    depth: usize,
    instance: usize,
    name: &Name,
) -> NameTarget<'a>
    ensures { seen result ≡ as_instance (instance_within scope.now.program depth) (name_target_by scope.now.program (instance_within scope.now.program depth) instance name.now.start name.now.members) }
{
    match name_target_within(scope, depth, instance, name) {
        NameTarget::Whole(i) => NameTarget::Whole(i),
        NameTarget::Given {
            owner,
            argument,
            ..
        } => instance_within(scope, depth, owner, argument),
        NameTarget::TooFar => NameTarget::TooFar,
        _ => NameTarget::Unknown,
    }
}

// An instance, and then members of it, each but the last of which is an instance.
fn members_target<'a>(scope: &'a Scope, instance: usize, members: &[Identifier]) -> NameTarget<'a>
    ensures { seen result ≡ members_target scope.now.program instance members.now }
{
    let mut here = instance;
    for (k, x) in members.iter().enumerate() {
        let target = member_target(scope, here, x.name.as_str());
        if k + 1 == members.len() {
            return target;
        }
        let NameTarget::Whole(i) = target else {
            return NameTarget::Unknown;
        };
        here = i;
    }
    NameTarget::Whole(here)
}

/// Where the start of a name leads.
pub fn start_target<'a>(scope: &'a Scope, instance: usize, start: &Start) -> NameTarget<'a>
    ensures { seen result ≡ start_target scope.now.program instance start.now }
{
    match start {
        Start::Own(x) => own_target(scope, instance, x.name.as_str()),
        Start::Itself(_) => NameTarget::Whole(instance),
    }
}

/// An own name of an instance: a parameter, a variable or a definition of its module, or else a symbol.
pub fn own_target<'a>(scope: &'a Scope, instance: usize, name: &str) -> NameTarget<'a>
    ensures { seen result ≡ own_target scope.now.program instance name.now }
{
    let Some(m) = module_at(scope, instance) else {
        return NameTarget::Unknown;
    };
    match parameter_named(scope, m, name) {
        Some(k) => given_by(scope, instance, k, parent_at(scope, instance)),
        None => or_symbol(scope, name, member_target(scope, instance, name)),
    }
}

// What a name leads to in its module, or else the symbol of this name.
fn or_symbol<'a>(scope: &'a Scope, name: &str, target: NameTarget<'a>) -> NameTarget<'a>
    ensures { seen result ≡ or_symbol scope.now.program name.now (seen target.entry) }
{
    match target {
        NameTarget::Unknown => symbol_target(symbol_number(scope, name)),
        other => other,
    }
}

// What a parameter of an instance was given, in the parent that gives it.
fn given_by<'a>(
    scope: &'a Scope,
    instance: usize,
    parameter: usize,
    parent: Option<Parent>,
) -> NameTarget<'a>
    ensures { seen result ≡ given_by scope.now.program instance parameter parent }
{
    match parent {
        None => NameTarget::Unknown,
        Some(parent) => match at(arguments_by(scope, parent), parameter) {
            None => NameTarget::Unknown,
            Some(argument) => NameTarget::Given {
                at: instance,
                parameter,
                owner: parent.instance,
                argument,
            },
        },
    }
}

/// What the instance that is this variable of its parent is given.
pub fn arguments_by(scope: &Scope, parent: Parent) -> &[Expr]
    ensures { result.now ≡ arguments_by scope.now.program parent }
{
    let Some(m) = module_at(scope, parent.instance) else {
        return &[];
    };
    match variable_at(scope, m, parent.variable) {
        None => &[],
        Some(x) => arguments_with(x),
    }
}

fn arguments_with(variable: &Variable) -> &[Expr]
    ensures { result.now ≡ arguments_with variable.now }
{
    if is_array(variable) {
        return &[];
    }
    match &variable.declared {
        TypeExpr::Instance(_, _, given) => given.as_slice(),
        _ => &[],
    }
}

/// A member of an instance: a variable or a definition of its module.
pub fn member_target<'a>(scope: &'a Scope, instance: usize, name: &str) -> NameTarget<'a>
    ensures { seen result ≡ member_target scope.now.program instance name.now }
{
    match module_at(scope, instance) {
        None => NameTarget::Unknown,
        Some(m) => named_target(scope, instance, m, name),
    }
}

// The variable of this name, or else the definition.
fn named_target<'a>(scope: &'a Scope, instance: usize, m: usize, name: &str) -> NameTarget<'a>
    ensures { seen result ≡ named_target scope.now.program instance m name.now (position (λ (x : VariableKind × Variable). bytes_eq name.now x.1.name) (variables_of scope.now.program m)) }
{
    match variable_named(scope, m, name) {
        Some(v) => variable_target(scope, instance, v, m),
        None => definition_target(scope, instance, m, name),
    }
}

fn definition_target<'a>(scope: &'a Scope, instance: usize, m: usize, name: &str) -> NameTarget<'a>
    ensures { seen result ≡ definition_target instance (definitions_of scope.now.program m) (position (λ (d : Definition). bytes_eq name.now d.name) (definitions_of scope.now.program m)) }
{
    let Some(definition) = definition_named(scope, m, name) else {
        return NameTarget::Unknown;
    };
    match definition_at(scope, m, definition) {
        None => NameTarget::Unknown,
        Some(found) => NameTarget::Defined {
            at: instance,
            definition,
            body: &found.body,
        },
    }
}

// The variable of this number, of an instance of this module.
fn variable_target<'a>(scope: &'a Scope, instance: usize, v: usize, m: usize) -> NameTarget<'a>
    ensures { seen result ≡ variable_target scope.now.program instance v (slice_get (variables_of scope.now.program m) v) }
{
    match variable_at(scope, m, v) {
        None => NameTarget::Unknown,
        Some(x) => typed_target(scope, instance, v, x),
    }
}

// A variable of an instance has a value, or is an instance.
fn typed_target<'a>(
    scope: &'a Scope,
    instance: usize,
    v: usize,
    variable: &Variable,
) -> NameTarget<'a>
    ensures { seen result ≡ typed_target scope.now.program instance v variable.now }
{
    if holds(variable) {
        holder_target(holder_number(scope, instance, v))
    } else {
        instance_target(child_number(scope, instance, v))
    }
}

fn holder_target<'a>(number: Option<usize>) -> NameTarget<'a>
    ensures { seen result ≡ holder_target number }
{
    match number {
        None => NameTarget::Unknown,
        Some(n) => NameTarget::Variable(n),
    }
}

fn instance_target<'a>(instance: Option<usize>) -> NameTarget<'a>
    ensures { seen result ≡ instance_target instance }
{
    match instance {
        None => NameTarget::Unknown,
        Some(i) => NameTarget::Whole(i),
    }
}

fn symbol_target<'a>(symbol: Option<usize>) -> NameTarget<'a>
    ensures { seen result ≡ symbol_target symbol }
{
    match symbol {
        None => NameTarget::Unknown,
        Some(n) => NameTarget::Symbol(n),
    }
}

/// The number of the symbol of this name, if there is one.
pub fn symbol_number(scope: &Scope, name: &str) -> Option<usize>
    ensures { result ≡ symbol_number scope.now.program name.now }
{
    scope.symbol_numbers.get(name).copied()
}

/// The number of a variable of an instance among those that have values.
pub fn holder_number(scope: &Scope, instance: usize, variable: usize) -> Option<usize>
    ensures { result ≡ holder_number scope.now.program instance variable }
{
    let m = module_at(scope, instance)?;
    let first = scope.first_holders.get(instance).copied()?;
    Some(first + rank_of(scope, m, variable))
}

// The number of the instance that a variable of an instance is.
fn child_number(scope: &Scope, instance: usize, variable: usize) -> Option<usize>
    ensures { result ≡ child_number scope.now.program instance variable }
{
    let key = Parent { instance, variable };
    scope.child_numbers.get(&key).copied()
}

/// The number of the module of an instance.
pub fn module_at(scope: &Scope, instance: usize) -> Option<usize>
    ensures { result ≡ module_at scope.now.program instance }
{
    match scope.tree.get(instance) {
        None => None,
        Some(x) => Some(x.of_module),
    }
}

/// The parent of an instance, and the variable that it is there.
pub fn parent_at(scope: &Scope, instance: usize) -> Option<Parent>
    ensures { result ≡ parent_at scope.now.program instance }
{
    match scope.tree.get(instance) {
        None => None,
        Some(x) => x.parent,
    }
}
