//! The types of the variables of a program.

ghost use Rattle.std.specs.Prelude.{◌≡◌, ◌++◌, List, Some, map, nat_eq, IfOk, OnOk};
ghost use Rattle.std.specs.HashMap.{get};
ghost use Rattle.std.specs.List.{flat_map};
ghost use Rattle.smv_tree.specs.declared.tree.Variable.{Variable};
ghost use Rattle.smv_scope.specs.Instances.{module_at};
ghost use Rattle.smv_scope.specs.Modules.{sections_of};
ghost use Rattle.smv_verdicts.specs.Verdicts.{Judges, first_of};
ghost use Rattle.value_types.specs.declared.value_type.Element.{Element};
ghost use Rattle.smv_declared.specs.declared.limits.ElementLimits.{ElementLimits};
ghost use Rattle.smv_declared.specs.declared.variable_type.VariableType.{VariableType};
ghost use Rattle.smv_declared.specs.Closed.{AreJudged, read, refusal_of};
ghost use Rattle.smv_declared.specs.Limits.{high_in, low_in, type_from, width_in};
ghost use Rattle.smv_declared.specs.Refusals.{declared_refusal, dimension_limits, element_limits, instance_refusal, limits_refusal, repeated, types_refusal_in, variable_refusal, wide_element, written_elements};
ghost use Rattle.smv_declared.specs.Tally.{Tallies};
ghost use Rattle.smv_declared.specs.Types.{Tells, element_of, types_in, types_with, variable_type, variable_types_of};

use crate::bounds::{bounds_of, range_in, width_in};
use crate::elements::elements_of;
use crate::judged::{none_judged, note};
use crate::limits::{
    ElementLimits, Limits, dimension_limits, element_limits, judge_constants,
    judge_element_constants, judge_element_order, judge_orders,
};
use crate::tally::{Tally, add, declared_by, is_full, no_types};
use crate::{Declared, VariableType};
use smv_scope::{Scope, holds, sections_of, variables_in};
use smv_tree::{Rule, Section, TextStop, TypeExpr, Variable, VariableKind, WrittenElement};
use smv_verdicts::refused;
use sqlite_items::Items;
use std::alloc::Global;
use std::collections::HashMap;
use value_types::{Element, ValueType};

/// The type of each variable that holds values, in the order of the numbers of `NameTarget::Variable`, where the declarations
/// break no rule; else the first rule that one breaks. All declarations are judged, and then, where the variables have more than 65536 slots,
/// that they have too many is all that is told.
///
/// Instances are judged in preorder, and the declarations of each in the order of the source. The rules, and what is told of each,
/// are an own choice of this project (NuSMV 2.6 User Manual, 2.1 and 2.3.1, says what types are). Of one declaration they are judged
/// in this order, each of the dimensions of an array from the outermost and then of its element:
///
/// - `TypeMismatch`: `IVAR` or `FROZENVAR` declares an instance, or the elements of an array are instances. At the module's name.
/// - `NotConstant`: a bound or a width is no constant. At it.
/// - `EmptyRange`: the first bound is greater than the second. At the first.
/// - `WordWidth`: a width is none of 1 to 128. At it, with its value.
/// - `DuplicateElement`: an element is one of those before it. At it, with its text.
/// - `IntWidth`: a bound is none of -2147483648 to 2147483647. At it.
///
/// A constant is an integer that literals give by `-`, `+`, `*`, `/` and `mod`, through the names of definitions and parameters,
/// and without a division by 0. It is a whole number of any size, as each part of it is.
///
/// Linear in the text of the declarations of all instances, and in what their bounds name. Where there are too many slots already,
/// a declaration whose type names nothing but definitions that are literals counts once for its module. The size of arrays costs
/// nothing.
///
/// `NoMemory` comes where memory was refused, which may be at any time.
#[tactic(auto, unfolding(crate::specs::Refusals::declared_refusal, crate::specs::Types::variable_types_of))]
pub fn declared_types(alloc: Global, scope: &Scope) -> Result<Declared, TextStop>
    ensures judged { Judges result (declared_refusal scope.now.program) }
    ensures types { IfOk result (λ declared. Tells (variable_types_of scope.now.program) declared) }
{
    let mut tally = no_types(alloc);
    let mut judged = none_judged(alloc);
    for (at, x) in scope.tree.as_slice().iter().enumerate() {
        add_instance(alloc, scope, &mut tally, &mut judged, at, x.of_module)?;
    }
    Ok(declared_by(tally))
}

// Adds the types of the variables of an instance of the module of this number. Where there are too many slots, only those
// variables are judged again that may be of other types than in an instance before.
fn add_instance<'a>(
    alloc: Global,
    scope: &'a Scope,
    tally: &mut Tally,
    judged: &mut HashMap<usize, Vec<(VariableKind, &'a Variable)>>,
    at: usize,
    m: usize,
) -> Result<(), TextStop>
    requires is { module_at scope.now.program at ≡ Some m }
    requires judged { AreJudged scope.now.program (get nat_eq judged.old) }
    ensures noted { OnOk result (AreJudged scope.now.program (get nat_eq judged.new)) }
    ensures judged { Judges result (first_of (types_refusal_in scope.now.program at) (sections_of scope.now.program m)) }
    ensures types { (all : List VariableType) → Tallies all tally.old → OnOk result (Tallies (all ++ flat_map (types_in scope.now.program at) (sections_of scope.now.program m)) tally.new) }
{
    if is_full(tally) {
        if let Some(again) = judged.get(&m) {
            return judge_variables(alloc, scope, at, again.as_slice());
        }
        return add_first(alloc, scope, tally, judged, at, m);
    }
    add_sections(alloc, scope, tally, at, sections_of(&scope.program, m))
}

// The same of the first instance of a module that is judged where there are too many slots.
fn add_first<'a>(
    alloc: Global,
    scope: &'a Scope,
    tally: &mut Tally,
    judged: &mut HashMap<usize, Vec<(VariableKind, &'a Variable)>>,
    at: usize,
    m: usize,
) -> Result<(), TextStop>
    requires is { module_at scope.now.program at ≡ Some m }
    requires judged { AreJudged scope.now.program (get nat_eq judged.old) }
    ensures noted { OnOk result (AreJudged scope.now.program (get nat_eq judged.new)) }
    ensures judged { Judges result (first_of (types_refusal_in scope.now.program at) (sections_of scope.now.program m)) }
    ensures types { (all : List VariableType) → Tallies all tally.old → OnOk result (Tallies (all ++ flat_map (types_in scope.now.program at) (sections_of scope.now.program m)) tally.new) }
{
    let sections = sections_of(&scope.program, m);
    add_sections(alloc, scope, tally, at, sections)?;
    note(alloc, scope, judged, at, m, sections)?;
    Ok(())
}

// These variables break no rule.
fn judge_variables(
    alloc: Global,
    scope: &Scope,
    at: usize,
    variables: &[(VariableKind, &Variable)],
) -> Result<(), TextStop>
    ensures { Judges result (first_of (refusal_of scope.now.program at) (read variables.now)) }
{
    for x in variables {
        judge_variable(alloc, scope, at, x.0, x.1)?;
    }
    Ok(())
}

fn judge_variable(
    alloc: Global,
    scope: &Scope,
    at: usize,
    kind: VariableKind,
    variable: &Variable,
) -> Result<(), TextStop>
    ensures { Judges result (variable_refusal scope.now.program at kind variable.now) }
{
    judge_instance(kind, variable)?;
    variable_type(alloc, scope, at, variable)?;
    Ok(())
}

// Adds the types of the variables of an instance, whose module has these sections.
fn add_sections(
    alloc: Global,
    scope: &Scope,
    tally: &mut Tally,
    at: usize,
    sections: &[Section],
) -> Result<(), TextStop>
    ensures judged { Judges result (first_of (types_refusal_in scope.now.program at) sections.now) }
    ensures types { (all : List VariableType) → Tallies all tally.old → OnOk result (Tallies (all ++ flat_map (types_in scope.now.program at) sections.now) tally.new) }
{
    for section in sections {
        add_section(alloc, scope, tally, at, section)?;
    }
    Ok(())
}

fn add_section(
    alloc: Global,
    scope: &Scope,
    tally: &mut Tally,
    at: usize,
    section: &Section,
) -> Result<(), TextStop>
    ensures judged { Judges result (types_refusal_in scope.now.program at section.now) }
    ensures types { (all : List VariableType) → Tallies all tally.old → OnOk result (Tallies (all ++ types_in scope.now.program at section.now) tally.new) }
{
    let (kind, variables) = variables_in(section);
    add_variables(alloc, scope, tally, at, kind, variables)
}

// Adds the types of these variables, which are of one kind.
fn add_variables(
    alloc: Global,
    scope: &Scope,
    tally: &mut Tally,
    at: usize,
    kind: VariableKind,
    variables: &[Variable],
) -> Result<(), TextStop>
    ensures judged { Judges result (first_of (λ (v : Variable). variable_refusal scope.now.program at kind v) variables.now) }
    ensures types { (all : List VariableType) → Tallies all tally.old → OnOk result (Tallies (all ++ flat_map (λ (v : Variable). types_with scope.now.program at v) variables.now) tally.new) }
{
    for variable in variables {
        add_variable(alloc, scope, tally, at, kind, variable)?;
    }
    Ok(())
}

// Adds the type of a variable; nothing for an instance.
fn add_variable(
    alloc: Global,
    scope: &Scope,
    tally: &mut Tally,
    at: usize,
    kind: VariableKind,
    variable: &Variable,
) -> Result<(), TextStop>
    ensures judged { Judges result (variable_refusal scope.now.program at kind variable.now) }
    ensures types { (all : List VariableType) → Tallies all tally.old → OnOk result (Tallies (all ++ types_with scope.now.program at variable.now) tally.new) }
{
    judge_instance(kind, variable)?;
    let declared = variable_type(alloc, scope, at, variable)?;
    if holds(variable) {
        add(tally, declared)?;
    }
    Ok(())
}

// `VAR` alone declares instances, and no array has instances for its elements.
fn judge_instance(kind: VariableKind, variable: &Variable) -> Result<(), TextStop>
    ensures { Judges result (instance_refusal kind variable.now.dimensions variable.now.declared) }
{
    match &variable.declared {
        TypeExpr::Instance(place, _, _) => {
            if kind == VariableKind::State && variable.dimensions.is_empty() {
                Ok(())
            } else {
                Err(refused(Rule::TypeMismatch, *place))
            }
        }
        _ => Ok(()),
    }
}

fn variable_type(
    alloc: Global,
    scope: &Scope,
    at: usize,
    variable: &Variable,
) -> Result<VariableType, TextStop>
    ensures judged { Judges result (limits_refusal scope.now.program (map (dimension_limits scope.now.program at) variable.now.dimensions) (element_limits scope.now.program at variable.now.declared) (written_elements variable.now.declared)) }
    ensures declared { IfOk result (λ t. t ≡ variable_type scope.now.program at variable.now) }
{
    let dimensions = dimension_limits(alloc, scope, at, variable.dimensions.as_slice())?;
    let element = element_limits(alloc, scope, at, &variable.declared)?;
    let answer = type_within(alloc, scope, at, variable, dimensions.as_slice(), &element);
    drop(element);
    answer
}

// The same, where these are the limits that are declared.
fn type_within(
    alloc: Global,
    scope: &Scope,
    _at: usize,
    variable: &Variable,
    dimensions: &[Limits],
    element: &ElementLimits,
) -> Result<VariableType, TextStop>
    requires dimensions { dimensions.now ≡ map (dimension_limits scope.now.program _at) variable.now.dimensions }
    requires element { element.now ≡ element_limits scope.now.program _at variable.now.declared }
    ensures judged { Judges result (limits_refusal scope.now.program dimensions.now element.now (written_elements variable.now.declared)) }
    ensures declared { IfOk result (λ t. t ≡ variable_type scope.now.program _at variable.now) }
{
    judge_constants(dimensions)?;
    judge_element_constants(element)?;
    judge_orders(alloc, dimensions)?;
    judge_element_order(alloc, element)?;
    let width = width_in(alloc, element)?;
    let elements = elements_of(alloc, scope, written_elements(&variable.declared))?;
    let bounds = bounds_of(alloc, dimensions)?;
    let range = range_in(element)?;
    Ok(VariableType {
        dimensions: bounds,
        element: type_from(&variable.declared, width, range, elements),
    })
}

fn written_elements(declared: &TypeExpr) -> &[WrittenElement]
    ensures { result.now ≡ written_elements declared.now }
{
    match declared {
        TypeExpr::Enumeration(_, elements) => elements.as_slice(),
        _ => &[],
    }
}

// The type that is declared so, with these limits and elements.
fn type_from(
    declared: &TypeExpr,
    width: u32,
    range: (i32, i32),
    elements: Items<Element>,
) -> ValueType
    ensures { (limits : ElementLimits) → width ≡ width_in limits → range.0 ≡ low_in limits → range.1 ≡ high_in limits → result ≡ type_from declared.now limits elements }
{
    match declared {
        TypeExpr::Boolean(_) | TypeExpr::Instance(..) => ValueType::Boolean,
        TypeExpr::Word(_, signed, _) => ValueType::Word {
            signed: *signed,
            width,
        },
        TypeExpr::Range(..) => ValueType::Range {
            low: range.0,
            high: range.1,
        },
        TypeExpr::Enumeration(..) => ValueType::Enumeration(elements),
    }
}
