//! The expressions of sections in which names stand, in the order of the text.

ghost use Rattle.std.specs.Prelude.{◌≡◌, ◌++◌, [], ◌∷◌, map, IfOk, OnOk};
ghost use Rattle.std.specs.List.{flat_map};
ghost use Rattle.smv_names.specs.Expressions.{in_assignment, in_dimension, in_section, in_type, in_variable};
ghost use Rattle.smv_tree.specs.declared.tree.Definition.{Definition};
ghost use Rattle.smv_tree.specs.Occurring.{read};

use smv_tree::{Assignment, Definition, Dimension, Expr, Section, TypeExpr, Variable};
use std::alloc::{AllocError, Global};

/// The expressions of these sections.
pub(crate) fn expressions_of(alloc: Global, sections: &[Section]) -> Result<Vec<&Expr>, AllocError>
    ensures { IfOk result (λ all. read all.items ≡ flat_map in_section sections.now) }
{
    let mut all = Vec::new(alloc);
    push_in_sections(&mut all, sections)?;
    Ok(all)
}

fn push_in_sections<'a>(all: &mut Vec<&'a Expr>, sections: &'a [Section]) -> Result<(), AllocError>
    ensures { OnOk result (read all.new.items ≡ read all.old.items ++ flat_map in_section sections.now) }
{
    for section in sections {
        push_in_section(all, section)?;
    }
    Ok(())
}

// Adds the expressions of a section.
fn push_in_section<'a>(all: &mut Vec<&'a Expr>, section: &'a Section) -> Result<(), AllocError>
    ensures { OnOk result (read all.new.items ≡ read all.old.items ++ in_section section.now) }
{
    match section {
        Section::Variables(_, variables) => push_in_variables(all, variables.as_slice()),
        Section::Definitions(definitions) => push_bodies(all, definitions.as_slice()),
        Section::Constants(_) => Ok(()),
        Section::Assignments(assignments) => push_in_assignments(all, assignments.as_slice()),
        Section::Constraint(constraint) => push_one(all, &constraint.formula),
        Section::Specification(specification) => push_one(all, &specification.formula),
    }
}

fn push_in_variables<'a>(
    all: &mut Vec<&'a Expr>,
    variables: &'a [Variable],
) -> Result<(), AllocError>
    ensures { OnOk result (read all.new.items ≡ read all.old.items ++ flat_map in_variable variables.now) }
{
    for variable in variables {
        push_in_variable(all, variable)?;
    }
    Ok(())
}

// Those of the bounds of an array, from the outermost on, and then those of the type of its elements.
fn push_in_variable<'a>(all: &mut Vec<&'a Expr>, variable: &'a Variable) -> Result<(), AllocError>
    ensures { OnOk result (read all.new.items ≡ read all.old.items ++ in_variable variable.now) }
{
    push_in_dimensions(all, variable.dimensions.as_slice())?;
    push_in_type(all, &variable.declared)
}

fn push_in_dimensions<'a>(
    all: &mut Vec<&'a Expr>,
    dimensions: &'a [Dimension],
) -> Result<(), AllocError>
    ensures { OnOk result (read all.new.items ≡ read all.old.items ++ flat_map in_dimension dimensions.now) }
{
    for dimension in dimensions {
        push_two(all, &dimension.low, &dimension.high)?;
    }
    Ok(())
}

fn push_in_type<'a>(all: &mut Vec<&'a Expr>, declared: &'a TypeExpr) -> Result<(), AllocError>
    ensures { OnOk result (read all.new.items ≡ read all.old.items ++ in_type declared.now) }
{
    match declared {
        TypeExpr::Boolean(_) | TypeExpr::Enumeration(..) => Ok(()),
        TypeExpr::Word(_, _, width) => push_one(all, width),
        TypeExpr::Range(_, low, high) => push_two(all, low, high),
        TypeExpr::Instance(_, _, given) => push_all(all, given.as_slice()),
    }
}

// Adds the bodies of definitions.
fn push_bodies<'a>(all: &mut Vec<&'a Expr>, definitions: &'a [Definition]) -> Result<(), AllocError>
    ensures { OnOk result (read all.new.items ≡ read all.old.items ++ map (λ (d : Definition). d.body) definitions.now) }
{
    for definition in definitions {
        push_one(all, &definition.body)?;
    }
    Ok(())
}

fn push_in_assignments<'a>(
    all: &mut Vec<&'a Expr>,
    assignments: &'a [Assignment],
) -> Result<(), AllocError>
    ensures { OnOk result (read all.new.items ≡ read all.old.items ++ flat_map in_assignment assignments.now) }
{
    for assignment in assignments {
        push_two(all, &assignment.target, &assignment.value)?;
    }
    Ok(())
}

fn push_all<'a>(all: &mut Vec<&'a Expr>, expressions: &'a [Expr]) -> Result<(), AllocError>
    ensures { OnOk result (read all.new.items ≡ read all.old.items ++ expressions.now) }
{
    for e in expressions {
        push_one(all, e)?;
    }
    Ok(())
}

fn push_two<'a>(
    all: &mut Vec<&'a Expr>,
    first: &'a Expr,
    second: &'a Expr,
) -> Result<(), AllocError>
    ensures { OnOk result (read all.new.items ≡ read all.old.items ++ first.now ∷ second.now ∷ []) }
{
    push_one(all, first)?;
    push_one(all, second)
}

fn push_one<'a>(all: &mut Vec<&'a Expr>, e: &'a Expr) -> Result<(), AllocError>
    ensures { OnOk result (read all.new.items ≡ read all.old.items ++ e.now ∷ []) }
{
    all.push(e)?;
    Ok(())
}
