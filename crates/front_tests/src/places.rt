//! Where the parts of a program stand.

use crate::program_of;
use smv_tree::{AssignmentKind, ConstraintKind, Module, Place, Section, VariableKind};
use std::alloc::Global;
use std::test::Fail;

/// One part of each kind.
const SOURCE: &str = "MODULE main(p)
  FROZENVAR x : boolean;
  ASSIGN next(x) := p;
  FAIRNESS x
  INVARSPEC p
";

fn place(line: usize, column: usize) -> Place {
    Place { line, column }
}

fn has_heading(module: &Module) -> bool {
    let named = module.place == place(1, 1)
        && module.name_place == place(1, 8)
        && module.name.as_str() == "main";
    match module.parameters.get(0) {
        Some(parameter) => {
            named && parameter.place == place(1, 13) && parameter.name.as_str() == "p"
        }
        None => false,
    }
}

fn is_variable(section: Option<&Section>) -> bool {
    match section {
        Some(Section::Variables(VariableKind::Frozen, variables)) => match variables.get(0) {
            Some(variable) => variable.place == place(2, 13) && variable.name.as_str() == "x",
            None => false,
        },
        _ => false,
    }
}

fn is_assignment(section: Option<&Section>) -> bool {
    match section {
        Some(Section::Assignments(assignments)) => match assignments.get(0) {
            Some(assignment) => {
                assignment.place == place(3, 10) && assignment.kind == AssignmentKind::Next
            }
            None => false,
        },
        _ => false,
    }
}

fn is_fairness(section: Option<&Section>) -> bool {
    match section {
        Some(Section::Constraint(constraint)) => {
            constraint.place == place(4, 3) && constraint.kind == ConstraintKind::Justice
        }
        _ => false,
    }
}

fn is_claim(section: Option<&Section>) -> bool {
    match section {
        Some(Section::Specification(specification)) => specification.place == place(5, 3),
        _ => false,
    }
}

fn has_parts(module: &Module) -> bool {
    let sections = &module.sections;
    has_heading(module)
        && is_variable(sections.get(0))
        && is_assignment(sections.get(1))
        && is_fairness(sections.get(2))
        && is_claim(sections.get(3))
}

fn stands(alloc: Global) -> bool {
    match program_of(alloc, SOURCE.as_bytes()) {
        Ok(program) => match program.modules.get(0) {
            Some(module) => has_parts(module),
            None => false,
        },
        Err(_) => false,
    }
}

#[test]
fn parts_have_places(rt: HostRuntime) -> Result<(), Fail> {
    let right = stands(rt.alloc());
    assert!(rt; right);
    Ok(())
}
