//! The variables of modules that are instances of modules. They are listed once for each module, and each instance of
//! it has its children by that list.

ghost use Rattle.std.specs.Prelude.{◌≡◌, ◌++◌, ℕ, [], map, slice_get, IfOk, OnOk};
ghost use Rattle.std.specs.Borrow.{Bor};
ghost use Rattle.std.specs.List.{flat_map};
ghost use Rattle.smv_tree.specs.declared.tree.Variable.{Variable};
ghost use Rattle.smv_tree.specs.declared.tree.VariableKind.{VariableKind};
ghost use Rattle.smv_scope.specs.Modules.{variables_in};
ghost use Rattle.smv_scope.specs.Instances.{child, children_from};
ghost use Rattle.smv_scope.specs.Instantiations.{instances_by, listed_in, AreListed};
ghost use Rattle.smv_scope.specs.Symbols.{AreNumbered};

use crate::holders::is_array;
use crate::modules::variables_of;
use crate::symbols::ModuleNumbers;
use smv_tree::{Program, Section, TypeExpr, Variable, VariableKind};
use sqlite_items::Items;
use std::alloc::{AllocError, Global};

/// A variable of a module that is an instance of a module.
#[derive(Clone, Copy)]
pub struct Instantiation {
    /// Its number among the variables of the module that declares it.
    pub variable: usize,
    /// The number of the module that it is an instance of.
    pub of_module: usize,
}

/// The instantiations in each module of a program.
pub(crate) fn instantiations(
    alloc: Global,
    program: &Program,
    names: &ModuleNumbers,
) -> Result<Items<Items<Instantiation>>, AllocError>
    requires { AreNumbered program.now.modules names.now }
    ensures { IfOk result (λ lists. AreListed program.now lists) }
{
    let mut lists = Items::new(alloc);
    push_lists(alloc, &mut lists, program, names)?;
    Ok(lists)
}

/// The instantiations in the module of this number.
pub(crate) fn listed_in(lists: &[Items<Instantiation>], m: usize) -> &[Instantiation]
    ensures { result.now ≡ listed_in (slice_get lists.now m) }
{
    match lists.get(m) {
        None => &[],
        Some(list) => list.as_slice(),
    }
}

fn push_lists(
    alloc: Global,
    lists: &mut Items<Items<Instantiation>>,
    program: &Program,
    names: &ModuleNumbers,
) -> Result<(), AllocError>
    requires numbered { AreNumbered program.now.modules names.now }
    requires none { lists.old ≡ [] }
    ensures { OnOk result (AreListed program.now lists.new) }
{
    for module in program.modules.as_slice() {
        let list = instantiations_in(alloc, program, names, module.sections.as_slice())?;
        lists.push(list)?;
    }
    Ok(())
}

// The instantiations in these sections of a module.
fn instantiations_in(
    alloc: Global,
    program: &Program,
    names: &ModuleNumbers,
    sections: &[Section],
) -> Result<Items<Instantiation>, AllocError>
    requires { AreNumbered program.now.modules names.now }
    ensures { IfOk result (λ list. (at : ℕ) → instances_by at list ≡ children_from program.now.modules at 0 (flat_map variables_in sections.now)) }
{
    let variables = variables_of(alloc, sections)?;
    let mut list = Items::new(alloc);
    push_instantiations(&mut list, program, names, variables.as_slice())?;
    Ok(list)
}

// Adds those of these variables that are instances.
fn push_instantiations(
    list: &mut Items<Instantiation>,
    program: &Program,
    names: &ModuleNumbers,
    variables: &[(VariableKind, &Variable)],
) -> Result<(), AllocError>
    requires { AreNumbered program.now.modules names.now }
    ensures { OnOk result ((at : ℕ) → instances_by at list.new ≡ instances_by at list.old ++ children_from program.now.modules at 0 (map (λ (x : VariableKind × Bor Variable). (x.0, x.1.now)) variables.now)) }
{
    for (v, variable) in variables.iter().enumerate() {
        push_instantiation(list, program, names, v, variable.1)?;
    }
    Ok(())
}

// Adds the variable of this number, if it is an instance.
fn push_instantiation(
    list: &mut Items<Instantiation>,
    _program: &Program,
    names: &ModuleNumbers,
    v: usize,
    variable: &Variable,
) -> Result<(), AllocError>
    requires { AreNumbered _program.now.modules names.now }
    ensures { OnOk result ((at : ℕ) → instances_by at list.new ≡ instances_by at list.old ++ child _program.now.modules at v variable.now) }
{
    if is_array(variable) {
        return Ok(());
    }
    let TypeExpr::Instance(_, name, _) = &variable.declared else {
        return Ok(());
    };
    let Some(of_module) = names.get(name.as_str()) else {
        return Ok(());
    };
    list.push(Instantiation {
        variable: v,
        of_module: *of_module,
    })
}
