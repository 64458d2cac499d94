//! The definitions of the modules of a program. They are listed once for each module, and each of its instances has
//! them.

ghost use Rattle.std.specs.Prelude.{◌≡◌, ◌++◌, map, IfOk, OnOk};
ghost use Rattle.std.specs.List.{flat_map};
ghost use Rattle.smv_tree.specs.declared.tree.Module.{Module};
ghost use Rattle.smv_scope.specs.Modules.{definitions_in};
ghost use Rattle.smv_names.specs.DefinitionLists.{read_lists, AreListed};

use smv_scope::definitions_of;
use smv_tree::{Definition, Module, Program};
use std::alloc::{AllocError, Global};

/// The definitions of each module of a program.
pub(crate) fn definition_lists(
    alloc: Global,
    program: &Program,
) -> Result<Vec<Vec<&Definition>>, AllocError>
    ensures { IfOk result (λ lists. AreListed program.now lists.items) }
{
    let mut lists = Vec::new(alloc);
    push_lists(alloc, &mut lists, program.modules.as_slice())?;
    Ok(lists)
}

fn push_lists<'a>(
    alloc: Global,
    lists: &mut Vec<Vec<&'a Definition>>,
    modules: &'a [Module],
) -> Result<(), AllocError>
    ensures { OnOk result (read_lists lists.new.items ≡ read_lists lists.old.items ++ map (λ (m : Module). flat_map definitions_in m.sections) modules.now) }
{
    for module in modules {
        let list = definitions_of(alloc, module.sections.as_slice())?;
        lists.push(list)?;
    }
    Ok(())
}
