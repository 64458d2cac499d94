//! Graphs: that of the modules, and whether one has a cycle.

ghost use Rattle.std.specs.Prelude.{◌≡◌, ◌++◌, map, true, IfOk, OnOk};
ghost use Rattle.std.specs.List.{flat_map};
ghost use Rattle.digraph.specs.Cycles.{Acyclic, Closed};
ghost use Rattle.smv_scope.specs.Modules.{module_named};
ghost use Rattle.smv_scope.specs.Symbols.{AreNumbered};
ghost use Rattle.smv_names.specs.Reached.{module_graph, module_of_variable, modules_in, modules_used, some_only};

use digraph::canonical_cycle;
use smv_scope::{ModuleNumbers, is_array};
use smv_tree::{Module, Program, Section, TypeExpr, Variable};
use sqlite_items::Items;
use std::alloc::{AllocError, Global};

/// The number of the first module of this name.
pub(crate) fn module_named(
    _modules: &[Module],
    numbers: &ModuleNumbers,
    name: &str,
) -> Option<usize>
    requires { AreNumbered _modules.now numbers.now }
    ensures { result ≡ module_named _modules.now name.now }
{
    numbers.get(name).copied()
}

/// The graph of modules: each leads to those that it uses.
pub(crate) fn module_graph(
    alloc: Global,
    program: &Program,
    numbers: &ModuleNumbers,
) -> Result<Vec<Items<usize>>, AllocError>
    requires { AreNumbered program.now.modules numbers.now }
    ensures { IfOk result (λ g. g.items ≡ module_graph program.now) }
{
    let mut graph = Vec::new(alloc);
    for m in program.modules.as_slice() {
        let used = modules_used(alloc, program.modules.as_slice(), numbers, m)?;
        graph.push(used)?;
    }
    Ok(graph)
}

fn modules_used(
    alloc: Global,
    modules: &[Module],
    numbers: &ModuleNumbers,
    m: &Module,
) -> Result<Items<usize>, AllocError>
    requires { AreNumbered modules.now numbers.now }
    ensures { IfOk result (λ used. used ≡ modules_used modules.now m.now) }
{
    let mut used = Vec::new(alloc);
    for section in m.sections.as_slice() {
        push_modules_in(&mut used, modules, numbers, section)?;
    }
    Ok(Items::from_vec(used))
}

// Adds the modules that a section uses.
fn push_modules_in(
    used: &mut Vec<usize>,
    modules: &[Module],
    numbers: &ModuleNumbers,
    section: &Section,
) -> Result<(), AllocError>
    requires { AreNumbered modules.now numbers.now }
    ensures { OnOk result (used.new.items ≡ used.old.items ++ modules_in modules.now section.now) }
{
    match section {
        Section::Variables(_, variables) => {
            push_modules_of(used, modules, numbers, variables.as_slice())
        }
        _ => Ok(()),
    }
}

// Adds the modules of which variables are instances.
fn push_modules_of(
    used: &mut Vec<usize>,
    modules: &[Module],
    numbers: &ModuleNumbers,
    variables: &[Variable],
) -> Result<(), AllocError>
    requires { AreNumbered modules.now numbers.now }
    ensures { OnOk result (used.new.items ≡ used.old.items ++ flat_map (module_of_variable modules.now) variables.now) }
{
    for variable in variables {
        push_module_of(used, modules, numbers, variable)?;
    }
    Ok(())
}

fn push_module_of(
    used: &mut Vec<usize>,
    modules: &[Module],
    numbers: &ModuleNumbers,
    variable: &Variable,
) -> Result<(), AllocError>
    requires { AreNumbered modules.now numbers.now }
    ensures { OnOk result (used.new.items ≡ used.old.items ++ module_of_variable modules.now variable.now) }
{
    if is_array(variable) {
        return Ok(());
    }
    match &variable.declared {
        TypeExpr::Instance(_, name, _) => push_some(
            used,
            module_named(modules, numbers, name.as_str()),
        ),
        _ => Ok(()),
    }
}

/// Adds a number, if there is one.
pub(crate) fn push_some(list: &mut Vec<usize>, n: Option<usize>) -> Result<(), AllocError>
    ensures { OnOk result (list.new.items ≡ list.old.items ++ some_only n) }
{
    match n {
        None => Ok(()),
        Some(n) => {
            list.push(n)?;
            Ok(())
        }
    }
}

/// The graph has no cycle. Where it is too large for a quick answer, no is said.
pub(crate) fn is_acyclic(alloc: Global, graph: &[Items<usize>]) -> Result<bool, AllocError>
    requires { Closed graph.now }
    ensures { IfOk result (λ r. r ≡ true → Acyclic graph.now) }
{
    if graph.len() >= 4294967296 {
        return Ok(false);
    }
    match canonical_cycle(alloc, graph)? {
        None => Ok(true),
        Some(_) => Ok(false),
    }
}
