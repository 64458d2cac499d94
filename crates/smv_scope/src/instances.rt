//! The instances of a program.

ghost use Rattle.std.specs.Prelude.{◌≡◌, ◌≢◌, ◌<◌, ◌≤◌, ◌-◌, ◌++◌, length, map, reverse, IfOk, IfErr, OnOk};
ghost use Rattle.smv_scope.specs.declared.instance.Instance.{Instance};
ghost use Rattle.smv_scope.specs.Instances.{children, subtree, instances_of, most_instances};
ghost use Rattle.smv_scope.specs.Instantiations.{instance_by, instances_by, AreListed};
ghost use Rattle.smv_scope.specs.Symbols.{AreNumbered};

use crate::instantiations::{Instantiation, instantiations, listed_in};
use crate::layout::LayoutStop;
use crate::symbols::{ModuleNumbers, module_numbers};
use crate::{Instance, Parent};
use smv_tree::Program;
use sqlite_items::Items;
use std::alloc::{AllocError, Global};

/// A program has at most this many instances.
const MOST_INSTANCES: usize = 100000;

/// An instance that is to come with those below it, to this depth.
#[derive(Clone, Copy)]
pub struct Root {
    pub instance: Instance,
    pub depth: usize,
}

/// The instances of a program in preorder.
pub fn instances_of(alloc: Global, program: &Program) -> Result<Items<Instance>, LayoutStop>
    ensures ok { IfOk result (λ tree. (tree ≡ instances_of program.now) × (length tree ≤ most_instances)) }
    ensures err { IfErr result (λ stop. stop ≡ LayoutStop.TooManyInstances → most_instances < length (instances_of program.now)) }
{
    let names = module_numbers(alloc, program.modules.as_slice())?;
    let lists = instantiations(alloc, program, &names)?;
    instances_with(alloc, program, &names, lists.as_slice())
}

// The same by the number of the first module of each name, and the instantiations in each module.
fn instances_with(
    alloc: Global,
    program: &Program,
    names: &ModuleNumbers,
    lists: &[Items<Instantiation>],
) -> Result<Items<Instance>, LayoutStop>
    requires numbered { AreNumbered program.now.modules names.now }
    requires listed { AreListed program.now lists.now }
    ensures ok { IfOk result (λ tree. (tree ≡ instances_of program.now) × (length tree ≤ most_instances)) }
    ensures err { IfErr result (λ stop. stop ≡ LayoutStop.TooManyInstances → most_instances < length (instances_of program.now)) }
{
    match names.get("main") {
        None => Ok(Items::new(alloc)),
        Some(main) => subtree(
            alloc,
            program,
            lists,
            Root {
                instance: Instance {
                    of_module: *main,
                    parent: None,
                },
                depth: program.modules.len(),
            },
        ),
    }
}

// The instances below a root that is the first of all.
fn subtree(
    alloc: Global,
    program: &Program,
    lists: &[Items<Instantiation>],
    top: Root,
) -> Result<Items<Instance>, LayoutStop>
    requires { AreListed program.now lists.now }
    ensures ok { IfOk result (λ tree. (tree ≡ subtree program.now top.depth 0 top.instance) × (length tree ≤ most_instances)) }
    ensures err { IfErr result (λ stop. stop ≡ LayoutStop.TooManyInstances → most_instances < length (subtree program.now top.depth 0 top.instance)) }
{
    let mut tree = Items::new(alloc);
    let mut roots = Items::new(alloc);
    roots.push(top)?;
    while let Some(root) = roots.pop() {
        let at = tree.len();
        tree.push(root.instance)?;
        push_children(&mut roots, program, lists, at, root)?;
        if MOST_INSTANCES - tree.len() < roots.len() {
            return Err(LayoutStop::TooManyInstances);
        }
    }
    Ok(tree)
}

// The children of a root come next, the first of them first.
fn push_children(
    roots: &mut Items<Root>,
    _program: &Program,
    lists: &[Items<Instantiation>],
    at: usize,
    root: Root,
) -> Result<(), AllocError>
    requires { AreListed _program.now lists.now }
    ensures leaf { root.depth ≡ 0 → OnOk result (roots.new ≡ roots.old) }
    ensures branch { root.depth ≢ 0 → OnOk result (reverse roots.new
        ≡ map (λ (x : Instance). record { instance = x; depth = root.depth - 1 }) (children _program.now at root.instance) ++ reverse roots.old) }
{
    if root.depth == 0 {
        return Ok(());
    }
    let list = listed_in(lists, root.instance.of_module);
    push_roots(roots, list, at, root.depth - 1)
}

// The instances that these variables of an instance are, the first of them last.
fn push_roots(
    roots: &mut Items<Root>,
    list: &[Instantiation],
    at: usize,
    depth: usize,
) -> Result<(), AllocError>
    ensures { OnOk result (reverse roots.new
        ≡ map (λ (x : Instance). record { instance = x; depth = depth }) (instances_by at list.now) ++ reverse roots.old) }
{
    for k in (0..list.len()).rev() {
        roots.push(Root {
            instance: instance_by(at, list[k]),
            depth,
        })?;
    }
    Ok(())
}

// The instance that a variable is in the instance of this number.
fn instance_by(at: usize, x: Instantiation) -> Instance
    ensures { result ≡ instance_by at x }
{
    Instance {
        of_module: x.of_module,
        parent: Some(Parent {
            instance: at,
            variable: x.variable,
        }),
    }
}
