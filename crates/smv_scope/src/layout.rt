//! A program laid out: its instances, and the tables by which names are looked up.

ghost use Rattle.std.specs.Prelude.{◌≡◌, ◌≤◌, ℕ, List, position, slice_get, bytes_eq, IfOk, OnOk};
ghost use Rattle.std.specs.HashMap.{get, get_by_text};
ghost use Rattle.smv_scope.specs.Answers.{LaysOut};
ghost use Rattle.smv_scope.specs.Enumerated.{symbols_from};
ghost use Rattle.smv_scope.specs.Holders.{held_in};
ghost use Rattle.smv_scope.specs.Instances.{instances_of, is_declared_by};
ghost use Rattle.smv_scope.specs.Modules.{parameters_of, sections_of};
ghost use Rattle.smv_scope.specs.Symbols.{IsTableOf, first_holders_from, same_variable};
ghost use Rattle.smv_scope.specs.declared.instance.Instance.{Instance};
ghost use Rattle.smv_scope.specs.declared.instance.Parent.{Parent};
ghost use Rattle.smv_scope.specs.declared.layout.LayoutStop.TheVariants.{NoMemory};

use crate::enumerated::numbered_symbols;
use crate::holders::first_holders;
use crate::instances::instances_of;
use crate::symbols::{child_numbers, symbol_tables};
use crate::{Instance, Parent, Scope, SymbolTable};
use indexmap::IndexMap;
use plain_text::Text;
use smv_tree::Program;
use sqlite_items::Items;
use std::alloc::{AllocError, Global};
use std::collections::HashMap;

/// What a scope has beside the program and its instances.
#[derive(Drop)]
struct Tables {
    symbols: Items<SymbolTable>,
    first_holders: Items<usize>,
    child_numbers: HashMap<Parent, usize>,
    symbol_names: Items<Text>,
    symbol_numbers: IndexMap<String, usize>,
}

/// Why a program is not laid out.
#[derive(Debug, Drop)]
pub enum LayoutStop {
    /// It has more than 100000 instances.
    TooManyInstances,
    /// Memory was refused, which may come at any time.
    NoMemory,
}

impl From<AllocError> for LayoutStop {
    ghost from_gives = { λ _ e. e ≡ NoMemory };

    fn from(_error: AllocError) -> LayoutStop {
        LayoutStop::NoMemory
    }
}

/// A program with its instances. More than 100000 are refused; the other error is running out of memory. It costs the
/// length of the program's text and the number of the instances: each variable is read a few times for its module, and
/// not once more for each instance of it.
pub fn lay_out(alloc: Global, program: Program) -> Result<Scope, LayoutStop>
    ensures { LaysOut program result }
{
    let tree = instances_of(alloc, &program)?;
    Ok(scope_of(alloc, program, tree)?)
}

// The tables by which names are looked up, beside the program and its instances.
fn scope_of(alloc: Global, program: Program, tree: Items<Instance>) -> Result<Scope, AllocError>
    requires { tree ≡ instances_of program }
    ensures { IfOk result (λ scope. scope.program ≡ program) }
{
    let tables = tables_of(alloc, &program, tree.as_slice())?;
    Ok(Scope {
        program,
        tree,
        symbols: tables.symbols,
        first_holders: tables.first_holders,
        child_numbers: tables.child_numbers,
        symbol_names: tables.symbol_names,
        symbol_numbers: tables.symbol_numbers,
    })
}

fn tables_of(alloc: Global, program: &Program, tree: &[Instance]) -> Result<Tables, AllocError>
    ensures tabled { IfOk result (λ tables. (m : ℕ) → IsTableOf (parameters_of program.now m) (sections_of program.now m) (slice_get tables.symbols m)) }
    ensures counted { IfOk result (λ tables. tables.first_holders ≡ first_holders_from program.now 0 tree.now) }
    ensures few { OnOk result (held_in program.now tree.now ≤ 18446744073709551615) }
    ensures children { IfOk result (λ tables. (x : Parent) → get same_variable tables.child_numbers x ≡ position (λ (y : Instance). is_declared_by x.instance x.variable y.parent) tree.now) }
    ensures named { IfOk result (λ tables. tables.symbol_names ≡ symbols_from tree.now 0 program.now.modules) }
    ensures numbered { IfOk result (λ tables. (name : List ℕ) → get_by_text tables.symbol_numbers name ≡ position (λ (symbol : List ℕ). bytes_eq name symbol) (symbols_from tree.now 0 program.now.modules)) }
{
    let held = held_tables(alloc, program, tree)?;
    let child_numbers = child_numbers(alloc, tree)?;
    let names = numbered_symbols(alloc, program.modules.as_slice(), tree)?;
    Ok(Tables {
        symbols: held.0,
        first_holders: held.1,
        child_numbers,
        symbol_names: names.0,
        symbol_numbers: names.1,
    })
}

// The symbol tables of the modules, and for each instance how many variables have values in those before it.
fn held_tables(
    alloc: Global,
    program: &Program,
    tree: &[Instance],
) -> Result<(Items<SymbolTable>, Items<usize>), AllocError>
    ensures tabled { IfOk result (λ tables. (m : ℕ) → IsTableOf (parameters_of program.now m) (sections_of program.now m) (slice_get tables.0 m)) }
    ensures counted { IfOk result (λ tables. tables.1 ≡ first_holders_from program.now 0 tree.now) }
    ensures few { OnOk result (held_in program.now tree.now ≤ 18446744073709551615) }
{
    let symbols = symbol_tables(alloc, program)?;
    let firsts = first_holders(alloc, program, symbols.as_slice(), tree)?;
    Ok((symbols, firsts))
}
