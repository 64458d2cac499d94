//! The variables that have values, counted: those of a module before each of its variables, and those of all instances
//! before each one.

ghost use Rattle.std.specs.Prelude.{◌≡◌, ◌≤◌, ◌++◌, ℕ, List, map, slice_get, IfOk, OnOk};
ghost use Rattle.std.specs.Borrow.{Bor};
ghost use Rattle.std.specs.List.{flat_map};
ghost use Rattle.smv_tree.specs.declared.tree.Variable.{Variable};
ghost use Rattle.smv_tree.specs.declared.tree.VariableKind.{VariableKind};
ghost use Rattle.smv_scope.specs.Modules.{is_array, parameters_of, sections_of, variables_in, variables_of};
ghost use Rattle.smv_scope.specs.Holders.{held_by, held_in, holds, rank_of};
ghost use Rattle.smv_scope.specs.Symbols.{IsTableOf, first_holders_from, ranks_from};

use crate::modules::variables_of;
use crate::{Instance, Scope, SymbolTable};
use smv_tree::{Program, Section, TypeExpr, Variable, VariableKind};
use sqlite_items::Items;
use std::alloc::{AllocError, Global};

/// Whether a variable is an array.
pub fn is_array(variable: &Variable) -> bool
    ensures { result ≡ is_array variable.now }
{
    !variable.dimensions.is_empty()
}

/// Whether a variable has a value, or is an array: all but those that are instances.
pub fn holds(variable: &Variable) -> bool
    ensures { result ≡ holds variable.now }
{
    is_array(variable) || !matches!(&variable.declared, TypeExpr::Instance(..))
}

/// For each variable of these sections how many of those before it have values; gives how many do in all.
pub(crate) fn push_ranks_of(
    alloc: Global,
    ranks: &mut Items<usize>,
    sections: &[Section],
) -> Result<usize, AllocError>
    ensures ranks { OnOk result (ranks.new ≡ ranks.old ++ ranks_from 0 (flat_map variables_in sections.now)) }
    ensures all { IfOk result (λ count. count ≡ held_by (flat_map variables_in sections.now)) }
{
    let variables = variables_of(alloc, sections)?;
    push_ranks(ranks, variables.as_slice())
}

fn push_ranks(
    ranks: &mut Items<usize>,
    variables: &[(VariableKind, &Variable)],
) -> Result<usize, AllocError>
    ensures ranks { OnOk result (ranks.new ≡ ranks.old ++ ranks_from 0 (map (λ (x : VariableKind × Bor Variable). (x.0, x.1.now)) variables.now)) }
    ensures all { IfOk result (λ count. count ≡ held_by (map (λ (x : VariableKind × Bor Variable). (x.0, x.1.now)) variables.now)) }
{
    let mut count = 0;
    for x in variables {
        ranks.push(count)?;
        if holds(x.1) {
            count += 1;
        }
    }
    Ok(count)
}

/// How many of the variables before this one of a module have values.
pub(crate) fn rank_of(scope: &Scope, m: usize, v: usize) -> usize
    ensures rank { result ≡ rank_of scope.now.program m v }
    ensures few { result ≤ held_by (variables_of scope.now.program m) }
{
    match scope.symbols.get(m) {
        None => 0,
        Some(table) => match table.ranks.get(v) {
            None => table.holders,
            Some(rank) => *rank,
        },
    }
}

/// For each instance how many variables have values in those before it. Memory is refused where there are more than can
/// be counted.
pub(crate) fn first_holders(
    alloc: Global,
    program: &Program,
    symbols: &[SymbolTable],
    tree: &[Instance],
) -> Result<Items<usize>, AllocError>
    requires { (m : ℕ) → IsTableOf (parameters_of program.now m) (sections_of program.now m) (slice_get symbols.now m) }
    ensures counted { IfOk result (λ firsts. firsts ≡ first_holders_from program.now 0 tree.now) }
    ensures few { OnOk result (held_in program.now tree.now ≤ 18446744073709551615) }
{
    let mut firsts = Items::new(alloc);
    push_first_holders(&mut firsts, program, symbols, tree)?;
    Ok(firsts)
}

fn push_first_holders(
    firsts: &mut Items<usize>,
    program: &Program,
    symbols: &[SymbolTable],
    tree: &[Instance],
) -> Result<(), AllocError>
    requires { (m : ℕ) → IsTableOf (parameters_of program.now m) (sections_of program.now m) (slice_get symbols.now m) }
    ensures counted { OnOk result (firsts.new ≡ firsts.old ++ first_holders_from program.now 0 tree.now) }
    ensures few { OnOk result (held_in program.now tree.now ≤ 18446744073709551615) }
{
    let mut count: usize = 0;
    for x in tree {
        firsts.push(count)?;
        let held = held_by_module(program, symbols, x.of_module);
        if usize::MAX - count < held {
            return Err(AllocError);
        }
        count += held;
    }
    Ok(())
}

// So many variables of the module of this number have values.
fn held_by_module(_program: &Program, symbols: &[SymbolTable], m: usize) -> usize
    requires { (n : ℕ) → IsTableOf (parameters_of _program.now n) (sections_of _program.now n) (slice_get symbols.now n) }
    ensures { result ≡ held_by (variables_of _program.now m) }
{
    match symbols.get(m) {
        None => 0,
        Some(table) => table.holders,
    }
}
