//! The names of instances and variables, as they are printed.

ghost use Rattle.std.specs.Prelude.{◌≡◌, ℕ, List, [], map, fold, reverse, string_bytes, IfOk, OnOk};
ghost use Rattle.std.specs.Borrow.{Bor};
ghost use Rattle.smv_scope.specs.Paths.{joined, variable_name, path_of};

use crate::Scope;
use crate::lookup::{module_at, parent_at};
use crate::modules::variable_at;
use plain_text::Text;
use std::alloc::{AllocError, Global};

/// The names of the variables that lead from `main` to the instance of this number, with dots between; empty for
/// `main`.
pub fn path_of(alloc: Global, scope: &Scope, at: usize) -> Result<Text, AllocError>
    ensures { IfOk result (λ path. path ≡ path_of scope.now.program at) }
{
    let path = path_to(alloc, scope, at)?;
    Text::from_str(alloc, path.as_str())
}

fn path_to(alloc: Global, scope: &Scope, at: usize) -> Result<String, AllocError>
    ensures { IfOk result (λ path. string_bytes path ≡ path_of scope.now.program at) }
{
    let mut path = String::new(alloc);
    let mut names = names_up(alloc, scope, at)?;
    push_names(&mut path, &mut names)?;
    Ok(path)
}

// The names come behind a path, the last of them first.
fn push_names(path: &mut String, names: &mut Vec<&str>) -> Result<(), AllocError>
    ensures { OnOk result (string_bytes path.new ≡ fold joined (string_bytes path.old) (reverse (map (λ (x : Bor (List ℕ)). x.now) names.old.items))) }
{
    while let Some(name) = names.pop() {
        push_name(path, name)?;
    }
    Ok(())
}

// The names of the variables that lead from an instance up to `main`.
fn names_up<'a>(alloc: Global, scope: &'a Scope, at: usize) -> Result<Vec<&'a str>, AllocError>
    ensures { IfOk result (λ names. fold joined [] (reverse (map (λ (x : Bor (List ℕ)). x.now) names.items)) ≡ path_of scope.now.program at) }
{
    let mut names = Vec::new(alloc);
    push_names_up(&mut names, scope, at)?;
    Ok(names)
}

fn push_names_up<'a>(
    names: &mut Vec<&'a str>,
    scope: &'a Scope,
    at: usize,
) -> Result<(), AllocError>
    ensures { OnOk result (fold joined [] (reverse (map (λ (x : Bor (List ℕ)). x.now) names.new.items))
        ≡ fold joined (path_of scope.now.program at) (reverse (map (λ (x : Bor (List ℕ)). x.now) names.old.items))) }
{
    let mut here = at;
    for level in 0..scope.tree.len() {
        let Some(parent) = parent_at(scope, here) else {
            return Ok(());
        };
        names.push(variable_name(scope, parent.instance, parent.variable))?;
        here = parent.instance;
    }
    Ok(())
}

// A name comes behind a path.
fn push_name(path: &mut String, name: &str) -> Result<(), AllocError>
    ensures { OnOk result (string_bytes path.new ≡ joined (string_bytes path.old) name.now) }
{
    if !path.is_empty() {
        path.push_str(".")?;
    }
    path.push_str(name)
}

/// The own name of the variable of this number of an instance; empty where there is none.
pub fn variable_name(scope: &Scope, at: usize, v: usize) -> &str
    ensures { result.now ≡ variable_name scope.now.program at v }
{
    let Some(m) = module_at(scope, at) else {
        return "";
    };
    match variable_at(scope, m, v) {
        None => "",
        Some(x) => x.name.as_str(),
    }
}
