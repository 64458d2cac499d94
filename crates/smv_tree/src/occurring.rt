//! The names of an expression.

ghost use Rattle.std.specs.Prelude.{◌≡◌, ◌++◌, map, IfOk, OnOk};
ghost use Rattle.std.specs.List.{flat_map};
ghost use Rattle.smv_tree.specs.declared.place.Place.{Place};
ghost use Rattle.smv_value.specs.declared.operator.Operator.{Operator};
ghost use Rattle.smv_tree.specs.declared.tree.Expr.{Expr};
ghost use Rattle.smv_tree.specs.Occurring.{names_in, read};

use crate::{Expr, Name, Place};
use smv_value::Operator;
use std::alloc::{AllocError, Global};

/// The names of an expression, in the order of the text.
pub fn names_in(alloc: Global, e: &Expr) -> Result<Vec<&Name>, AllocError>
    ensures { IfOk result (λ names. read names.items ≡ names_in e.now) }
{
    let mut names = Vec::new(alloc);
    push_names(&mut names, e)?;
    Ok(names)
}

// Adds the names of an expression.
#[cycle(names)]
fn push_names<'a>(names: &mut Vec<&'a Name>, e: &'a Expr) -> Result<(), AllocError>
    ensures { OnOk result (read names.new.items ≡ read names.old.items ++ names_in e.now) }
{
    match e {
        Expr::Constant(..) => Ok(()),
        Expr::Name(name) => {
            names.push(name)?;
            Ok(())
        }
        Expr::Group(_, a) => push_names(names, a.get()),
        Expr::Next(_, a) => push_names(names, a.get()),
        Expr::Apply(_, _, beside, below) => {
            push_all(names, beside.as_slice())?;
            push_all(names, below.as_slice())
        }
        Expr::Chain(first, links) => {
            push_names(names, first.get())?;
            push_links(names, links.as_slice())
        }
    }
}

// Adds the names of the operands of links.
#[cycle(names)]
fn push_links<'a>(
    names: &mut Vec<&'a Name>,
    links: &'a [(Place, Operator, Expr)],
) -> Result<(), AllocError>
    ensures { OnOk result (read names.new.items ≡ read names.old.items ++ flat_map (λ (link : Place × Operator × Expr). names_in link.2) links.now) }
{
    for link in links {
        push_names(names, &link.2)?;
    }
    Ok(())
}

// Adds the names of operands.
#[cycle(names)]
fn push_all<'a>(names: &mut Vec<&'a Name>, operands: &'a [Expr]) -> Result<(), AllocError>
    ensures { OnOk result (read names.new.items ≡ read names.old.items ++ flat_map names_in operands.now) }
{
    for e in operands {
        push_names(names, e)?;
    }
    Ok(())
}
