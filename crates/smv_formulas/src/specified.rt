//! The formula of a specification.

ghost use Rattle.std.specs.Prelude.{◌↔◌, ℕ, IfOk};
ghost use Rattle.smv_resolve.specs.Items.{item_by};
ghost use Rattle.smv_meaning.specs.Lassos.{Holds, Lasso};
ghost use Rattle.ltl_meaning.specs.declared.word.Word.{Word};
ghost use Rattle.ltl_meaning.specs.Lasso.{on};
ghost use Rattle.ltl_meaning.specs.Temporal.{formula_of};
ghost use Rattle.ltl_meaning.specs.Truth.{IsTrueAt};
ghost use Rattle.smv_formulas.specs.Known.{AreKnownWith};
ghost use Rattle.smv_formulas.specs.Says.{Says, atom_parts};
ghost use Rattle.smv_formulas.specs.Words.{IsWordOf};

use crate::formed::{formed_at, formed_of};
use crate::marks::marks_of;
use crate::trees::tree;
use ltl_meaning::formula::Formula;
use smv_meaning::Typed;
use smv_resolve::Item;
use sqlite_items::Items;
use std::alloc::{AllocError, Global};

/// The formula of a specification, and its atoms, which are numbers of nodes of the program's list. An atom is true
/// where the node's expression is TRUE, with the inputs of the step from the state.
#[derive(Debug, Drop)]
pub struct Specified {
    pub formula: Formula,
    pub atoms: Items<usize>,
}

/// The formula of a specification: its temporal operators and the propositions above and under them, over atoms, which
/// are the largest parts without a temporal operator. On each lasso of values it is true at just the times at which the
/// specification holds, and so it is on the word of the lasso.
///
/// Where the specification's propositions and temporal operators are over what is TRUE or FALSE or faults, so is each
/// atom.
///
/// The error is running out of memory. Past operators that nest 2^32 deep count as such. So do other bounds than
/// `0 <= a <= b <= 255`, other numbers of operands than operators take, and names that stand for what has a temporal
/// operator. No program that is read has these. The time and the memory are those of the program's nodes and of the
/// formula, and of an atom the number of atoms before it.
pub fn formula_of(alloc: Global, typed: &Typed, spec: &Item) -> Result<Specified, AllocError>
    ensures says { IfOk result (λ s. Says typed.now.scope.program (atom_parts typed.now.nodes s.atoms) (formula_of s.formula.root) (item_by typed.now.nodes spec.now).value) }
    ensures words { IfOk result (λ s. (w : Lasso) (word : Word) → IsWordOf typed.now.scope.program (atom_parts typed.now.nodes s.atoms) w word → (t : ℕ) → IsTrueAt (on word) (formula_of s.formula.root) t ↔ Holds typed.now.scope.program w (item_by typed.now.nodes spec.now).value t) }
    ensures known { IfOk result (λ s. AreKnownWith typed.now.scope.program (item_by typed.now.nodes spec.now).value (atom_parts typed.now.nodes s.atoms)) }
{
    let nodes = typed.nodes.as_slice();
    let formed = formed_of(alloc, nodes)?;
    if !formed_at(&formed, spec.value) {
        return Err(AllocError);
    }
    let marks = marks_of(alloc, nodes)?;
    let mut atoms = Vec::new(alloc);
    let root = tree(
        alloc,
        nodes,
        marks.as_slice(),
        nodes.len(),
        spec.value,
        &mut atoms,
    )?;
    let Some(formula) = Formula::new(root) else {
        return Err(AllocError)
    };
    Ok(Specified {
        formula,
        atoms: Items::from_vec(atoms),
    })
}
