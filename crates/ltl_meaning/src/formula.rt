//! Formulas of linear temporal logic with past, and how deep their past operators nest.

ghost use Rattle.std.specs.Prelude.{◌≡◌, ◌<◌, ◌+◌, ◌*◌, ◌^◌, ◌↔◌, IsSome, IfSome};
ghost use Rattle.ltl_meaning.specs.Temporal.{formula_of, past_depth};

use crate::height::{LIMIT, capped_height};
use crate::node::FormulaNode;

/// A formula of linear temporal logic with past, whose past operators nest less than 2^32 deep; one with
/// bounds counts as often as it looks back.
#[derive(Debug, Drop)]
pub struct Formula {
    pub root: FormulaNode,
    height: u32,
    ghost exact: { height ≡ past_depth (formula_of root) },
    pub ghost bounded: { past_depth (formula_of root) < 4294967296 },
}

impl Formula {
    ghost use Rattle.ltl_meaning.specs.declared.word.Word.{Word};
    ghost use Rattle.ltl_meaning.specs.Truth.{IsTrueAt, Repeats};
    ghost use Rattle.ltl_meaning.specs.Lasso.{on, period};

    /// The formula of a node and all below it, or `None` where its past operators nest too deep.
    pub fn new(root: FormulaNode) -> Option<Formula>
        ensures fits { IsSome result ↔ (past_depth (formula_of root) < 2 ^ 32) }
        ensures value { IfSome result (λ f. f.root ≡ root) }
    {
        let height = capped_height(&root);
        if height < LIMIT {
            let height = height as u32;
            Some(Formula { root, height })
        } else {
            None
        }
    }

    /// How deep past operators nest. Once so many passes of a word's loop are over, the formula's
    /// truth repeats with each pass.
    pub fn past_height(&self) -> u32
        ensures value { result ≡ past_depth (formula_of self.now.root) }
        ensures repeats { (w : Word) → Repeats (period w) (w.start + result * period w) (IsTrueAt (on w) (formula_of self.now.root)) }
    {
        self.height
    }
}
