//! Which literals a list has. For a long list there are marks by variables, so that each look-up takes the same time.

ghost use Rattle.std.specs.Prelude.{◌≡◌, ◌↔◌, ◌<◌, ◌++◌, ◌∷◌, [], List, Contains, IfOk, IsTrue, MatchBool, length};
ghost use Rattle.clause_core.specs.declared.literal.Lit.{Lit as ALit};
ghost use Rattle.frame_core.specs.Facts.{IsPart};
ghost use Rattle.frame_query.specs.Lookups.{AreSigned};

use clause_core::Lit;
use frame_solver::has;
use std::alloc::{AllocError, Global};
use std::marker::Model;

// Lists of no more literals are searched from their beginning.
const SHORT: usize = 16;

// A list of literals in which others are looked up. Contracts see the list.
#[derive(Drop)]
pub(crate) struct Lookup<'a> {
    literals: &'a [Lit],
    // for each variable up to some bound whether its positive literal is in the list, and its negative one
    positive: Vec<bool>,
    negative: Vec<bool>,
}

impl<'a> Model for Lookup<'a> {
    ghost use Rattle.std.specs.Prelude.{List, true, false};
    ghost use Rattle.clause_core.specs.declared.literal.Lit.{Lit as ALit};
    ghost use Rattle.frame_query.specs.Lookups.{AreSigned};

    ghost Value = { List ALit };

    ghost view = { λ k. k.literals.now };

    ghost invariant = { λ k. AreSigned true k.literals.now k.positive.items × AreSigned false k.literals.now k.negative.items };
}

impl<'a> Lookup<'a> {
    ghost use Rattle.std.specs.Prelude.{◌≡◌, Contains, MatchBool};

    // The list, with marks where it is long and there is memory for them.
    pub(crate) fn new(alloc: Global, literals: &'a [Lit]) -> Lookup<'a>
        ensures { result ≡ literals.now }
    {
        let count = span_of(literals);
        Lookup {
            literals,
            positive: marks_or_none(alloc, literals, true, count),
            negative: marks_or_none(alloc, literals, false, count),
        }
    }

    // Whether the literal is in the list.
    pub(crate) fn has(&self, l: Lit) -> bool
        ensures { MatchBool result (Contains self.now l) (Contains self.now l → ⊥) }
    {
        if l.positive {
            is_found(self.literals, &self.positive, l)
        } else {
            is_found(self.literals, &self.negative, l)
        }
    }
}

// For how many variables a list of these literals has marks: for none, where it is short.
fn span_of(literals: &[Lit]) -> usize {
    let mut span: usize = 0;
    if literals.len() > SHORT {
        for l in literals {
            span = span.max(l.var.saturating_add(1));
        }
    }
    span
}

// Marks the literal's variable, where it has this sign and there is a mark for it.
fn mark(marks: &mut Vec<bool>, l: Lit, sign: bool)
    ensures marked { (before : List ALit) → AreSigned sign before marks.old.items → AreSigned sign (before ++ l ∷ []) marks.new.items }
    ensures len { length marks.new.items ≡ length marks.old.items }
{
    if l.positive == sign && l.var < marks.len() {
        marks[l.var] = true;
    }
}

// Marks the variables of the literals that have this sign.
fn mark_all(marks: &mut Vec<bool>, literals: &[Lit], sign: bool)
    requires { AreSigned sign [] marks.old.items }
    ensures { AreSigned sign literals.now marks.new.items }
{
    'literals: for l in literals {
        mark(marks, *l, sign);
    }
}

// For each of so many variables whether the literal of this sign is in the list.
fn marks_of(
    alloc: Global,
    literals: &[Lit],
    sign: bool,
    count: usize,
) -> Result<Vec<bool>, AllocError>
    ensures { IfOk result (λ m. AreSigned sign literals.now m.items) }
{
    let mut marks = vec![in alloc; false; count]?;
    mark_all(&mut marks, literals, sign);
    Ok(marks)
}

// The same, and no marks where there is no memory for them.
fn marks_or_none(alloc: Global, literals: &[Lit], sign: bool, count: usize) -> Vec<bool>
    ensures { AreSigned sign literals.now result.items }
{
    match marks_of(alloc, literals, sign, count) {
        Ok(marks) => marks,
        Err(AllocError) => Vec::new(alloc),
    }
}

// Whether the literal is in the list, by the marks for its sign, or else by a search.
fn is_found(literals: &[Lit], marks: &[bool], l: Lit) -> bool
    requires { AreSigned l.positive literals.now marks.now }
    ensures { MatchBool result (Contains literals.now l) (Contains literals.now l → ⊥) }
{
    if l.var < marks.len() {
        marks[l.var]
    } else {
        has(literals, l)
    }
}

// Whether each literal of the part is in the list.
pub(crate) fn is_part_of(alloc: Global, part: &[Lit], whole: &[Lit]) -> bool
    ensures { IsTrue result ↔ IsPart part.now whole.now }
{
    let lookup = Lookup::new(alloc, whole);
    for l in part {
        if !lookup.has(*l) {
            return false;
        }
    }
    true
}
