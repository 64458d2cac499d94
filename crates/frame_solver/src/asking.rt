//! Asks about one frame, by assuming the activation literals of its clauses (Eén and Sörensson
//! 2003).

ghost use Rattle.std.specs.Prelude.{◌≡◌, ◌+◌, ◌-◌, ◌<◌, ◌≤◌, ◌^◌, IfOk, length};
ghost use Rattle.clause_core.specs.Literals.{Within};
ghost use Rattle.frame_solver.specs.Groups.{is_of_frame, is_asked};
ghost use Rattle.frame_solver.specs.Asking.{AreAsked, AskSays, AsksOnce};

use crate::loading::Engine;
use clause_core::Lit;
use effort_purse::Purse;
use frame_core::Lemma;
use sat_core::Answer;
use std::alloc::{AllocError, Global};

// Whether group k belongs to frame i: the initial states at 0, and above 0 each lemma of that level or a higher one.
fn is_of_frame(heads: usize, lemmas: &[Lemma], i: u32, k: usize) -> bool
    requires { k < heads + length lemmas.now }
    ensures { result ≡ is_of_frame heads lemmas.now i k }
{
    if k < heads {
        return k == 0 && i == 0;
    }
    0 < i && i <= lemmas[k - heads].level
}

// Whether the query assumes group k: it is group `also`, or belongs to frame i.
fn is_asked(heads: usize, lemmas: &[Lemma], i: u32, also: usize, k: usize) -> bool
    requires { k < heads + length lemmas.now }
    ensures { result ≡ is_asked heads lemmas.now i also k }
{
    k == also || is_of_frame(heads, lemmas, i, k)
}

// From how many literals of its own on a query assumes the groups first. Assumed after them, a few of these literals are
// false by the others, so that the core has few of them. Where a query has few to begin with, its own literals first cost
// fewer conflicts.
const LONG: usize = 129;

// The query's own literals, and then the activation literals of the groups that are asked for.
fn assumptions(
    alloc: Global,
    base: usize,
    heads: usize,
    lemmas: &[Lemma],
    i: u32,
    also: usize,
    extra: &[Lit],
) -> Result<Vec<Lit>, AllocError>
    requires { base + (heads + length lemmas.now) < 2 ^ 64 }
    ensures { IfOk result (λ v. AreAsked base heads lemmas.now i also (heads + length lemmas.now) extra.now v.items) }
{
    let mut literals = Vec::from_slice(alloc, extra)?;
    'groups: for k in 0..heads + lemmas.len() {
        if is_asked(heads, lemmas, i, also, k) {
            literals.push(Lit {
                var: base + k,
                positive: true,
            })?;
        }
    }
    Ok(literals)
}

// The activation literals of the groups that are asked for, and then the query's own literals.
fn groups_first(
    alloc: Global,
    base: usize,
    heads: usize,
    lemmas: &[Lemma],
    i: u32,
    also: usize,
    extra: &[Lit],
) -> Result<Vec<Lit>, AllocError>
    requires { base + (heads + length lemmas.now) < 2 ^ 64 }
    ensures { IfOk result (λ v. AreAsked base heads lemmas.now i also (heads + length lemmas.now) extra.now v.items) }
{
    let mut literals = assumptions(alloc, base, heads, lemmas, i, also, &[])?;
    literals.extend_from_slice(extra)?;
    Ok(literals)
}

// The query's own literals and the activation literals of the groups that are asked for, in the order that suits them.
fn all_assumptions(
    alloc: Global,
    base: usize,
    heads: usize,
    lemmas: &[Lemma],
    i: u32,
    also: usize,
    extra: &[Lit],
) -> Result<Vec<Lit>, AllocError>
    requires { base + (heads + length lemmas.now) < 2 ^ 64 }
    ensures { IfOk result (λ v. AreAsked base heads lemmas.now i also (heads + length lemmas.now) extra.now v.items) }
{
    if extra.len() < LONG {
        return assumptions(alloc, base, heads, lemmas, i, also, extra);
    }
    groups_first(alloc, base, heads, lemmas, i, also, extra)
}

// Whether the clauses of frame i and of group `also` are satisfiable with these literals.
pub(crate) fn ask<Q: Purse>(
    alloc: Global,
    engine: &mut Engine,
    lemmas: &[Lemma],
    i: u32,
    also: usize,
    extra: &[Lit],
    purse: &mut Q,
) -> Result<Answer, AllocError>
    requires fits { engine.old.base + (engine.old.heads + length lemmas.now) ≤ engine.old.solver.vars }
    requires extra { Within engine.old.solver.vars extra.now }
    requires ready { Q.ready purse.old }
    ensures answer { IfOk result (AskSays engine.old.solver engine.old.base engine.old.heads lemmas.now i also (engine.old.heads + length lemmas.now) extra.now (Q.budget purse.old) (Q.spent purse.new)) }
    ensures asked { AsksOnce engine.old.base engine.old.heads lemmas.now i also (engine.old.heads + length lemmas.now) extra.now engine.old.solver engine.new.solver (Q.tickets purse.old) (Q.tickets purse.new) }
    ensures same { engine.new ≡ record engine.old { solver = engine.new.solver } }
    ensures vars { engine.new.solver.vars ≡ engine.old.solver.vars }
    ensures given { engine.new.solver.given ≡ engine.old.solver.given }
    ensures kept { Q.kept purse.old purse.new }
    ensures ready { Q.ready purse.new }
    ensures budget { Q.budget purse.new ≡ Q.budget purse.old }
{
    let _vars = engine.solver.vars();
    let literals = all_assumptions(alloc, engine.base, engine.heads, lemmas, i, also, extra)?;
    engine.solver.solve(alloc, &literals, purse)
}
