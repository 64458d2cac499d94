//! A solver with conflict-driven clause learning that answers queries under assumptions (Eén and
//! Sörensson 2003).

ghost use Rattle.std.specs.Prelude.{◌≡◌, ◌-◌, ◌++◌, [], ◌∷◌, IfOk, OnOk, OnErr, All, length};
ghost use Rattle.clause_core.specs.Literals.{Within};
ghost use Rattle.sat_core.specs.Queries.{State, given_of, Learns, IsSound, IsRefutedAtOnce, AnswerSays, IsPaid, CostsOneTicket, IsRefutedForOne, log_of};
ghost use Rattle.sat_core.specs.Paying.{PaysForOne};

use crate::answer::Answer;
use crate::order::Order;
use crate::query::{add_on, ask, is_given, learned_count, log_of as query_log};
use clause_core::{Clause, Clauses, Lit, Log};
use effort_purse::Purse;
use sat_prop::Propagator;
use std::alloc::{AllocError, Global};
use std::marker::Model;
use std::mem::swap;

/// Clauses, given and learned: it answers whether an assignment satisfies them.
///
/// It learns a clause from each conflict, at the first unique implication point, and goes back as far as
/// that clause allows (Marques-Silva, Sakallah 1996; Moskewicz and others 2001). Contracts see the number
/// of variables, the clauses that were given, and those that were learned.
#[derive(Drop)]
pub struct Solver<P: Propagator + Drop> {
    inner: P,
    // For each clause whether it was given; clauses past the end were learned.
    marks: Vec<bool>,
    // How many were given.
    given: usize,
    // Which variables stand in a clause as a positive literal: they alone are decided.
    positives: Vec<bool>,
    order: Order,
}

impl<P: Propagator + Drop> Model for Solver<P> {
    ghost use Rattle.std.specs.Prelude.{◌≡◌, length};
    ghost use Rattle.sat_core.specs.Queries.{State, state_of, given_of};
    ghost use Rattle.sat_core.specs.Searching.{Keeps, KnowsPositives};

    ghost Value = { State };

    ghost view = { λ s. state_of (length (P.trail s.inner).values.items) s.marks.items (P.clauses s.inner) };

    ghost invariant = { λ s. Keeps (length (P.trail s.inner).values.items) s.marks.items (P.clauses s.inner) × KnowsPositives (length (P.trail s.inner).values.items) s.positives.items (P.clauses s.inner) × (s.given ≡ length (given_of s.marks.items (P.clauses s.inner))) };
}

// A solver that was given the clauses of these that are marked as given, and has learned none.
fn with_given_clauses<P: Propagator + Drop>(
    alloc: Global,
    inner: &P,
    marks: &[bool],
) -> Result<Solver<P>, AllocError>
    ensures { IfOk result (λ s. s ≡ record { vars = length (P.trail inner.now).values.items; given = given_of marks.now (P.clauses inner.now); learned = [] }) }
{
    let vars = inner.assignment().values.as_slice().len();
    let mut solver = Solver::new(alloc, vars)?;
    'clauses: for k in 0..inner.clause_count() {
        if is_given(marks, k) {
            solver.push(inner.clause(k))?;
        }
    }
    Ok(solver)
}

impl<P: Propagator + Drop> Solver<P> {
    /// A solver over `vars` variables, with no clauses. Where so many variables can't be numbered, it
    /// reports out of memory.
    pub fn new(alloc: Global, vars: usize) -> Result<Solver<P>, AllocError>
        ensures { IfOk result (λ s. s ≡ record { vars = vars; given = []; learned = [] }) }
    {
        let inner = P::new(alloc, vars)?;
        let positives = vec![in alloc; false; vars]?;
        let order = Order::new(alloc, vars)?;
        Ok(Solver {
            inner,
            marks: Vec::new(alloc),
            given: 0,
            positives,
            order,
        })
    }

    /// A solver over `vars` variables that was given these clauses. The error is `new`'s.
    pub fn with_clauses(
        alloc: Global,
        vars: usize,
        clauses: &Clauses,
    ) -> Result<Solver<P>, AllocError>
        requires { All (Within vars) clauses.now }
        ensures { IfOk result (λ s. s ≡ record { vars = vars; given = clauses.now; learned = [] }) }
    {
        let mut solver = Solver::new(alloc, vars)?;
        'clauses: for k in 0..clauses.len() {
            solver.push(clauses.get(k))?;
        }
        Ok(solver)
    }

    /// How many variables there are.
    pub fn vars(&self) -> usize
        ensures { result ≡ self.now.vars }
    {
        self.inner.assignment().values.as_slice().len()
    }

    /// Adds a clause. If memory runs out, all is as before.
    pub fn add(&mut self, c: &Clause) -> Result<(), AllocError>
        requires { Within self.old.vars c.now }
        ensures done { OnOk result (self.new ≡ record self.old { given = self.old.given ++ c.now ∷ [] }) }
        ensures failed { OnErr result (self.new ≡ self.old) }
    {
        self.push(c.as_slice())
    }

    /// Adds the clause of these literals. If memory runs out, all is as before.
    pub fn push(&mut self, c: &[Lit]) -> Result<(), AllocError>
        requires { Within self.old.vars c.now }
        ensures done { OnOk result (self.new ≡ record self.old { given = self.old.given ++ c.now ∷ [] }) }
        ensures failed { OnErr result (self.new ≡ self.old) }
    {
        add_on(
            &mut self.inner,
            &mut self.marks,
            &mut self.given,
            &mut self.positives,
            &mut self.order,
            c,
        )
    }

    /// How many clauses were learned so far. Takes a few steps, however many there are.
    pub fn learned(&self) -> usize
        ensures { result ≡ length self.now.learned }
    {
        learned_count(&self.inner, self.given, &self.marks)
    }

    /// Forgets what was learned: later queries begin with the given clauses alone, and with what is known of which
    /// variables to decide first. Takes time and memory as adding the given clauses did. If memory runs out, all is as
    /// before.
    ///
    /// For a solver that is kept over many queries: what was learned long ago costs each query more than it saves.
    pub fn forget(&mut self, alloc: Global) -> Result<(), AllocError>
        ensures done { OnOk result (self.new ≡ record self.old { learned = [] }) }
        ensures failed { OnErr result (self.new ≡ self.old) }
    {
        let mut solver = with_given_clauses(alloc, &self.inner, &self.marks)?;
        self.order.fill(&solver.positives)?;
        swap(&mut solver.order, &mut self.order);
        *self = solver;
        Ok(())
    }

    /// The variable gets this sign when it is decided next, unless propagation sets it before. A hint: no answer depends
    /// on it.
    pub fn prefer(&mut self, var: usize, positive: bool)
        ensures { self.new ≡ self.old }
    {
        self.order.set_sign(var, positive)
    }

    /// The variable is decided as early as one that came up in so many of the latest conflicts. A hint: no answer depends
    /// on it.
    pub fn decide_early(&mut self, var: usize, conflicts: u64)
        ensures { self.new ≡ self.old }
    {
        self.order.raise(var, conflicts)
    }

    /// Whether the clauses and the assumptions can all be true.
    ///
    /// It draws one ticket for the query and one for each clause that it learns; `Spent` comes only where the
    /// purse refused one. After each answer, and if memory runs out too, the given clauses are as before
    /// and the learned ones follow from them; and the tickets that were drawn are those of at most one query. A clause is
    /// paid for when it is known from its conflict: if memory runs out, the last one may not be kept.
    ///
    /// A query that unit propagation alone refutes, or two assumptions that are opposite, is answered before any decision. It
    /// learns nothing and draws its own ticket at most (`at_once`).
    pub fn solve<Q: Purse>(
        &mut self,
        alloc: Global,
        assumptions: &[Lit],
        purse: &mut Q,
    ) -> Result<Answer, AllocError>
        requires within { Within self.old.vars assumptions.now }
        requires ready { Q.ready purse.old }
        ensures answer { IfOk result (AnswerSays self.old.vars self.old.given self.new.learned assumptions.now (Q.budget purse.old) (Q.spent purse.new)) }
        ensures learned { Learns assumptions.now self.old self.new }
        ensures sound { IsSound self.new }
        ensures tickets { IfOk result (IsPaid (Q.tickets purse.old) (Q.tickets purse.new) (length self.new.learned - length self.old.learned)) }
        ensures log { PaysForOne self.old assumptions.now self.new (Q.tickets purse.old) (Q.tickets purse.new) }
        ensures at_once { IsRefutedAtOnce (self.old.given ++ self.old.learned) assumptions.now → CostsOneTicket self.old self.new (Q.tickets purse.old) (Q.tickets purse.new) × IfOk result (IsRefutedForOne (Q.tickets purse.old) (Q.tickets purse.new)) }
        ensures kept { Q.kept purse.old purse.new }
        ensures ready { Q.ready purse.new }
        ensures budget { Q.budget purse.new ≡ Q.budget purse.old }
    {
        ask(
            alloc,
            &mut self.inner,
            &self.marks,
            &mut self.positives,
            &mut self.order,
            assumptions,
            purse,
        )
    }

    /// The clauses that were learned, and the empty one. Where the last query was answered `Unsat`, and no
    /// clause was added since, they derive that from the given clauses and the core.
    pub fn log(&self, alloc: Global) -> Result<Log, AllocError>
        ensures { IfOk result (λ log. log ≡ log_of self.now.learned) }
    {
        query_log(alloc, &self.inner, &self.marks)
    }
}
