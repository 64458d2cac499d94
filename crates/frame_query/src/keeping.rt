//! The queries of IC3 (Bradley 2011; Eén, Mishchenko and Brayton 2011), to solvers that are kept:
//! relative induction, pushing, bad states, initial states and generalisation.

use crate::dropping::generalise_in;
use crate::finding::{bad_of, noted_of, relative_of};
use crate::following::{follow_adds, follow_levels};
use crate::kept_proofs::KeptProof;
use crate::noting::{note_bad, note_step};
use crate::outcomes::{Bads, Generalised, Noted, Relative};
use crate::pushing::push_of;
use clause_core::{Lit, System};
use effort_purse::Purse;
use frame_core::{Lemmas, Proved, Step};
use frame_solver::{Engine, Firsts, Known, firsts_of, fresh_states, fresh_steps, system_of};
use state_hints::Hints;
use std::alloc::{AllocError, Global};
use std::marker::Model;

/// Solvers that are kept over many queries about the frames of some systems that differ in their bad states
/// alone. They hold the systems' clauses and the lemmas', each behind an activation literal (Eén, Sörensson
/// 2003), so that a query asks for just those that it wants. One has the steps; the other, a small one,
/// answers questions about single states. They are made anew where activation literals run out, which no
/// caller sees. What queries found is kept too: values that all initial states give to bits, an initial state, and
/// 1024 steps at most, those that were found or used last; and the last proof of each lemma that was pushed. A
/// question that these answer is not asked. Of 1024 states at most it is kept which of their bits were needed: a
/// hint for `generalise`, of which nothing is claimed. Contracts see the systems, the copy of the lemmas, and
/// learned clauses that later queries may use.
#[derive(Drop)]
pub struct FrameSolver<'a> {
    systems: &'a [System],
    lemmas: Lemmas,
    steps: Engine,
    states: Engine,
    known: Known<'a>,
    // for each lemma, by its number, the proof that its last push found
    proofs: Vec<Option<KeptProof>>,
    // of states that were found, which of their bits were needed
    hints: Hints,
}

impl<'a> Model for FrameSolver<'a> {
    ghost use Rattle.frame_query.specs.Findings.{SolverView};
    ghost use Rattle.frame_solver.specs.Engines.{known_of};
    ghost use Rattle.frame_query.specs.Keeping.{IsKept};

    ghost Value = { SolverView };

    ghost view = { λ s. record { systems = s.systems.now; lemmas = s.lemmas; known = known_of s.steps s.states } };

    ghost invariant = { λ s. IsKept s.systems.now s.lemmas s.steps s.states s.known s.proofs.items };
}

impl<'a> FrameSolver<'a> {
    ghost use Rattle.std.specs.Prelude.{◌≡◌, ◌<◌, ◌+◌, ◌^◌, [], length, IfOk, OnOk, All};
    ghost use Rattle.frame_core.specs.declared.parts.Lemma.{Lemma as ALemma};
    ghost use Rattle.clause_core.specs.Literals.{Within};
    ghost use Rattle.frame_core.specs.FrameLaw.{AreAlike, system_at, lemma_at};
    ghost use Rattle.frame_solver.specs.Firsts.{AllFirstsMeet, FindsFirsts, negation_of};
    ghost use Rattle.frame_query.specs.Findings.{SolverView, IsOlder, FindsRelative, FindsBad, IsTheState, PaysBad, FindsNoted};
    ghost use Rattle.frame_query.specs.Dropping.{Generalises, PaysParts};
    ghost use Rattle.frame_solver.specs.Paying.{Steps, Firsts as AskFirsts, PaysOne};

    /// Solvers for these systems, with no lemma. The only error is out of memory, which more variables than
    /// can be numbered count as.
    pub fn new(alloc: Global, systems: &'a [System]) -> Result<FrameSolver<'a>, AllocError>
        requires some { 0 < length systems.now }
        requires alike { AreAlike systems.now }
        ensures { IfOk result (λ s. s ≡ record { systems = systems.now; lemmas = []; known = [] }) }
    {
        let steps = fresh_steps(alloc, systems, 0)?;
        let states = fresh_states(alloc, systems, 0)?;
        let known = Known::new(alloc, system_of(systems, 0))?;
        Ok(FrameSolver {
            systems,
            lemmas: Lemmas::new(alloc),
            steps,
            states,
            known,
            proofs: Vec::new(alloc),
            hints: Hints::new(alloc),
        })
    }

    /// Takes over what was added to the lemmas, raised and retired since. If memory runs out, it has taken
    /// a part of that, and the same call takes the rest.
    pub fn follow(&mut self, lemmas: &Lemmas) -> Result<(), AllocError>
        requires older { IsOlder self.old.lemmas lemmas.now }
        requires within { All (λ (l : ALemma). Within (system_at self.old.systems 0).state_bits l.clause) lemmas.now }
        ensures done { OnOk result (self.new.lemmas ≡ lemmas.now) }
        ensures older { IsOlder self.new.lemmas lemmas.now }
        ensures systems { self.new.systems ≡ self.old.systems }
        ensures known { self.new.known ≡ self.old.known }
    {
        follow_levels(&mut self.lemmas, lemmas);
        follow_adds(&mut self.lemmas, lemmas)
    }

    /// Whether the clause is inductive relative to the frame below the level: whether a step leads from a
    /// state of that frame that meets the clause to one that does not; at level 1, from an initial state.
    ///
    /// Initial states meet the clause. At most one query is asked, and the tickets drawn are its own, after
    /// each way out. `Spent` comes only where the purse refused a ticket; out of memory is the only error.
    pub fn relative<Q: Purse>(
        &mut self,
        alloc: Global,
        clause: &[Lit],
        level: u32,
        purse: &mut Q,
    ) -> Result<Relative<'a>, AllocError>
        requires within { Within (system_at self.old.systems 0).state_bits clause.now }
        requires level { 0 < level }
        requires first { AllFirstsMeet (system_at self.old.systems 0) clause.now }
        requires ready { Q.ready purse.old }
        ensures found { IfOk result (FindsRelative self.old.systems self.old.lemmas clause.now level (Q.budget purse.old) (Q.spent purse.new)) }
        ensures pays { PaysOne self.old.systems self.old.lemmas self.old.known self.new.known (Q.tickets purse.old) (Q.tickets purse.new) (Steps level clause.now) }
        ensures systems { self.new.systems ≡ self.old.systems }
        ensures lemmas { self.new.lemmas ≡ self.old.lemmas }
        ensures kept { Q.kept purse.old purse.new }
        ensures ready { Q.ready purse.new }
        ensures budget { Q.budget purse.new ≡ Q.budget purse.old }
    {
        let found = relative_of(
            alloc,
            self.systems,
            self.lemmas.as_slice(),
            &mut self.steps,
            &mut self.known,
            clause,
            level,
            purse,
        )?;
        let system = system_of(self.systems, 0);
        note_step(alloc, &mut self.hints, system, clause, &found);
        Ok(found)
    }

    /// Whether the lemma's clause is inductive at one level more than it has; as `relative` of these. No query is asked
    /// where the proof of its last push stands there: where that proof's parents have the lemma's level.
    pub fn push<Q: Purse>(
        &mut self,
        alloc: Global,
        lemma: usize,
        purse: &mut Q,
    ) -> Result<Relative<'a>, AllocError>
        requires number { lemma < length self.old.lemmas }
        requires level { (lemma_at self.old.lemmas lemma).level + 1 < 2 ^ 32 }
        requires first { AllFirstsMeet (system_at self.old.systems 0) (lemma_at self.old.lemmas lemma).clause }
        requires ready { Q.ready purse.old }
        ensures found { IfOk result (FindsRelative self.old.systems self.old.lemmas (lemma_at self.old.lemmas lemma).clause ((lemma_at self.old.lemmas lemma).level + 1) (Q.budget purse.old) (Q.spent purse.new)) }
        ensures pays { PaysOne self.old.systems self.old.lemmas self.old.known self.new.known (Q.tickets purse.old) (Q.tickets purse.new) (Steps ((lemma_at self.old.lemmas lemma).level + 1) (lemma_at self.old.lemmas lemma).clause) }
        ensures systems { self.new.systems ≡ self.old.systems }
        ensures lemmas { self.new.lemmas ≡ self.old.lemmas }
        ensures kept { Q.kept purse.old purse.new }
        ensures ready { Q.ready purse.new }
        ensures budget { Q.budget purse.new ≡ Q.budget purse.old }
    {
        push_of(
            alloc,
            self.systems,
            self.lemmas.as_slice(),
            &mut self.steps,
            &mut self.known,
            &mut self.proofs,
            lemma,
            purse,
        )
    }

    /// Whether a state of frame `top` is bad for system `j`; at top 0 whether an initial state is.
    ///
    /// A state found comes with whether it is an initial one, for which a second query is asked where `top` is
    /// not 0. The tickets drawn are those of these two queries at most, after each way out. `Spent` comes
    /// only where the purse refused a ticket; out of memory is the only error.
    pub fn bad<Q: Purse>(
        &mut self,
        alloc: Global,
        j: usize,
        top: u32,
        purse: &mut Q,
    ) -> Result<Bads<'a>, AllocError>
        requires number { j < length self.old.systems }
        requires ready { Q.ready purse.old }
        ensures found { IfOk result (FindsBad self.old.systems self.old.lemmas j top (Q.budget purse.old) (Q.spent purse.new)) }
        ensures pays { PaysBad self.old.systems self.old.lemmas self.old.known self.new.known (Q.tickets purse.old) (Q.tickets purse.new) j top (λ values. IfOk result (IsTheState values)) }
        ensures systems { self.new.systems ≡ self.old.systems }
        ensures lemmas { self.new.lemmas ≡ self.old.lemmas }
        ensures kept { Q.kept purse.old purse.new }
        ensures ready { Q.ready purse.new }
        ensures budget { Q.budget purse.new ≡ Q.budget purse.old }
    {
        let found = bad_of(
            alloc,
            self.systems,
            self.lemmas.as_slice(),
            &mut self.states,
            &mut self.known,
            j,
            top,
            purse,
        )?;
        let system = system_of(self.systems, j);
        note_bad(alloc, &mut self.hints, system, &found);
        Ok(found)
    }

    /// The state that the step leads from, with whether it is an initial one.
    ///
    /// At most one query is asked, and the tickets drawn are its own, after each way out. `Spent` comes only
    /// where the purse refused a ticket; out of memory is the only error.
    pub fn note<Q: Purse>(
        &mut self,
        alloc: Global,
        step: Step<'a>,
        purse: &mut Q,
    ) -> Result<Noted<'a>, AllocError>
        requires system { step.system ≡ system_at self.old.systems 0 }
        requires ready { Q.ready purse.old }
        ensures found { IfOk result (FindsNoted step.entry (Q.budget purse.old) (Q.spent purse.new)) }
        ensures pays { PaysOne self.old.systems self.old.lemmas self.old.known self.new.known (Q.tickets purse.old) (Q.tickets purse.new) (AskFirsts (negation_of step.entry.values (system_at self.old.systems 0).state_bits)) }
        ensures systems { self.new.systems ≡ self.old.systems }
        ensures lemmas { self.new.lemmas ≡ self.old.lemmas }
        ensures kept { Q.kept purse.old purse.new }
        ensures ready { Q.ready purse.new }
        ensures budget { Q.budget purse.new ≡ Q.budget purse.old }
    {
        noted_of(
            alloc,
            self.systems,
            self.lemmas.as_slice(),
            &mut self.states,
            &mut self.known,
            step,
            purse,
        )
    }

    /// Whether all initial states meet the clause, and a part of it that they meet; or an initial state that does
    /// not meet it.
    ///
    /// At most one query is asked, and the tickets drawn are its own, after each way out. `Spent` comes only
    /// where the purse refused a ticket; out of memory is the only error.
    pub fn first<Q: Purse>(
        &mut self,
        alloc: Global,
        clause: &[Lit],
        purse: &mut Q,
    ) -> Result<Firsts, AllocError>
        requires within { Within (system_at self.old.systems 0).state_bits clause.now }
        requires ready { Q.ready purse.old }
        ensures found { IfOk result (FindsFirsts (system_at self.old.systems 0) clause.now (Q.budget purse.old) (Q.spent purse.new)) }
        ensures pays { PaysOne self.old.systems self.old.lemmas self.old.known self.new.known (Q.tickets purse.old) (Q.tickets purse.new) (AskFirsts clause.now) }
        ensures systems { self.new.systems ≡ self.old.systems }
        ensures lemmas { self.new.lemmas ≡ self.old.lemmas }
        ensures kept { Q.kept purse.old purse.new }
        ensures ready { Q.ready purse.new }
        ensures budget { Q.budget purse.new ≡ Q.budget purse.old }
    {
        firsts_of(
            alloc,
            self.systems,
            self.lemmas.as_slice(),
            &mut self.states,
            &mut self.known,
            clause,
            purse,
        )
    }

    /// Drops literals from a proved clause, each tried at most once, as long as what is left is inductive at the
    /// proof's level. Where literals are not in the part that the proof needs, only initial states are asked about.
    ///
    /// `Smaller`: for each literal kept there is a part of the clause that lacks it and has all others kept,
    /// and which an initial state does not meet or a step leaves. Where the purse is spent, or no memory is found,
    /// the proof that was given comes back. The tickets drawn are those of queries about proper parts of the
    /// clause, no two equal, and of no more parts than it has literals, after each way out.
    pub fn generalise<Q: Purse>(
        &mut self,
        alloc: Global,
        proved: Proved<'a>,
        purse: &mut Q,
    ) -> Generalised<'a>
        requires system { proved.system ≡ system_at self.old.systems 0 }
        requires ready { Q.ready purse.old }
        ensures found { Generalises (system_at self.old.systems 0) self.old.lemmas proved.entry (Q.budget purse.old) (Q.spent purse.new) result }
        ensures pays { PaysParts self.old.systems self.old.lemmas self.old.known self.new.known (Q.tickets purse.old) (Q.tickets purse.new) proved.entry.level proved.entry.clause }
        ensures systems { self.new.systems ≡ self.old.systems }
        ensures lemmas { self.new.lemmas ≡ self.old.lemmas }
        ensures kept { Q.kept purse.old purse.new }
        ensures ready { Q.ready purse.new }
        ensures budget { Q.budget purse.new ≡ Q.budget purse.old }
    {
        generalise_in(
            alloc,
            self.systems,
            self.lemmas.as_slice(),
            &mut self.steps,
            &mut self.states,
            &mut self.known,
            &self.hints,
            proved,
            purse,
        )
    }
}
