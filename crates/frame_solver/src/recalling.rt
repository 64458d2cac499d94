//! What earlier queries found about a system, from which later questions are answered without a
//! query.

use crate::first_states::Firsts;
use crate::known_steps::{
    KnownStep, StepHint, is_outside, keep, last_out, put_hint_last, put_last,
};
use crate::stepping::Stepping;
use clause_core::{Bits, Clause, Lit, System};
use frame_core::Lemma;
use std::alloc::{AllocError, Global};
use std::marker::Model;

/// What earlier queries found about a system, which later ones need not ask again: values of state bits that
/// all initial states have, an initial state, and some steps. Contracts see the system.
#[derive(Drop)]
pub struct Known<'a> {
    system: &'a System,
    // For each state bit the value that all initial states give it, where that is known.
    fixed: Vec<Option<bool>>,
    // The initial state that was found last.
    first: Option<Bits>,
    // That which was added or used last stands at the end.
    steps: Vec<KnownStep>,
    // What is kept beside each step to rule it out fast.
    hints: Vec<StepHint>,
}

impl<'a> Model for Known<'a> {
    ghost use Rattle.clause_core.specs.Systems.{TransitionSystem};
    ghost use Rattle.frame_solver.specs.Recalling.{IsKnown};

    ghost Value = { TransitionSystem };

    ghost view = { λ k. k.system.now };

    ghost invariant = { λ k. IsKnown k.system.now k.fixed.items k.first k.steps.items };
}

impl<'a> Known<'a> {
    ghost use Rattle.std.specs.Prelude.{◌≡◌, ◌<◌, ◌∷◌, [], All, Contains, IfOk, IfSome, IsTrue};
    ghost use Rattle.clause_core.specs.Literals.{Within};
    ghost use Rattle.frame_core.specs.declared.parts.Lemma.{Lemma as ALemma};
    ghost use Rattle.frame_solver.specs.Firsts.{AllFirstsMeet};
    ghost use Rattle.frame_solver.specs.Stepping.{IsStepOut};
    ghost use Rattle.frame_solver.specs.Recalling.{KnowsFirsts, TellsFirsts, TellsStep};

    /// Nothing is known of the system yet. It costs an entry for each state bit; the error is out of memory.
    pub fn new(alloc: Global, system: &'a System) -> Result<Known<'a>, AllocError>
        ensures { IfOk result (λ k. k ≡ system.now) }
    {
        let fixed = vec![in alloc; None; system.state_bits()]?;
        Ok(Known {
            system,
            fixed,
            first: None,
            steps: Vec::new(alloc),
            hints: Vec::new(alloc),
        })
    }

    // Whether all initial states are known to make the literal true.
    fn is_met(&self, l: Lit) -> bool
        ensures { IsTrue result → AllFirstsMeet self.now (l ∷ []) }
    {
        if l.var >= self.fixed.len() {
            return false;
        }
        match self.fixed[l.var] {
            Some(value) => value == l.positive,
            None => false,
        }
    }

    // A literal of the clause that all initial states are known to make true.
    fn met_in(&self, clause: &[Lit]) -> Option<Lit>
        ensures { IfSome result (λ l. Contains clause.now l × AllFirstsMeet self.now (l ∷ [])) }
    {
        'literals: for l in clause {
            if self.is_met(*l) {
                return Some(*l);
            }
        }
        None
    }

    // Whether all initial states meet the clause, where that is known.
    pub(crate) fn firsts(&self, alloc: Global, clause: &[Lit]) -> Result<Option<Firsts>, AllocError>
        requires { Within self.now.state_bits clause.now }
        ensures { IfOk result (λ r. IfSome r (KnowsFirsts self.now clause.now)) }
    {
        if let Some(l) = self.met_in(clause) {
            let part = Clause::from_slice(alloc, &[l])?;
            return Ok(Some(Firsts::Meet(part)));
        }
        if let Some(state) = &self.first {
            if is_outside(state.as_slice(), 0, clause) {
                let copy = Bits::from_slice(alloc, state.as_slice())?;
                return Ok(Some(Firsts::First(copy)));
            }
        }
        Ok(None)
    }

    // Keeps what was found: where initial states meet a clause of one literal, all of them give its bit one value.
    pub(crate) fn note_firsts(&mut self, alloc: Global, found: &Firsts) -> Result<(), AllocError>
        requires { TellsFirsts self.old found.now }
        ensures { self.new ≡ self.old }
    {
        match found {
            Firsts::Meet(part) => {
                let literals = part.as_slice();
                if literals.len() == 1 {
                    let l = literals[0];
                    if l.var < self.fixed.len() {
                        self.fixed[l.var] = Some(l.positive);
                    }
                }
            }
            Firsts::First(state) => {
                let copy = Bits::from_slice(alloc, state.as_slice())?;
                self.first = Some(copy);
            }
            Firsts::Spent {
                drawn: _,
                budget: _,
            } => {}
        }
        Ok(())
    }

    // Values of a known step that leads from a state of the frame below the level, that meets the clause, to one
    // that does not.
    pub(crate) fn step_out(
        &mut self,
        alloc: Global,
        lemmas: &[Lemma],
        clause: &[Lit],
        level: u32,
    ) -> Result<Option<Bits>, AllocError>
        requires lemmas { All (λ (l : ALemma). Within self.old.state_bits l.clause) lemmas.now }
        requires within { Within self.old.state_bits clause.now }
        requires level { 0 < level }
        ensures found { IfOk result (λ r. IfSome r (IsStepOut self.old lemmas.now level clause.now)) }
        ensures same { self.new ≡ self.old }
    {
        let found = last_out(
            alloc,
            self.system,
            lemmas,
            &self.steps,
            &mut self.hints,
            clause,
            level,
        )?;
        match found {
            Some(k) => {
                let values = Bits::from_slice(alloc, self.steps[k].values.as_slice())?;
                put_last(&mut self.steps, k)?;
                put_hint_last(&mut self.hints, k)?;
                Ok(Some(values))
            }
            None => Ok(None),
        }
    }

    // Keeps a copy of the step that was found, which leads from an initial state where `first` is true.
    pub(crate) fn note_step(
        &mut self,
        alloc: Global,
        found: &Stepping,
        first: bool,
    ) -> Result<(), AllocError>
        requires { TellsStep self.old first found.now }
        ensures { self.new ≡ self.old }
    {
        if let Stepping::Leaves(values) = found {
            let values = Bits::from_slice(alloc, values.as_slice())?;
            let bits = self.system.state_bits();
            keep(
                alloc,
                &mut self.steps,
                &mut self.hints,
                bits,
                KnownStep { values, first },
            )?;
        }
        Ok(())
    }
}
