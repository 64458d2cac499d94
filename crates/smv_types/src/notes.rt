//! The first rule that is broken in each context.

ghost use Rattle.std.specs.Prelude.{◌≡◌, Bool, true, false, Option};
ghost use Rattle.smv_tree.specs.declared.refusal.Refusal.{Refusal};
ghost use Rattle.smv_value.specs.declared.operator.Operator.{Operator};
ghost use Rattle.smv_meaning.specs.Formulas.{is_temporal};
ghost use Rattle.smv_verdicts.specs.Verdicts.{or_else};
ghost use Rattle.smv_types.specs.Judged.{AreNotes, as_refusal, timed, timed_refusal};
ghost use Rattle.smv_types.specs.Kinds.{Context, input_here, is_bound, next_here, temporal_here, under_element, under_name, under_next, under_operand, unless_bound};

use crate::judged::{Notes, TimedViolation, Violation};
use smv_kinds::takes_sets;
use smv_meaning::is_over_formulas;
use smv_tree::{Place, Rule};
use smv_value::Operator;

// The same where temporal operators may stand.
pub(crate) fn timed<'c>(violation: Option<Violation>) -> Option<TimedViolation<'c>>
    ensures is { result ≡ timed violation }
    ensures same { timed_refusal result ≡ as_refusal violation }
{
    match violation {
        None => None,
        Some(violation) => Some(TimedViolation {
            violation,
            bounds: None,
        }),
    }
}

// The same in all contexts.
pub(crate) fn everywhere<'c>(violation: Option<Violation>) -> Notes<'c>
    ensures { AreNotes (λ c. as_refusal violation) result }
{
    Notes {
        step: violation,
        step_set: violation,
        name: violation,
        name_set: violation,
        state: violation,
        state_set: violation,
        path: timed(violation),
    }
}

// One thing where sets may stand, and another where they may not.
pub(crate) fn by_sets<'c>(without: Option<Violation>, with: Option<Violation>) -> Notes<'c>
    ensures { (refusal : Bool → Option Refusal) → as_refusal without ≡ refusal false → as_refusal with ≡ refusal true → AreNotes (λ c. refusal c.set) result }
{
    Notes {
        step: without,
        step_set: with,
        name: without,
        name_set: with,
        state: without,
        state_set: with,
        path: timed(without),
    }
}

// First what one breaks, and then what the other does.
pub(crate) fn both<'c>(a: Notes<'c>, b: Notes<'c>) -> Notes<'c>
    ensures { (first later : Context → Option Refusal) → AreNotes first a.entry → AreNotes later b.entry → AreNotes (λ c. or_else (first c) (later c)) result }
{
    Notes {
        step: first(a.step, b.step),
        step_set: first(a.step_set, b.step_set),
        name: first(a.name, b.name),
        name_set: first(a.name_set, b.name_set),
        state: first(a.state, b.state),
        state_set: first(a.state_set, b.state_set),
        path: first_timed(a.path, b.path),
    }
}

pub(crate) fn first(a: Option<Violation>, b: Option<Violation>) -> Option<Violation>
    ensures { as_refusal result ≡ or_else (as_refusal a) (as_refusal b) }
{
    match a {
        Some(violation) => Some(violation),
        None => b,
    }
}

pub(crate) fn first_timed<'c>(
    a: Option<TimedViolation<'c>>,
    b: Option<TimedViolation<'c>>,
) -> Option<TimedViolation<'c>>
    ensures { timed_refusal result ≡ or_else (timed_refusal a.entry) (timed_refusal b.entry) }
{
    match a {
        Some(violation) => Some(violation),
        None => b,
    }
}

// In what a name stands for.
pub(crate) fn under_name<'c>(n: Notes<'c>) -> Notes<'c>
    ensures { (refusal : Context → Option Refusal) → AreNotes refusal n.entry → AreNotes (λ c. refusal (under_name c)) result }
{
    Notes {
        step: n.name,
        step_set: n.name_set,
        name: n.name,
        name_set: n.name_set,
        state: n.state,
        state_set: n.state_set,
        path: timed(n.name),
    }
}

// In an element of an array.
pub(crate) fn under_element<'c>(n: Notes<'c>) -> Notes<'c>
    ensures { (refusal : Context → Option Refusal) → AreNotes refusal n.entry → AreNotes (λ c. refusal (under_element c)) result }
{
    Notes {
        path: timed(n.name),
        ..n
    }
}

// Under `next`.
pub(crate) fn under_next<'c>(n: Notes<'c>) -> Notes<'c>
    ensures { (refusal : Context → Option Refusal) → AreNotes refusal n.entry → AreNotes (λ c. refusal (under_next c)) result }
{
    Notes {
        step: n.state,
        step_set: n.state_set,
        name: n.state,
        name_set: n.state_set,
        state: n.state,
        state_set: n.state_set,
        path: timed(n.state),
    }
}

// As an operand of this number.
#[tactic(auto, using(crate::proofs::Bounds::timed_same))]
fn under_operand<'c>(operator: Operator, operand: usize, n: Notes<'c>) -> Notes<'c>
    ensures { (refusal : Context → Option Refusal) → AreNotes refusal n.entry → AreNotes (λ c. refusal (under_operand operator operand c)) result }
{
    if takes_sets(operator, operand, false) {
        with_sets(n)
    } else if is_over_formulas(operator) {
        n
    } else {
        Notes {
            path: timed(n.name),
            ..n
        }
    }
}

// As an operand of this number, if it is judged itself.
pub(crate) fn as_operand<'c>(operator: Operator, operand: usize, n: Notes<'c>) -> Notes<'c>
    ensures { (refusal : Context → Option Refusal) → AreNotes refusal n.entry → AreNotes (λ c. unless_bound operator operand (refusal (under_operand operator operand c))) result }
{
    if is_bound(operator, operand) {
        everywhere(None)
    } else {
        under_operand(operator, operand, n)
    }
}

// A bound that stays as it is written.
fn is_bound(operator: Operator, operand: usize) -> bool
    ensures { result ≡ is_bound operator operand }
{
    match operator {
        Operator::Window(_) => operand < 2,
        _ => false,
    }
}

// Where sets may stand, and no temporal operator.
fn with_sets<'c>(n: Notes<'c>) -> Notes<'c>
    ensures { result ≡ record { step = n.entry.step_set; step_set = n.entry.step_set; name = n.entry.name_set; name_set = n.entry.name_set; state = n.entry.state_set; state_set = n.entry.state_set; path = timed n.entry.name_set } }
{
    Notes {
        step: n.step_set,
        step_set: n.step_set,
        name: n.name_set,
        name_set: n.name_set,
        state: n.state_set,
        state_set: n.state_set,
        path: timed(n.name_set),
    }
}

// An input, where none may stand.
pub(crate) fn input_here<'c>(place: Place, is_input: bool) -> Notes<'c>
    ensures { AreNotes (λ c. input_here c place is_input) result }
{
    let misplaced = if is_input {
        Some(Violation::new(Rule::InputHere, place))
    } else {
        None
    };
    Notes {
        state: misplaced,
        state_set: misplaced,
        ..everywhere(None)
    }
}

// A `next`, where none may stand.
pub(crate) fn next_here<'c>(place: Place) -> Notes<'c>
    ensures { AreNotes (λ c. next_here c place) result }
{
    Notes {
        step: None,
        step_set: None,
        ..everywhere(Some(Violation::new(Rule::NextHere, place)))
    }
}

// A temporal operator: it is misplaced where none may stand, and breaks this where one may.
pub(crate) fn temporal_here<'c>(place: Place, broken: Option<TimedViolation<'c>>) -> Notes<'c>
    ensures { (operator : Operator) (refusal : Bool → Option Refusal) → is_temporal operator ≡ true → timed_refusal broken.entry ≡ refusal false
        → AreNotes (λ c. or_else (temporal_here c place operator) (refusal c.set)) result }
{
    Notes {
        path: broken,
        ..everywhere(Some(Violation::new(Rule::TemporalHere, place)))
    }
}
