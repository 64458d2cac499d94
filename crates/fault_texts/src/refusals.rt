//! The refusal of an item that faults.

ghost use Rattle.std.specs.Prelude.{◌≡◌, IfOk};
ghost use Rattle.smv_resolve.specs.Items.{item_by};
ghost use Rattle.fault_texts.specs.Refusals.{refusal_at, refusal_of, rule_of};

use crate::valuations::valuation_text;
use smv_meaning::{Inputs, State, Typed, faults};
use smv_resolve::Item;
use smv_tree::{Place, Refusal, Rule};
use smv_value::FaultRule;
use std::alloc::{AllocError, Global};

/// How a program is refused for an item that faults in this state, or in the step with these inputs to the next state,
/// of which the item speaks; `None` if it does not fault there.
///
/// The rule is that of the fault (601 CaseOpen, 602 OutOfRange, 603 IndexOutside, 604 DivisorZero, 605 ShiftTooFar),
/// and the place is where it comes from. The detail lists the slots that occur in the item, of an assignment in its
/// right side, with their values. NuSMV 2.6 lets some of these values pass and stops at others as it runs; that a model
/// is refused for each of them, whether the state is reached or not, and what is told, are own choices of this project.
/// The only error is running out of memory. It takes the time to evaluate the nodes of the program.
pub fn fault_refusal(
    alloc: Global,
    typed: &Typed,
    item: &Item,
    s: &State,
    u: &Inputs,
    next: &State,
) -> Result<Option<Refusal>, AllocError>
    ensures { IfOk result (λ r. r ≡ refusal_at typed.now.scope.program s.now u.now next.now (item_by typed.now.nodes item.now)) }
{
    match faults(alloc, typed, item, s, u, next)? {
        None => Ok(None),
        Some((rule, place)) => {
            let refusal = refusal_of(alloc, typed, item, s, u, next, rule, place)?;
            Ok(Some(refusal))
        }
    }
}

// The refusal of an item that faults so.
fn refusal_of(
    alloc: Global,
    typed: &Typed,
    item: &Item,
    s: &State,
    u: &Inputs,
    next: &State,
    rule: FaultRule,
    place: Place,
) -> Result<Refusal, AllocError>
    ensures { IfOk result (λ r. r ≡ refusal_of typed.now.scope.program s.now u.now next.now (item_by typed.now.nodes item.now) (rule, place)) }
{
    let detail = valuation_text(
        alloc,
        typed,
        item.value,
        s.as_slice(),
        u.as_slice(),
        next.as_slice(),
    )?;
    Ok(Refusal {
        rule: rule_of(rule),
        place,
        detail,
    })
}

fn rule_of(rule: FaultRule) -> Rule
    ensures { result ≡ rule_of rule }
{
    match rule {
        FaultRule::CaseOpen => Rule::CaseOpen,
        FaultRule::OutOfRange => Rule::OutOfRange,
        FaultRule::IndexOutside => Rule::IndexOutside,
        FaultRule::DivisorZero => Rule::DivisorZero,
        FaultRule::ShiftTooFar => Rule::ShiftTooFar,
    }
}
