//! Prepares a model: asks of each item whether it ever faults.

ghost use Rattle.std.specs.Prelude.{◌≡◌, ◌≤◌, IfOk};
ghost use Rattle.bit_states.specs.Layouts.{bit_limit, bits_of, layout_of};
ghost use Rattle.bit_faults.specs.Questions.{AreFaultQuestions};
ghost use Rattle.smv_prepare.specs.Preparing.{IsPrepared};

use crate::decoding::refusal_of;
use bit_clauses::Decided;
use bit_faults::{fault_questions, what_is_never_met};
use bit_states::{BuildStop, Layout, layout_of};
use cert_core::Sound;
use effort_purse::Purse;
use fault_search::soundness_of_answers::what_is_free_is_sound;
use fault_search::{Answer, search};
use smv_flat::Flat;
use smv_meaning::Typed;
use smv_tree::Refusal;
use std::alloc::{AllocError, Global};

/// What comes of preparing a model.
#[derive(Drop)]
pub enum Prepared {
    /// No item ever faults. The steps show that of each item that may fault as far as its gates tell.
    Sound(Sound),
    /// An item faults, and the model is refused so.
    Faulty(Refusal),
    /// The purse was spent before all items were judged.
    Spent { drawn: u64, budget: u64 },
}

/// Whether some item of a model faults in a state, or in a step, of the declared types, reached or not. Items are
/// assignments, constraints and, after these, specifications; a definition is judged where it is used.
///
/// - `Sound`: none ever does, with the steps that show it. An item without a gate that tells a fault asks no query.
/// - `Faulty`: the refusal of the first item that does, by 601 CaseOpen, 602 OutOfRange, 603 IndexOutside, 604
///   DivisorZero or 605 ShiftTooFar, with a valuation at which it does.
/// - `Spent`: the purse had no ticket left. A query costs one, and each clause that it learns another.
///
/// That all these are refused before anything is decided is an own choice of this project (NuSMV 2.6 User Manual, 2.2.3
/// and 2.3.8, has them stop as it runs, or pass). The only error is out of memory.
pub fn prepare<Q: Purse>(alloc: Global, flat: &Flat, purse: &mut Q) -> Result<Prepared, AllocError>
    requires small { bits_of flat.now.typed.scope.program ≤ bit_limit }
    requires ready { Q.ready purse.old }
    ensures prepared { IfOk result (IsPrepared flat.now.typed.scope.program (Q.budget purse.old) (Q.spent purse.new) (Q.tickets purse.old) (Q.tickets purse.new)) }
    ensures kept { Q.kept purse.old purse.new }
    ensures ready { Q.ready purse.new }
    ensures budget { Q.budget purse.new ≡ Q.budget purse.old }
{
    let layout = known_layout(alloc, &flat.typed)?;
    let questions = fault_questions(alloc, &flat.typed, &layout)?;
    asked(alloc, &flat.typed, &layout, &questions, purse)
}

// Where the bits stand: there are not too many.
fn known_layout(alloc: Global, typed: &Typed) -> Result<Layout, AllocError>
    requires { bits_of typed.now.scope.program ≤ bit_limit }
    ensures { IfOk result (λ r. r ≡ layout_of typed.now.scope.program) }
{
    match layout_of(alloc, typed) {
        Ok(layout) => Ok(layout),
        Err(BuildStop::NoMemory) => Err(AllocError),
        Err(BuildStop::TooManyBits) => unreachable!(),
    }
}

// Asks these questions, one of each item.
fn asked<Q: Purse>(
    alloc: Global,
    typed: &Typed,
    layout: &Layout,
    questions: &[Option<Decided>],
    purse: &mut Q,
) -> Result<Prepared, AllocError>
    requires layout { layout.now ≡ layout_of typed.now.scope.program }
    requires questions { AreFaultQuestions typed.now.scope.program questions.now }
    requires ready { Q.ready purse.old }
    ensures prepared { IfOk result (IsPrepared typed.now.scope.program (Q.budget purse.old) (Q.spent purse.new) (Q.tickets purse.old) (Q.tickets purse.new)) }
    ensures kept { Q.kept purse.old purse.new }
    ensures ready { Q.ready purse.new }
    ensures budget { Q.budget purse.new ≡ Q.budget purse.old }
{
    what_is_never_met();
    what_is_free_is_sound();
    match search(alloc, questions, purse)? {
        Answer::Free(sound) => Ok(Prepared::Sound(sound)),
        Answer::Faulty { item, model } => {
            let refusal = refusal_of(alloc, typed, layout, questions, item, &model)?;
            Ok(Prepared::Faulty(refusal))
        }
        Answer::Spent { drawn, budget } => Ok(Prepared::Spent { drawn, budget }),
    }
}
