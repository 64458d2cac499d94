//! One part of a sound block: whether it is there, and shows that a question's clauses can't be met.

ghost use Rattle.std.specs.Prelude.{◌≡◌, All, IfOk, MatchBool, option_copied};
ghost use Rattle.clause_core.specs.Literals.{Within};
ghost use Rattle.cert_core.specs.declared.form.Form.TheVariants.{Plain};
ghost use Rattle.cert_core.specs.Certificates.{Shows};
ghost use Rattle.sound_check.specs.Judgements.{PartShows, part_of, parts_of};
ghost use Rattle.sound_check.specs.Questions.{IsQuestion};

use bit_clauses::Decided;
use cert_core::Sound;
use hinted_log::Hinted;
use rup_check::{Checker, LogVerdict};
use std::alloc::{AllocError, Global};

// The steps of an item's part, if there is a block that has it.
pub(crate) fn steps_of(sound: Option<&Sound>, item: usize) -> Option<&Hinted>
    ensures { option_copied result ≡ part_of (parts_of (option_copied sound.entry)) item }
{
    match sound {
        None => None,
        Some(sound) => sound.steps(item),
    }
}

// Whether the part is there, and derives the empty clause from the clauses.
fn derives(alloc: Global, question: &Decided, steps: Option<&Hinted>) -> Result<bool, AllocError>
    requires { All (Within question.now.vars) question.now.clauses }
    ensures { IfOk result (λ b. MatchBool b (Shows Plain question.now.vars question.now.clauses (option_copied steps.entry)) (Shows Plain question.now.vars question.now.clauses (option_copied steps.entry) → ⊥)) }
{
    match steps {
        None => Ok(false),
        Some(steps) => {
            let mut checker = Checker::new(alloc, question.vars)?;
            match checker.check(&question.clauses, steps.steps()) {
                LogVerdict::Yes => Ok(true),
                LogVerdict::No { .. } => Ok(false),
            }
        }
    }
}

// Whether the part shows that the question can't be met; where nothing is asked, no part has to.
pub(crate) fn shows(
    alloc: Global,
    question: &Option<Decided>,
    steps: Option<&Hinted>,
) -> Result<bool, AllocError>
    requires { IsQuestion question.now }
    ensures { IfOk result (λ b. MatchBool b (PartShows question.now (option_copied steps.entry)) (PartShows question.now (option_copied steps.entry) → ⊥)) }
{
    match question {
        None => Ok(true),
        Some(question) => derives(alloc, question, steps),
    }
}
