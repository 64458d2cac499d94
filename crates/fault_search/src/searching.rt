//! The items in their order, until one may fault or the purse is spent.

ghost use Rattle.std.specs.Prelude.{◌≡◌, ◌<◌, All, IfOk, MatchResult, None, length, slice_index_or, slice_set};
ghost use Rattle.cert_core.specs.declared.form.Form.TheVariants.{Plain};
ghost use Rattle.cert_core.specs.Blocks.{PartFits};
ghost use Rattle.sound_check.specs.Questions.{IsQuestion};
ghost use Rattle.fault_search.specs.Answering.{AnswerSays};
ghost use Rattle.fault_search.specs.Paying.{PaysSearch, PaysSome};

use crate::asking::{Asked, ask_about};
use bit_clauses::Decided;
use cert_core::Sound;
use clause_core::Bits;
use effort_purse::Purse;
use hinted_log::Hinted;
use std::alloc::{AllocError, Global};

/// What the search for an item that may fault says.
#[derive(Drop)]
pub enum Answer {
    /// No question can be met: the block has for each the steps that show it, and none where nothing is asked.
    Free(Sound),
    /// These values of the question's variables meet the clauses of this item, counted from 0; the questions before it
    /// can't be met.
    Faulty { item: usize, model: Bits },
    /// The purse was spent before all items were answered: `drawn` tickets of `budget`, two equal numbers.
    Spent { drawn: u64, budget: u64 },
}

// Notes the steps of an item, if there are any.
fn note(sound: &mut Sound, item: usize, steps: Option<Hinted>)
    requires within { item < length sound.old }
    requires fits { PartFits Plain steps }
    requires missing { slice_index_or sound.old item None ≡ None }
    ensures { sound.new ≡ slice_set sound.old item steps }
{
    match steps {
        None => {}
        Some(steps) => sound.put(item, steps),
    }
}

/// Asks of each question, in their order, whether its clauses can be met, until one is met or the purse is spent.
///
/// There is a question for each item, or none where nothing is asked. Each has a solver of its own, which knows its
/// clauses alone. A question costs a ticket of the purse, and each clause that its solver learns another; nothing is
/// paid where nothing is asked. `Spent` comes only where the purse refused one, and then some item is not answered.
/// The other error is out of memory; more variables than a text can number count as that. After it, too, what was
/// drawn was paid for such queries.
pub fn search<Q: Purse>(
    alloc: Global,
    questions: &[Option<Decided>],
    purse: &mut Q,
) -> Result<Answer, AllocError>
    requires questions { All IsQuestion questions.now }
    requires ready { Q.ready purse.old }
    ensures answer { IfOk result (AnswerSays questions.now (Q.budget purse.old) (Q.spent purse.new)) }
    ensures pays { MatchResult result (PaysSearch questions.now (Q.tickets purse.old) (Q.tickets purse.new)) (λ e. PaysSome questions.now (Q.tickets purse.old) (Q.tickets purse.new)) }
    ensures kept { Q.kept purse.old purse.new }
    ensures ready { Q.ready purse.new }
    ensures budget { Q.budget purse.new ≡ Q.budget purse.old }
{
    let mut sound = Sound::new(alloc, questions.len())?;
    for (item, question) in questions.iter().enumerate() {
        match ask_about(alloc, question, purse)? {
            Asked::Never(steps) => note(&mut sound, item, steps),
            Asked::Met(model) => return Ok(Answer::Faulty { item, model }),
            Asked::Spent { drawn, budget } => return Ok(Answer::Spent { drawn, budget }),
        }
    }
    Ok(Answer::Free(sound))
}
