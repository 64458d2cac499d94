//! The parts of a sound block in their order.

ghost use Rattle.std.specs.Prelude.{All, IfOk, option_copied};
ghost use Rattle.sound_check.specs.Judgements.{VerdictSays, parts_of};
ghost use Rattle.sound_check.specs.Questions.{IsQuestion};

use crate::parts::{shows, steps_of};
use bit_clauses::Decided;
use cert_core::Sound;
use std::alloc::{AllocError, Global};

/// What the check of a sound block says.
#[derive(Clone, Copy, PartialEq, Eq, Debug)]
pub enum SoundVerdict {
    /// The block shows of each question that its clauses can't be met.
    Sound,
    /// The part of this item, counted from 0, is the first that does not.
    Rejected { item: usize },
}

/// Whether a sound block shows that no question can be met: `Sound` exactly where it does, and `Rejected` exactly with
/// the first part that does not.
///
/// There is a question for each item, or none where nothing is asked. The part of a question has to be there, and to
/// derive the empty clause from the question's clauses by unit propagation; its steps are over the question's own
/// variables. Where nothing is asked, no part has to be there, and one that is there is not looked at. A block that is
/// missing has no parts.
///
/// The only error is out of memory. The time is that of `Checker::check` for each part.
pub fn judge(
    alloc: Global,
    questions: &[Option<Decided>],
    sound: Option<&Sound>,
) -> Result<SoundVerdict, AllocError>
    requires { All IsQuestion questions.now }
    ensures { IfOk result (VerdictSays questions.now (parts_of (option_copied sound.entry))) }
{
    for (item, question) in questions.iter().enumerate() {
        let steps = steps_of(sound, item);
        if !shows(alloc, question, steps)? {
            return Ok(SoundVerdict::Rejected { item });
        }
    }
    Ok(SoundVerdict::Sound)
}
