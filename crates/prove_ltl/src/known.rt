//! Whether an answer is known, and what follows for those who still look for one.

ghost use Rattle.std.specs.Prelude.{◌≡◌, true, false, Some, IfSome};
ghost use Rattle.effort_purse.specs.Seats.{IsSeatOf, has_raised};
ghost use Rattle.prove_ltl.specs.Early.{is_unknown};

use crate::answers::{LtlAnswer, LtlDone};
use effort_purse::{Seat, SharedPurse};

pub(crate) fn is_unknown(answer: &LtlAnswer) -> bool
    ensures { result ≡ is_unknown answer.now }
{
    match answer {
        LtlAnswer::True(_) => false,
        LtlAnswer::False(_) => false,
        LtlAnswer::Unknown(_) => true,
    }
}

// What was done, where its answer is known.
pub(crate) fn if_known(done: Option<LtlDone>) -> Option<LtlDone>
    ensures { IfSome result (λ d. (done ≡ Some d) × (is_unknown d.answer ≡ false)) }
{
    let done = done?;
    if is_unknown(&done.answer) {
        return None;
    }
    Some(done)
}

// Raises the stop where the answer is known. A bound that was reached stops nobody.
pub(crate) fn stop_others(purse: &SharedPurse, seat: &mut Seat, answer: &LtlAnswer)
    requires own { IsSeatOf purse.now seat.old }
    ensures known { is_unknown answer.now ≡ false → has_raised seat.new ≡ true }
    ensures unknown { is_unknown answer.now ≡ true → has_raised seat.new ≡ has_raised seat.old }
{
    if !is_unknown(answer) {
        purse.raise_stop(seat);
    }
}
