//! What a book that is closed says of each of its systems, with a certificate of each that it shows to be true.

ghost use Rattle.std.specs.Prelude.{◌≡◌, ◌<◌, ◌≤◌, ℕ, Bool, true, All, Some, length, IfOk, OnOk};
ghost use Rattle.std.specs.Option.{ForSome};
ghost use Rattle.clause_core.specs.Literals.{Within};
ghost use Rattle.cert_core.specs.declared.form.TheConstants.{MAX_COUNTER};
ghost use Rattle.cert_core.specs.Certificates.{IsInvariant};
ghost use Rattle.frame_core.specs.declared.outcomes.FramesVerdict.TheVariants.{Invariant};
ghost use Rattle.frame_core.specs.Changes.{VerdictSays};
ghost use Rattle.frame_core.specs.FrameLaw.{system_at};
ghost use Rattle.prove_run.specs.Answers.{AnswersNext, AreAnswered, CertifySays, cause_of, spent_cause};
ghost use Rattle.prove_run.specs.Certifying.{clauses_above};

use crate::answers::{Answer, Cause};
use crate::effort::Effort;
use cert_check::{CertVerdict, check};
use cert_core::Certificate;
use cert_make::{Made, make};
use clause_core::{Clauses, System};
use effort_purse::Purse;
use frame_core::{Frames, FramesVerdict, Lemmas};
use std::alloc::{AllocError, Global};

// The clauses of the live lemmas of greater levels.
fn clauses_of(alloc: Global, lemmas: &Lemmas, level: u32) -> Result<Clauses, AllocError>
    ensures { IfOk result (λ cs. cs ≡ clauses_above level lemmas.now) }
{
    let mut clauses = Clauses::new(alloc);
    'lemmas: for n in 0..lemmas.len() {
        let lemma = lemmas.lemma(n);
        if lemma.live && lemma.level > level {
            clauses.push(lemma.clause.as_slice())?;
        }
    }
    Ok(clauses)
}

// A certificate of an invariant that names this counter, and which the check accepts; none where the purse was spent
// before it was made.
fn certify<Q: Purse>(
    alloc: Global,
    system: &System,
    clauses: &Clauses,
    counter: Option<usize>,
    purse: &mut Q,
) -> Result<Option<Certificate>, AllocError>
    requires within { All (Within system.now.state_bits) clauses.now }
    requires invariant { IsInvariant system.now clauses.now }
    requires counter { ForSome counter (λ k. k ≤ MAX_COUNTER) }
    requires ready { Q.ready purse.old }
    ensures certified { IfOk result (CertifySays system.now clauses.now counter (Q.tickets purse.old) (Q.tickets purse.new) (Q.spent purse.new)) }
    ensures kept { Q.kept purse.old purse.new }
    ensures ready { Q.ready purse.new }
    ensures budget { Q.budget purse.new ≡ Q.budget purse.old }
{
    match make(alloc, system, clauses, purse)? {
        Made::Spent { .. } => Ok(None),
        Made::Certificate(mut cert) => {
            cert.set_counter(counter);
            match check(alloc, system, &cert)? {
                CertVerdict::Yes => Ok(Some(cert)),
                CertVerdict::No { .. } => unreachable!(),
            }
        }
    }
}

/// A certificate of system `j`, of which the frames tell an invariant: of the live lemmas above its level, with this
/// counter.
///
/// The check of certificates accepted it. There is none where the purse was spent before it was made. What was asked
/// was paid for. The only error is out of memory.
pub fn certificate_of<Q: Purse>(
    alloc: Global,
    frames: &Frames,
    j: usize,
    level: u32,
    counter: Option<usize>,
    purse: &mut Q,
) -> Result<Option<Certificate>, AllocError>
    requires number { j < length frames.now.systems }
    requires invariant { VerdictSays frames.now j (Some (Invariant level)) }
    requires counter { ForSome counter (λ k. k ≤ MAX_COUNTER) }
    requires ready { Q.ready purse.old }
    ensures certified { IfOk result (CertifySays (system_at frames.now.systems j) (clauses_above level frames.now.lemmas) counter (Q.tickets purse.old) (Q.tickets purse.new) (Q.spent purse.new)) }
    ensures kept { Q.kept purse.old purse.new }
    ensures ready { Q.ready purse.new }
    ensures budget { Q.budget purse.new ≡ Q.budget purse.old }
{
    let clauses = clauses_of(alloc, frames.all_lemmas(), level)?;
    certify(alloc, &frames.systems()[j], &clauses, counter, purse)
}

// The cause where the purse was spent.
fn spent_by(effort: &Effort) -> Cause
    ensures { result ≡ spent_cause effort.now }
{
    Cause::Conflicts {
        drawn: effort.conflicts,
        budget: effort.conflicts,
    }
}

// What is answered of system `j`, of which the frames tell an invariant; `spent` is whether the purse is known to be
// spent.
fn shown<Q: Purse>(
    alloc: Global,
    frames: &Frames,
    j: usize,
    level: u32,
    effort: &Effort,
    spent: &mut bool,
    purse: &mut Q,
) -> Result<Answer, AllocError>
    requires number { j < length frames.now.systems }
    requires invariant { VerdictSays frames.now j (Some (Invariant level)) }
    requires spent { spent.old ≡ true → Q.spent purse.old ≡ true }
    requires ready { Q.ready purse.old }
    ensures next { IfOk result (λ a. (over : Bool) → AnswersNext effort.now frames.now over j (Q.tickets purse.old) spent.old (Q.tickets purse.new) spent.new a) }
    ensures spent { OnOk result (spent.new ≡ true → Q.spent purse.new ≡ true) }
    ensures kept { Q.kept purse.old purse.new }
    ensures ready { Q.ready purse.new }
    ensures budget { Q.budget purse.new ≡ Q.budget purse.old }
{
    if *spent {
        return Ok(Answer::Unknown(spent_by(effort)));
    }
    match certificate_of(alloc, frames, j, level, None, purse)? {
        Some(cert) => Ok(Answer::True(cert)),
        None => {
            *spent = true;
            Ok(Answer::Unknown(spent_by(effort)))
        }
    }
}

// Why nothing is known of a system without a verdict: the purse was spent, or the limit of its frames was met.
fn cause(over: bool, effort: &Effort) -> Cause
    ensures { result ≡ cause_of over effort.now }
{
    if over {
        return spent_by(effort);
    }
    Cause::Frames {
        frames: effort.frames,
    }
}

// What is known of system `j`. Whether the purse was spent in the book says why a system has no verdict.
fn answer_of<Q: Purse>(
    alloc: Global,
    frames: &Frames,
    j: usize,
    over: bool,
    effort: &Effort,
    spent: &mut bool,
    purse: &mut Q,
) -> Result<Answer, AllocError>
    requires number { j < length frames.now.systems }
    requires spent { spent.old ≡ true → Q.spent purse.old ≡ true }
    requires ready { Q.ready purse.old }
    ensures next { IfOk result (AnswersNext effort.now frames.now over j (Q.tickets purse.old) spent.old (Q.tickets purse.new) spent.new) }
    ensures spent { OnOk result (spent.new ≡ true → Q.spent purse.new ≡ true) }
    ensures kept { Q.kept purse.old purse.new }
    ensures ready { Q.ready purse.new }
    ensures budget { Q.budget purse.new ≡ Q.budget purse.old }
{
    match frames.verdict(j) {
        Some(FramesVerdict::Invariant(level)) => {
            shown(alloc, frames, j, level, effort, spent, purse)
        }
        Some(FramesVerdict::Reached(n)) => {
            let run = frames.run_of(alloc, n)?;
            Ok(Answer::False(run))
        }
        None => Ok(Answer::Unknown(cause(over, effort))),
    }
}

/// An answer for each system, in their order; certificates are paid for by the purse, where the book left some of it.
pub(crate) fn answers<Q: Purse>(
    alloc: Global,
    frames: &Frames,
    over: bool,
    effort: &Effort,
    purse: &mut Q,
) -> Result<Vec<Answer>, AllocError>
    requires over { over ≡ true → Q.spent purse.old ≡ true }
    requires ready { Q.ready purse.old }
    ensures each_one { IfOk result (λ v. length v.items ≡ length frames.now.systems) }
    ensures answered { IfOk result (λ v. (spent : Bool) × (spent ≡ true → Q.spent purse.new ≡ true) × AreAnswered effort.now frames.now over (Q.tickets purse.old) (Q.tickets purse.new) spent v.items) }
    ensures kept { Q.kept purse.old purse.new }
    ensures ready { Q.ready purse.new }
    ensures budget { Q.budget purse.new ≡ Q.budget purse.old }
{
    let mut answers = Vec::new(alloc);
    let mut spent = over;
    'systems: for j in 0..frames.systems().len() {
        answers.push(answer_of(alloc, frames, j, over, effort, &mut spent, purse)?)?;
    }
    Ok(answers)
}
