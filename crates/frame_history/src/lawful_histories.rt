//! What every lawful history keeps, as contracts of functions that do nothing.

ghost use Rattle.std.specs.Prelude.{◌≡◌, ◌<◌, ◌≤◌, ℕ, Bool, true, false, List, length, take, slice_index_or};
ghost use Rattle.clause_core.specs.Assignments.{ClauseTrue};
ghost use Rattle.clause_core.specs.Systems.{TransitionSystem, ReachedWithin};
ghost use Rattle.frame_core.specs.declared.parts.Lemma.{Lemma as ALemma};
ghost use Rattle.frame_core.specs.FrameLaw.{FramesHold, system_at, lemma_at};
ghost use Rattle.frame_history.specs.declared.entries.Limits.{Limits as ALimits};
ghost use Rattle.frame_history.specs.declared.entries.Entry.{Entry as AnEntry};
ghost use Rattle.frame_history.specs.declared.entries.Subject.{Subject as ASubject};
ghost use Rattle.frame_history.specs.History.{start, replay, IsClosed, IsLawfulClaim, IsLawful, AreCarried};
ghost use Rattle.frame_history.specs.Limits.{WasAtLimit, IsSafeWithin, SomeIsOut};

/// After each entry of a lawful history the law of the frames holds, whatever lemmas were carried that hold in each of
/// the systems.
pub fn a_lawful_history_keeps_the_law_of_the_frames()
    ensures { (limits : ALimits) (systems : List TransitionSystem) (carried : List ALemma) (history : List AnEntry) → AreCarried systems carried → IsLawful limits (start limits systems carried) history → (n : ℕ) → FramesHold (replay (start limits systems carried) (take n history)).frames }
{}

/// So after each entry each lemma of level i holds in each state that is reached in at most i steps.
pub fn lemmas_hold_in_reached_states()
    ensures { (limits : ALimits) (systems : List TransitionSystem) (carried : List ALemma) (history : List AnEntry) → AreCarried systems carried → IsLawful limits (start limits systems carried) history → (n j : ℕ) → j < length systems → (i : ℕ) (x : ℕ → Bool) → ReachedWithin (system_at systems j) i x → (l : ℕ) → l < length (replay (start limits systems carried) (take n history)).frames.lemmas → i ≤ (lemma_at (replay (start limits systems carried) (take n history)).frames.lemmas l).level → ClauseTrue x (lemma_at (replay (start limits systems carried) (take n history)).frames.lemmas l).clause }
{}

/// Where the limit of a system is met, some entry left the frames with a top past it and steps out of each frame from 1
/// up to it. No bad state of the system is reached in so many steps.
pub fn a_limit_that_is_met_was_reached()
    ensures { (limits : ALimits) (systems : List TransitionSystem) (carried : List ALemma) (history : List AnEntry) → AreCarried systems carried → IsLawful limits (start limits systems carried) history → (j : ℕ) → j < length systems → slice_index_or (replay (start limits systems carried) history).limited j false ≡ true → WasAtLimit limits (start limits systems carried) history j × IsSafeWithin (system_at systems j) limits.frames }
{}

/// Where a history is not closed, and no claim may be made, some claim is out.
pub fn some_claim_is_out_where_none_may_be_made()
    ensures { (limits : ALimits) (systems : List TransitionSystem) (carried : List ALemma) (history : List AnEntry) → AreCarried systems carried → IsLawful limits (start limits systems carried) history → (IsClosed (replay (start limits systems carried) history) → ⊥) → ((u : ASubject) (level : ℕ) → IsLawfulClaim limits (replay (start limits systems carried) history) u level → ⊥) → SomeIsOut (replay (start limits systems carried) history).claims }
{}
