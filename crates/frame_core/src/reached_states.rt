//! What the law of the frames gives, as contracts of functions that do nothing.

ghost use Rattle.std.specs.Prelude.{◌≡◌, ◌≢◌, ◌<◌, ◌≤◌, ◌+◌, ℕ, Bool, true, List, length};
ghost use Rattle.clause_core.specs.Assignments.{ClauseTrue};
ghost use Rattle.clause_core.specs.Systems.{ReachedWithin};
ghost use Rattle.frame_core.specs.FrameLaw.{FrameState, FramesHold, system_at, top_at, lemma_at, IsInvariant};

/// A lemma of level i holds in each state that is reached in at most i steps, in each of the systems.
pub fn lemmas_hold_in_reached_states()
    ensures { (f : FrameState) → FramesHold f → (s : ℕ) → s < length f.systems → (j : ℕ) (x : ℕ → Bool) → ReachedWithin (system_at f.systems s) j x → (n : ℕ) → n < length f.lemmas → j ≤ (lemma_at f.lemmas n).level → ClauseTrue x (lemma_at f.lemmas n).clause }
{}

/// Where no live lemma has level i, for some i from 1 below the top of a system, the lemmas above are an inductive
/// invariant that excludes its bad states.
pub fn a_level_without_live_lemmas_is_an_invariant()
    ensures { (f : FrameState) → FramesHold f → (s : ℕ) → s < length f.systems → (i : ℕ) → 0 < i → i < top_at f.tops s → ((n : ℕ) → n < length f.lemmas → (lemma_at f.lemmas n).live ≡ true → (lemma_at f.lemmas n).level ≢ i) → IsInvariant (system_at f.systems s) f.lemmas (i + 1) }
{}
