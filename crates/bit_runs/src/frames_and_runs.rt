//! Laws from the frames of systems that stand for a program to its runs.

ghost use Rattle.std.specs.Prelude.{◌<◌, ℕ, List, length};
ghost use Rattle.clause_core.specs.Systems.{TransitionSystem};
ghost use Rattle.smv_tree.specs.declared.tree.Program.{Program};
ghost use Rattle.smv_resolve.specs.Items.{ResolvedItem};
ghost use Rattle.frame_core.specs.declared.parts.Lemma.{Lemma};
ghost use Rattle.frame_core.specs.FrameLaw.{AreAlike, FrameState, FramesHold, IsInvariant, system_at, top_at};
ghost use Rattle.bit_system.specs.Building.{BitProgram, IsBuilt};
ghost use Rattle.bit_system.specs.Claims.{IsUnbroken, IsUnbrokenWithin};
ghost use Rattle.bit_system.specs.Standing.{StandsFor};

/// The systems of a program have the same bits, initial states and steps.
pub fn what_is_built_is_alike()
    ensures { (p : Program) (b : BitProgram) → IsBuilt p b → AreAlike b.systems }
{}

/// Where lemmas are an inductive invariant that excludes the bad states of a system, no run of the program breaks the
/// specification; and where frames hold, no run of fewer steps than the system's top does.
pub fn what_frames_say_of_runs()
    ensures invariant { (p : Program) (spec : ResolvedItem) (sys : TransitionSystem) (lemmas : List Lemma) (i : ℕ) → StandsFor p spec sys → IsInvariant sys lemmas i → IsUnbroken p spec }
    ensures below { (p : Program) (spec : ResolvedItem) (f : FrameState) (j n : ℕ) → FramesHold f → j < length f.systems → StandsFor p spec (system_at f.systems j) → n < top_at f.tops j
        → IsUnbrokenWithin p spec n }
{}
