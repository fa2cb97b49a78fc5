//! Laws about worlds: each is the contract of a function that does nothing.
ghost use Rattle.std.specs.Prelude.{ℕ};
ghost use Rattle.st_script.specs.Header.{HeaderView};
ghost use Rattle.st_script.specs.Steps.{StepView};
ghost use Rattle.st_script.specs.declared.answer.Answer.{Answer};
ghost use Rattle.st_plain.specs.Stands.{IsSmall, Stands};
ghost use Rattle.st_world.specs.World.{IsNext};
ghost use Rattle.st_world_laws.specs.Worlds.{IsWorld};
ghost use Rattle.st_lists.specs.declared.lists.WorldState.{WorldState};
ghost use Rattle.st_plain.specs.declared.world.World.{World};

/// From the lists for which a world stands each step leads to next ones, and has an answer.
pub fn each_step_has_a_next()
    ensures { (k : ℕ) (w : World) (h : HeaderView) (v : WorldState) (s : StepView) → Stands k w h v
        → (u : WorldState) × (a : Answer) × IsNext h v s u a }
{}

/// The lists for which a world stands are those of a world that steps lead to.
pub fn sound_worlds_are_worlds()
    ensures { (k : ℕ) (w : World) (h : HeaderView) (v : WorldState) → Stands k w h v → IsWorld h v }
{}

/// A world has made few steps: of the lists for which it stands no client has generated more ids, and the log is as long as it may be
/// at most.
pub fn worlds_are_small()
    ensures { (k : ℕ) (w : World) (h : HeaderView) (v : WorldState) → Stands k w h v → IsSmall k v }
{}
