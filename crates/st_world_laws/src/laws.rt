//! Laws about worlds, by their lists alone: each is the contract of a function that does nothing.
ghost use Rattle.st_lists.specs.Clients.{empty_state};
ghost use Rattle.st_lists.specs.declared.lists.WorldState.{WorldState};
ghost use Rattle.st_script.specs.Header.{HeaderView};
ghost use Rattle.st_script.specs.Steps.{StepView};
ghost use Rattle.st_script.specs.declared.answer.Answer.{Answer};
ghost use Rattle.st_world.specs.World.{IsNext};
ghost use Rattle.st_world_laws.specs.Worlds.{IsHeader, IsWorld, KeepsRules};

/// The world of a header before any client joins is one that steps may begin from.
pub fn opened_worlds_are_worlds()
    ensures { (h : HeaderView) → IsHeader h → IsWorld h empty_state }
{}

/// From each world each step leads to a next one, and has an answer; the next one is a world again, unless the step brings in a
/// schema that breaks the rules of schemas.
pub fn each_step_leads_on()
    ensures { (h : HeaderView) (w : WorldState) (s : StepView) → IsWorld h w
        → (v : WorldState) × (a : Answer) × IsNext h w s v a × (KeepsRules s.act → IsWorld h v) }
{}

/// Whatever a step leads to from a world is a world again, unless the step brings in a schema that breaks the rules of schemas.
pub fn worlds_go_on()
    ensures { (h : HeaderView) (w v : WorldState) (s : StepView) (a : Answer) → IsWorld h w
        → KeepsRules s.act → IsNext h w s v a → IsWorld h v }
{}
