//! Laws on the commits of worlds, that each can be told in a text: each is the contract of a function that does nothing.
ghost use Rattle.std.specs.Prelude.{◌≤◌, length};
ghost use Rattle.st_ids.specs.declared.names.NodeId.{NodeId};
ghost use Rattle.st_change_laws.specs.Within.{DocumentIsWithin};
ghost use Rattle.st_lists.specs.Clients.{empty_state};
ghost use Rattle.st_lists.specs.declared.lists.WorldState.{WorldState};
ghost use Rattle.st_script.specs.Header.{HeaderView};
ghost use Rattle.st_script.specs.StepText.{FitsLine};
ghost use Rattle.st_script.specs.Steps.{StepView};
ghost use Rattle.st_script.specs.declared.answer.Answer.{Answer};
ghost use Rattle.st_world.specs.World.{IsNext, opening_document};
ghost use Rattle.st_world_laws.specs.Worlds.{IsHeader, IsWorld, KeepsRules};
ghost use Rattle.st_commit_laws.specs.Tellable.{BringsShortLeaves, CommitsAreTellable, NameIsShort};

/// Before any client joins there are no commits, and each name and key of the opening document can
/// be told.
pub fn commits_begin_tellable()
    ensures commits { CommitsAreTellable empty_state }
    ensures opening { (h : HeaderView) → IsHeader h → DocumentIsWithin NameIsShort (opening_document h) }
{}

/// Whatever a step leads to from a world in which each commit can be told, each can again: those of
/// the log, of texts that wait, of clients and their branches, and what is edited in open
/// transactions; unless the step brings in a schema that breaks the rules, or a number that isn't
/// one of 64 bits.
pub fn commits_go_on_tellable()
    ensures { (h : HeaderView) (w v : WorldState) (s : StepView) (a : Answer) → IsWorld h w
        → CommitsAreTellable w → KeepsRules s.act → BringsShortLeaves s.act → IsNext h w s v a
        → CommitsAreTellable v }
{}

/// A step that a line can hold brings no number that isn't one of 64 bits.
pub fn lines_bring_short_leaves()
    ensures { (s : StepView) → FitsLine s → BringsShortLeaves s.act }
{}

/// No row of the opening document has more cells than a tree may have nodes.
pub fn opening_rows_are_short()
    ensures { (h : HeaderView) (n : NodeId) → IsHeader h
        → length ((opening_document h).rows n) ≤ 1024 }
{}
