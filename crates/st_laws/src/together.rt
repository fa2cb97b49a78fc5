//! A change and a step that agree, over documents.
ghost use Rattle.st_marks.specs.declared.changes.Change.{Change};
ghost use Rattle.st_marks.specs.declared.steps.Step.{Step};
ghost use Rattle.st_marks.specs.Agree.{Agrees, RebaseClash};
ghost use Rattle.st_moves.specs.Room.{HasRoomInRows};
ghost use Rattle.st_normal.specs.Rules.{ObeysChangeRules, ObeysStepRules};
ghost use Rattle.st_laws.specs.inside.Together.{StandTogether};

use st_log_laws::each_has_a_verdict;
use st_pair_laws::{room_is_enough, stand_beside};

/// A change and a step in normal form that agree and have room together in each row stand over documents in which the intent has
/// verdicts, and leaves rows short.
pub fn stand_together()
    ensures { (C : Change) (S : Step) → HasRoomInRows C S → ObeysChangeRules C → ObeysStepRules S → Agrees (RebaseClash C S)
        → StandTogether C S }
{
    stand_beside();
    room_is_enough();
    each_has_a_verdict();
}
