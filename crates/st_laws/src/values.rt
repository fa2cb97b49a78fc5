//! What a call answers of arguments in normal form is in normal form, and is one value.
ghost use Rattle.std.specs.Prelude.{◌≡◌};
ghost use Rattle.st_marks.specs.declared.changes.Change.{Change};
ghost use Rattle.st_marks.specs.declared.steps.Step.{Step};
ghost use Rattle.st_marks.specs.Agree.{Agrees, ComposeClash, JoinClash, RebaseClash};
ghost use Rattle.st_moves.specs.Room.{HasRoomInRows};
ghost use Rattle.st_normal.specs.Rules.{ObeysChangeRules, ObeysStepRules};
ghost use Rattle.st_laws.specs.InOrder.{Bridges, Composes, IsAfterStep, IsOfBothParts, Joins, LeadsAfterCommit, LeadsOverBoth, Rebases};

use crate::together::stand_together;
use st_normal_laws::{embeddings_obey_rules, normal_steps_obey};
use st_pair_laws::one_answer_beside;
use st_part_pair_laws::{one_change_of_parts, parts_stand};
use st_push::extends_beside;
use st_turn_pair_laws::stand_in_turn;

/// The step over two in turn that agree.
pub fn steps_in_turn_obey()
    ensures { (S T U : Step) → ObeysStepRules S → ObeysStepRules T → Agrees (ComposeClash S T) → LeadsOverBoth S T U → ObeysStepRules U }
{
    stand_in_turn();
    normal_steps_obey();
}

/// The change after a step with which the change before it agrees.
pub fn later_changes_obey()
    ensures { (C K : Change) (S : Step) → HasRoomInRows C S → ObeysChangeRules C → ObeysStepRules S → Agrees (RebaseClash C S)
        → IsAfterStep C S K → ObeysChangeRules K }
{
    stand_together();
    embeddings_obey_rules();
}

/// The step over a commit with which it agrees.
pub fn steps_over_commits_obey()
    ensures { (C : Change) (S T : Step) → HasRoomInRows C S → ObeysChangeRules C → ObeysStepRules S → Agrees (RebaseClash C S)
        → LeadsAfterCommit S C T → ObeysStepRules T }
{
    stand_together();
    extends_beside();
    normal_steps_obey();
}

/// Two parts of a commit as one.
pub fn joined_parts_obey()
    ensures { (C K X : Change) → ObeysChangeRules C → ObeysChangeRules K → Agrees (JoinClash C K) → IsOfBothParts C K X → ObeysChangeRules X }
{
    parts_stand();
    embeddings_obey_rules();
}

/// The value of a call is one, whatever documents its arguments stand over.
pub fn values_are_one()
    ensures composed { (S T U V : Step) → ObeysStepRules S → ObeysStepRules T → Composes S T U → Composes S T V → U ≡ V }
    ensures rebased { (C K M : Change) (S : Step) → ObeysChangeRules C → ObeysStepRules S → Rebases C S K → Rebases C S M → K ≡ M }
    ensures bridged { (C : Change) (S T U : Step) → ObeysChangeRules C → ObeysStepRules S → Bridges S C T → Bridges S C U → T ≡ U }
    ensures joined { (C K X Y : Change) → ObeysChangeRules C → ObeysChangeRules K → Joins C K X → Joins C K Y → X ≡ Y }
{
    stand_in_turn();
    one_answer_beside();
    one_change_of_parts();
}
