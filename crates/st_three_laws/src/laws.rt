//! Laws on three arguments: each is the contract of a function that does nothing.
ghost use Rattle.std.specs.Prelude.{◌≡◌};
ghost use Rattle.st_marks.specs.declared.changes.Change.{Change};
ghost use Rattle.st_marks.specs.declared.steps.Step.{Step};
ghost use Rattle.st_marks.specs.Agree.{Agrees, ComposeClash, RebaseClash};
ghost use Rattle.st_moves.specs.Room.{HasRoomInRows};
ghost use Rattle.st_normal.specs.Rules.{ObeysChangeRules, ObeysStepRules};
ghost use Rattle.st_three_laws.specs.Over.{IsAfterwards, LeadsOverTwo, StandInTurn, StandOverBoth};

use st_moves::documents_have_room;
use st_turn_pair_laws::stand_in_turn;

/// A change and two steps in normal form, where the steps agree in turn, and the change agrees with the first and with both as one,
/// stand over documents of one chain: the intent of the change fits all three.
pub fn stand_over_both()
    ensures { (C : Change) (a b ab : Step) → ObeysChangeRules C → ObeysStepRules a → ObeysStepRules b
        → Agrees (ComposeClash a b) → LeadsOverTwo a b ab → Agrees (RebaseClash C a) → Agrees (RebaseClash C ab)
        → StandOverBoth C a b }
{
    stand_in_turn();
}

/// Of a change and two steps in normal form that agree so, the change over both as one is the change over the first and then over
/// the second, whether they stand over documents or not.
pub fn over_parts_is_one()
    ensures { (C left between right : Change) (a b ab : Step) → ObeysChangeRules C → ObeysStepRules a → ObeysStepRules b
        → Agrees (ComposeClash a b) → LeadsOverTwo a b ab
        → Agrees (RebaseClash C ab) → IsAfterwards C ab left
        → Agrees (RebaseClash C a) → IsAfterwards C a between → IsAfterwards between b right
        → left ≡ right }
{
    stand_in_turn();
}

/// And the change over the first agrees with the second, and has room beside it in each row if the change has room beside both as
/// one: so where the left side isn't refused, nor the first call of the right one, the last isn't.
pub fn next_is_not_refused()
    ensures agree { (C between : Change) (a b ab : Step) → ObeysChangeRules C → ObeysStepRules a → ObeysStepRules b
        → Agrees (ComposeClash a b) → LeadsOverTwo a b ab → Agrees (RebaseClash C ab)
        → Agrees (RebaseClash C a) → IsAfterwards C a between
        → Agrees (RebaseClash between b) }
    ensures room { (C between : Change) (a b ab : Step) → ObeysChangeRules C → ObeysStepRules a → ObeysStepRules b
        → Agrees (ComposeClash a b) → LeadsOverTwo a b ab → Agrees (RebaseClash C ab) → HasRoomInRows C ab
        → Agrees (RebaseClash C a) → IsAfterwards C a between
        → HasRoomInRows between b }
{
    stand_in_turn();
    documents_have_room();
}

/// Three steps in normal form, taken together in either way, of which no call is refused, lead from document to document in turn.
pub fn three_stand_in_turn()
    ensures { (a b c ab bc left right : Step) → ObeysStepRules a → ObeysStepRules b → ObeysStepRules c
        → Agrees (ComposeClash a b) → LeadsOverTwo a b ab → Agrees (ComposeClash ab c) → LeadsOverTwo ab c left
        → Agrees (ComposeClash b c) → LeadsOverTwo b c bc → Agrees (ComposeClash a bc) → LeadsOverTwo a bc right
        → StandInTurn a b c }
{
    stand_in_turn();
}

/// So both ways they are one step, whether they stand over documents or not.
pub fn associative_is_one()
    ensures { (a b c ab bc left right : Step) → ObeysStepRules a → ObeysStepRules b → ObeysStepRules c
        → Agrees (ComposeClash a b) → LeadsOverTwo a b ab → Agrees (ComposeClash ab c) → LeadsOverTwo ab c left
        → Agrees (ComposeClash b c) → LeadsOverTwo b c bc → Agrees (ComposeClash a bc) → LeadsOverTwo a bc right
        → left ≡ right }
{
    stand_in_turn();
}
