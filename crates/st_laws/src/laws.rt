//! Laws on the axioms on three arguments.
ghost use Rattle.std.specs.Prelude.{◌≡◌, ◌↔◌, Ok, Result};
ghost use Rattle.st_ids.specs.declared.names.CellId.{CellId};
ghost use Rattle.st_ids.specs.declared.names.FieldId.{FieldId};
ghost use Rattle.st_ids.specs.declared.names.NodeId.{NodeId};
ghost use Rattle.st_marks.specs.declared.changes.Change.{Change};
ghost use Rattle.st_marks.specs.declared.places.Spot.{Spot};
ghost use Rattle.st_marks.specs.declared.steps.Step.{Step};
ghost use Rattle.st_normal.specs.Rules.{ObeysChangeRules, ObeysStepRules};
ghost use Rattle.st_laws.specs.InOrder.{AreOfOneCommit, ArePartsOver, IsAssociative, IsOverParts, MakesCell, PutsAt, TakesFrom};
ghost use Rattle.st_laws.specs.declared.sides.ChangeSides.{ChangeSides};
ghost use Rattle.st_laws.specs.declared.sides.StepSides.{StepSides};

use crate::together::stand_together;
use crate::values::values_are_one;
use st_part_pair_laws::parts_stand;
use st_turn_pair_laws::stand_in_turn;

/// For every three arguments in normal form, what the calls of both sides come to in their order is one: the same values, or the
/// same field. So what is told of an axiom on three arguments leaves nothing open, whether they stand over documents or not.
pub fn outcomes_are_one()
    ensures associative { (a b c : Step) (o p : Result StepSides FieldId) → ObeysStepRules a → ObeysStepRules b → ObeysStepRules c
        → IsAssociative a b c o → IsAssociative a b c p → o ≡ p }
    ensures over_parts { (C : Change) (a b : Step) (o p : Result ChangeSides FieldId) → ObeysChangeRules C → ObeysStepRules a → ObeysStepRules b
        → IsOverParts C a b o → IsOverParts C a b p → o ≡ p }
    ensures parts_over { (C K : Change) (S : Step) (o p : Result ChangeSides FieldId) → ObeysChangeRules C → ObeysChangeRules K → ObeysStepRules S
        → ArePartsOver C K S o → ArePartsOver C K S p → o ≡ p }
{
    values_are_one();
}

/// For every three arguments in normal form none of whose calls is refused, whether they stand over documents or not, both sides
/// make the same: three steps the same nodes, and a change over two steps, or two parts over one, are of the same commit, which needs
/// the same too.
pub fn sides_make_the_same()
    ensures associative { (a b c : Step) (s : StepSides) → ObeysStepRules a → ObeysStepRules b → ObeysStepRules c
        → IsAssociative a b c (Ok s) → s.left.new ≡ s.right.new }
    ensures over_parts { (C : Change) (a b : Step) (s : ChangeSides) → ObeysChangeRules C → ObeysStepRules a → ObeysStepRules b
        → IsOverParts C a b (Ok s) → AreOfOneCommit s.left s.right }
    ensures parts_over { (C K : Change) (S : Step) (s : ChangeSides) → ObeysChangeRules C → ObeysChangeRules K → ObeysStepRules S
        → ArePartsOver C K S (Ok s) → AreOfOneCommit s.left s.right }
{
    stand_in_turn();
    stand_together();
    parts_stand();
}

/// For every three steps in normal form none of whose calls is refused, whether they stand over documents or not, both sides move the
/// same nodes: they take them from the same places, and put them at the same places. And they make the same cells.
pub fn sides_move_alike()
    ensures takes { (a b c : Step) (s : StepSides) (n : NodeId) (p : Spot) → ObeysStepRules a → ObeysStepRules b → ObeysStepRules c
        → IsAssociative a b c (Ok s) → TakesFrom s.left n p ↔ TakesFrom s.right n p }
    ensures puts { (a b c : Step) (s : StepSides) (n : NodeId) (p : Spot) → ObeysStepRules a → ObeysStepRules b → ObeysStepRules c
        → IsAssociative a b c (Ok s) → PutsAt s.left n p ↔ PutsAt s.right n p }
    ensures cells { (a b c : Step) (s : StepSides) (n : NodeId) (k : CellId) → ObeysStepRules a → ObeysStepRules b → ObeysStepRules c
        → IsAssociative a b c (Ok s) → MakesCell s.left n k ↔ MakesCell s.right n k }
{
    stand_in_turn();
}
