//! Laws: each is the contract of a function that does nothing.
ghost use Rattle.std.specs.Prelude.{◌≡◌, ◌↔◌, Bool, List as Seq, map};
ghost use Rattle.st_ids.specs.declared.names.NodeId.{NodeId};
ghost use Rattle.st_marks.specs.declared.changes.Change.{Change};
ghost use Rattle.st_marks.specs.declared.places.Slot.{Slot};
ghost use Rattle.st_marks.specs.declared.steps.Step.{Step};
ghost use Rattle.st_marks.specs.Document.{Document, IsSoundInForm};
ghost use Rattle.st_marks.specs.Extends.{GainsItems, IsExtendedBy};
ghost use Rattle.st_marks.specs.Row.{SameCell, step_row};
ghost use Rattle.st_normal.specs.Rules.{ObeysChangeRules};
ghost use Rattle.st_puts.specs.Meant.{IsOver};
ghost use Rattle.st_read_laws.specs.Reading.{IsStepRead, read};
ghost use Rattle.st_author_laws.specs.Back.{IsOfAnIntent, IsOverBack, IsTakenBack, row_back};

/// The row from which a step leads is the one to which it leads, with what the step says of it taken back, read thin or not.
pub fn rows_are_taken_back()
    ensures { (l : Bool) (m : NodeId → Bool) (c d : Seq Slot) (g : GainsItems SameCell c d) → row_back d (map (read l) (step_row m g)) ≡ c }
{}

/// All that a change can find in a document is read off a step from it, thin or not, and the document to which the step leads.
pub fn steps_are_taken_back()
    ensures { (l : Bool) (A T : Document) (S : Step) → IsExtendedBy A T → IsStepRead l A T S → IsTakenBack S T A }
{}

/// A change in normal form is that of some intent which fits a document exactly where it finds there what is so.
pub fn changes_of_intents_are_over()
    ensures { (A : Document) (C : Change) → IsSoundInForm A → ObeysChangeRules C → IsOfAnIntent A C ↔ IsOver A C }
{}

/// It is judged without the document, by a step from it and the document to which the step leads: a message is in its author's
/// context exactly where this holds of the bridge and of the document of all commits received.
pub fn changes_are_judged_back()
    ensures { (l : Bool) (A T : Document) (S : Step) (C : Change) → IsExtendedBy A T → IsStepRead l A T S → ObeysChangeRules C
        → IsOfAnIntent A C ↔ IsOverBack S T C }
{}
