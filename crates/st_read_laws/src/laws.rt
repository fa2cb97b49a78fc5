//! Laws on how empty cells are read: each is the contract of a function that does nothing.
ghost use Rattle.std.specs.Prelude.{Bool, ◌≡◌, ◌↔◌, true, false};
ghost use Rattle.st_marks.specs.declared.changes.Change.{Change};
ghost use Rattle.st_marks.specs.declared.intents.Intent.{Intent};
ghost use Rattle.st_marks.specs.declared.steps.Step.{Step};
ghost use Rattle.st_marks.specs.Document.{Document, IsSoundInForm};
ghost use Rattle.st_marks.specs.Embedding.{IsEmbedding};
ghost use Rattle.st_marks.specs.Step.{IsStep};
ghost use Rattle.st_read_laws.specs.Reading.{IsRead, IsStepRead, read_change, read_step};

/// What was read so, and is read so again, stays as it is.
pub fn reading_again_tells_no_more()
    ensures change { (l : Bool) (C : Change) → read_change l (read_change l C) ≡ read_change l C }
    ensures step { (l : Bool) (S : Step) → read_step l (read_step l S) ≡ read_step l S }
{}

/// Counting the empty cells of what was read either way gives the change, or the step, with its empty cells counted.
pub fn read_ones_are_counted()
    ensures change { (l : Bool) (D : Document) (N : Intent) (C : Change)
        → IsRead l D N C → IsRead false D N (read_change false C) }
    ensures step { (l : Bool) (D E : Document) (S : Step)
        → IsStepRead l D E S → IsStepRead false D E (read_step false S) }
{}

/// With each empty cell named, what is read is the change of the intent itself, or the step.
pub fn listed_ones_are_whole()
    ensures change { (D : Document) (N : Intent) (C : Change) → IsRead true D N C ↔ IsEmbedding D N C }
    ensures step { (D E : Document) (S : Step) → IsStepRead true D E S ↔ IsStep D E S }
{}

/// An intent has one change in a document, and two documents have one step, however they are read.
pub fn one_is_read()
    ensures change { (l : Bool) (D : Document) (N : Intent) (C K : Change)
        → IsRead l D N C → IsRead l D N K → C ≡ K }
    ensures step { (l : Bool) (D E : Document) (S T : Step) → IsSoundInForm E
        → IsStepRead l D E S → IsStepRead l D E T → S ≡ T }
{}
