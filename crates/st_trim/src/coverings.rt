//! Laws on sets of nodes that have all that a step mentions: each is the contract of a function that does nothing.
ghost use Rattle.std.specs.Prelude.{◌&&◌, not};
ghost use Rattle.st_kind.specs.Named.{Nodes, either};
ghost use Rattle.st_marks.specs.declared.changes.Change.{Change};
ghost use Rattle.st_marks.specs.declared.intents.Intent.{Intent};
ghost use Rattle.st_marks.specs.declared.steps.Step.{Step};
ghost use Rattle.st_marks.specs.Back.{is_in, retreat};
ghost use Rattle.st_marks.specs.CarryOut.{full};
ghost use Rattle.st_marks.specs.Document.{Document, IsSoundInForm};
ghost use Rattle.st_marks.specs.Embedding.{IsEmbedding};
ghost use Rattle.st_marks.specs.Extends.{IsExtendedBy};
ghost use Rattle.st_marks.specs.Intent.{Fits};
ghost use Rattle.st_marks.specs.Step.{IsStep};
ghost use Rattle.st_trim.specs.Covers.{CoversStep};
ghost use Rattle.st_trim.specs.Evicted.{in_cleared};
ghost use Rattle.st_trim.specs.Trimmed.{AreMentionedByStep, IsTrimmedTo, ListsStep};

/// A listing of a step that names more than is asked, with the nodes that the step mentions alone named, is the step.
pub fn trimmed_listings_are_steps()
    ensures { (D E : Document) (K k : Nodes) (G T : Step)
        → ListsStep D E K G → AreMentionedByStep D E k → IsTrimmedTo k G T → IsStep D E T }
{}

/// What an intent mentions and whom it evicts has all that the step mentions from a document to the one after the intent.
pub fn effects_are_covered()
    ensures { (D : Document) (N : Intent) (C : Change) → IsSoundInForm D → Fits D N → (change : IsEmbedding D N C)
        → CoversStep D (full D N) (either change.mentioned (in_cleared D N)) }
{}

/// What the first of two steps in turn mentions, and what the second mentions and was there before, has all that the step
/// from the first document to the last mentions.
pub fn steps_in_turn_are_covered()
    ensures { (D E F : Document) (S T : Step) → IsExtendedBy D E → IsExtendedBy E F
        → (first : IsStep D E S) → (then : IsStep E F T)
        → CoversStep D F (either first.mentioned (λ n. then.mentioned n && is_in D n)) }
{}

/// What a step mentions and the nodes that are new after it have all that the step back mentions.
pub fn ways_back_are_covered()
    ensures { (D E : Document) (S : Step) → IsExtendedBy D E → (step : IsStep D E S)
        → CoversStep E (retreat D E) (either step.mentioned (λ n. not (is_in D n))) }
{}
