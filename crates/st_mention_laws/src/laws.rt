//! Laws on documents and those that extend them: each is the contract of a function that does nothing.
ghost use Rattle.std.specs.Prelude.{◌≡◌, ◌⊎◌, None, Some};
ghost use Rattle.st_ids.specs.declared.names.NodeId.{NodeId};
ghost use Rattle.st_marks.specs.declared.changes.Change.{Change};
ghost use Rattle.st_marks.specs.declared.intents.Intent.{Intent};
ghost use Rattle.st_marks.specs.declared.steps.Step.{Step};
ghost use Rattle.st_marks.specs.Document.{Document, above};
ghost use Rattle.st_marks.specs.Embedding.{IsEmbedding, IsMentionedByIntent, named_by_intent};
ghost use Rattle.st_marks.specs.Extends.{IsExtendedBy};
ghost use Rattle.st_marks.specs.Intent.{Fits};
ghost use Rattle.st_marks.specs.Step.{IsMentionedByStep, IsStep};
ghost use Rattle.st_mention_laws.specs.Shown.{Shows, ShowsStep, thin, thin_step};

/// An intent that fits a document and one that extends it names the same nodes in both, in the same order.
pub fn names_stay_the_same()
    ensures { (D E : Document) (N : Intent) → IsExtendedBy D E → Fits D N → Fits E N
        → named_by_intent E N ≡ named_by_intent D N }
{}

/// What an intent mentions in a later document it mentions in the earlier one, or the step names it, or it isn't there
/// earlier.
pub fn mentions_are_covered()
    ensures { (D E : Document) (N : Intent) (n : NodeId)
        → IsExtendedBy D E → Fits D N → Fits E N → IsMentionedByIntent E N n
        → IsMentionedByIntent D N n ⊎ IsMentionedByStep D E n ⊎ (D.nodes n ≡ None) }
{}

/// With each node that an intent mentions it mentions the one above.
pub fn mentions_are_closed()
    ensures { (D : Document) (N : Intent) (n p : NodeId)
        → above D n ≡ Some p → IsMentionedByIntent D N n → IsMentionedByIntent D N p }
{}

/// With each node that a step names or makes, it names or makes the one that is above it after the step.
pub fn names_of_steps_are_closed()
    ensures { (D E : Document) (n p : NodeId)
        → IsExtendedBy D E → above E n ≡ Some p → IsMentionedByStep D E n ⊎ (D.nodes n ≡ None)
        → IsMentionedByStep D E p ⊎ (D.nodes p ≡ None) }
{}

/// The change of an intent shows itself, and so it does with its empty cells counted.
pub fn embeddings_are_shown()
    ensures { (D : Document) (N : Intent) (C : Change) → IsEmbedding D N C → Shows D N C × Shows D N (thin C) }
{}

/// A step shows itself, and so it does with its empty cells counted.
pub fn steps_are_shown()
    ensures { (D E : Document) (S : Step) → IsStep D E S → ShowsStep D E S × ShowsStep D E (thin_step S) }
{}
