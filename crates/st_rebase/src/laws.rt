//! Laws on whole changes over a step: each is the contract of a function that does nothing.
ghost use Rattle.std.specs.Prelude.{List as Seq};
ghost use Rattle.st_ids.specs.declared.names.NodeId.{NodeId};
ghost use Rattle.st_kind.specs.Named.{Nodes};
ghost use Rattle.st_marks.specs.declared.changes.Change.{Change};
ghost use Rattle.st_marks.specs.declared.intents.Intent.{Intent};
ghost use Rattle.st_marks.specs.declared.steps.Step.{Step};
ghost use Rattle.st_marks.specs.Document.{Document};
ghost use Rattle.st_marks.specs.Embedding.{IsEmbedding};
ghost use Rattle.st_marks.specs.Extends.{IsExtendedBy};
ghost use Rattle.st_marks.specs.Intent.{Fits};
ghost use Rattle.st_marks.specs.Step.{IsStep};
ghost use Rattle.st_rows.specs.Sequence.{ListsNew};
ghost use Rattle.st_moves.specs.Between.{between};
ghost use Rattle.st_puts.specs.Mentions.{AreMentions};
ghost use Rattle.st_moves.specs.Changes.{IsCarriedBy};
ghost use Rattle.st_rebase.specs.Changes.{IsRebasedFrom};

/// The change in the document between, with each of its fields as its kind's law says over what is left of the step, is the
/// change in the later document.
pub fn changes_are_rebased_from_between()
    ensures { (D E : Document) (N : Intent) (X Y : Change) (S : Step) (m : Nodes) (new : Seq NodeId)
        → IsExtendedBy D E → Fits D N → Fits E N → AreMentions E N m → ListsNew N new
        → IsStep D E S → IsEmbedding (between m D E) N X → IsRebasedFrom X E N S m new Y
        → IsEmbedding E N Y }
{}

/// The rebase of a whole change: laid beside a step, and then with each of its fields over what is left of the step, the
/// change of an intent in the earlier document is the change of that intent in the later one.
pub fn changes_are_rebased()
    ensures { (D E : Document) (N : Intent) (C X Y : Change) (S : Step) (m : Nodes) (new : Seq NodeId)
        → IsExtendedBy D E → Fits D N → Fits E N → AreMentions E N m → ListsNew N new
        → (change : IsEmbedding D N C) → (step : IsStep D E S)
        → IsCarriedBy change step m X → IsRebasedFrom X E N S m new Y
        → IsEmbedding E N Y }
{}
