//! Laws on the document between two, and on the room that rows have: each is the contract of a function that does nothing.
ghost use Rattle.std.specs.Prelude.{◌≡◌, ◌↔◌, true};
ghost use Rattle.st_ids.specs.declared.names.NodeId.{NodeId};
ghost use Rattle.st_kind.specs.Named.{Nodes};
ghost use Rattle.st_marks.specs.declared.changes.Change.{Change};
ghost use Rattle.st_marks.specs.declared.intents.Intent.{Intent};
ghost use Rattle.st_marks.specs.declared.steps.Step.{Step};
ghost use Rattle.st_marks.specs.CarryOut.{full};
ghost use Rattle.st_marks.specs.Document.{Document, HasShortRows, content};
ghost use Rattle.st_marks.specs.Embedding.{IsEmbedding, IsMentionedByIntent, row_part};
ghost use Rattle.st_marks.specs.Extends.{IsExtendedBy};
ghost use Rattle.st_marks.specs.Intent.{Fits, put_of};
ghost use Rattle.st_marks.specs.Row.{embed_row, step_row};
ghost use Rattle.st_marks.specs.Step.{IsStep};
ghost use Rattle.st_puts.specs.Mentions.{AreMentions};
ghost use Rattle.st_moves.specs.Between.{between};
ghost use Rattle.st_mention_laws.specs.Closed.{IsClosedIn};
ghost use Rattle.st_moves.specs.Changes.{IsCarriedBy};
ghost use Rattle.st_moves.specs.Carried.{carry_row};
ghost use Rattle.st_moves.specs.Room.{HasRoomInRows};

/// The document between extends the earlier one, and the later one extends it, where with each node that stands as later the
/// one above it stands as later.
pub fn between_stands_between()
    ensures earlier { (D E : Document) (m : Nodes) → IsExtendedBy D E → IsClosedIn E m → IsExtendedBy D (between m D E) }
    ensures later { (D E : Document) (m : Nodes) → IsExtendedBy D E → IsClosedIn E m → IsExtendedBy (between m D E) E }
{}

/// An intent that fits the earlier document and the later one fits the one between.
pub fn intents_fit_between()
    ensures { (D E : Document) (N : Intent) (m : Nodes) → Fits D N → Fits E N → Fits (between m D E) N }
{}

/// What a change says of a row in the document between is what it and the step say of that row in the earlier one, laid side
/// by side. As later stand the nodes that the intent mentions there.
pub fn rows_are_carried()
    ensures { (D E : Document) (N : Intent) (C : Change) (S : Step) (m : Nodes) (n : NodeId)
        → IsExtendedBy D E → Fits D N → Fits E N → (change : IsEmbedding D N C) → (step : IsStep D E S)
        → ((k : NodeId) → (m k ≡ true) ↔ IsMentionedByIntent E N k)
        → carry_row (put_of N) m (embed_row (row_part change.mentioned N n) (content D n)) (step_row step.mentioned (step.grows n))
        ≡ embed_row (row_part m N n) (content (between m D E) n) }
{}

/// A change laid beside a step, so that the nodes that its intent mentions later go where the step puts them, is the change
/// of that intent in the document between.
pub fn changes_are_carried()
    ensures { (D E : Document) (N : Intent) (C X : Change) (S : Step) (m : Nodes)
        → IsExtendedBy D E → Fits D N → Fits E N → AreMentions E N m
        → (change : IsEmbedding D N C) → (step : IsStep D E S) → IsCarriedBy change step m X
        → IsEmbedding (between m D E) N X }
{}

/// A change and a step that stand over one document have room together in each row, if the change's intent leaves rows short
/// in the document after the step: of a row the two list no more cells than it has there. Beside that nothing is asked of the
/// documents and the intent.
pub fn documents_have_room()
    ensures { (D E : Document) (N : Intent) (C : Change) (S : Step)
        → HasShortRows (full E N) → IsEmbedding D N C → IsStep D E S → HasRoomInRows C S }
{}
