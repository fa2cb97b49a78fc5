//! A law on whole changes: it is the contract of a function that does nothing.
ghost use Rattle.st_marks.specs.declared.changes.Change.{Change};
ghost use Rattle.st_marks.specs.declared.intents.Intent.{Intent};
ghost use Rattle.st_marks.specs.CarryOut.{full};
ghost use Rattle.st_marks.specs.Document.{Document, HasShortRows};
ghost use Rattle.st_marks.specs.Embedding.{IsEmbedding};
ghost use Rattle.st_effect.specs.Short.{HasShortRowsListed};

/// The change of an intent lists few enough cells of each row, if the intent leaves rows short where the change stands: of a
/// row that it lists, its cells are those that the row has after the intent.
pub fn changes_have_short_rows()
    ensures { (D : Document) (N : Intent) (C : Change) → HasShortRows (full D N) → IsEmbedding D N C → HasShortRowsListed C }
{}
