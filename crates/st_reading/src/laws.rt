//! Laws on rows whose empty cells are counted: each is the contract of a function that does nothing.
ghost use Rattle.std.specs.Prelude.{Bool, ◌≡◌, ◌≢◌, ◌↔◌, true, false, None, map, List as Seq};
ghost use Rattle.st_ids.specs.declared.names.NodeId.{NodeId};
ghost use Rattle.st_marks.specs.declared.changes.Change.{Change};
ghost use Rattle.st_marks.specs.declared.intents.Intent.{Intent};
ghost use Rattle.st_marks.specs.declared.steps.Step.{Step};
ghost use Rattle.st_marks.specs.Document.{Document, content};
ghost use Rattle.st_marks.specs.Embedding.{IsEmbedding, IsMentionedByIntent, is_among, row_part};
ghost use Rattle.st_marks.specs.Intent.{Fits, is_new, put_of};
ghost use Rattle.st_marks.specs.Step.{IsStep};
ghost use Rattle.st_kind.specs.Named.{Nodes, named_beside};
ghost use Rattle.st_marks.specs.declared.places.Slot.{Slot};
ghost use Rattle.st_marks.specs.Extends.{GainsItems, IsExtendedBy};
ghost use Rattle.st_marks.specs.Row.{CellMark, RowPart, SameCell, embed_row, step_row};
ghost use Rattle.st_rows.specs.Changes.{AreOld, NoGroupAtGained, placed_by, row_after};
ghost use Rattle.st_rows.specs.Rows.{NamesMoved};
ghost use Rattle.st_reading.specs.Bridge.{crossed_row, is_void};
ghost use Rattle.st_rows.specs.Sequence.{ListsNew};
ghost use Rattle.st_marks.specs.declared.verdicts.Verdict.{Verdict};
ghost use Rattle.st_marks.specs.Verdict.{carried_document};
ghost use Rattle.st_rows.specs.Walks.{CellPiece, beside, in_turn};
ghost use Rattle.st_reading.specs.Over.{AreCovered, mentioning, over_row};
ghost use Rattle.st_reading.specs.Pieces.{AreAlike, IsBlind, read_piece};
ghost use Rattle.st_read_laws.specs.Reading.{read};

/// Two listings with their empty cells counted, laid over each other, are their pieces with empty cells counted. So a table that
/// reads no name of an empty cell makes the same of listings that are alike.
pub fn pieces_are_counted()
    ensures beside { (l : Bool) (xs ys : Seq CellMark) → beside (map (read l) xs) (map (read l) ys) ≡ map (read_piece l) (beside xs ys) }
    ensures in_turn { (l : Bool) (xs ys : Seq CellMark) → in_turn (map (read l) xs) (map (read l) ys) ≡ map (read_piece l) (in_turn xs ys) }
    ensures blind { (l : Bool) (f : CellPiece → CellMark) (xs ys us vs : Seq CellMark) → IsBlind l f → AreAlike l xs us → AreAlike l ys vs
        → map f (beside xs ys) ≡ map f (beside us vs) }
    ensures blind_in_turn { (l : Bool) (f : CellPiece → CellMark) (xs ys us vs : Seq CellMark) → IsBlind l f → AreAlike l xs us → AreAlike l ys vs
        → map f (in_turn xs ys) ≡ map f (in_turn us vs) }
{}

/// What a change says of a row after a step, with empty cells counted, is read off what the two say of the row before it: by where
/// the change puts nodes and which it mentions after the step.
pub fn rows_go_over()
    ensures { (l : Bool) (p : RowPart) (before named : Nodes) (c d : Seq Slot) (g : GainsItems SameCell c d)
        → NoGroupAtGained p g → AreCovered p.mentioned before named g
        → over_row l p.target_of p.mentioned (embed_row (mentioning before p) c) (step_row named g) ≡ map (read l) (embed_row p d) }
{}

/// The same of listings that are alike with those.
pub fn shown_rows_go_over()
    ensures { (l : Bool) (p : RowPart) (before named : Nodes) (c d : Seq Slot) (g : GainsItems SameCell c d) (xs ys : Seq CellMark)
        → NoGroupAtGained p g → AreCovered p.mentioned before named g
        → AreAlike l xs (embed_row (mentioning before p) c) → AreAlike l ys (step_row named g)
        → over_row l p.target_of p.mentioned xs ys ≡ map (read l) (embed_row p d) }
{}

/// The same over documents: what shows a change and what shows a step tell of each row, together, the row of the change's intent in
/// the later document, with empty cells counted.
pub fn document_rows_go_over()
    ensures { (l : Bool) (D E : Document) (N : Intent) (C : Change) (S : Step) (m : Nodes) (n : NodeId) (xs ys : Seq CellMark)
        → IsExtendedBy D E → Fits D N → Fits E N → (change : IsEmbedding D N C) → (step : IsStep D E S)
        → ((k : NodeId) → (m k ≡ true) ↔ IsMentionedByIntent E N k)
        → AreAlike l xs (embed_row (row_part change.mentioned N n) (content D n)) → AreAlike l ys (step_row step.mentioned (step.grows n))
        → over_row l (put_of N) m xs ys ≡ map (read l) (embed_row (row_part m N n) (content E n)) }
{}

/// What a step says of a row after a change that stands beside it, void before and after the step or not, is read off what the two
/// say of the row before: by where the change puts nodes. `makes` are the change's new nodes; a void one places some of them.
pub fn rows_are_crossed()
    ensures { (l was is : Bool) (p : RowPart) (m placed makes : Nodes) (c d : Seq Slot) (g : GainsItems SameCell c d)
        → ((n : NodeId) → makes n ≡ false → placed n ≡ false) → ((n : NodeId) → p.target_of n ≢ None → makes n ≡ false → p.mentioned n ≡ true)
        → NoGroupAtGained p g → AreOld makes c → AreOld makes d → NamesMoved m g
        → (h : GainsItems SameCell (row_after placed p was c) (row_after placed p is d))
        × (crossed_row l was is placed p.target_of (embed_row p c) (step_row m g) ≡ map (read l) (step_row (named_beside m p.mentioned makes was is) h))
        × NamesMoved (named_beside m p.mentioned makes was is) h }
{}

/// The same over documents: what shows a change and what shows a step tell of each row, together, the step from the document after
/// the change's intent to the later one after it, whatever the two verdicts are.
pub fn document_rows_are_crossed()
    ensures { (l : Bool) (D E : Document) (N : Intent) (C : Change) (S : Step) (new : Seq NodeId) (v u : Verdict) (n : NodeId) (xs ys : Seq CellMark)
        → IsExtendedBy D E → Fits D N → Fits E N → (change : IsEmbedding D N C) → (step : IsStep D E S) → ListsNew N new
        → AreAlike l xs (embed_row (row_part change.mentioned N n) (content D n)) → AreAlike l ys (step_row step.mentioned (step.grows n))
        → (h : GainsItems SameCell (content (carried_document v D N) n) (content (carried_document u E N) n))
        × (crossed_row l (is_void v) (is_void u) (placed_by (is_new N n) new) (put_of N) xs ys
        ≡ map (read l) (step_row (named_beside step.mentioned change.mentioned (is_among new) (is_void v) (is_void u)) h))
        × NamesMoved (named_beside step.mentioned change.mentioned (is_among new) (is_void v) (is_void u)) h }
{}
