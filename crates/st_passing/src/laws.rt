//! Laws on changes and steps that pass each other: each is the contract of a function that does nothing.
ghost use Rattle.std.specs.Prelude.{Bool, ℕ, ◌≡◌, ◌≢◌, ◌↔◌, ◌&&◌, ◌+◌, [], List as Seq, Option, Some, false, true, length, map};
ghost use Rattle.st_marks.specs.declared.changes.Change.{Change};
ghost use Rattle.st_marks.specs.declared.intents.Intent.{Intent};
ghost use Rattle.st_marks.specs.declared.steps.Step.{Step};
ghost use Rattle.st_marks.specs.Document.{Document, content};
ghost use Rattle.st_marks.specs.Embedding.{IsEmbedding, IsMentionedByIntent, row_part};
ghost use Rattle.st_marks.specs.Extends.{GainsItems, IsExtendedBy};
ghost use Rattle.st_marks.specs.Intent.{Fits, put_of};
ghost use Rattle.st_marks.specs.Listings.{cells_before, cells_made};
ghost use Rattle.st_marks.specs.Step.{IsStep};
ghost use Rattle.st_ids.specs.declared.names.CellId.{CellId};
ghost use Rattle.st_ids.specs.declared.names.FieldId.{FieldId};
ghost use Rattle.st_marks.specs.declared.places.Slot.{Slot};
ghost use Rattle.st_marks.specs.declared.places.Spot.{Spot};
ghost use Rattle.st_passing.specs.Staying.{IsLeft, MentionedStay};
ghost use Rattle.st_passing.specs.Whole.{LeavesMentioned};
ghost use Rattle.st_reading.specs.Pieces.{AreAlike};
ghost use Rattle.st_ids.specs.declared.names.NodeId.{NodeId};
ghost use Rattle.st_kind.specs.Named.{Nodes};
ghost use Rattle.st_marks.specs.declared.intents.To.{To};
ghost use Rattle.st_marks.specs.Row.{CellMark, Counted, Fill, RowPart, SameCell, Touch, counted_cells, embed_row, how, step_row};
ghost use Rattle.st_passing.specs.Passing.{AreAside, DoesNotMeet, raised, raised_beside, trimmed};
ghost use Rattle.st_marks.specs.declared.marks.How.{How};
ghost use Rattle.st_marks.specs.declared.marks.How.TheVariants.{Leave, Stay};
ghost use Rattle.st_rows.specs.Walks.{Both};
ghost use Rattle.st_reading.specs.Bridge.{crossed_piece, crossed_row};
ghost use Rattle.st_reading.specs.Over.{mentioning, over_piece, over_row};
ghost use Rattle.st_read_laws.specs.Reading.{read};

/// A change and a step of a row that don't meet: each says after the other what it said before, and counts what the other makes.
pub fn rows_pass()
    ensures over { (l : Bool) (t : NodeId → Option To) (m k : Nodes) (xs ys : Seq CellMark) → DoesNotMeet l xs ys → AreAside t m k xs ys
        → over_row l t m xs ys ≡ map (read l) (raised xs ys) }
    ensures crossed { (l v : Bool) (t : NodeId → Option To) (m k placed : Nodes) (xs ys : Seq CellMark) → DoesNotMeet l xs ys → AreAside t m k xs ys → (v && l) ≡ false
        → map (trimmed k) (crossed_row l v v placed t xs ys) ≡ map (read l) (raised_beside xs ys) }
{}

/// Over documents: where the rows of what shows a change and of what shows a step don't meet, the change's row with raised counts
/// is the row of its intent in the later document.
pub fn document_rows_pass()
    ensures { (l : Bool) (D E : Document) (N : Intent) (C : Change) (S : Step) (m k : Nodes) (n : NodeId) (xs ys : Seq CellMark)
        → IsExtendedBy D E → Fits D N → Fits E N → (change : IsEmbedding D N C) → (step : IsStep D E S)
        → ((i : NodeId) → (m i ≡ true) ↔ IsMentionedByIntent E N i)
        → AreAlike l xs (embed_row (row_part change.mentioned N n) (content D n)) → AreAlike l ys (step_row step.mentioned (step.grows n))
        → DoesNotMeet l xs ys → AreAside (put_of N) m k xs ys
        → map (read l) (raised xs ys) ≡ map (read l) (embed_row (row_part m N n) (content E n)) }
{}

/// A row that the other side doesn't list, and so counts whole, is met by nothing: the change's stays as it is, and so does the step's.
pub fn silent_rows_pass()
    ensures change { (k : ℕ) (xs : Seq CellMark) → length (cells_before xs) ≡ k → raised xs (counted_cells k []) ≡ xs }
    ensures step { (k : ℕ) (ys : Seq CellMark) → length (cells_before ys) ≡ k → raised_beside (counted_cells k []) ys ≡ ys }
    ensures counts { (k : ℕ) (ys : Seq CellMark) → length (cells_before ys) ≡ k
        → raised (counted_cells k []) ys ≡ counted_cells (k + length (cells_made ys)) [] }
{}

/// An intent mentions the same in a later document, where the step moves none of the nodes that it mentions.
pub fn mentions_stay()
    ensures { (D E : Document) (N : Intent) (n : NodeId) → IsExtendedBy D E → Fits D N → Fits E N → LeavesMentioned D E N
        → IsMentionedByIntent E N n ↔ IsMentionedByIntent D N n }
{}

/// Where a change's row and a step's don't meet, a mentioned node that stands in the row stays in its cell; and none that the step
/// names is taken out by the change.
pub fn rows_that_pass_stay()
    ensures row { (p : RowPart) (named : Nodes) (c d : Seq Slot) (g : GainsItems SameCell c d) (z : CellId)
        → DoesNotMeet false (map (read false) (embed_row p c)) (map (read false) (step_row named g)) → MentionedStay p named g }
    ensures documents { (D E : Document) (N : Intent) (C : Change) (S : Step) (n k : NodeId) (a : CellId)
        → IsExtendedBy D E → (change : IsEmbedding D N C) → (step : IsStep D E S)
        → DoesNotMeet false (map (read false) (embed_row (row_part change.mentioned N n) (content D n))) (map (read false) (step_row step.mentioned (step.grows n)))
        → IsMentionedByIntent D N k → D.place k ≡ Spot.Row n a → E.place k ≡ Spot.Row n a }
    ensures whole { (D E : Document) (N : Intent) (C : Change) (S : Step)
        → IsExtendedBy D E → (change : IsEmbedding D N C) → (step : IsStep D E S)
        → ((n : NodeId) → DoesNotMeet false (map (read false) (embed_row (row_part change.mentioned N n) (content D n))) (map (read false) (step_row step.mentioned (step.grows n))))
        → ((f : FieldId) (k : NodeId) → D.held f ≡ Some k → IsMentionedByIntent D N k → E.held f ≡ Some k)
        → ((k : NodeId) → D.place k ≡ Spot.Nowhere → IsMentionedByIntent D N k → E.place k ≡ Spot.Nowhere)
        → LeavesMentioned D E N }
{}

/// The same over documents, where the step moves none of the nodes that the intent mentions.
pub fn document_rows_left_are_raised()
    ensures { (D E : Document) (N : Intent) (C : Change) (S : Step) (m : Nodes) (n : NodeId) (xs ys : Seq CellMark)
        → IsExtendedBy D E → Fits D N → Fits E N → LeavesMentioned D E N → (change : IsEmbedding D N C) → (step : IsStep D E S)
        → ((i : NodeId) → (m i ≡ true) ↔ IsMentionedByIntent E N i)
        → AreAlike false xs (embed_row (row_part change.mentioned N n) (content D n)) → AreAlike false ys (step_row step.mentioned (step.grows n))
        → map (read false) (raised xs ys) ≡ map (read false) (embed_row (row_part m N n) (content E n)) }
{}

/// A change's row, where the step moves nothing of it: with raised counts it is the row of the same part after the step.
pub fn rows_left_are_raised()
    ensures { (p : RowPart) (m named : Nodes) (c d : Seq Slot) (g : GainsItems SameCell c d) (xs ys : Seq CellMark)
        → IsLeft p m g → AreAlike false xs (embed_row p c) → AreAlike false ys (step_row named g)
        → map (read false) (raised xs ys) ≡ map (read false) (embed_row (mentioning m p) d) }
{}

/// Where both say more of a cell than that its node stays, one of them says something else after the other: the step takes out what
/// the change names, both fill it, or the change takes out what the step names.
pub fn cells_that_meet_differ()
    ensures taken { (t : NodeId → Option To) (m : Nodes) (c : CellId) (n : NodeId) (h : How) → over_piece false t m (Both (Touch c n h) (Touch c n Leave)) ≢ Touch c n h }
    ensures filled { (t : NodeId → Option To) (m : Nodes) (c : CellId) (n : NodeId) → over_piece false t m (Both (Fill c n) (Fill c n)) ≢ Fill c n }
    ensures gone { (t : NodeId → Option To) (placed : Nodes) (c : CellId) (n : NodeId) → how (t n) (To.Cell c) ≡ Leave
        → read false (crossed_piece false false placed t (Both (Touch c n Leave) (Touch c n Stay))) ≡ Counted }
{}
