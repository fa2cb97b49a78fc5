//! Laws on steps over changes: each is the contract of a function that does nothing.
ghost use Rattle.std.specs.Prelude.{Bool, ◌≡◌, List as Seq, map, MatchOption, None, true};
ghost use Rattle.st_ids.specs.Listing.{item_of};
ghost use Rattle.st_ids.specs.Order.{field_cmp, node_cmp};
ghost use Rattle.st_ids.specs.declared.names.FieldId.{FieldId};
ghost use Rattle.st_ids.specs.declared.names.NodeId.{NodeId};
ghost use Rattle.st_kind.specs.Named.{named_beside};
ghost use Rattle.st_marks.specs.declared.changes.Change.{Change};
ghost use Rattle.st_marks.specs.declared.intents.Intent.{Intent};
ghost use Rattle.st_marks.specs.declared.marks.RegMark.{RegMark};
ghost use Rattle.st_marks.specs.declared.marks.RegStep.{RegStep};
ghost use Rattle.st_marks.specs.declared.marks.RowMarks.{RowMarks};
ghost use Rattle.st_marks.specs.declared.steps.Step.{Step};
ghost use Rattle.st_marks.specs.declared.verdicts.Verdict.{Verdict};
ghost use Rattle.st_marks.specs.CarryOut.{full};
ghost use Rattle.st_marks.specs.Document.{Document, HasShortRows, content};
ghost use Rattle.st_marks.specs.Embedding.{IsEmbedding, is_among, row_marks};
ghost use Rattle.st_marks.specs.Extends.{GainsItems, IsExtendedBy};
ghost use Rattle.st_marks.specs.Intent.{Fits, is_new, put_of};
ghost use Rattle.st_marks.specs.Register.{step_register};
ghost use Rattle.st_marks.specs.Row.{SameCell, step_row};
ghost use Rattle.st_marks.specs.Step.{IsStep};
ghost use Rattle.st_marks.specs.Listings.{nodes_new};
ghost use Rattle.st_marks.specs.Verdict.{IsVerdict, carried_document};
ghost use Rattle.st_read_laws.specs.Reading.{read, read_change, read_step};
ghost use Rattle.st_reading.specs.Bridge.{is_void};
ghost use Rattle.st_rows.specs.Changes.{placed_by};
ghost use Rattle.st_rows.specs.Rows.{NamesMoved};
ghost use Rattle.st_rows.specs.Sequence.{ListsNew};
ghost use Rattle.st_trim.specs.Covers.{CoversStep};
ghost use Rattle.st_trim.specs.Trimmed.{ListsStep};
ghost use Rattle.st_over.specs.Across.{register_across, row_across};
ghost use Rattle.st_cross_laws.specs.Crossed.{IsCrossed};
ghost use Rattle.st_cross_laws.specs.Named.{named_across};

/// What a change and a step that stand over one document list of a row, whether one of them lists it or not, comes to the row of the
/// step from the document after the change's intent to the later one after it, whatever the two verdicts are, with the nodes named
/// that either names.
pub fn rows_beside_are_crossed()
    ensures { (l : Bool) (D E : Document) (N : Intent) (C : Change) (S : Step) (new : Seq NodeId) (v u : Verdict) (n : NodeId)
        → IsExtendedBy D E → Fits D N → Fits E N → (change : IsEmbedding D N C) → (step : IsStep D E S) → ListsNew N new
        → (h : GainsItems SameCell (content (carried_document v D N) n) (content (carried_document u E N) n))
        × (row_across l (is_void v) (is_void u) (placed_by (is_new N n) new) (put_of N) n
        (item_of node_cmp (λ (r : RowMarks). r.node) (read_change l C).rows n)
        (item_of node_cmp (λ (r : RowMarks). r.node) (read_step l S).rows n)
        ≡ row_marks n (map (read l) (step_row (named_beside step.mentioned change.mentioned (is_among new) (is_void v) (is_void u)) h)))
        × NamesMoved (named_beside step.mentioned change.mentioned (is_among new) (is_void v) (is_void u)) h }
{}

/// What the two list of a register comes to who is in it in the document after the change's intent and in the later one after it;
/// of a register that neither lists, that step says nothing.
pub fn registers_beside_are_crossed()
    ensures { (D E : Document) (N : Intent) (C : Change) (S : Step) (new : Seq NodeId) (v u : Verdict) (f : FieldId)
        → IsExtendedBy D E → Fits D N → Fits E N → (change : IsEmbedding D N C) → (step : IsStep D E S) → ListsNew N new
        → MatchOption (register_across (is_void v) (is_void u) (is_new N) (put_of N) f
        (item_of field_cmp (λ (r : RegMark). r.field) C.regs f) (item_of field_cmp (λ (r : RegStep). r.field) S.regs f))
        (step_register f (named_beside step.mentioned change.mentioned (is_among new) (is_void v) (is_void u)) ((carried_document v D N).held f) ((carried_document u E N).held f) ≡ None)
        (λ r. r ≡ record { field = f; before = (carried_document v D N).held f; after = (carried_document u E N).held f }) }
{}

/// What the step says of each name after a change of data, told from what the two list, is the step from the document after the
/// change's intent to the later one after it, read so, with more nodes named than the step mentions: so trimmed it is that step.
pub fn steps_beside_are_crossed()
    ensures { (l : Bool) (D E : Document) (N : Intent) (C X : Change) (S G : Step) (v u : Verdict)
        → IsExtendedBy D E → Fits D N → Fits E N → HasShortRows (full D N) → HasShortRows (full E N) → N.schema ≡ None
        → IsVerdict D N v → IsVerdict E N u → (change : IsEmbedding D N C) → IsEmbedding E N X → (step : IsStep D E S)
        → IsCrossed l (is_void v) (is_void u) (put_of N) (read_change l C) (read_step l S) G
        → (W : Step) × ListsStep (carried_document v D N) (carried_document u E N)
        (named_across D N step.mentioned change.mentioned (is_among (nodes_new C.new)) (is_void v) (is_void u)) W
        × (G ≡ read_step l W) × (l ≡ true → G ≡ W) }
{}

/// What the step names after the change has all that differs between the two documents after the change, and all above it.
pub fn steps_over_changes_are_covered()
    ensures { (D E : Document) (N : Intent) (C X : Change) (S : Step) (v u : Verdict)
        → IsExtendedBy D E → Fits D N → Fits E N → IsExtendedBy D (carried_document v D N)
        → (change : IsEmbedding D N C) → IsEmbedding E N X → (step : IsStep D E S)
        → CoversStep (carried_document v D N) (carried_document u E N)
        (named_across D N step.mentioned change.mentioned (is_among (nodes_new C.new)) (is_void v) (is_void u)) }
{}
