//! What a row as a field has to do with the row of a document: each law is the contract of a function that does nothing.
ghost use Rattle.std.specs.Prelude.{◌≡◌, ◌<◌, ◌^◌, ◌||◌, length, true, false, IsSome, Some, None, List as Seq, if◌then◌else◌};
ghost use Rattle.std.specs.List.{list_any};
ghost use Rattle.st_ids.specs.Listing.{item_of};
ghost use Rattle.st_ids.specs.Order.{node_cmp};
ghost use Rattle.st_ids.specs.declared.names.NodeId.{NodeId};
ghost use Rattle.st_kind.specs.Named.{Nodes};
ghost use Rattle.st_marks.specs.declared.changes.Change.{Change};
ghost use Rattle.st_marks.specs.declared.intents.Intent.{Intent};
ghost use Rattle.st_marks.specs.Back.{retreat};
ghost use Rattle.st_marks.specs.CarryOut.{full, void};
ghost use Rattle.st_marks.specs.Document.{Document, HasShortRows, IsSoundInForm, content};
ghost use Rattle.st_marks.specs.Embedding.{IsEmbedding, IsMentionedByIntent, row_marks, tells};
ghost use Rattle.st_marks.specs.Extends.{GainsItems, IsExtendedBy};
ghost use Rattle.st_marks.specs.Intent.{Fits};
ghost use Rattle.st_marks.specs.Join.{AreParts, IsJoin};
ghost use Rattle.st_marks.specs.Row.{SameCell, embed_row, merge, spread, step_row};
ghost use Rattle.st_marks.specs.Listings.{nodes_new};
ghost use Rattle.st_marks.specs.Step.{IsMentionedByStep, IsStep};
ghost use Rattle.st_marks.specs.declared.marks.Mark.{Mark};
ghost use Rattle.st_marks.specs.declared.marks.RowMarks.{RowMarks};
ghost use Rattle.st_marks.specs.declared.places.Slot.{Slot};
ghost use Rattle.st_marks.specs.declared.steps.Step.{Step};
ghost use Rattle.st_rows.specs.Changes.{StandsIn};
ghost use Rattle.st_rows.specs.Existence.{HasChange, HasStep};
ghost use Rattle.st_rows.specs.Rows.{NamesMoved};
ghost use Rattle.st_rows.specs.Sequence.{RowPartsAreJoined, RowCanHold, RowFits, RowLeadsOver, ListsNew, SeqPart, row_carried, row_change_of, row_part_of, retreat_to};

/// The part of an intent that fits a sound document fits each of its rows, and what the row holds after the part is what it
/// holds in the document after the intent, whole or void. On the way back the row of a node that was there holds what stood in
/// it.
pub fn rows_are_of_documents()
    ensures fits { (D : Document) (N : Intent) (m : Nodes) (new : Seq NodeId) (n : NodeId) → IsSoundInForm D → Fits D N → ListsNew N new
        → ((k : NodeId) → IsMentionedByIntent D N k → m k ≡ true) → RowFits (row_part_of m new N n) (content D n) }
    ensures whole { (D : Document) (N : Intent) (m : Nodes) (new : Seq NodeId) (n : NodeId) → IsSoundInForm D → Fits D N
        → content (full D N) n ≡ row_carried (row_part_of m new N n) false (content D n) }
    ensures void { (D : Document) (N : Intent) (m : Nodes) (new : Seq NodeId) (n : NodeId) → IsSoundInForm D → Fits D N → ListsNew N new
        → content (void D N) n ≡ row_carried (row_part_of m new N n) true (content D n) }
    ensures back { (D E : Document) (n : NodeId) → IsExtendedBy D E → IsSome (D.nodes n) → content (retreat D E) n ≡ retreat_to (content D n) (content E n) }
{}

/// A whole change and a whole step list of a row what its change and its step say, where they list it. A whole step from one
/// document to another leads from each row to the row after it.
pub fn rows_are_listed()
    ensures change { (p : SeqPart) (c : Seq Slot) (n : NodeId) → row_marks n (embed_row p.part c)
        ≡ (if list_any tells (spread (row_change_of p c).marks) then Some (record { node = n; marks = (row_change_of p c).marks }) else None) }
    ensures step { (m : Nodes) (c d : Seq Slot) (marks : Seq Mark) (n : NodeId) → RowLeadsOver m c d marks → (g : GainsItems SameCell c d)
        → row_marks n (step_row m g) ≡ (if list_any tells (spread marks) then Some (record { node = n; marks = marks }) else None) }
    ensures document { (D E : Document) (S : Step) (n : NodeId) (s : IsStep D E S) → IsExtendedBy D E
        → RowLeadsOver s.mentioned (content D n) (content E n) (merge (step_row s.mentioned (s.grows n))) }
{}

/// A row of a document that is sound in form is what a row can hold.
pub fn rows_hold()
    ensures { (D : Document) (n : NodeId) → IsSoundInForm D → RowCanHold (content D n) }
{}

/// The part of the join of two intents is that of both parts in turn, where it mentions of the row's nodes those that either
/// mentions.
pub fn rows_are_joined()
    ensures { (D : Document) (N M J : Intent) (m k l : Nodes) (a b c : Seq NodeId) (n : NodeId) → IsSoundInForm D → AreParts D N M → IsJoin N M J
        → ListsNew N a → ListsNew M b → ListsNew J c → ((x : NodeId) → StandsIn x (content D n) → l x ≡ (m x || k x))
        → RowPartsAreJoined (row_part_of m a N n) (row_part_of k b M n) (content D n) (row_part_of l c J n) }
{}

/// A part that fits a row has a change there, if what it leads to is short enough for a row. So the part of an intent that fits
/// a sound document has one in each row; and a whole change lists of each row a change of the kind: that of the part.
pub fn rows_have_changes()
    ensures row { (p : SeqPart) (c : Seq Slot) → RowFits p c
        → length (row_carried p false c) < 2 ^ 32 → HasChange p c }
    ensures intent { (D : Document) (N : Intent) (m : Nodes) (new : Seq NodeId) (n : NodeId)
        → IsSoundInForm D → Fits D N → HasShortRows (full D N) → ListsNew N new
        → ((k : NodeId) → IsMentionedByIntent D N k → m k ≡ true)
        → HasChange (row_part_of m new N n) (content D n) }
    ensures listed { (D : Document) (N : Intent) (C : Change) (n : NodeId) (e : IsEmbedding D N C)
        → IsSoundInForm D → Fits D N → HasShortRows (full D N)
        → let p = row_part_of e.mentioned (nodes_new C.new) N n in
        RowFits p (content D n) × ((h : HasChange p (content D n))
        × (item_of node_cmp (λ (r : RowMarks). r.node) C.rows n
        ≡ row_marks n (spread h.change.marks))) }
{}

/// A step leads from a row to each that has all its cells, whichever nodes it names beside those that move. So one leads from
/// each row of a document to the row after it in each document that extends it; and a whole step lists of each row one.
pub fn rows_have_steps()
    ensures row { (m : Nodes) (c d : Seq Slot) (g : GainsItems SameCell c d)
        → RowCanHold c → RowCanHold d → NamesMoved m g → HasStep m c d }
    ensures documents { (D E : Document) (m : Nodes) (n : NodeId) → IsExtendedBy D E
        → ((k : NodeId) → IsMentionedByStep D E k → m k ≡ true)
        → HasStep m (content D n) (content E n) }
    ensures listed { (D E : Document) (S : Step) (n : NodeId) (s : IsStep D E S) → IsExtendedBy D E
        → (h : HasStep s.mentioned (content D n) (content E n))
        × (item_of node_cmp (λ (r : RowMarks). r.node) S.rows n
        ≡ row_marks n (spread h.step.marks)) }
{}
