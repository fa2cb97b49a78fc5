//! Laws on changes of parts of a commit: each is the contract of a function that does nothing.
ghost use Rattle.std.specs.Prelude.{◌≡◌, ◌≢◌, ◌↔◌, true, false, MatchOption, List, None, Option};
ghost use Rattle.st_ids.specs.declared.names.NodeId.{NodeId};
ghost use Rattle.st_kind.specs.Named.{Nodes};
ghost use Rattle.st_marks.specs.declared.changes.Change.{Change};
ghost use Rattle.st_marks.specs.declared.intents.Intent.{Intent};
ghost use Rattle.st_marks.specs.CarryOut.{full};
ghost use Rattle.st_marks.specs.Document.{Document, HasShortRows, IsSoundInForm};
ghost use Rattle.st_marks.specs.Embedding.{IsEmbedding, IsMentionedByIntent, row_marks, tells};
ghost use Rattle.st_marks.specs.Join.{AreParts, IsJoin};
ghost use Rattle.st_marks.specs.Row.{RowPart, embed_row, merge};
ghost use Rattle.st_marks.specs.Verdict.{IsAboveItself};
ghost use Rattle.st_marks.specs.declared.intents.To.{To};
ghost use Rattle.st_parts.specs.Joined.{row_joined};
ghost use Rattle.st_parts.specs.JoinedParts.{IsOfParts, TellsParts, named_by_parts};
ghost use Rattle.st_marks.specs.declared.marks.RowMarks.{RowMarks};
ghost use Rattle.st_marks.specs.declared.places.Slot.{Slot};
ghost use Rattle.st_rows.specs.Changes.{AreJoined, StandsIn, carried_row};
ghost use Rattle.std.specs.List.{list_any};
ghost use Rattle.st_parts.specs.TrimmedChange.{IsChangeTrimmedTo, ListsChange};

/// A listing of a change that names more than is asked, with the nodes that the intent mentions alone named, is the change.
pub fn trimmed_changes_are_changes()
    ensures { (D : Document) (N : Intent) (K k : Nodes) (G T : Change) → IsSoundInForm D → ListsChange D N K G
        → ((n : NodeId) → (k n ≡ true) ↔ IsMentionedByIntent D N n) → IsChangeTrimmedTo k G T → IsEmbedding D N T }
{}

/// What two parts of one commit say of a row, listed together, lists the row's change by both as one, where the row is listed by
/// both, by one of them or by none.
pub fn rows_of_parts_are_listed()
    ensures { (p q j : RowPart) (c : List Slot) (n : NodeId) → AreJoined p q c j
        → ((n : NodeId) → StandsIn n c → p.target_of n ≢ None → p.mentioned n ≡ true)
        → ((n : NodeId) → StandsIn n (carried_row p c) → q.target_of n ≢ None → q.mentioned n ≡ true)
        → (a b : Option RowMarks) → row_marks n (embed_row p c) ≡ a → row_marks n (embed_row q (carried_row p c)) ≡ b
        → MatchOption (row_joined n a b) (list_any tells (embed_row j c) ≡ false) (λ r. r.marks ≡ merge (embed_row j c)) }
{}

/// What two parts of one commit say of each name, told together, lists the change of both as one, with all that the first part
/// mentions, and all that the second mentions and that was there before. Registers are told by where both together put nodes: who
/// is evicted may be put elsewhere, and who is put may be put again.
pub fn parts_are_listed()
    ensures { (D : Document) (N M J : Intent) (C X G : Change) (new known : Nodes) (goes : NodeId → Option To)
        → IsSoundInForm D → AreParts D N M → ((n : NodeId) → IsAboveItself D N n → ⊥) → IsJoin N M J → HasShortRows (full D N)
        → (first : IsEmbedding D N C) → (second : IsEmbedding (full D N) M X)
        → TellsParts D N M first.mentioned second.mentioned new known goes → IsOfParts C X G new known goes
        → ListsChange D J (named_by_parts D first.mentioned second.mentioned) G }
{}
