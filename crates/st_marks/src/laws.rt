//! Laws about documents: each is the contract of a function that does nothing.

ghost use Rattle.std.specs.Prelude.{◌≡◌, ◌≢◌, ◌++◌, ℕ, Bool, List, None, IsSome, IsTrue, IfSome};
ghost use Rattle.serde_json.specs.Data.{Data};
ghost use Rattle.std.specs.List.{AllByRecursion};
ghost use Rattle.st_ids.specs.declared.names.CellId.{CellId};
ghost use Rattle.st_ids.specs.declared.names.NodeId.{NodeId};
ghost use Rattle.st_ids.specs.declared.names.Rev.{Rev};
ghost use Rattle.st_marks.specs.declared.intents.Intent.{Intent};
ghost use Rattle.st_marks.specs.declared.intents.Owned.{Owned};
ghost use Rattle.st_marks.specs.declared.schemas.SchemaEntry.{SchemaEntry};
ghost use Rattle.st_marks.specs.declared.verdicts.Verdict.{Verdict};
ghost use Rattle.st_marks.specs.Document.{Document, IsSoundInForm, HasShortRows};
ghost use Rattle.st_marks.specs.Extends.{GainsItems, IsExtendedBy};
ghost use Rattle.st_marks.specs.Intent.{Fits, is_new, new_row_of};
ghost use Rattle.st_marks.specs.CarryOut.{full, void};
ghost use Rattle.st_marks.specs.Verdict.{IsVerdict, IsAboveItself, carried_document};
ghost use Rattle.st_marks.specs.Back.{IsBack, retreat};
ghost use Rattle.st_marks.specs.Join.{AreParts, IsJoin};
ghost use Rattle.st_marks.specs.LiveTree.{Shows, IsTreeText};
ghost use Rattle.st_marks.specs.Run.{Run, FitsInTurn};

/// An intent that fits a sound document leaves one that is sound and extends it: carried out whole where it makes no
/// ring, void always, and so whatever its verdict is.
pub fn carrying_out_extends()
    ensures whole { (D : Document) (N : Intent) → IsSoundInForm D → Fits D N → HasShortRows (full D N)
        → ((n : NodeId) → IsAboveItself D N n → ⊥) → IsExtendedBy D (full D N) }
    ensures void { (D : Document) (N : Intent) → IsSoundInForm D → Fits D N → HasShortRows (full D N) → IsExtendedBy D (void D N) }
    ensures carried { (D : Document) (N : Intent) (v : Verdict) → IsSoundInForm D → Fits D N → HasShortRows (full D N)
        → IsVerdict D N v → IsExtendedBy D (carried_document v D N) }
{}

/// New cells come between the old ones of a row, which keep their order.
pub fn rows_keep_their_order()
    ensures { (D : Document) (N : Intent) (n : NodeId) → GainsItems (λ (o p : Owned). o ≡ p) (D.rows n) ((full D N).rows n) }
{}

/// A sound document extends itself, and what extends a document that extends another extends that one.
pub fn extends_in_turn()
    ensures itself { (D : Document) → IsSoundInForm D → IsExtendedBy D D }
    ensures on { (D E F : Document) → IsExtendedBy D E → IsExtendedBy E F → IsExtendedBy D F }
{}

/// An intent has one verdict in a document, and so there is one document after it.
pub fn one_verdict()
    ensures verdict { (D : Document) (N : Intent) (v w : Verdict) → IsVerdict D N v → IsVerdict D N w → v ≡ w }
    ensures carried { (D : Document) (N : Intent) (v w : Verdict) → IsVerdict D N v → IsVerdict D N w → carried_document v D N ≡ carried_document w D N }
{}

/// A list of intents leads to one document, which extends the one before. The document of each front of the list is
/// on the way, and the whole extends it.
pub fn run_in_turn()
    ensures one { (D E F : Document) (Ns : List Intent) → Run D Ns E → Run D Ns F → E ≡ F }
    ensures extends { (D E : Document) (Ns : List Intent) (r : Run D Ns E) → IsSoundInForm D → FitsInTurn r → IsExtendedBy D E }
    ensures front { (D F : Document) (Ns Ms : List Intent) (r : Run D (Ns ++ Ms) F) → IsSoundInForm D → FitsInTurn r
        → (E : Document) × Run D Ns E × Run E Ms F × IsExtendedBy D E × IsExtendedBy E F }
    ensures then { (D E F : Document) (Ns Ms : List Intent) → Run D Ns E → Run E Ms F → Run D (Ns ++ Ms) F }
{}

/// An intent that fits a document fits each one that extends it and has none of the names that the intent makes (for a
/// change of schema: not its revision).
pub fn fits_later()
    ensures { (D E : Document) (N : Intent) → IsExtendedBy D E → Fits D N
        → ((n : NodeId) → IsTrue (is_new N n) → E.nodes n ≡ None)
        → ((c : CellId) → IsSome (new_row_of N c) → E.row_of c ≡ None)
        → IfSome N.schema (λ _. AllByRecursion (λ (e : SchemaEntry). e.rev ≢ N.rev) E.schemas)
        → Fits E N }
{}

/// The retreat from a document to one that it extends is sound, and extends the later one.
pub fn retreat_extends()
    ensures { (D E : Document) → IsExtendedBy D E → IsExtendedBy E (retreat D E) }
{}

/// The intent that leads back fits the later document. Carried out there, it leads to the retreat, but for the schemas,
/// which stay.
pub fn back_leads_back()
    ensures fits { (D E : Document) (rev under : Rev) (B : Intent) → IsExtendedBy D E → IsBack D E rev under B → Fits E B }
    ensures leads { (D E : Document) (rev under : Rev) (B : Intent) → IsExtendedBy D E → IsBack D E rev under B
        → full E B ≡ record (retreat D E) { schemas = E.schemas } }
{}

/// Two parts of a commit, joined, are carried out as the one after the other.
pub fn joined_in_turn()
    ensures { (D : Document) (N M J : Intent) → IsSoundInForm D → AreParts D N M → IsJoin N M J → full D J ≡ full (full D N) M }
{}

/// A document shows one tree, and one text of it.
pub fn one_tree()
    ensures tree { (is_array : List ℕ → Bool) (D : Document) (n : NodeId) (t u : Data) → Shows is_array D n t → Shows is_array D n u → t ≡ u }
    ensures text { (is_array : List ℕ → Bool) (D : Document) (t u : List ℕ) → IsTreeText is_array D t → IsTreeText is_array D u → t ≡ u }
{}
