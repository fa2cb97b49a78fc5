//! Laws about what is shown: each is the contract of a function that does nothing.
ghost use Rattle.std.specs.Prelude.{◌≡◌, ◌↔◌, ◌++◌, ◌∷◌, [], ℕ, Bool, true, List, Option, None, Some};
ghost use Rattle.serde_json.specs.Data.{Data};
ghost use Rattle.st_ids.specs.Listing.{AreDistinct, Has};
ghost use Rattle.st_ids.specs.Root.{root};
ghost use Rattle.st_ids.specs.declared.names.Rev.{Rev};
ghost use Rattle.st_marks.specs.declared.intents.Intent.{Intent};
ghost use Rattle.st_marks.specs.declared.verdicts.Verdict.{Verdict};
ghost use Rattle.st_marks.specs.Back.{IsBack};
ghost use Rattle.st_marks.specs.CarryOut.{full};
ghost use Rattle.st_marks.specs.Document.{Document, HasShortRows, IsSoundInForm, revs};
ghost use Rattle.st_marks.specs.Extends.{IsExtendedBy};
ghost use Rattle.st_marks.specs.Intent.{Fits};
ghost use Rattle.st_marks.specs.LiveTree.{IsTreeText, Shows};
ghost use Rattle.st_marks.specs.Run.{Run};
ghost use Rattle.st_marks.specs.Verdict.{IsVerdict, carried_document};
ghost use Rattle.st_tree.specs.declared.edit.Edit.{Edit};
ghost use Rattle.st_schema.specs.Schema.{SchemaView, is_sound};
ghost use Rattle.st_schema_laws.specs.Edited.{TellsRows};
ghost use Rattle.st_schema_laws.specs.Typed.{IsAsTyped};
ghost use Rattle.st_log_laws.specs.Turns.{FitInTurn};
ghost use Rattle.st_lists.specs.Open.{with_open};
ghost use Rattle.st_lists.specs.Undoing.{IsUndoing};
ghost use Rattle.st_line_laws.specs.Transaction.{AreEditedIn, tree_after_edits};

/// The way back from a document to an earlier one is sound where it comes directly, if it was made under a schema in
/// effect there, and leads to a document that shows the tree of the earlier one, and no other.
pub fn ways_back_are_seen()
    ensures verdict { (D E : Document) (rev under : Rev) (B : Intent) → IsExtendedBy D E → IsBack D E rev under B
        → Has (revs E.schemas) under → IsVerdict E B Verdict.Sound }
    ensures tree { (is_array : List ℕ → Bool) (D E : Document) (rev under : Rev) (B : Intent) (d : Data)
        → IsExtendedBy D E → IsBack D E rev under B → Shows is_array D root d ↔ Shows is_array (full E B) root d }
{}

/// Undoing a commit that was sound, directly after it, is sound, and shows the tree from before the commit.
pub fn undoing_is_seen()
    ensures verdict { (D : Document) (N B : Intent) (rev under : Rev)
        → IsSoundInForm D → Fits D N → HasShortRows (full D N) → IsVerdict D N Verdict.Sound
        → IsBack D (full D N) rev under B → Has (revs (full D N).schemas) under
        → IsVerdict (full D N) B Verdict.Sound }
    ensures tree { (is_array : List ℕ → Bool) (D : Document) (N B : Intent) (rev under : Rev) (text : List ℕ)
        → IsSoundInForm D → Fits D N → HasShortRows (full D N) → IsVerdict D N Verdict.Sound
        → IsBack D (full D N) rev under B
        → IsTreeText is_array D text ↔ IsTreeText is_array (full (full D N) B) text }
{}

/// Undoing the last commit of a list is sound, and what is shown after it is what the list shows without that commit. The
/// commits fit one after the other, and no two have one revision.
pub fn last_undoing_is_seen()
    ensures verdict { (O D E : Document) (Ns : List Intent) (N B : Intent) (fresh : Rev)
        → IsSoundInForm O → FitInTurn O (Ns ++ N ∷ []) → AreDistinct (λ (I : Intent). I.rev) (Ns ++ N ∷ [])
        → Run O Ns D → Run O (Ns ++ N ∷ []) E → IsUndoing O (Ns ++ N ∷ []) N.rev fresh B
        → IsVerdict E B Verdict.Sound }
    ensures text { (is_array : List ℕ → Bool) (O D F : Document) (Ns : List Intent) (N B : Intent) (fresh : Rev) (text : List ℕ)
        → IsSoundInForm O → FitInTurn O (Ns ++ N ∷ []) → AreDistinct (λ (I : Intent). I.rev) (Ns ++ N ∷ [])
        → Run O Ns D → IsUndoing O (Ns ++ N ∷ []) N.rev fresh B → Run O ((Ns ++ N ∷ []) ++ B ∷ []) F
        → IsTreeText is_array D text ↔ IsTreeText is_array F text }
{}

/// An open transaction shows the tree that its edits, one after the other, make of the tree of the line.
pub fn transactions_are_seen()
    ensures { (is_array : List ℕ → Bool) (D : Document) (s : SchemaView) (rev : Rev) (edits : List Edit) (joined : Option Intent) (d : Data)
        → IsSoundInForm D → is_sound s ≡ true → TellsRows is_array s → IsAsTyped is_array D
        → AreEditedIn D s rev None edits joined → Shows is_array D root d
        → Shows is_array (with_open D joined) root (tree_after_edits edits d) }
{}

/// What the edits of a transaction mean as one intent fits the line and is sound there, so that its commit leads to the
/// document that the open transaction shows.
pub fn transactions_are_sound()
    ensures fits { (D : Document) (s : SchemaView) (rev : Rev) (edits : List Edit) (K : Intent)
        → IsSoundInForm D → is_sound s ≡ true → AreEditedIn D s rev None edits (Some K) → Fits D K }
    ensures verdict { (D : Document) (s : SchemaView) (rev : Rev) (edits : List Edit) (K : Intent)
        → IsSoundInForm D → is_sound s ≡ true → AreEditedIn D s rev None edits (Some K) → IsVerdict D K Verdict.Sound }
    ensures carried { (D : Document) (s : SchemaView) (rev : Rev) (edits : List Edit) (K : Intent) (v : Verdict)
        → IsSoundInForm D → is_sound s ≡ true → AreEditedIn D s rev None edits (Some K) → IsVerdict D K v
        → carried_document v D K ≡ with_open D (Some K) }
{}
