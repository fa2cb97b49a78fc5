//! Laws about lists of commits: each is the contract of a function that does nothing.
ghost use Rattle.std.specs.Prelude.{◌≡◌, ◌≢◌, IfSome, ◌≤◌, ℕ, ◌+◌, Bool, List, [], ◌∷◌, ◌++◌, length, filter, None, IsSome, IsTrue};
ghost use Rattle.std.specs.List.{AllByRecursion};
ghost use Rattle.st_ids.specs.Listing.{Has};
ghost use Rattle.st_ids.specs.declared.names.CellId.{CellId};
ghost use Rattle.st_ids.specs.declared.names.NodeId.{NodeId};
ghost use Rattle.st_ids.specs.declared.names.Rev.{Rev};
ghost use Rattle.st_marks.specs.declared.intents.Intent.{Intent};
ghost use Rattle.st_marks.specs.declared.schemas.SchemaEntry.{SchemaEntry};
ghost use Rattle.st_marks.specs.declared.verdicts.Verdict.{Verdict};
ghost use Rattle.st_marks.specs.Document.{Document, IsSoundInForm, HasShortRows};
ghost use Rattle.st_marks.specs.Extends.{IsExtendedBy};
ghost use Rattle.st_marks.specs.Intent.{Fits, is_new, new_row_of};
ghost use Rattle.st_marks.specs.CarryOut.{full};
ghost use Rattle.st_marks.specs.Verdict.{IsVerdict, carried_document};
ghost use Rattle.st_marks.specs.Run.{Run, FitsInTurn};
ghost use Rattle.st_log_laws.specs.Names.{HasNames, IsMadeUnder, HaveNewRevisions, revisions};
ghost use Rattle.st_log_laws.specs.Turns.{FitInTurn, IsSublist, HasRoom, cells_made};

/// In a sound document each intent has a verdict, and so a list of intents that fit in turn has a document after it.
pub fn each_has_a_verdict()
    ensures verdict { (D : Document) (N : Intent) → IsSoundInForm D → (v : Verdict) × IsVerdict D N v }
    ensures run { (D : Document) (Ns : List Intent) → IsSoundInForm D → FitInTurn D Ns → (E : Document) × Run D Ns E }
{}

/// Two lists, the one after the other, fit in turn exactly where the first does, and the second in each document that the
/// first leads to; there is one such document. It is sound, and extends the one before.
pub fn fit_in_turn()
    ensures front { (D : Document) (Ns Ms : List Intent) → FitInTurn D (Ns ++ Ms) → FitInTurn D Ns }
    ensures rest { (D E : Document) (Ns Ms : List Intent) → FitInTurn D (Ns ++ Ms) → Run D Ns E → FitInTurn E Ms }
    ensures then { (D : Document) (Ns Ms : List Intent) → FitInTurn D Ns → ((E : Document) → Run D Ns E → FitInTurn E Ms) → FitInTurn D (Ns ++ Ms) }
    ensures then_one { (D E : Document) (Ns Ms : List Intent) → FitInTurn D Ns → Run D Ns E → FitInTurn E Ms → FitInTurn D (Ns ++ Ms) }
    ensures run { (D E : Document) (Ns : List Intent) (r : Run D Ns E) → FitInTurn D Ns → FitsInTurn r }
    ensures one { (D : Document) (N : Intent) → IsSoundInForm D → Fits D N → HasRoom D (N ∷ []) → FitInTurn D (N ∷ []) }
    ensures extends { (D E : Document) (Ns : List Intent) → IsSoundInForm D → FitInTurn D Ns → Run D Ns E → IsExtendedBy D E }
{}

/// No name is lost, whatever the verdict.
pub fn names_stay()
    ensures itself { (D : Document) → HasNames D D }
    ensures on { (D E F : Document) → HasNames D E → HasNames E F → HasNames D F }
    ensures extended { (D E : Document) → IsExtendedBy D E → HasNames D E }
    ensures carried { (D : Document) (N : Intent) (v : Verdict) → HasNames D (carried_document v D N) }
    ensures run { (D E : Document) (Ns : List Intent) → Run D Ns E → HasNames D E }
{}

/// Names that are new are made under the revision of their intent.
pub fn made_under()
    ensures more { (rs ss : List Rev) (D : Document) → ((r : Rev) → Has rs r → Has ss r) → IsMadeUnder rs D → IsMadeUnder ss D }
    ensures carried { (rs : List Rev) (D : Document) (N : Intent) (v : Verdict) → Fits D N → IsMadeUnder rs D → IsMadeUnder (N.rev ∷ rs) (carried_document v D N) }
    ensures run { (rs : List Rev) (D E : Document) (Ns : List Intent) → FitInTurn D Ns → Run D Ns E → IsMadeUnder rs D → IsMadeUnder (revisions Ns ++ rs) E }
{}

/// An intent makes so many cells at most in a row, and so rows have room left for those of the intents after it.
pub fn rows_have_room()
    ensures row { (D : Document) (N : Intent) (v : Verdict) (n : NodeId) → IsSoundInForm D → Fits D N
        → length ((carried_document v D N).rows n) ≤ length (D.rows n) + cells_made (N ∷ []) }
    ensures short { (D : Document) (N : Intent) (Ns : List Intent) → IsSoundInForm D → Fits D N → HasRoom D (N ∷ Ns) → HasShortRows (full D N) }
    ensures carried { (D : Document) (N : Intent) (Ns : List Intent) (v : Verdict) → IsSoundInForm D → Fits D N → HasRoom D (N ∷ Ns) → HasRoom (carried_document v D N) Ns }
    ensures run { (D E : Document) (Ns Ms : List Intent) → IsSoundInForm D → FitInTurn D Ns → Run D Ns E → HasRoom D (Ns ++ Ms) → HasRoom E Ms }
{}

/// Sublists, and what a list that has room or new revisions says of its sublists and of its rest.
pub fn sublists()
    ensures itself { (As : List Intent) → IsSublist As As }
    ensures none { (As : List Intent) → IsSublist [] As }
    ensures on { (As Bs Cs : List Intent) → IsSublist As Bs → IsSublist Bs Cs → IsSublist As Cs }
    ensures joined { (As Bs Cs Ds : List Intent) → IsSublist As Bs → IsSublist Cs Ds → IsSublist (As ++ Cs) (Bs ++ Ds) }
    ensures filtered { (p : Intent → Bool) (As : List Intent) → IsSublist (filter p As) As }
    ensures room { (D : Document) (As Bs : List Intent) → IsSublist As Bs → HasRoom D Bs → HasRoom D As }
    ensures new { (rs : List Rev) (As Bs : List Intent) → IsSublist As Bs → HaveNewRevisions rs Bs → HaveNewRevisions rs As }
    ensures new_rest { (rs : List Rev) (As Bs : List Intent) → HaveNewRevisions rs (As ++ Bs) → HaveNewRevisions (revisions As ++ rs) Bs }
{}

/// An intent, and a list of intents, that fit a document fit each other one that has its names, and none that they make.
/// After the intent there, all names are there that are after it here.
pub fn fit_beside()
    ensures fresh { (D E : Document) (N : Intent) → HasNames D E → IsSoundInForm D → IsSoundInForm E → Fits D N
        → ((n : NodeId) → IsTrue (is_new N n) → E.nodes n ≡ None) → ((c : CellId) → IsSome (new_row_of N c) → E.row_of c ≡ None)
        → IfSome N.schema (λ _. AllByRecursion (λ (e : SchemaEntry). e.rev ≢ N.rev) E.schemas) → Fits E N }
    ensures one { (rs : List Rev) (D E : Document) (N : Intent) → HasNames D E → IsSoundInForm D → IsSoundInForm E → Fits D N
        → IsMadeUnder rs E → (Has rs N.rev → ⊥) → Fits E N }
    ensures names { (D E : Document) (N : Intent) (v w : Verdict) → HasNames D E → Fits E N → HasNames (carried_document v D N) (carried_document w E N) }
    ensures list { (rs : List Rev) (D E : Document) (Ns : List Intent) → HasNames D E → IsSoundInForm D → IsSoundInForm E → FitInTurn D Ns
        → IsMadeUnder rs E → HaveNewRevisions rs Ns → HasRoom E Ns → FitInTurn E Ns }
{}

/// Intents that fit in turn do so after another that fits: a commit is received before those that are pending.
pub fn another_first()
    ensures at_once { (rs : List Rev) (D : Document) (N : Intent) (Ns : List Intent) → IsSoundInForm D → IsMadeUnder rs D
        → FitInTurn D (N ∷ []) → FitInTurn D Ns → HaveNewRevisions rs (N ∷ Ns) → HasRoom D (N ∷ Ns) → FitInTurn D (N ∷ Ns) }
    ensures later { (rs : List Rev) (D : Document) (Ns : List Intent) (N : Intent) (Ms : List Intent) → IsSoundInForm D → IsMadeUnder rs D
        → FitInTurn D (Ns ++ N ∷ []) → FitInTurn D (Ns ++ Ms) → HaveNewRevisions rs (Ns ++ N ∷ Ms) → HasRoom D (Ns ++ N ∷ Ms) → FitInTurn D (Ns ++ N ∷ Ms) }
{}

/// An intent that fits after some intents fits after a longer list that has them in their order: what its author resolved
/// fits where it is received.
pub fn fit_later()
    ensures names { (D E F : Document) (As Bs : List Intent) → IsSublist As Bs → FitInTurn D Bs → Run D As E → Run D Bs F → HasNames E F }
    ensures fits { (rs : List Rev) (D E : Document) (As Bs : List Intent) (N : Intent) → IsSoundInForm D → IsMadeUnder rs D → IsSublist As Bs
        → FitInTurn D As → FitInTurn D Bs → Run D As E → Fits E N → (Has (revisions Bs ++ rs) N.rev → ⊥)
        → HasRoom D (Bs ++ N ∷ []) → FitInTurn D (Bs ++ N ∷ []) }
    ensures list { (rs : List Rev) (D : Document) (As Bs Ns : List Intent) → IsSoundInForm D → IsMadeUnder rs D → IsSublist As Bs
        → FitInTurn D (As ++ Ns) → FitInTurn D Bs → HaveNewRevisions rs (Bs ++ Ns) → HasRoom D (Bs ++ Ns) → FitInTurn D (Bs ++ Ns) }
{}
