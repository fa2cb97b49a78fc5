//! Laws about what is remembered: each is the contract of a function that does nothing.
ghost use Rattle.std.specs.Prelude.{◌≡◌, ◌≢◌, ◌↔◌, ◌++◌, ◌∷◌, false, true, List, Some, IsSome, MatchOption, length, unwrap_or};
ghost use Rattle.st_ids.specs.Listing.{AreDistinct};
ghost use Rattle.st_ids.specs.Root.{opening};
ghost use Rattle.st_ids.specs.declared.names.FieldId.{FieldId};
ghost use Rattle.st_ids.specs.declared.names.NodeId.{NodeId};
ghost use Rattle.st_ids.specs.declared.names.Rev.{Rev};
ghost use Rattle.st_marks.specs.declared.intents.Intent.{Intent};
ghost use Rattle.st_marks.specs.declared.intents.Put.{Put};
ghost use Rattle.st_marks.specs.Back.{IsBack, place_back, to_of};
ghost use Rattle.st_marks.specs.CarryOut.{full};
ghost use Rattle.st_marks.specs.Document.{Document, IsSoundInForm, last_of, revs};
ghost use Rattle.st_marks.specs.Extends.{IsExtendedBy};
ghost use Rattle.st_marks.specs.Intent.{Fits, clears, put_of};
ghost use Rattle.st_marks.specs.Join.{AreParts};
ghost use Rattle.st_marks.specs.Run.{Run};
ghost use Rattle.st_log_laws.specs.Turns.{FitInTurn};
ghost use Rattle.st_heads.specs.declared.ways.Carried.{Carried};
ghost use Rattle.st_heads.specs.declared.ways.Way.{Way};
ghost use Rattle.st_heads.specs.Remembered.{AreCarried, intent_of_way};
ghost use Rattle.st_lists.specs.Open.{FitsSoFar, IsSoundPart};
ghost use Rattle.st_lists.specs.Undoing.{IsUndoing};

/// A remembered run is a run, and of each commit one thing is remembered. Two runs, one after the other, are one run of
/// both lists, and a run of two lists joined is one of each.
pub fn remembered_runs()
    ensures run { (D E : Document) (Ns : List Intent) (ks : List Carried) → AreCarried D Ns ks E → Run D Ns E }
    ensures as_many { (D E : Document) (Ns : List Intent) (ks : List Carried) → AreCarried D Ns ks E → length ks ≡ length Ns }
    ensures joined { (D E F : Document) (Ns Ms : List Intent) (ks ls : List Carried)
        → AreCarried D Ns ks E → AreCarried E Ms ls F → AreCarried D (Ns ++ Ms) (ks ++ ls) F }
    ensures parted { (D F : Document) (Ns Ms : List Intent) (ks ls : List Carried)
        → AreCarried D (Ns ++ Ms) (ks ++ ls) F → length ks ≡ length Ns → (E : Document) × AreCarried D Ns ks E × AreCarried E Ms ls F }
{}

/// Puts and clears that say of each name what the way back says, and that put each node once, are the way back.
pub fn ways_lead_back()
    ensures { (D E : Document) (w : Way) (rev under : Rev) → IsExtendedBy D E → AreDistinct (λ (q : Put). q.node) w.put
        → ((n : NodeId) → MatchOption (put_of (intent_of_way w rev under) n) (place_back D E n ≡ E.place n) (λ to. (place_back D E n ≢ E.place n) × (to ≡ to_of (place_back D E n))))
        → ((f : FieldId) → (clears (intent_of_way w rev under) f ≡ true) ↔ (IsSome (D.nodes f.node) × (D.held f ≢ E.held f)))
        → IsBack D E rev under (intent_of_way w rev under) }
{}

/// The way back that is remembered of a commit that was not void undoes it, under the schema that is in effect after the
/// whole list.
pub fn remembered_ways_undo()
    ensures { (O E : Document) (front rest : List Intent) (ks ls : List Carried) (N : Intent) (k : Carried) (fresh : Rev)
        → AreCarried O (front ++ N ∷ rest) (ks ++ k ∷ ls) E → length ks ≡ length front → k.void ≡ false
        → IsUndoing O (front ++ N ∷ rest) N.rev fresh (intent_of_way k.back fresh (unwrap_or (last_of (revs E.schemas)) opening)) }
{}

/// What undoes a commit of a list that fits in turn fits after the whole list.
pub fn undoings_fit()
    ensures { (O E : Document) (Ns : List Intent) (rev fresh : Rev) (B : Intent) → IsSoundInForm O → FitInTurn O Ns → Run O Ns E
        → IsUndoing O Ns rev fresh B → Fits E B }
{}

/// What was edited so far and a sound part, after which the document is sound in form, are parts of one commit.
pub fn edits_are_parts()
    ensures { (D : Document) (J M : Intent) → IsSoundInForm D → FitsSoFar D M.rev M.under (Some J) → IsSoundPart (full D J) M
        → IsSoundInForm (full (full D J) M) → AreParts D J M }
{}
