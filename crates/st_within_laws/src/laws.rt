//! Laws on what can be told of intents, documents and changes: each is the contract of a function that does nothing.
ghost use Rattle.std.specs.Prelude.{◌+◌, ◌++◌, ◌<◌, ◌≤◌, ◌^◌, List, [], ◌∷◌, length};
ghost use Rattle.std.specs.List.{AllByRecursion};
ghost use Rattle.st_ids.specs.Listing.{Has};
ghost use Rattle.st_ids.specs.declared.names.Atom.{Atom};
ghost use Rattle.st_ids.specs.declared.names.NodeId.{NodeId};
ghost use Rattle.st_ids.specs.declared.names.Rev.{Rev};
ghost use Rattle.st_marks.specs.declared.changes.Change.{Change};
ghost use Rattle.st_marks.specs.declared.intents.Intent.{Intent};
ghost use Rattle.st_marks.specs.declared.verdicts.Verdict.{Verdict};
ghost use Rattle.st_marks.specs.CarryOut.{full};
ghost use Rattle.st_marks.specs.Document.{Document, HasShortRows, IsSoundInForm};
ghost use Rattle.st_marks.specs.Embedding.{IsEmbedding};
ghost use Rattle.st_marks.specs.Intent.{Fits, IsIntent};
ghost use Rattle.st_marks.specs.Run.{Run};
ghost use Rattle.st_marks.specs.Verdict.{carried_document};
ghost use Rattle.st_log_laws.specs.Names.{IsMadeUnder};
ghost use Rattle.st_log_laws.specs.Turns.{FitInTurn, cells_made};
ghost use Rattle.st_normal_texts.specs.NormalTexts.{IsNormalText};
ghost use Rattle.st_change_laws.specs.Within.{ChangeIsWithin, DocumentIsWithin, IntentIsWithin};

use crate::kinds::NameKind;

/// Intents that can be told, whose new names are of a kind, keep a document's names of that kind and
/// the keys of its registers short, whatever their verdicts.
pub fn documents_stay_within<K: NameKind>()
    ensures carried { (k : K) (D : Document) (N : Intent) (v : Verdict)
        → DocumentIsWithin (K.atoms k) D → IntentIsWithin (K.atoms k) N
        → DocumentIsWithin (K.atoms k) (carried_document v D N) }
    ensures run { (k : K) (D E : Document) (Ns : List Intent)
        → DocumentIsWithin (K.atoms k) D → AllByRecursion (IntentIsWithin (K.atoms k)) Ns → Run D Ns E
        → DocumentIsWithin (K.atoms k) E }
{}

/// The change of an intent that can be told, in a document whose names are of the kind, can be told:
/// where the intent fits, leaves rows short, has a revision of the kind, and was made under one.
pub fn changes_are_within<K: NameKind>()
    ensures { (k : K) (D : Document) (N : Intent) (C : Change)
        → IsSoundInForm D → DocumentIsWithin (K.atoms k) D → IntentIsWithin (K.atoms k) N
        → Fits D N → HasShortRows (full D N) → K.revs k N.rev → K.revs k N.under → IsEmbedding D N C
        → ChangeIsWithin (K.revs k) (K.atoms k) C }
{}

/// The names that an intent makes have its revision, and each name of a document has one under which
/// the document was made. So where these are of a kind, and with them each atom whose place is below
/// 2^32, names whose places are below 2^32 are of the kind.
pub fn intents_are_within_their_revision<K: NameKind>()
    ensures intent { (k : K) (N : Intent)
        → ((a : Atom) → K.revs k a.rev → a.at < 2 ^ 32 → K.atoms k a)
        → IsIntent N → K.revs k N.rev → IntentIsWithin (λ a. a.at < 2 ^ 32) N
        → IntentIsWithin (K.atoms k) N }
    ensures document { (k : K) (rs : List Rev) (D : Document)
        → ((a : Atom) → K.revs k a.rev → a.at < 2 ^ 32 → K.atoms k a)
        → ((r : Rev) → Has rs r → K.revs k r) → IsMadeUnder rs D
        → DocumentIsWithin (λ a. a.at < 2 ^ 32) D
        → DocumentIsWithin (K.atoms k) D }
{}

/// A row grows by so many cells at most as intents make: in a run of them, and with one more that is
/// carried out whole.
pub fn rows_stay_short()
    ensures run { (D E : Document) (Ns : List Intent) (n : NodeId)
        → IsSoundInForm D → FitInTurn D Ns → Run D Ns E
        → length (E.rows n) ≤ length (D.rows n) + cells_made Ns }
    ensures full { (D E : Document) (Ns : List Intent) (N : Intent) (n : NodeId)
        → IsSoundInForm D → FitInTurn D Ns → Run D Ns E → Fits E N
        → length ((full E N).rows n) ≤ length (D.rows n) + cells_made (Ns ++ N ∷ []) }
{}

/// Where an intent leaves each row with fewer than 2^31 cells, its change is normal as a text.
pub fn changes_are_normal_texts()
    ensures { (D : Document) (N : Intent) (C : Change)
        → IsSoundInForm D → Fits D N → ((n : NodeId) → length ((full D N).rows n) < 2 ^ 31)
        → IsEmbedding D N C
        → IsNormalText C }
{}
