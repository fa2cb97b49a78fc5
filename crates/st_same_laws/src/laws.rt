//! Laws on intents that say the same: each is the contract of a function that does nothing.
ghost use Rattle.std.specs.Prelude.{◌≡◌, length, List as Seq};
ghost use Rattle.st_ids.specs.declared.names.Rev.{Rev};
ghost use Rattle.st_marks.specs.Back.{IsBack};
ghost use Rattle.st_marks.specs.CarryOut.{full, void};
ghost use Rattle.st_marks.specs.Document.{Document};
ghost use Rattle.st_marks.specs.Embedding.{IsEmbedding};
ghost use Rattle.st_marks.specs.Intent.{IsIntent, group_cells};
ghost use Rattle.st_marks.specs.Join.{IsJoin};
ghost use Rattle.st_marks.specs.Run.{Run};
ghost use Rattle.st_marks.specs.Verdict.{IsVerdict, carried_document};
ghost use Rattle.st_marks.specs.declared.changes.Change.{Change};
ghost use Rattle.st_marks.specs.declared.intents.Intent.{Intent};
ghost use Rattle.st_marks.specs.declared.verdicts.Verdict.{Verdict};
ghost use Rattle.st_same_laws.specs.Same.{LooksAlike, SaysTheSame, SayTheSame};

/// The law that intents which say the same have the same verdicts, and lead to one document: carried
/// out whole, void, or by a verdict.
pub fn same_intents_carry()
    ensures whole { (D : Document) (N M : Intent) → SaysTheSame N M → full D N ≡ full D M }
    ensures void { (D : Document) (N M : Intent) → SaysTheSame N M → void D N ≡ void D M }
    ensures verdict { (D : Document) (N M : Intent) (v : Verdict) → SaysTheSame N M
        → IsVerdict D N v → IsVerdict D M v }
    ensures carried { (D : Document) (N M : Intent) (v : Verdict) → SaysTheSame N M
        → carried_document v D N ≡ carried_document v D M }
{}

/// The law that intents whose lists are looked up alike say the same; and so do two joins of the same
/// parts, and two ways back between the same documents. What is free of them is the order of lists,
/// and repeats in what they clear and need.
pub fn alike_intents_say_the_same()
    ensures alike { (N M : Intent) → IsIntent N → IsIntent M → LooksAlike N M → SaysTheSame N M }
    ensures joins { (N M J K : Intent) → IsIntent N → IsJoin N M J → IsJoin N M K
        → SaysTheSame J K }
    ensures back { (D E : Document) (rev under : Rev) (B C : Intent) → IsBack D E rev under B
        → IsBack D E rev under C → SaysTheSame B C }
{}

/// The law that intents which say the same have one change in each document.
pub fn same_intents_have_one_change()
    ensures { (D : Document) (N M : Intent) (C : Change) → IsIntent N → IsIntent M
        → SaysTheSame N M → IsEmbedding D N C → IsEmbedding D M C }
{}

/// The law that intents which say the same make as many nodes and as many cells.
pub fn same_intents_make_as_many()
    ensures nodes { (N M : Intent) → IsIntent N → IsIntent M → SaysTheSame N M
        → length N.new ≡ length M.new }
    ensures cells { (N M : Intent) → IsIntent N → IsIntent M → SaysTheSame N M
        → length (group_cells N) ≡ length (group_cells M) }
{}

/// The law that commits which say the same, one by one, lead to the same document.
pub fn same_commits_lead_alike()
    ensures { (D E : Document) (Ns Ms : Seq Intent) → SayTheSame Ns Ms → Run D Ns E → Run D Ms E }
{}
