//! Laws about parts of documents and schemas in effect: each is the contract of a function that does nothing.
ghost use Rattle.std.specs.Prelude.{◌≡◌, ◌≢◌, ◌++◌, ◌∷◌, Bool, List, [], IsSome, true, false};
ghost use Rattle.std.specs.List.{AllByRecursion};
ghost use Rattle.st_ids.specs.Listing.{Has};
ghost use Rattle.st_ids.specs.Root.{opening, root};
ghost use Rattle.st_ids.specs.declared.names.FieldId.{FieldId};
ghost use Rattle.st_ids.specs.declared.names.NodeId.{NodeId};
ghost use Rattle.st_ids.specs.declared.names.Rev.{Rev};
ghost use Rattle.st_marks.specs.declared.intents.Intent.{Intent};
ghost use Rattle.st_marks.specs.declared.schemas.SchemaEntry.{SchemaEntry};
ghost use Rattle.st_marks.specs.declared.verdicts.Verdict.{Verdict};
ghost use Rattle.st_marks.specs.Back.{IsBack};
ghost use Rattle.st_marks.specs.CarryOut.{full, void, void_data};
ghost use Rattle.st_marks.specs.Document.{Document, IsSoundInForm, HasShortRows, revs};
ghost use Rattle.st_marks.specs.Extends.{IsExtendedBy};
ghost use Rattle.st_marks.specs.Intent.{Fits, IsIntent, is_new};
ghost use Rattle.st_marks.specs.Join.{AreParts, IsJoin};
ghost use Rattle.st_marks.specs.Run.{Run};
ghost use Rattle.st_marks.specs.Verdict.{IsBaseInEffect, IsVerdict, carried_document};
ghost use Rattle.st_log_laws.specs.Names.{HasNames, IsMadeUnder};
ghost use Rattle.st_log_laws.specs.Turns.{FitInTurn};
ghost use Rattle.st_part_laws.specs.Chains.{AreInLine, TellsChain, with_chain, with_under};
ghost use Rattle.st_part_laws.specs.Parts.{IsClosedBy, IsClosedInEffect, NamesWithin, is_of_schemas, part_by, part_in_effect, part_of_schemas};
ghost use Rattle.st_part_laws.specs.Schemas.{entries_after, schemas_after};
ghost use Rattle.st_part_laws.specs.Turns.{ComesFirst, NameInTurn, SchemasComeFirst};

/// The part of a sound document is sound, where it is closed and has the root.
pub fn parts_are_sound()
    ensures { (p : NodeId → Bool) (D : Document) → IsSoundInForm D → IsClosedBy p D → p root ≡ true
        → IsSoundInForm (part_by p D) }
{}

/// An intent that names nodes of a part alone fits the part and has its verdict there. The part of the document after it
/// is what it makes of the part, whether it is carried out whole or void; and the part of the document after it, carried
/// out whole, is closed. A void intent of which no new node is in the part leaves the part's places and registers.
pub fn parts_are_carried()
    ensures fits { (p : NodeId → Bool) (D : Document) (N : Intent) → IsSoundInForm D
        → IsClosedBy p D → p root ≡ true
        → Fits D N → NamesWithin p D N → Fits (part_by p D) N }
    ensures verdict { (p : NodeId → Bool) (D : Document) (N : Intent) → IsSoundInForm D
        → IsClosedBy p D → p root ≡ true
        → Fits D N → NamesWithin p D N → (v : Verdict) → IsVerdict D N v
        → IsVerdict (part_by p D) N v }
    ensures whole { (p : NodeId → Bool) (D : Document) (N : Intent) → IsSoundInForm D
        → IsClosedBy p D → p root ≡ true
        → Fits D N → NamesWithin p D N → part_by p (full D N) ≡ full (part_by p D) N }
    ensures void { (p : NodeId → Bool) (D : Document) (N : Intent) → IsSoundInForm D
        → IsClosedBy p D → p root ≡ true
        → Fits D N → NamesWithin p D N → part_by p (void_data D N) ≡ void_data (part_by p D) N }
    ensures closed { (p : NodeId → Bool) (D : Document) (N : Intent) → IsSoundInForm D
        → IsClosedBy p D → p root ≡ true
        → Fits D N → NamesWithin p D N → IsClosedBy p (full D N) }
    ensures places { (p : NodeId → Bool) (D : Document) (N : Intent) → ((n : NodeId)
        → is_new N n ≡ true → p n ≡ false)
        → (m : NodeId) → (part_by p (void_data D N)).place m ≡ (part_by p D).place m }
    ensures registers { (p : NodeId → Bool) (D : Document) (N : Intent) → ((n : NodeId)
        → is_new N n ≡ true → p n ≡ false)
        → (f : FieldId) → (part_by p (void_data D N)).held f ≡ (part_by p D).held f }
{}

/// Which schema entries are in effect after commits goes by the entries before and the commits alone: in whatever document
/// an intent comes, whatever its verdict.
pub fn schemas_go_by_commits()
    ensures one { (D : Document) (N : Intent) (v : Verdict) → IsIntent N → IsVerdict D N v
        → (carried_document v D N).schemas ≡ entries_after D.schemas N }
    ensures run { (D E : Document) (Ns : List Intent) → AllByRecursion IsIntent Ns → Run D Ns E
        → E.schemas ≡ schemas_after D.schemas Ns }
    ensures then { (entries : List SchemaEntry) (Ns Ms : List Intent)
        → schemas_after entries (Ns ++ Ms) ≡ schemas_after (schemas_after entries Ns) Ms }
{}

/// Where each change of schema tells its line of ancestors, the entries in effect are such a line: from the opening's entry
/// on, and after any commits.
pub fn entries_are_in_line()
    ensures opening { (chain : Rev → List Rev) (entries : List SchemaEntry)
        → revs entries ≡ opening ∷ []
        → chain opening ≡ opening ∷ [] → AreInLine chain entries }
    ensures after { (chain : Rev → List Rev) (entries : List SchemaEntry) (Ns : List Intent)
        → AllByRecursion (TellsChain chain) Ns → AreInLine chain entries
        → AreInLine chain (schemas_after entries Ns) }
    ensures run { (chain : Rev → List Rev) (D E : Document) (Ns : List Intent)
        → AllByRecursion IsIntent Ns
        → AllByRecursion (TellsChain chain) Ns → Run D Ns E → AreInLine chain D.schemas
        → AreInLine chain E.schemas }
{}

/// An intent that names nodes of its schema's line alone, where its author made it, does so in each later document, whatever
/// came between; and where its schema is in effect, it names nodes of the part in effect alone. Of two parts of a commit that
/// do so the join does.
pub fn commits_are_within()
    ensures later { (p : NodeId → Bool) (D E : Document) (N : Intent) → HasNames D E
        → IsSoundInForm D → IsSoundInForm E
        → Fits D N → Fits E N → NamesWithin p D N → NamesWithin p E N }
    ensures in_effect { (under : Rev → Rev) (chain : Rev → List Rev) (D : Document) (N : Intent)
        → AreInLine chain D.schemas
        → Has (revs D.schemas) N.under → NamesWithin (is_of_schemas under (chain N.under)) D N
        → NamesWithin (is_of_schemas under (revs D.schemas)) D N }
    ensures more { (p q : NodeId → Bool) (D : Document) (N : Intent) → ((n : NodeId)
        → p n ≡ true → q n ≡ true)
        → NamesWithin p D N → NamesWithin q D N }
    ensures joined { (p : NodeId → Bool) (D : Document) (N M J : Intent) → IsSoundInForm D
        → AreParts D N M → IsJoin N M J
        → NamesWithin p D N → NamesWithin p (full D N) M → NamesWithin p D J }
{}

/// The way back over an intent that names nodes of a part alone names nodes of the part alone. A way back that does so is
/// the way back between the parts, and so the one over the intent carried out in the part.
pub fn parts_go_back()
    ensures within { (p : NodeId
        → Bool) (D : Document) (N : Intent) (rev under : Rev) (B : Intent)
        → IsExtendedBy D (full D N)
        → IsClosedBy p D → Fits D N → NamesWithin p D N → IsBack D (full D N) rev under B
        → NamesWithin p (full D N) B }
    ensures parts { (p : NodeId → Bool) (D E : Document) (rev under : Rev) (B : Intent)
        → IsClosedBy p E → NamesWithin p E B
        → IsBack D E rev under B → IsBack (part_by p D) (part_by p E) rev under B }
    ensures carried { (p : NodeId
        → Bool) (D : Document) (N : Intent) (rev under : Rev) (B : Intent)
        → IsExtendedBy D (full D N)
        → IsClosedBy p D → p root ≡ true → Fits D N → NamesWithin p D N
        → IsBack D (full D N) rev under B
        → IsBack (part_by p D) (full (part_by p D) N) rev under B }
{}

/// A new commit's schema, and a new schema's line of ancestors, can be told beside what is told: nothing of documents and
/// commits that don't have its revision changes by that.
pub fn schemas_can_be_told()
    ensures under { (under : Rev → Rev) (N : Intent) → with_under under N N.rev ≡ N.under }
    ensures chain { (chain : Rev → List Rev) (N : Intent) → N.under ≢ N.rev
        → TellsChain (with_chain chain N) N }
    ensures others { (chain : Rev → List Rev) (N M : Intent) → M.rev ≢ N.rev → M.under ≢ N.rev
        → TellsChain chain M → TellsChain (with_chain chain N) M }
    ensures entries { (chain : Rev → List Rev) (N : Intent) (entries : List SchemaEntry)
        → (Has (revs entries) N.rev → ⊥)
        → AreInLine chain entries → AreInLine (with_chain chain N) entries }
    ensures parts { (under : Rev → Rev) (N : Intent) (rs ss : List Rev) (D : Document)
        → IsSoundInForm D → IsMadeUnder ss D
        → (Has ss N.rev → ⊥)
        → part_of_schemas (with_under under N) rs D ≡ part_of_schemas under rs D }
    ensures closed { (under : Rev → Rev) (N : Intent) (rs ss : List Rev) (D : Document)
        → IsSoundInForm D → IsMadeUnder ss D
        → (Has ss N.rev → ⊥) → IsClosedBy (is_of_schemas under rs) D
        → IsClosedBy (is_of_schemas (with_under under N) rs) D }
    ensures intents { (under : Rev → Rev) (N : Intent) (rs ss : List Rev) (D : Document)
        → IsSoundInForm D → IsMadeUnder ss D
        → (Has ss N.rev → ⊥) → (M : Intent) → M.rev ≢ N.rev → Fits D M
        → NamesWithin (is_of_schemas under rs) D M
        → NamesWithin (is_of_schemas (with_under under N) rs) D M }
{}

/// The part in effect is closed at the opening and stays so: after an intent that names nodes of its schema's line alone, whatever its verdict, and
/// after a list of them. A change of schema brings no node into effect that was there before it.
pub fn parts_stay_closed()
    ensures opening { (under : Rev → Rev) (D : Document) → IsSoundInForm D
        → IsMadeUnder (opening ∷ []) D → IsClosedInEffect under D }
    ensures void { (p : NodeId → Bool) (D : Document) (N : Intent)
        → ((m n : NodeId) → is_new N m ≡ true → is_new N n ≡ true → p m ≡ p n) → IsClosedBy p D
        → IsClosedBy p (void_data D N) }
    ensures one { (under : Rev → Rev) (chain : Rev → List Rev) (D : Document) (N : Intent)
        → IsSoundInForm D → Fits D N
        → HasShortRows (full D N) → under opening ≡ opening → AreInLine chain D.schemas
        → NamesWithin (is_of_schemas under (chain N.under)) D N → ComesFirst under D N
        → IsClosedInEffect under D
        → (v : Verdict) → IsVerdict D N v → IsClosedInEffect under (carried_document v D N) }
    ensures run { (under : Rev → Rev) (chain : Rev
        → List Rev) (rs : List Rev) (D E : Document) (Ns : List Intent)
        → IsSoundInForm D → FitInTurn D Ns → under opening ≡ opening → AreInLine chain D.schemas
        → AllByRecursion (TellsChain chain) Ns → IsMadeUnder rs D → SchemasComeFirst under rs Ns
        → NameInTurn under chain D Ns → IsClosedInEffect under D → Run D Ns E
        → IsClosedInEffect under E }
{}

/// An intent that names nodes of its schema's line alone, and whose schema is in effect, fits the part in effect, has its
/// verdict there, and leads there to the part in effect of the document after it.
pub fn the_part_in_effect_is_carried()
    ensures fits { (under : Rev → Rev) (chain : Rev → List Rev) (D : Document) (N : Intent)
        → IsSoundInForm D → Fits D N
        → HasShortRows (full D N) → under opening ≡ opening → AreInLine chain D.schemas
        → NamesWithin (is_of_schemas under (chain N.under)) D N → ComesFirst under D N
        → IsClosedInEffect under D
        → IsBaseInEffect D N → Fits (part_in_effect under D) N }
    ensures verdict { (under : Rev → Rev) (chain : Rev → List Rev) (D : Document) (N : Intent)
        → IsSoundInForm D → Fits D N
        → HasShortRows (full D N) → under opening ≡ opening → AreInLine chain D.schemas
        → NamesWithin (is_of_schemas under (chain N.under)) D N → ComesFirst under D N
        → IsClosedInEffect under D
        → IsBaseInEffect D N → (v : Verdict) → IsVerdict D N v
        → IsVerdict (part_in_effect under D) N v }
    ensures carried { (under : Rev → Rev) (chain : Rev → List Rev) (D : Document) (N : Intent)
        → IsSoundInForm D → Fits D N
        → HasShortRows (full D N) → under opening ≡ opening → AreInLine chain D.schemas
        → NamesWithin (is_of_schemas under (chain N.under)) D N → ComesFirst under D N
        → IsClosedInEffect under D
        → IsBaseInEffect D N → (v : Verdict) → IsVerdict D N v
        → part_in_effect under (carried_document v D N) ≡ carried_document v (part_in_effect under D) N }
{}

/// An intent whose schema isn't in effect leaves the nodes, places and registers of the part in effect.
pub fn the_part_in_effect_is_left()
    ensures nodes { (under : Rev → Rev) (D : Document) (N : Intent) → Fits D N
        → under N.rev ≡ N.under
        → (Has (revs D.schemas) N.under → ⊥) → (n : NodeId)
        → (part_in_effect under (void D N)).nodes n ≡ (part_in_effect under D).nodes n }
    ensures places { (under : Rev → Rev) (D : Document) (N : Intent) → Fits D N
        → under N.rev ≡ N.under
        → (Has (revs D.schemas) N.under → ⊥) → (n : NodeId)
        → (part_in_effect under (void D N)).place n ≡ (part_in_effect under D).place n }
    ensures registers { (under : Rev → Rev) (D : Document) (N : Intent) → Fits D N
        → under N.rev ≡ N.under
        → (Has (revs D.schemas) N.under → ⊥) → (f : FieldId)
        → (part_in_effect under (void D N)).held f ≡ (part_in_effect under D).held f }
{}

/// Where two lists, the one after the other, name in turn nodes of their schemas' lines alone, each does, and the other way
/// round; and so does a list in each document with the same names that it fits.
pub fn name_in_turn()
    ensures front { (under : Rev → Rev) (chain : Rev
        → List Rev) (D : Document) (Ns Ms : List Intent)
        → NameInTurn under chain D (Ns ++ Ms) → NameInTurn under chain D Ns }
    ensures rest { (under : Rev → Rev) (chain : Rev
        → List Rev) (D E : Document) (Ns Ms : List Intent)
        → NameInTurn under chain D (Ns ++ Ms) → Run D Ns E → NameInTurn under chain E Ms }
    ensures then_one { (under : Rev → Rev) (chain : Rev
        → List Rev) (D E : Document) (Ns Ms : List Intent)
        → NameInTurn under chain D Ns → Run D Ns E → NameInTurn under chain E Ms
        → NameInTurn under chain D (Ns ++ Ms) }
    ensures beside { (under : Rev → Rev) (chain : Rev
        → List Rev) (D E : Document) (Ns : List Intent) → HasNames D E
        → IsSoundInForm D → IsSoundInForm E → FitInTurn D Ns → FitInTurn E Ns
        → NameInTurn under chain D Ns → NameInTurn under chain E Ns }
{}
