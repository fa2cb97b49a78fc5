//! Laws about the part of a document that is in effect: each is the contract of a function that does nothing.
ghost use Rattle.std.specs.Prelude.{IfSome, IsSome, ◌∷◌, ◌++◌, ◌+◌, [], ◌≡◌, ◌≢◌, ◌⊎◌, ◌↔◌, ◌≤◌, ℕ, Bool, true, false, List, length, None, Ok, Some};
ghost use Rattle.std.specs.List.{AllByRecursion};
ghost use Rattle.serde_json.specs.Data.{Data};
ghost use Rattle.serde_json.specs.Written.{compact_text};
ghost use Rattle.st_ids.specs.declared.names.NodeId.{NodeId};
ghost use Rattle.st_ids.specs.declared.names.Rev.{Rev};
ghost use Rattle.st_ids.specs.Listing.{Has};
ghost use Rattle.st_ids.specs.Root.{opening, root};
ghost use Rattle.st_tree.specs.declared.edit.Edit.{Edit};
ghost use Rattle.st_tree.specs.Node.{Node};
ghost use Rattle.st_tree.specs.Preorder.{cell_named, node_named};
ghost use Rattle.st_schema.specs.Conforms.{conforms};
ghost use Rattle.st_schema.specs.Schema.{SchemaView, is_sound};
ghost use Rattle.st_schema.specs.TreeText.{tree_data};
ghost use Rattle.st_schema.specs.Wider.{wider_of};
ghost use Rattle.st_schema.specs.Written.{schema_data};
ghost use Rattle.st_marks.specs.declared.intents.Intent.{Intent};
ghost use Rattle.st_marks.specs.declared.schemas.SchemaEntry.{SchemaEntry};
ghost use Rattle.st_marks.specs.declared.verdicts.Verdict.{Verdict};
ghost use Rattle.st_marks.specs.Back.{IsBack};
ghost use Rattle.st_marks.specs.CarryOut.{full};
ghost use Rattle.st_marks.specs.Document.{Document, HasShortRows, IsSoundInForm, last_of, revs};
ghost use Rattle.st_marks.specs.Intent.{Fits, IsIntent, is_new, put_of};
ghost use Rattle.st_marks.specs.Join.{AreParts, IsJoin};
ghost use Rattle.st_marks.specs.LiveTree.{Shows};
ghost use Rattle.st_marks.specs.Run.{Run};
ghost use Rattle.st_marks.specs.Verdict.{IsVerdict, carried_document};
ghost use Rattle.st_log_laws.specs.Names.{HasNames, HaveNewRevisions, IsMadeUnder, revisions};
ghost use Rattle.st_log_laws.specs.Turns.{FitInTurn, IsSublist};
ghost use Rattle.st_edits.specs.declared.names.NameCounters.{NameCounters};
ghost use Rattle.st_edits.specs.ArrayTypes.{is_array_type};
ghost use Rattle.st_edits.specs.Resolve.{resolve};
ghost use Rattle.st_schema_laws.specs.Agreeing.{TellsHomes};
ghost use Rattle.st_schema_laws.specs.Conforming.{IsConforming};
ghost use Rattle.st_part_laws.specs.Chains.{AreInLine, TellsChain};
ghost use Rattle.st_part_laws.specs.Parts.{IsClosedBy, IsClosedInEffect, NamesWithin, is_of_schemas, part_by, part_in_effect};
ghost use Rattle.st_part_laws.specs.Schemas.{entries_after};
ghost use Rattle.st_part_laws.specs.Turns.{ComesFirst, SchemasComeFirst};
ghost use Rattle.st_schema_laws.specs.AgreeingInEffect.{AgreeInTurn, AgreesInLine, ConformsInEffect, Told, with_commit, with_home};
ghost use Rattle.st_edits.specs.InEffect.{last_in_effect, schema_in_effect};
ghost use Rattle.st_schema_laws.specs.Earlier.{AreUnderEarlier, schemas_made};
ghost use Rattle.st_schema_laws.specs.Lines.{IsLine};
ghost use Rattle.st_schema_laws.specs.Widening.{AreWidening, IsTextOf, IsUpgrade};

/// A node of a closed part shows there what it shows in the whole document, and so the part in effect shows its
/// tree.
pub fn parts_show()
    ensures node { (is_array : List ℕ → Bool) (p : NodeId → Bool) (D : Document) (n : NodeId)
        (d : Data)
        → IsSoundInForm D → IsClosedBy p D → p root ≡ true → p n ≡ true
        → Shows is_array D n d ↔ Shows is_array (part_by p D) n d }
    ensures in_effect { (is_array : List ℕ → Bool) (under : Rev → Rev) (D : Document) (d : Data)
        → IsSoundInForm D → IsClosedInEffect under D → under opening ≡ opening
        → Shows is_array D root d ↔ Shows is_array (part_in_effect under D) root d }
{}

/// An edit means in a closed part what it means in the whole document, and is refused there as here.
pub fn parts_resolve()
    ensures part { (p : NodeId → Bool) (D : Document) (s : SchemaView) (G : NameCounters)
        (edit : Edit)
        → IsSoundInForm D → IsClosedBy p D → p root ≡ true
        → resolve (part_by p D) s G edit ≡ resolve D s G edit }
    ensures in_effect { (under : Rev → Rev) (D : Document) (s : SchemaView) (G : NameCounters)
        (edit : Edit)
        → IsSoundInForm D → IsClosedInEffect under D → under opening ≡ opening
        → resolve (part_in_effect under D) s G edit ≡ resolve D s G edit }
{}

/// What an edit means names nodes of the part alone, where the part is closed and has the nodes that the commit
/// makes. So a commit names nodes of its schema's line alone, where its author makes it.
pub fn edits_name_within()
    ensures part { (p : NodeId → Bool) (D : Document) (s : SchemaView) (G : NameCounters)
        (edit : Edit) (N : Intent)
        → IsSoundInForm D → is_sound s ≡ true → IsClosedBy p D → p root ≡ true
        → ((k : ℕ) → G.nodes ≤ k → D.nodes (node_named G.rev k) ≡ None)
        → ((k : ℕ) → G.cells ≤ k → D.row_of (cell_named G.rev k) ≡ None)
        → ((n : NodeId) → n.0.rev ≡ G.rev → p n ≡ true)
        → resolve D s G edit ≡ Ok N → NamesWithin p D N }
    ensures in_effect { (under : Rev → Rev) (chain : Rev → List Rev) (D : Document)
        (s : SchemaView) (G : NameCounters) (edit : Edit) (N : Intent)
        → IsSoundInForm D → is_sound s ≡ true → IsClosedInEffect under D → under opening ≡ opening
        → AreInLine chain D.schemas
        → ((k : ℕ) → G.nodes ≤ k → D.nodes (node_named G.rev k) ≡ None)
        → ((k : ℕ) → G.cells ≤ k → D.row_of (cell_named G.rev k) ≡ None)
        → under N.rev ≡ N.under
        → resolve D s G edit ≡ Ok N → NamesWithin (is_of_schemas under (chain N.under)) D N }
{}

/// The schemas in effect are such that each is what those of its line of ancestors become by being widened, and its
/// entry has its text: at the opening, and after any commit. What is in effect stays in effect.
pub fn schemas_widen()
    ensures opening { (view : Rev → SchemaView) (chain : Rev → List Rev)
        (entries : List SchemaEntry)
        → revs entries ≡ opening ∷ [] → chain opening ≡ opening ∷ []
        → is_sound (view opening) ≡ true
        → ((e : SchemaEntry) → Has entries e → IsTextOf (view opening) e.text)
        → AreWidening view chain entries }
    ensures after { (view : Rev → SchemaView) (chain : Rev → List Rev)
        (entries : List SchemaEntry) (N : Intent)
        → TellsChain chain N → IfSome N.schema (IsUpgrade (view N.under) (view N.rev))
        → AreWidening view chain entries → AreWidening view chain (entries_after entries N) }
    ensures stay { (D E : Document) (Ns : List Intent) → AllByRecursion IsIntent Ns → Run D Ns E
        → (r : Rev) → Has (revs D.schemas) r → Has (revs E.schemas) r }
{}

/// The text of the last entry in effect is read as the schema that is told of it; and each sound schema has a text,
/// which is read as it.
pub fn schemas_are_read()
    ensures in_effect { (T : Told) (D : Document) → IsSoundInForm D → ConformsInEffect T D
        → schema_in_effect D ≡ T.view (last_in_effect D) }
    ensures text { (s : SchemaView) → is_sound s ≡ true
        → IsTextOf s (compact_text (schema_data s)) }
{}

/// The part in effect keeps to the last schema in effect: at the opening; after a commit that agrees with the
/// schema under which it was made, whether that is in effect or not and whatever its verdict, also one that widens
/// the schema; after edits of data that aren't a commit yet; and after a list of such commits.
pub fn parts_conform()
    ensures opening { (T : Told) (D : Document) → IsSoundInForm D → IsMadeUnder (opening ∷ []) D
        → revs D.schemas ≡ opening ∷ [] → T.under opening ≡ opening → T.chain opening ≡ opening ∷ []
        → is_sound (T.view opening) ≡ true
        → ((e : SchemaEntry) → Has D.schemas e → IsTextOf (T.view opening) e.text)
        → IsConforming (T.view opening) T.home D
        → ConformsInEffect T D }
    ensures one { (T : Told) (D : Document) (N : Intent) (v : Verdict) → IsSoundInForm D
        → Fits D N → HasShortRows (full D N)
        → ComesFirst T.under D N → AgreesInLine T D N → ConformsInEffect T D → IsVerdict D N v
        → ConformsInEffect T (carried_document v D N) }
    ensures edited { (T : Told) (D : Document) (N : Intent) → IsSoundInForm D → Fits D N
        → N.schema ≡ None → Has (revs D.schemas) N.under
        → AgreesInLine T D N → ConformsInEffect T D → ConformsInEffect T (full D N) }
    ensures run { (T : Told) (rs : List Rev) (D E : Document) (Ns : List Intent)
        → IsSoundInForm D → FitInTurn D Ns
        → IsMadeUnder rs D → SchemasComeFirst T.under rs Ns → AgreeInTurn T D Ns
        → ConformsInEffect T D → Run D Ns E
        → ConformsInEffect T E }
    ensures line { (T : Told) (O D : Document) (Ns : List Intent)
        → IsLine T O Ns → Run O Ns D → ConformsInEffect T D }
{}

/// A commit that agrees with its schema in the part of its schema's line does so in each later document with the
/// same names. So a list of which each does, where it comes, stays such: its fronts and rests, lists one after the
/// other, and the same commits after a longer list.
pub fn commits_agree_in_turn()
    ensures later { (T : Told) (D E : Document) (N : Intent) → HasNames D E → IsSoundInForm D
        → IsSoundInForm E
        → Fits D N → Fits E N → AgreesInLine T D N → AgreesInLine T E N }
    ensures front { (T : Told) (D : Document) (Ns Ms : List Intent) → AgreeInTurn T D (Ns ++ Ms)
        → AgreeInTurn T D Ns }
    ensures rest { (T : Told) (D E : Document) (Ns Ms : List Intent)
        → AgreeInTurn T D (Ns ++ Ms) → Run D Ns E
        → AgreeInTurn T E Ms }
    ensures then_one { (T : Told) (D E : Document) (Ns Ms : List Intent) → AgreeInTurn T D Ns
        → Run D Ns E
        → AgreeInTurn T E Ms → AgreeInTurn T D (Ns ++ Ms) }
    ensures beside { (T : Told) (D E : Document) (Ns : List Intent) → HasNames D E
        → IsSoundInForm D → IsSoundInForm E
        → FitInTurn D Ns → FitInTurn E Ns → AgreeInTurn T D Ns → AgreeInTurn T E Ns }
    ensures longer { (T : Told) (D : Document) (As Bs Ns : List Intent) → IsSoundInForm D
        → IsSublist As Bs
        → FitInTurn D (As ++ Ns) → FitInTurn D (Bs ++ Ns) → AgreeInTurn T D Bs
        → AgreeInTurn T D (As ++ Ns)
        → AgreeInTurn T D (Bs ++ Ns) }
    ensures told { (T : Told) (D : Document) (Ns : List Intent) → IsSoundInForm D
        → FitInTurn D Ns → AgreeInTurn T D Ns
        → AllByRecursion (λ (N : Intent). T.under N.rev ≡ N.under) Ns }
{}

/// A new commit's schema, the line of ancestors and the view of a new schema, and the homes of a commit's new nodes
/// can be told beside what is told: documents that conform and lists that agree do so as before, if they don't have
/// its revision, or, of homes, its new nodes.
pub fn commits_can_be_told()
    ensures under { (T : Told) (N : Intent) (new : SchemaView)
        → (with_commit T N new).under N.rev ≡ N.under }
    ensures chain { (T : Told) (N : Intent) (new : SchemaView) → N.under ≢ N.rev
        → TellsChain (with_commit T N new).chain N }
    ensures view { (T : Told) (N : Intent) (new : SchemaView)
        → (with_commit T N new).view N.rev ≡ new }
    ensures upgrade { (T : Told) (N : Intent) (new : SchemaView) → N.under ≢ N.rev
        → IfSome N.schema (IsUpgrade (T.view N.under) new)
        → IfSome N.schema (IsUpgrade ((with_commit T N new).view N.under) ((with_commit T N new).view N.rev)) }
    ensures home { (T : Told) (N : Intent) → TellsHomes (with_home T N).home N }
    ensures documents { (T : Told) (N : Intent) (new : SchemaView) (ss : List Rev)
        (D : Document) → IsSoundInForm D
        → IsMadeUnder ss D → (Has ss N.rev → ⊥) → ((r : Rev) → Has ss r → T.under r ≢ N.rev)
        → ConformsInEffect T D → ConformsInEffect (with_commit T N new) D }
    ensures lists { (T : Told) (N : Intent) (new : SchemaView) (ss : List Rev) (D : Document)
        (Ms : List Intent)
        → IsSoundInForm D → IsMadeUnder ss D → FitInTurn D Ms → (Has (revisions Ms ++ ss) N.rev → ⊥)
        → ((M : Intent) → Has Ms M → M.under ≢ N.rev)
        → AgreeInTurn T D Ms → AgreeInTurn (with_commit T N new) D Ms }
    ensures home_documents { (T : Told) (N : Intent) (D : Document) → IsSoundInForm D
        → ((n : NodeId) → is_new N n ≡ true → D.nodes n ≡ None)
        → ConformsInEffect T D → ConformsInEffect (with_home T N) D }
    ensures home_commits { (T : Told) (N M : Intent) (D : Document)
        → ((m : NodeId) → IsSome (put_of M m) → is_new N m ≡ false)
        → ((m : NodeId) → is_new M m ≡ true → is_new N m ≡ false)
        → AgreesInLine T D M → AgreesInLine (with_home T N) D M }
    ensures home_lists { (T : Told) (N : Intent) (ss : List Rev) (D : Document)
        (Ms : List Intent) → IsIntent N
        → IsMadeUnder ss D → FitInTurn D Ms → (Has (revisions Ms ++ ss) N.rev → ⊥)
        → AgreeInTurn T D Ms → AgreeInTurn (with_home T N) D Ms }
{}

/// Lists of commits, each made under a schema that comes before it: fronts, rests, lists one after the other and
/// longer lists are such. What is in effect after a list was in effect before it, or is the change that one of its
/// commits is, so there's at most one entry more for each commit. Each change of schema comes before what was made
/// under it.
pub fn schemas_come_earlier()
    ensures front { (rs : List Rev) (Ns Ms : List Intent) → AreUnderEarlier rs (Ns ++ Ms)
        → AreUnderEarlier rs Ns }
    ensures rest { (rs : List Rev) (Ns Ms : List Intent) → AreUnderEarlier rs (Ns ++ Ms)
        → AreUnderEarlier (schemas_made rs Ns) Ms }
    ensures then { (rs : List Rev) (Ns Ms : List Intent) → AreUnderEarlier rs Ns
        → AreUnderEarlier (schemas_made rs Ns) Ms → AreUnderEarlier rs (Ns ++ Ms) }
    ensures longer { (rs : List Rev) (As Bs Ns : List Intent) → IsSublist As Bs
        → AreUnderEarlier rs Bs
        → AreUnderEarlier rs (As ++ Ns) → AreUnderEarlier rs (Bs ++ Ns) }
    ensures in_effect { (D E : Document) (Ns : List Intent) → AllByRecursion IsIntent Ns
        → Run D Ns E
        → (r : Rev) → Has (revs E.schemas) r → Has (schemas_made (revs D.schemas) Ns) r }
    ensures unders { (rs : List Rev) (Ns : List Intent) → AreUnderEarlier rs Ns → (N : Intent)
        → Has Ns N
        → Has (schemas_made rs Ns) N.under }
    ensures among { (rs : List Rev) (Ns : List Intent) (r : Rev) → Has (schemas_made rs Ns) r
        → Has (revisions Ns ++ rs) r }
    ensures by { (rs : List Rev) (Ns : List Intent) (r : Rev) → Has (schemas_made rs Ns) r
        → Has rs r ⊎ ((N : Intent) × Has Ns N × (N.rev ≡ r) × IsSome N.schema) }
    ensures entries { (D E : Document) (Ns : List Intent) → AllByRecursion IsIntent Ns
        → Run D Ns E → (e : SchemaEntry) → Has E.schemas e
        → Has D.schemas e ⊎ ((N : Intent) × Has Ns N × (N.rev ≡ e.rev) × (N.schema ≡ Some e.text)) }
    ensures count { (D E : Document) (Ns : List Intent) → AllByRecursion IsIntent Ns
        → Run D Ns E → length E.schemas ≤ length D.schemas + length Ns }
    ensures first { (under : Rev → Rev) (rs ss : List Rev) (Ns : List Intent)
        → ((r : Rev) → Has rs r → Has ss r)
        → ((r : Rev) → Has ss r → Has rs (under r)) → HaveNewRevisions ss Ns
        → AllByRecursion (λ (N : Intent). under N.rev ≡ N.under) Ns
        → AreUnderEarlier rs Ns → SchemasComeFirst under ss Ns }
{}

/// What an edit means agrees with its schema in the part of its schema's line, where its author makes it; so does
/// the join of two parts of a commit that do, and a change of schema as it is told.
pub fn edits_agree_in_line()
    ensures edit { (T : Told) (D : Document) (G : NameCounters) (edit : Edit) (N : Intent)
        → IsSoundInForm D → ConformsInEffect T D
        → ((k : ℕ) → G.nodes ≤ k → D.nodes (node_named G.rev k) ≡ None)
        → ((k : ℕ) → G.cells ≤ k → D.row_of (cell_named G.rev k) ≡ None)
        → TellsHomes T.home N → T.under N.rev ≡ N.under
        → resolve D (T.view (last_in_effect D)) G edit ≡ Ok N → AgreesInLine T D N }
    ensures join { (T : Told) (D : Document) (N M J : Intent)
        → IsSoundInForm D → ConformsInEffect T D → IsSoundInForm (full D N)
        → AreParts D N M → IsJoin N M J → N.under ≡ last_in_effect D
        → AgreesInLine T D N → AgreesInLine T (full D N) M → AgreesInLine T D J }
    ensures change { (T : Told) (D : Document) (N : Intent) → IsIntent N → IsSome N.schema
        → T.under N.rev ≡ N.under → TellsChain T.chain N
        → IfSome N.schema (IsUpgrade (T.view N.under) (T.view N.rev)) → AgreesInLine T D N }
{}

/// What a document shows is the JSON form of a tree that the last schema in effect allows as its root.
pub fn shown_trees_are_allowed()
    ensures { (T : Told) (D : Document) (is_array : List ℕ → Bool) (d : Data) → IsSoundInForm D
        → ConformsInEffect T D
        → ((ty : List ℕ) → is_array ty ≡ is_array_type (T.view (last_in_effect D)) ty)
        → Shows is_array D root d
        → (t : Node) × (tree_data t ≡ d) × (conforms (T.view (last_in_effect D)) (T.view (last_in_effect D)).root t ≡ true) }
{}

/// The way back over a sound commit of data, made under the last schema in effect in a later document, agrees with
/// that schema in the part of its line, directly after the commit.
pub fn ways_back_agree_in_line()
    ensures { (T : Told) (D E : Document) (N B : Intent) (rev : Rev) → IsSoundInForm D
        → Fits D N → HasShortRows (full D N)
        → N.schema ≡ None → IsVerdict D N Verdict.Sound → AgreesInLine T D N → ConformsInEffect T D
        → IsSoundInForm E → ConformsInEffect T E
        → ((r : Rev) → Has (revs D.schemas) r → Has (revs E.schemas) r)
        → T.under rev ≡ last_in_effect E → IsBack D (full D N) rev (last_in_effect E) B
        → AgreesInLine T (full D N) B }
{}

/// Lists of commits from the document opened go on: by what an edit means after them, by an upgrade of the last
/// schema in effect, by the undo of a sound commit of data, by a commit that agrees, and after a longer list. Their
/// fronts are such lists, and what is told of a commit with a new revision leaves them.
pub fn lines_go_on()
    ensures edit { (T : Told) (O D : Document) (Ns : List Intent) (G : NameCounters)
        (edit : Edit) (N : Intent)
        → IsLine T O Ns → Run O Ns D
        → ((k : ℕ) → G.nodes ≤ k → D.nodes (node_named G.rev k) ≡ None)
        → ((k : ℕ) → G.cells ≤ k → D.row_of (cell_named G.rev k) ≡ None)
        → (Has (revisions Ns ++ opening ∷ []) N.rev → ⊥) → FitInTurn O (Ns ++ N ∷ [])
        → resolve D (T.view (last_in_effect D)) G edit ≡ Ok N
        → IsLine (with_home (with_commit T N (T.view N.under)) N) O (Ns ++ N ∷ []) }
    ensures upgrade { (T : Told) (O D : Document) (Ns : List Intent) (N : Intent) (new : SchemaView)
        → IsLine T O Ns → Run O Ns D
        → (Has (revisions Ns ++ opening ∷ []) N.rev → ⊥) → FitInTurn O (Ns ++ N ∷ [])
        → N.under ≡ last_in_effect D → IsSome N.schema → IfSome N.schema (IsUpgrade (T.view N.under) new)
        → IsLine (with_commit T N new) O (Ns ++ N ∷ []) }
    ensures undo { (T : Told) (O D E : Document) (As Bs : List Intent) (M B : Intent) (rev : Rev)
        → IsLine T O (As ++ M ∷ Bs) → Run O As D → Run D (M ∷ Bs) E
        → (Has (revisions (As ++ M ∷ Bs) ++ opening ∷ []) B.rev → ⊥)
        → FitInTurn O ((As ++ M ∷ Bs) ++ B ∷ [])
        → M.schema ≡ None → IsVerdict D M Verdict.Sound → IsBack D (full D M) rev (last_in_effect E) B
        → IsLine (with_commit T B (T.view B.under)) O ((As ++ M ∷ Bs) ++ B ∷ []) }
    ensures commit { (T : Told) (O D : Document) (Ns : List Intent) (N : Intent)
        → IsLine T O Ns → Run O Ns D
        → (Has (revisions Ns ++ opening ∷ []) N.rev → ⊥) → FitInTurn O (Ns ++ N ∷ [])
        → N.under ≡ last_in_effect D → AgreesInLine T D N → IsLine T O (Ns ++ N ∷ []) }
    ensures front { (T : Told) (O : Document) (As Bs : List Intent) → IsLine T O (As ++ Bs)
        → IsLine T O As }
    ensures longer { (T : Told) (O : Document) (As Bs Ns : List Intent) → IsSublist As Bs
        → IsLine T O (As ++ Ns) → IsLine T O Bs
        → FitInTurn O (Bs ++ Ns) → HaveNewRevisions (opening ∷ []) (Bs ++ Ns) → IsLine T O (Bs ++ Ns) }
    ensures told { (T : Told) (O : Document) (Ns : List Intent) (N : Intent) (new : SchemaView)
        → IsLine T O Ns → (Has (revisions Ns ++ opening ∷ []) N.rev → ⊥)
        → IsLine (with_commit T N new) O Ns }
    ensures home { (T : Told) (O : Document) (Ns : List Intent) (N : Intent)
        → IsLine T O Ns → (Has (revisions Ns ++ opening ∷ []) N.rev → ⊥) → IsIntent N
        → IsLine (with_home T N) O Ns }
{}

/// A change of schema made under the last schema in effect is sound, and where it widens that schema it changes no tree
/// that is shown.
pub fn upgrades_are_seen()
    ensures verdict { (D : Document) (N : Intent) → IsIntent N → IsSome N.schema
        → last_of (revs D.schemas) ≡ Some N.under → IsVerdict D N Verdict.Sound }
    ensures tree { (T : Told) (D : Document) (N : Intent) (new : SchemaView)
        (is_array is_array_then : List ℕ → Bool) (d : Data)
        → IsSoundInForm D → ConformsInEffect T D → IsIntent N → IsSome N.schema
        → wider_of (T.view (last_in_effect D)) new ≡ Ok tt
        → ((ty : List ℕ) → is_array ty ≡ is_array_type (T.view (last_in_effect D)) ty)
        → ((ty : List ℕ) → is_array_then ty ≡ is_array_type new ty)
        → Shows is_array D root d → Shows is_array_then (full D N) root d }
{}
