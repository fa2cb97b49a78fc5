//! Laws on what conforms, node by node: each is the contract of a function that does nothing.
ghost use Rattle.std.specs.List.{AllByRecursion};
ghost use Rattle.std.specs.Prelude.{◌≡◌, ◌∷◌, ◌++◌, [], Some, List, None, Ok, true, Bool, ℕ, ◌≤◌, IsSome};
ghost use Rattle.serde_json.specs.Data.{Data};
ghost use Rattle.st_conform_laws.specs.Entries.{AreValidEntries, IsOpened};
ghost use Rattle.st_conform_laws.specs.Keeping.{KeepInTurn, KeepsTo, KeepsWhereBased};
ghost use Rattle.st_edits.specs.Keeping.{IsUpTo, IsViewOf, KeepsToSchema};
ghost use Rattle.st_conform_laws.specs.Logs.{AreOwnAfter, AreValid, HasHomes, IsValidAfter};
ghost use Rattle.st_conform_laws.specs.Nodes.{ConformsByNodes, NodesConform};
ghost use Rattle.st_conform_laws.specs.Telling.{AreUnderThese, IsToldBy, TellAlike, schema_read, told_of};
ghost use Rattle.st_edits.specs.ArrayTypes.{is_array_type};
ghost use Rattle.st_edits.specs.Resolve.{resolve};
ghost use Rattle.st_edits.specs.declared.names.NameCounters.{NameCounters};
ghost use Rattle.st_ids.specs.Listing.{Has};
ghost use Rattle.st_ids.specs.Root.{opening, root};
ghost use Rattle.st_ids.specs.declared.names.NodeId.{NodeId};
ghost use Rattle.st_ids.specs.declared.names.Rev.{Rev};
ghost use Rattle.st_lists.specs.Log.{commits_in};
ghost use Rattle.st_lists.specs.declared.lists.Entry.{Entry};
ghost use Rattle.st_valid.specs.Room.{HasRoomForNames};
ghost use Rattle.st_valid_laws.specs.Messages.{IsValidLog};
ghost use Rattle.st_log_laws.specs.Names.{HasNames, HaveNewRevisions, IsMadeUnder, revisions};
ghost use Rattle.st_log_laws.specs.Turns.{FitInTurn, HasRoom, IsSublist};
ghost use Rattle.st_marks.specs.Back.{IsBack};
ghost use Rattle.st_marks.specs.CarryOut.{full, void_data};
ghost use Rattle.st_marks.specs.Document.{Document, HasShortRows, IsSoundInForm, last_of, revs};
ghost use Rattle.st_marks.specs.Intent.{Fits, IsIntent};
ghost use Rattle.st_marks.specs.Join.{AreParts, IsJoin};
ghost use Rattle.st_marks.specs.LiveTree.{Shows};
ghost use Rattle.st_marks.specs.Run.{Run};
ghost use Rattle.st_marks.specs.Verdict.{IsBaseInEffect, IsVerdict, carried_document};
ghost use Rattle.st_marks.specs.declared.intents.Intent.{Intent};
ghost use Rattle.st_marks.specs.declared.schemas.SchemaEntry.{SchemaEntry};
ghost use Rattle.st_marks.specs.declared.verdicts.Verdict.{Verdict};
ghost use Rattle.st_part_laws.specs.Chains.{TellsChain};
ghost use Rattle.st_part_laws.specs.Schemas.{schemas_after};
ghost use Rattle.st_part_laws.specs.Turns.{ComesFirst, SchemasComeFirst};
ghost use Rattle.st_schema.specs.Conforms.{conforms};
ghost use Rattle.st_schema.specs.Schema.{SchemaView, is_sound};
ghost use Rattle.st_schema.specs.TreeText.{tree_data};
ghost use Rattle.st_schema_laws.specs.Agreeing.{TellsHomes};
ghost use Rattle.st_edits.specs.Fields.{register_in};
ghost use Rattle.st_schema_laws.specs.Conforming.{IsConforming};
ghost use Rattle.st_tree.specs.Node.{Node};
ghost use Rattle.st_tree.specs.Preorder.{cell_named, node_named};
ghost use Rattle.st_tree.specs.declared.edit.Edit.{Edit};
ghost use Rattle.st_schema_laws.specs.AgreeingInEffect.{AgreesInLine, Told};
ghost use Rattle.st_edits.specs.InEffect.{last_in_effect, schema_in_effect};
ghost use Rattle.st_schema_laws.specs.Widening.{BecomesWider, IsTextOf};

/// The hardest step: a commit of data with moves between registers and rows, made under a schema
/// in effect, carried out whole or void.
pub fn data_is_carried()
    ensures whole { (T : Told) (D : Document) (N : Intent) (rs : List Rev) (s : SchemaView)
        → IsSoundInForm D → Fits D N → NodesConform T rs s D → T.under N.rev ≡ N.under
        → TellsHomes T.home N → Has rs N.under → ((r : Rev) → Has (T.chain N.under) r → Has rs r
        × BecomesWider (T.view r) (T.view N.under)) → BecomesWider (T.view N.under) s
        → KeepsTo T D N → NodesConform T rs s (full D N) }
    ensures void { (T : Told) (D : Document) (N : Intent) (rs : List Rev) (s : SchemaView)
        → IsSoundInForm D → Fits D N → NodesConform T rs s D → T.under N.rev ≡ N.under
        → TellsHomes T.home N → Has rs N.under → ((r : Rev) → Has (T.chain N.under) r → Has rs r
        × BecomesWider (T.view r) (T.view N.under)) → BecomesWider (T.view N.under) s
        → KeepsTo T D N → NodesConform T rs s (void_data D N) }
    ensures left { (T : Told) (D : Document) (N : Intent) (rs : List Rev) (s : SchemaView)
        → Fits D N → NodesConform T rs s D → T.under N.rev ≡ N.under → (Has rs N.under → ⊥)
        → NodesConform T rs s (void_data D N) }
{}

/// The nodes in effect conform to the last schema in effect: at the opening; after a commit that
/// keeps to the schema under which it was made wherever that is in effect, whatever its verdict,
/// also one that widens the schema; after edits of data that aren't a commit yet; and after a
/// list of such commits.
pub fn nodes_conform()
    ensures opening { (T : Told) (D : Document) → IsSoundInForm D → IsMadeUnder (opening ∷ []) D
        → revs D.schemas ≡ opening ∷ [] → T.under opening ≡ opening
        → IsConforming (T.view opening) T.home D → T.chain opening ≡ opening ∷ []
        → is_sound (T.view opening) ≡ true → ((e : SchemaEntry) → Has D.schemas e
        → IsTextOf (T.view opening) e.text) → ConformsByNodes T D }
    ensures one { (T : Told) (D : Document) (N : Intent) (v : Verdict) → IsSoundInForm D
        → Fits D N → HasShortRows (full D N) → ComesFirst T.under D N → KeepsWhereBased T D N
        → ConformsByNodes T D → IsVerdict D N v → ConformsByNodes T (carried_document v D N) }
    ensures edited { (T : Told) (D : Document) (N : Intent) → IsSoundInForm D → Fits D N
        → N.schema ≡ None → IsBaseInEffect D N → KeepsWhereBased T D N → ConformsByNodes T D
        → ConformsByNodes T (full D N) }
    ensures run { (T : Told) (rs : List Rev) (D E : Document) (Ns : List Intent) → IsSoundInForm D
        → FitInTurn D Ns → IsMadeUnder rs D → SchemasComeFirst T.under rs Ns → KeepInTurn T D Ns
        → ConformsByNodes T D → Run D Ns E → ConformsByNodes T E }
{}

/// What a document shows that conforms node by node is the JSON form of a tree that the last
/// schema in effect allows as its root.
pub fn shown_trees_are_allowed()
    ensures { (T : Told) (D : Document) (is_array : List ℕ → Bool) (d : Data) → IsSoundInForm D
        → ConformsByNodes T D → ((ty : List ℕ)
        → is_array ty ≡ is_array_type (T.view (last_in_effect D)) ty) → Shows is_array D root d
        → (t : Node) × (tree_data t ≡ d)
        × (conforms (T.view (last_in_effect D)) (T.view (last_in_effect D)).root t ≡ true) }
{}

/// What is in effect after a list of commits is in effect after each part of it that has the
/// commits under which its own were made, if it is one of these; and the last in effect is the
/// last. A commit that keeps to its schema in its author's document does so in each with the same
/// names.
pub fn authors_keep_later()
    ensures in_effect { (entries : List SchemaEntry) (As Bs : List Intent) → IsSublist As Bs
        → ((N : Intent) → Has As N → Has (revisions As ++ opening ∷ []) N.under)
        → HaveNewRevisions (opening ∷ []) Bs → (u : Rev) → Has (revisions As ++ opening ∷ []) u
        → Has (revs (schemas_after entries Bs)) u → Has (revs (schemas_after entries As)) u }
    ensures last { (entries : List SchemaEntry) (As Bs : List Intent) → IsSublist As Bs
        → ((N : Intent) → Has As N → Has (revisions As ++ opening ∷ []) N.under)
        → HaveNewRevisions (opening ∷ []) Bs → (u : Rev) → Has (revisions As ++ opening ∷ []) u
        → last_of (revs (schemas_after entries Bs)) ≡ Some u
        → last_of (revs (schemas_after entries As)) ≡ Some u }
    ensures keeps { (T : Told) (D E : Document) (N : Intent) → HasNames D E → IsSoundInForm D
        → IsSoundInForm E → Fits D N → Fits E N → HasHomes T D → KeepsTo T D N → KeepsTo T E N }
{}

/// For every list of commits, each valid where it comes: they fit in turn, and the document after
/// the list conforms node by node. It has the commits under which its own were made, so it can be
/// an author's list; and so is a front of the log with one sender's later commits. A commit that
/// is valid after a list is valid after each longer one.
pub fn valid_lists_conform()
    ensures list { (T : Told) (O : Document) (Ls : List Intent) → IsSoundInForm O
        → IsMadeUnder (opening ∷ []) O → HasHomes T O → ConformsByNodes T O → AreValid T O Ls
        → HaveNewRevisions (opening ∷ []) Ls → HasRoom O Ls → FitInTurn O Ls × ((D : Document)
        → Run O Ls D → ConformsByNodes T D) }
    ensures closed { (T : Told) (O : Document) (Ls : List Intent) → AreValid T O Ls → (M : Intent)
        → Has Ls M → Has (revisions Ls ++ opening ∷ []) M.under }
    ensures own { (T : Told) (O : Document) (front Os : List Intent) → AreValid T O front
        → AreOwnAfter T O front Os → AreValid T O (front ++ Os) }
    ensures longer { (T : Told) (O : Document) (As Bs : List Intent) (N : Intent)
        → IsSublist As Bs → IsValidAfter T O As N → IsValidAfter T O Bs N }
{}

/// The world's own commits, which keep to their schema in the part of their schema's line, pass
/// the test of valid messages.
pub fn own_commits_keep()
    ensures { (T : Told) (D : Document) (N : Intent) → Fits D N → TellsHomes T.home N
        → AgreesInLine T D N → KeepsWhereBased T D N }
{}

/// What an edit means keeps to the last schema in effect in each document that conforms node by
/// node, also after commits of strangers.
pub fn edits_keep()
    ensures { (T : Told) (D : Document) (G : NameCounters) (edit : Edit) (N : Intent)
        → IsSoundInForm D → ConformsByNodes T D → Fits D N → ((k : ℕ) → G.nodes ≤ k
        → D.nodes (node_named G.rev k) ≡ None) → ((k : ℕ) → G.cells ≤ k
        → D.row_of (cell_named G.rev k) ≡ None) → T.under N.rev ≡ N.under → TellsHomes T.home N
        → resolve D (T.view (last_in_effect D)) G edit ≡ Ok N → KeepsWhereBased T D N }
{}

/// The way back over a sound commit of data, which kept to its schema in a document that conforms
/// node by node, keeps to the last schema in effect in a later document, directly after the
/// commit.
pub fn ways_back_keep()
    ensures { (T : Told) (D E : Document) (N B : Intent) (rev : Rev) → IsSoundInForm D → Fits D N
        → HasShortRows (full D N) → N.schema ≡ None → IsVerdict D N Verdict.Sound
        → KeepsWhereBased T D N → ConformsByNodes T D → IsSoundInForm E → ConformsByNodes T E
        → ((r : Rev) → Has (revs D.schemas) r → Has (revs E.schemas) r)
        → IsBack D (full D N) rev (last_in_effect E) B → KeepsTo T (full D N) B }
{}

/// Two parts of a commit that keep to their schema, the one after the other, keep to it as one
/// intent.
pub fn joins_keep()
    ensures { (T : Told) (D : Document) (N M J : Intent) → IsSoundInForm D → AreParts D N M
        → IsJoin N M J → HasHomes T D → TellsHomes T.home N → KeepsTo T D N
        → KeepsTo T (full D N) M → KeepsTo T D J }
{}

/// There is always what is told: each commit of a list with new revisions, made under the
/// opening's schema or that of an earlier commit, is as the list tells it; and of what came
/// before the list nothing changes.
pub fn lists_are_told()
    ensures each { (T : Told) (rs : List Rev) (Ls : List Intent) → AllByRecursion IsIntent Ls
        → HaveNewRevisions rs Ls → AreUnderThese rs Ls → (N : Intent) → Has Ls N
        → IsToldBy (told_of T Ls) N }
    ensures before { (T : Told) (rs : List Rev) (Ls : List Intent) → AllByRecursion IsIntent Ls
        → HaveNewRevisions rs Ls → TellAlike rs T (told_of T Ls) }
{}

/// The schemas in effect up to one are that one's line of ancestors: so a test that speaks of the
/// first speaks of the second.
pub fn fronts_are_lines()
    ensures { (chain : Rev → List Rev) (O D : Document) (Ls : List Intent)
        → revs O.schemas ≡ opening ∷ [] → chain opening ≡ opening ∷ []
        → AllByRecursion IsIntent Ls → AllByRecursion (TellsChain chain) Ls → Run O Ls D
        → (u : Rev) (front : List Rev) → IsUpTo u (revs D.schemas) front → front ≡ chain u }
{}

/// The test said by the log alone, in the document of the author's list, gives the test said by
/// what is told of the log's commits.
pub fn tests_are_as_told()
    ensures { (T : Told) (O D : Document) (Ls As : List Intent) (N : Intent) (U : SchemaView)
        (front : List Rev) → IsMadeUnder (opening ∷ []) O → revs O.schemas ≡ opening ∷ []
        → IsSublist As Ls → HaveNewRevisions (opening ∷ []) Ls → FitInTurn O As → Run O As D
        → Fits D N → ((M : Intent) → Has Ls M → IsToldBy T M) → T.under opening ≡ opening
        → T.chain opening ≡ opening ∷ [] → ((m : NodeId) → IsSome (O.nodes m)
        → T.home m ≡ register_in (O.place m)) → ((e : SchemaEntry) → Has O.schemas e
        → T.view e.rev ≡ schema_read e.text) → IsViewOf D N.under U
        → IsUpTo N.under (revs D.schemas) front → KeepsToSchema O D Ls U front N → KeepsTo T D N }
{}

/// For every list of valid commits over a document opened: they fit in turn, and what the
/// document after them shows is the JSON form of a tree that the last schema in effect, read from
/// its text, allows as its root.
pub fn valid_entries_show_allowed_trees()
    ensures fit { (s : SchemaView) (O : Document) (Ls : List Intent) → IsOpened s O
        → AreValidEntries O Ls → HaveNewRevisions (opening ∷ []) Ls → HasRoom O Ls
        → FitInTurn O Ls }
    ensures tree { (s : SchemaView) (O D : Document) (Ls : List Intent) (is_array : List ℕ
        → Bool) (d : Data) → IsOpened s O → AreValidEntries O Ls
        → HaveNewRevisions (opening ∷ []) Ls → HasRoom O Ls → Run O Ls D → ((ty : List ℕ)
        → is_array ty ≡ is_array_type (schema_in_effect D) ty) → Shows is_array D root d
        → (t : Node) × (tree_data t ≡ d)
        × (conforms (schema_in_effect D) (schema_in_effect D).root t ≡ true) }
{}

/// For every log of valid messages over a document opened, whoever wrote them: each commit is valid
/// after those before it, and what the document of the whole log shows is the JSON form of a tree
/// that the last schema in effect, read from its text, allows as its root. Each entry in effect has
/// the text of a schema that keeps its rules.
pub fn valid_logs_show_allowed_trees()
    ensures commits { (O : Document) (log : List Entry) → IsSoundInForm O
        → IsMadeUnder (opening ∷ []) O → HasRoomForNames O → IsValidLog O log
        → AreValidEntries O (commits_in log) }
    ensures tree { (s : SchemaView) (O D : Document) (log : List Entry) (is_array : List ℕ → Bool)
        (d : Data) → IsOpened s O → HasRoomForNames O → IsValidLog O log
        → Run O (commits_in log) D → ((ty : List ℕ)
        → is_array ty ≡ is_array_type (schema_in_effect D) ty) → Shows is_array D root d
        → (t : Node) × (tree_data t ≡ d)
        × (conforms (schema_in_effect D) (schema_in_effect D).root t ≡ true) }
    ensures schemas { (s : SchemaView) (O D : Document) (log : List Entry) → IsOpened s O
        → HasRoomForNames O → IsValidLog O log → Run O (commits_in log) D → (e : SchemaEntry)
        → Has D.schemas e → (U : SchemaView) × (is_sound U ≡ true) × IsTextOf U e.text }
{}
