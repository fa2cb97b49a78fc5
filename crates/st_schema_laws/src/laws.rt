//! Laws about conformity: each is the contract of a function that does nothing.
ghost use Rattle.std.specs.Prelude.{◌≡◌, ◌≤◌, ℕ, Bool, true, false, List, ◌++◌, Option, Some, None, IsSome, IsTrue, Ok};
ghost use Rattle.serde_json.specs.Data.{Data};
ghost use Rattle.st_ids.specs.Listing.{Has};
ghost use Rattle.st_ids.specs.declared.names.CellId.{CellId};
ghost use Rattle.st_ids.specs.declared.names.FieldId.{FieldId};
ghost use Rattle.st_ids.specs.declared.names.Key.{Key};
ghost use Rattle.st_ids.specs.declared.names.NodeId.{NodeId};
ghost use Rattle.st_ids.specs.declared.names.Place.{Place};
ghost use Rattle.st_ids.specs.declared.names.Rev.{Rev};
ghost use Rattle.st_tree.specs.Node.{Node, Nodes, first, no_nodes};
ghost use Rattle.st_tree.specs.Preorder.{cell_named, node_named, opening_listed};
ghost use Rattle.st_tree.specs.declared.edit.Edit.{Edit};
ghost use Rattle.st_schema.specs.Schema.{SchemaView, is_sound};
ghost use Rattle.st_schema.specs.Conforms.{conforms, allows_of};
ghost use Rattle.st_schema.specs.TreeText.{tree_data};
ghost use Rattle.st_schema.specs.Wider.{wider_of};
ghost use Rattle.st_marks.specs.declared.intents.Intent.{Intent};
ghost use Rattle.st_marks.specs.declared.verdicts.Verdict.{Verdict};
ghost use Rattle.st_marks.specs.Document.{Document, NodeType, IsSoundInForm};
ghost use Rattle.st_ids.specs.Root.{root};
ghost use Rattle.st_marks.specs.Back.{IsBack};
ghost use Rattle.st_marks.specs.CarryOut.{full};
ghost use Rattle.st_marks.specs.Extends.{IsExtendedBy};
ghost use Rattle.st_marks.specs.Join.{AreParts, IsJoin};
ghost use Rattle.st_marks.specs.Intent.{Fits, IsIntent, is_new, new_row_of, put_of};
ghost use Rattle.st_marks.specs.LiveTree.{Shows};
ghost use Rattle.st_marks.specs.Run.{Run, FitsInTurn};
ghost use Rattle.st_marks.specs.Verdict.{carried_document};
ghost use Rattle.st_log_laws.specs.Names.{HasNames, IsMadeUnder, revisions};
ghost use Rattle.st_log_laws.specs.Turns.{FitInTurn, IsSublist};
ghost use Rattle.st_opening.specs.Start.{start_of};
ghost use Rattle.st_edits.specs.declared.names.NameCounters.{NameCounters};
ghost use Rattle.st_edits.specs.Resolve.{clear, insert, move as move_of, need, put, remove, resolve};
ghost use Rattle.st_edits.specs.Fields.{register_in, type_fits};
ghost use Rattle.st_schema_laws.specs.Conforming.{IsConforming};
ghost use Rattle.st_schema_laws.specs.Agreeing.{KeepsSchema, KeepsSchemaInTurn, KeepSchemaInTurn, TellsHomes, with_homes};
ghost use Rattle.st_edits.specs.ArrayTypes.{is_array_type};

/// An intent that fits a conforming document and agrees with the schema there leaves a conforming document, whatever its
/// verdict is: carried out whole, or void.
pub fn carrying_out_conforms()
    ensures { (s : SchemaView) (home : NodeId → Option FieldId) (D : Document) (N : Intent) (v : Verdict) → IsSoundInForm D → Fits D N
        → IsConforming s home D → KeepsSchema s home D N → IsConforming s home (carried_document v D N) }
{}

/// An intent that agrees with the schema in a document agrees with it in each one that has the nodes and cells of that
/// document, and none of the names that the intent makes.
pub fn agrees_elsewhere()
    ensures { (s : SchemaView) (home : NodeId → Option FieldId) (D E : Document) (N : Intent) → KeepsSchema s home D N
        → ((n : NodeId) (t : NodeType) → D.nodes n ≡ Some t → E.nodes n ≡ Some t)
        → ((c : CellId) (n : NodeId) → D.row_of c ≡ Some n → E.row_of c ≡ Some n)
        → ((n : NodeId) → IsTrue (is_new N n) → E.nodes n ≡ None)
        → ((c : CellId) → IsSome (new_row_of N c) → E.row_of c ≡ None)
        → KeepsSchema s home E N }
{}

/// What a removal, an emptied field, a need and a move mean agrees with the schema in the conforming document where the
/// edit was resolved.
pub fn simple_edits_agree()
    ensures remove { (s : SchemaView) (home : NodeId → Option FieldId) (D : Document) (G : NameCounters) (at : List Place) (key : Key) (index count : ℕ) (N : Intent)
        → IsSoundInForm D → IsConforming s home D → remove D s G at key index count ≡ Ok N → KeepsSchema s home D N }
    ensures clear { (s : SchemaView) (home : NodeId → Option FieldId) (D : Document) (G : NameCounters) (at : List Place) (key : Key) (N : Intent)
        → clear D s G at key ≡ Ok N → KeepsSchema s home D N }
    ensures need { (s : SchemaView) (home : NodeId → Option FieldId) (D : Document) (G : NameCounters) (at : List Place) (N : Intent)
        → need D G at ≡ Ok N → KeepsSchema s home D N }
    ensures moves { (s : SchemaView) (home : NodeId → Option FieldId) (D : Document) (G : NameCounters) (at : List Place) (key : Key) (index count : ℕ) (to : List Place) (to_key : Key) (to_index : ℕ) (N : Intent)
        → IsSoundInForm D → is_sound s ≡ true → IsConforming s home D → ((k : ℕ) → G.cells ≤ k → D.row_of (cell_named G.rev k) ≡ None)
        → move_of D s G at key index count to to_key to_index ≡ Ok N → KeepsSchema s home D N }
{}

/// A change of schema has nothing else, and so agrees with every schema.
pub fn schema_changes_agree()
    ensures { (s : SchemaView) (home : NodeId → Option FieldId) (D : Document) (N : Intent) → IsIntent N → IsSome N.schema → KeepsSchema s home D N }
{}

/// What new items of a row, and a new tree in a field, mean agrees with the schema, where the homes of new nodes are the
/// registers into which they are put.
pub fn new_trees_agree()
    ensures insert { (s : SchemaView) (home : NodeId → Option FieldId) (D : Document) (G : NameCounters) (at : List Place) (key : Key) (index : ℕ) (trees : Nodes) (N : Intent)
        → IsSoundInForm D → is_sound s ≡ true
        → ((k : ℕ) → G.nodes ≤ k → D.nodes (node_named G.rev k) ≡ None) → ((k : ℕ) → G.cells ≤ k → D.row_of (cell_named G.rev k) ≡ None)
        → TellsHomes home N → insert D s G at key index trees ≡ Ok N → KeepsSchema s home D N }
    ensures put { (s : SchemaView) (home : NodeId → Option FieldId) (D : Document) (G : NameCounters) (at : List Place) (key : Key) (t : Node) (N : Intent)
        → IsSoundInForm D → is_sound s ≡ true
        → ((k : ℕ) → G.nodes ≤ k → D.nodes (node_named G.rev k) ≡ None) → ((k : ℕ) → G.cells ≤ k → D.row_of (cell_named G.rev k) ≡ None)
        → TellsHomes home N → put D s G at key (first t no_nodes) ≡ Ok N → KeepsSchema s home D N }
{}

/// What an edit means agrees with the schema in the conforming document where it was resolved.
pub fn resolved_edits_agree()
    ensures { (s : SchemaView) (home : NodeId → Option FieldId) (D : Document) (G : NameCounters) (edit : Edit) (N : Intent)
        → IsSoundInForm D → is_sound s ≡ true → IsConforming s home D
        → ((k : ℕ) → G.nodes ≤ k → D.nodes (node_named G.rev k) ≡ None) → ((k : ℕ) → G.cells ≤ k → D.row_of (cell_named G.rev k) ≡ None)
        → TellsHomes home N → resolve D s G edit ≡ Ok N → KeepsSchema s home D N }
{}

/// An edit that was resolved in one conforming document, and comes in another that has the nodes and cells of the first and
/// that its intent fits, leaves a conforming document, whatever its verdict is there.
pub fn resolved_edits_keep_conformity()
    ensures { (s : SchemaView) (home : NodeId → Option FieldId) (D E : Document) (G : NameCounters) (edit : Edit) (N : Intent) (v : Verdict)
        → IsSoundInForm D → is_sound s ≡ true → IsConforming s home D
        → ((k : ℕ) → G.nodes ≤ k → D.nodes (node_named G.rev k) ≡ None) → ((k : ℕ) → G.cells ≤ k → D.row_of (cell_named G.rev k) ≡ None)
        → TellsHomes home N → resolve D s G edit ≡ Ok N
        → IsSoundInForm E → Fits E N → IsConforming s home E
        → ((n : NodeId) (t : NodeType) → D.nodes n ≡ Some t → E.nodes n ≡ Some t)
        → ((c : CellId) (n : NodeId) → D.row_of c ≡ Some n → E.row_of c ≡ Some n)
        → IsConforming s home (carried_document v E N) }
{}

/// A run of intents, each of which fits and agrees with the schema where it comes, leads from a conforming document to a
/// conforming one.
pub fn runs_conform()
    ensures { (s : SchemaView) (home : NodeId → Option FieldId) (D E : Document) (Ns : List Intent) (r : Run D Ns E) → IsSoundInForm D → FitsInTurn r
        → IsConforming s home D → KeepsSchemaInTurn s home r → IsConforming s home E }
{}

/// Lists of intents, each of which agrees with the schema where it comes: a front of such a list, what comes after it, two
/// lists that follow one another, and the document after one, which conforms where the one before does.
pub fn agree_in_turn()
    ensures front { (s : SchemaView) (home : NodeId → Option FieldId) (D : Document) (Ns Ms : List Intent) → KeepSchemaInTurn s home D (Ns ++ Ms) → KeepSchemaInTurn s home D Ns }
    ensures rest { (s : SchemaView) (home : NodeId → Option FieldId) (D E : Document) (Ns Ms : List Intent) → KeepSchemaInTurn s home D (Ns ++ Ms) → Run D Ns E → KeepSchemaInTurn s home E Ms }
    ensures then_one { (s : SchemaView) (home : NodeId → Option FieldId) (D E : Document) (Ns Ms : List Intent) → KeepSchemaInTurn s home D Ns → Run D Ns E → KeepSchemaInTurn s home E Ms
        → KeepSchemaInTurn s home D (Ns ++ Ms) }
    ensures conforms { (s : SchemaView) (home : NodeId → Option FieldId) (D E : Document) (Ns : List Intent) → IsSoundInForm D → FitInTurn D Ns → IsConforming s home D
        → KeepSchemaInTurn s home D Ns → Run D Ns E → IsConforming s home E }
{}

/// Intents that agree with the schema after some intents agree with it after a longer list that has those in their order:
/// what its author resolved agrees where it is received.
pub fn agree_later()
    ensures beside { (s : SchemaView) (home : NodeId → Option FieldId) (D E : Document) (Ns : List Intent) → HasNames D E → IsSoundInForm D → IsSoundInForm E
        → FitInTurn D Ns → FitInTurn E Ns → KeepSchemaInTurn s home D Ns → KeepSchemaInTurn s home E Ns }
    ensures longer { (s : SchemaView) (home : NodeId → Option FieldId) (D : Document) (As Bs Ns : List Intent) → IsSoundInForm D → IsSublist As Bs
        → FitInTurn D (As ++ Ns) → FitInTurn D (Bs ++ Ns) → KeepSchemaInTurn s home D Bs → KeepSchemaInTurn s home D (As ++ Ns) → KeepSchemaInTurn s home D (Bs ++ Ns) }
{}

/// The homes of an intent's new nodes can be told beside those that are told already: neither a document without those
/// nodes nor an intent that doesn't make or put them sees a difference. So there are homes for all commits at once.
pub fn homes_can_be_told()
    ensures tells { (home : NodeId → Option FieldId) (N : Intent) → TellsHomes (with_homes home N) N }
    ensures documents { (s : SchemaView) (home : NodeId → Option FieldId) (D : Document) (N : Intent) → IsSoundInForm D
        → ((n : NodeId) → IsTrue (is_new N n) → D.nodes n ≡ None) → IsConforming s home D → IsConforming s (with_homes home N) D }
    ensures intents { (s : SchemaView) (home : NodeId → Option FieldId) (D : Document) (N M : Intent)
        → ((m : NodeId) → IsSome (put_of M m) → is_new N m ≡ false) → ((m : NodeId) → IsTrue (is_new M m) → is_new N m ≡ false) → KeepsSchema s home D M → KeepsSchema s (with_homes home N) D M }
    ensures lists { (s : SchemaView) (home : NodeId → Option FieldId) (rs : List Rev) (D : Document) (N : Intent) (Ns : List Intent) → IsIntent N → IsMadeUnder rs D → FitInTurn D Ns
        → (Has (revisions Ns ++ rs) N.rev → ⊥) → KeepSchemaInTurn s home D Ns → KeepSchemaInTurn s (with_homes home N) D Ns }
{}

/// The intent that leads back from a conforming document to an earlier one agrees with the schema.
pub fn ways_back_agree()
    ensures { (s : SchemaView) (home : NodeId → Option FieldId) (D E : Document) (rev under : Rev) (B : Intent) → IsExtendedBy D E
        → IsConforming s home D → IsConforming s home E → IsBack D E rev under B → KeepsSchema s home E B }
{}

/// Two parts of a commit, of which the second agrees with the schema after the first, agree with it as one intent.
pub fn joins_agree()
    ensures { (s : SchemaView) (home : NodeId → Option FieldId) (D : Document) (N M J : Intent) → IsSoundInForm D → AreParts D N M → IsJoin N M J
        → IsConforming s home D → KeepsSchema s home D N → KeepsSchema s home (full D N) M → KeepsSchema s home D J }
{}

/// A document that conforms to a schema conforms to each wider one, and an intent that agrees with it, in a document whose
/// nodes have types as it should, agrees with the wider one. So intents that were made before a schema was widened keep
/// conformity after it.
pub fn wider_schemas_conform()
    ensures documents { (old new : SchemaView) (home : NodeId → Option FieldId) (D : Document) → is_sound new ≡ true → wider_of old new ≡ Ok tt
        → IsConforming old home D → IsConforming new home D }
    ensures intents { (old new : SchemaView) (home : NodeId → Option FieldId) (D : Document) (N : Intent) → is_sound new ≡ true → wider_of old new ≡ Ok tt
        → ((n : NodeId) (t : NodeType) → D.nodes n ≡ Some t → type_fits old t.ty t.leaf ≡ true) → KeepsSchema old home D N → KeepsSchema new home D N }
{}

/// The opening document of a tree that the schema allows as its root is conforming, where the home of each node is the
/// register in which it stands.
pub fn opening_conforms()
    ensures { (s : SchemaView) (home : NodeId → Option FieldId) (t : Node) (schema : List ℕ) → is_sound s ≡ true → allows_of s s.root t ≡ Ok tt
        → ((m : NodeId) → IsSome ((start_of (opening_listed t) schema).nodes m) → home m ≡ register_in ((start_of (opening_listed t) schema).place m))
        → IsConforming s home (start_of (opening_listed t) schema) }
{}

/// What a conforming document shows is the JSON form of a tree that the schema allows as its root.
pub fn a_conforming_document_shows_an_allowed_tree()
    ensures { (s : SchemaView) (home : NodeId → Option FieldId) (D : Document) (is_array : List ℕ → Bool) (d : Data) → is_sound s ≡ true → IsSoundInForm D → IsConforming s home D
        → ((ty : List ℕ) → is_array ty ≡ is_array_type s ty) → Shows is_array D root d → (t : Node) × (tree_data t ≡ d) × (conforms s s.root t ≡ true) }
{}
