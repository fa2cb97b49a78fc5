//! Laws about edits and trees: each is the contract of a function that does nothing.
ghost use Rattle.std.specs.Prelude.{Some, ◌≡◌, ◌≤◌, ◌<◌, ◌^◌, ℕ, Bool, true, List, None, Ok, IsTrue};
ghost use Rattle.serde_json.specs.Data.{Data};
ghost use Rattle.st_ids.specs.declared.names.Key.{Key};
ghost use Rattle.st_ids.specs.declared.names.NodeId.{NodeId};
ghost use Rattle.st_ids.specs.declared.names.Place.{Place};
ghost use Rattle.st_tree.specs.Node.{Node, Nodes, first, no_nodes};
ghost use Rattle.st_tree.specs.Preorder.{cell_named, node_named, opening_listed};
ghost use Rattle.st_tree.specs.Size.{node_count};
ghost use Rattle.st_tree.specs.declared.edit.Edit.{Edit};
ghost use Rattle.st_schema.specs.Conforms.{conforms};
ghost use Rattle.st_schema.specs.Schema.{SchemaView, is_sound};
ghost use Rattle.st_schema.specs.TreeText.{tree_data, trees_data};
ghost use Rattle.st_marks.specs.declared.intents.Intent.{Intent};
ghost use Rattle.st_marks.specs.declared.verdicts.Verdict.{Verdict};
ghost use Rattle.st_marks.specs.Document.{NodeType, Document, IsSoundInForm};
ghost use Rattle.st_ids.specs.Root.{root};
ghost use Rattle.st_marks.specs.Intent.{Fits, is_new};
ghost use Rattle.st_marks.specs.CarryOut.{full};
ghost use Rattle.st_marks.specs.Verdict.{IsVerdict, carried_document};
ghost use Rattle.st_marks.specs.LiveTree.{Shows};
ghost use Rattle.st_opening.specs.Start.{start_of};
ghost use Rattle.st_edits.specs.declared.names.NameCounters.{NameCounters};
ghost use Rattle.st_edits.specs.Resolve.{clear, insert, move as move_of, need, put, remove, resolve};
ghost use Rattle.st_schema_laws.specs.Alike.{AreAlikeFrom};
ghost use Rattle.st_schema_laws.specs.Edited.{TellsRows, at_path, data_items, with_items, with_key, without_items, without_key};
ghost use Rattle.st_schema_laws.specs.Edits.{tree_after_edit};
ghost use Rattle.st_schema_laws.specs.Moved.{moved_in};
ghost use Rattle.st_schema_laws.specs.Typed.{IsAsTyped, IsTypedIntent};

/// Documents that are alike at each node from one downwards show one tree there.
pub fn same_below_same_tree()
    ensures { (is_array : List ℕ → Bool) (D E : Document) (n : NodeId) (d : Data) → IsSoundInForm D → AreAlikeFrom D E n → Shows is_array D n d → Shows is_array E n d }
{}

/// A removal is sound, and shows the tree without the items.
pub fn removal_is_seen()
    ensures verdict { (D : Document) (s : SchemaView) (G : NameCounters) (at : List Place) (key : Key) (index count : ℕ) (N : Intent) → IsSoundInForm D
        → remove D s G at key index count ≡ Ok N → IsVerdict D N Verdict.Sound }
    ensures tree { (is_array : List ℕ → Bool) (D : Document) (s : SchemaView) (G : NameCounters) (at : List Place) (key : Key) (index count : ℕ) (N : Intent) (d : Data) → IsSoundInForm D
        → is_sound s ≡ true → TellsRows is_array s → remove D s G at key index count ≡ Ok N → Shows is_array D root d → Shows is_array (full D N) root (at_path at (without_items index count) d) }
{}

/// An emptied field is sound, and shows the tree with nothing under the key.
pub fn clearing_is_seen()
    ensures verdict { (D : Document) (s : SchemaView) (G : NameCounters) (at : List Place) (key : Key) (N : Intent) → IsSoundInForm D
        → clear D s G at key ≡ Ok N → IsVerdict D N Verdict.Sound }
    ensures tree { (is_array : List ℕ → Bool) (D : Document) (s : SchemaView) (G : NameCounters) (at : List Place) (key : Key) (N : Intent) (d : Data) → IsSoundInForm D
        → is_sound s ≡ true → TellsRows is_array s → clear D s G at key ≡ Ok N → Shows is_array D root d → Shows is_array (full D N) root (at_path at (without_key key.0) d) }
{}

/// A need of a node that a path leads to is sound, and changes nothing that is shown.
pub fn needing_is_seen()
    ensures verdict { (D : Document) (G : NameCounters) (at : List Place) (N : Intent) → IsSoundInForm D → need D G at ≡ Ok N → IsVerdict D N Verdict.Sound }
    ensures tree { (is_array : List ℕ → Bool) (D : Document) (G : NameCounters) (at : List Place) (N : Intent) (d : Data) → IsSoundInForm D
        → need D G at ≡ Ok N → Shows is_array D root d → Shows is_array (full D N) root d }
{}

/// New items in a row are sound, and show the tree with the new trees before the item of the index.
pub fn insertion_is_seen()
    ensures verdict { (D : Document) (s : SchemaView) (G : NameCounters) (at : List Place) (key : Key) (index : ℕ) (trees : Nodes) (N : Intent) → IsSoundInForm D
        → ((k : ℕ) → G.nodes ≤ k → D.nodes (node_named G.rev k) ≡ None) → ((k : ℕ) → G.cells ≤ k → D.row_of (cell_named G.rev k) ≡ None)
        → insert D s G at key index trees ≡ Ok N → IsVerdict D N Verdict.Sound }
    ensures tree { (is_array : List ℕ → Bool) (D : Document) (s : SchemaView) (G : NameCounters) (at : List Place) (key : Key) (index : ℕ) (trees : Nodes) (N : Intent) (d : Data) → IsSoundInForm D
        → is_sound s ≡ true → TellsRows is_array s
        → ((k : ℕ) → G.nodes ≤ k → D.nodes (node_named G.rev k) ≡ None) → ((k : ℕ) → G.cells ≤ k → D.row_of (cell_named G.rev k) ≡ None)
        → insert D s G at key index trees ≡ Ok N → Shows is_array D root d → Shows is_array (full D N) root (at_path at (with_items index (data_items (trees_data trees))) d) }
{}

/// A new tree in a field is sound, and shows the tree with the new one under the key, in the place of what was there.
pub fn setting_is_seen()
    ensures verdict { (D : Document) (s : SchemaView) (G : NameCounters) (at : List Place) (key : Key) (t : Node) (N : Intent) → IsSoundInForm D → is_sound s ≡ true
        → ((k : ℕ) → G.nodes ≤ k → D.nodes (node_named G.rev k) ≡ None) → ((k : ℕ) → G.cells ≤ k → D.row_of (cell_named G.rev k) ≡ None)
        → put D s G at key (first t no_nodes) ≡ Ok N → IsVerdict D N Verdict.Sound }
    ensures tree { (is_array : List ℕ → Bool) (D : Document) (s : SchemaView) (G : NameCounters) (at : List Place) (key : Key) (t : Node) (N : Intent) (d : Data) → IsSoundInForm D
        → is_sound s ≡ true → TellsRows is_array s
        → ((k : ℕ) → G.nodes ≤ k → D.nodes (node_named G.rev k) ≡ None) → ((k : ℕ) → G.cells ≤ k → D.row_of (cell_named G.rev k) ≡ None)
        → put D s G at key (first t no_nodes) ≡ Ok N → Shows is_array D root d → Shows is_array (full D N) root (at_path at (with_key key.0 (tree_data t)) d) }
{}

/// A move is sound, and shows the tree with the moved trees taken away and then put where the target is. Of documents whose
/// nodes have what their types say, for a move takes what the path leads to in the tree.
pub fn move_is_seen()
    ensures verdict { (D : Document) (s : SchemaView) (G : NameCounters) (at : List Place) (key : Key) (index count : ℕ) (to : List Place) (to_key : Key) (to_index : ℕ) (N : Intent) → IsSoundInForm D → is_sound s ≡ true
        → ((k : ℕ) → G.cells ≤ k → D.row_of (cell_named G.rev k) ≡ None)
        → move_of D s G at key index count to to_key to_index ≡ Ok N → IsVerdict D N Verdict.Sound }
    ensures tree { (is_array : List ℕ → Bool) (D : Document) (s : SchemaView) (G : NameCounters) (at : List Place) (key : Key) (index count : ℕ) (to : List Place) (to_key : Key) (to_index : ℕ) (N : Intent) (d : Data) → IsSoundInForm D
        → is_sound s ≡ true → TellsRows is_array s → IsAsTyped is_array D → ((k : ℕ) → G.cells ≤ k → D.row_of (cell_named G.rev k) ≡ None)
        → move_of D s G at key index count to to_key to_index ≡ Ok N → Shows is_array D root d → Shows is_array (full D N) root (moved_in at key index count to to_key to_index d) }
{}

/// Any edit that resolves is sound where it was resolved, and shows the tree that the edit makes of the tree before.
pub fn edits_are_seen()
    ensures verdict { (D : Document) (s : SchemaView) (G : NameCounters) (edit : Edit) (N : Intent) → IsSoundInForm D → is_sound s ≡ true
        → ((k : ℕ) → G.nodes ≤ k → D.nodes (node_named G.rev k) ≡ None) → ((k : ℕ) → G.cells ≤ k → D.row_of (cell_named G.rev k) ≡ None)
        → resolve D s G edit ≡ Ok N → IsVerdict D N Verdict.Sound }
    ensures tree { (is_array : List ℕ → Bool) (D : Document) (s : SchemaView) (G : NameCounters) (edit : Edit) (N : Intent) (d : Data) → IsSoundInForm D → is_sound s ≡ true → TellsRows is_array s → IsAsTyped is_array D
        → ((k : ℕ) → G.nodes ≤ k → D.nodes (node_named G.rev k) ≡ None) → ((k : ℕ) → G.cells ≤ k → D.row_of (cell_named G.rev k) ≡ None)
        → resolve D s G edit ≡ Ok N → Shows is_array D root d → Shows is_array (full D N) root (tree_after_edit edit d) }
{}

/// What an edit means is typed, where the document is.
pub fn resolved_edits_are_typed()
    ensures { (is_array : List ℕ → Bool) (D : Document) (s : SchemaView) (G : NameCounters) (edit : Edit) (N : Intent) → IsSoundInForm D → is_sound s ≡ true → TellsRows is_array s → IsAsTyped is_array D
        → ((k : ℕ) → G.nodes ≤ k → D.nodes (node_named G.rev k) ≡ None) → ((k : ℕ) → G.cells ≤ k → D.row_of (cell_named G.rev k) ≡ None)
        → resolve D s G edit ≡ Ok N → IsTypedIntent is_array D N }
{}

/// A typed intent keeps a document as typed, carried out whole or by whatever verdict, and stays typed in each document
/// that has the nodes of the first and none that it makes.
pub fn typed_intents_keep_types()
    ensures whole { (is_array : List ℕ → Bool) (D : Document) (N : Intent) → IsSoundInForm D → IsAsTyped is_array D → IsTypedIntent is_array D N → IsAsTyped is_array (full D N) }
    ensures carried { (is_array : List ℕ → Bool) (D : Document) (N : Intent) (v : Verdict) → IsSoundInForm D → IsAsTyped is_array D → IsTypedIntent is_array D N → IsAsTyped is_array (carried_document v D N) }
    ensures later { (is_array : List ℕ → Bool) (D E : Document) (N : Intent) → ((n : NodeId) (t : NodeType) → D.nodes n ≡ Some t → E.nodes n ≡ Some t) → Fits D N
        → ((n : NodeId) → IsTrue (is_new N n) → E.nodes n ≡ None) → IsTypedIntent is_array D N → IsTypedIntent is_array E N }
{}

/// The opening document of a tree that the schema allows shows that tree, and is as typed.
pub fn opening_is_seen()
    ensures tree { (is_array : List ℕ → Bool) (s : SchemaView) (types : List (List ℕ)) (t : Node) (schema : List ℕ) → TellsRows is_array s → conforms s types t ≡ true → node_count t < 2 ^ 32
        → Shows is_array (start_of (opening_listed t) schema) root (tree_data t) }
    ensures typed { (is_array : List ℕ → Bool) (s : SchemaView) (types : List (List ℕ)) (t : Node) (schema : List ℕ) → TellsRows is_array s → conforms s types t ≡ true → node_count t < 2 ^ 32
        → IsAsTyped is_array (start_of (opening_listed t) schema) }
{}
