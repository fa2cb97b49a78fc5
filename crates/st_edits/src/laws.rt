//! Laws about edits: each is the contract of a function that does nothing.
ghost use Rattle.std.specs.Prelude.{◌≡◌, ◌≤◌, ℕ, ◌+◌, true, List, None, Ok, length};
ghost use Rattle.st_ids.specs.declared.names.Key.{Key};
ghost use Rattle.st_ids.specs.declared.names.Place.{Place};
ghost use Rattle.st_tree.specs.Node.{Node, Nodes, first, no_nodes};
ghost use Rattle.st_tree.specs.Preorder.{cell_named, node_named};
ghost use Rattle.st_tree.specs.declared.edit.Edit.{Edit};
ghost use Rattle.st_schema.specs.Schema.{SchemaView, is_sound};
ghost use Rattle.st_marks.specs.declared.intents.Intent.{Intent};
ghost use Rattle.st_marks.specs.Document.{Document, IsSoundInForm};
ghost use Rattle.st_marks.specs.Intent.{Fits, group_cells};
ghost use Rattle.st_edits.specs.declared.names.NameCounters.{NameCounters};
ghost use Rattle.st_edits.specs.Given.{IsCountedFrom, cells_unused};
ghost use Rattle.st_edits.specs.Resolve.{clear, insert, move as move_of, need, put, remove, resolve};

/// What a removal, a move, an emptied field and a need mean fits the document where the edit was resolved. A move takes
/// cells whose names are not there yet.
pub fn simple_edits_fit()
    ensures remove { (D : Document) (s : SchemaView) (G : NameCounters) (at : List Place) (key : Key) (index count : ℕ) (N : Intent) → IsSoundInForm D
        → remove D s G at key index count ≡ Ok N → Fits D N }
    ensures moves { (D : Document) (s : SchemaView) (G : NameCounters) (at : List Place) (key : Key) (index count : ℕ) (to : List Place) (to_key : Key) (to_index : ℕ) (N : Intent)
        → IsSoundInForm D → is_sound s ≡ true → ((k : ℕ) → G.cells ≤ k → D.row_of (cell_named G.rev k) ≡ None)
        → move_of D s G at key index count to to_key to_index ≡ Ok N → Fits D N }
    ensures clear { (D : Document) (s : SchemaView) (G : NameCounters) (at : List Place) (key : Key) (N : Intent) → IsSoundInForm D → is_sound s ≡ true
        → clear D s G at key ≡ Ok N → Fits D N }
    ensures need { (D : Document) (G : NameCounters) (at : List Place) (N : Intent) → IsSoundInForm D → need D G at ≡ Ok N → Fits D N }
{}

/// What new items of a row, and a new tree in a field, mean fits the document where the edit was resolved. They take nodes
/// and cells whose names are not there yet.
pub fn new_trees_fit()
    ensures insert { (D : Document) (s : SchemaView) (G : NameCounters) (at : List Place) (key : Key) (index : ℕ) (trees : Nodes) (N : Intent) → IsSoundInForm D
        → ((k : ℕ) → G.nodes ≤ k → D.nodes (node_named G.rev k) ≡ None) → ((k : ℕ) → G.cells ≤ k → D.row_of (cell_named G.rev k) ≡ None)
        → insert D s G at key index trees ≡ Ok N → Fits D N }
    ensures put { (D : Document) (s : SchemaView) (G : NameCounters) (at : List Place) (key : Key) (t : Node) (N : Intent) → IsSoundInForm D → is_sound s ≡ true
        → ((k : ℕ) → G.nodes ≤ k → D.nodes (node_named G.rev k) ≡ None) → ((k : ℕ) → G.cells ≤ k → D.row_of (cell_named G.rev k) ≡ None)
        → put D s G at key (first t no_nodes) ≡ Ok N → Fits D N }
{}

/// What an edit means fits the document where it was resolved, if that is sound in form, the schema keeps its rules, and the
/// names that the commit may still give are not there yet.
pub fn resolved_edits_fit()
    ensures { (D : Document) (s : SchemaView) (G : NameCounters) (edit : Edit) (N : Intent) → IsSoundInForm D → is_sound s ≡ true
        → ((k : ℕ) → G.nodes ≤ k → D.nodes (node_named G.rev k) ≡ None) → ((k : ℕ) → G.cells ≤ k → D.row_of (cell_named G.rev k) ≡ None)
        → resolve D s G edit ≡ Ok N → Fits D N }
{}

/// What an edit means makes the next names that the commit may give, and as many as it has nodes and cells, with one cell
/// more where an item is set, which needs none; a commit that had room before has room for them.
pub fn resolved_edits_count_on()
    ensures { (D : Document) (s : SchemaView) (G : NameCounters) (edit : Edit) (N : Intent)
        → resolve D s G edit ≡ Ok N → IsCountedFrom G (length N.new) (length (group_cells N) + cells_unused edit) N }
{}
