//! Laws about documents: each is the contract of a function that does nothing.
ghost use Rattle.std.specs.Prelude.{ℕ, Bool, List, IsSome};
ghost use Rattle.serde_json.specs.Data.{Data};
ghost use Rattle.st_ids.specs.Listing.{Has};
ghost use Rattle.st_ids.specs.declared.names.NodeId.{NodeId as Node};
ghost use Rattle.st_marks.specs.Document.{Document, IsSoundInForm};
ghost use Rattle.st_marks.specs.LiveTree.{Shows};

/// Each node of a document shows a tree, where the document is sound in form and all its nodes are in a list.
pub fn each_node_shows_a_tree()
    ensures { (is_array : List ℕ → Bool) (D : Document) (ns : List Node) → IsSoundInForm D → ((n : Node) → IsSome (D.nodes n) → Has ns n)
        → (n : Node) → IsSome (D.nodes n) → (t : Data) × Shows is_array D n t }
{}
