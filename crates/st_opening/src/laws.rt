//! Laws about documents: each is the contract of a function that does nothing.
ghost use Rattle.std.specs.Prelude.{◌≡◌, ◌<◌, ◌^◌, ℕ, true, List};
ghost use Rattle.st_marks.specs.Document.{IsSoundInForm};
ghost use Rattle.st_tree.specs.Form.{has_form};
ghost use Rattle.st_tree.specs.Node.{Node};
ghost use Rattle.st_tree.specs.Preorder.{opening_listed};
ghost use Rattle.st_tree.specs.Size.{node_count};
ghost use Rattle.st_opening.specs.Start.{start_of};

/// The opening document of a tree of the form is sound in form.
pub fn start_is_sound()
    ensures { (t : Node) (schema : List ℕ) → has_form t ≡ true → node_count t < 2 ^ 32 → IsSoundInForm (start_of (opening_listed t) schema) }
{}
