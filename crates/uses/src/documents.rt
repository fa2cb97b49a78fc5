//! A use of `st_doc`.
ghost use Rattle.std.specs.Prelude.{◌≡◌, true, Ok, IfOk};
ghost use Rattle.serde_json.specs.Written.{compact_text};
ghost use Rattle.st_tree.specs.Node.{view};
ghost use Rattle.st_tree.specs.Size.{check_of};
ghost use Rattle.st_schema.specs.Conforms.{conforms};
ghost use Rattle.st_schema.specs.TreeText.{tree_data};
ghost use Rattle.st_doc.specs.LiveText.{is_among};
ghost use Rattle.st_schema_laws.specs.Edited.{TellsRows};

use st_doc::Doc;
use st_ids::Text;
use st_marks::one_tree;
use st_schema::{Schema, allowed_has_form};
use st_schema_laws::opening_is_seen;
use st_tree::Tree;
use std::alloc::{AllocError, Global};

/// Opens a document with a tree that its schema allows, and writes it: the text is that of the tree. `arrays` are the
/// schema's types whose nodes have a row.
pub fn open_and_write(
    alloc: Global,
    schema: &Schema,
    arrays: &[Text],
    tree: &Tree,
) -> Result<Text, AllocError>
    requires within { check_of (view tree.now) ≡ Ok tt }
    requires allowed { conforms schema.now schema.now.root (view tree.now) ≡ true }
    requires arrays { TellsRows (is_among arrays.now) schema.now }
    ensures { IfOk result (λ text. text ≡ compact_text (tree_data (view tree.now))) }
{
    allowed_has_form();
    opening_is_seen();
    one_tree();
    let schema = schema.text(alloc)?;
    let doc = Doc::start(alloc, schema, tree)?;
    let text = doc.whole(alloc, arrays)?;
    Ok(text)
}
