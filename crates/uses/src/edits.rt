//! A use of `st_resolve`, with `st_doc`.
ghost use Rattle.std.specs.Prelude.{◌≡◌, ◌<◌, ◌^◌, ℕ, Bool, List as Seq, length, Ok, Err, IfOk, OnOk};
ghost use Rattle.serde_json.specs.Data.{Data};
ghost use Rattle.st_ids.specs.Or.{IfRefused};
ghost use Rattle.st_ids.specs.Root.{root};
ghost use Rattle.st_tree.specs.Node.{trees_view};
ghost use Rattle.st_tree.specs.Size.{check_items};
ghost use Rattle.st_schema.specs.TreeText.{trees_data};
ghost use Rattle.st_marks.specs.Document.{IsSoundInForm};
ghost use Rattle.st_marks.specs.LiveTree.{Shows};
ghost use Rattle.st_doc.specs.Doc.{document_of};
ghost use Rattle.st_edits.specs.Resolve.{insert};
ghost use Rattle.st_schema_laws.specs.Edited.{TellsRows, at_path, data_items, with_items};
ghost use Rattle.uses.specs.Fresh.{AreFresh};

use st_doc::Doc;
use st_edits::{NameCounters, new_trees_fit};
use st_ids::{Key, List, Or, Path};
use st_marks::{Verdict, one_verdict};
use st_resolve::insert;
use st_schema::Schema;
use st_schema_laws::insertion_is_seen;
use st_tree::{EditFault, Tree};
use std::alloc::Global;

/// Inserts items into a row of a document, as a commit of its author. It is never void: the document shows the tree that it
/// showed, with the items before the one of the index. A refused insertion changes nothing.
pub fn insert_items(
    alloc: Global,
    doc: &mut Doc,
    schema: &Schema,
    given: NameCounters,
    at: &Path,
    key: &Key,
    index: u32,
    items: &List<Tree>,
) -> Result<Verdict, Or<EditFault>>
    requires sound { IsSoundInForm (document_of doc.old) }
    requires fresh { AreFresh (document_of doc.old) given }
    requires within { check_items (trees_view items.now) ≡ Ok tt }
    requires limits { (length at.now < 2 ^ 32) × (given.nodes < 2 ^ 31) × (given.cells < 2 ^ 31) }
    ensures verdict { IfOk result (λ v. v ≡ Verdict.Sound) }
    ensures shown { OnOk result ((is_array : Seq ℕ → Bool) (d : Data)
        → TellsRows is_array schema.now → Shows is_array (document_of doc.old) root d
        → Shows is_array (document_of doc.new) root
        (at_path at.now (with_items index (data_items (trees_data (trees_view items.now)))) d)) }
    ensures refused { IfRefused result (λ e. insert (document_of doc.old) schema.now given at.now
        key.now index (trees_view items.now) ≡ Err e) }
    ensures unchanged { IfRefused result (λ _. document_of doc.new ≡ document_of doc.old) }
{
    schema.is_kept();
    new_trees_fit();
    insertion_is_seen();
    one_verdict();
    let intent = insert(alloc, doc, schema, given, at, key, index, items)?;
    let verdict = doc.carry(alloc, &intent)?;
    Ok(verdict)
}
