//! The tree that a document shows, by the schema that is last in effect in it.
ghost use Rattle.std.specs.Prelude.{◌≡◌, Some, IfOk};
ghost use Rattle.st_doc.specs.Doc.{document_of};
ghost use Rattle.st_doc.specs.LiveText.{is_among};
ghost use Rattle.st_edits.specs.ArrayTypes.{is_array_type};
ghost use Rattle.st_edits.specs.InEffect.{schema_in_effect};
ghost use Rattle.st_marks.specs.Document.{IsSoundInForm};
ghost use Rattle.st_marks.specs.LiveTree.{IsTreeText};
ghost use Rattle.st_schema.specs.Reading.{schema_of_text};
ghost use Rattle.st_schema.specs.Schema.{SchemaView};
ghost use Rattle.st_schema_texts.specs.Reading.{IsSchemaOf};
ghost use Rattle.st_run.specs.inside.Trees.{HasSchemas};

use st_doc::Doc;
use st_ids::{List, Text};
use st_plain_schemas::know;
use st_schema_texts::read_schema;
use std::alloc::{AllocError, Global};

// The types whose nodes have a row, by the schema of a text.
fn arrays_of(alloc: Global, text: &Text) -> Result<List<Text>, AllocError>
    requires { (s : SchemaView) × IsSchemaOf text.now (Some s) }
    ensures { IfOk result (λ types. (s : SchemaView) × (schema_of_text text.now ≡ Some s)
        × (is_among types ≡ is_array_type s)) }
{
    let Some(schema) = read_schema(alloc, text)? else {
        unreachable!();
    };
    let known = know(alloc, schema)?;
    Ok(known.arrays)
}

// The types whose nodes have a row in a document.
fn arrays_in(alloc: Global, doc: &Doc) -> Result<List<Text>, AllocError>
    requires { HasSchemas (document_of doc.now) }
    ensures { IfOk result (λ types.
        is_among types ≡ is_array_type (schema_in_effect (document_of doc.now))) }
{
    match doc.schemas().last() {
        Some(entry) => arrays_of(alloc, &entry.text),
        None => Ok(List::new(alloc)),
    }
}

/// The text of the tree that a document shows, in which nodes have rows as the schema says that is last in effect.
pub fn tree_text(alloc: Global, doc: &Doc) -> Result<Text, AllocError>
    requires sound { IsSoundInForm (document_of doc.now) }
    requires schemas { HasSchemas (document_of doc.now) }
    ensures { IfOk result (IsTreeText (is_array_type (schema_in_effect (document_of doc.now)))
        (document_of doc.now)) }
{
    let arrays = arrays_in(alloc, doc)?;
    doc.whole(alloc, arrays.as_slice())
}
