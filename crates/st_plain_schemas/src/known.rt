//! What is kept of a schema, so that its text isn't read again.
ghost use Rattle.std.specs.Prelude.{◌≡◌, cond, option_copied, Some, IfOk, OnOk};
ghost use Rattle.std.specs.BTreeMap.{get};
ghost use Rattle.st_ids.specs.Order.{rev_cmp, same_rev};
ghost use Rattle.st_ids.specs.declared.names.Rev.{Rev as RevNames};
ghost use Rattle.st_doc.specs.Doc.{document_of};
ghost use Rattle.st_doc.specs.LiveText.{is_among};
ghost use Rattle.st_edits.specs.ArrayTypes.{is_array_type};
ghost use Rattle.st_edits.specs.InEffect.{last_in_effect};

use st_doc::Doc;
use st_heads::last_in_effect;
use st_ids::{Copied, List, Rev, Text};
use st_schema::{Form, Schema};
use std::alloc::{AllocError, Global};
use std::collections::BTreeMap;

/// A schema, and its types whose nodes have a row.
#[derive(Drop)]
pub struct KnownSchema {
    pub schema: Schema,
    pub arrays: List<Text>,
}

// Whether the nodes of a type have a row.
fn is_array(schema: &Schema, name: &Text) -> bool
    ensures { result ≡ is_array_type schema.now name.now }
{
    matches!(schema.form(name), Some(Form::Array(_)))
}

// The types of a schema whose nodes have a row.
fn array_types(alloc: Global, schema: &Schema) -> Result<List<Text>, AllocError>
    ensures { IfOk result (λ types. is_among types ≡ is_array_type schema.now) }
{
    schema.is_kept();
    let mut types = List::new(alloc);
    let mut i = 0;
    'types: while let Some(name) = schema.name_at(i) {
        if is_array(schema, name) {
            types.push(name.copy(alloc)?)?;
        }
        i += 1;
    }
    Ok(types)
}

/// What is kept of a schema.
pub fn know(alloc: Global, schema: Schema) -> Result<KnownSchema, AllocError>
    ensures schema { IfOk result (λ known. known.schema ≡ schema) }
    ensures arrays { IfOk result (λ known. is_among known.arrays ≡ is_array_type schema) }
{
    let arrays = array_types(alloc, &schema)?;
    Ok(KnownSchema { schema, arrays })
}

/// Keeps a schema under the revision that brought it in. After an `Err` nothing is promised of the map.
pub fn keep(
    schemas: &mut BTreeMap<Rev, KnownSchema>,
    rev: Rev,
    known: KnownSchema,
) -> Result<(), AllocError>
    ensures { OnOk result ((other : RevNames) → get rev_cmp schemas.new other
        ≡ cond (same_rev rev other) (Some known) (get rev_cmp schemas.old other)) }
{
    schemas.insert(rev, known)?;
    Ok(())
}

/// What is kept of the schema that is last in effect in a document.
pub fn schema_of<'a>(schemas: &'a BTreeMap<Rev, KnownSchema>, doc: &Doc) -> Option<&'a KnownSchema>
    ensures { option_copied result ≡ get rev_cmp schemas.now (last_in_effect (document_of doc.now)) }
{
    let rev = last_in_effect(doc);
    schemas.get(&rev)
}
