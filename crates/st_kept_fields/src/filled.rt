//! Whether the required fields of new nodes are filled with new nodes.
ghost use Rattle.std.specs.Prelude.{◌≡◌, ◌↔◌, true};
ghost use Rattle.std.specs.List.{list_all};
ghost use Rattle.std.specs.Option.{option_copied};
ghost use Rattle.st_doc.specs.Doc.{document_of};
ghost use Rattle.st_kept_fields.specs.Fields.{AreFilled};
ghost use Rattle.st_kept_fields.specs.inside.Tests.{is_of_new, is_filled, form_is_filled, node_is_filled, all_filled};

use crate::finds::{put_at, type_of};
use st_doc::Doc;
use st_ids::NodeId;
use st_intent::is_new;
use st_marks::Intent;
use st_schema::{FieldDef, Form, KindName, Schema};

// Whether there is a new node.
fn is_of_new(intent: &Intent, node: Option<NodeId>) -> bool
    ensures { result ≡ is_of_new intent.now node }
{
    match node {
        None => false,
        Some(node) => is_new(intent, node),
    }
}

// Whether a new node is put into a declared field of a node, if it is required.
fn is_filled(intent: &Intent, node: NodeId, def: &FieldDef) -> bool
    ensures { result ≡ is_filled intent.now node def.now }
{
    def.kind != KindName::Required || is_of_new(intent, put_at(intent, node, &def.key))
}

// Whether new nodes are put into the required ones of a node's declared fields.
fn defs_are_filled(intent: &Intent, node: NodeId, defs: &[FieldDef]) -> bool
    ensures { result ≡ list_all (is_filled intent.now node) defs.now }
{
    defs.iter().all(|d| is_filled(intent, node, d))
}

// Whether new nodes are put into the required fields of a node of this form.
fn form_is_filled(intent: &Intent, node: NodeId, form: Option<&Form>) -> bool
    ensures { result ≡ form_is_filled intent.now node (option_copied form.entry) }
{
    match form {
        Some(Form::Object(defs)) => defs_are_filled(intent, node, defs.as_slice()),
        _ => true,
    }
}

// Whether new nodes are put into the required fields of a node.
fn node_is_filled(doc: &Doc, schema: &Schema, intent: &Intent, node: NodeId) -> bool
    ensures { result ≡ node_is_filled schema.now (document_of doc.now) intent.now node }
{
    match type_of(doc, intent, node) {
        None => true,
        Some(ty) => form_is_filled(intent, node, schema.form(ty)),
    }
}

// Whether new nodes are put into the required fields of all new nodes.
fn all_filled(doc: &Doc, schema: &Schema, intent: &Intent) -> bool
    ensures { result ≡ all_filled schema.now (document_of doc.now) intent.now }
{
    intent
        .new
        .as_slice()
        .iter()
        .all(|m| node_is_filled(doc, schema, intent, m.node))
}

/// Whether each required field of a new node is filled with a new node.
pub fn are_filled(doc: &Doc, schema: &Schema, intent: &Intent) -> bool
    ensures { (result ≡ true) ↔ AreFilled schema.now (document_of doc.now) intent.now }
{
    schema.is_kept();
    all_filled(doc, schema, intent)
}
