//! Whether new nodes have types of a schema.
ghost use Rattle.std.specs.Prelude.{◌≡◌, ◌↔◌, true};
ghost use Rattle.st_edits.specs.Fields.{type_fits};
ghost use Rattle.st_marks.specs.Intent.{new_node};
ghost use Rattle.st_kept_fields.specs.Fields.{HaveTypes};
ghost use Rattle.st_kept_fields.specs.inside.Tests.{is_typed, are_typed};

use crate::finds::new_node;
use st_ids::NodeId;
use st_marks::{Intent, NewNode};
use st_schema::{Schema, leaf_type};

// Whether a leaf has the type of its value, and any other node a type that the schema defines.
fn type_fits(schema: &Schema, new: &NewNode) -> bool
    ensures { result ≡ type_fits schema.now new.now.ty new.now.leaf }
{
    match &new.leaf {
        None => schema.form(&new.ty).is_some(),
        Some(leaf) => new.ty.as_str() == leaf_type(leaf),
    }
}

// Whether the first new node of that name, if there is one, has a type as it should.
fn is_typed(schema: &Schema, intent: &Intent, node: NodeId) -> bool
    ensures { result ≡ is_typed schema.now (new_node intent.now node) }
{
    match new_node(intent, node) {
        None => true,
        Some(new) => type_fits(schema, new),
    }
}

// Whether each new node has.
fn are_typed(schema: &Schema, intent: &Intent) -> bool
    ensures { result ≡ are_typed schema.now intent.now }
{
    intent
        .new
        .as_slice()
        .iter()
        .all(|m| is_typed(schema, intent, m.node))
}

/// Whether each new node has a type of the schema: a leaf that of its value.
pub fn have_types(schema: &Schema, intent: &Intent) -> bool
    ensures { (result ≡ true) ↔ HaveTypes schema.now intent.now }
{
    are_typed(schema, intent)
}
