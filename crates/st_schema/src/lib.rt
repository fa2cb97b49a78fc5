//! Schemas, the trees that they allow, and the texts of both.
#![tactic(auto)]

mod allows;
mod copied;
mod header;
mod names;
mod read;
mod rules;
mod schema;
mod table;
mod text;
mod tree_text;
mod tree_write;
mod upgrade;

pub use allows::{allowed_has_form, leaf_type};
pub use header::Header;
pub use names::{FieldDef, FieldRule, Form, KindName, NotAllowed, NotWider};
pub use schema::Schema;
pub use tree_text::{form_is_read, formed_trees_have_shape, read_tree, read_trees_have_shape};
pub use tree_write::write_tree;
pub use upgrade::{wider, wider_allows_more};
