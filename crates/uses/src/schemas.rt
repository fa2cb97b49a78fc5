//! A use of `st_schema`.
ghost use Rattle.std.specs.Prelude.{◌≡◌, ◌≢◌, ◌<◌, ◌^◌, IfOk, IsTrue};
ghost use Rattle.serde_json.specs.View.{view as data_of};
ghost use Rattle.st_ids.specs.Or.{IfRefused};
ghost use Rattle.st_tree.specs.Node.{view};
ghost use Rattle.st_tree.specs.Size.{node_count};
ghost use Rattle.st_schema.specs.Conforms.{conforms};
ghost use Rattle.st_schema.specs.Schema.{SchemaView, is_sound};
ghost use Rattle.st_schema.specs.Written.{schema_data};

use serde_json::Value;
use st_ids::Or;
use st_json::Shape;
use st_schema::Schema;
use st_tree::Tree;
use std::alloc::Global;

/// Whether the schema that a value shows allows a tree as a whole document. Refused exactly where the value shows none.
#[tactic(auto, using(crate::proofs::Allowed::allowed_conforms))]
pub fn is_allowed(alloc: Global, value: &Value, tree: &Tree) -> Result<bool, Or<Shape>>
    requires few { node_count (view tree.now) < 2 ^ 32 }
    ensures told { IfOk result (λ b. (s : SchemaView) × IsTrue (is_sound s)
        × (data_of value.now ≡ schema_data s) × (b ≡ conforms s s.root (view tree.now))) }
    ensures refused { IfRefused result (λ _. (s : SchemaView) → IsTrue (is_sound s)
        → data_of value.now ≢ schema_data s) }
{
    let schema = Schema::read(alloc, value)?;
    Ok(schema.allows(schema.root(), tree).is_ok())
}
