//! Which text may follow a schema.
ghost use Rattle.std.specs.Prelude.{◌≡◌, ◌↔◌, true, IfOk};
ghost use Rattle.st_edits.specs.Keeping.{MayFollow};

use crate::text::read_schema;
use st_ids::Text;
use st_schema::{Schema, wider};
use std::alloc::{AllocError, Global};

/// Whether a text is that of a schema which keeps the rules and is wider than another.
pub fn may_follow(alloc: Global, schema: &Schema, text: &Text) -> Result<bool, AllocError>
    ensures { IfOk result (λ b. (b ≡ true) ↔ MayFollow schema.now text.now) }
{
    match read_schema(alloc, text)? {
        None => Ok(false),
        Some(view) => Ok(wider(schema, &view).is_ok()),
    }
}
