//! The schema of a change, carried out or void.
ghost use Rattle.std.specs.Prelude.{◌≡◌, ◌∷◌, [], IfOk};
ghost use Rattle.st_effect.specs.inside.Done.{schema_done as done};

use st_ids::{Copied, List, Rev, Text};
use st_marks::{Change, SchemaEntry, SchemaStep};
use std::alloc::{AllocError, Global};

// A schema that comes behind that of `on`.
fn added_schema(alloc: Global, on: Rev, rev: Rev, text: &Text) -> Result<SchemaStep, AllocError>
    ensures { IfOk result (λ s. s ≡ record { on = on; cut = []; add = record { rev = rev; text = text.now } ∷ [] }) }
{
    let text = text.copy(alloc)?;
    let mut add = List::new(alloc);
    add.push(SchemaEntry { rev, text })?;
    Ok(SchemaStep {
        on,
        cut: List::new(alloc),
        add,
    })
}

/// What the step says of schemas, where the change is void or not.
pub fn schema_done(
    alloc: Global,
    change: &Change,
    void: bool,
) -> Result<Option<SchemaStep>, AllocError>
    ensures { IfOk result (λ s. s ≡ done void change.now) }
{
    match &change.schema {
        Some(text) if !void => Ok(Some(added_schema(alloc, change.under, change.rev, text)?)),
        _ => Ok(None),
    }
}
