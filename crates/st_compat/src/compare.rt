//! The lines of two schemas, and the line of their relation.
ghost use Rattle.std.specs.Prelude.{◌≡◌, Some, Ok, Err, IfOk};
ghost use Rattle.std.specs.Option.{option_copied};
ghost use Rattle.st_ids.specs.Or.{IfRefused};
ghost use Rattle.st_compat.specs.Relation.{IsRelation};
ghost use Rattle.st_compat.specs.RelationText.{relation_line};
ghost use Rattle.st_compat.specs.Compared.{IsSchemaIn, IsCompared};
ghost use Rattle.st_compat.specs.declared.relation.Relation.{Relation};

use crate::line::read_schema_line;
use crate::relation::compat;
use crate::text::relation_line;
use st_ids::{Or, Text};
use st_json::BadCause;
use st_schema::Schema;
use std::alloc::{AllocError, Global};

/// Which of two lines is no schema, and the first test that it fails.
#[derive(Clone, Copy, Debug, PartialEq, Eq)]
pub enum BadSchema {
    Stored(BadCause),
    View(BadCause),
}

// The schema that a line is.
fn schema_in(alloc: Global, line: Option<&[u8]>) -> Result<Schema, Or<BadCause>>
    ensures ok { IfOk result (λ s. IsSchemaIn (option_copied line.entry) (Ok s)) }
    ensures bad { IfRefused result (λ cause. IsSchemaIn (option_copied line.entry) (Err cause)) }
{
    match line {
        Some(line) => read_schema_line(alloc, line),
        None => Err(Or::Fault(BadCause::Shape)),
    }
}

// The line of the relation of two schemas.
fn line_of(alloc: Global, stored: &Schema, view: &Schema) -> Result<Text, AllocError>
    ensures { IfOk result (λ t. (r : Relation) × IsRelation stored.now view.now r × (t ≡ relation_line r)) }
{
    let relation = compat(alloc, stored, view)?;
    relation_line(alloc, &relation)
}

// The line of the relation of a stored schema to that of a line.
fn compare_view(
    alloc: Global,
    stored: Option<&[u8]>,
    schema: &Schema,
    view: Option<&[u8]>,
) -> Result<Text, Or<BadSchema>>
    requires { IsSchemaIn (option_copied stored) (Ok schema.now) }
    ensures ok { IfOk result (λ t. IsCompared (option_copied stored.entry) (option_copied view.entry) (Ok t)) }
    ensures bad { IfRefused result (λ bad. IsCompared (option_copied stored.entry) (option_copied view.entry) (Err bad)) }
{
    match schema_in(alloc, view) {
        Ok(view) => Ok(line_of(alloc, schema, &view)?),
        Err(Or::NoMemory) => Err(Or::NoMemory),
        Err(Or::Fault(cause)) => Err(Or::Fault(BadSchema::View(cause))),
    }
}

/// The line of the relation of the schemas of two lines, given without their line feeds. A line that
/// is missing is no schema.
pub fn compare_lines(
    alloc: Global,
    stored: Option<&[u8]>,
    view: Option<&[u8]>,
) -> Result<Text, Or<BadSchema>>
    ensures ok { IfOk result (λ t. IsCompared (option_copied stored.entry) (option_copied view.entry) (Ok t)) }
    ensures bad { IfRefused result (λ bad. IsCompared (option_copied stored.entry) (option_copied view.entry) (Err bad)) }
{
    match schema_in(alloc, stored) {
        Ok(schema) => compare_view(alloc, stored, &schema, view),
        Err(Or::NoMemory) => Err(Or::NoMemory),
        Err(Or::Fault(cause)) => Err(Or::Fault(BadSchema::Stored(cause))),
    }
}
