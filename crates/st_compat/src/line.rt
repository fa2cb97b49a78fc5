//! Lines of schemas.
ghost use Rattle.std.specs.Prelude.{◌≡◌, Some, Ok, Err, IfOk};
ghost use Rattle.serde_json.specs.View.{view};
ghost use Rattle.st_ids.specs.Or.{IfRefused};
ghost use Rattle.st_json.specs.Line.{line_value};
ghost use Rattle.st_compat.specs.SchemaLine.{IsSchemaLine, further_cause};

use serde_json::Value;
use st_ids::Or;
use st_json::{BadCause, read_line};
use st_schema::Schema;
use std::alloc::{AllocError, Global};

// The schema of a line's value.
fn schema_of(alloc: Global, line: &[u8], value: &Value) -> Result<Schema, Or<BadCause>>
    requires { line_value line.now ≡ Some (view value.now) }
    ensures ok { IfOk result (λ s. IsSchemaLine line.now (Ok s)) }
    ensures bad { IfRefused result (λ cause. IsSchemaLine line.now (Err cause)) }
{
    match Schema::read(alloc, value) {
        Ok(schema) => Ok(schema),
        Err(Or::NoMemory) => Err(Or::NoMemory),
        Err(Or::Fault(_)) => Err(Or::Fault(BadCause::Shape)),
    }
}

/// The schema that a line is, given without its line feed: `Json` where the bytes have no reading,
/// `Shape` where the value is no schema.
pub fn read_schema_line(alloc: Global, line: &[u8]) -> Result<Schema, Or<BadCause>>
    ensures ok { IfOk result (λ s. IsSchemaLine line.now (Ok s)) }
    ensures bad { IfRefused result (λ cause. IsSchemaLine line.now (Err cause)) }
{
    match read_line(alloc, line) {
        Ok(value) => schema_of(alloc, line, &value),
        Err(Or::NoMemory) => Err(Or::NoMemory),
        Err(Or::Fault(_)) => Err(Or::Fault(BadCause::Json)),
    }
}

/// Why a line is refused that follows the two schemas.
pub fn further_cause(alloc: Global, line: &[u8]) -> Result<BadCause, AllocError>
    ensures { IfOk result (λ cause. cause ≡ further_cause line.now) }
{
    match read_line(alloc, line) {
        Ok(_) => Ok(BadCause::Shape),
        Err(Or::NoMemory) => Err(AllocError),
        Err(Or::Fault(_)) => Ok(BadCause::Json),
    }
}
