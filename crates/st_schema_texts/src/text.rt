//! Schemas of texts.
ghost use Rattle.std.specs.Prelude.{◌≡◌, Some, None, IfOk, IfSome};
ghost use Rattle.serde_json.specs.Read.{read};
ghost use Rattle.serde_json.specs.View.{view};
ghost use Rattle.st_schema.specs.Written.{schema_data};
ghost use Rattle.st_schema_texts.specs.Reading.{IsSchemaOf};

use serde_json::Value;
use st_ids::{Or, Text};
use st_schema::Schema;
use std::alloc::{AllocError, Global};

// The value of a text, if it is JSON.
fn value_of(alloc: Global, text: &Text) -> Result<Option<Value>, AllocError>
    ensures some { IfOk result (λ o. IfSome o (λ v. read text.now ≡ Some (view v))) }
    ensures none { IfOk result (λ o. o ≡ None → read text.now ≡ None) }
{
    match Value::from_str(alloc, text.as_str()) {
        Ok(value) => Ok(Some(value)),
        Err(error) => {
            if error.is_memory() {
                Err(AllocError)
            } else {
                Ok(None)
            }
        }
    }
}

// The schema that a text is read as, where the text is written as it is.
fn if_written(alloc: Global, schema: Schema, text: &Text) -> Result<Option<Schema>, AllocError>
    requires { read text.now ≡ Some (schema_data schema) }
    ensures { IfOk result (IsSchemaOf text.now) }
{
    schema.is_kept();
    let written = schema.text(alloc)?;
    if written == *text {
        Ok(Some(schema))
    } else {
        Ok(None)
    }
}

// The schema of a text's value.
fn schema_in(alloc: Global, value: &Value, text: &Text) -> Result<Option<Schema>, AllocError>
    requires { read text.now ≡ Some (view value.now) }
    ensures { IfOk result (IsSchemaOf text.now) }
{
    match Schema::read(alloc, value) {
        Ok(schema) => if_written(alloc, schema, text),
        Err(Or::NoMemory) => Err(AllocError),
        Err(Or::Fault(_)) => Ok(None),
    }
}

/// The schema whose text this is: one that keeps the rules and is written so, byte by byte.
pub fn read_schema(alloc: Global, text: &Text) -> Result<Option<Schema>, AllocError>
    ensures { IfOk result (IsSchemaOf text.now) }
{
    match value_of(alloc, text)? {
        None => Ok(None),
        Some(value) => schema_in(alloc, &value, text),
    }
}
