//! The schema whose text a change has, as a JSON value.
ghost use Rattle.std.specs.Prelude.{◌≡◌, IfOk, option_map, option_and_then};
ghost use Rattle.serde_json.specs.Read.{read};
ghost use Rattle.serde_json.specs.View.{view};
ghost use Rattle.serde_json.specs.Written.{compact_text};
ghost use Rattle.st_schema.specs.Reading.{schema_of};
ghost use Rattle.st_change_codec.specs.SchemaTexts.{if_sound, sound_schema_of, text_data};

use crate::names::text_value;
use serde_json::Value;
use st_ids::{Or, Text};
use st_schema::Schema;
use std::alloc::{AllocError, Global};

// The value that a text is read as, if it is a JSON text.
fn read_text(alloc: Global, text: &str) -> Result<Option<Value>, AllocError>
    ensures { IfOk result (λ v. option_map view v ≡ read text.now) }
{
    match Value::from_str(alloc, text) {
        Ok(value) => Ok(Some(value)),
        Err(error) => {
            if error.is_memory() {
                Err(AllocError)
            } else {
                Ok(None)
            }
        }
    }
}

// The schema that a value is the form of, if it is one that keeps the rules.
#[tactic(auto, using(crate::proofs::Sound::sound_some, crate::proofs::Sound::sound_none))]
fn sound_schema(alloc: Global, value: &Value) -> Result<Option<Schema>, AllocError>
    ensures { IfOk result (λ s. s ≡ option_and_then if_sound (schema_of (view value.now))) }
{
    match Schema::read(alloc, value) {
        Ok(schema) => Ok(Some(schema)),
        Err(Or::Fault(_)) => Ok(None),
        Err(Or::NoMemory) => Err(AllocError),
    }
}

// The schema that a text is the form of, if it is one that keeps the rules.
fn sound_schema_of(alloc: Global, text: &str) -> Result<Option<Schema>, AllocError>
    ensures { IfOk result (λ s. s ≡ sound_schema_of text.now) }
{
    match read_text(alloc, text)? {
        None => Ok(None),
        Some(value) => sound_schema(alloc, &value),
    }
}

/// The schema of a text; a text that is none stands as it is, as a JSON text.
pub fn schema_value(alloc: Global, text: &Text) -> Result<Value, AllocError>
    ensures { IfOk result (λ v. view v ≡ text_data text.now) }
{
    match sound_schema_of(alloc, text.as_str())? {
        None => text_value(alloc, text.as_str()),
        Some(schema) => schema.value(alloc),
    }
}

/// The compact text of the schema of a text, as a change or a step has it; a text that is no
/// schema's is written as a JSON text.
#[tactic(auto, using(crate::proofs::Plain::text_plain))]
pub fn schema_text(alloc: Global, text: &Text) -> Result<Text, AllocError>
    ensures { IfOk result (λ t. t ≡ compact_text (text_data text.now)) }
{
    let value = schema_value(alloc, text)?;
    Ok(Text::from_string(value.to_string(alloc)?))
}
