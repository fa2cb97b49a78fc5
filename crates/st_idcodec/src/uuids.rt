//! The UUIDs of sessions as texts.
ghost use Rattle.std.specs.Prelude.{◌≡◌, IfOk};
ghost use Rattle.serde_json.specs.Data.{string};
ghost use Rattle.serde_json.specs.View.{view};
ghost use Rattle.st_idcodec.specs.TableText.{uuid_text};
ghost use Rattle.st_idcodec.specs.Uuids.{of_version_4, uuid_read};
ghost use Rattle.uuid.specs.Text.{parsed};

use serde_json::Value;
use st_clusters::is_v4;
use std::alloc::{AllocError, Global};
use uuid::Uuid;

/// The UUID that a text of any form is.
pub(crate) fn parsed_uuid(text: &str) -> Option<Uuid>
    ensures { result ≡ parsed text.now }
{
    match Uuid::parse_str(text) {
        Ok(uuid) => Some(uuid),
        Err(_) => None,
    }
}

// A number, where it is that of a UUID of version 4.
fn of_version_4(uuid: u128) -> Option<u128>
    ensures { result ≡ of_version_4 uuid }
{
    if is_v4(uuid) { Some(uuid) } else { None }
}

/// The number of the UUID of version 4 that a text is: thirty-two hex digits in either case, alone, with hyphens, in braces,
/// or as a URN.
pub fn read_uuid(text: &str) -> Option<u128>
    ensures { result ≡ uuid_read text.now }
{
    of_version_4(parsed_uuid(text)?.as_u128())
}

// The value of a text.
fn text_value(alloc: Global, text: &str) -> Result<Value, AllocError>
    ensures { IfOk result (λ v. view v ≡ string text.now) }
{
    Ok(Value::String(String::from_str(alloc, text)?))
}

/// The value of a UUID: its text in lower case with hyphens.
pub fn uuid_value(alloc: Global, uuid: u128) -> Result<Value, AllocError>
    ensures { IfOk result (λ v. view v ≡ string (uuid_text uuid)) }
{
    let mut buffer = Uuid::encode_buffer();
    let text = Uuid::from_u128(uuid).hyphenated().encode_lower(&mut buffer);
    text_value(alloc, text)
}
