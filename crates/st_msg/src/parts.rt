//! The members of messages.
ghost use Rattle.std.specs.Prelude.{◌≡◌, codes, option_map};
ghost use Rattle.serde_json.specs.View.{view};
ghost use Rattle.st_mark_reader.specs.Reading.{member_of, small_number};
ghost use Rattle.st_msg.specs.Messages.{edits_in, head_of, ids_of, if_wide, upgrade_in, uuid_number, uuid_of};
ghost use Rattle.uuid.specs.Text.{parsed};

use serde_json::Value;
use st_mark_reader::two_items;
use uuid::Uuid;

/// The number of a message, the minimum after it, and its session.
#[derive(Clone, Copy)]
pub(crate) struct Head {
    pub(crate) n: u32,
    pub(crate) min: u32,
    pub(crate) session: u32,
}

// A number below 2^32.
fn small_number(value: &Value) -> Option<u32>
    ensures { result ≡ small_number (view value.now) }
{
    let number = value.as_u64()?;
    if number < 1 << 32 {
        Some(number as u32)
    } else {
        None
    }
}

/// The number below 2^32 of a member.
pub(crate) fn small_member(value: &Value, name: &str) -> Option<u32>
    ensures { result ≡ member_of small_number name.now (view value.now) }
{
    small_number(value.get(name)?)
}

/// What each message has.
pub(crate) fn head_in(value: &Value) -> Option<Head>
    ensures { result ≡ head_of (view value.now) }
{
    let n = small_member(value, "n")?;
    let min = small_member(value, "min")?;
    let session = small_member(value, "s")?;
    Some(Head { n, min, session })
}

// The two numbers of an array.
fn two_numbers(value: &Value) -> Option<(u32, u32)>
    ensures { result ≡ ids_of (view value.now) }
{
    let (first, count) = two_items(value)?;
    let first = small_number(first)?;
    let count = small_number(count)?;
    Some((first, count))
}

/// The first id that a commit carries, and how many.
pub(crate) fn id_pair(value: &Value) -> Option<(u32, u32)>
    ensures { result ≡ member_of ids_of (codes "ids") (view value.now) }
{
    two_numbers(value.get("ids")?)
}

// The UUID that a text of any form is.
fn parsed_uuid(text: &str) -> Option<Uuid>
    ensures { result ≡ parsed text.now }
{
    match Uuid::parse_str(text) {
        Ok(uuid) => Some(uuid),
        Err(_) => None,
    }
}

// A number, which has 128 bits.
fn if_wide(uuid: u128) -> Option<u128>
    ensures { result ≡ if_wide uuid }
{
    Some(uuid)
}

// The number of the UUID that a text is, of any version.
fn uuid_number(text: &str) -> Option<u128>
    ensures { result ≡ uuid_number text.now }
{
    if_wide(parsed_uuid(text)?.as_u128())
}

/// The UUID of a join.
pub(crate) fn uuid_member(value: &Value) -> Option<u128>
    ensures { result ≡ member_of uuid_of (codes "uuid") (view value.now) }
{
    uuid_number(value.get("uuid")?.as_str()?)
}

/// The change of a message that changes data: an object without the member `schema`.
pub(crate) fn edits_in(value: &Value) -> Option<&Value>
    ensures { option_map (λ v. view v.now) result ≡ member_of edits_in (codes "change") (view value.now) }
{
    let change = value.get("change")?;
    if change.is_object() && change.get("schema").is_none() {
        Some(change)
    } else {
        None
    }
}

/// The change of a message that changes the schema: an object with the member `schema`.
pub(crate) fn upgrade_in(value: &Value) -> Option<&Value>
    ensures { option_map (λ v. view v.now) result ≡ member_of upgrade_in (codes "change") (view value.now) }
{
    let change = value.get("change")?;
    if change.get("schema").is_some() {
        Some(change)
    } else {
        None
    }
}
