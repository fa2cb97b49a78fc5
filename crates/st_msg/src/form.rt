//! Messages read from values, by their form.
ghost use Rattle.std.specs.Prelude.{◌≡◌, option_map};
ghost use Rattle.std.specs.Option.{ok_or};
ghost use Rattle.std.specs.Result.{result_map_both};
ghost use Rattle.serde_json.specs.View.{view};
ghost use Rattle.st_mark_reader.specs.Reading.{is_named};
ghost use Rattle.st_msg.specs.Forms.{form_view, said_view};
ghost use Rattle.st_msg.specs.Messages.{ack_of, commit_names, commit_of, edits_of, join_of, message_of, commit_named, said_named, said_of, upgrade_of};

use crate::parts::{edits_in, head_in, id_pair, small_member, upgrade_in, uuid_member};
use serde_json::Value;
use st_clusters::IdRange;
use st_json::Shape;
use st_mark_reader::is_named;

/// What a message says, with its number, the minimum after it and its session.
#[derive(Clone, Copy)]
pub struct Form<'a> {
    pub n: u32,
    pub min: u32,
    pub session: u32,
    pub said: Said<'a>,
}

/// What a message says: its session joins or leaves, tells how many entries it has received, or commits a change. The change
/// stays a value, since its names depend on the table of ids.
#[derive(Clone, Copy)]
pub enum Said<'a> {
    Join {
        uuid: u128,
    },
    Leave,
    Ack {
        reference: u32,
    },
    Commit {
        reference: u32,
        ids: IdRange,
        change: &'a Value,
    },
}

// A join, with the UUID of its session.
fn join<'a>(value: &'a Value) -> Option<Said<'a>>
    ensures { option_map said_view result ≡ join_of (view value.now) }
{
    let uuid = uuid_member(value)?;
    Some(Said::Join { uuid })
}

// That so many entries were received.
fn ack<'a>(value: &'a Value) -> Option<Said<'a>>
    ensures { option_map said_view result ≡ ack_of (view value.now) }
{
    let reference = small_member(value, "ref")?;
    Some(Said::Ack { reference })
}

// The commit of a change.
fn commit<'a>(session: u32, value: &'a Value, change: &'a Value) -> Option<Said<'a>>
    ensures { option_map said_view result ≡ commit_of session (view value.now) (view change.now) }
{
    let reference = small_member(value, "ref")?;
    let (first, count) = id_pair(value)?;
    let ids = IdRange {
        session,
        first,
        count,
    };
    Some(Said::Commit {
        reference,
        ids,
        change,
    })
}

// The commit of a change of data.
fn edits<'a>(session: u32, value: &'a Value) -> Option<Said<'a>>
    ensures { option_map said_view result ≡ edits_of session (view value.now) }
{
    commit(session, value, edits_in(value)?)
}

// The commit of a change of the schema.
fn upgrade<'a>(session: u32, value: &'a Value) -> Option<Said<'a>>
    ensures { option_map said_view result ≡ upgrade_of session (view value.now) }
{
    commit(session, value, upgrade_in(value)?)
}

// Whether a value has the members of a commit.
fn is_commit(value: &Value) -> bool
    ensures { result ≡ is_named commit_names (view value.now) }
{
    is_named(value, &["change", "ids", "kind", "min", "n", "ref", "s"])
}

// What a message says whose word is one for a commit.
fn commit_named<'a>(word: &str, session: u32, value: &'a Value) -> Option<Said<'a>>
    ensures { option_map said_view result ≡ commit_named word.now session (view value.now) }
{
    if word == "op" && is_commit(value) {
        edits(session, value)
    } else if word == "schema" && is_commit(value) {
        upgrade(session, value)
    } else {
        None
    }
}

// What a message of a word says.
fn said_named<'a>(word: &str, session: u32, value: &'a Value) -> Option<Said<'a>>
    ensures { option_map said_view result ≡ said_named word.now session (view value.now) }
{
    if word == "join" && is_named(value, &["kind", "min", "n", "s", "uuid"]) {
        join(value)
    } else if word == "leave" && is_named(value, &["kind", "min", "n", "s"]) {
        Some(Said::Leave)
    } else if word == "ack" && is_named(value, &["kind", "min", "n", "ref", "s"]) {
        ack(value)
    } else {
        commit_named(word, session, value)
    }
}

// What a message says.
fn read_said<'a>(session: u32, value: &'a Value) -> Option<Said<'a>>
    ensures { option_map said_view result ≡ said_of session (view value.now) }
{
    let word = value.get("kind")?.as_str()?;
    said_named(word, session, value)
}

// The message that a value is, if it is one.
fn form_of<'a>(value: &'a Value) -> Option<Form<'a>>
    ensures { option_map form_view result ≡ message_of (view value.now) }
{
    let head = head_in(value)?;
    let said = read_said(head.session, value)?;
    Some(Form {
        n: head.n,
        min: head.min,
        session: head.session,
        said,
    })
}

/// The message that a value is. Of its change it is seen alone that it is an object, with the member `schema` exactly where
/// the message says that it changes the schema.
pub fn read_form<'a>(value: &'a Value) -> Result<Form<'a>, Shape>
    ensures { result_map_both form_view (λ e. e) result ≡ ok_or (message_of (view value.now)) (record {}) }
{
    match form_of(value) {
        Some(form) => Ok(form),
        None => Err(Shape),
    }
}
