//! Messages written behind a text, without JSON values between.
ghost use Rattle.std.specs.Prelude.{◌≡◌, ◌++◌, IfOk, OnOk};
ghost use Rattle.serde_json.specs.Data.{string, Data};
ghost use Rattle.serde_json.specs.Written.{compact_text};
ghost use Rattle.st_idcodec.specs.TableText.{uuid_text};
ghost use Rattle.st_msg.specs.Messages.{is_upgrade, said_data, Ack, Commit, Join, Leave};
ghost use Rattle.st_msg_writer.specs.Texts.{change_text, commit_text, ids_text, kind_text, number_member, place_text, plain_text, tail_text};

use itoa::Buffer;
use st_clusters::IdRange;
use st_idcodec::uuid_value;
use st_ids::Text;
use std::alloc::{AllocError, Global};

/// What each message has: its number in the log, the minimum after it, and its session.
#[derive(Clone, Copy)]
pub struct Head {
    pub n: u32,
    pub min: u32,
    pub session: u32,
}

// Writes a number behind what stands before it.
fn push_number(out: &mut Text, front: &str, n: u32) -> Result<(), AllocError>
    ensures { OnOk result (out.new ≡ out.old ++ number_member front.now n) }
{
    out.push_str(front)?;
    let mut buffer = Buffer::new();
    out.push_str(buffer.format(n))
}

// Writes the minimum and the number.
fn push_place(out: &mut Text, head: Head) -> Result<(), AllocError>
    ensures { OnOk result (out.new ≡ out.old ++ place_text head.n head.min) }
{
    push_number(out, ",\"min\":", head.min)?;
    push_number(out, ",\"n\":", head.n)
}

// The text of a UUID with its quotes.
fn uuid_quoted(alloc: Global, uuid: u128) -> Result<Text, AllocError>
    ensures { IfOk result (λ t. t ≡ compact_text (string (uuid_text uuid))) }
{
    let value = uuid_value(alloc, uuid)?;
    Ok(Text::from_string(value.to_string(alloc)?))
}

// Writes a UUID with its quotes.
fn push_uuid(alloc: Global, out: &mut Text, uuid: u128) -> Result<(), AllocError>
    ensures { OnOk result (out.new ≡ out.old ++ compact_text (string (uuid_text uuid))) }
{
    let quoted = uuid_quoted(alloc, uuid)?;
    out.push_str(quoted.as_str())
}

// Writes how a message is called, and the numbers that each has.
fn push_plain(out: &mut Text, front: &str, head: Head) -> Result<(), AllocError>
    ensures { OnOk result (out.new ≡ out.old ++ plain_text front.now head.n head.min head.session) }
{
    out.push_str(front)?;
    push_place(out, head)?;
    push_number(out, ",\"s\":", head.session)
}

/// Writes a join behind a text, as the compact form of its value.
pub fn push_join(alloc: Global, out: &mut Text, head: Head, uuid: u128) -> Result<(), AllocError>
    ensures { OnOk result (out.new ≡ out.old ++ compact_text (said_data head.n head.min head.session (Join uuid))) }
{
    push_plain(out, "{\"kind\":\"join\"", head)?;
    out.push_str(",\"uuid\":")?;
    push_uuid(alloc, out, uuid)?;
    out.push_str("}")
}

/// Writes a leave behind a text.
#[tactic(auto, using(crate::proofs::Pieces::leave_is))]
pub fn push_leave(out: &mut Text, head: Head) -> Result<(), AllocError>
    ensures { OnOk result (out.new ≡ out.old ++ compact_text (said_data head.n head.min head.session Leave)) }
{
    push_plain(out, "{\"kind\":\"leave\"", head)?;
    out.push_str("}")
}

// Writes the last members of an ack or a commit.
fn push_tail(out: &mut Text, head: Head, reference: u32) -> Result<(), AllocError>
    ensures { OnOk result (out.new ≡ out.old ++ tail_text head.n head.min reference head.session) }
{
    push_place(out, head)?;
    push_number(out, ",\"ref\":", reference)?;
    push_number(out, ",\"s\":", head.session)?;
    out.push_str("}")
}

/// Writes behind a text that so many entries were received.
#[tactic(auto, using(crate::proofs::Pieces::ack_is))]
pub fn push_ack(out: &mut Text, head: Head, reference: u32) -> Result<(), AllocError>
    ensures { OnOk result (out.new ≡ out.old ++ compact_text (said_data head.n head.min head.session (Ack reference))) }
{
    out.push_str("{\"kind\":\"ack\"")?;
    push_tail(out, head, reference)
}

// Writes a commit's ids.
fn push_ids(out: &mut Text, ids: IdRange) -> Result<(), AllocError>
    ensures { OnOk result (out.new ≡ out.old ++ ids_text ids) }
{
    push_number(out, ",\"ids\":[", ids.first)?;
    push_number(out, ",", ids.count)?;
    out.push_str("]")
}

// Writes how a commit is called.
fn push_kind(out: &mut Text, upgrade: bool) -> Result<(), AllocError>
    ensures { OnOk result (out.new ≡ out.old ++ kind_text upgrade) }
{
    if upgrade {
        out.push_str(",\"kind\":\"schema\"")
    } else {
        out.push_str(",\"kind\":\"op\"")
    }
}

// Writes the change and the ids of a commit.
fn push_change(out: &mut Text, change: &str, ids: IdRange) -> Result<(), AllocError>
    ensures { OnOk result (out.new ≡ out.old ++ change_text change.now ids) }
{
    out.push_str("{\"change\":")?;
    out.push_str(change)?;
    push_ids(out, ids)
}

// Writes a commit of a change that is given as a text.
fn push_commit_text(
    out: &mut Text,
    head: Head,
    reference: u32,
    ids: IdRange,
    upgrade: bool,
    change: &str,
) -> Result<(), AllocError>
    ensures { OnOk result (out.new ≡ out.old ++ commit_text head.n head.min head.session reference ids upgrade change.now) }
{
    push_change(out, change, ids)?;
    push_kind(out, upgrade)?;
    push_tail(out, head, reference)
}

/// Writes a commit behind a text. The change is given by the compact text of its value, and by whether it is a change of the
/// schema.
pub fn push_commit(
    out: &mut Text,
    head: Head,
    reference: u32,
    ids: IdRange,
    upgrade: bool,
    change: &str,
) -> Result<(), AllocError>
    ensures { (d : Data) → upgrade ≡ is_upgrade d → change.now ≡ compact_text d
        → OnOk result (out.new ≡ out.old ++ compact_text (said_data head.n head.min head.session (Commit reference ids d))) }
{
    push_commit_text(out, head, reference, ids, upgrade, change)
}
