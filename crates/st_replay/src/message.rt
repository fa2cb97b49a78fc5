//! Values read as messages beside a log.
ghost use Rattle.std.specs.Prelude.{◌≡◌, None, Some, IfOk};
ghost use Rattle.serde_json.specs.View.{view};
ghost use Rattle.st_change_reader.specs.Reading.{change_of};
ghost use Rattle.st_clusters.specs.Ids.{ids_of};
ghost use Rattle.st_clusters.specs.Log.{IsTableOf};
ghost use Rattle.st_ids.specs.Or.{IfRefused};
ghost use Rattle.st_lists.specs.Log.{ranges_in};
ghost use Rattle.st_mark_reader.specs.OpSpace.{any_form, op_form};
ghost use Rattle.st_msg.specs.Forms.{form_view, said_view};
ghost use Rattle.st_msg.specs.Messages as told;
ghost use Rattle.st_valid_laws.specs.Shape.{IsChangeRead, IsRead, IsReadSo, IsSaid, message_with};

use crate::seen::{entries_behind, generated_with, ranges_in};
use serde_json::Value;
use st_clusters::{At, Compressor, IdRange};
use st_idcodec::CodecFault;
use st_ids::Or;
use st_json::Shape;
use st_lists::Entry;
use st_marks::Change;
use st_msg::{Form, Said as Told, read_form};
use st_op_changes::read_op_change;
use st_valid::{Message, Said};
use std::alloc::Global;

// The change that a value is with names as they were seen, or none where a name has no id.
fn change_at(alloc: Global, at: &At, value: &Value) -> Result<Option<Change>, Or<Shape>>
    ensures ok { IfOk result (λ c. IsReadSo (change_of any_form (view value.now))
        (change_of (op_form at.now) (view value.now)) (Some c)) }
    ensures shape { IfRefused result (λ _. IsReadSo (change_of any_form (view value.now))
        (change_of (op_form at.now) (view value.now)) None) }
{
    match read_op_change(alloc, at, value) {
        Ok(change) => Ok(Some(change)),
        Err(Or::Fault(CodecFault::Unknown)) => Ok(None),
        Err(Or::Fault(CodecFault::Shape)) => Err(Or::Fault(Shape)),
        Err(Or::Fault(CodecFault::NotNormal)) => Err(Or::Fault(Shape)),
        Err(Or::NoMemory) => Err(Or::NoMemory),
    }
}

// The change that a value is for the author of a message, by the table of the whole log's ids.
fn seen_change(
    alloc: Global,
    table: &Compressor,
    log: &[Entry],
    session: u32,
    reference: u32,
    ids: IdRange,
    value: &Value,
) -> Result<Option<Change>, Or<Shape>>
    requires { IsTableOf (ranges_in log.now) (ids_of table.now) }
    ensures ok { IfOk result (λ c. IsChangeRead log.now session reference ids (view value.now)
        (Some c)) }
    ensures shape { IfRefused result (λ _. IsChangeRead log.now session reference ids
        (view value.now) None) }
{
    let later = ranges_in(alloc, entries_behind(log, reference))?;
    let at = At {
        ids: table,
        own: session,
        have: generated_with(ids),
        later: &later,
    };
    change_at(alloc, &at, value)
}

// A commit, with its change as its author saw it.
fn commit(
    alloc: Global,
    table: &Compressor,
    log: &[Entry],
    session: u32,
    reference: u32,
    ids: IdRange,
    value: &Value,
) -> Result<Said, Or<Shape>>
    requires { IsTableOf (ranges_in log.now) (ids_of table.now) }
    ensures ok { IfOk result (λ s. IsSaid log.now session (told.Commit reference ids
        (view value.now)) (Some s)) }
    ensures shape { IfRefused result (λ _. IsSaid log.now session (told.Commit reference ids
        (view value.now)) None) }
{
    match seen_change(alloc, table, log, session, reference, ids, value) {
        Ok(change) => Ok(Said::Commit {
            reference,
            ids,
            change,
        }),
        Err(fault) => Err(fault),
    }
}

// What a message says, with its change as its author saw it.
fn read_said(
    alloc: Global,
    table: &Compressor,
    log: &[Entry],
    session: u32,
    said: &Told<'_>,
) -> Result<Said, Or<Shape>>
    requires { IsTableOf (ranges_in log.now) (ids_of table.now) }
    ensures ok { IfOk result (λ s. IsSaid log.now session (said_view said.now) (Some s)) }
    ensures shape { IfRefused result (λ _. IsSaid log.now session (said_view said.now) None) }
{
    match *said {
        Told::Join { uuid } => Ok(Said::Join { uuid }),
        Told::Leave => Ok(Said::Leave),
        Told::Ack { reference } => Ok(Said::Ack { reference }),
        Told::Commit {
            reference,
            ids,
            change,
        } => commit(alloc, table, log, session, reference, ids, change),
    }
}

// The message of a form.
fn message_of(
    alloc: Global,
    table: &Compressor,
    log: &[Entry],
    form: &Form<'_>,
) -> Result<Message, Or<Shape>>
    requires { IsTableOf (ranges_in log.now) (ids_of table.now) }
    ensures ok { IfOk result (λ m. IsSaid log.now form.now.session (said_view form.now.said)
        (Some m.said)
        × (m ≡ message_with (form_view form.now) m.said)) }
    ensures shape { IfRefused result (λ _. IsSaid log.now form.now.session (said_view form.now.said)
        None) }
{
    match read_said(alloc, table, log, form.session, &form.said) {
        Ok(said) => Ok(Message {
            n: form.n,
            min: form.min,
            session: form.session,
            said,
        }),
        Err(fault) => Err(fault),
    }
}

/// The message that a value is beside a log, by the table of the log's ids: its change is read with names as its author saw
/// them, whose reference may be past the log. Where one of them has no id, the message has no change. `Shape` where the value
/// isn't of the form, or where all of its names have ids and the change isn't normal.
pub fn read_message(
    alloc: Global,
    table: &Compressor,
    log: &[Entry],
    value: &Value,
) -> Result<Message, Or<Shape>>
    requires { IsTableOf (ranges_in log.now) (ids_of table.now) }
    ensures ok { IfOk result (λ m. IsRead log.now (view value.now) (Some m)) }
    ensures shape { IfRefused result (λ _. IsRead log.now (view value.now) None) }
{
    match read_form(value) {
        Ok(form) => message_of(alloc, table, log, &form),
        Err(shape) => Err(Or::Fault(shape)),
    }
}
