//! Changes in op space, as messages tell them, read with their refusals.
#![tactic(auto)]

ghost use Rattle.std.specs.Prelude.{Ok, Err, IfOk};
ghost use Rattle.serde_json.specs.View.{view};
ghost use Rattle.st_ids.specs.Or.{IfRefused};
ghost use Rattle.st_mark_reader.specs.OpSpace.{op_form};
ghost use Rattle.st_change_reader.specs.Reading.{change_of};
ghost use Rattle.st_op_changes.specs.OpChanges.{IsJudged, IsNamed, IsReadAt};

use serde_json::Value;
use st_change_reader::read_change;
use st_clusters::At;
use st_idcodec::CodecFault;
use st_ids::Or;
use st_mark_reader::{AnyOpNames, OpNames};
use st_marks::Change;
use st_normal_texts::is_normal_text;
use std::alloc::Global;

// The change, or `NotNormal`.
fn judge(change: Change) -> Result<Change, Or<CodecFault>>
    ensures ok { IfOk result (λ c. IsJudged change (Ok c)) }
    ensures refused { IfRefused result (λ e. IsJudged change (Err e)) }
{
    if is_normal_text(&change) {
        Ok(change)
    } else {
        Err(Or::Fault(CodecFault::NotNormal))
    }
}

// The change of a value of the form, or why it is none.
fn named(alloc: Global, at: &At, value: &Value) -> Result<Change, Or<CodecFault>>
    ensures ok { IfOk result (λ c. IsNamed (change_of (op_form at.now) (view value.now)) (Ok c)) }
    ensures refused { IfRefused result (λ e. IsNamed (change_of (op_form at.now) (view value.now)) (Err e)) }
{
    match read_change(alloc, &OpNames(*at), value)? {
        None => Err(Or::Fault(CodecFault::Unknown)),
        Some(change) => judge(change),
    }
}

/// The change that a value is in op space, as the author of a message saw the table of ids.
/// Refused by the first test that fails: `Shape` where it isn't of the form, whatever its numbers
/// name; `Unknown` where one of them names no id; `NotNormal` where the change isn't in normal form
/// or lists a row of 2^31 cells or more.
pub fn read_op_change(alloc: Global, at: &At, value: &Value) -> Result<Change, Or<CodecFault>>
    ensures ok { IfOk result (λ c. IsReadAt at.now (view value.now) (Ok c)) }
    ensures refused { IfRefused result (λ e. IsReadAt at.now (view value.now) (Err e)) }
{
    match read_change(alloc, &AnyOpNames, value)? {
        None => Err(Or::Fault(CodecFault::Shape)),
        Some(_) => named(alloc, at, value),
    }
}
