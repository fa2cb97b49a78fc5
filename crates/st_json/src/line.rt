//! Lines, read as one value each and written in compact form.
ghost use Rattle.std.specs.Prelude.{◌≡◌, ◌≤◌, false, [], ◌∷◌, ◌++◌, Some, None, IfOk, OnOk};
ghost use Rattle.serde_json.specs.View.{view};
ghost use Rattle.serde_json.specs.Data.{depth};
ghost use Rattle.serde_json.specs.Read.{read, max_depth};
ghost use Rattle.serde_json.specs.Written.{has_float, compact_text};
ghost use Rattle.st_ids.specs.Or.{IfRefused};
ghost use Rattle.st_json.specs.Line.{line_value};
ghost use Rattle.st_json.specs.Order.{NamesRise};

use crate::fault::NotJson;
use serde_json::Value;
use st_ids::{Or, Text};
use std::alloc::{AllocError, Global};

/// The value of a line, given without its line feed.
#[tactic(auto, using(crate::proofs::Rising::read_rises))]
pub fn read_line(alloc: Global, bytes: &[u8]) -> Result<Value, Or<NotJson>>
    ensures ok { IfOk result (λ v. line_value bytes.now ≡ Some (view v)) }
    ensures bad { IfRefused result (λ _. line_value bytes.now ≡ None) }
    ensures rising { IfOk result (λ v. NamesRise (view v)) }
{
    let Ok(text) = std::str::from_utf8(bytes) else {
        return Err(Or::Fault(NotJson));
    };
    match Value::from_str(alloc, text) {
        Ok(value) => Ok(value),
        Err(error) => {
            if error.is_memory() {
                Err(Or::NoMemory)
            } else {
                Err(Or::Fault(NotJson))
            }
        }
    }
}

/// The line of a value without a floating-point number, with its line feed: compact JSON, the
/// members of each object in byte order of their names.
#[tactic(auto, using(crate::proofs::Rising::read_rises))]
pub fn write_line(alloc: Global, value: &Value) -> Result<Text, AllocError>
    requires { has_float (view value.now) ≡ false }
    ensures text { IfOk result (λ t. t ≡ compact_text (view value.now) ++ 10 ∷ []) }
    // These hold of values that nest no deeper than a text may.
    ensures back { OnOk result (depth (view value.now) ≤ max_depth → read (compact_text (view value.now)) ≡ Some (view value.now)) }
    ensures rising { OnOk result (depth (view value.now) ≤ max_depth → NamesRise (view value.now)) }
{
    let mut line = value.to_string(alloc)?;
    line.push_str("\n")?;
    Ok(Text::from_string(line))
}
