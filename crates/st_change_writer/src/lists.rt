//! Lists, texts and truth values, written behind a text.
ghost use Rattle.std.specs.Prelude.{◌≡◌, ◌++◌, map, IfOk, OnOk};
ghost use Rattle.serde_json.specs.Data.{Data, boolean, string};
ghost use Rattle.serde_json.specs.Written.{comma_if, compact_text};
ghost use Rattle.st_change_codec.specs.Changes.{list_data};
ghost use Rattle.st_change_writer.specs.Texts.{bool_text};

use serde_json::Value;
use st_ids::Text;
use std::alloc::{AllocError, Global};

/// What things are written as.
pub(crate) trait PushItem {
    type Item;

    ghost told: { Self → Self.Item → Data };

    /// Writes a thing behind a text.
    fn push(&self, out: &mut Text, item: &Self::Item) -> Result<(), AllocError>
        ensures { OnOk result (out.new ≡ out.old ++ compact_text (told self.now item.now)) };
}

// Writes a comma where something stands before.
fn push_comma(out: &mut Text, later: bool) -> Result<(), AllocError>
    ensures { OnOk result (out.new ≡ out.old ++ comma_if later) }
{
    if later { out.push_str(",") } else { Ok(()) }
}

/// Writes things as an array.
pub(crate) fn push_list<W: PushItem>(
    out: &mut Text,
    items: &[W::Item],
    writer: &W,
) -> Result<(), AllocError>
    ensures { OnOk result (out.new ≡ out.old ++ compact_text (list_data (map (W.told writer.now) items.now))) }
{
    out.push_str("[")?;
    let mut later = false;
    for item in items {
        push_comma(out, later)?;
        writer.push(out, item)?;
        later = true;
    }
    out.push_str("]")
}

/// Writes a text with its quotes.
pub(crate) fn push_quoted(alloc: Global, out: &mut Text, text: &str) -> Result<(), AllocError>
    ensures { OnOk result (out.new ≡ out.old ++ compact_text (string text.now)) }
{
    let quoted = quoted(alloc, text)?;
    out.push_str(quoted.as_str())
}

// A text with its quotes.
fn quoted(alloc: Global, text: &str) -> Result<Text, AllocError>
    ensures { IfOk result (λ t. t ≡ compact_text (string text.now)) }
{
    let value = Value::String(String::from_str(alloc, text)?);
    Ok(Text::from_string(value.to_string(alloc)?))
}

/// The text of a truth value.
pub(crate) fn bool_text(value: bool) -> &'static str
    ensures { result.now ≡ bool_text value }
{
    if value { "true" } else { "false" }
}

/// Writes a truth value.
#[tactic(auto, using(crate::proofs::Append::bool_is))]
pub(crate) fn push_bool(out: &mut Text, value: bool) -> Result<(), AllocError>
    ensures { OnOk result (out.new ≡ out.old ++ compact_text (boolean value)) }
{
    out.push_str(bool_text(value))
}
