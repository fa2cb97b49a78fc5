//! Looking into a value of a known form.
ghost use Rattle.std.specs.Prelude.{◌≡◌, Some, None, IfOk, map, string_bytes, is_ok, option_map, option_and_then};
ghost use Rattle.std.specs.Option.{ok_or};
ghost use Rattle.std.specs.Result.{result_map_both};
ghost use Rattle.std.specs.BTreeMap.{keys};
ghost use Rattle.std.specs.List.{list_all};
ghost use Rattle.serde_json.specs.View.{view};
ghost use Rattle.serde_json.specs.Find.{as_str, as_number, as_u64, as_i64};
ghost use Rattle.st_ids.specs.Or.{IfRefused};
ghost use Rattle.st_json.specs.Look.{member_of, item_of, is_part, is_listed, has_only};

use crate::fault::Shape;
use serde_json::{Map, Value};
use st_ids::{Or, Text};
use std::alloc::Global;

/// The member of that name. `Shape` where the value is no object.
pub fn member<'a>(value: &'a Value, name: &str) -> Result<Option<&'a Value>, Shape>
    ensures { result_map_both (option_map (λ v. view v.now)) (λ e. e) result ≡ member_of name.now (view value.now) }
{
    if value.is_object() {
        Ok(value.get(name))
    } else {
        Err(Shape)
    }
}

/// The item at a place, counted from 0. `Shape` where the value is no array.
pub fn item(value: &Value, place: usize) -> Result<Option<&Value>, Shape>
    ensures { result_map_both (option_map (λ v. view v.now)) (λ e. e) result ≡ item_of place (view value.now) }
{
    if value.is_array() {
        Ok(value.get(place))
    } else {
        Err(Shape)
    }
}

// Whether a text is one of the parts that spaces divide.
fn is_part(parts: &str, text: &str) -> bool
    ensures { result ≡ is_part parts.now text.now }
{
    parts.split(' ').any(|part| part == text)
}

// Whether a name is one of the names that spaces divide.
fn is_listed(names: &str, name: &str) -> bool
    ensures { result ≡ is_listed names.now name.now }
{
    !name.is_empty() && is_part(names, name)
}

// Whether each member of an object has one of the names.
fn keys_listed(members: &Map<String, Value>, names: &str) -> bool
    ensures { result ≡ list_all (λ k. is_listed names.now (string_bytes k)) (keys members.now) }
{
    members.keys().all(|k| is_listed(names, k.as_str()))
}

/// Nothing, where the value is an object whose members all have one of the names, which spaces
/// divide. `Shape` elsewhere.
pub fn only(value: &Value, names: &str) -> Result<(), Shape>
    ensures { is_ok result ≡ has_only names.now (view value.now) }
{
    let Some(members) = value.as_object() else {
        return Err(Shape);
    };
    if keys_listed(members, names) {
        Ok(())
    } else {
        Err(Shape)
    }
}

/// The text that the value is. `Shape` where it is no text.
pub fn text(alloc: Global, value: &Value) -> Result<Text, Or<Shape>>
    ensures ok { IfOk result (λ t. as_str (view value.now) ≡ Some t) }
    ensures bad { IfRefused result (λ _. as_str (view value.now) ≡ None) }
{
    match value.as_str() {
        Some(text) => Ok(Text::from_str(alloc, text)?),
        None => Err(Or::Fault(Shape)),
    }
}

/// The whole number from 0 to 2^64 - 1 that the value is. `Shape` where it is none, as one with a
/// fraction or an exponent, or `-0`.
pub fn number(value: &Value) -> Result<u64, Shape>
    ensures { result ≡ ok_or (option_and_then as_u64 (as_number (view value.now))) (record {}) }
{
    value.as_u64().ok_or(Shape)
}

/// The whole number from -2^63 to 2^63 - 1 that the value is. `Shape` where it is none.
pub fn int(value: &Value) -> Result<i64, Shape>
    ensures { result ≡ ok_or (option_and_then as_i64 (as_number (view value.now))) (record {}) }
{
    value.as_i64().ok_or(Shape)
}
