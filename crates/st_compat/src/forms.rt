//! Why a type of a stored schema fails in a view.
ghost use Rattle.std.specs.Prelude.{◌≡◌, is_some, Some, None, if◌then◌else◌};
ghost use Rattle.std.specs.List.{list_all};
ghost use Rattle.std.specs.Option.{option_copied};
ghost use Rattle.st_schema.specs.Schema.{declared_field};
ghost use Rattle.st_schema.specs.Wider.{contains_all, kind_widens, def_widens, defs_widen};
ghost use Rattle.st_compat.specs.Relation.{difference, why};

use crate::relation::Why;
use st_ids::{Key, List, Text};
use st_schema::{FieldDef, Form, KindName, Schema};

/// Whether a list has each type of another.
pub(crate) fn contains_all(new: &List<Text>, old: &List<Text>) -> bool
    ensures { result ≡ contains_all new.now old.now }
{
    old.as_slice().iter().all(|ty| new.as_slice().contains(ty))
}

// What an object type declares under a key.
fn declared_field<'a>(fields: &'a List<FieldDef>, key: &Key) -> Option<&'a FieldDef>
    ensures { option_copied result ≡ declared_field fields.now key.now.0 }
{
    fields.as_slice().iter().find(|field| field.key == *key)
}

// Whether a field of a kind may get another.
fn kind_widens(old: KindName, new: KindName) -> bool
    ensures { result ≡ kind_widens old new }
{
    match (old, new) {
        (KindName::Required, KindName::Required | KindName::Optional) => true,
        (KindName::Optional, KindName::Optional) => true,
        _ => false,
    }
}

// Whether a field of the view is as wide as the stored one of its key, or is a further optional one.
fn def_widens(olds: &List<FieldDef>, new: &FieldDef) -> bool
    ensures { result ≡ def_widens olds.now new.now }
{
    match declared_field(olds, &new.key) {
        Some(old) => kind_widens(old.kind, new.kind) && contains_all(&new.types, &old.types),
        None => new.kind == KindName::Optional,
    }
}

// Whether each stored field is there.
fn all_there(olds: &List<FieldDef>, news: &List<FieldDef>) -> bool
    ensures { result ≡ list_all (λ old. is_some (declared_field news.now old.key.0)) olds.now }
{
    olds.as_slice()
        .iter()
        .all(|old| declared_field(news, &old.key).is_some())
}

// Whether each field of the view is as wide as a stored one, or optional.
fn all_widen(olds: &List<FieldDef>, news: &List<FieldDef>) -> bool
    ensures { result ≡ list_all (def_widens olds.now) news.now }
{
    news.as_slice().iter().all(|new| def_widens(olds, new))
}

// Nothing, where a list has each type of another.
fn narrower_list(old: &List<Text>, new: &List<Text>) -> Option<Why>
    ensures { result ≡ (if contains_all new.now old.now then None else Some Why.Allow) }
{
    if contains_all(new, old) {
        None
    } else {
        Some(Why::Allow)
    }
}

// Nothing, where the fields of an object type are as wide.
fn narrower_fields(olds: &List<FieldDef>, news: &List<FieldDef>) -> Option<Why>
    ensures { result ≡ (if defs_widen olds.now news.now then None else Some Why.Fields) }
{
    if all_there(olds, news) && all_widen(olds, news) {
        None
    } else {
        Some(Why::Fields)
    }
}

// Nothing, where a form of the view is the same and as wide; else the first difference.
fn difference(old: &Form, new: &Form) -> Option<Why>
    ensures { result ≡ difference old.now new.now }
{
    match (old, new) {
        (Form::Array(old), Form::Array(new)) => narrower_list(old, new),
        (Form::Map(old), Form::Map(new)) => narrower_list(old, new),
        (Form::Object(olds), Form::Object(news)) => narrower_fields(olds, news),
        _ => Some(Why::Shape),
    }
}

/// Why a stored type fails in the view.
pub(crate) fn why(stored: &Schema, view: &Schema, ty: &Text) -> Option<Why>
    ensures { result ≡ why stored.now view.now ty.now }
{
    let form = stored.form(ty)?;
    match view.form(ty) {
        None => Some(Why::Absent),
        Some(other) => difference(form, other),
    }
}
