//! The rules that each schema keeps.
ghost use Rattle.std.specs.Prelude.{◌≡◌, ◌&&◌, map, [], ◌∷◌};
ghost use Rattle.std.specs.List.{list_all};
ghost use Rattle.st_schema.specs.Schema.{is_key, is_among, leaf_types, is_type_name, is_distinct, is_known, list_is_sound, field_is_sound, defs_rise, form_is_sound, type_names, forms_are_sound};
ghost use Rattle.st_schema.specs.Kind.{is_single_kind};

use crate::names::{FieldDef, Form, KindName};
use indexmap::IndexMap;
use st_ids::{List, Text};

// Whether a text may be a key or a type's name: 1 to 64 bytes.
pub(crate) fn is_key(text: &str) -> bool
    ensures { result ≡ is_key text.now }
{
    !text.is_empty() && text.len() <= 64
}

// Whether a type is one that is always there.
pub(crate) fn is_leaf_type(ty: &str) -> bool
    ensures { result ≡ is_among ty.now leaf_types }
{
    ty == "null" || ty == "bool" || ty == "int" || ty == "text"
}

// Whether a definition may have this name.
pub(crate) fn is_type_name(name: &str) -> bool
    ensures { result ≡ is_type_name name.now }
{
    is_key(name) && !is_leaf_type(name)
}

// Whether no text stands twice.
fn is_distinct(texts: &List<Text>) -> bool
    ensures { result ≡ is_distinct texts.now }
{
    let texts = texts.as_slice();
    for (i, text) in texts.iter().enumerate() {
        if texts[i + 1..].contains(text) {
            return false;
        }
    }
    true
}

// Whether a type is always there or defined.
#[tactic(auto, using(crate::proofs::Known::known_found))]
fn is_known(types: &IndexMap<Text, Form>, ty: &Text) -> bool
    ensures { result ≡ is_known (type_names types.now.entries) ty.now }
{
    is_leaf_type(ty.as_str()) || types.contains_key(ty)
}

// Whether a list names known types.
fn all_known(types: &IndexMap<Text, Form>, list: &List<Text>) -> bool
    ensures { result ≡ list_all (is_known (type_names types.now.entries)) list.now }
{
    list.as_slice().iter().all(|ty| is_known(types, ty))
}

// Whether a list names known types, and none twice.
pub(crate) fn list_is_sound(types: &IndexMap<Text, Form>, list: &List<Text>) -> bool
    ensures { result ≡ list_is_sound (type_names types.now.entries) list.now }
{
    all_known(types, list) && is_distinct(list)
}

// Whether a declared field keeps the rules.
fn field_is_sound(types: &IndexMap<Text, Form>, field: &FieldDef) -> bool
    ensures { result ≡ field_is_sound (type_names types.now.entries) field.now }
{
    is_key(field.key.0.as_str())
        && field.kind != KindName::Sequence
        && list_is_sound(types, &field.types)
}

// Whether the keys rise.
fn keys_rise(fields: &List<FieldDef>) -> bool
    ensures { result ≡ defs_rise [] fields.now }
{
    let mut before: &[u8] = b"";
    for field in fields.as_slice() {
        let key = field.key.0.as_str().as_bytes();
        if !before.cmp(key).is_lt() {
            return false;
        }
        before = key;
    }
    true
}

// Whether the declared fields keep the rules.
fn fields_are_sound(types: &IndexMap<Text, Form>, fields: &List<FieldDef>) -> bool
    ensures { result ≡ list_all (field_is_sound (type_names types.now.entries)) fields.now }
{
    fields
        .as_slice()
        .iter()
        .all(|field| field_is_sound(types, field))
}

// Whether a definition keeps the rules.
fn form_is_sound(types: &IndexMap<Text, Form>, form: &Form) -> bool
    ensures { result ≡ form_is_sound (type_names types.now.entries) form.now }
{
    match form {
        Form::Array(list) => list_is_sound(types, list),
        Form::Map(list) => list_is_sound(types, list),
        Form::Object(fields) => {
            fields.len() <= 64 && fields_are_sound(types, fields) && keys_rise(fields)
        }
    }
}

// Whether all definitions keep the rules.
pub(crate) fn forms_are_sound(types: &IndexMap<Text, Form>) -> bool
    ensures { result ≡ forms_are_sound types.now.entries }
{
    types.values().all(|form| form_is_sound(types, form))
}

// Whether the definitions have good names.
fn names_are_sound(types: &IndexMap<Text, Form>) -> bool
    ensures { result ≡ list_all is_type_name (type_names types.now.entries) }
{
    types.keys().all(|name| is_type_name(name.as_str()))
}

// Whether all definitions keep the rules, their number and the distinct names aside.
pub(crate) fn table_is_sound(types: &IndexMap<Text, Form>) -> bool
    ensures { result ≡ (list_all is_type_name (type_names types.now.entries) && forms_are_sound types.now.entries) }
{
    names_are_sound(types) && forms_are_sound(types)
}
