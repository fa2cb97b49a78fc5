//! Schemas written as a JSON value and as a text.
ghost use Rattle.std.specs.Prelude.{◌≡◌, Some, true, false, [], map, codes, IfOk};
ghost use Rattle.std.specs.List.{list_all};
ghost use Rattle.serde_json.specs.Data.{array, object, member, no_members};
ghost use Rattle.serde_json.specs.View.{view, items_of};
ghost use Rattle.serde_json.specs.Read.{read};
ghost use Rattle.serde_json.specs.Written.{compact_text};
ghost use Rattle.st_schema.specs.Schema.{defs_rise};
ghost use Rattle.st_schema.specs.inside.Schema.{form_rises};
ghost use Rattle.st_schema.specs.declared.names.Form.TheVariants.{Array, Map as MapOf, Object};
ghost use Rattle.st_schema.specs.Written.{names_data, kind_text, field_data, fields_data, form_data, definition_data, schema_data};

use crate::names::{FieldDef, Form, KindName};
use crate::schema::Schema;
use indexmap::IndexMap;
use serde_json::{Map, Value, json};
use st_ids::{List, Text};
use std::alloc::{AllocError, Global};

// A list of types.
fn names_value(alloc: Global, names: &List<Text>) -> Result<Value, AllocError>
    ensures { IfOk result (λ v. view v ≡ names_data names.now) }
{
    let mut items = Vec::new(alloc);
    for name in names.as_slice() {
        items.push(Value::String(String::from_str(alloc, name.as_str())?))?;
    }
    Ok(Value::Array(items))
}

// The word for a kind.
fn kind_word(kind: KindName) -> &'static str
    ensures { result.now ≡ kind_text kind }
{
    match kind {
        KindName::Required => "req",
        KindName::Optional => "opt",
        KindName::Sequence => "seq",
    }
}

// What a declared field says.
fn field_value(alloc: Global, field: &FieldDef) -> Result<Value, AllocError>
    ensures { IfOk result (λ v. view v ≡ field_data field.now) }
{
    let types = names_value(alloc, &field.types)?;
    let kind = kind_word(field.kind);
    json!(in alloc; [kind, types])
}

// The declared fields of an object type.
fn fields_value(alloc: Global, fields: &List<FieldDef>) -> Result<Value, AllocError>
    requires { defs_rise [] fields.now ≡ true }
    ensures { IfOk result (λ v. view v ≡ object (fields_data fields.now)) }
{
    let mut members = Map::new(alloc);
    for field in fields.as_slice() {
        let value = field_value(alloc, field)?;
        members.insert(String::from_str(alloc, field.key.0.as_str())?, value)?;
    }
    Ok(Value::Object(members))
}

// The definition of an array type.
fn array_value(alloc: Global, name: &str, types: &List<Text>) -> Result<Value, AllocError>
    ensures { IfOk result (λ v. view v ≡ form_data name.now (Array types.now)) }
{
    let types = names_value(alloc, types)?;
    json!(in alloc; {"array": types, "name": name})
}

// The definition of a map type.
fn map_value(alloc: Global, name: &str, types: &List<Text>) -> Result<Value, AllocError>
    ensures { IfOk result (λ v. view v ≡ form_data name.now (MapOf types.now)) }
{
    let types = names_value(alloc, types)?;
    json!(in alloc; {"map": types, "name": name})
}

// The definition of an object type.
fn object_value(alloc: Global, name: &str, fields: &List<FieldDef>) -> Result<Value, AllocError>
    requires { defs_rise [] fields.now ≡ true }
    ensures { IfOk result (λ v. view v ≡ form_data name.now (Object fields.now)) }
{
    let fields = fields_value(alloc, fields)?;
    json!(in alloc; {"name": name, "object": fields})
}

// A definition.
fn definition_value(alloc: Global, name: &Text, form: &Form) -> Result<Value, AllocError>
    requires { form_rises form.now ≡ true }
    ensures { IfOk result (λ v. view v ≡ form_data name.now form.now) }
{
    let name = name.as_str();
    match form {
        Form::Array(types) => array_value(alloc, name, types),
        Form::Map(types) => map_value(alloc, name, types),
        Form::Object(fields) => object_value(alloc, name, fields),
    }
}

// The definitions of a table.
fn definitions_value(alloc: Global, types: &IndexMap<Text, Form>) -> Result<Value, AllocError>
    requires { list_all (λ d. form_rises d.1) types.now.entries ≡ true }
    ensures { IfOk result (λ v. view v ≡ array (items_of (map definition_data types.now.entries))) }
{
    let mut items = Vec::new(alloc);
    for (name, form) in types.iter() {
        items.push(definition_value(alloc, name, form)?)?;
    }
    Ok(Value::Array(items))
}

// The JSON form of a schema, of those of its two parts.
fn whole_value(alloc: Global, root: Value, types: Value) -> Result<Value, AllocError>
    ensures { IfOk result (λ v. view v ≡ object (member (codes "root") (view root) (member (codes "types") (view types) no_members))) }
{
    json!(in alloc; {"root": root, "types": types})
}

// The JSON form of a root's list and a table.
fn parts_value(
    alloc: Global,
    root: &List<Text>,
    types: &IndexMap<Text, Form>,
) -> Result<Value, AllocError>
    requires { list_all (λ d. form_rises d.1) types.now.entries ≡ true }
    ensures { IfOk result (λ v. view v ≡ schema_data (record { root = root.now; types = types.now.entries })) }
{
    let root = names_value(alloc, root)?;
    let types = definitions_value(alloc, types)?;
    whole_value(alloc, root, types)
}

impl Schema {
    ghost use Rattle.st_schema.specs.Schema.{is_sound};
    ghost use Rattle.std.specs.Prelude.{OnOk};

    /// The schema as a JSON value.
    #[tactic(auto, using(crate::proofs::Plain::sound_rises))]
    pub fn value(&self, alloc: Global) -> Result<Value, AllocError>
        ensures { IfOk result (λ v. view v ≡ schema_data self.now) }
    {
        let (root, types) = self.parts();
        parts_value(alloc, root, types)
    }

    /// The text of the schema: its JSON form, compact.
    #[tactic(auto, using(crate::proofs::Plain::schema_plain, crate::proofs::Plain::schema_shallow))]
    pub fn text(&self, alloc: Global) -> Result<Text, AllocError>
        ensures text { IfOk result (λ t. t ≡ compact_text (schema_data self.now)) }
        ensures back { OnOk result (read (compact_text (schema_data self.now)) ≡ Some (schema_data self.now)) }
    {
        let value = self.value(alloc)?;
        Ok(Text::from_string(value.to_string(alloc)?))
    }
}
