//! Schemas read from a JSON value.
ghost use Rattle.std.specs.Prelude.{◌≡◌, ◌≢◌, IsTrue, true, Some, None, IfOk, option_map};
ghost use Rattle.std.specs.Result.{result_ok};
ghost use Rattle.serde_json.specs.View.{view, items_view, members_view};
ghost use Rattle.st_ids.specs.Or.{IfRefused};
ghost use Rattle.st_schema.specs.Schema.{SchemaView, is_sound};
ghost use Rattle.st_schema.specs.Written.{schema_data};
ghost use Rattle.st_schema.specs.Reading.{pair_of, pair_in, texts_of, kind_of, two_in, two_items, field_of_data, fields_of_members, definition_of, definitions_of, array_of, map_of, object_of, fields_of_data, schema_of};

use crate::names::{FieldDef, Form, KindName};
use crate::schema::Schema;
use crate::table::Definition;
use serde_json::{Map, Value};
use st_ids::{Key, List, Or, Text};
use st_json::{Shape, text};
use std::alloc::{AllocError, Global};

// The values of an object that has exactly two members, of these names in this order.
fn pair_in<'a>(
    members: &'a Map<String, Value>,
    first: &str,
    second: &str,
) -> Option<(&'a Value, &'a Value)>
    ensures { option_map (λ p. (view p.0.now, view p.1.now)) result ≡ pair_in first.now second.now (members_view members.now.entries) }
{
    let mut members = members.iter();
    let (one, x) = members.next()?;
    let (other, y) = members.next()?;
    if members.next().is_none() && one.as_str() == first && other.as_str() == second {
        Some((x, y))
    } else {
        None
    }
}

// The same of a value, which may be no object.
fn pair<'a>(value: &'a Value, first: &str, second: &str) -> Option<(&'a Value, &'a Value)>
    ensures { option_map (λ p. (view p.0.now, view p.1.now)) result ≡ pair_of first.now second.now (view value.now) }
{
    pair_in(value.as_object()?, first, second)
}

// The texts of an array, where it has nothing else.
fn texts(alloc: Global, value: &Value) -> Result<List<Text>, Or<Shape>>
    ensures ok { IfOk result (λ ts. texts_of (view value.now) ≡ Some ts) }
    ensures bad { IfRefused result (λ _. texts_of (view value.now) ≡ None) }
{
    let Some(items) = value.as_array() else {
        return Err(Or::Fault(Shape));
    };
    let mut texts = List::new(alloc);
    for item in items {
        texts.push(text(alloc, item)?)?;
    }
    Ok(texts)
}

// The kind that a text names.
fn kind(value: &Value) -> Result<KindName, Shape>
    ensures { result_ok result ≡ kind_of (view value.now) }
{
    match value.as_str() {
        Some("req") => Ok(KindName::Required),
        Some("opt") => Ok(KindName::Optional),
        _ => Err(Shape),
    }
}

// The two of two values, where there are no others.
fn two_in(values: &[Value]) -> Option<(&Value, &Value)>
    ensures { option_map (λ p. (view p.0.now, view p.1.now)) result ≡ two_in (items_view values.now) }
{
    let mut values = values.iter();
    let first = values.next()?;
    let second = values.next()?;
    if values.next().is_none() {
        Some((first, second))
    } else {
        None
    }
}

// The two items of an array that has no others.
fn two_items(value: &Value) -> Option<(&Value, &Value)>
    ensures { option_map (λ p. (view p.0.now, view p.1.now)) result ≡ two_items (view value.now) }
{
    two_in(value.as_array()?.as_slice())
}

// A declared field, of its key and its value `[kind,[types]]`.
fn field(alloc: Global, key: &str, value: &Value) -> Result<FieldDef, Or<Shape>>
    ensures ok { IfOk result (λ f. field_of_data key.now (view value.now) ≡ Some f) }
    ensures bad { IfRefused result (λ _. field_of_data key.now (view value.now) ≡ None) }
{
    let Some((name, types)) = two_items(value) else {
        return Err(Or::Fault(Shape));
    };
    let Ok(kind) = kind(name) else {
        return Err(Or::Fault(Shape));
    };
    let types = texts(alloc, types)?;
    let key = Key(Text::from_str(alloc, key)?);
    Ok(FieldDef { key, kind, types })
}

// The declared fields of the members of an object.
fn fields_in(alloc: Global, members: &Map<String, Value>) -> Result<List<FieldDef>, Or<Shape>>
    ensures ok { IfOk result (λ fs. fields_of_members (members_view members.now.entries) ≡ Some fs) }
    ensures bad { IfRefused result (λ _. fields_of_members (members_view members.now.entries) ≡ None) }
{
    let mut fields = List::new(alloc);
    for (key, value) in members.iter() {
        fields.push(field(alloc, key.as_str(), value)?)?;
    }
    Ok(fields)
}

// The declared fields of an object.
fn fields(alloc: Global, value: &Value) -> Result<List<FieldDef>, Or<Shape>>
    ensures ok { IfOk result (λ fs. fields_of_data (view value.now) ≡ Some fs) }
    ensures bad { IfRefused result (λ _. fields_of_data (view value.now) ≡ None) }
{
    match value.as_object() {
        Some(members) => fields_in(alloc, members),
        None => Err(Or::Fault(Shape)),
    }
}

// A definition of an array type.
fn array_type(alloc: Global, types: &Value, name: &Value) -> Result<Definition, Or<Shape>>
    ensures ok { IfOk result (λ d. array_of (view types.now, view name.now) ≡ Some (d.0, d.1)) }
    ensures bad { IfRefused result (λ _. array_of (view types.now, view name.now) ≡ None) }
{
    let types = texts(alloc, types)?;
    let name = text(alloc, name)?;
    Ok((name, Form::Array(types)))
}

// A definition of a map type.
fn map_type(alloc: Global, types: &Value, name: &Value) -> Result<Definition, Or<Shape>>
    ensures ok { IfOk result (λ d. map_of (view types.now, view name.now) ≡ Some (d.0, d.1)) }
    ensures bad { IfRefused result (λ _. map_of (view types.now, view name.now) ≡ None) }
{
    let types = texts(alloc, types)?;
    let name = text(alloc, name)?;
    Ok((name, Form::Map(types)))
}

// A definition of an object type.
fn object_type(alloc: Global, name: &Value, object: &Value) -> Result<Definition, Or<Shape>>
    ensures ok { IfOk result (λ d. object_of (view name.now, view object.now) ≡ Some (d.0, d.1)) }
    ensures bad { IfRefused result (λ _. object_of (view name.now, view object.now) ≡ None) }
{
    let name = text(alloc, name)?;
    let fields = fields(alloc, object)?;
    Ok((name, Form::Object(fields)))
}

// A definition.
fn definition(alloc: Global, value: &Value) -> Result<Definition, Or<Shape>>
    ensures ok { IfOk result (λ d. definition_of (view value.now) ≡ Some (d.0, d.1)) }
    ensures bad { IfRefused result (λ _. definition_of (view value.now) ≡ None) }
{
    if let Some((types, name)) = pair(value, "array", "name") {
        array_type(alloc, types, name)
    } else if let Some((types, name)) = pair(value, "map", "name") {
        map_type(alloc, types, name)
    } else if let Some((name, object)) = pair(value, "name", "object") {
        object_type(alloc, name, object)
    } else {
        Err(Or::Fault(Shape))
    }
}

// The definitions of an array.
fn definitions(alloc: Global, value: &Value) -> Result<List<Definition>, Or<Shape>>
    ensures ok { IfOk result (λ ds. definitions_of (view value.now) ≡ Some ds) }
    ensures bad { IfRefused result (λ _. definitions_of (view value.now) ≡ None) }
{
    let Some(items) = value.as_array() else {
        return Err(Or::Fault(Shape));
    };
    let mut definitions = List::new(alloc);
    for item in items {
        definitions.push(definition(alloc, item)?)?;
    }
    Ok(definitions)
}

// The root's list and the definitions of a schema.
fn parts(alloc: Global, value: &Value) -> Result<(List<Text>, List<Definition>), Or<Shape>>
    ensures ok { IfOk result (λ p. schema_of (view value.now) ≡ Some (record { root = p.0; types = p.1 })) }
    ensures bad { IfRefused result (λ _. schema_of (view value.now) ≡ None) }
{
    let Some((root, types)) = pair(value, "root", "types") else {
        return Err(Or::Fault(Shape));
    };
    let root = texts(alloc, root)?;
    let definitions = definitions(alloc, types)?;
    Ok((root, definitions))
}

impl Schema {
    /// The schema of a value. `Shape` exactly where the value is not the form of a schema that keeps
    /// the rules.
    #[tactic(auto, using(crate::proofs::Forms::schema_back, crate::proofs::Forms::read_none, crate::proofs::Forms::read_same, crate::proofs::Forms::refused_unsound))]
    pub fn read(alloc: Global, value: &Value) -> Result<Schema, Or<Shape>>
        ensures ok { IfOk result (λ s. view value.now ≡ schema_data s) }
        ensures sound { IfOk result (λ s. IsTrue (is_sound s)) }
        ensures bad { IfRefused result (λ _. (s : SchemaView) → IsTrue (is_sound s) → view value.now ≢ schema_data s) }
        ensures back { IfOk result (λ r. (s : SchemaView) → IsTrue (is_sound s) → view value.now ≡ schema_data s → r ≡ s) }
    {
        let (root, definitions) = parts(alloc, value)?;
        Schema::of_parts(alloc, root, definitions)
    }
}
