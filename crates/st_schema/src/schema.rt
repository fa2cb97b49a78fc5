//! A schema and what is looked up in it.
ghost use Rattle.std.specs.Prelude.{◌≡◌, ◌≤◌, true, false, length, IfOk, slice_get, option_map};
ghost use Rattle.std.specs.Option.{option_copied};
ghost use Rattle.st_schema.specs.Schema.{is_sound, is_distinct, type_names, form_of, declared_field, field_in};
ghost use Rattle.st_ids.specs.Or.{IfRefused};

use crate::names::{FieldDef, FieldRule, Form, KindName};
use crate::rules::{is_key, list_is_sound, table_is_sound};
use crate::table::{Definition, copy_table, table_of};
use indexmap::IndexMap;
use st_ids::{Copied, Key, List, Or, Text};
use st_json::Shape;
use std::alloc::{AllocError, Global};
use std::marker::Model;

/// The types of a document: those that its root may have, and their definitions in order.
#[derive(Drop)]
pub struct Schema {
    root: List<Text>,
    types: IndexMap<Text, Form>,
}

impl Model for Schema {
    ghost use Rattle.st_schema.specs.Schema.{SchemaView, is_sound};
    ghost use Rattle.std.specs.Prelude.{IsTrue};

    ghost Value = { SchemaView };

    ghost view = { λ s. record { root = s.root; types = s.types.entries } };

    ghost invariant = { λ s. IsTrue (is_sound (record { root = s.root; types = s.types.entries })) };
}

// Whether a table of few enough definitions of distinct names and a root's list keep the rules.
fn is_sound(root: &List<Text>, types: &IndexMap<Text, Form>) -> bool
    requires few { length types.now.entries ≤ 256 }
    requires distinct { is_distinct (type_names types.now.entries) ≡ true }
    ensures { result ≡ is_sound (record { root = root.now; types = types.now.entries }) }
{
    table_is_sound(types) && list_is_sound(types, root)
}

// The definition of a type.
fn form_in<'a>(types: &'a IndexMap<Text, Form>, ty: &Text) -> Option<&'a Form>
    ensures { option_copied result ≡ form_of types.now.entries ty.now }
{
    types.get(ty)
}

// What an object type declares under a key.
pub(crate) fn declared_field<'a>(fields: &'a List<FieldDef>, key: &Key) -> Option<&'a FieldDef>
    ensures { option_copied result ≡ declared_field fields.now key.now.0 }
{
    fields.as_slice().iter().find(|field| field.key == *key)
}

// The rule for the field of a form under a key.
fn field_in(alloc: Global, form: &Form, key: &Key) -> Result<Option<FieldRule>, AllocError>
    ensures { IfOk result (λ r. r ≡ field_in form.now key.now.0) }
{
    match form {
        Form::Array(types) => {
            if key.0.is_empty() {
                rule(alloc, KindName::Sequence, types)
            } else {
                Ok(None)
            }
        }
        Form::Map(types) => {
            if is_key(key.0.as_str()) {
                rule(alloc, KindName::Optional, types)
            } else {
                Ok(None)
            }
        }
        Form::Object(fields) => match declared_field(fields, key) {
            Some(field) => rule(alloc, field.kind, &field.types),
            None => Ok(None),
        },
    }
}

// A rule of these parts.
fn rule(alloc: Global, kind: KindName, types: &List<Text>) -> Result<Option<FieldRule>, AllocError>
    ensures { IfOk result (λ r. r ≡ Some (record { kind = kind; types = types.now })) }
{
    let types = types.copy(alloc)?;
    Ok(Some(FieldRule { kind, types }))
}

impl Schema {
    ghost use Rattle.st_schema.specs.Schema.{is_sound, form_of, field_of};
    ghost use Rattle.std.specs.Prelude.{IsTrue};

    // The schema of these parts. Refused where they break a rule.
    pub(crate) fn of_parts(
        alloc: Global,
        root: List<Text>,
        definitions: List<Definition>,
    ) -> Result<Schema, Or<Shape>>
        ensures ok { IfOk result (λ s. s ≡ record { root = root; types = definitions }) }
        ensures sound { IfOk result (λ s. is_sound s ≡ true) }
        ensures bad { IfRefused result (λ _. is_sound (record { root = root; types = definitions }) ≡ false) }
    {
        if definitions.len() > 256 {
            return Err(Or::Fault(Shape));
        }
        let types = table_of(alloc, definitions)?;
        if is_sound(&root, &types) {
            Ok(Schema { root, types })
        } else {
            Err(Or::Fault(Shape))
        }
    }

    // The root's list and the table.
    pub(crate) fn parts(&self) -> (&List<Text>, &IndexMap<Text, Form>)
        ensures root { result.0.now ≡ self.now.root }
        ensures types { result.1.now.entries ≡ self.now.types }
        ensures sound { is_sound self.now ≡ true }
    {
        (&self.root, &self.types)
    }

    /// The types that the root may have.
    pub fn root(&self) -> &List<Text>
        ensures { result.now ≡ self.now.root }
    {
        &self.root
    }

    /// The name of a definition, counted from 0.
    pub fn name_at(&self, i: usize) -> Option<&Text>
        ensures { option_copied result ≡ option_map (λ d. d.0) (slice_get self.now.types i) }
    {
        let (name, _) = self.types.get_index(i)?;
        Some(name)
    }

    /// What the definition of that name says.
    pub fn form(&self, ty: &Text) -> Option<&Form>
        ensures { option_copied result ≡ form_of self.now.types ty.now }
    {
        form_in(&self.types, ty)
    }

    /// The rule for the field of a type under a key: the row of an array type under the empty key, an
    /// optional field of a map type under each key of 1 to 64 bytes, a declared field of an object
    /// type.
    pub fn field(
        &self,
        alloc: Global,
        ty: &Text,
        key: &Key,
    ) -> Result<Option<FieldRule>, AllocError>
        ensures { IfOk result (λ r. r ≡ field_of self.now ty.now key.now.0) }
    {
        match self.form(ty) {
            Some(form) => field_in(alloc, form, key),
            None => Ok(None),
        }
    }

    /// Every schema keeps the rules.
    pub fn is_kept(&self)
        ensures { IsTrue (is_sound self.now) }
    {
        let _ = &self.root;
    }
}

#[tactic(auto, using(crate::proofs::Plain::sound_distinct))]
impl Copied for Schema {
    fn copy(&self, alloc: Global) -> Result<Self, AllocError> {
        let root = self.root.copy(alloc)?;
        let types = copy_table(alloc, &self.types)?;
        Ok(Schema { root, types })
    }
}
