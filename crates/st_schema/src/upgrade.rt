//! Which schemas are wider than another.
ghost use Rattle.std.specs.Prelude.{◌≡◌, ◌≤◌, ◌&&◌, length, is_some, true, Ok};
ghost use Rattle.std.specs.List.{list_all};
ghost use Rattle.st_tree.specs.Node.{Node};
ghost use Rattle.st_schema.specs.Schema.{SchemaView, declared_field};
ghost use Rattle.st_schema.specs.Conforms.{conforms};
ghost use Rattle.st_schema.specs.Wider.{contains_all, kind_widens, widens_found, def_widens, defs_widen, form_widens, types_widen, wider_of};
ghost use Rattle.st_schema.specs.inside.Wider.{count_wider};

use crate::names::{FieldDef, Form, KindName, NotWider};
use crate::schema::{Schema, declared_field};
use indexmap::IndexMap;
use st_ids::{List, Text};

// Whether a list has each type of another.
fn contains_all(new: &List<Text>, old: &List<Text>) -> bool
    ensures { result ≡ contains_all new.now old.now }
{
    old.as_slice().iter().all(|ty| new.as_slice().contains(ty))
}

// Whether a field of a kind may get another.
fn kind_widens(old: KindName, new: KindName) -> bool
    ensures { result ≡ kind_widens old new }
{
    match (old, new) {
        (KindName::Required, KindName::Required | KindName::Optional) => true,
        (KindName::Optional, KindName::Optional) => true,
        _ => false,
    }
}

// Whether a new field widens the old one of its key, or is added as an optional one.
fn def_widens(olds: &List<FieldDef>, new: &FieldDef) -> bool
    ensures { result ≡ def_widens olds.now new.now }
{
    match declared_field(olds, &new.key) {
        Some(old) => kind_widens(old.kind, new.kind) && contains_all(&new.types, &old.types),
        None => new.kind == KindName::Optional,
    }
}

// Whether each old field is there.
fn all_there(olds: &List<FieldDef>, news: &List<FieldDef>) -> bool
    ensures { result ≡ list_all (λ old. is_some (declared_field news.now old.key.0)) olds.now }
{
    olds.as_slice()
        .iter()
        .all(|old| declared_field(news, &old.key).is_some())
}

// Whether the fields of an object type are wider.
fn defs_widen(olds: &List<FieldDef>, news: &List<FieldDef>) -> bool
    ensures { result ≡ defs_widen olds.now news.now }
{
    all_there(olds, news) && all_widen(olds, news)
}

// Whether each new field widens an old one or is added as an optional one.
fn all_widen(olds: &List<FieldDef>, news: &List<FieldDef>) -> bool
    ensures { result ≡ list_all (def_widens olds.now) news.now }
{
    news.as_slice().iter().all(|new| def_widens(olds, new))
}

// Whether a form is the same and wider.
fn form_widens(old: &Form, new: &Form) -> bool
    ensures { result ≡ form_widens old.now new.now }
{
    match (old, new) {
        (Form::Array(old), Form::Array(new)) => contains_all(new, old),
        (Form::Map(old), Form::Map(new)) => contains_all(new, old),
        (Form::Object(olds), Form::Object(news)) => defs_widen(olds, news),
        _ => false,
    }
}

// The count of old types, where each new type at their places is the same and wider.
fn types_widen(old: &IndexMap<Text, Form>, new: &IndexMap<Text, Form>) -> Result<u32, NotWider>
    requires { length old.now.entries ≤ 256 }
    ensures { result ≡ count_wider 0 (types_widen old.now.entries new.now.entries) }
{
    let mut at = 0;
    let mut news = new.iter();
    for (name, form) in old.iter() {
        match news.next() {
            Some((new_name, new_form)) if name == new_name && form_widens(form, new_form) => at +=
                1,
            _ => return Err(NotWider { at }),
        }
    }
    Ok(at)
}

/// Nothing, where the new schema is wider: the old types stand first in it, each of the same form,
/// with lists that have each old type and fields to which only optional ones are added.
#[tactic(auto, using(crate::proofs::Widening::wider_counted, crate::proofs::Widening::few_types))]
pub fn wider(old: &Schema, new: &Schema) -> Result<(), NotWider>
    ensures { result ≡ wider_of old.now new.now }
{
    let (old_root, old_types) = old.parts();
    let (new_root, new_types) = new.parts();
    match types_widen(old_types, new_types) {
        Err(fault) => Err(fault),
        Ok(at) => {
            if contains_all(new_root, old_root) {
                Ok(())
            } else {
                Err(NotWider { at })
            }
        }
    }
}

/// A wider schema allows every tree of the old one: no new list lacks an old type, and no new
/// required field is missing.
#[tactic(auto, using(crate::proofs::MoreTrees::wider_conforms))]
pub fn wider_allows_more()
    ensures { (old new : SchemaView) (t : Node) → wider_of old new ≡ Ok tt → conforms old old.root t ≡ true → conforms new new.root t ≡ true }
{}
