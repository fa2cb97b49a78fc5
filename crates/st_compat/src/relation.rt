//! The relation of two schemas.
ghost use Rattle.std.specs.Prelude.{◌≡◌, ◌++◌, [], true, false, IfOk, OnOk};
ghost use Rattle.st_schema.specs.Schema.{type_names};
ghost use Rattle.st_compat.specs.Relation.{root_cause, Covers, AreEqual, Reads, CausesOf, AreCauses, IsRelation};
ghost use Rattle.st_compat.specs.inside.Marks.{IsMarking, PassesWhere, cause_of, relation_by};

use crate::forms::{contains_all, why};
use crate::reached::{Marks, mark_reachable};
use st_ids::{Copied, List, Text};
use st_schema::{Schema, wider};
use std::alloc::{AllocError, Global};

/// What a view schema is to the schema that documents are stored under. The first that holds, in
/// the order of the variants.
#[derive(Drop)]
pub enum Relation {
    /// Both define the same types with the same forms, lists and fields, and the same lists for the
    /// root, in any order.
    Equal,
    /// The view is wider: a document may be upgraded to it.
    Upgrade,
    /// Each stored document is one of the view.
    Viewable,
    /// Some stored document may be none of the view.
    Refuse { causes: List<Cause> },
}

/// Why a view does not read what is stored: the type that fails, or an empty name for the root.
#[derive(Drop)]
pub struct Cause {
    pub ty: Text,
    pub why: Why,
}

/// The first test that fails.
#[derive(Clone, Copy, Debug, PartialEq, Eq)]
pub enum Why {
    /// The view does not define the type.
    Absent,
    /// The type is not of the same form.
    Shape,
    /// The list of an array or a map lacks a type.
    Allow,
    /// A field is missing, is required and was not, lacks a type, or is new and required.
    Fields,
    /// The root's list lacks a type.
    Root,
}

// Whether no marked type fails.
fn passes(stored: &Schema, view: &Schema, marks: &Marks) -> bool
    ensures yes { result ≡ true → PassesWhere marks.now stored.now view.now }
    ensures no { result ≡ false → PassesWhere marks.now stored.now view.now → ⊥ }
{
    stored.is_kept();
    let mut i = 0;
    'types: while let Some(ty) = stored.name_at(i) {
        if marks[i] && why(stored, view, ty).is_some() {
            return false;
        }
        i += 1;
    }
    true
}

// Whether a view covers a schema, its types that nothing reaches included.
fn covers(stored: &Schema, view: &Schema) -> bool
    ensures yes { result ≡ true → Covers stored.now view.now }
    ensures no { result ≡ false → Covers stored.now view.now → ⊥ }
{
    stored.is_kept();
    contains_all(view.root(), stored.root()) && passes(stored, view, &[true; 256])
}

fn are_equal(stored: &Schema, view: &Schema) -> bool
    ensures yes { result ≡ true → AreEqual stored.now view.now }
    ensures no { result ≡ false → AreEqual stored.now view.now → ⊥ }
{
    covers(stored, view) && covers(view, stored)
}

/// Whether each document that is stored under the one schema is one of the view: no type that it may
/// hold fails, and the root may be what it was.
pub fn reads(stored: &Schema, view: &Schema) -> bool
    ensures yes { result ≡ true → Reads stored.now view.now }
    ensures no { result ≡ false → Reads stored.now view.now → ⊥ }
{
    contains_all(view.root(), stored.root()) && passes(stored, view, &mark_reachable(stored))
}

// Adds the cause of a type, if it fails.
fn push_cause(
    alloc: Global,
    ty: &Text,
    why: Option<Why>,
    causes: &mut List<Cause>,
) -> Result<(), AllocError>
    ensures { OnOk result (causes.new ≡ causes.old ++ cause_of ty.now why) }
{
    if let Some(why) = why {
        let ty = ty.copy(alloc)?;
        causes.push(Cause { ty, why })?;
    }
    Ok(())
}

// The causes of the marked types.
fn causes_of_types(
    alloc: Global,
    stored: &Schema,
    view: &Schema,
    marks: &Marks,
) -> Result<List<Cause>, AllocError>
    requires { IsMarking stored.now marks.now }
    ensures { IfOk result (λ causes. CausesOf stored.now view.now (type_names stored.now.types) causes) }
{
    stored.is_kept();
    let mut causes = List::new(alloc);
    let mut i = 0;
    'types: while let Some(ty) = stored.name_at(i) {
        if marks[i] {
            push_cause(alloc, ty, why(stored, view, ty), &mut causes)?;
        }
        i += 1;
    }
    Ok(causes)
}

// The cause of the root's list, if it lacks a type.
fn why_root(stored: &Schema, view: &Schema) -> Option<Why>
    ensures { cause_of [] result ≡ root_cause stored.now view.now }
{
    if contains_all(view.root(), stored.root()) {
        None
    } else {
        Some(Why::Root)
    }
}

// All causes, in their order.
fn causes(alloc: Global, stored: &Schema, view: &Schema) -> Result<List<Cause>, AllocError>
    ensures { IfOk result (λ causes. AreCauses stored.now view.now causes) }
{
    let mut causes = causes_of_types(alloc, stored, view, &mark_reachable(stored))?;
    let none = Text::new(alloc);
    push_cause(alloc, &none, why_root(stored, view), &mut causes)?;
    Ok(causes)
}

// The relation by the causes, where a schema is neither equal nor wider.
fn by_causes(causes: List<Cause>) -> Relation
    ensures { result ≡ relation_by causes }
{
    if causes.is_empty() {
        Relation::Viewable
    } else {
        Relation::Refuse { causes }
    }
}

/// What a view schema is to the schema that documents are stored under.
pub fn compat(alloc: Global, stored: &Schema, view: &Schema) -> Result<Relation, AllocError>
    ensures { IfOk result (λ relation. IsRelation stored.now view.now relation) }
{
    if are_equal(stored, view) {
        Ok(Relation::Equal)
    } else if wider(stored, view).is_ok() {
        Ok(Relation::Upgrade)
    } else {
        Ok(by_causes(causes(alloc, stored, view)?))
    }
}
