//! Revisions and atoms in op space: a number, and a number with a place.
ghost use Rattle.std.specs.Prelude.{◌≡◌, ◌↔◌, ◌⊎◌, ◌<◌, ◌^◌, ℕ, ℤ, Some, None, Ok, Err, IfOk, IfErr, IsErrOf, IsErr, option_and_then};
ghost use Rattle.std.specs.Option.{option_map};
ghost use Rattle.serde_json.specs.View.{view, items_view};
ghost use Rattle.serde_json.specs.Find.{as_array};
ghost use Rattle.st_clusters.specs.Ids.{IsOpAt};
ghost use Rattle.st_ids.specs.Or.{IfRefused};
ghost use Rattle.st_ids.specs.declared.names.Rev.{Rev as RevNames};
ghost use Rattle.st_ids.specs.declared.names.Atom.{Atom as AtomNames};
ghost use Rattle.st_idcodec.specs.OpText.{rev_data, atom_data, rev_number, place_number, two_in, atom_numbers};

use serde_json::{Value, json};
use st_clusters::{At, Unknown};
use st_ids::{Atom, Or, Rev};
use st_json::{int, number};
use std::alloc::{AllocError, Global};

/// Why a value is refused.
#[derive(Clone, Copy, Debug, PartialEq, Eq)]
pub enum CodecFault {
    /// It isn't of the form.
    Shape,
    /// It is of the form, but not the one value that is written for what it says.
    NotNormal,
    /// A name in it has no id.
    Unknown,
}

/// The value of a revision: its op-space number.
pub fn op_rev(at: &At, rev: Rev) -> Result<Value, Unknown>
    ensures ok { IfOk result (λ v. (z : ℤ) × IsOpAt at.now rev z × (view v ≡ rev_data z)) }
    ensures unknown { IfErr result (λ _. (z : ℤ) → ¬ IsOpAt at.now rev z) }
{
    match at.to_op(rev) {
        Ok(id) => Ok(Value::from(id)),
        Err(unknown) => Err(unknown),
    }
}

/// The revision that a value names.
pub fn read_op_rev(at: &At, value: &Value) -> Result<Rev, CodecFault>
    ensures ok { IfOk result (λ r. (z : ℤ) × (rev_number (view value.now) ≡ Some z)
        × IsOpAt at.now r z) }
    ensures shape { (result ≡ Err CodecFault.Shape) ↔ (rev_number (view value.now) ≡ None) }
    ensures unknown { IfErr result (λ f. (f ≡ CodecFault.Shape) ⊎ ((f ≡ CodecFault.Unknown)
        × ((z : ℤ) (r : RevNames) → rev_number (view value.now) ≡ Some z
        → ¬ IsOpAt at.now r z))) }
{
    match int(value) {
        Ok(id) => id_of(at, id),
        Err(_) => Err(CodecFault::Shape),
    }
}

// The id that has an op-space number.
fn id_of(at: &At, id: i64) -> Result<Rev, CodecFault>
    ensures ok { IfOk result (λ r. IsOpAt at.now r id) }
    ensures unknown { IfErr result (λ f. (f ≡ CodecFault.Unknown) × ((r : RevNames)
        → ¬ IsOpAt at.now r id)) }
{
    match at.from_op(id) {
        Ok(rev) => Ok(rev),
        Err(_) => Err(CodecFault::Unknown),
    }
}

/// The value of an atom: its revision's op-space number, and its place.
pub fn op_atom(alloc: Global, at: &At, atom: Atom) -> Result<Value, Or<Unknown>>
    ensures ok { IfOk result (λ v. (z : ℤ) × IsOpAt at.now atom.rev z × (view v
        ≡ atom_data z atom.at)) }
    ensures unknown { IfRefused result (λ _. (z : ℤ) → ¬ IsOpAt at.now atom.rev z) }
{
    match at.to_op(atom.rev) {
        Ok(id) => Ok(atom_value(alloc, id, atom.at)?),
        Err(unknown) => Err(Or::Fault(unknown)),
    }
}

// The value of an op-space number and a place.
fn atom_value(alloc: Global, id: i64, place: u32) -> Result<Value, AllocError>
    ensures { IfOk result (λ v. view v ≡ atom_data id place) }
{
    json!(in alloc; [id, place])
}

/// The atom that a value names.
pub fn read_op_atom(at: &At, value: &Value) -> Result<Atom, CodecFault>
    ensures ok { IfOk result (λ a. (z : ℤ) × (atom_numbers (view value.now) ≡ Some (z, a.at))
        × IsOpAt at.now a.rev z) }
    ensures shape { (result ≡ Err CodecFault.Shape) ↔ (atom_numbers (view value.now) ≡ None) }
    ensures unknown { IfErr result (λ f. (f ≡ CodecFault.Shape) ⊎ ((f ≡ CodecFault.Unknown)
        × ((z : ℤ) (n : ℕ) (r : RevNames) → atom_numbers (view value.now) ≡ Some (z, n)
        → ¬ IsOpAt at.now r z))) }
{
    match atom_numbers(value) {
        Some((id, place)) => atom_of(at, id, place),
        None => Err(CodecFault::Shape),
    }
}

// The atom that has an op-space number and a place.
fn atom_of(at: &At, id: i64, place: u32) -> Result<Atom, CodecFault>
    ensures ok { IfOk result (λ a. (a.at ≡ place) × IsOpAt at.now a.rev id) }
    ensures unknown { IfErr result (λ f. (f ≡ CodecFault.Unknown) × ((r : RevNames)
        → ¬ IsOpAt at.now r id)) }
{
    match id_of(at, id) {
        Ok(rev) => Ok(Atom { rev, at: place }),
        Err(fault) => Err(fault),
    }
}

// The two of two values, where there are no others.
fn two_in(values: &[Value]) -> Option<(&Value, &Value)>
    ensures { option_map (λ p. (view p.0.now, view p.1.now)) result
        ≡ two_in (items_view values.now) }
{
    let mut values = values.iter();
    let first = values.next()?;
    let second = values.next()?;
    if values.next().is_none() {
        Some((first, second))
    } else {
        None
    }
}

// The two items of an array that has no others.
fn two_items(value: &Value) -> Option<(&Value, &Value)>
    ensures { option_map (λ p. (view p.0.now, view p.1.now)) result
        ≡ option_and_then two_in (as_array (view value.now)) }
{
    two_in(value.as_array()?.as_slice())
}

// The place that a value is.
pub(crate) fn place_number(value: &Value) -> Option<u32>
    ensures { result ≡ place_number (view value.now) }
{
    let n = number(value).ok()?;
    if n < 1 << 32 { Some(n as u32) } else { None }
}

// The numbers of an atom's value.
fn atom_numbers(value: &Value) -> Option<(i64, u32)>
    ensures { result ≡ atom_numbers (view value.now) }
{
    let (first, second) = two_items(value)?;
    let id = int(first).ok()?;
    let place = place_number(second)?;
    Some((id, place))
}
