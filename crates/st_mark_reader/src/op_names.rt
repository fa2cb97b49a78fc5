//! Names in op space, and names by their form alone.
ghost use Rattle.std.specs.Prelude.{◌≡◌};
ghost use Rattle.serde_json.specs.View.{view};
ghost use Rattle.st_idcodec.specs.OpText.{rev_number};
ghost use Rattle.st_mark_reader.specs.OpSpace.{atom_numbers, op_id, op_number};

use crate::items::two_items;
use crate::names::ReadNames;
use crate::values::small_number;
use serde_json::Value;
use st_clusters::At;
use st_ids::{Atom, OPENING, Rev};

/// The op-space number of an id, if it has one.
#[tactic(auto, using(crate::proofs::OpNumbers::number_found, crate::proofs::OpNumbers::number_not_found))]
pub fn op_number(at: &At, rev: Rev) -> Option<i64>
    ensures { result ≡ op_number at.now rev }
{
    match at.to_op(rev) {
        Ok(id) => Some(id),
        Err(_) => None,
    }
}

/// The id that has an op-space number, if one has.
#[tactic(auto, using(crate::proofs::OpNumbers::id_found, crate::proofs::OpNumbers::id_not_found))]
pub fn op_id(at: &At, id: i64) -> Option<Rev>
    ensures { result ≡ op_id at.now id }
{
    match at.from_op(id) {
        Ok(rev) => Some(rev),
        Err(_) => None,
    }
}

// The number that a value is.
fn rev_number(value: &Value) -> Option<i64>
    ensures { result ≡ rev_number (view value.now) }
{
    value.as_i64()
}

// The number and the place that a value is.
fn atom_numbers(value: &Value) -> Option<(i64, u32)>
    ensures { result ≡ atom_numbers (view value.now) }
{
    let (id, place) = two_items(value)?;
    let id = rev_number(id)?;
    Some((id, small_number(place)?))
}

/// Names in op space, as the author of a message saw the table of ids.
#[derive(Clone, Copy)]
pub struct OpNames<'a>(pub At<'a>);

impl ReadNames for OpNames<'_> {
    ghost use Rattle.st_mark_reader.specs.OpSpace.{op_form};

    ghost form = { λ s. op_form s.0 };

    fn rev(&self, value: &Value) -> Option<Rev> {
        op_id(&self.0, rev_number(value)?)
    }

    fn atom(&self, value: &Value) -> Option<Atom> {
        let (id, at) = atom_numbers(value)?;
        let rev = op_id(&self.0, id)?;
        Some(Atom { rev, at })
    }
}

/// Names in op space by their form alone: whichever number it is, the opening's revision is read.
#[derive(Clone, Copy)]
pub struct AnyOpNames;

impl ReadNames for AnyOpNames {
    ghost use Rattle.st_mark_reader.specs.OpSpace.{any_form};

    ghost form = { λ s. any_form };

    fn rev(&self, value: &Value) -> Option<Rev> {
        let _id = rev_number(value)?;
        Some(OPENING)
    }

    fn atom(&self, value: &Value) -> Option<Atom> {
        let (_id, at) = atom_numbers(value)?;
        Some(Atom { rev: OPENING, at })
    }
}
