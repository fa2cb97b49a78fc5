//! Names and numbers, written behind a text.
ghost use Rattle.std.specs.Prelude.{◌≡◌, ◌++◌, decimal, OnOk};
ghost use Rattle.json.specs.Print.{escape};
ghost use Rattle.serde_json.specs.Find.{of_integer};
ghost use Rattle.serde_json.specs.Written.{compact_text, number_text};
ghost use Rattle.st_mark_reader.specs.Naming.{Naming};
ghost use Rattle.st_change_writer.specs.Texts.{op_data, rev_inside};

use itoa::Buffer;
use st_ids::{Atom, Rev, Text};
use st_mark_reader::{OpNames, op_number};
use std::alloc::AllocError;

/// How names are told.
pub trait PushNames {
    ghost naming: { Self → Naming };

    /// Writes a revision behind a text.
    fn push_rev(&self, out: &mut Text, rev: Rev) -> Result<(), AllocError>
        ensures { OnOk result (out.new ≡ out.old ++ compact_text ((naming self.now).rev rev)) };

    /// Writes an atom behind a text.
    fn push_atom(&self, out: &mut Text, atom: Atom) -> Result<(), AllocError>
        ensures { OnOk result (out.new ≡ out.old ++ compact_text ((naming self.now).atom atom)) };
}

/// Writes a number.
pub(crate) fn push_number(out: &mut Text, n: u32) -> Result<(), AllocError>
    ensures { OnOk result (out.new ≡ out.old ++ decimal n) }
{
    let mut buffer = Buffer::new();
    out.push_str(buffer.format(n))
}

/// Writes the op-space number of a revision.
pub fn push_op_rev(out: &mut Text, id: i64) -> Result<(), AllocError>
    ensures { OnOk result (out.new ≡ out.old ++ number_text (of_integer id)) }
{
    let mut buffer = Buffer::new();
    out.push_str(buffer.format(id))
}

/// Writes an atom in op space: the number of its revision, and its place.
pub fn push_op_atom(out: &mut Text, id: i64, at: u32) -> Result<(), AllocError>
    ensures { OnOk result (out.new ≡ out.old ++ compact_text (op_data id at)) }
{
    out.push_str("[")?;
    push_op_rev(out, id)?;
    out.push_str(",")?;
    push_number(out, at)?;
    out.push_str("]")
}

// Writes a number, none of whose digits is escaped.
#[tactic(auto, using(crate::proofs::Append::digits_are))]
fn push_digits(out: &mut Text, n: u32) -> Result<(), AllocError>
    ensures { OnOk result (out.new ≡ out.old ++ escape (decimal n)) }
{
    push_number(out, n)
}

// Writes two numbers with a point between.
#[tactic(auto, using(crate::proofs::Append::pair_is))]
fn push_pair(out: &mut Text, rev: Rev) -> Result<(), AllocError>
    ensures { OnOk result (out.new ≡ out.old ++ escape (rev_inside rev)) }
{
    push_digits(out, rev.session)?;
    out.push_str(".")?;
    push_digits(out, rev.num)
}

/// Names as texts: a revision is `"s.n"`, an atom `"s.n.a"`.
#[derive(Clone, Copy)]
pub struct Plain;

impl PushNames for Plain {
    ghost use Rattle.st_mark_reader.specs.Naming.{plain_naming};

    ghost naming = { λ s. plain_naming };

    #[tactic(auto, using(crate::proofs::Append::rev_is))]
    fn push_rev(&self, out: &mut Text, rev: Rev) -> Result<(), AllocError> {
        out.push_str("\"")?;
        push_pair(out, rev)?;
        out.push_str("\"")
    }

    #[tactic(auto, using(crate::proofs::Append::atom_is))]
    fn push_atom(&self, out: &mut Text, atom: Atom) -> Result<(), AllocError> {
        out.push_str("\"")?;
        push_pair(out, atom.rev)?;
        out.push_str(".")?;
        push_digits(out, atom.at)?;
        out.push_str("\"")
    }
}

/// Names in op space, as the author of a message saw the table of ids; a name that has no number
/// there is written as null.
impl PushNames for OpNames<'_> {
    ghost use Rattle.st_mark_reader.specs.OpSpace.{op_naming};

    ghost naming = { λ s. op_naming s.0 };

    fn push_rev(&self, out: &mut Text, rev: Rev) -> Result<(), AllocError> {
        match op_number(&self.0, rev) {
            Some(id) => push_op_rev(out, id),
            None => out.push_str("null"),
        }
    }

    fn push_atom(&self, out: &mut Text, atom: Atom) -> Result<(), AllocError> {
        match op_number(&self.0, atom.rev) {
            Some(id) => push_op_atom(out, id, atom.at),
            None => out.push_str("null"),
        }
    }
}
