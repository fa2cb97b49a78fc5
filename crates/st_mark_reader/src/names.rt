//! Which value tells which name.
ghost use Rattle.std.specs.Prelude.{◌≡◌};
ghost use Rattle.serde_json.specs.View.{view};
ghost use Rattle.st_mark_reader.specs.Naming.{NameForm};
ghost use Rattle.st_mark_reader.specs.Reading.{node_of, cell_of, occupant_of};

use serde_json::Value;
use st_ids::{Atom, CellId, NodeId, Rev};

/// How names are read.
pub trait ReadNames {
    ghost form: { Self → NameForm };

    /// The revision that a value tells.
    fn rev(&self, value: &Value) -> Option<Rev>
        ensures { result ≡ (form self.now).rev (view value.now) };

    /// The atom that a value tells.
    fn atom(&self, value: &Value) -> Option<Atom>
        ensures { result ≡ (form self.now).atom (view value.now) };
}

/// Names as texts: a revision is `"s.n"`, an atom `"s.n.a"`.
#[derive(Clone, Copy)]
pub struct Plain;

impl ReadNames for Plain {
    ghost use Rattle.st_mark_reader.specs.Naming.{plain_form};

    ghost form = { λ s. plain_form };

    fn rev(&self, value: &Value) -> Option<Rev> {
        Rev::read(value.as_str()?)
    }

    fn atom(&self, value: &Value) -> Option<Atom> {
        Atom::read(value.as_str()?)
    }
}

/// The node that a value tells.
pub fn node<N: ReadNames>(names: &N, value: &Value) -> Option<NodeId>
    ensures { result ≡ node_of (N.form names.now) (view value.now) }
{
    Some(NodeId(names.atom(value)?))
}

/// The cell that a value tells.
pub fn cell<N: ReadNames>(names: &N, value: &Value) -> Option<CellId>
    ensures { result ≡ cell_of (N.form names.now) (view value.now) }
{
    Some(CellId(names.atom(value)?))
}

/// The node that a value tells, or none where it is null.
pub fn occupant<N: ReadNames>(names: &N, value: &Value) -> Option<Option<NodeId>>
    ensures { result ≡ occupant_of (N.form names.now) (view value.now) }
{
    if value.is_null() {
        Some(None)
    } else {
        Some(Some(node(names, value)?))
    }
}
