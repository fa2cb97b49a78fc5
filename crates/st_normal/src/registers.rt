//! What changes and steps say of registers, as far as one rule judges both.
ghost use Rattle.std.specs.Prelude.{◌≡◌, ◌≢◌, ◌↔◌, [], IsTrue, List, Option, option_to_list};
ghost use Rattle.st_ids.specs.declared.names.FieldId.{FieldId as Field};
ghost use Rattle.st_ids.specs.declared.names.NodeId.{NodeId as Node};
ghost use Rattle.st_ids.specs.Order.{same_node};
ghost use Rattle.st_marks.specs.Intent.{same_option};
ghost use Rattle.st_normal.specs.Rules.{found_at, found_over, put_at, put_over};
ghost use Rattle.st_marks.specs.Listings.{held_after};
ghost use Rattle.st_normal.specs.declared.entries.Found.{Found as FoundNode};

use crate::entries::Found;
use st_ids::{FieldId, NodeId, is_same_node};
use st_marks::{How, RegMark, RegStep};

/// A listed register.
pub trait Register {
    ghost found: { Self → List FoundNode };

    ghost put: { Self → List Node };

    ghost field: { Self → Field };

    ghost before: { Self → Option Node };

    ghost after: { Self → Option Node };

    /// Whom it finds there.
    fn found_node(&self) -> Option<Found>
        ensures { option_to_list result ≡ found self.now };

    /// Whom it puts there.
    fn put(&self) -> Option<NodeId>
        ensures { option_to_list result ≡ put self.now };

    /// Who is there before.
    fn before(&self) -> Option<NodeId>
        ensures { result ≡ before self.now };

    /// Who is there after.
    fn after(&self) -> Option<NodeId>
        ensures { result ≡ after self.now };

    /// Whether its key isn't empty.
    fn has_key(&self) -> bool
        ensures { IsTrue result ↔ ((field self.now).key.0 ≢ []) }
    {
        !self.field().key.0.is_empty()
    }

    /// The register's name.
    fn field(&self) -> &FieldId
        ensures { result.now ≡ field self.now };
}

impl Register for RegMark {
    ghost found = { found_at };

    ghost put = { put_at };

    ghost field = { λ r. r.field };

    ghost before = { λ r. r.held };

    ghost after = { held_after };

    fn before(&self) -> Option<NodeId> {
        self.held
    }

    fn after(&self) -> Option<NodeId> {
        match (self.fill, self.how) {
            (Some(fill), _) => Some(fill),
            (None, How::Leave) => None,
            (None, How::Stay) => if self.clear { None } else { self.held },
            (None, How::Here) => self.held,
        }
    }

    fn found_node(&self) -> Option<Found> {
        let node = self.held?;
        Some(Found {
            node,
            how: self.how,
        })
    }

    fn put(&self) -> Option<NodeId> {
        self.fill
    }

    fn field(&self) -> &FieldId {
        &self.field
    }
}

impl Register for RegStep {
    ghost found = { found_over };

    ghost put = { put_over };

    ghost field = { λ r. r.field };

    ghost before = { λ r. r.before };

    ghost after = { λ r. r.after };

    fn before(&self) -> Option<NodeId> {
        self.before
    }

    fn after(&self) -> Option<NodeId> {
        self.after
    }

    fn found_node(&self) -> Option<Found> {
        let node = self.before?;
        let how = if is_kept(self) { How::Stay } else { How::Leave };
        Some(Found { node, how })
    }

    fn put(&self) -> Option<NodeId> {
        if is_kept(self) { None } else { self.after }
    }

    fn field(&self) -> &FieldId {
        &self.field
    }
}

// Whether nobody comes into a register and nobody goes.
fn is_kept(register: &RegStep) -> bool
    ensures { result ≡ same_option same_node register.now.before register.now.after }
{
    match (register.before, register.after) {
        (None, None) => true,
        (Some(before), Some(after)) => is_same_node(before, after),
        _ => false,
    }
}
