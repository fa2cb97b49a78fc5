//! The table as the author of a message saw it.
ghost use Rattle.std.specs.Prelude.{◌≡◌, ℕ, ℤ, Ok, IfOk};
ghost use Rattle.st_ids.specs.declared.names.Rev.{Rev as RevNames};

use crate::compressor::Compressor;
use crate::ids::{IdRange, Unknown};
use st_ids::{List, Rev};

/// The table without the ids of the later ranges, where the session `own`, which the table need
/// not have, has generated `have` ids.
#[derive(Clone, Copy)]
pub struct At<'a> {
    pub ids: &'a Compressor,
    pub own: u32,
    pub have: u32,
    pub later: &'a List<IdRange>,
}

impl<'a> At<'a> {
    ghost use Rattle.st_clusters.specs.Ids.{IsOpAt};

    /// The op-space number of an id.
    pub fn to_op(&self, rev: Rev) -> Result<i64, Unknown>
        ensures ok { IfOk result (λ z. IsOpAt self.now rev z) }
        ensures back { (z : ℤ) → IsOpAt self.now rev z → result ≡ Ok z }
    {
        self.ids
            .op_before(self.later.as_slice(), self.own, self.have, rev)
    }

    /// The id that has an op-space number.
    pub fn from_op(&self, id: i64) -> Result<Rev, Unknown>
        ensures ok { IfOk result (λ r. IsOpAt self.now r id) }
        ensures back { (r : RevNames) → IsOpAt self.now r id → result ≡ Ok r }
    {
        self.ids
            .id_before_op(self.later.as_slice(), self.own, self.have, id)
    }
}
