//! Ways back.
ghost use Rattle.std.specs.Prelude.{◌≡◌, IfOk};
ghost use Rattle.st_heads.specs.Remembered.{intent_of_way};

use st_ids::{Copied, FieldId, List, Rev};
use st_marks::{Intent, Put};
use std::alloc::{AllocError, Global};

/// A way back over a commit, without a revision and without a schema: the registers that it clears, and then where it
/// puts nodes. A register may be listed twice; a node is not.
#[derive(Drop)]
pub struct Way {
    pub clear: List<FieldId>,
    pub put: List<Put>,
}

impl Way {
    /// The intent that goes this way, under a revision and a schema's revision.
    pub fn intent(&self, alloc: Global, rev: Rev, under: Rev) -> Result<Intent, AllocError>
        ensures { IfOk result (λ i. i ≡ intent_of_way self.now rev under) }
    {
        let clear = self.clear.copy(alloc)?;
        let put = self.put.copy(alloc)?;
        Ok(Intent {
            rev,
            under,
            new: List::new(alloc),
            groups: List::new(alloc),
            clear,
            put,
            need: List::new(alloc),
            schema: None,
        })
    }
}

/// How a commit came out at its place: whether it was void there, and the way back over it, which has no items where it
/// was.
#[derive(Drop)]
pub struct Carried {
    pub void: bool,
    pub back: Way,
}
