//! What a document starts from.

use crate::schema::Schema;
use st_ids::Copied;
use st_tree::Tree;
use std::alloc::{AllocError, Global};

/// The start of a document: its schema and its opening tree, and how many entries of the log
/// below the minimum can still be undone, 0 to 1,024.
#[derive(Drop)]
pub struct Header {
    pub history: u32,
    pub schema: Schema,
    pub tree: Tree,
}

impl Copied for Header {
    fn copy(&self, alloc: Global) -> Result<Self, AllocError> {
        let history = self.history;
        let schema = self.schema.copy(alloc)?;
        let tree = self.tree.copy(alloc)?;
        Ok(Header {
            history,
            schema,
            tree,
        })
    }
}
