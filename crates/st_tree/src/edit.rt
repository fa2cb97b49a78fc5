//! Edits of a live tree, by paths and indexes.

use crate::tree::Tree;
use st_ids::{Key, Limit, List, Path};

/// One edit. A path leads from the root to a node, whose field under the key is meant.
#[derive(Drop)]
pub enum Edit {
    /// Puts new items into a row, before the item of the index.
    Insert {
        at: Path,
        key: Key,
        index: u32,
        items: List<Tree>,
    },
    /// Takes items out of a row.
    Remove {
        at: Path,
        key: Key,
        index: u32,
        count: u32,
    },
    /// Takes items of a row, or the item of an optional field, to a row or an optional field.
    Move {
        at: Path,
        key: Key,
        index: u32,
        count: u32,
        to: Path,
        to_key: Key,
        to_index: u32,
    },
    /// Puts a new tree into an optional or required field.
    Put {
        at: Path,
        key: Key,
        item: Tree,
    },
    /// Empties an optional field.
    Clear {
        at: Path,
        key: Key,
    },
    /// Asks that a node is there.
    Need {
        at: Path,
    },
}

/// Why an edit is refused.
#[derive(Clone, Copy, Debug, PartialEq, Eq)]
pub enum EditFault {
    /// The pair of that number, from 0, leads to no node.
    NoNode { depth: u32 },
    /// The field is not of a kind that the edit can change.
    Kind,
    /// An index or a count is past the end.
    Range,
    /// A node would be moved beneath itself.
    Inside,
    /// The schema does not allow the node of that number, from 0 in preorder.
    NotAllowed { at: u32 },
    /// A count would pass its bound.
    Limit(Limit),
}
