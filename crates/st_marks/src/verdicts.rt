//! Whether a commit is sound where it comes.

use st_ids::{NodeId, Rev};

/// A commit is sound, or void by the first of these: the schema under which it was made isn't in effect, a needed node
/// isn't live, or a node that it puts would be above itself.
#[derive(Clone, Copy, Debug, PartialEq, Eq)]
pub enum Verdict {
    Sound,
    Schema(Rev),
    Need(NodeId),
    Cycle(NodeId),
}
