//! The words of edits.

/// The answers that tell a commit's revision: of the edits, and of a need.
#[derive(Clone, Copy, Debug, PartialEq, Eq)]
pub enum EditWord {
    Insert,
    Remove,
    Move,
    Set,
    Clear,
    Need,
}
