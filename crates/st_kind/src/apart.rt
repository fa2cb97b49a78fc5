//! The refusal of two arguments that differ.

/// Two arguments list one field differently. `place` is the first cell, from the left and counted from 0, at which
/// they differ; where only new names clash, the count of found cells left of it.
#[derive(Clone, Copy, PartialEq, Eq)]
pub struct Apart {
    pub place: u32,
}
