//! Parts of a register, while it is read.

use st_ids::NodeId;
use st_marks::How;

/// Who is in a register, what becomes of that node, whether the register is cleared, and who comes in.
#[derive(Clone, Copy)]
pub struct Fate {
    pub held: Option<NodeId>,
    pub how: How,
    pub clear: bool,
    pub fill: Option<NodeId>,
}
