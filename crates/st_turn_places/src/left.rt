//! What marks and registers of a step show, before it or after it.
ghost use Rattle.std.specs.Prelude.{◌≡◌, not};
ghost use Rattle.st_marks.specs.How.{is_leave};
ghost use Rattle.st_turn_places.specs.inside.Sides.{cell_or_empty, found_or_left, held_on, left_by};

use st_ids::{CellId, NodeId};
use st_marks::{How, Mark, RegStep};

// A cell that is left with its node, or empty.
fn cell_left(cell: CellId, node: NodeId, full: bool) -> Mark
    ensures { result ≡ cell_or_empty cell node full }
{
    if full {
        let how = How::Stay;
        Mark::Touch { cell, node, how }
    } else {
        Mark::Fill { cell, node }
    }
}

// Whether a node stays in its cell.
fn stays(how: How) -> bool
    ensures { result ≡ not (is_leave how) }
{
    match how {
        How::Leave => false,
        _ => true,
    }
}

// What a mark leaves, as a mark that finds it.
fn left_mark(mark: Mark) -> Mark
    ensures { result ≡ left_by mark }
{
    match mark {
        Mark::Skip(count) => Mark::Skip(count),
        Mark::Gap(cell) => Mark::Gap(cell),
        Mark::Touch { cell, node, how } => cell_left(cell, node, stays(how)),
        Mark::Make { cell, node, full } => cell_left(cell, node, full),
        Mark::Fill { cell, node } => cell_left(cell, node, true),
    }
}

/// A mark as it finds its cell; or as it leaves it, told as one that finds it.
pub fn mark_on(after: bool, mark: Mark) -> Mark
    ensures { result ≡ found_or_left after mark }
{
    if after { left_mark(mark) } else { mark }
}

/// Who is in a register, before or after.
pub fn held_in(after: bool, register: &RegStep) -> Option<NodeId>
    ensures { result ≡ held_on after register.now }
{
    if after {
        register.after
    } else {
        register.before
    }
}
