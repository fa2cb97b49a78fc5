//! What a change makes of a row.
ghost use Rattle.std.specs.Prelude.{◌≡◌, ◌^◌, ◌<◌, ◌∷◌, [], length, IfOk, List as Seq};
ghost use Rattle.st_ids.specs.Listing.{IsRising};
ghost use Rattle.st_ids.specs.Order.{node_cmp};
ghost use Rattle.st_marks.specs.declared.places.Slot.{Slot};
ghost use Rattle.st_marks.specs.Row.{RowPart, merge, spread};
ghost use Rattle.st_rows.specs.Cells.{effect_row, void_row};
ghost use Rattle.st_rows.specs.Changes.{AreOld, IsRowChange, carried_row, placed_by, void_part};
ghost use Rattle.st_rows.specs.Merged.{IsMerged};
ghost use Rattle.st_rows.specs.Rows.{IsRowStep};

use crate::mark_builder::push;
use crate::node_set::is_among;
use st_ids::{List, NodeId};
use st_marks::{How, Mark};
use std::alloc::{AllocError, Global};

/// What the step of a change says of the cells of a mark.
fn effected_mark(mark: Mark) -> Mark
    ensures { spread (result ∷ []) ≡ effect_row (spread (mark ∷ [])) }
{
    match mark {
        Mark::Touch { cell, node, how } => match how {
            How::Here => Mark::Touch {
                cell,
                node,
                how: How::Stay,
            },
            _ => mark,
        },
        Mark::Fill { .. } => mark,
        Mark::Make { .. } => mark,
        Mark::Gap(_) => mark,
        Mark::Skip(_) => mark,
    }
}

/// The step of a change that is carried out, cell by cell.
fn effected_marks(alloc: Global, change: &[Mark]) -> Result<List<Mark>, AllocError>
    requires { length (spread change.now) < 2 ^ 32 }
    ensures merged { IfOk result (λ marks. IsMerged marks) }
    ensures cells { IfOk result (λ marks. spread marks ≡ effect_row (spread change.now)) }
{
    let mut out = List::new(alloc);
    for mark in change {
        push(&mut out, effected_mark(*mark))?;
    }
    Ok(out)
}

/// The step that carries a change out: what it says of each cell is what the change says of it, carried out.
pub fn effect(alloc: Global, change: &List<Mark>) -> Result<List<Mark>, AllocError>
    requires { length (spread change.now) < 2 ^ 32 }
    ensures carried { (p : RowPart) (c : Seq Slot) → IsRowChange p c change.now → IfOk result (λ s. IsRowStep p.mentioned c (carried_row p c) s) }
    ensures marks { IfOk result (λ s. s ≡ merge (effect_row (spread change.now))) }
{
    effected_marks(alloc, change.as_slice())
}

/// What the step of a void change says of the cells of a mark; `in_new` and `new` as in `void_effect`.
fn voided_mark(mark: Mark, in_new: bool, new: &List<NodeId>) -> Mark
    requires { IsRising node_cmp (λ n. n) new.now }
    ensures { spread (result ∷ []) ≡ void_row (placed_by in_new new.now) (spread (mark ∷ [])) }
{
    match mark {
        Mark::Touch { cell, node, .. } => Mark::Touch {
            cell,
            node,
            how: How::Stay,
        },
        Mark::Fill { cell, .. } => Mark::Gap(cell),
        Mark::Make { cell, node, full } => Mark::Make {
            cell,
            node,
            full: full && in_new && is_among(new, node),
        },
        Mark::Gap(_) => mark,
        Mark::Skip(_) => mark,
    }
}

/// The step of a void change, cell by cell.
fn voided_marks(
    alloc: Global,
    change: &[Mark],
    in_new: bool,
    new: &List<NodeId>,
) -> Result<List<Mark>, AllocError>
    requires rising { IsRising node_cmp (λ n. n) new.now }
    requires short { length (spread change.now) < 2 ^ 32 }
    ensures merged { IfOk result (λ marks. IsMerged marks) }
    ensures cells { IfOk result (λ marks. spread marks ≡ void_row (placed_by in_new new.now) (spread change.now)) }
{
    let mut out = List::new(alloc);
    for mark in change {
        push(&mut out, voided_mark(*mark, in_new, new))?;
    }
    Ok(out)
}

/// The step of a void change: its cells are made, and none but new nodes are put there, and those only where the row is
/// that of a new node (`in_new`). What the step says of each cell follows from what the change says of it. `new` has the
/// commit's new nodes that the marks make, in rising order.
pub fn void_effect(
    alloc: Global,
    change: &List<Mark>,
    in_new: bool,
    new: &List<NodeId>,
) -> Result<List<Mark>, AllocError>
    requires rising { IsRising node_cmp (λ n. n) new.now }
    requires short { length (spread change.now) < 2 ^ 32 }
    ensures carried { (p : RowPart) (c : Seq Slot) → IsRowChange p c change.now → AreOld (placed_by in_new new.now) c
        → IfOk result (λ s. IsRowStep p.mentioned c (carried_row (void_part (placed_by in_new new.now) p) c) s) }
    ensures marks { IfOk result (λ s. s ≡ merge (void_row (placed_by in_new new.now) (spread change.now))) }
{
    voided_marks(alloc, change.as_slice(), in_new, new)
}
