//! The way back over a row.
ghost use Rattle.std.specs.Prelude.{◌≡◌, ◌^◌, ◌<◌, ◌∷◌, [], length, IfOk, List as Seq};
ghost use Rattle.st_kind.specs.Named.{Nodes};
ghost use Rattle.st_marks.specs.declared.places.Slot.{Slot};
ghost use Rattle.st_marks.specs.Row.{merge, spread};
ghost use Rattle.st_rows.specs.Cells.{invert_row};
ghost use Rattle.st_rows.specs.Merged.{IsMerged};
ghost use Rattle.st_rows.specs.Rows.{IsRowStep, retreat_row};

use crate::mark_builder::push;
use st_ids::List;
use st_marks::{How, Mark};
use std::alloc::{AllocError, Global};

/// What the way back says of the cells of a mark.
fn inverted_mark(mark: Mark) -> Mark
    ensures { spread (result ∷ []) ≡ invert_row (spread (mark ∷ [])) }
{
    match mark {
        Mark::Touch {
            cell,
            node,
            how: How::Leave,
        } => Mark::Fill { cell, node },
        Mark::Fill { cell, node } => Mark::Touch {
            cell,
            node,
            how: How::Leave,
        },
        Mark::Make { cell, node, full } => {
            if full {
                Mark::Touch {
                    cell,
                    node,
                    how: How::Leave,
                }
            } else {
                Mark::Gap(cell)
            }
        }
        Mark::Touch { .. } => mark,
        Mark::Gap(_) => mark,
        Mark::Skip(_) => mark,
    }
}

/// The way back, cell by cell.
fn inverted_marks(alloc: Global, step: &[Mark]) -> Result<List<Mark>, AllocError>
    requires { length (spread step.now) < 2 ^ 32 }
    ensures merged { IfOk result (λ marks. IsMerged marks) }
    ensures cells { IfOk result (λ marks. spread marks ≡ invert_row (spread step.now)) }
{
    let mut out = List::new(alloc);
    for mark in step {
        push(&mut out, inverted_mark(*mark))?;
    }
    Ok(out)
}

/// The step that leads each node of the row back to where it was. Cells that the step made are empty then.
pub fn invert(alloc: Global, step: &List<Mark>) -> Result<List<Mark>, AllocError>
    requires { length (spread step.now) < 2 ^ 32 }
    ensures inverted { (m : Nodes) (c d : Seq Slot) (s : IsRowStep m c d step.now) → IfOk result (λ t. IsRowStep m d (retreat_row s.grows) t) }
    ensures marks { IfOk result (λ t. t ≡ merge (invert_row (spread step.now))) }
{
    inverted_marks(alloc, step.as_slice())
}
