//! Two steps of a row in turn, and two changes.
ghost use Rattle.std.specs.Prelude.{◌≡◌, ◌^◌, ◌<◌, ◌∷◌, [], length, IfOk, List as Seq};
ghost use Rattle.st_kind.specs.Named.{Nodes, either};
ghost use Rattle.st_kind.specs.Refused.{IfMemory, IsApartWhere};
ghost use Rattle.st_marks.specs.declared.places.Slot.{Slot};
ghost use Rattle.st_marks.specs.Row.{Fill, Make, RowPart, spread, merge, embed_row};
ghost use Rattle.st_marks.specs.Listings.{cells_after, cells_before};
ghost use Rattle.st_rows.specs.Differences.{IsApart, first_difference};
ghost use Rattle.st_rows.specs.Views.{DifferAt};
ghost use Rattle.st_rows.specs.Cells.{join_row, joined_mark as joined_cell};
ghost use Rattle.st_rows.specs.Cells.{compose_row, composed_mark as composed_cell};
ghost use Rattle.st_rows.specs.Changes.{AreJoined, IsRowChange, carried_row};
ghost use Rattle.st_rows.specs.Reading.{cell_of};
ghost use Rattle.st_rows.specs.Pieces.{IsSingle};
ghost use Rattle.st_rows.specs.Rows.{IsRowStep, NamesLeavers};

use crate::merge_walk::{Table, lay_in_turn, lay_in_turn_alike};
use crate::pieces::Piece;
use st_ids::{CellId, List, NodeId, Or};
use st_kind::Apart;
use st_marks::{How, Mark};
use std::alloc::{AllocError, Global};

/// What is said together of a cell that the first listing fills.
fn filled_mark(cell: CellId, node: NodeId, then: Mark) -> Mark
    ensures composed { spread (result ∷ []) ≡ composed_cell (Fill cell node) (cell_of then) ∷ [] }
    ensures joined { spread (result ∷ []) ≡ joined_cell (Fill cell node) (cell_of then) ∷ [] }
{
    match then {
        Mark::Touch {
            how: How::Leave,
            ..
        } => Mark::Gap(cell),
        _ => Mark::Fill { cell, node },
    }
}

/// What is said together of a cell that the first listing makes.
fn made_mark(cell: CellId, node: NodeId, full: bool, then: Mark) -> Mark
    ensures composed { spread (result ∷ []) ≡ composed_cell (Make cell node full) (cell_of then) ∷ [] }
    ensures joined { spread (result ∷ []) ≡ joined_cell (Make cell node full) (cell_of then) ∷ [] }
{
    let is_full = match then {
        Mark::Touch {
            how: How::Leave,
            ..
        } => false,
        Mark::Fill { .. } => true,
        _ => full,
    };
    Mark::Make {
        cell,
        node,
        full: is_full,
    }
}

/// What the marks of two steps say together of one cell.
fn composed_mark(first: Mark, then: Mark) -> Mark
    requires first { IsSingle first }
    requires then { IsSingle then }
    ensures { spread (result ∷ []) ≡ composed_cell (cell_of first) (cell_of then) ∷ [] }
{
    match first {
        Mark::Touch {
            cell,
            node,
            how: How::Leave,
        } => match then {
            Mark::Fill { .. } => Mark::Touch {
                cell,
                node,
                how: How::Stay,
            },
            _ => first,
        },
        Mark::Touch { cell, node, .. } => match then {
            Mark::Touch { how, .. } => Mark::Touch { cell, node, how },
            _ => first,
        },
        Mark::Fill { cell, node } => filled_mark(cell, node, then),
        Mark::Make { cell, node, full } => made_mark(cell, node, full, then),
        _ => then,
    }
}

/// Two steps.
#[derive(Drop)]
struct Steps;

impl Table for Steps {
    ghost use Rattle.st_rows.specs.Cells.{composed_piece};

    ghost cell = { λ t. composed_piece };

    #[inline(always)]
    fn mark(&self, piece: Piece) -> Mark {
        match piece {
            Piece::Counted(k) => Mark::Skip(k),
            Piece::Both(first, then) => composed_mark(first, then),
            Piece::First(first) => first,
            Piece::Then(then) => then,
        }
    }
}

/// The first step and then the second, which has fewer than 2^32 cells. The result names the nodes that either of them
/// names; whether it still has to name a node that left and came back is not told by one row.
pub fn compose(
    alloc: Global,
    first: &List<Mark>,
    then: &List<Mark>,
) -> Result<List<Mark>, Or<Apart>>
    requires { length (spread then.now) < 2 ^ 32 }
    ensures composed { (m k : Nodes) (c d e : Seq Slot) (f : IsRowStep m c d first.now) → NamesLeavers m f.grows → IsRowStep k d e then.now
        → IfMemory result (λ s. IsRowStep (either m k) c e s) }
    ensures met { IsApart (first_difference (cells_after (spread first.now)) (cells_before (spread then.now))) result }
    ensures marks { IfOk result (λ s. s ≡ merge (compose_row (spread first.now) (spread then.now))) }
    ensures apart { IsApartWhere result (DifferAt (cells_after (spread first.now)) (cells_before (spread then.now))) }
{
    lay_in_turn(alloc, &Steps, first.as_slice(), then.as_slice())
}

/// The first step and then the second, which has fewer than 2^32 cells, where it isn't asked whether the second finds what the first
/// leaves: so either may count empty cells that the other names.
pub fn compose_alike(
    alloc: Global,
    first: &List<Mark>,
    then: &List<Mark>,
) -> Result<List<Mark>, AllocError>
    requires { length (spread then.now) < 2 ^ 32 }
    ensures { IfOk result (λ s. s ≡ merge (compose_row (spread first.now) (spread then.now))) }
{
    lay_in_turn_alike(alloc, &Steps, first.as_slice(), then.as_slice())
}

/// What the marks of two changes say together of one cell.
fn joined_mark(first: Mark, then: Mark) -> Mark
    requires first { IsSingle first }
    requires then { IsSingle then }
    ensures { spread (result ∷ []) ≡ joined_cell (cell_of first) (cell_of then) ∷ [] }
{
    match first {
        Mark::Touch {
            cell,
            node,
            how: How::Leave,
        } => match then {
            Mark::Fill { .. } => Mark::Touch {
                cell,
                node,
                how: How::Here,
            },
            _ => first,
        },
        Mark::Touch { cell, node, .. } => match then {
            Mark::Touch { how: How::Stay, .. } => first,
            Mark::Touch { how, .. } => Mark::Touch { cell, node, how },
            _ => first,
        },
        Mark::Fill { cell, node } => filled_mark(cell, node, then),
        Mark::Make { cell, node, full } => made_mark(cell, node, full, then),
        _ => then,
    }
}

/// Two changes of one commit.
#[derive(Drop)]
struct Changes;

impl Table for Changes {
    ghost use Rattle.st_rows.specs.Cells.{joined_piece};

    ghost cell = { λ t. joined_piece };

    #[inline(always)]
    fn mark(&self, piece: Piece) -> Mark {
        match piece {
            Piece::Counted(k) => Mark::Skip(k),
            Piece::Both(first, then) => joined_mark(first, then),
            Piece::First(first) => first,
            Piece::Then(then) => then,
        }
    }
}

/// Two changes of one commit in turn, of which the second has fewer than 2^32 cells, as one.
pub fn join(alloc: Global, first: &List<Mark>, then: &List<Mark>) -> Result<List<Mark>, Or<Apart>>
    requires { length (spread then.now) < 2 ^ 32 }
    ensures joined { (p q j : RowPart) (c : Seq Slot) → AreJoined p q c j → IsRowChange p c first.now → IsRowChange q (carried_row p c) then.now
        → IfMemory result (λ marks. marks ≡ merge (embed_row j c)) }
    ensures met { IsApart (first_difference (cells_after (spread first.now)) (cells_before (spread then.now))) result }
    ensures marks { IfOk result (λ marks. marks ≡ merge (join_row (spread first.now) (spread then.now))) }
    ensures apart { IsApartWhere result (DifferAt (cells_after (spread first.now)) (cells_before (spread then.now))) }
{
    lay_in_turn(alloc, &Changes, first.as_slice(), then.as_slice())
}

/// Two changes of one commit in turn as one, where it isn't asked whether the second finds what the first leaves: so either may
/// count empty cells that the other names. The second has fewer than 2^32 cells.
pub fn join_alike(
    alloc: Global,
    first: &List<Mark>,
    then: &List<Mark>,
) -> Result<List<Mark>, AllocError>
    requires { length (spread then.now) < 2 ^ 32 }
    ensures { IfOk result (λ marks. marks ≡ merge (join_row (spread first.now) (spread then.now))) }
{
    lay_in_turn_alike(alloc, &Changes, first.as_slice(), then.as_slice())
}
