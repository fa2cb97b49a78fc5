//! What two listings say of one cell.
ghost use Rattle.std.specs.Prelude.{◌≡◌, true, false};
ghost use Rattle.st_marks.specs.Listings.{cell_view, counted_view, empty_view};
ghost use Rattle.st_rows.specs.Views.{view_of, view_after};
ghost use Rattle.st_rows.specs.Differences.{agree, agree_if_named, same_bool, view_before};
ghost use Rattle.st_ids.specs.Order.{same_cell, same_node};
ghost use Rattle.st_rows.specs.Reading.{cell_of};

use st_ids::{CellId, NodeId, is_same_cell, is_same_node};
use st_marks::{How, Mark};

/// What a listing says of a cell: its name and its owner, where it names them, and whether it is full.
#[derive(Clone, Copy)]
pub struct Sighting {
    pub cell: Option<CellId>,
    pub node: Option<NodeId>,
    pub full: bool,
}

/// What a mark says of its cell before, if the cell is there; of a Skip, what it says of each.
#[inline(always)]
pub fn before(mark: Mark) -> Sighting
    ensures { view_of result ≡ view_before (cell_of mark) }
{
    match mark {
        Mark::Touch { cell, node, .. } => Sighting {
            cell: Some(cell),
            node: Some(node),
            full: true,
        },
        Mark::Fill { cell, node } => Sighting {
            cell: Some(cell),
            node: Some(node),
            full: false,
        },
        Mark::Gap(cell) => Sighting {
            cell: Some(cell),
            node: None,
            full: false,
        },
        Mark::Make { cell, node, full } => Sighting {
            cell: Some(cell),
            node: Some(node),
            full,
        },
        Mark::Skip(_) => Sighting {
            cell: None,
            node: None,
            full: true,
        },
    }
}

/// What a mark says of its cell after; of a Skip, what it says of each.
#[inline(always)]
pub fn after(mark: Mark) -> Sighting
    ensures { view_of result ≡ view_after (cell_of mark) }
{
    match mark {
        Mark::Touch { cell, node, how } => Sighting {
            cell: Some(cell),
            node: Some(node),
            full: match how {
                How::Leave => false,
                _ => true,
            },
        },
        Mark::Fill { cell, node } => Sighting {
            cell: Some(cell),
            node: Some(node),
            full: true,
        },
        Mark::Make { cell, node, full } => Sighting {
            cell: Some(cell),
            node: Some(node),
            full,
        },
        Mark::Gap(cell) => Sighting {
            cell: Some(cell),
            node: None,
            full: false,
        },
        Mark::Skip(_) => Sighting {
            cell: None,
            node: None,
            full: true,
        },
    }
}

/// Whether two names of cells are one, if both are told.
fn same_cells(a: Option<CellId>, b: Option<CellId>) -> bool
    ensures { result ≡ agree_if_named same_cell a b }
{
    match a {
        None => true,
        Some(x) => match b {
            None => true,
            Some(y) => is_same_cell(x, y),
        },
    }
}

/// Whether two names of nodes are one, if both are told.
fn same_nodes(a: Option<NodeId>, b: Option<NodeId>) -> bool
    ensures { result ≡ agree_if_named same_node a b }
{
    match a {
        None => true,
        Some(x) => match b {
            None => true,
            Some(y) => is_same_node(x, y),
        },
    }
}

fn same_bools(a: bool, b: bool) -> bool
    ensures { result ≡ same_bool a b }
{
    if a { b } else { !b }
}

/// Whether both say the same, as far as they tell.
#[inline(always)]
pub fn is_same(first: Sighting, then: Sighting) -> bool
    ensures { result ≡ agree (view_of first) (view_of then) }
{
    same_bools(first.full, then.full)
        && same_cells(first.cell, then.cell)
        && same_nodes(first.node, then.node)
}

/// Whether a mark finds a full cell.
#[inline(always)]
fn finds_full(mark: &Mark) -> bool
    ensures { result ≡ agree counted_view (view_before (cell_of mark.now)) }
{
    match mark {
        Mark::Skip(_) => true,
        Mark::Gap(_) => false,
        Mark::Touch { .. } => true,
        Mark::Make { full, .. } => *full,
        Mark::Fill { .. } => false,
    }
}

/// Whether a mark finds this cell, empty.
#[inline(always)]
fn finds_empty(mark: &Mark, a: CellId) -> bool
    ensures { result ≡ agree (empty_view a) (view_before (cell_of mark.now)) }
{
    match mark {
        Mark::Skip(_) => false,
        Mark::Gap(cell) => is_same_cell(a, *cell),
        Mark::Touch { .. } => false,
        Mark::Make { cell, full, .. } => !*full && is_same_cell(a, *cell),
        Mark::Fill { cell, .. } => is_same_cell(a, *cell),
    }
}

/// Whether a mark finds this cell, full with this owner.
#[inline(always)]
fn finds_owner(mark: &Mark, a: CellId, n: NodeId) -> bool
    ensures { result ≡ agree (cell_view a n true) (view_before (cell_of mark.now)) }
{
    match mark {
        Mark::Skip(_) => true,
        Mark::Gap(_) => false,
        Mark::Touch { cell, node, .. } => is_same_cell(a, *cell) && is_same_node(n, *node),
        Mark::Make { cell, node, full } => {
            *full && is_same_cell(a, *cell) && is_same_node(n, *node)
        }
        Mark::Fill { .. } => false,
    }
}

/// Whether a mark finds this cell of this owner, empty.
#[inline(always)]
fn finds_room(mark: &Mark, a: CellId, n: NodeId) -> bool
    ensures { result ≡ agree (cell_view a n false) (view_before (cell_of mark.now)) }
{
    match mark {
        Mark::Skip(_) => false,
        Mark::Gap(cell) => is_same_cell(a, *cell),
        Mark::Touch { .. } => false,
        Mark::Make { cell, node, full } => {
            !*full && is_same_cell(a, *cell) && is_same_node(n, *node)
        }
        Mark::Fill { cell, node } => is_same_cell(a, *cell) && is_same_node(n, *node),
    }
}

/// Whether a mark finds this cell of this owner, full or empty.
#[inline(always)]
fn finds_cell(mark: &Mark, a: CellId, n: NodeId, full: bool) -> bool
    ensures { result ≡ agree (cell_view a n full) (view_before (cell_of mark.now)) }
{
    if full {
        finds_owner(mark, a, n)
    } else {
        finds_room(mark, a, n)
    }
}

/// Whether both marks find the same, as far as they tell.
#[inline(always)]
pub fn finds_same(x: &Mark, y: &Mark) -> bool
    ensures { result ≡ agree (view_before (cell_of x.now)) (view_before (cell_of y.now)) }
{
    match x {
        Mark::Skip(_) => finds_full(y),
        Mark::Gap(cell) => finds_empty(y, *cell),
        Mark::Touch { cell, node, .. } => finds_owner(y, *cell, *node),
        Mark::Make { cell, node, full } => finds_cell(y, *cell, *node, *full),
        Mark::Fill { cell, node } => finds_room(y, *cell, *node),
    }
}

/// Whether the second mark finds what the first leaves, as far as they tell.
#[inline(always)]
pub fn finds_left(x: &Mark, y: &Mark) -> bool
    ensures { result ≡ agree (view_after (cell_of x.now)) (view_before (cell_of y.now)) }
{
    match x {
        Mark::Skip(_) => finds_full(y),
        Mark::Gap(cell) => finds_empty(y, *cell),
        Mark::Touch {
            cell,
            node,
            how: How::Leave,
        } => finds_room(y, *cell, *node),
        Mark::Touch { cell, node, .. } => finds_owner(y, *cell, *node),
        Mark::Make { cell, node, full } => finds_cell(y, *cell, *node, *full),
        Mark::Fill { cell, node } => finds_owner(y, *cell, *node),
    }
}
