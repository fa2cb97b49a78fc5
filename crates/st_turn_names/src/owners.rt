//! Cells that one step finds with an owner that another step makes, though that one doesn't make the cell.
ghost use Rattle.std.specs.Prelude.{◌≡◌, ◌++◌, cond, true, IfOk, OnOk};
ghost use Rattle.std.specs.BTreeSet.{contains};
ghost use Rattle.std.specs.List.{flat_map, list_any};
ghost use Rattle.std.specs.Ordering.{is_eq};
ghost use Rattle.st_ids.specs.Listing.{IsRising};
ghost use Rattle.st_ids.specs.Order.{cell_cmp, node_cmp};
ghost use Rattle.st_ids.specs.declared.names.CellId.{CellId as Cell};
ghost use Rattle.st_ids.specs.declared.names.NodeId.{NodeId as Node};
ghost use Rattle.st_marks.specs.declared.marks.RowMarks.{RowMarks as Row};
ghost use Rattle.st_marks.specs.Embedding.{is_among};
ghost use Rattle.st_marks.specs.Listings.{
  cells_in,
  cells_made,
  is_among_cells,
  listing_after_step,
  listing_before_step,
  nodes_new,
  one_or_none,
};
ghost use Rattle.st_marks.specs.Row.{spread};
ghost use Rattle.st_clash.specs.Adds.{Adds};
ghost use Rattle.st_clash.specs.inside.Bad.{row_naming};
ghost use Rattle.st_clash.specs.inside.Made.{cell_made_by, cell_of_mark, made_in_rows as made_in};
ghost use Rattle.st_turn_names.specs.Rules.{OwnersEarly};
ghost use Rattle.st_turn_names.specs.inside.Early.{early_by, early_in, if_early as when_early};

use st_clash::{push_if_some, row_field};
use st_climb::new_names;
use st_ids::{CellId, FieldId, List, NodeId};
use st_marks::{Mark, RowMarks, Step};
use std::alloc::{AllocError, Global};
use std::collections::BTreeSet;

// The cell that a mark makes, if any.
fn made_cell_of(mark: Mark) -> Option<CellId>
    ensures { one_or_none result ≡ cell_made_by mark }
{
    match mark {
        Mark::Make { cell, .. } => Some(cell),
        _ => None,
    }
}

// Adds the cells that marks make.
fn add_made(list: &mut List<CellId>, marks: &[Mark]) -> Result<(), AllocError>
    ensures { OnOk result (list.new ≡ list.old ++ cells_made (spread marks.now)) }
{
    for mark in marks {
        push_if_some(list, made_cell_of(*mark))?;
    }
    Ok(())
}

// The cells that rows make.
fn made_in_rows(alloc: Global, rows: &[RowMarks]) -> Result<List<CellId>, AllocError>
    ensures { IfOk result (λ l. l ≡ made_in rows.now) }
{
    let mut list = List::new(alloc);
    for row in rows {
        add_made(&mut list, row.marks.as_slice())?;
    }
    Ok(list)
}

// Puts a cell into a set.
fn add(set: &mut BTreeSet<CellId>, cell: CellId) -> Result<(), AllocError>
    ensures { OnOk result ((c : Cell) → contains cell_cmp set.new c
        ≡ cond (is_eq (cell_cmp cell c)) true (contains cell_cmp set.old c)) }
{
    set.insert(cell)?;
    Ok(())
}

// The set of some cells.
fn set_of(alloc: Global, cells: &[CellId]) -> Result<BTreeSet<CellId>, AllocError>
    ensures { IfOk result (λ s. (c : Cell) → contains cell_cmp s c ≡ is_among_cells cells.now c) }
{
    let mut set = BTreeSet::new(alloc);
    for cell in cells {
        add(&mut set, *cell)?;
    }
    Ok(set)
}

// The nodes and the cells that a step makes.
#[derive(Drop)]
struct Made {
    nodes: BTreeSet<NodeId>,
    cells: BTreeSet<CellId>,
}

// The cell, if its owner is made and it isn't.
fn if_early(made: &Made, cell: CellId, node: NodeId) -> Option<CellId>
    ensures { one_or_none result ≡ when_early (contains node_cmp made.now.nodes) (contains cell_cmp made.now.cells) cell node }
{
    if made.nodes.contains(&node) && !made.cells.contains(&cell) {
        Some(cell)
    } else {
        None
    }
}

// The cell that a mark finds, if it is owned too early.
fn early_of(made: &Made, mark: Mark) -> Option<CellId>
    ensures { one_or_none result ≡ early_by (contains node_cmp made.now.nodes) (contains cell_cmp made.now.cells) mark }
{
    match mark {
        Mark::Touch { cell, node, .. } => if_early(made, cell, node),
        Mark::Fill { cell, node } => if_early(made, cell, node),
        _ => None,
    }
}

// Adds the cells that marks find owned too early.
fn add_early(made: &Made, list: &mut List<CellId>, marks: &[Mark]) -> Result<(), AllocError>
    ensures { OnOk result (list.new ≡ list.old ++ flat_map (early_by (contains node_cmp made.now.nodes) (contains cell_cmp made.now.cells)) marks.now) }
{
    for mark in marks {
        push_if_some(list, early_of(made, *mark))?;
    }
    Ok(())
}

// The cells that rows find owned too early.
fn early_in_rows(alloc: Global, made: &Made, rows: &[RowMarks]) -> Result<List<CellId>, AllocError>
    ensures { IfOk result (λ l. l ≡ early_in (contains node_cmp made.now.nodes) (contains cell_cmp made.now.cells) rows.now) }
{
    let mut list = List::new(alloc);
    for row in rows {
        add_early(made, &mut list, row.marks.as_slice())?;
    }
    Ok(list)
}

// Whether the cell in a mark is in a set.
fn is_in(set: &BTreeSet<CellId>, mark: Mark) -> bool
    ensures { result ≡ list_any (contains cell_cmp set.now) (cell_of_mark mark) }
{
    match mark {
        Mark::Skip(_) => false,
        Mark::Gap(cell) => set.contains(&cell),
        Mark::Touch { cell, .. } => set.contains(&cell),
        Mark::Make { cell, .. } => set.contains(&cell),
        Mark::Fill { cell, .. } => set.contains(&cell),
    }
}

// Whether marks name a cell of a set.
fn name_any(set: &BTreeSet<CellId>, marks: &[Mark]) -> bool
    ensures { result ≡ list_any (contains cell_cmp set.now) (cells_in (spread marks.now)) }
{
    for mark in marks {
        if is_in(set, *mark) {
            return true;
        }
    }
    false
}

// Adds the field of a row that names a cell of a set.
fn push_if_naming(
    alloc: Global,
    found: &mut List<FieldId>,
    set: &BTreeSet<CellId>,
    row: &RowMarks,
) -> Result<(), AllocError>
    ensures { OnOk result (found.new ≡ found.old ++ row_naming (contains cell_cmp set.now) row.now) }
{
    if name_any(set, row.marks.as_slice()) {
        found.push(row_field(alloc, row.node))?;
    }
    Ok(())
}

// Adds the fields of the rows that name a cell of a set.
fn push_naming(
    alloc: Global,
    found: &mut List<FieldId>,
    set: &BTreeSet<CellId>,
    rows: &[RowMarks],
) -> Result<(), AllocError>
    ensures { OnOk result (found.new ≡ found.old ++ flat_map (row_naming (contains cell_cmp set.now)) rows.now) }
{
    for row in rows {
        push_if_naming(alloc, found, set, row)?;
    }
    Ok(())
}

// What a step makes.
fn made_by(alloc: Global, step: &Step) -> Result<Made, AllocError>
    ensures nodes { IfOk result (λ m. (n : Node) → contains node_cmp m.nodes n ≡ is_among (nodes_new step.now.new) n) }
    ensures cells { IfOk result (λ m. (c : Cell) → contains cell_cmp m.cells c ≡ is_among_cells (made_in step.now.rows) c) }
{
    let nodes = new_names(alloc, step.new.as_slice())?;
    let list = made_in_rows(alloc, step.rows.as_slice())?;
    let cells = set_of(alloc, list.as_slice())?;
    Ok(Made { nodes, cells })
}

// The set of the cells that rows find owned too early.
fn early_set(alloc: Global, made: &Made, rows: &[RowMarks]) -> Result<BTreeSet<CellId>, AllocError>
    ensures { IfOk result (λ s. (c : Cell) → contains cell_cmp s c
        ≡ is_among_cells (early_in (contains node_cmp made.now.nodes) (contains cell_cmp made.now.cells) rows.now) c) }
{
    let list = early_in_rows(alloc, made, rows)?;
    set_of(alloc, list.as_slice())
}

// Adds the fields of both steps' rows that name a cell of a set.
fn push_both(
    alloc: Global,
    found: &mut List<FieldId>,
    set: &BTreeSet<CellId>,
    first: &Step,
    then: &Step,
) -> Result<(), AllocError>
    ensures { OnOk result (found.new ≡ found.old ++ flat_map (row_naming (contains cell_cmp set.now)) first.now.rows
        ++ flat_map (row_naming (contains cell_cmp set.now)) then.now.rows) }
{
    push_naming(alloc, found, set, first.rows.as_slice())?;
    push_naming(alloc, found, set, then.rows.as_slice())?;
    Ok(())
}

/// Adds the rows that name a cell which one step finds with an owner that another makes, though that one doesn't make the cell.
/// One may be added twice. Takes O(n log n) for n marks and new nodes.
pub fn push_owners(
    alloc: Global,
    found: &mut List<FieldId>,
    first: &Step,
    then: &Step,
) -> Result<(), AllocError>
    requires rows { IsRising node_cmp (λ (r : Row). r.node) first.now.rows }
    requires rows_then { IsRising node_cmp (λ (r : Row). r.node) then.now.rows }
    ensures { OnOk result (Adds found.old found.new (OwnersEarly (listing_after_step first.now) (listing_before_step then.now)) (Unit {0})) }
{
    let made = made_by(alloc, first)?;
    let early = early_set(alloc, &made, then.rows.as_slice())?;
    push_both(alloc, found, &early, first, then)?;
    Ok(())
}
