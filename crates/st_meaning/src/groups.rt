//! The groups of a change, in the order of their places.
ghost use Rattle.std.specs.Prelude.{◌≡◌, ◌≢◌, ◌++◌, [], Option as Maybe, IfOk, OnOk};
ghost use Rattle.std.specs.List.{AllByRecursion, flat_map};
ghost use Rattle.std.specs.Option.{option_to_list};
ghost use Rattle.st_ids.specs.Listing.{IsRising};
ghost use Rattle.st_ids.specs.declared.names.CellId.{CellId as Cell};
ghost use Rattle.st_ids.specs.declared.names.NodeId.{NodeId as Node};
ghost use Rattle.st_marks.specs.declared.intents.Group.{Group as GroupOf};
ghost use Rattle.st_doc.specs.Doc.{document_of};
ghost use Rattle.st_meaning.specs.InOrder.{place_cmp, place_of};
ghost use Rattle.st_meaning.specs.inside.Made.{cells_at, group_here, made_at, made_in_row};

use crate::places::keep_row;
use st_doc::Doc;
use st_ids::{CellId, Copied, List, NodeId};
use st_marks::{Group, Owned, RowMarks};
use std::alloc::{AllocError, Global};
use std::collections::BTreeMap;

// The cells that rows make, by place.
fn made_in_rows(
    alloc: Global,
    doc: &Doc,
    rows: &[RowMarks],
) -> Result<BTreeMap<(NodeId, Option<CellId>), List<Owned>>, AllocError>
    ensures { IfOk result (λ m. (n : Node) (a : Maybe Cell) → cells_at m n a
        ≡ flat_map (made_in_row (document_of doc.now) n a) rows.now) }
{
    let mut cells = BTreeMap::new(alloc);
    for row in rows {
        keep_row(
            alloc,
            &mut cells,
            row.node,
            doc.cells(row.node),
            row.marks.as_slice(),
        )?;
    }
    Ok(cells)
}

// Puts a group behind others, if it makes a cell.
fn push_group(
    alloc: Global,
    groups: &mut List<Group>,
    place: (NodeId, Option<CellId>),
    made: &List<Owned>,
) -> Result<(), AllocError>
    ensures { OnOk result (groups.new ≡ groups.old ++ option_to_list (group_here place.0 place.1 made.now)) }
{
    if made.as_slice().is_empty() {
        return Ok(());
    }
    let (node, after) = place;
    let cells = made.copy(alloc)?;
    groups.push(Group { node, after, cells })?;
    Ok(())
}

// The groups of a map.
fn listed(
    alloc: Global,
    map: &BTreeMap<(NodeId, Option<CellId>), List<Owned>>,
) -> Result<List<Group>, AllocError>
    ensures found { IfOk result (λ gs. (n : Node) (a : Maybe Cell) → made_at gs n a ≡ cells_at map.now n a) }
    ensures rising { IfOk result (IsRising place_cmp place_of) }
    ensures some { IfOk result (AllByRecursion (λ (g : GroupOf). g.cells ≢ [])) }
{
    let mut groups = List::new(alloc);
    for (place, made) in map.iter() {
        push_group(alloc, &mut groups, *place, made)?;
    }
    Ok(groups)
}

/// The cells that rows make, in groups.
pub fn listed_groups(alloc: Global, doc: &Doc, rows: &[RowMarks]) -> Result<List<Group>, AllocError>
    ensures found { IfOk result (λ gs. (n : Node) (a : Maybe Cell) → made_at gs n a
        ≡ flat_map (made_in_row (document_of doc.now) n a) rows.now) }
    ensures rising { IfOk result (IsRising place_cmp place_of) }
    ensures some { IfOk result (AllByRecursion (λ (g : GroupOf). g.cells ≢ [])) }
{
    let map = made_in_rows(alloc, doc, rows)?;
    listed(alloc, &map)
}
