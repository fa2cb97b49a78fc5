//! The nodes that a listing of a change tells as named.
ghost use Rattle.std.specs.Prelude.{◌≡◌, ◌||◌, ◌&&◌, not, IfOk, OnOk};
ghost use Rattle.std.specs.BTreeSet.{contains};
ghost use Rattle.std.specs.List.{flat_map};
ghost use Rattle.st_ids.specs.Order.{node_cmp};
ghost use Rattle.st_ids.specs.declared.names.NodeId.{NodeId as Node};
ghost use Rattle.st_marks.specs.Embedding.{is_among};
ghost use Rattle.st_marks.specs.Listings.{nodes_new, one_or_none};
ghost use Rattle.st_puts.specs.inside.Names.{
  loose_names,
  moved_by,
  moved_held,
  names_by,
  names_told,
  node_cleared,
  register_names,
  row_named,
  row_names,
};

use st_climb::{add_all, add_one, new_names, without};
use st_ids::NodeId;
use st_marks::{Change, How, Loose, Mark, RegMark, RowMarks};
use std::alloc::{AllocError, Global};
use std::collections::BTreeSet;

// Who is put, of those that a mark finds.
fn moved(mark: Mark) -> Option<NodeId>
    ensures { result ≡ moved_by mark }
{
    match mark {
        Mark::Touch { how: How::Stay, .. } => None,
        Mark::Touch { node, .. } => Some(node),
        _ => None,
    }
}

// The row's node, where a mark makes a cell in the row, or says that a node is put into one.
fn row_named(row: NodeId, mark: Mark) -> Option<NodeId>
    ensures { result ≡ row_named row mark }
{
    match mark {
        Mark::Touch { how: How::Here, .. } | Mark::Make { .. } | Mark::Fill { .. } => Some(row),
        _ => None,
    }
}

// Adds the nodes that a mark names.
fn add_mark(set: &mut BTreeSet<NodeId>, row: NodeId, mark: Mark) -> Result<(), AllocError>
    ensures { OnOk result ((n : Node) → contains node_cmp set.new n
        ≡ (contains node_cmp set.old n || is_among (names_by row mark) n)) }
{
    add_one(set, moved(mark))?;
    add_one(set, row_named(row, mark))?;
    Ok(())
}

// Adds the nodes that marks name.
fn add_marks(set: &mut BTreeSet<NodeId>, row: NodeId, marks: &[Mark]) -> Result<(), AllocError>
    ensures { OnOk result ((n : Node) → contains node_cmp set.new n
        ≡ (contains node_cmp set.old n || is_among (flat_map (names_by row) marks.now) n)) }
{
    for mark in marks {
        if let Mark::Skip(_) | Mark::Gap(_) | Mark::Touch { how: How::Stay, .. } = mark {
            continue;
        }
        add_mark(set, row, *mark)?;
    }
    Ok(())
}

// Adds the nodes that rows name.
fn add_rows(set: &mut BTreeSet<NodeId>, rows: &[RowMarks]) -> Result<(), AllocError>
    ensures { OnOk result ((n : Node) → contains node_cmp set.new n
        ≡ (contains node_cmp set.old n || is_among (flat_map row_names rows.now) n)) }
{
    for row in rows {
        add_marks(set, row.node, row.marks.as_slice())?;
    }
    Ok(())
}

// The occupant of a register, if it is put.
fn moved_held(reg: &RegMark) -> Option<NodeId>
    ensures { result ≡ moved_held reg.now }
{
    match reg.how {
        How::Stay => None,
        _ => reg.held,
    }
}

// The node of a register, if that is cleared.
fn node_cleared(reg: &RegMark) -> Option<NodeId>
    ensures { result ≡ node_cleared reg.now }
{
    if reg.clear {
        Some(reg.field.node)
    } else {
        None
    }
}

// Adds the nodes that a register names.
fn add_register(set: &mut BTreeSet<NodeId>, reg: &RegMark) -> Result<(), AllocError>
    ensures { OnOk result ((n : Node) → contains node_cmp set.new n
        ≡ (contains node_cmp set.old n || is_among (register_names reg.now) n)) }
{
    add_one(set, moved_held(reg))?;
    add_one(set, node_cleared(reg))?;
    Ok(())
}

// Adds the nodes that registers name.
fn add_registers(set: &mut BTreeSet<NodeId>, regs: &[RegMark]) -> Result<(), AllocError>
    ensures { OnOk result ((n : Node) → contains node_cmp set.new n
        ≡ (contains node_cmp set.old n || is_among (flat_map register_names regs.now) n)) }
{
    for reg in regs {
        add_register(set, reg)?;
    }
    Ok(())
}

// A node that is nowhere, if it is put.
fn moved_loose(loose: Loose) -> Option<NodeId>
    ensures { one_or_none result ≡ loose_names loose }
{
    match loose.how {
        How::Stay => None,
        _ => Some(loose.node),
    }
}

// Adds the nodes that are nowhere and are put.
fn add_loose(set: &mut BTreeSet<NodeId>, loose: &[Loose]) -> Result<(), AllocError>
    ensures { OnOk result ((n : Node) → contains node_cmp set.new n
        ≡ (contains node_cmp set.old n || is_among (flat_map loose_names loose.now) n)) }
{
    for one in loose {
        add_one(set, moved_loose(*one))?;
    }
    Ok(())
}

// Adds the nodes that the marks of a change name, and those that it needs.
fn add_told(set: &mut BTreeSet<NodeId>, change: &Change) -> Result<(), AllocError>
    ensures { OnOk result ((n : Node) → contains node_cmp set.new n
        ≡ (contains node_cmp set.old n || is_among (names_told change.now) n)) }
{
    add_rows(set, change.rows.as_slice())?;
    add_registers(set, change.regs.as_slice())?;
    add_loose(set, change.loose.as_slice())?;
    add_all(set, change.need.as_slice())?;
    Ok(())
}

// The nodes that the marks of a change name, and those that it needs.
fn names_told(alloc: Global, change: &Change) -> Result<BTreeSet<NodeId>, AllocError>
    ensures { IfOk result (λ s. (n : Node) → contains node_cmp s n ≡ is_among (names_told change.now) n) }
{
    let mut set = BTreeSet::new(alloc);
    add_told(&mut set, change)?;
    Ok(set)
}

/// The nodes that a listing of a change tells as named, of those that it doesn't make: whom it puts or needs, and whose fields it
/// names by cells that it makes or fills and by registers that it clears.
pub fn names_listed(alloc: Global, change: &Change) -> Result<BTreeSet<NodeId>, AllocError>
    ensures { IfOk result (λ s. (n : Node) → contains node_cmp s n
        ≡ (is_among (names_told change.now) n && not (is_among (nodes_new change.now.new) n))) }
{
    let names = names_told(alloc, change)?;
    let new = new_names(alloc, change.new.as_slice())?;
    without(alloc, &names, &new)
}
