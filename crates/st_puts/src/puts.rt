//! Where a change puts nodes.
ghost use Rattle.std.specs.Prelude.{◌≡◌, ◌++◌, [], IfOk, OnOk, false};
ghost use Rattle.std.specs.BTreeMap.{get};
ghost use Rattle.std.specs.List.{flat_map};
ghost use Rattle.std.specs.Option.{option_or};
ghost use Rattle.st_ids.specs.Order.{node_cmp};
ghost use Rattle.st_ids.specs.declared.names.NodeId.{NodeId as Node};
ghost use Rattle.st_marks.specs.declared.intents.Intent.{Intent};
ghost use Rattle.st_marks.specs.declared.marks.RegMark.{RegMark as Register};
ghost use Rattle.st_marks.specs.Document.{Document, IsSoundInForm};
ghost use Rattle.st_marks.specs.Intent.{Fits, put_of};
ghost use Rattle.st_marks.specs.Listings.{one_or_none};
ghost use Rattle.st_mention_laws.specs.Shown.{Shows};
ghost use Rattle.st_puts.specs.inside.First.{first_at};
ghost use Rattle.st_puts.specs.inside.Puts.{
  comes_by,
  comes_told,
  fate_by,
  goes_by,
  goes_told,
  into_nowhere,
  into_register,
  leaving,
  loose_put,
  row_fate,
  set_here,
};

use crate::maps::{keep, keep_one};
use st_ids::{Copied, FieldId, NodeId};
use st_marks::{Change, How, Loose, Mark, RegMark, RowMarks, To};
use std::alloc::{AllocError, Global};
use std::collections::BTreeMap;

// Which puts of a row's marks are told: of those that are put into cells, or of those that leave.
#[derive(Clone, Copy)]
enum Fate {
    Comes,
    Goes,
}

// Who is put into a cell.
fn comes(mark: Mark) -> Option<(NodeId, To)>
    ensures { one_or_none result ≡ comes_by mark }
{
    match mark {
        Mark::Touch {
            cell,
            node,
            how: How::Here,
        } => Some((node, To::Cell(cell))),
        Mark::Make {
            cell,
            node,
            full: true,
        } => Some((node, To::Cell(cell))),
        Mark::Fill { cell, node } => Some((node, To::Cell(cell))),
        _ => None,
    }
}

// Who leaves a cell.
fn goes(mark: Mark) -> Option<(NodeId, To)>
    ensures { one_or_none result ≡ goes_by mark }
{
    match mark {
        Mark::Touch {
            node,
            how: How::Leave,
            ..
        } => Some((node, To::Nowhere)),
        _ => None,
    }
}

// One of these.
fn put_told(fate: Fate, mark: Mark) -> Option<(NodeId, To)>
    ensures { one_or_none result ≡ fate_by fate mark }
{
    match fate {
        Fate::Comes => comes(mark),
        Fate::Goes => goes(mark),
    }
}

// Whether a put of a mark is told.
#[inline(always)]
fn is_told(fate: Fate, mark: &Mark) -> bool
    ensures { result ≡ false → fate_by fate mark.now ≡ [] }
{
    match mark {
        Mark::Touch { how, .. } => match (fate, how) {
            (Fate::Comes, How::Here) => true,
            (Fate::Goes, How::Leave) => true,
            _ => false,
        },
        Mark::Make { full, .. } => match fate {
            Fate::Comes => *full,
            Fate::Goes => false,
        },
        Mark::Fill { .. } => match fate {
            Fate::Comes => true,
            Fate::Goes => false,
        },
        Mark::Skip(_) | Mark::Gap(_) => false,
    }
}

// Keeps the puts of a row's marks.
fn keep_row(puts: &mut BTreeMap<NodeId, To>, fate: Fate, marks: &[Mark]) -> Result<(), AllocError>
    ensures { OnOk result ((n : Node) → get node_cmp puts.new n
        ≡ option_or (get node_cmp puts.old n) (first_at (flat_map (fate_by fate) marks.now) n)) }
{
    for mark in marks {
        if !is_told(fate, mark) {
            continue;
        }
        keep_one(puts, put_told(fate, *mark))?;
    }
    Ok(())
}

// Keeps the puts of rows.
fn keep_rows(
    puts: &mut BTreeMap<NodeId, To>,
    fate: Fate,
    rows: &[RowMarks],
) -> Result<(), AllocError>
    ensures { OnOk result ((n : Node) → get node_cmp puts.new n
        ≡ option_or (get node_cmp puts.old n) (first_at (flat_map (row_fate fate) rows.now) n)) }
{
    for row in rows {
        keep_row(puts, fate, row.marks.as_slice())?;
    }
    Ok(())
}

// Keeps that a node, if there is one, is put into a register.
fn keep_into(
    alloc: Global,
    puts: &mut BTreeMap<NodeId, To>,
    field: &FieldId,
    node: Option<NodeId>,
) -> Result<(), AllocError>
    ensures { OnOk result ((n : Node) → get node_cmp puts.new n
        ≡ option_or (get node_cmp puts.old n) (first_at (into_register field.now node) n)) }
{
    match node {
        None => Ok(()),
        Some(node) => {
            let to = To::Register(field.copy(alloc)?);
            keep(puts, node, to)?;
            Ok(())
        }
    }
}

// The occupant that is set where it is.
fn set_here(reg: &RegMark) -> Option<NodeId>
    ensures { result ≡ set_here reg.now }
{
    match reg.how {
        How::Here => reg.held,
        _ => None,
    }
}

// The occupant that leaves, as put nowhere.
fn leaving(reg: &RegMark) -> Option<(NodeId, To)>
    ensures { one_or_none result ≡ into_nowhere (leaving reg.now) }
{
    match (reg.how, reg.held) {
        (How::Leave, Some(node)) => Some((node, To::Nowhere)),
        _ => None,
    }
}

// Keeps who is put into a register.
fn keep_register(
    alloc: Global,
    puts: &mut BTreeMap<NodeId, To>,
    reg: &RegMark,
) -> Result<(), AllocError>
    ensures { OnOk result ((n : Node) → get node_cmp puts.new n
        ≡ option_or (get node_cmp puts.old n)
        (first_at (into_register reg.now.field reg.now.fill ++ into_register reg.now.field (set_here reg.now)) n)) }
{
    keep_into(alloc, puts, &reg.field, reg.fill)?;
    keep_into(alloc, puts, &reg.field, set_here(reg))?;
    Ok(())
}

// Keeps who is put into registers.
fn keep_registers(
    alloc: Global,
    puts: &mut BTreeMap<NodeId, To>,
    regs: &[RegMark],
) -> Result<(), AllocError>
    ensures { OnOk result ((n : Node) → get node_cmp puts.new n
        ≡ option_or (get node_cmp puts.old n)
        (first_at (flat_map (λ (r : Register). into_register r.field r.fill ++ into_register r.field (set_here r)) regs.now) n)) }
{
    for reg in regs {
        keep_register(alloc, puts, reg)?;
    }
    Ok(())
}

// Keeps who leaves registers as put nowhere.
fn keep_leaving(puts: &mut BTreeMap<NodeId, To>, regs: &[RegMark]) -> Result<(), AllocError>
    ensures { OnOk result ((n : Node) → get node_cmp puts.new n
        ≡ option_or (get node_cmp puts.old n) (first_at (flat_map (λ (r : Register). into_nowhere (leaving r)) regs.now) n)) }
{
    for reg in regs {
        keep_one(puts, leaving(reg))?;
    }
    Ok(())
}

// A node that is nowhere and is put, as put nowhere.
fn loose_put(loose: Loose) -> Option<(NodeId, To)>
    ensures { one_or_none result ≡ loose_put loose }
{
    match loose.how {
        How::Stay => None,
        _ => Some((loose.node, To::Nowhere)),
    }
}

// Keeps the nodes that are nowhere and are put as put nowhere.
fn keep_loose(puts: &mut BTreeMap<NodeId, To>, loose: &[Loose]) -> Result<(), AllocError>
    ensures { OnOk result ((n : Node) → get node_cmp puts.new n
        ≡ option_or (get node_cmp puts.old n) (first_at (flat_map loose_put loose.now) n)) }
{
    for one in loose {
        keep_one(puts, loose_put(*one))?;
    }
    Ok(())
}

// Keeps who is put into cells and registers.
fn keep_comes(
    alloc: Global,
    puts: &mut BTreeMap<NodeId, To>,
    change: &Change,
) -> Result<(), AllocError>
    ensures { OnOk result ((n : Node) → get node_cmp puts.new n
        ≡ option_or (get node_cmp puts.old n) (first_at (comes_told change.now) n)) }
{
    keep_rows(puts, Fate::Comes, change.rows.as_slice())?;
    keep_registers(alloc, puts, change.regs.as_slice())?;
    Ok(())
}

// Keeps who leaves a place, or is set nowhere, as put nowhere.
fn keep_goes(puts: &mut BTreeMap<NodeId, To>, change: &Change) -> Result<(), AllocError>
    ensures { OnOk result ((n : Node) → get node_cmp puts.new n
        ≡ option_or (get node_cmp puts.old n) (first_at (goes_told change.now) n)) }
{
    keep_rows(puts, Fate::Goes, change.rows.as_slice())?;
    keep_leaving(puts, change.regs.as_slice())?;
    keep_loose(puts, change.loose.as_slice())?;
    Ok(())
}

// Where nodes are put, as the marks of a change tell.
fn told_puts(alloc: Global, change: &Change) -> Result<BTreeMap<NodeId, To>, AllocError>
    ensures { IfOk result (λ m. (n : Node) → get node_cmp m n
        ≡ option_or (first_at (comes_told change.now) n) (first_at (goes_told change.now) n)) }
{
    let mut puts = BTreeMap::new(alloc);
    keep_comes(alloc, &mut puts, change)?;
    keep_goes(&mut puts, change)?;
    Ok(puts)
}

/// Where the intent of a change puts nodes, read off the change's marks.
pub fn puts_of(alloc: Global, change: &Change) -> Result<BTreeMap<NodeId, To>, AllocError>
    ensures { (D : Document) (N : Intent) → IsSoundInForm D → Fits D N → Shows D N change.now
        → IfOk result (λ m. (n : Node) → get node_cmp m n ≡ put_of N n) }
{
    told_puts(alloc, change)
}
