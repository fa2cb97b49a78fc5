//! Cells that the second of two changes in turn finds, and that are owned by nodes which the first makes.
ghost use Rattle.std.specs.Prelude.{◌≡◌, ◌⊎◌, ◌^◌, ◌<◌, ◌∷◌, [], length, List as Seq, IfOk, Some, map, option_to_list};
ghost use Rattle.std.specs.BTreeMap.{get};
ghost use Rattle.st_ids.specs.Order.{atom_cmp};
ghost use Rattle.st_ids.specs.declared.names.Atom.{Atom as Name};
ghost use Rattle.st_ids.specs.declared.names.CellId.{CellId as Cell};
ghost use Rattle.st_ids.specs.declared.names.NodeId.{NodeId as Node};
ghost use Rattle.st_kind.specs.Refused.{IsApartWhere};
ghost use Rattle.st_marks.specs.Row.{spread};
ghost use Rattle.st_marks.specs.Listings.{cells_after, cells_before, cells_made};
ghost use Rattle.st_seq.specs.NamedApart.{SaidInTurn, first_named, found_at as at};
ghost use Rattle.st_seq.specs.inside.NamedApart.{IsPlace};
ghost use Rattle.st_seq.specs.OwnedEarly.{OwnedEarly};
ghost use Rattle.st_seq.specs.inside.OwnedEarly.{early_place as early_at, first_early as early_in};
ghost use Rattle.st_seq.specs.declared.name_clashes.NamedAt.{NamedAt as Named};

use crate::name_clashes::{
    NamedAt, by_name, cells_found, found_at, lesser, name_entry, push_name, said_in_turn,
};
use st_ids::{Atom, CellId, List, NodeId, Or};
use st_kind::Apart;
use st_marks::Mark;
use std::alloc::{AllocError, Global};
use std::collections::BTreeMap;

/// The nodes and the cells that a change makes, by their names.
#[derive(Drop)]
struct Made {
    nodes: BTreeMap<Atom, NamedAt>,
    cells: BTreeMap<Atom, NamedAt>,
}

/// The place of a cell of a node that is made, if the cell isn't.
fn early_place(made: &Made, cell: CellId, node: NodeId, left: u32) -> Option<u32>
    ensures { (N M : Seq Named) → ((a : Name) → get atom_cmp made.now.nodes a ≡ first_named N a)
        → ((a : Name) → get atom_cmp made.now.cells a ≡ first_named M a)
        → result ≡ early_at N M left (Some cell) (Some node) }
{
    if name_entry(&made.nodes, node.0).is_some() && name_entry(&made.cells, cell.0).is_none() {
        Some(left)
    } else {
        None
    }
}

/// The same of the cell that a mark finds.
fn early_mark(made: &Made, mark: Mark, left: u32) -> Option<u32>
    ensures { (N M : Seq Named) → ((a : Name) → get atom_cmp made.now.nodes a ≡ first_named N a)
        → ((a : Name) → get atom_cmp made.now.cells a ≡ first_named M a)
        → result ≡ early_in N M left (cells_before (spread (mark ∷ []))) }
{
    match mark {
        Mark::Skip(_) => None,
        Mark::Gap(_) => None,
        Mark::Touch { cell, node, .. } => early_place(made, cell, node, left),
        Mark::Make { .. } => None,
        Mark::Fill { cell, node } => early_place(made, cell, node, left),
    }
}

/// The first of these places.
fn first_early(made: &Made, marks: &[Mark]) -> Option<u32>
    requires { length (cells_before (spread marks.now)) < 2 ^ 32 }
    ensures { (N M : Seq Named) → ((a : Name) → get atom_cmp made.now.nodes a ≡ first_named N a)
        → ((a : Name) → get atom_cmp made.now.cells a ≡ first_named M a)
        → result ≡ early_in N M 0 (cells_before (spread marks.now)) }
{
    let mut place = None;
    let mut left = 0;
    for mark in marks {
        place = lesser(place, early_mark(made, *mark, left));
        left += cells_found(*mark);
    }
    place
}

/// The names of nodes.
fn names_of(alloc: Global, nodes: &[NodeId]) -> Result<List<NamedAt>, AllocError>
    ensures { IfOk result (λ names. names ≡ map (λ (n : Node). at n.0 0) nodes.now) }
{
    let mut out = List::new(alloc);
    for node in nodes {
        out.push(found_at(node.0, 0))?;
    }
    Ok(out)
}

/// The name of a cell that a mark makes.
fn name_made(mark: Mark) -> Option<NamedAt>
    ensures { map (λ (c : Cell). at c.0 0) (cells_made (spread (mark ∷ []))) ≡ option_to_list result }
{
    match mark {
        Mark::Make { cell, .. } => Some(found_at(cell.0, 0)),
        Mark::Skip(_) => None,
        Mark::Gap(_) => None,
        Mark::Touch { .. } => None,
        Mark::Fill { .. } => None,
    }
}

/// The names of the cells that marks make.
fn names_made(alloc: Global, marks: &[Mark]) -> Result<List<NamedAt>, AllocError>
    ensures { IfOk result (λ names. names ≡ map (λ (c : Cell). at c.0 0) (cells_made (spread marks.now))) }
{
    let mut out = List::new(alloc);
    for mark in marks {
        push_name(&mut out, name_made(*mark))?;
    }
    Ok(out)
}

/// These nodes, by their names.
fn nodes_by_name(alloc: Global, nodes: &[NodeId]) -> Result<BTreeMap<Atom, NamedAt>, AllocError>
    ensures { IfOk result (λ all. (a : Name) → get atom_cmp all a
        ≡ first_named (map (λ (n : Node). at n.0 0) nodes.now) a) }
{
    let names = names_of(alloc, nodes)?;
    by_name(alloc, names.as_slice())
}

/// The cells that marks make, by their names.
fn cells_by_name(alloc: Global, marks: &[Mark]) -> Result<BTreeMap<Atom, NamedAt>, AllocError>
    ensures { IfOk result (λ all. (a : Name) → get atom_cmp all a
        ≡ first_named (map (λ (c : Cell). at c.0 0) (cells_made (spread marks.now))) a) }
{
    let names = names_made(alloc, marks)?;
    by_name(alloc, names.as_slice())
}

/// The first place at which the second of two changes in turn finds a cell of a node that the first makes, though the first
/// doesn't make the cell. The first change makes these nodes.
pub fn place_early(
    alloc: Global,
    new: &[NodeId],
    first: &[Mark],
    then: &[Mark],
) -> Result<Option<u32>, AllocError>
    requires { length (cells_before (spread then.now)) < 2 ^ 32 }
    ensures { IfOk result (IsPlace (OwnedEarly new.now (spread first.now) (spread then.now))) }
{
    let nodes = nodes_by_name(alloc, new)?;
    let cells = cells_by_name(alloc, first)?;
    Ok(first_early(&Made { nodes, cells }, then))
}

/// Refuses two changes in turn that name a cell or a node apart, or of which the second finds a cell of a node that the first
/// makes, though the first doesn't make the cell. The first change makes these nodes.
pub fn agree_as_changes(
    alloc: Global,
    new: &[NodeId],
    first: &[Mark],
    then: &[Mark],
) -> Result<(), Or<Apart>>
    requires first { length (cells_after (spread first.now)) < 2 ^ 32 }
    requires then { length (cells_before (spread then.now)) < 2 ^ 32 }
    ensures { IsApartWhere result (λ k. SaidInTurn (spread first.now) (spread then.now) k
        ⊎ OwnedEarly new.now (spread first.now) (spread then.now) k) }
{
    let said = said_in_turn(alloc, first, then)?;
    let early = place_early(alloc, new, first, then)?;
    match lesser(said, early) {
        None => Ok(()),
        Some(place) => Err(Or::Fault(Apart { place })),
    }
}
